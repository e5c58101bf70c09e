//! What the program does: what its host gives is run, or what hinders that is said. What it promises is the contract
//! of `begin`.

ghost use Rattle.rz_folder.specs.MayRead.{MayReadOf};
ghost use Rattle.rz_tools.specs.Begin.{Begins, ProcessAsks};
ghost use Rattle.rz_tools_answer.specs.World.{Runs};

use crate::program::run;
use rz_folder::{Folder, Sink};
use rz_tools_answer::put_line;
use rz_tools_host::{Host, given};
use std::alloc::Global;

/// Runs the words that the host gives at the moment that it gives, as [`run`] does, and gives the exit status: 0 for
/// Done, 1 for Usage, 2 for Refused, 3 for ReadFault and WriteFault, 4 for NoMemory.
///
/// The words are the arguments after the program's name. The moment is the one that `SOURCE_DATE_EPOCH` tells, if the
/// environment has it, and else the clock's. If an argument isn't UTF-8, or `SOURCE_DATE_EPOCH` tells no moment, no
/// run begins, and the status is 5; it is 4 if there is no memory for what the host gives. Then `err` gets the line
/// that says so, and the folder and `out` are as before.
///
/// The folder has to allow the names that the words ask for to be read, as for [`run`]; for a host that tells
/// nothing, all names.
pub fn begin<H: Host, F: Folder, O: Sink, E: Sink>(
    alloc: Global,
    host: &H,
    folder: &mut F,
    out: &mut O,
    err: &mut E,
) -> u8
    requires { MayReadOf F.Folder folder.old (ProcessAsks (H.process host.now)) }
    ensures { Runs F.Folder O.Sink E.Sink folder.old folder.new out.old out.new err.old err.new
        (λ before after. Begins (H.process host.now) before after result) }
{
    match given(alloc, host) {
        Ok(start) => {
            let words = start.words.as_slice();
            run(alloc, words, folder, out, err, start.moment).status()
        }
        Err(hindrance) => {
            put_line(hindrance.line(), err);
            hindrance.status()
        }
    }
}

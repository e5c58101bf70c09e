//! The lines of outcomes that are no fault, as `specs/Message` has them.

ghost use Rattle.std.specs.Prelude.{◌≡◌, IfOk};
ghost use Rattle.rz_tools_answer.specs.Message.{usage_line};

use rz_core::{Bytes, NoMemory, write_decimal};
use rz_tools_args::UsageFault;
use std::alloc::Global;

/// The line of a file that could not be read.
pub const READ_FAULT: &[u8] = b"rezkit: read fault\n";

/// The line of a file or an output that could not be written.
pub const WRITE_FAULT: &[u8] = b"rezkit: write fault\n";

/// The line where memory was refused.
pub const NO_MEMORY: &[u8] = b"rezkit: no memory\n";

/// The line of words that are no command.
#[tactic(auto, unfolding(crate::specs::Message::usage_line))]
pub fn usage_line(alloc: Global, fault: UsageFault) -> Result<Bytes, NoMemory>
    ensures { IfOk result (λ line. line ≡ usage_line fault.position) }
{
    let mut line = Bytes::new(alloc);
    line.append(b"rezkit: usage: word ")?;
    write_decimal(fault.position, &mut line)?;
    line.append(b"\n")?;
    Ok(line)
}

//! The text of a fork, which is put line by line: of the resources that are chosen, in order. What it is is in
//! `specs/Put`.

ghost use Rattle.std.specs.Prelude.{◌≡◌, ◌≤◌, ◌<◌, ◌^◌, ◌∷◌, [], ℕ, List, length, Ok};
ghost use Rattle.rz_folder.specs.Sink.{faults_with_text, PutsFront, PutsOut};
ghost use Rattle.rz_fork.specs.Admit.{admitted};
ghost use Rattle.rz_fork.specs.Contents.{Fork};
ghost use Rattle.rz_fork.specs.View.{lent};
ghost use Rattle.rz_tools_text.specs.Chosen.{chosen};
ghost use Rattle.rz_tools_text.specs.Held.{known_of};
ghost use Rattle.rz_tools_text.specs.Put.{IsTextOf};
ghost use Rattle.rz_tools_text.specs.Text.{ShowsEach};

use crate::chosen::is_chosen;
use crate::shown::{Known, put_resource};
use rz_core::{Bytes, Listing, NoMemory, OsType};
use rz_folder::{Put, Sink};
use rz_fork::{ForkView, ResView};
use std::alloc::Global;

/// The text of a fork: of the resources whose types are among `only`, where there are any, and not among `skip`, in the
/// order of the fork's map. It is made line by line, while it is put. (MPW DeRez.)
#[derive(Drop)]
pub struct ForkText {
    /// The bytes of the fork.
    pub fork: Bytes,
    /// The types that alone are shown, where there are any.
    pub only: Listing<OsType>,
    /// The types that aren't shown.
    pub skip: Listing<OsType>,
    /// What is known of types and macros.
    pub known: Known,
}

impl ForkText {
    /// Puts the text, one line after the other, and flushes the sink: after `Done` the whole text is out, nothing is
    /// held back, and the sink counts as many faults as before. Beside the bytes of the fork it holds, of one resource
    /// at a time, the name and, under a template, the row. `Failed` is that of the first put that failed, or of the
    /// flush: nothing is put after a put that failed. Every fork can be shown: `NoMemory` is the only refusal, and
    /// comes before the whole text is put; what was put till then stays. (MPW DeRez.)
    pub fn put<O: Sink>(&self, alloc: Global, out: &mut O) -> Result<Put, NoMemory>
        requires short { length self.now.fork < 2 ^ 32 }
        requires admitted { (fork : Fork) × (admitted self.now.fork ≡ Ok fork) }
        ensures told { (text : List ℕ) → IsTextOf self.now text → PutsOut text (O.stream out.old) (O.stream out.new) result }
        ensures counted { O.faults out.new ≡ faults_with_text (O.faults out.old) result }
    {
        match ForkView::admit(self.fork.as_slice()) {
            Ok(fork) => match self.put_each(alloc, &fork, out)? {
                Put::Done => Ok(out.flush()),
                Put::Failed => Ok(Put::Failed),
            },
            Err(_) => unreachable!(),
        }
    }

    /// Puts the lines of the resources of a fork that are chosen.
    fn put_each<O: Sink>(
        &self,
        alloc: Global,
        fork: &ForkView<'_>,
        out: &mut O,
    ) -> Result<Put, NoMemory>
        ensures told { (text : List ℕ) → ShowsEach (known_of self.now.known) (chosen self.now.only self.now.skip fork.now.list) text
            → PutsFront text (O.stream out.old) (O.stream out.new) result }
        ensures counted { O.faults out.new ≡ faults_with_text (O.faults out.old) result }
    {
        let mut walk = fork.walk();
        while let Some(one) = walk.next() {
            match self.put_chosen(alloc, &one, out)? {
                Put::Done => {}
                Put::Failed => return Ok(Put::Failed),
            }
        }
        Ok(Put::Done)
    }

    /// Puts the lines of a resource that is lent, if it is chosen.
    fn put_chosen<O: Sink>(
        &self,
        alloc: Global,
        view: &ResView<'_>,
        out: &mut O,
    ) -> Result<Put, NoMemory>
        ensures told { (text : List ℕ) → ShowsEach (known_of self.now.known) (chosen self.now.only self.now.skip (lent view.now ∷ [])) text
            → PutsFront text (O.stream out.old) (O.stream out.new) result }
        ensures counted { O.faults out.new ≡ faults_with_text (O.faults out.old) result }
    {
        if is_chosen(&self.only, &self.skip, view.kind) {
            put_resource(alloc, view, &self.known, out)
        } else {
            Ok(Put::Done)
        }
    }
}

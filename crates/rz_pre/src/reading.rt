//! What was read so far, and the step over one line. What a step leaves is in `specs/Program` and `specs/Reading`.

ghost use Rattle.std.specs.Prelude.{◌≡◌, ◌+◌, [], reverse, IfOk, OnOk};
ghost use Rattle.rz_core.specs.Stop.{OnFault};
ghost use Rattle.rz_pre.specs.Placed.{IsSourceFault};
ghost use Rattle.rz_core.specs.declared.fault.Mark.{Mark};
ghost use Rattle.rz_pre.specs.declared.act.Act.TheVariants.{Turn};
ghost use Rattle.rz_pre.specs.Program.{opens_after, start, state_after};
ghost use Rattle.rz_pre.specs.Reading.{included_in, state_of, Steps};

use crate::act::Act;
use crate::condition::Tool;
use crate::conditional::{Open, Part};
use crate::line::act_of;
use crate::macros::Macros;
use rz_core::{Bytes, Fault, FileNames, Mark, NoMemory, Stop};
use rz_lex::RawLine;
use rz_pre_source::TokenStore;
use std::alloc::Global;

/// What was read so far.
#[derive(Drop)]
pub struct Reading {
    /// What the words of the source stand for.
    pub macros: Macros,
    /// The tokens that were put out.
    pub tokens: TokenStore,
    /// The names under which files were opened.
    pub files: FileNames,
}

impl Reading {
    /// Nothing was read, and no word stands for anything.
    pub fn new(alloc: Global) -> Reading
        ensures { state_of result ≡ start [] }
    {
        Reading {
            macros: Macros::new(alloc),
            tokens: TokenStore::new(alloc),
            files: FileNames::new(alloc),
        }
    }
}

/// Does what a logical line does, but for the file that it includes, whose name is given back.
pub fn step(
    alloc: Global,
    tool: Tool,
    line: &RawLine,
    opens: &mut Vec<Open>,
    reading: &mut Reading,
) -> Result<Option<Bytes>, Stop<Fault>>
    ensures steps { Steps tool line.now (reverse opens.old.items) (state_of reading.old) result (reverse opens.new.items) (state_of reading.new) }
    ensures nameable { OnFault result (IsSourceFault (line.now.mark.file + 1)) }
{
    let act = act_of(alloc, &reading.macros, tool, opens.last().copied(), line)?;
    Ok(follow(alloc, act, line.mark, opens, reading)?)
}

/// Does this, but for an included file.
fn follow(
    alloc: Global,
    act: Act,
    mark: Mark,
    opens: &mut Vec<Open>,
    reading: &mut Reading,
) -> Result<Option<Bytes>, NoMemory>
    ensures name { IfOk result (λ name. name ≡ included_in act) }
    ensures opens { OnOk result (reverse opens.new.items ≡ opens_after mark act (reverse opens.old.items)) }
    ensures state { OnOk result (state_of reading.new ≡ state_after act (state_of reading.old)) }
{
    match act {
        Act::Nothing => Ok(None),
        Act::Put(tokens) => {
            reading.tokens.append(tokens.as_slice())?;
            Ok(None)
        }
        Act::Include(name) => Ok(Some(name)),
        Act::Set(word, body) => {
            reading.macros.set(alloc, &word, body)?;
            Ok(None)
        }
        Act::Begin(part) => {
            opens.push(Open {
                mark,
                part,
                is_last: false,
            })?;
            Ok(None)
        }
        Act::Turn(part, is_last) => {
            turn(opens, part, is_last)?;
            Ok(None)
        }
        Act::End => {
            opens.pop();
            Ok(None)
        }
    }
}

/// Goes to the next part of the innermost conditional.
fn turn(opens: &mut Vec<Open>, part: Part, is_last: bool) -> Result<(), NoMemory>
    ensures { (mark : Mark) → OnOk result (reverse opens.new.items ≡ opens_after mark (Turn part is_last) (reverse opens.old.items)) }
{
    if let Some(innermost) = opens.pop() {
        opens.push(Open {
            mark: innermost.mark,
            part,
            is_last,
        })?;
    }
    Ok(())
}

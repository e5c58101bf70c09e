//! The values of a pick. Which resources it is for is in `specs/Pick`.

ghost use Rattle.std.specs.Prelude.{◌<◌, ℕ};
ghost use Rattle.rz_core.specs.Message.{IsNameable};
ghost use Rattle.rz_core.specs.Stop.{Gives, OnFault};
ghost use Rattle.rz_stmt_lists.specs.Pick.{pick_of};
ghost use Rattle.rz_tools_values.specs.Head.{head_facts};
ghost use Rattle.rz_tools_work.specs.Pick.{picked};

use rz_core::{Facts, Fault, Mark, OsType, Stop};
use rz_set::Pick;
use rz_stmt_lists::PickExpr;
use rz_tools_values::{Setting, head_facts, id_said};
use rz_types::text_of;
use std::alloc::Global;

/// Which resources of a type a statement on this line is for: the values of its pick, from left to right, and the first
/// fault is the answer: of each id 211, 215 and 204 (outside -32768 to 32767). (MPW Rez.)
pub fn pick_said(
    alloc: Global,
    kind: OsType,
    pick: &PickExpr,
    mark: Mark,
    setting: Setting,
) -> Result<Pick, Stop<Fault>>
    ensures pick { Gives (picked mark (head_facts setting kind.code) (pick_of pick.now)) result }
    ensures nameable { (files : ℕ) → mark.file < files → OnFault result (IsNameable files) }
{
    let known = head_facts(alloc, kind, setting);
    picked(alloc, pick, mark, &known)
}

/// The values of a pick, where so much is known.
fn picked(alloc: Global, pick: &PickExpr, mark: Mark, known: &Facts) -> Result<Pick, Stop<Fault>>
    ensures pick { Gives (picked mark known.now (pick_of pick.now)) result }
    ensures nameable { (files : ℕ) → mark.file < files → OnFault result (IsNameable files) }
{
    match pick {
        PickExpr::All => Ok(Pick::All),
        PickExpr::Id(id) => Ok(Pick::Id(id_said(alloc, id, mark, known)?)),
        PickExpr::Range(first, last) => {
            let first = id_said(alloc, first, mark, known)?;
            let last = id_said(alloc, last, mark, known)?;
            Ok(Pick::Range(first, last))
        }
        PickExpr::Name(texts) => Ok(Pick::Name(text_of(alloc, texts, mark, known)?)),
    }
}

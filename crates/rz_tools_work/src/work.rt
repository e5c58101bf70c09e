//! What the statements so far have made: types, resources, warnings. What each does to it is in `specs/Work`.

ghost use Rattle.std.specs.Prelude.{◌≡◌, [], IfOk};
ghost use Rattle.rz_core.specs.Resources.{KeysDiffer};
ghost use Rattle.rz_set.specs.ResSet.{AreNamed};
ghost use Rattle.rz_tools_work.specs.Held.{work_of};
ghost use Rattle.rz_tools_work.specs.Work.{begun};
ghost use Rattle.rz_types_table.specs.TypeTable.{table_of};

use rz_core::{NoMemory, Resources};
use rz_set::ResSet;
use rz_tools_answer::Faults;
use rz_types_table::TypeTable;
use std::alloc::Global;

/// What the statements so far have made.
#[derive(Drop)]
pub struct Work {
    /// The declarations of types.
    pub types: TypeTable,
    /// The resources.
    pub resources: ResSet,
    /// What is to be warned of.
    pub warnings: Faults,
}

impl Work {
    /// What there is before the first statement: these types and resources, and nothing to be warned of. The pairs of type
    /// and id of the resources differ.
    pub fn begun(alloc: Global, types: TypeTable, list: Resources) -> Result<Work, NoMemory>
        requires keys { KeysDiffer [] list }
        requires named { AreNamed list }
        ensures { IfOk result (λ work. work_of work ≡ begun (table_of types) list) }
    {
        Ok(Work {
            types,
            resources: ResSet::of_list(alloc, list)?,
            warnings: Faults::new(alloc),
        })
    }
}

//! Laws of the types that a file of templates declares. See `specs/Templates`.

ghost use Rattle.std.specs.Prelude.{◌≡◌, ℕ, List, Option, Ok};
ghost use Rattle.std.specs.declared.result.Result.{Result};
ghost use Rattle.rz_core.specs.declared.fault.Fault.{Fault};
ghost use Rattle.rz_folder.specs.Folder.{Files};
ghost use Rattle.rz_types_table.specs.Table.{Declaration};
ghost use Rattle.rz_tools_output.specs.Templates.{AreTemplates, TypesOf};

use rz_tmpl::{every_tmpl_has_a_body, one_body, tmpl_types_are_templates};

/// A law, with nothing to run: a file of templates declares one list of types at most, or has one fault.
pub fn one_types()
    ensures { (name : Option (List ℕ)) (files : Files) (one other : Result (List Declaration) Fault) → TypesOf name files one → TypesOf name files other → one ≡ other }
{
    one_body();
}

/// A law, with nothing to run: whatever each name holds, a file of templates declares types, or has a fault.
pub fn every_types()
    ensures { (name : Option (List ℕ)) (files : Files) → (answer : Result (List Declaration) Fault) × TypesOf name files answer }
{
    every_tmpl_has_a_body();
}

/// A law, with nothing to run: what a file of templates declares are templates: the fields of each declaration are well
/// shaped and keep the rules.
pub fn types_are_templates()
    ensures { (name : Option (List ℕ)) (files : Files) (types : List Declaration) → TypesOf name files (Ok types) → AreTemplates types }
{
    tmpl_types_are_templates();
}

//! Laws of the preprocessor: named files mean one program at most, and a token has one expansion at most.

ghost use Rattle.std.specs.Prelude.{◌≡◌, ℕ, List, Result};
ghost use Rattle.rz_folder.specs.Folder.{Files};
ghost use Rattle.rz_lex.specs.declared.token.Shape.{Shape};
ghost use Rattle.rz_pre.specs.Expand.{Expansion};
ghost use Rattle.rz_pre.specs.Live.{Live};
ghost use Rattle.rz_pre.specs.Program.{ProgramGoes, State};
ghost use Rattle.rz_pre.specs.declared.program.Failure.{Failure};
ghost use Rattle.rz_pre.specs.declared.condition.Tool.{Tool};
ghost use Rattle.rz_pre.specs.declared.program.Def.{Def};

use rz_expr::one_expression;
use rz_lex::{one_cut, one_list_of_lines};
use rz_pre_source::one_text;

/// A law, with nothing to run: the named files mean at most one program or one first fault.
pub fn one_program()
    ensures { (files : Files) (tool : Tool) (names paths : List (List ℕ)) (defs : List Def) (one other : Result State Failure)
        → ProgramGoes files tool names paths defs one → ProgramGoes files tool names paths defs other → one ≡ other }
{
    one_cut();
    one_list_of_lines();
    one_expression();
    one_text();
}

/// A law, with nothing to run: a token has at most one expansion, with one number of tokens that are handled
/// for it.
#[tactic(auto, using(crate::proofs::One::one_expansion))]
pub fn one_expansion()
    ensures { (live : Live) (shape : Shape) (one other : List Shape) (work count : ℕ)
        → Expansion live shape one work → Expansion live shape other count → (one ≡ other) × (work ≡ count) }
{}

//! Laws of `sample`: for each count that it takes it answers four numbers, which are those of an explicit list.

ghost use Rattle.std.specs.Prelude.{◌≡◌, ◌<◌, ◌≤◌, ◌∷◌, ℕ, [], List};
ghost use Rattle.rz_core.specs.Decimal.{decimal_of};
ghost use Rattle.rz_core.specs.declared.moment.Moment.{Moment};
ghost use Rattle.rz_folder.specs.Folder.{Files};
ghost use Rattle.rz_tools_laws.specs.Sampled.{sampled_lines, IsMadeAgain};
ghost use Rattle.rz_tools.specs.Program.{Answers};
ghost use Rattle.rz_tools_answer.specs.Answer.{shown, Answer};
ghost use Rattle.rz_tools_args.specs.Command.{places_of, IsCommand, Item};
ghost use Rattle.rz_tools_args.specs.declared.name.CommandName.TheVariants.{Sample};

use crate::statements_go_on;
use rz_bridge_files::forks_are_found_raw;
use rz_lex::{cut_back, lines_of_page};
use rz_show_laws::{printed_rows, shown_text, spelled_texts};
use rz_show_lines::printed_line;
use rz_tools::one_answer;
use rz_types::rules_hold_within;
use rz_unlay::{plain_rows_are_spelled, spelled_rows_are_rows};

/// A law, with nothing to run: for each count from 1 to 5,000 the source of a sample is compiled to the fork of an
/// explicit list, this fork is shown as the text of that list, and the text is compiled to the same fork, each without
/// a warning.
pub fn samples_are_made()
    ensures { (count : ℕ) → 0 < count → count ≤ 5000 → (moment : Moment) → IsMadeAgain count moment }
{
    cut_back();
    lines_of_page();
    printed_line();
    printed_rows();
    shown_text();
    spelled_texts();
    spelled_rows_are_rows();
    plain_rows_are_spelled();
    rules_hold_within();
    forks_are_found_raw();
    statements_go_on();
}

/// A law, with nothing to run: a command `sample` names a count from 1 to 5,000, and its answer is Done: this count,
/// and the lengths of the fork of a list, of its text, and of the same fork again.
pub fn samples_are_answered()
    ensures { (words : List (List ℕ)) (items : List Item) (files : Files) (moment : Moment) (answer : Answer)
        → IsCommand words (record { name = Sample; items = items }) → Answers words files moment answer
        → (count : ℕ) × (0 < count) × (count ≤ 5000) × (places_of items ≡ decimal_of count ∷ []) × (answer ≡ shown (sampled_lines count)) }
{
    samples_are_made();
    one_answer();
}

//! Laws: the lines that are written are cut into the tokens that are meant. They speak of the definitions in `specs`.

ghost use Rattle.std.specs.Prelude.{◌≡◌, ◌++◌, true, ℕ, List, Bool, map};
ghost use Rattle.std.specs.List.{AllByRecursion};
ghost use Rattle.rz_lex.specs.declared.token.Shape.{Shape};
ghost use Rattle.rz_show_lines.specs.Print.{list_lines, Prints};
ghost use Rattle.rz_show_lines.specs.Written.{are_apart, line_shapes, line_text, lines_text, IsWritten, Written};
ghost use Rattle.rz_show_lines.specs.Good.{AreGood};
ghost use Rattle.rz_show_lines.specs.Page.{AreCutBack, ArePrinted, IsPage, IsPrinted};

use rz_lex::cut_back;

/// A law, with nothing to run: a line of written tokens, of which no two words or numbers stand side by side, is cut
/// into the tokens that are meant, wherever it stands.
pub fn printed_line()
    ensures { (line : List Written) → AllByRecursion IsWritten line → are_apart line ≡ true
        → IsPrinted (line_text line) (line_shapes line) }
{
    cut_back();
}

/// A law, with nothing to run: where items may be written and no word of them is a live macro, their lines are cut into
/// the tokens that are meant, wherever they stand, and no live macro expands one of them.
pub fn printed_lines()
    ensures { (hidden : List ℕ → Bool) (depth : ℕ) (items : Prints) → AreGood hidden items → AreCutBack hidden (list_lines depth items) }
{
    printed_line();
}

/// A law, with nothing to run: lines that are cut into the tokens that are meant, in front of a page, are a page with
/// it.
pub fn printed_page()
    ensures { (lines : List (List Written)) (text : List ℕ) (more : List (List Shape)) → ArePrinted lines → IsPage text more
        → IsPage (lines_text lines ++ text) (map line_shapes lines ++ more) }
{}

//! One line of each form; changes with `specs/Print`, `specs/Head` and `specs/Statement`.
#![tactic(auto, using(crate::proofs::Forms::forms))]

ghost use Rattle.std.specs.Prelude.{◌≡◌, [], ◌∷◌, ◌++◌, option_map};
ghost use Rattle.rz_lex.specs.declared.sign.Sign.TheVariants.{CloseBrace, Semicolon};
ghost use Rattle.rz_show_lines.specs.Cut.{cut};
ghost use Rattle.rz_show.specs.Head.{head_end};
ghost use Rattle.rz_show_lines.specs.Head.{head_front};
ghost use Rattle.rz_show.specs.Lines.{comma_if, end_if, named, opening};
ghost use Rattle.rz_show_lines.specs.Print.{margin, piece_written, single_written};
ghost use Rattle.rz_show_lines.specs.Single.{single_of};
ghost use Rattle.rz_show_lines.specs.Written.{a_sign, as_line, line_text};

use rz_core::{Attr, Facts};
use rz_show_lines::{Line, PIECE, Single, attributes, head_front};

/// A line after its margin.
fn at(depth: u8, line: &mut Line)
    ensures { line.new ≡ cut (line_text (margin depth)) }
{
    line.clear();
    line.margin(depth);
}

/// What stands on one line, and a comma where an item stands after.
pub fn single_line(depth: u8, single: &Single<'_>, behind: bool, line: &mut Line)
    ensures { line.new ≡ cut (as_line (margin depth ++ (single_written (single_of single.now) ++ comma_if behind))) }
{
    at(depth, line);
    line.single(single);
    line.comma(behind);
    line.push(b'\n');
}

/// A piece of a text, and a comma where an item stands after.
pub fn piece_line(depth: u8, piece: &[u8], hex: bool, behind: bool, line: &mut Line)
    ensures { line.new ≡ cut (as_line (margin depth ++ piece_written hex piece.now ∷ comma_if behind)) }
{
    at(depth, line);
    line.piece(piece, hex);
    line.comma(behind);
    line.push(b'\n');
}

/// The brace before items, and the name before it, where there is one.
pub fn open_line(depth: u8, name: Option<&[u8]>, line: &mut Line)
    ensures { line.new ≡ cut (as_line (margin depth ++ opening (option_map (λ n. n.now) name.entry))) }
{
    at(depth, line);
    if let Some(name) = name {
        line.append(name);
        line.push(b' ');
    }
    line.append(b"{\n");
}

/// The brace after items, and a comma where an item stands after it.
pub fn close_line(depth: u8, behind: bool, line: &mut Line)
    ensures { line.new ≡ cut (as_line (margin depth ++ a_sign CloseBrace ∷ comma_if behind)) }
{
    at(depth, line);
    line.push(b'}');
    line.comma(behind);
    line.push(b'\n');
}

/// The end of a statement.
pub fn end_line(line: &mut Line)
    ensures { line.new ≡ cut (as_line (a_sign CloseBrace ∷ a_sign Semicolon ∷ [])) }
{
    line.clear();
    line.append(b"};\n");
}

/// An empty line.
pub fn blank_line(line: &mut Line)
    ensures { line.new ≡ cut (as_line []) }
{
    line.clear();
    line.push(b'\n');
}

/// The front of the line that begins a statement.
fn front(word: &[u8], facts: &Facts, line: &mut Line)
    ensures { line.new ≡ cut (line_text (head_front word.now facts.now.kind.code facts.now.id)) }
{
    line.clear();
    head_front(word, facts.kind.code, facts.id, line);
}

/// The line that begins a statement with this word. A name of more than 64 bytes stands on lines of its own after it.
pub fn head_line(word: &[u8], facts: &Facts, line: &mut Line)
    ensures { line.new ≡ cut (as_line (head_front word.now facts.now.kind.code facts.now.id ++ named facts.now.name facts.now.attr)) }
{
    front(word, facts, line);
    head_name(facts.name.as_slice(), facts.attr, line);
    line.push(b'\n');
}

/// A piece of a name that stands on lines of its own, and the end of the head after the last.
pub fn name_line(piece: &[u8], hex: bool, last: bool, attr: Attr, line: &mut Line)
    ensures { line.new ≡ cut (as_line (margin 1 ++ piece_written hex piece.now ∷ end_if last attr)) }
{
    at(1, line);
    line.piece(piece, hex);
    end_if(last, attr, line);
    line.push(b'\n');
}

/// Writes a name of at most 64 bytes, where there is one, and the end of the head, or the comma before a longer name.
fn head_name(name: &[u8], attr: Attr, line: &mut Line)
    ensures { line.new ≡ cut (line.old ++ line_text (named name.now attr)) }
{
    if name.is_empty() {
        head_end(attr, line);
    } else if name.len() <= PIECE {
        line.append(b", ");
        line.piece(name, false);
        head_end(attr, line);
    } else {
        line.push(b',');
    }
}

/// Writes the attributes, and after a parenthesis the brace that the items stand in.
#[tactic(auto, using(crate::proofs::Forms::forms), unfolding(crate::specs::Head::head_end))]
fn head_end(attr: Attr, line: &mut Line)
    ensures { line.new ≡ cut (line.old ++ line_text (head_end attr)) }
{
    attributes(attr, line);
    line.append(b") {");
}

/// Writes the end of a head, where it stands there.
fn end_if(last: bool, attr: Attr, line: &mut Line)
    ensures { line.new ≡ cut (line.old ++ line_text (end_if last attr)) }
{
    if last {
        head_end(attr, line);
    } else {
        line.append(b"");
    }
}

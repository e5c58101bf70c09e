//! Statements that are put line by line; changes with `specs/Statement` and `specs/Lines`.

ghost use Rattle.std.specs.Prelude.{◌≡◌, true, [], ◌∷◌, map, FitsSigned, MatchOption};
ghost use Rattle.std.specs.Int.{w16};
ghost use Rattle.rz_show.specs.Hidden.{hides};
ghost use Rattle.rz_show.specs.Lines.{end_left, hidden_in, lines_left, outside, part_behind, part_left, AreItemsReady, GivesLine, IsBehindHead};
ghost use Rattle.rz_show.specs.declared.lines.Part.TheVariants as parts;
ghost use Rattle.rz_show.specs.Statement.{data_lines, row_lines};
ghost use Rattle.rz_show_lines.specs.Written.{as_line};
ghost use Rattle.rz_types.specs.Field.{plain_body};
ghost use Rattle.rz_types.specs.Rules.{keeps_rules};
ghost use Rattle.rz_types.specs.Shape.{is_well_shaped};
ghost use Rattle.rz_types_fields.specs.Row.{IsRow};

use crate::Hidden;
use crate::form::{blank_line, end_line, head_line, name_line};
use crate::items::Items;
use crate::open_list::OpenList;
use rz_core::Facts;
use rz_show_lines::{Line, PIECE, Text};
use rz_types::{Field, rules_hold_within};
use rz_types_fields::Tree;
use std::marker::Model;

/// What is to come first.
#[derive(Clone, Copy)]
pub enum Part<'a> {
    /// The head.
    Head,
    /// The rest of a name that stands on lines of its own.
    Name(Text<'a>),
    /// The items.
    Items,
    /// The empty line after the statement.
    Blank,
    /// Nothing.
    Done,
}

/// A statement of which some lines are still to come.
#[derive(Drop)]
pub struct Rest<'a> {
    /// The word of the statement.
    pub word: &'static [u8],
    /// What is known of the resource.
    pub facts: &'a Facts,
    /// The live macros, where items may be hidden.
    pub hidden: Option<&'a Hidden>,
    /// What is to come first.
    pub part: Part<'a>,
    /// The items.
    pub items: Items<'a>,
}

/// The lines of a statement that are still to come, each with its line end: a `data` statement of bytes, or a `resource`
/// statement of a row. They are given one after the other, without memory. Contracts see the list of them.
#[derive(Drop)]
pub struct ShowLines<'a> {
    rest: Rest<'a>,
}

impl<'a> Model for ShowLines<'a> {
    ghost use Rattle.std.specs.Prelude.{ℕ, List, map};
    ghost use Rattle.rz_show.specs.Written.{as_line};
    ghost use Rattle.rz_show.specs.Lines.{lines_left, IsReady};

    ghost Value = { List (List ℕ) };

    ghost view = { λ lines. map as_line (lines_left lines.rest) };

    ghost invariant = { λ lines. IsReady lines.rest };
}

/// A law, which reads the id and does nothing with it: it has 16 bits.
fn id_fits(facts: &Facts)
    ensures { FitsSigned w16 facts.now.id }
{
    let _id = facts.id;
}

/// What stands after the first line of a head: a name of more than 64 bytes, or else the items.
fn behind_head<'a>(facts: &'a Facts) -> Part<'a>
    ensures { IsBehindHead facts.now.name result }
{
    let bytes = facts.name.as_slice();
    if bytes.len() <= PIECE {
        return Part::Items;
    }
    Part::Name(Text { bytes, hex: false })
}

/// What stands after a piece of such a name.
fn part_behind<'a>(rest: Option<Text<'a>>) -> Part<'a>
    ensures { result ≡ part_behind rest.entry }
{
    match rest {
        Some(rest) => Part::Name(rest),
        None => Part::Items,
    }
}

impl<'a> Rest<'a> {
    /// A whole statement: a text, where one stands before the items of the list, and these items.
    fn new(
        word: &'static [u8],
        facts: &'a Facts,
        hidden: Option<&'a Hidden>,
        text: Option<Text<'a>>,
        list: OpenList<'a>,
    ) -> Rest<'a>
        ensures word { result.word.now ≡ word.now }
        ensures facts { result.facts.now ≡ facts.now }
        ensures hidden { result.hidden ≡ hidden.entry }
        ensures part { result.part ≡ parts.Head }
        ensures text { result.items.text ≡ text.entry }
        ensures list { result.items.list ≡ list.entry }
        ensures outer { outside result.items ≡ [] }
    {
        Rest {
            word,
            facts,
            hidden,
            part: Part::Head,
            items: Items::new(text, list),
        }
    }

    /// Writes the next line, where one is left.
    fn next(&mut self, line: &mut Line) -> Option<()>
        requires { AreItemsReady (hidden_in self.old) self.old.items }
        ensures ready { AreItemsReady (hidden_in self.new) self.new.items }
        ensures line { MatchOption result ((lines_left self.old ≡ []) × (lines_left self.new ≡ [])) (λ _. GivesLine line.new (lines_left self.old) (lines_left self.new)) }
    {
        match self.part {
            Part::Head => {
                self.part = behind_head(self.facts);
                head_line(self.word, self.facts, line);
            }
            Part::Name(text) => self.name(text, line),
            Part::Items => self.item(line),
            Part::Blank => {
                self.part = Part::Done;
                blank_line(line);
            }
            Part::Done => return None,
        }
        Some(())
    }

    /// Writes the next line of a name that stands on lines of its own.
    fn name(&mut self, text: Text<'a>, line: &mut Line)
        ensures line { GivesLine line.new (part_left self.old (parts.Name text.entry)) (lines_left self.new) }
        ensures items { self.new.items ≡ self.old.items }
        ensures hidden { self.new.hidden ≡ self.old.hidden }
    {
        let front = text.front();
        self.part = part_behind(front.rest);
        name_line(
            front.piece,
            text.hex,
            front.rest.is_none(),
            self.facts.attr,
            line,
        );
    }

    /// Writes the next line of the items, or the end of the statement.
    fn item(&mut self, line: &mut Line)
        requires part { self.old.part ≡ parts.Items }
        requires ready { AreItemsReady (hidden_in self.old) self.old.items }
        ensures ready { AreItemsReady (hidden_in self.new) self.new.items }
        ensures line { GivesLine line.new (end_left self.old) (lines_left self.new) }
    {
        match self.items.next(self.hidden, line) {
            Some(()) => {}
            None => {
                self.part = Part::Blank;
                end_line(line);
            }
        }
    }
}

impl<'a> ShowLines<'a> {
    /// The lines of the `data` statement of a resource with these facts and these bytes, and an empty line. The first
    /// line has the type as a literal, the id in decimal, the name where there is one, and the attributes where there
    /// are any: as words, or as `$` and two upper-case hex digits where a bit without a word is set. A name of more than
    /// 64 bytes stands in pieces of 64 bytes on lines of their own. Then come lines of 16 bytes, each `$"`, upper-case
    /// hex digits in groups of two bytes, and `"`; where there are no bytes, the one line `$""`. Lines end in 0A. The
    /// moment of the facts isn't shown. Every resource can be shown, and no memory is taken. (MPW DeRez.)
    pub fn of_bytes(facts: &'a Facts, bytes: &'a [u8]) -> ShowLines<'a>
        ensures { result ≡ map as_line (data_lines facts.now bytes.now) }
    {
        id_fits(facts);
        let text = Text { bytes, hex: true };
        let rest = Rest::new(b"data", facts, None, Some(text), OpenList::default());
        ShowLines { rest }
    }

    /// The lines of the `resource` statement of a resource with these facts, which is such a row of these fields, and an
    /// empty line. The first line is that of `of_bytes` with the word `resource`. Then come the row's items, one level
    /// deep, each on a line of its own, the items of an array's rows and of a case one level deeper; every item but the
    /// last of its list is followed by a comma. A level is four blanks, and at most eight show. A number is shown by the
    /// first of its symbols that gives it, unless that is a live macro, and else by its value. Fields that take no value
    /// show nothing. Every row can be shown, and no memory is taken; what is read back is a matter of the row, and of
    /// the live macros, which are hidden. Its time is in proportion to the fields of each row that is walked and the
    /// text; a case is looked up by its name, a symbol by the number, and a macro only where a symbol is about to be
    /// shown. (MPW DeRez.)
    pub fn of_tree(
        facts: &'a Facts,
        fields: &'a [Field],
        row: &'a [Tree],
        hidden: &'a Hidden,
    ) -> ShowLines<'a>
        requires shaped { is_well_shaped (plain_body fields.now) ≡ true }
        requires kept { keeps_rules (plain_body fields.now) ≡ true }
        requires is { IsRow (plain_body fields.now) row.now }
        ensures { result ≡ map as_line (row_lines (hides hidden.now) facts.now (plain_body fields.now) row.now) }
    {
        id_fits(facts);
        rules_hold_within();
        let list = OpenList::of_row(fields, row);
        let rest = Rest::new(b"resource", facts, Some(hidden), None, list);
        ShowLines { rest }
    }

    /// Writes the next line with its line end in place of what the caller's line holds, where one is left. It takes no
    /// memory, and its time is that of the line and of the fields and rows up to the next item.
    pub fn next(&mut self, line: &mut Line) -> Option<()>
        ensures { MatchOption result ((self.old ≡ []) × (self.new ≡ [])) (λ _. self.old ≡ line.new ∷ self.new) }
    {
        self.rest.next(line)?;
        Some(())
    }
}

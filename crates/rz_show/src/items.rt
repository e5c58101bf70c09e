//! The lines of items that are still to come; changes with `specs/Lines`.

ghost use Rattle.std.specs.Prelude.{◌≡◌, ℕ, ◌+◌, ◌<◌, ◌≤◌, Bool, List, [], ◌∷◌, ◌++◌, length, None, option_map, MatchOption};
ghost use Rattle.rz_show.specs.Lines.{behind_lines, entry_print, items_left, left, level, opening, outside, AreItemsReady, GivesLine, HasRoom, IsEntry, IsOpen};
ghost use Rattle.rz_show_lines.specs.Print.{comma, margin, print_lines, text_lines};
ghost use Rattle.rz_show_lines.specs.Cut.{cut};
ghost use Rattle.rz_show.specs.Hidden.{hides_in};
ghost use Rattle.rz_show_lines.specs.Written.{as_line};
ghost use Rattle.rz_show.specs.Height.{height};

use crate::Hidden;
use crate::entry::{Entry, entry_of};
use crate::form::{close_line, open_line, piece_line, single_line};
use crate::open_list::OpenList;
use arrayvec::ArrayVec;
use rz_show_lines::{Line, Text};

/// The most lists that stand in each other: the fields of a type have no more levels.
const MOST_LISTS: usize = 61;

/// The deepest level that shows.
const DEEPEST: usize = 8;

/// Items of which a part is still to come.
#[derive(Drop)]
pub struct Items<'a> {
    /// A text of which some pieces are left.
    pub text: Option<Text<'a>>,
    /// What is left of the list in which the next item stands.
    pub list: OpenList<'a>,
    /// What is left of the lists outside of it, the outermost first.
    pub outer: ArrayVec<OpenList<'a>, MOST_LISTS>,
}

impl<'a> Items<'a> {
    /// A list of items, of which a text stands before the first.
    pub fn new(text: Option<Text<'a>>, list: OpenList<'a>) -> Items<'a>
        ensures text { result.text ≡ text.entry }
        ensures list { result.list ≡ list.entry }
        ensures outer { outside result ≡ [] }
    {
        Items {
            text,
            list,
            outer: ArrayVec::new(),
        }
    }

    /// The depth of the list in which the next item stands, as far as it shows.
    fn depth(&self) -> u8
        ensures { result ≡ level (length (outside self.now)) }
    {
        (self.outer.len() + 1).min(DEEPEST) as u8
    }

    /// Writes the next line, where one is left.
    pub fn next(&mut self, hidden: Option<&Hidden>, line: &mut Line) -> Option<()>
        requires { AreItemsReady (hides_in (option_map (λ h. h.now) hidden)) self.old }
        ensures ready { AreItemsReady (hides_in (option_map (λ h. h.now) hidden.entry)) self.new }
        ensures line { MatchOption result (items_left (hides_in (option_map (λ h. h.now) hidden.entry)) self.old ≡ []) (λ _. GivesLine line.new (items_left (hides_in (option_map (λ h. h.now) hidden.entry)) self.old) (items_left (hides_in (option_map (λ h. h.now) hidden.entry)) self.new)) }
    {
        if let Some(text) = self.text {
            self.piece(text, line);
            return Some(());
        }
        if let Some(item) = self.list.first() {
            let entry = entry_of(item.field, item.value, hidden);
            self.list = item.others;
            self.begin(entry, line);
            return Some(());
        }
        self.list = self.outer.pop()?;
        close_line(self.depth(), self.list.has_more(), line);
        Some(())
    }

    /// Writes the next piece of a text, whose list is the present one.
    fn piece(&mut self, text: Text<'a>, line: &mut Line)
        requires { IsOpen self.old.list }
        ensures line { (hidden : List ℕ → Bool) → GivesLine line.new (text_lines (level (length (outside self.old))) (comma (left hidden self.old.list)) text.entry.hex text.entry.bytes.now ++ behind_lines hidden self.old.list (outside self.old)) (items_left hidden self.new) }
        ensures list { self.new.list ≡ self.old.list }
        ensures outer { outside self.new ≡ outside self.old }
    {
        let front = text.front();
        self.text = front.rest;
        let behind = front.rest.is_none() && self.list.has_more();
        piece_line(self.depth(), front.piece, text.hex, behind, line);
    }

    /// Writes the first line of an item, which stands before those that are left.
    fn begin(&mut self, entry: Entry<'a>, line: &mut Line)
        requires text { self.old.text ≡ None }
        requires settled { IsOpen self.old.list }
        requires room { HasRoom (length (outside self.old)) entry }
        ensures line { (hidden : List ℕ → Bool) → GivesLine line.new (print_lines (level (length (outside self.old))) (comma (left hidden self.old.list)) (entry_print hidden entry.entry) ++ behind_lines hidden self.old.list (outside self.old)) (items_left hidden self.new) }
        ensures ready { (hidden : List ℕ → Bool) → AreItemsReady hidden self.old → IsEntry entry.entry → length (outside self.old) + height (entry_print hidden entry.entry) ≤ 61 → AreItemsReady hidden self.new }
    {
        match entry {
            Entry::Single(single) => single_line(self.depth(), &single, self.list.has_more(), line),
            Entry::Text(text) => self.piece(text, line),
            Entry::Block(name, inner) => self.enter(name, inner, line),
        }
    }

    /// Writes the line that opens a list, which stands before what is left of the present one.
    fn enter(&mut self, name: Option<&'a [u8]>, inner: OpenList<'a>, line: &mut Line)
        requires { length (outside self.old) < 61 }
        ensures line { line.new ≡ cut (as_line (margin (level (length (outside self.old))) ++ opening (option_map (λ n. n.now) name.entry))) }
        ensures text { self.new.text ≡ self.old.text }
        ensures list { self.new.list ≡ inner.entry }
        ensures outer { outside self.new ≡ self.old.list ∷ outside self.old }
    {
        open_line(self.depth(), name, line);
        self.outer.push(self.list);
        self.list = inner;
    }
}

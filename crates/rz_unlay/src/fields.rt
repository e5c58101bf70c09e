//! The reader of fields, rows and cases, from left to right. What it finds is in `specs/Cursor`.

ghost use Rattle.std.specs.Prelude.{◌≡◌, ◌+◌, ◌≤◌, pos, suc, length, drop, IfOk, IfSome, None, OnOk, option_map};
ghost use Rattle.rz_bits.specs.View.{seen};
ghost use Rattle.rz_types_fields.specs.Spells.{values_in};
ghost use Rattle.rz_types.specs.Field.{field_and, plain_array, plain_body, plain_case, plain_cases, plain_field};
ghost use Rattle.rz_unlay.specs.Came.{array_row, chosen, found_of, line_at, row_body, AreLines, IsLine};
ghost use Rattle.rz_unlay_pieces.specs.Came.{met_of};
ghost use Rattle.rz_unlay.specs.Cursor.{body_found, case_found, field_found, most_rows, rows_until};
ghost use Rattle.rz_unlay_pieces.specs.Few.{few, step_count, value_count};
ghost use Rattle.rz_unlay.specs.Few.{found_count, line_count, lines_count, rows_count};
ghost use Rattle.rz_unlay.specs.Fits.{AreFit, CasesFit, Fits};
ghost use Rattle.rz_types_fields.specs.FlatRows.{PlacesAre};
ghost use Rattle.rz_types_fields.specs.Known.{known, met, which_of, Grew};
ghost use Rattle.rz_types_fields.specs.Passed.{met_behind};
ghost use Rattle.rz_types_fields.specs.Sees.{marked};
ghost use Rattle.rz_unlay.specs.Rows.{pushed};

use crate::came::{RowCame, RowsCame};
use crate::cases::case_there;
use crate::leaf::{read_pieces, spend};
use crate::rows::{Until, push_row, row_after, until_of};
use crate::steps::{push_label, push_value, tail};
use rz_bits::BitView;
use rz_core::{Facts, NoMemory};
use rz_types_fields::{ArrayField, Case, CaseHints, Field, InRow, Row, RowList, Tree};
use rz_unlay_pieces::{Learnt, Met, Spot, claim_count, enter, learn_rows};
use std::alloc::Global;

/// What is read: the bits of a resource, and what is known of it.
#[derive(Drop)]
pub struct Reader<'v> {
    /// Where memory is taken.
    pub alloc: Global,
    /// The bits.
    pub view: &'v BitView<'v>,
    /// What is known of the resource.
    pub facts: &'v Facts,
}

impl Reader<'_> {
    ghost use Rattle.std.specs.Prelude.{◌≡◌, ◌+◌, ◌≤◌, pos, suc, length, drop, IfOk, IfSome, None, OnOk, option_map};
    ghost use Rattle.rz_bits.specs.View.{seen};
    ghost use Rattle.rz_types_fields.specs.Spells.{values_in};
    ghost use Rattle.rz_types.specs.Field.{field_and, plain_array, plain_body, plain_case, plain_cases, plain_field};
    ghost use Rattle.rz_unlay.specs.Came.{array_row, chosen, found_of, line_at, row_body, AreLines, IsLine};
    ghost use Rattle.rz_unlay_pieces.specs.Came.{met_of};
    ghost use Rattle.rz_unlay.specs.Cursor.{body_found, case_found, field_found, most_rows, rows_until};
    ghost use Rattle.rz_unlay_pieces.specs.Few.{few, step_count, value_count};
    ghost use Rattle.rz_unlay.specs.Few.{found_count, line_count, lines_count, rows_count};
    ghost use Rattle.rz_unlay.specs.Fits.{AreFit, CasesFit, Fits};
    ghost use Rattle.rz_types_fields.specs.FlatRows.{PlacesAre};
    ghost use Rattle.rz_types_fields.specs.Known.{known, met, which_of, Grew};
    ghost use Rattle.rz_types_fields.specs.Passed.{met_behind};
    ghost use Rattle.rz_types_fields.specs.Sees.{marked};
    ghost use Rattle.rz_unlay.specs.Rows.{pushed};

    /// Reads the row of a body, with at most so many values: what is learnt of the names of its own is forgotten after it.
    #[cycle(read)]
    pub fn read_body<'a>(
        &self,
        fields: &'a [Field],
        which: Option<InRow<'a>>,
        learnt: &mut Learnt<'a>,
        at: u32,
        left: u32,
    ) -> Result<Option<RowCame>, NoMemory>
        requires fits { AreFit (plain_body fields.now) }
        requires at { at ≤ length (seen self.now.view.now) }
        requires marks { length learnt.old.marks ≤ at }
        ensures row { IfOk result (λ came. IsLine (plain_body fields.now) learnt.new.marks came
            (few line_count left (line_at self.now.facts.now (seen self.now.view.now) (which_of which.entry) (plain_body fields.now) (met learnt.old.notes.items) (known learnt.old.notes.items) at (marked at learnt.old.marks)))) }
        ensures left { IfOk result (λ came. IfSome came (λ r. r.left + values_in r.row ≡ left)) }
        ensures within { IfOk result (λ came. IfSome came (λ r. r.after ≤ length (seen self.now.view.now))) }
        ensures marks { IfOk result (λ came. IfSome came (λ r. length learnt.new.marks ≤ r.after)) }
        ensures notes { IfOk result (λ came. IfSome came (λ r. learnt.new.notes.items ≡ learnt.old.notes.items)) }
    {
        let around = learnt.notes.len();
        enter(fields, which, learnt)?;
        let came = self.read_fields(fields, learnt, at, left)?;
        learnt.notes.truncate(around);
        Ok(came)
    }

    /// Reads fields one after the other.
    #[cycle(read)]
    fn read_fields<'a>(
        &self,
        fields: &'a [Field],
        learnt: &mut Learnt<'a>,
        at: u32,
        left: u32,
    ) -> Result<Option<RowCame>, NoMemory>
        requires fits { AreFit (plain_body fields.now) }
        requires at { at ≤ length (seen self.now.view.now) }
        requires marks { length learnt.old.marks ≤ at }
        ensures row { IfOk result (λ came. option_map (found_of learnt.new) came
            ≡ few found_count left (body_found self.now.facts.now (seen self.now.view.now) (met learnt.old.notes.items) (plain_body fields.now) (known learnt.old.notes.items) at (marked at learnt.old.marks))) }
        ensures places { IfOk result (λ came. IfSome came (λ r. PlacesAre (known learnt.new.notes.items) (plain_body fields.now) r.places.items)) }
        ensures left { IfOk result (λ came. IfSome came (λ r. r.left + values_in r.row ≡ left)) }
        ensures within { IfOk result (λ came. IfSome came (λ r. r.after ≤ length (seen self.now.view.now))) }
        ensures marks { IfOk result (λ came. IfSome came (λ r. length learnt.new.marks ≤ r.after)) }
        ensures grew { IfOk result (λ came. IfSome came (λ r. Grew learnt.old.notes.items learnt.new.notes.items)) }
    {
        let mut row = Row::new(self.alloc);
        let mut places = Vec::new(self.alloc);
        let mut end = at;
        let mut more = left;
        let mut behind = 0;
        for field in fields {
            let here = tail(fields, behind);
            behind += 1;
            push_label(&mut places, field, end)?;
            match self.read_field(field, here, tail(fields, behind), learnt, end, more)? {
                Some(found) => {
                    push_value(&mut row, found.value)?;
                    end = found.after;
                    more = found.left;
                }
                None => return Ok(None),
            }
        }
        Ok(Some(RowCame {
            row,
            places,
            after: end,
            left: more,
        }))
    }

    /// Reads a field, with at most so many values.
    #[cycle(read)]
    fn read_field<'a>(
        &self,
        field: &'a Field,
        here: &[Field],
        rest: &[Field],
        learnt: &mut Learnt<'a>,
        at: u32,
        left: u32,
    ) -> Result<Option<Met>, NoMemory>
        requires here { plain_body here.now ≡ field_and (plain_field field.now) (plain_body rest.now) }
        requires fits { Fits (plain_field field.now) }
        requires at { at ≤ length (seen self.now.view.now) }
        requires marks { length learnt.old.marks ≤ at }
        ensures step { IfOk result (λ found. option_map (met_of learnt.new) found
            ≡ few step_count left (field_found self.now.facts.now (seen self.now.view.now) (plain_body rest.now) (met learnt.old.notes.items) (plain_field field.now) (known learnt.old.notes.items) at (marked at learnt.old.marks))) }
        ensures left { IfOk result (λ found. IfSome found (λ m. m.left + value_count m.value ≡ left)) }
        ensures within { IfOk result (λ found. IfSome found (λ m. m.after ≤ length (seen self.now.view.now))) }
        ensures marks { IfOk result (λ found. IfSome found (λ m. length learnt.new.marks ≤ m.after)) }
        ensures met { IfOk result (λ found. IfSome found (λ m. met learnt.new.notes.items ≡ met_behind (plain_field field.now) (met learnt.old.notes.items))) }
        ensures grew { IfOk result (λ found. IfSome found (λ m. Grew learnt.old.notes.items learnt.new.notes.items)) }
    {
        match field {
            Field::Num(_)
            | Field::Text(_)
            | Field::Points(_)
            | Field::Fill(..)
            | Field::Align(_)
            | Field::Label(_) => {
                let spot = Spot {
                    view: self.view,
                    facts: self.facts,
                    fields: here,
                    rest,
                    first: at,
                };
                match read_pieces(self.alloc, &spot, field, learnt, at)? {
                    Some(came) => Ok(spend(came, left)),
                    None => Ok(None),
                }
            }
            Field::Array(array) => self.read_array(array, rest, learnt, at, left),
            Field::Switch(cases, hints) => {
                self.read_case(cases.as_slice(), hints, learnt, at, left)
            }
        }
    }

    /// Reads the rows of an array, which tell the number of its rows.
    #[cycle(read)]
    fn read_array<'a>(
        &self,
        array: &'a ArrayField,
        rest: &[Field],
        learnt: &mut Learnt<'a>,
        at: u32,
        left: u32,
    ) -> Result<Option<Met>, NoMemory>
        requires fits { Fits (plain_array array.now) }
        requires at { at ≤ length (seen self.now.view.now) }
        requires marks { length learnt.old.marks ≤ at }
        ensures step { IfOk result (λ found. option_map (met_of learnt.new) found
            ≡ few step_count left (field_found self.now.facts.now (seen self.now.view.now) (plain_body rest.now) (met learnt.old.notes.items) (plain_array array.now) (known learnt.old.notes.items) at (marked at learnt.old.marks))) }
        ensures left { IfOk result (λ found. IfSome found (λ m. m.left + value_count m.value ≡ left)) }
        ensures within { IfOk result (λ found. IfSome found (λ m. m.after ≤ length (seen self.now.view.now))) }
        ensures marks { IfOk result (λ found. IfSome found (λ m. length learnt.new.marks ≤ m.after)) }
        ensures met { IfOk result (λ found. IfSome found (λ m. met learnt.new.notes.items ≡ met_behind (plain_array array.now) (met learnt.old.notes.items))) }
        ensures grew { IfOk result (λ found. IfSome found (λ m. Grew learnt.old.notes.items learnt.new.notes.items)) }
    {
        let notes = &learnt.notes;
        let until = match until_of(self.view, &array.name, array.count, rest, notes) {
            Some(until) => until,
            None => return Ok(None),
        };
        let came = match self.read_rows(array, until, learnt, at, left)? {
            Some(came) => came,
            None => return Ok(None),
        };
        let count = came.rows.len();
        match claim_count(&array.name, count as u32, learnt) {
            Ok(true) => {}
            Ok(false) => {
                drop(came);
                return Ok(None);
            }
            Err(error) => {
                drop(came);
                return Err(error);
            }
        }
        learn_rows(array.row.as_slice(), count as u64, came.places, learnt)?;
        Ok(Some(Met {
            value: Some(Tree::Rows(came.rows)),
            after: came.after,
            left: came.left,
        }))
    }

    /// Reads the rows of an array, from the first on, up to where they end.
    #[cycle(read)]
    fn read_rows<'a>(
        &self,
        array: &'a ArrayField,
        until: Until,
        learnt: &mut Learnt<'a>,
        at: u32,
        left: u32,
    ) -> Result<Option<RowsCame>, NoMemory>
        requires fits { Fits (plain_array array.now) }
        requires at { at ≤ length (seen self.now.view.now) }
        requires marks { length learnt.old.marks ≤ at }
        ensures rows { IfOk result (λ came. AreLines (row_body array.now) learnt.new.marks came
            (few lines_count left (rows_until (array_row self.now.facts.now (seen self.now.view.now) array.now (met learnt.old.notes.items) (known learnt.old.notes.items)) until
            (most_rows until (length (seen self.now.view.now))) 0 at (marked at learnt.old.marks)))) }
        ensures left { IfOk result (λ came. IfSome came (λ r. r.left + rows_count r.rows ≡ left)) }
        ensures within { IfOk result (λ came. IfSome came (λ r. r.after ≤ length (seen self.now.view.now))) }
        ensures marks { IfOk result (λ came. IfSome came (λ r. length learnt.new.marks ≤ r.after)) }
        ensures notes { IfOk result (λ came. IfSome came (λ r. learnt.new.notes.items ≡ learnt.old.notes.items)) }
    {
        let fields = array.row.as_slice();
        let mut so_far = RowsCame {
            rows: RowList::new(self.alloc),
            places: Vec::new(self.alloc),
            after: at,
            left,
        };
        for _turn in 0..until.most(self.view) {
            if !until.goes_on(&so_far) {
                return Ok(until.over(so_far));
            }
            if so_far.left == 0 {
                drop(so_far);
                return Ok(None);
            }
            let which = row_after(&array.name, &so_far);
            match self.read_body(fields, which, learnt, so_far.after, so_far.left - 1) {
                Ok(Some(came)) => push_row(&mut so_far, came)?,
                Ok(None) => {
                    drop(so_far);
                    return Ok(None);
                }
                Err(error) => {
                    drop(so_far);
                    return Err(error);
                }
            }
        }
        Ok(until.over(so_far))
    }

    /// Reads the case whose key stands there.
    #[cycle(read)]
    fn read_case<'a>(
        &self,
        cases: &'a [Case],
        hints: &CaseHints,
        learnt: &mut Learnt<'a>,
        at: u32,
        left: u32,
    ) -> Result<Option<Met>, NoMemory>
        requires fits { CasesFit (plain_cases cases.now) }
        requires at { at ≤ length (seen self.now.view.now) }
        requires marks { length learnt.old.marks ≤ at }
        ensures step { IfOk result (λ found. option_map (met_of learnt.new) found
            ≡ few step_count left (case_found self.now.facts.now (seen self.now.view.now) (met learnt.old.notes.items) (plain_cases cases.now) (known learnt.old.notes.items) at (marked at learnt.old.marks))) }
        ensures left { IfOk result (λ found. IfSome found (λ m. m.left + value_count m.value ≡ left)) }
        ensures within { IfOk result (λ found. IfSome found (λ m. m.after ≤ length (seen self.now.view.now))) }
        ensures marks { IfOk result (λ found. IfSome found (λ m. length learnt.new.marks ≤ m.after)) }
        ensures notes { IfOk result (λ found. IfSome found (λ m. learnt.new.notes.items ≡ learnt.old.notes.items)) }
    {
        match case_there(self.view, cases, hints, at) {
            Some(position) => self.read_choice(&cases[position], learnt, at, left),
            None => Ok(None),
        }
    }

    /// Reads the row of a case.
    #[cycle(read)]
    fn read_choice<'a>(
        &self,
        case: &'a Case,
        learnt: &mut Learnt<'a>,
        at: u32,
        left: u32,
    ) -> Result<Option<Met>, NoMemory>
        requires fits { AreFit (plain_case case.now).row }
        requires at { at ≤ length (seen self.now.view.now) }
        requires marks { length learnt.old.marks ≤ at }
        ensures step { IfOk result (λ found. option_map (met_of learnt.new) found
            ≡ few step_count left (chosen (plain_case case.now).name (known learnt.old.notes.items) (line_at self.now.facts.now (seen self.now.view.now) None (plain_case case.now).row (met learnt.old.notes.items) (known learnt.old.notes.items) at (marked at learnt.old.marks)))) }
        ensures left { IfOk result (λ found. IfSome found (λ m. m.left + value_count m.value ≡ left)) }
        ensures within { IfOk result (λ found. IfSome found (λ m. m.after ≤ length (seen self.now.view.now))) }
        ensures marks { IfOk result (λ found. IfSome found (λ m. length learnt.new.marks ≤ m.after)) }
        ensures notes { IfOk result (λ found. IfSome found (λ m. learnt.new.notes.items ≡ learnt.old.notes.items)) }
    {
        let fields = case.row.as_slice();
        match self.read_body(fields, None, learnt, at, left)? {
            Some(came) => {
                let name = case.name.copy(self.alloc)?;
                Ok(Some(Met {
                    value: Some(Tree::Choice(name, came.row)),
                    after: came.after,
                    left: came.left,
                }))
            }
            None => Ok(None),
        }
    }
}

//! Names of labels and of arrays, as the walk gathers them.

ghost use Rattle.std.specs.Prelude.{IfOk, OnOk, ◌≡◌, ◌++◌, map, option_map};
ghost use Rattle.std.specs.Option.{option_to_list};
ghost use Rattle.rz_types_fields.specs.Field.{plain_body, plain_field};
ghost use Rattle.rz_types.specs.Walk.{and_names, around_names, label_name, labels_in, names_of, no_names, own_names};
ghost use Rattle.rz_types_check.specs.Walked.{counts_in, first_names, own_of};

use crate::name_list::NameList;
use rz_core::{NoMemory, Word};
use rz_types_fields::Field;
use std::alloc::Global;

/// Names of labels and of arrays.
#[derive(Drop)]
pub struct Names<'a> {
    /// Those of labels.
    pub labels: NameList<'a>,
    /// Those of arrays.
    pub arrays: NameList<'a>,
    /// Those of labels that stand directly in the rows of arrays.
    pub indexed: NameList<'a>,
    /// Those of arrays around.
    pub around: NameList<'a>,
}

/// How many names of each kind there are.
#[derive(Clone, Copy)]
pub struct Counts {
    /// Those of labels.
    pub labels: usize,
    /// Those of arrays.
    pub arrays: usize,
    /// Those of labels in rows.
    pub indexed: usize,
    /// Those of arrays around.
    pub around: usize,
}

/// How many names of each kind there are.
pub fn counts_of(names: &Names<'_>) -> Counts
    ensures { result ≡ counts_in names.now }
{
    Counts {
        labels: names.labels.list.len(),
        arrays: names.arrays.list.len(),
        indexed: names.indexed.list.len(),
        around: names.around.list.len(),
    }
}

impl Names<'_> {
    /// Keeps so many of each kind.
    pub fn cut(&mut self, counts: Counts)
        ensures { own_of self.new ≡ first_names counts (own_of self.old) }
    {
        self.labels.cut(counts.labels);
        self.arrays.cut(counts.arrays);
        self.indexed.cut(counts.indexed);
        self.around.cut(counts.around);
    }
}

/// No names.
pub fn no_names<'a>(alloc: Global) -> Names<'a>
    ensures { own_of result ≡ no_names }
{
    Names {
        labels: NameList::new(alloc),
        arrays: NameList::new(alloc),
        indexed: NameList::new(alloc),
        around: NameList::new(alloc),
    }
}

/// Appends the names of the labels and arrays of a body.
pub fn push_names<'a>(names: &mut Names<'a>, row: &'a [Field]) -> Result<(), NoMemory>
    ensures { OnOk result (own_of names.new ≡ and_names (own_of names.old) (names_of (plain_body row.now))) }
{
    for field in row {
        push_name(names, field)?;
    }
    Ok(())
}

/// Appends the name of an array around, where it has one.
pub fn push_around<'a>(names: &mut Names<'a>, name: &'a Option<Word>) -> Result<(), NoMemory>
    ensures { OnOk result (own_of names.new ≡ and_names (own_of names.old) (around_names name.now)) }
{
    push_if(&mut names.around, name.as_ref())
}

/// Appends the name of a label, or of an array with those of the labels directly in its rows.
pub fn push_name<'a>(names: &mut Names<'a>, field: &'a Field) -> Result<(), NoMemory>
    ensures { OnOk result (own_of names.new ≡ and_names (own_of names.old) (own_names (plain_field field.now))) }
{
    push_if(&mut names.labels, label_of(field))?;
    push_if(&mut names.arrays, array_of(field))?;
    push_indexed(&mut names.indexed, field)
}

/// Appends the names of the labels that stand directly in the rows of an array.
fn push_indexed<'a>(names: &mut NameList<'a>, field: &'a Field) -> Result<(), NoMemory>
    ensures { OnOk result (map (λ name. name.now) names.new.list.items ≡ map (λ name. name.now) names.old.list.items ++ (own_names (plain_field field.now)).indexed) }
{
    match field {
        Field::Array(array) => push_labels(names, array.row.as_slice()),
        _ => Ok(()),
    }
}

/// Appends the names of the labels that stand directly in a body.
fn push_labels<'a>(names: &mut NameList<'a>, row: &'a [Field]) -> Result<(), NoMemory>
    ensures { OnOk result (map (λ name. name.now) names.new.list.items ≡ map (λ name. name.now) names.old.list.items ++ labels_in (plain_body row.now)) }
{
    for field in row {
        push_if(names, label_of(field))?;
    }
    Ok(())
}

/// Appends a name, where there is one.
fn push_if<'a>(names: &mut NameList<'a>, name: Option<&'a Word>) -> Result<(), NoMemory>
    ensures { OnOk result (map (λ name. name.now) names.new.list.items ≡ map (λ name. name.now) names.old.list.items ++ option_to_list (option_map (λ name. name.now) name.entry)) }
{
    if let Some(name) = name {
        names.push(name)?;
    }
    Ok(())
}

/// The name of a label.
fn label_of(field: &Field) -> Option<&Word>
    ensures { option_to_list (option_map (λ name. name.now) result) ≡ label_name (plain_field field.now) }
{
    match field {
        Field::Label(name) => Some(name),
        _ => None,
    }
}

/// The name of an array.
fn array_of(field: &Field) -> Option<&Word>
    ensures { option_to_list (option_map (λ name. name.now) result) ≡ (own_names (plain_field field.now)).arrays }
{
    match field {
        Field::Array(array) => array.name.as_ref(),
        _ => None,
    }
}

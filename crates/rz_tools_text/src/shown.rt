//! One resource, put line by line: by a row of its type if there is one, else by its bytes, as `specs/Shown` says.

ghost use Rattle.std.specs.Prelude.{◌≡◌, ◌≤◌, ℕ, if◌then◌else◌, List, Some, None, Ok, option_map, IfOk};
ghost use Rattle.std.specs.List.{concat};
ghost use Rattle.rz_core.specs.Decided.{Decided};
ghost use Rattle.rz_folder.specs.Counts.{faults_with};
ghost use Rattle.rz_folder.specs.Sink.{faults_with_text, Puts, PutsFront};
ghost use Rattle.rz_fork.specs.View.{lent};
ghost use Rattle.rz_show.specs.Hidden.{hides};
ghost use Rattle.rz_show.specs.Shown.{row_uses};
ghost use Rattle.rz_tools_text.specs.Held.{known_of, macros_held};
ghost use Rattle.rz_types_table.specs.Table.{declared_for};
ghost use Rattle.rz_tools_text.specs.Shown.{Shown, TellsRow};
ghost use Rattle.rz_types.specs.Template.{template_of};
ghost use Rattle.rz_types_table.specs.TypeTable.{table_of};
ghost use Rattle.rz_unlay.specs.Reading.{facts_of};

use crate::laws::one_shown_text;
use rz_core::{Bytes, Facts, Moment, NoMemory, Words};
use rz_folder::{Put, Sink};
use rz_fork::ResView;
use rz_show::{Hidden, ShowLines, uses_hidden};
use rz_show_lines::Line;
use rz_types::Template;
use rz_types_fields::Row;
use rz_types_table::TypeTable;
use rz_unlay::{spelled_rows_are_rows, tree_under};
use std::alloc::Global;

/// What is known where resources are shown.
#[derive(Drop)]
pub struct Known {
    /// The declarations of types.
    pub types: TypeTable,
    /// The names that are macros.
    pub macros: Hidden,
    /// The moment of the run.
    pub moment: Moment,
}

impl Known {
    /// What is known after type files: their declarations, and their macros by their names in lower case.
    pub fn of(
        alloc: Global,
        types: TypeTable,
        macros: &Words,
        moment: Moment,
    ) -> Result<Known, NoMemory>
        ensures { IfOk result (λ known. known_of known ≡ record { types = table_of types; is_macro = macros_held macros.now; moment = moment }) }
    {
        let macros = Hidden::of(alloc, macros.as_slice())?;
        Ok(Known {
            types,
            macros,
            moment,
        })
    }

    /// The template that is declared for a resource.
    fn template_for(&self, view: &ResView<'_>) -> Option<&Template>
        ensures { option_map (λ template. template_of template.now) result ≡ declared_for (table_of self.now.types) (lent view.now) }
    {
        self.types.find(view.kind, view.id)
    }
}

/// Puts the lines of a resource that is lent: the `resource` statement with the row that its bytes tell under the type
/// that is declared for it, unless the row chooses a case whose name is a macro; and where there is no such row its
/// `data` statement. Of the resource its name alone is copied. Every resource can be shown: `NoMemory` is the only
/// refusal, and then nothing is put. (MPW DeRez.)
pub fn put_resource<O: Sink>(
    alloc: Global,
    view: &ResView<'_>,
    known: &Known,
    out: &mut O,
) -> Result<Put, NoMemory>
    ensures told { (text : List ℕ) → Shown (known_of known.now) (lent view.now) text → PutsFront text (O.stream out.old) (O.stream out.new) result }
    ensures counted { O.faults out.new ≡ faults_with_text (O.faults out.old) result }
{
    one_shown_text();
    let facts = facts_of(alloc, view, known.moment)?;
    match known.template_for(view) {
        Some(template) => put_under(alloc, view, &facts, template, known, out),
        None => Ok(put_lines(ShowLines::of_bytes(&facts, view.bytes), out)),
    }
}

/// Puts lines, up to one whose put fails.
fn put_lines<O: Sink>(lines: ShowLines<'_>, out: &mut O) -> Put
    ensures told { Puts (concat lines.entry) (O.stream out.old) (O.stream out.new) result }
    ensures counted { O.faults out.new ≡ faults_with (O.faults out.old) result }
{
    let mut left = lines;
    let mut line = Line::new();
    'lines: while let Some(()) = left.next(&mut line) {
        match out.put(line.as_slice()) {
            Put::Done => {}
            Put::Failed => return Put::Failed,
        }
    }
    Put::Done
}

/// What is known of a resource that is lent beside its bytes. Its name is copied.
pub fn facts_of(alloc: Global, view: &ResView<'_>, moment: Moment) -> Result<Facts, NoMemory>
    ensures { IfOk result (λ facts. facts ≡ facts_of moment (lent view.now)) }
{
    Ok(Facts {
        kind: view.kind,
        id: view.id,
        name: Bytes::of(alloc, view.name)?,
        attr: view.attr,
        moment,
    })
}

/// Puts the lines of a resource with these facts under the template that is declared for it.
fn put_under<O: Sink>(
    alloc: Global,
    view: &ResView<'_>,
    facts: &Facts,
    template: &Template,
    known: &Known,
    out: &mut O,
) -> Result<Put, NoMemory>
    requires facts { facts.now ≡ facts_of known.now.moment (lent view.now) }
    requires declared { declared_for (table_of known.now.types) (lent view.now) ≡ Some (template_of template.now) }
    ensures told { (text : List ℕ) → Shown (known_of known.now) (lent view.now) text → PutsFront text (O.stream out.old) (O.stream out.new) result }
    ensures counted { O.faults out.new ≡ faults_with_text (O.faults out.old) result }
{
    one_shown_text();
    spelled_rows_are_rows();
    let row = row_told(alloc, view, facts, template, known)?;
    let fields = template.body();
    match row {
        Some(row) => Ok(put_lines(
            ShowLines::of_tree(facts, fields.as_slice(), row.as_slice(), &known.macros),
            out,
        )),
        None => Ok(put_lines(ShowLines::of_bytes(facts, view.bytes), out)),
    }
}

/// The row that the bytes of a resource with these facts tell under the template that is declared for it, unless it
/// chooses a case whose name is a macro.
fn row_told(
    alloc: Global,
    view: &ResView<'_>,
    facts: &Facts,
    template: &Template,
    known: &Known,
) -> Result<Option<Row>, NoMemory>
    requires facts { facts.now ≡ facts_of known.now.moment (lent view.now) }
    requires declared { declared_for (table_of known.now.types) (lent view.now) ≡ Some (template_of template.now) }
    ensures { IfOk result (Decided (TellsRow (known_of known.now) (lent view.now) (template_of template.now))) }
{
    match tree_under(alloc, Some(template), view.bytes, facts)? {
        Some(row) => unless_hidden(alloc, template, row, known),
        None => Ok(None),
    }
}

/// A row of the fields of a template, unless it chooses a case whose name is a macro.
fn unless_hidden(
    alloc: Global,
    template: &Template,
    row: Row,
    known: &Known,
) -> Result<Option<Row>, NoMemory>
    ensures { IfOk result (λ found. found ≡ (if row_uses (hides known.now.macros) (template_of template.now) row then None else Some row)) }
{
    if uses_hidden(alloc, template, row.as_slice(), &known.macros)? {
        Ok(None)
    } else {
        Ok(Some(row))
    }
}

//! The text of a file, which is put piece by piece. What it is stands in `specs/Text`, of what the code holds in
//! `specs/Held`.

ghost use Rattle.std.specs.Prelude.{◌≡◌, ◌≤◌, ◌++◌, codes, length, Ok};
ghost use Rattle.std.specs.List.{flat_map};
ghost use Rattle.rz_core.specs.Decimal.{decimal_of};
ghost use Rattle.rz_folder.specs.Counts.{faults_with};
ghost use Rattle.rz_folder.specs.Sink.{PutsOut};
ghost use Rattle.rz_bridge_files.specs.Forms.{form_word};
ghost use Rattle.rz_told.specs.Held.{text_of, IsWhole};
ghost use Rattle.rz_told.specs.Parts.{fork_fact, shown_name};
ghost use Rattle.rz_told.specs.Puts.{PutsText};
ghost use Rattle.rz_told.specs.Text.{carried_facts, fact, file_text, resource_line};

use crate::facts::{after_name, before_name, number_fact};
use crate::put::{Failed, put_bytes, put_line, put_shown};
use crate::resource::put_resource;
use rz_bridge::MacFile;
use rz_bridge_files::Form;
use rz_folder::{Put, Sink};
use rz_fork::ForkView;
use rz_show_lines::Line;

/// The text of a file that came in this form: a line for each fact that the form carries, the length of its resource
/// fork, a line for each resource in the order of the fork's map, and how many these are. It is made while it is put.
#[derive(Drop)]
pub struct FileText {
    /// The form in which the file came.
    pub form: Form,
    /// The file.
    pub file: MacFile,
}

impl FileText {
    /// Puts the text, and flushes the sink: after `Done` the whole text is out, nothing is held back, and the sink
    /// counts as many faults as before. `Failed` is that of the first put that failed, or of the flush: nothing is put
    /// after a put that failed. It takes no memory.
    pub fn put<O: Sink>(&self, out: &mut O) -> Put
        requires { IsWhole self.now }
        ensures told { PutsOut (text_of self.now) (O.stream out.old) (O.stream out.new) (Ok result) }
        ensures counted { O.faults out.new ≡ faults_with (O.faults out.old) result }
    {
        match self.put_whole(out) {
            Ok(()) => out.flush(),
            Err(Failed) => Put::Failed,
        }
    }

    /// Puts the text of the fork that the file has.
    fn put_whole<O: Sink>(&self, out: &mut O) -> Result<(), Failed>
        requires { IsWhole self.now }
        ensures { PutsText O.Sink out.old out.new (text_of self.now) result }
    {
        match ForkView::admit(self.file.res_fork.as_slice()) {
            Ok(fork) => self.put_text(&fork, out),
            Err(_) => Ok(()),
        }
    }

    /// Puts the text with the resources of a fork.
    fn put_text<O: Sink>(&self, fork: &ForkView<'_>, out: &mut O) -> Result<(), Failed>
        ensures { PutsText O.Sink out.old out.new (file_text self.now.form self.now.file fork.now.list) result }
    {
        self.put_facts(out)?;
        put_resources(fork, out)?;
        put_line(count(fork), out)
    }

    /// Puts the facts, and the length of the fork.
    fn put_facts<O: Sink>(&self, out: &mut O) -> Result<(), Failed>
        ensures { PutsText O.Sink out.old out.new (fact (codes "form") (form_word self.now.form) ++ carried_facts self.now.form self.now.file ++ fork_fact self.now.file) result }
    {
        put_bytes(before_name(self.form), out)?;
        self.put_name(out)?;
        put_line(after_name(self.form, &self.file), out)
    }

    /// Puts the name, in a form that has one.
    fn put_name<O: Sink>(&self, out: &mut O) -> Result<(), Failed>
        ensures { PutsText O.Sink out.old out.new (shown_name self.now.form self.now.file) result }
    {
        match self.form {
            Form::Raw => Ok(()),
            Form::AppleDouble | Form::AppleSingle | Form::MacBinary | Form::BinHex => {
                put_shown(self.file.name.as_slice(), out)
            }
        }
    }
}

/// Puts the lines of the resources of a fork.
fn put_resources<O: Sink>(fork: &ForkView<'_>, out: &mut O) -> Result<(), Failed>
    ensures { PutsText O.Sink out.old out.new (flat_map resource_line fork.now.list) result }
{
    let mut walk = fork.walk();
    'resources: while let Some(view) = walk.next() {
        put_resource(&view, out)?;
    }
    Ok(())
}

/// The line that says how many resources a fork has.
fn count(fork: &ForkView<'_>) -> Line
    ensures { result ≡ fact (codes "resources") (decimal_of (length fork.now.list)) }
{
    let mut line = Line::new();
    number_fact(b"resources", u64::from(fork.len()), &mut line);
    line
}

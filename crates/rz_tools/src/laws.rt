//! Laws of answers, of the text of `derez` and of catalogues. `run` rests on all but
//! [`shown_forks_are_compiled_again`].

ghost use Rattle.std.specs.Prelude.{◌≡◌, List, [], ℕ, Ok};
ghost use Rattle.rz_core.specs.declared.moment.Moment.{Moment};
ghost use Rattle.rz_folder.specs.Folder.{Files};
ghost use Rattle.rz_fork.specs.Admit.{admitted};
ghost use Rattle.rz_fork.specs.Contents.{Fork};
ghost use Rattle.rz_core.specs.declared.resource.OsType.{OsType};
ghost use Rattle.rz_bridge_files.specs.Contents.{IsFile};
ghost use Rattle.rz_tools.specs.Again.{AreShort, CompilesAlone, MeansAgain, SparesWords};
ghost use Rattle.rz_catalog.specs.Catalogue.{IsCatalogue};
ghost use Rattle.rz_catalog_text.specs.declared.entry.Entry.{Entry};
ghost use Rattle.rz_catalog_text.specs.Text.{entries_text};
ghost use Rattle.rz_tools.specs.Catalogues.{IsPutBack};
ghost use Rattle.rz_types_table.specs.Table.{Declaration};
ghost use Rattle.rz_tools_answer.specs.Answer.{Answer};
ghost use Rattle.rz_tools_text.specs.Chosen.{chosen};
ghost use Rattle.rz_tools_text.specs.Shown.{Known};
ghost use Rattle.rz_tools_text.specs.Text.{ShowsEach};
ghost use Rattle.rz_tools.specs.Sources.{AreCompiled, Compiled};
ghost use Rattle.rz_tools_values.specs.Around.{Around};
ghost use Rattle.rz_tools_work.specs.Work.{Work};
ghost use Rattle.rz_pre_laws.specs.Definitions.{AreFree};
ghost use Rattle.rz_pre.specs.declared.program.Def.{Def};
ghost use Rattle.rz_tools.specs.Program.{Answers};

use rz_bridge_files::{
    every_file_is_named, every_header_has_a_data_file, one_data_file, one_named_file,
};
use rz_catalog::{
    catalogues_are_stored, every_application, every_catalogue, one_application, one_catalogue,
    own_catalogue,
};
use rz_catalog_text::{
    every_source_has_entries, one_list_of_a_source, written_catalogues_are_read,
};
use rz_expr::{attribute_words_are_spelled, keywords_are_spelled};
use rz_fork::admitted_forks_fit;
use rz_layout::one_spelling;
use rz_pre::one_program;
use rz_pre_laws::{every_program_has_an_answer, live_names_are_free};
use rz_show_laws::{shown_text, spelled_texts};
use rz_stmt::{every_statement_is_parsed, one_cutting, one_statement};
use rz_stmt_brackets::all_tokens_are_statements;
use rz_stmt_items::{matched_rows_are_rows, one_match};
use rz_tools_args::{definitions_are_free, every_list_of_words_is_read, one_command};
use rz_tools_output::{every_types, one_types, types_are_templates};
use rz_tools_text::{every_list_is_shown, one_shown_text};
use rz_unlay::{plain_rows_are_spelled, spelled_rows_are_rows};

/// A law, with nothing to run: words have one answer at most, where each name holds the same and at the same
/// moment.
pub fn one_answer()
    ensures { (words : List (List ℕ)) (files : Files) (moment : Moment) (answer another : Answer)
        → Answers words files moment answer → Answers words files moment another → answer ≡ another }
{
    one_program();
    one_cutting();
    one_statement();
    one_match();
    one_spelling();
    one_shown_text();
    one_named_file();
    one_data_file();
    one_types();
    one_catalogue();
    one_list_of_a_source();
    one_application();
    one_command();
}

/// A law, with nothing to run: words have an answer, whatever each name holds and at whatever moment; [`one_answer`]
/// says that they have no other.
pub fn every_answer()
    ensures { (words : List (List ℕ)) (files : Files) (moment : Moment) → (answer : Answer) × Answers words files moment answer }
{
    every_list_of_words_is_read();
    every_program_has_an_answer();
    every_types();
    types_are_templates();
    all_tokens_are_statements();
    every_statement_is_parsed();
    one_match();
    matched_rows_are_rows();
    one_spelling();
    every_list_is_shown();
    every_file_is_named();
    every_header_has_a_data_file();
    every_catalogue();
    every_source_has_entries();
    every_application();
}

/// A law, with nothing to run: no reserved word is a macro after sources, if the definitions before them are of none:
/// so no word of statements and attributes is.
pub fn reserved_words_are_spared()
    ensures { (around : Around) (start : Work) (names paths : List (List ℕ)) (defs : List Def) (compiled : Compiled) → AreFree defs
        → AreCompiled around start names paths defs (Ok compiled) → SparesWords compiled.is_macro }
{
    live_names_are_free();
    keywords_are_spelled();
    attribute_words_are_spelled();
}

/// A law, with nothing to run: the text that is shown of a fork means again the resources that are shown, where each
/// has at most 16,777,212 bytes: where the same types are declared, the same names are macros, none of them a word of
/// statements and attributes, `true` or `false`, and the moment is the same.
pub fn shown_forks_are_read_again()
    ensures { (bytes : List ℕ) → IsFile bytes → (fork : Fork) → admitted bytes ≡ Ok fork → (only skip : List OsType) → AreShort (chosen only skip fork.list)
        → (known : Known) → SparesWords known.is_macro → (text : List ℕ) → ShowsEach known (chosen only skip fork.list) text
        → MeansAgain known text (chosen only skip fork.list) }
{
    admitted_forks_fit();
    spelled_rows_are_rows();
    plain_rows_are_spelled();
    spelled_texts();
    shown_text();
}

/// A law, with nothing to run: the text of a fork's catalogue, as the file of a catalogue at whatever position, is
/// entries that give the fork's resources again where they are put into them; or, where protected resources may not be
/// changed, the refusal (219) of the first entry for one.
pub fn catalogues_are_put_back()
    ensures { (types : List Declaration) (moment : Moment) (bytes : List ℕ) → IsFile bytes → (fork : Fork) → admitted bytes ≡ Ok fork
        → (entries : List Entry) → IsCatalogue types moment fork.list entries → IsPutBack types moment fork.list (entries_text entries) }
{
    admitted_forks_fit();
    catalogues_are_stored();
    written_catalogues_are_read();
    own_catalogue();
}

/// A law, with nothing to run: as the one source of `rez` the text that is shown of a fork where no types are declared,
/// and each resource that is shown has at most 16,777,212 bytes, is compiled to the file of the same resources, or to
/// the first fault of such a file, whatever else the words ask for but `-a` and `-tmpl`: no definition of theirs makes
/// a reserved word a macro.
pub fn shown_forks_are_compiled_again()
    ensures { (bytes : List ℕ) → IsFile bytes → (fork : Fork) → admitted bytes ≡ Ok fork → (only skip : List OsType) → AreShort (chosen only skip fork.list)
        → (known : Known) → known.types ≡ [] → (text : List ℕ) → ShowsEach known (chosen only skip fork.list) text
        → CompilesAlone text (chosen only skip fork.list) }
{
    shown_forks_are_read_again();
    definitions_are_free();
    live_names_are_free();
    keywords_are_spelled();
    attribute_words_are_spelled();
}

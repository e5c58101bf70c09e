//! Laws of the whole: what sources declare is a template, how `derez` shows under it, that what it shows is compiled
//! after the same type files, that raw files are found raw, and that `bridge` is asked for all that it needs.

ghost use Rattle.std.specs.Prelude.{◌≡◌, ◌↔◌, ◌∷◌, ◌++◌, ℕ, [], List, length, true, false, Ok, None, Some};
ghost use Rattle.std.specs.FinMap as finite;
ghost use Rattle.std.specs.List.{AllByRecursion};
ghost use Rattle.rz_core.specs.declared.moment.Moment.{Moment};
ghost use Rattle.rz_core.specs.declared.resource.Resource.{Resource};
ghost use Rattle.rz_folder.specs.Folder.{Files};
ghost use Rattle.rz_lex.specs.Lexeme.{AreLexed};
ghost use Rattle.rz_lex.specs.declared.token.Token.{Token};
ghost use Rattle.rz_bridge_files.specs.Contents.{file_in, fork_in, IsFile};
ghost use Rattle.rz_core.specs.declared.fault.Fault.{Fault};
ghost use Rattle.rz_core.specs.declared.resource.OsType.{OsType};
ghost use Rattle.rz_fork.specs.Admit.{admitted};
ghost use Rattle.rz_fork.specs.Contents.{Fork};
ghost use Rattle.rz_pre.specs.declared.condition.Tool.TheVariants as tools;
ghost use Rattle.rz_tools.specs.Again.{AreShort, HoldsFile, MeansAgain};
ghost use Rattle.rz_tools.specs.Program.{Answers, IsOnlyAnswer};
ghost use Rattle.rz_tools_answer.specs.Answer.{written, Answer};
ghost use Rattle.rz_tools_answer.specs.declared.outcome.Outcome.TheVariants.{Done};
ghost use Rattle.rz_tools_laws.specs.Behind.{with_file, with_warnings, AreTypesAlone, CompilesBehind, IsAnswerBehind, IsKnown, ReadsBehind, ShowsAll, TypesStay, WritesRaw};
ghost use Rattle.rz_tools_text.specs.Chosen.{chosen};
ghost use Rattle.rz_tools_text.specs.Text.{ShowsEach};
ghost use Rattle.rz_bridge_files.specs.Forms.{form_of, raw_file};
ghost use Rattle.rz_bridge_files.specs.declared.form.Form.TheVariants.{Raw};
ghost use Rattle.rz_pre.specs.Lexed.{HaveLexedTexts};
ghost use Rattle.rz_pre.specs.Program.{State};
ghost use Rattle.rz_pre.specs.declared.program.Def.{Def};
ghost use Rattle.rz_show.specs.Showing.{by_bytes, by_row, Showing};
ghost use Rattle.rz_types.specs.Field.{PlainBody};
ghost use Rattle.rz_types_table.specs.Table.{Declaration};
ghost use Rattle.rz_types_fields.specs.declared.tree.Tree.{Tree};
ghost use Rattle.rz_tools.specs.DeRez.{DeRezAsked, IsDeRez};
ghost use Rattle.rz_tools.specs.Rez.{around_of, IsRez, RezAsked};
ghost use Rattle.rz_tools.specs.Types.{known_by, TypesAre};
ghost use Rattle.rz_tools_text.specs.Shown.{IsShownBy, Known};
ghost use Rattle.rz_tools.specs.Sources.{AreCompiled, Compiled, HasWork, IsProgramOf};
ghost use Rattle.rz_tools.specs.Step.{Means};
ghost use Rattle.rz_tools_args.specs.Command.{IsCommand, Item};
ghost use Rattle.rz_tools_args.specs.declared.name.CommandName.TheVariants.{Bridge};
ghost use Rattle.rz_tools_laws.specs.Bridge.{SayAll};
ghost use Rattle.rz_tools_laws.specs.Templates.{TellsDeclared};
ghost use Rattle.rz_tools_output.specs.Templates.{AreTemplates, TypesOf};
ghost use Rattle.rz_tools_output.specs.Base.{attributes_asked, base_in, Base};
ghost use Rattle.rz_tools_output.specs.Bridge.{bridge_asked, BridgeAsked, IsBridge};
ghost use Rattle.rz_tools_output.specs.Output.{form_asked, IsOutput, Target};
ghost use Rattle.rz_catalog_text.specs.declared.entry.Entry.{Entry};
ghost use Rattle.rz_catalog_text.specs.Source.{HasEntries};
ghost use Rattle.rz_fork.specs.Image.{fork_of, image};
ghost use Rattle.rz_tools.specs.Restring.{target_named, IsRestring, RestringAsked};
ghost use Rattle.rz_tools.specs.Strings.{IsStrings, StringsAsked};
ghost use Rattle.rz_tools_laws.specs.Texts.{IsAnswerAgain, IsOfSame};
ghost use Rattle.rz_tools_values.specs.Around.{Around};
ghost use Rattle.rz_tools_work.specs.Work.{begun, Work};

use crate::statements_go_on;
use rz_bridge_files::forks_are_found_raw;
use rz_expr::{attribute_words_are_spelled, keywords_are_spelled};
use rz_pre_laws::{live_names_are_free, programs_are_lexed};
use rz_stmt_type::declarations_are_shaped;
use rz_tools::{catalogues_are_put_back, one_answer, shown_forks_are_read_again};
use rz_tools_args::{definitions_are_free, definitions_are_lexed, one_command};
use rz_tools_output::types_are_templates;
use rz_tools_text::one_shown_text;

/// A law, with nothing to run: what statements declare that are read without a fault is a template: the fields of each
/// declaration are well shaped and keep the rules, where so are those before the first statement, and the tokens are
/// such as lines can be cut into. So it is after sources whose definitions are, and so, with a file of templates or
/// without, after all sources of `rez` and all type files of `derez`.
pub fn declared_types_are_templates()
    ensures statements { (around : Around) (types : List Declaration) (list : List Resource) (statements : List (List Token)) (work : Work) → AreTemplates types
        → AllByRecursion AreLexed statements → Means around (begun types list) statements (Ok work) → AreTemplates work.types }
    ensures sources { (around : Around) (names paths : List (List ℕ)) (defs : List Def) (program : State) (types : List Declaration) (list : List Resource) (compiled : Compiled)
        → AreTemplates types → HaveLexedTexts defs → IsProgramOf around names paths defs (Ok program) → HasWork around (begun types list) program (Ok compiled)
        → AreTemplates compiled.work.types }
    ensures rez { (words : List (List ℕ)) (asked : RezAsked) (files : Files) (moment : Moment) (program : State) (types : List Declaration) (list : List Resource) (compiled : Compiled)
        → IsRez words asked → IsProgramOf (around_of moment asked files) asked.files asked.paths asked.defs (Ok program) → TypesOf asked.tmpl files (Ok types)
        → HasWork (around_of moment asked files) (begun types list) program (Ok compiled) → AreTemplates compiled.work.types }
    ensures derez { (words : List (List ℕ)) (asked : DeRezAsked) (files : Files) (moment : Moment) (compiled : Compiled)
        → IsDeRez words asked → TypesAre moment asked.types files (Ok compiled) → AreTemplates compiled.work.types }
{
    declarations_are_shaped();
    programs_are_lexed();
    definitions_are_lexed();
    types_are_templates();
}

/// A law, with nothing to run: after type files that `derez` reads without a fault, a resource is shown in a `resource`
/// statement exactly if its bytes tell a row of the fields that are declared for it in which no case has the name of a
/// macro, and then by this row; else in a `data` statement.
pub fn declared_rows_are_shown()
    ensures row { (words : List (List ℕ)) (asked : DeRezAsked) (files : Files) (moment : Moment) (compiled : Compiled)
        → IsDeRez words asked → TypesAre moment asked.types files (Ok compiled)
        → (r : Resource) (body : PlainBody) (row : List Tree) → TellsDeclared (known_by moment compiled) r body row
        → (showing : Showing) → IsShownBy (known_by moment compiled) r showing ↔ (showing ≡ by_row r body row) }
    ensures bytes { (words : List (List ℕ)) (asked : DeRezAsked) (files : Files) (moment : Moment) (compiled : Compiled)
        → IsDeRez words asked → TypesAre moment asked.types files (Ok compiled)
        → (r : Resource) → ((body : PlainBody) (row : List Tree) → TellsDeclared (known_by moment compiled) r body row → ⊥)
        → (showing : Showing) → IsShownBy (known_by moment compiled) r showing ↔ (showing ≡ by_bytes r) }
{
    declared_types_are_templates();
    one_shown_text();
}

/// A law, with nothing to run: what `rez` writes raw is found to be raw, and is read as a raw file without a word of
/// its form.
pub fn raw_outputs_are_found()
    ensures form { (asked : Target) (moment : Moment) (base : Base) (list : List Resource) (bytes : List ℕ) → form_asked asked base ≡ Raw
        → IsOutput asked moment base list (Ok bytes) → form_of bytes ≡ Raw }
    ensures file { (asked : Target) (moment : Moment) (base : Base) (list : List Resource) (bytes : List ℕ) → form_asked asked base ≡ Raw
        → IsOutput asked moment base list (Ok bytes) → file_in None None bytes [] ≡ Ok (raw_file bytes) }
{
    forks_are_found_raw();
}

/// A law, with nothing to run: after sources that declare the types that are known, and make no resource, a text that
/// means resources again means them as a file of the same sources: nothing more is declared, nor warned of. So the text
/// that is shown of a fork where so much is known is compiled after such sources to the file of the same resources, or
/// to the first fault of such a file, whatever else the words of `rez` ask for but `-a`, if each resource that is shown
/// has at most 16,777,212 bytes.
pub fn shown_forks_are_compiled_behind_types()
    ensures work { (around : Around) (start : Work) (types paths : List (List ℕ)) (name : List ℕ) (defs : List Def) (known : Known) (text : List ℕ) (list : List Resource) (compiled : Compiled)
        → around.setting.tool ≡ tools.Rez → around.setting.moment ≡ known.moment → finite.get around.files name ≡ Some text → MeansAgain known text list
        → AreCompiled around start types paths defs (Ok compiled) → compiled.work.list ≡ [] → IsKnown compiled known
        → AreCompiled around start (types ++ name ∷ []) paths defs (Ok (with_file compiled name list)) }
    ensures answer { (bytes : List ℕ) → IsFile bytes → (fork : Fork) → admitted bytes ≡ Ok fork → (only skip : List OsType) → AreShort (chosen only skip fork.list)
        → (known : Known) (text : List ℕ) → ShowsEach known (chosen only skip fork.list) text → CompilesBehind known text (chosen only skip fork.list) }
{
    statements_go_on();
    shown_forks_are_read_again();
    live_names_are_free();
    keywords_are_spelled();
    attribute_words_are_spelled();
    definitions_are_free();
}

/// A law, with nothing to run: sources of `type` statements alone that don't ask which tool reads them mean the same to
/// both: if one of the tools reads them without a fault, so does the other, whatever else the words ask for; they
/// declare the same types and macros, change no resources, and, unless one alone lets types be declared again, warn of
/// the same.
pub fn type_files_agree()
    ensures { (around other : Around) (start : Work) (names paths : List (List ℕ)) (defs : List Def) (compiled : Compiled) → around.files ≡ other.files
        → AreTypesAlone around.files around.setting.tool names paths defs → AreCompiled around start names paths defs (Ok compiled)
        → (compiled.work.list ≡ start.list) × (warnings : List Fault) × AreCompiled other start names paths defs (Ok (with_warnings compiled warnings))
        × (around.setting.redeclare ≡ other.setting.redeclare → warnings ≡ compiled.work.warnings) }
{}

/// A law, with nothing to run: what `derez` answers for a fork under type files is, in a file after the same type
/// files, compiled by `rez` without `-a` to the file of the resources that were shown, or to the first fault of such a
/// file: if the type files mean the same there and are as [`type_files_agree`] has them, the words have the same paths,
/// definitions and file of templates, the moment is the same, and each resource that is shown has at most 16,777,212
/// bytes.
pub fn shown_forks_are_read_back()
    ensures { (words others : List (List ℕ)) (shown : DeRezAsked) (asked : RezAsked) (files after : Files) (moment : Moment) (name bytes : List ℕ) (fork : Fork) (answer : Answer)
        → IsDeRez words shown → Answers words files moment answer → answer.outcome ≡ Done
        → finite.get files shown.file ≡ Some bytes → HoldsFile shown.from bytes → fork_in None shown.from bytes ≡ Ok fork → AreShort (chosen shown.only shown.skip fork.list)
        → TypesStay moment shown.types files after → AreTypesAlone after tools.DeRez shown.types.files shown.types.paths shown.types.defs
        → IsRez others asked → ReadsBehind shown asked name → finite.get after name ≡ Some answer.out
        → (types : List Declaration) × TypesOf asked.tmpl after (Ok types)
        × (compiled : Compiled) × AreCompiled (around_of moment asked after) (begun types []) shown.types.files asked.paths asked.defs (Ok compiled)
        × IsAnswerBehind others asked after moment name compiled (chosen shown.only shown.skip fork.list) }
{
    statements_go_on();
    shown_forks_are_read_again();
    live_names_are_free();
    keywords_are_spelled();
    attribute_words_are_spelled();
    definitions_are_free();
    one_command();
}

/// A law, with nothing to run: what `derez` answers for a fork is, in a file after the same type files, written by
/// `rez` as the fork's file again, byte for byte, and `rez` has no other answer: if that file is the raw fork of its
/// own resources, without attributes and reserved bytes; if all resources are shown, and `rez` is to write a raw file
/// that isn't read only; and if the rest is as [`shown_forks_are_read_back`] has it.
pub fn shown_forks_are_written_back()
    ensures { (words others : List (List ℕ)) (shown : DeRezAsked) (asked : RezAsked) (files after : Files) (moment : Moment) (name bytes : List ℕ) (fork : Fork) (answer : Answer)
        → IsDeRez words shown → Answers words files moment answer → answer.outcome ≡ Done
        → finite.get files shown.file ≡ Some bytes → HoldsFile shown.from bytes → fork_in None shown.from bytes ≡ Ok fork → ShowsAll shown → AreShort fork.list
        → TypesStay moment shown.types files after → AreTypesAlone after tools.DeRez shown.types.files shown.types.paths shown.types.defs
        → IsRez others asked → ReadsBehind shown asked name → WritesRaw asked → finite.get after name ≡ Some answer.out
        → fork_of fork.list 0 [] ≡ Ok bytes
        → (said : List ℕ) × IsOnlyAnswer others after moment (written asked.target.name (record { bytes = bytes; said = said })) }
{
    shown_forks_are_read_back();
    one_answer();
}

/// A law, with nothing to run: the items of a command of `bridge` say all that it asks for: one file to read, a last
/// file to write, a last form of it, and the form of the file to read exactly if one is given. So words ask for this
/// exactly if they are a command of `bridge` whose items say it all: nothing is put in the place of what isn't there.
pub fn bridges_are_asked_for_all()
    ensures said { (words : List (List ℕ)) (items : List Item) → IsCommand words (record { name = Bridge; items = items })
        → SayAll items (bridge_asked items) }
    ensures exact { (words : List (List ℕ)) (asked : BridgeAsked)
        → IsBridge words asked ↔ ((items : List Item) × IsCommand words (record { name = Bridge; items = items }) × SayAll items asked) }
{}

/// A law, with nothing to run: what `strings` answers for a fork that isn't read only (220) is, as the catalogue of
/// `restring` for the same fork, under type files that mean the same, and at the same moment, answered by the file of
/// the same resources; if the fork's file is raw and the image of its resources, by that file byte for byte. Or, where
/// protected resources may not be changed, by the refusal (219) of the first entry for one; or by the fault of what
/// such a file may hold.
pub fn own_strings_change_nothing()
    ensures answer { (words others : List (List ℕ)) (listed : StringsAsked) (asked : RestringAsked) (files after : Files) (moment : Moment) (bytes : List ℕ) (base : Base) (answer : Answer)
        → IsStrings words listed → Answers words files moment answer → answer.outcome ≡ Done
        → finite.get files listed.file ≡ Some bytes → HoldsFile listed.from bytes → TypesStay moment listed.types files after
        → IsRestring others asked → IsOfSame listed asked → finite.get after asked.file ≡ Some bytes → finite.get after asked.catalogue ≡ Some answer.out
        → base_in true asked.from bytes ≡ Ok base
        → (compiled : Compiled) × TypesAre moment asked.types after (Ok compiled)
        × (entries : List Entry) × HasEntries (length compiled.files) answer.out (Ok entries) × IsAnswerAgain others asked after moment compiled base entries }
    ensures image { (name : List ℕ) (moment : Moment) (base : Base) (bytes output : List ℕ) → base.form ≡ Raw
        → bytes ≡ image base.fork.list (attributes_asked false base) base.fork.reserved
        → IsOutput (target_named name) moment base base.fork.list (Ok output) → output ≡ bytes }
{
    catalogues_are_put_back();
    one_command();
}

//! Laws of programs: entries, definitions, groups of lines. Their terms are in `specs/`, and in that of `rz_pre`.

ghost use Rattle.std.specs.Prelude.{◌≡◌, ◌↔◌, ◌⊎◌, ◌∷◌, ◌++◌, ℕ, true, false, List, Ok, Option, None, Result, reverse};
ghost use Rattle.rz_core.specs.declared.fault.Fault.{Fault};
ghost use Rattle.rz_folder.specs.Folder.{Files};
ghost use Rattle.rz_lex.specs.Lexeme.{AreLexed};
ghost use Rattle.rz_lex.specs.declared.token.Shape.{Shape};
ghost use Rattle.rz_pre_laws.specs.Definitions.{definitions, AreFree, IsFreeName, LeavesName};
ghost use Rattle.rz_pre.specs.Expand.{Expansion};
ghost use Rattle.rz_pre_laws.specs.Groups.{is_group, lines_of, lines_unclosed, waiting, Choice, Done, Group, GroupGoes, Others};
ghost use Rattle.rz_pre.specs.Lexed.{HaveLexedTexts};
ghost use Rattle.rz_pre.specs.Live.{live_in, Row};
ghost use Rattle.rz_lex.specs.declared.raw_line.RawLine.{RawLine};
ghost use Rattle.rz_core.specs.Answers.{Then};
ghost use Rattle.rz_pre.specs.Line.{is_kept, Does};
ghost use Rattle.rz_pre.specs.declared.act.Act.{Act};
ghost use Rattle.rz_pre.specs.declared.conditional.Open.{Open};
ghost use Rattle.rz_pre.specs.Program.{fails, innermost, open_if, start, IncludedGoes, LinesGo, NamesGo, ProgramGoes, State};
ghost use Rattle.rz_pre.specs.declared.program.Failure.{Failure};
ghost use Rattle.rz_pre_laws.specs.Tools.{AsksNoTool, EachAsksNoTool, NameNoTool, NamesNoTool};
ghost use Rattle.rz_pre_laws.specs.Unfolding.{behind_all, outcome, EachActs, Entry, ProgramUnfolds};
ghost use Rattle.rz_pre.specs.declared.condition.Tool.{Tool};
ghost use Rattle.rz_pre.specs.declared.program.Def.{Def};

use rz_expr::{expressions_are_decided, one_expression};
use rz_lex::{every_line_is_cut, every_text_has_lines, tokens_are_lexed};
use rz_pre_source::every_source_is_read;

/// A law, with nothing to run: the named files mean a program or have a first fault, whatever stands in them.
pub fn every_program_has_an_answer()
    ensures { (files : Files) (tool : Tool) (names paths : List (List ℕ)) (defs : List Def)
        → (answer : Result State Failure) × ProgramGoes files tool names paths defs answer }
{
    every_line_is_cut();
    every_text_has_lines();
    one_expression();
    expressions_are_decided();
    every_source_is_read();
}

/// A law, with nothing to run: what the named files mean is given by one list of entries, in which each line
/// does what it does under what is live after the entries before it, and what is read of an included file
/// stands directly after the line that includes it. The tokens, the definitions and the opened files are those
/// that the entries give from the first to the last; a fault is the first one, and stands after them.
pub fn one_list_of_entries()
    ensures entries { (files : Files) (tool : Tool) (names paths : List (List ℕ)) (defs : List Def) (answer : Result State Failure)
        → ProgramGoes files tool names paths defs answer
        → (entries : List Entry) × (fault : Option Fault) × ProgramUnfolds files tool names paths defs entries fault
        × EachActs tool entries (start defs) × (answer ≡ outcome entries fault (start defs)) }
    ensures program { (files : Files) (tool : Tool) (names paths : List (List ℕ)) (defs : List Def) (entries : List Entry) (fault : Option Fault)
        → ProgramUnfolds files tool names paths defs entries fault
        → ProgramGoes files tool names paths defs (outcome entries fault (start defs)) }
{}

/// A law, with nothing to run: files that are named one after the other are the first of them, and then the others
/// after what was read of the first; a fault of the first is that of all.
pub fn programs_go_on()
    ensures { (tool : Tool) (files : Files) (paths names others : List (List ℕ)) (s : State) (answer : Result State Failure)
        → Then (NamesGo tool files paths names s) (λ t. NamesGo tool files paths others t) answer
        ↔ NamesGo tool files paths (names ++ others) s answer }
{}

/// A law, with nothing to run: a program means the same to both tools if it is read to its end and no condition that it
/// asks has one of the words `rez` and `derez` in it, once its questions are answered and its macros are replaced: the
/// same entries, and so the same tokens, macros and files. So it is if no line that is read has such a word, and no
/// definition of the words: then its tokens have none either.
pub fn tools_agree()
    ensures entries { (files : Files) (names paths : List (List ℕ)) (defs : List Def) (tool other : Tool) (entries : List Entry)
        → EachAsksNoTool entries (start defs) → ProgramUnfolds files tool names paths defs entries None
        → ProgramUnfolds files other names paths defs entries None }
    ensures program { (files : Files) (names paths : List (List ℕ)) (defs : List Def) (tool other : Tool) (state : State)
        → AsksNoTool files tool names paths defs → ProgramGoes files tool names paths defs (Ok state)
        → ProgramGoes files other names paths defs (Ok state) }
    ensures unnamed { (files : Files) (names paths : List (List ℕ)) (defs : List Def) (tool : Tool) → NamesNoTool files tool names paths defs
        → AsksNoTool files tool names paths defs
        × ((state : State) → ProgramGoes files tool names paths defs (Ok state) → NameNoTool state.tokens) }
{}

/// A law, with nothing to run: whatever macros are held, each token has an expansion.
pub fn every_token_expands()
    ensures { (rows : List Row) (shape : Shape)
        → (out : List Shape) × (work : ℕ) × Expansion (live_in rows) shape out work }
{}

/// A law, with nothing to run: whatever macros are held, and whatever conditional stands around it, each line does
/// something, or has a first fault.
pub fn every_line_acts()
    ensures { (rows : List Row) (tool : Tool) (around : Option Open) (line : RawLine)
        → (answer : Result Act Fault) × Does (live_in rows) tool around line answer }
{
    every_line_is_cut();
    one_expression();
    expressions_are_decided();
}

/// A law, with nothing to run: of lines in groups that are read, of each conditional the chosen part is read,
/// the first one whose test holds, else that of `#else`, and nothing of the others, whatever stands around
/// them and whatever lines follow; and of lines in groups that aren't read, nothing is.
pub fn chosen_parts()
    ensures read { (tool : Tool) (files : Files) (paths : List (List ℕ)) (levels : ℕ) (group : Group) (rest : List RawLine) (ending : Option Fault)
        (opens : List Open) (s : State) (answer : Result State Failure)
        → is_group group ≡ true → is_kept (innermost opens) ≡ true
        → Then (GroupGoes (IncludedGoes tool files paths levels) tool group s) (λ t. LinesGo (IncludedGoes tool files paths levels) tool rest ending opens t) answer
        ↔ LinesGo (IncludedGoes tool files paths levels) tool (lines_of group rest) ending opens s answer }
    ensures passed { (tool : Tool) (files : Files) (paths : List (List ℕ)) (levels : ℕ) (group : Group) (rest : List RawLine) (ending : Option Fault)
        (opens : List Open) (s : State) (answer : Result State Failure)
        → is_group group ≡ true → is_kept (innermost opens) ≡ false
        → LinesGo (IncludedGoes tool files paths levels) tool rest ending opens s answer
        ↔ LinesGo (IncludedGoes tool files paths levels) tool (lines_of group rest) ending opens s answer }
{}

/// A law, with nothing to run: after some entries of a program a name stands for what the last of its
/// definitions gives it, of the words or of a line before, or for itself where that one undefines it or none
/// is of that name. So what is live is always a finite list of rows, and each token has an expansion: where one
/// is refused as too long, it has an expansion, for which more tokens are handled.
pub fn last_definition()
    ensures decides { (defs : List Def) (entries : List Entry) (name : List ℕ) (front rear : List Row) (body : Option (List Shape))
        → definitions defs entries ≡ front ++ (name, body) ∷ rear → LeavesName name rear
        → (behind_all entries (start defs)).live name ≡ body }
    ensures itself { (defs : List Def) (entries : List Entry) (name : List ℕ)
        → LeavesName name (definitions defs entries) → (behind_all entries (start defs)).live name ≡ None }
    ensures finite { (defs : List Def) (entries : List Entry)
        → (behind_all entries (start defs)).live ≡ live_in (reverse (definitions defs entries)) }
    ensures expands { (defs : List Def) (entries : List Entry) (shape : Shape)
        → (out : List Shape) × (work : ℕ) × Expansion (behind_all entries (start defs)).live shape out work }
{}

/// A law, with nothing to run: after a program no reserved word is live, if the words define none: a name that is live
/// is, in lower case, a word that isn't reserved.
pub fn live_names_are_free()
    ensures { (files : Files) (tool : Tool) (names paths : List (List ℕ)) (defs : List Def) (state : State) → AreFree defs
        → ProgramGoes files tool names paths defs (Ok state) → (name : List ℕ) → (state.live name ≡ None) ⊎ IsFreeName name }
{}

/// A law, with nothing to run: the tokens of a program are such as lines can be cut into, if those are that the words
/// define as texts: no macro and no line makes others.
pub fn programs_are_lexed()
    ensures { (files : Files) (tool : Tool) (names paths : List (List ℕ)) (defs : List Def) (state : State) → HaveLexedTexts defs
        → ProgramGoes files tool names paths defs (Ok state) → AreLexed state.tokens }
{
    tokens_are_lexed();
}

/// A law, with nothing to run: a conditional whose `#endif` is missing where the file ends is read as one that
/// has it, and then is 105 with the mark of the line that begins it; and where the lines around it aren't read,
/// it is 105 alone.
pub fn unclosed_conditional()
    ensures read { (tool : Tool) (files : Files) (paths : List (List ℕ)) (levels : ℕ) (test : RawLine) (first : Group) (others : Others)
        (opens : List Open) (s : State) (answer : Result State Failure)
        → is_group (Choice test first others Done) ≡ true → is_kept (innermost opens) ≡ true
        → Then (GroupGoes (IncludedGoes tool files paths levels) tool (Choice test first others Done) s)
        (λ t answer. answer ≡ fails (open_if (waiting test.mark)) t) answer
        ↔ LinesGo (IncludedGoes tool files paths levels) tool (test ∷ lines_of first (lines_unclosed others)) None opens s answer }
    ensures passed { (tool : Tool) (files : Files) (paths : List (List ℕ)) (levels : ℕ) (test : RawLine) (first : Group) (others : Others)
        (opens : List Open) (s : State) (answer : Result State Failure)
        → is_group (Choice test first others Done) ≡ true → is_kept (innermost opens) ≡ false
        → (answer ≡ fails (open_if (waiting test.mark)) s)
        ↔ LinesGo (IncludedGoes tool files paths levels) tool (test ∷ lines_of first (lines_unclosed others)) None opens s answer }
{}

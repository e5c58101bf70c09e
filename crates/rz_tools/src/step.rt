//! The statements of a program, one after the other. A new statement is an arm here and a case of `specs/Step`.

ghost use Rattle.std.specs.Prelude.{◌≡◌, ◌<◌, ℕ, List, length, map, Err, IfErr, IfOk, IfSome};
ghost use Rattle.rz_tools_answer.specs.Warning.{AreWarnings};
ghost use Rattle.rz_core.specs.Message.{IsNameable};
ghost use Rattle.rz_core.specs.Stop.{IsReadFault, OnRefusal, left, Yields};
ghost use Rattle.rz_folder.specs.MayRead.{MayRead};
ghost use Rattle.rz_folder.specs.Names.{LooksFor};
ghost use Rattle.rz_tools.specs.Asked.{AnyAsks, ParsedAsk};
ghost use Rattle.rz_folder.specs.OnlyReads.{OnlyReads};
ghost use Rattle.rz_lex.specs.Lexeme.{AreLexed};
ghost use Rattle.rz_lex.specs.Within.{AreWithin};
ghost use Rattle.rz_lex.specs.declared.token.Token.{Token};
ghost use Rattle.rz_stmt.specs.Grammar.{statement_of};
ghost use Rattle.rz_stmt.specs.Statements.{AreStatements};
ghost use Rattle.rz_tools_values.specs.Around.{around};
ghost use Rattle.rz_tools_work.specs.Held.{work_of};
ghost use Rattle.rz_tools_work.specs.Put.{list_with};
ghost use Rattle.rz_tools_work.specs.ToolWords.{numbered};
ghost use Rattle.rz_tools.specs.Step.{done_by, Means, Steps, with_work};

use rz_core::{Fault, FileNames, Halt, Mark, Resource};
use rz_folder::Folder;
use rz_lex::Tokens;
use rz_pre::Tool;
use rz_pre_source::TokenStore;
use rz_set::ResSet;
use rz_stmt::{Span, Stmt, all_tokens_are_statements, next_statement, one_cutting, parse};
use rz_tools_resource::{resource_of, resource_of_items};
use rz_tools_values::{Around, Setting};
use rz_tools_work::{Work, declare_type, list_step, number_tool_words, put};
use std::alloc::Global;

/// Does what the statements of a program say, one after the other, up to the first fault. For DeRez each one is read,
/// and `type` alone does anything. A resource with the type and id of an earlier one takes its place, unless that one
/// is protected and protected ones aren't given up (219), and every other one goes to the end. A type that is declared
/// again goes to the end of the table, and is warned of unless the setting allows it. The files of statements are
/// looked for under their names and then after the paths; no file changes. One statement is held at a time. Work and
/// memory are in proportion to the tokens of `data` statements, and of `resource` statements also to the fields of
/// their types. Each declaration of a type and each
/// `resource` statement goes once over the declarations of its type, and a type that is declared again over the whole
/// table; a declaration that copies takes the memory of what it copies. A statement over lists goes a few times over
/// the resources of its file, and `change` and `delete` a few times over the list.
pub fn compile_statements<F: Folder>(
    alloc: Global,
    folder: &mut F,
    paths: &FileNames,
    tokens: TokenStore,
    setting: Setting,
    work: &mut Work,
) -> Result<(), Halt<Fault>>
    requires lexed { AreLexed tokens }
    requires may { MayRead F.Folder folder.old (LooksFor paths.now (AnyAsks setting.tool tokens)) }
    ensures work { IfSome (F.files folder.old) (λ files. (statements : List (List Token)) → AreStatements tokens statements
        → Yields (with_work (work_of work.new) result) (Means (around setting paths.now files) (work_of work.old) statements)) }
    ensures nameable { (files : ℕ) → AreWithin files tokens → OnRefusal result (IsNameable files) }
    ensures warned { (files : ℕ) → AreWithin files tokens → AreWarnings files work.old.warnings → AreWarnings files work.new.warnings }
    ensures reads { OnlyReads F.Folder folder.old folder.new (IsReadFault result) }
{
    all_tokens_are_statements();
    one_cutting();
    let mut reader = tokens.into_reader();
    while let Some(statement) = next_statement(alloc, &mut reader)? {
        step(alloc, folder, paths, statement, setting, work)?;
    }
    Ok(())
}

/// What one statement does, in which the words `rez` and `derez` become numbers. The tokens end where it is read, so
/// that no one holds them while the statement is done.
fn step<F: Folder>(
    alloc: Global,
    folder: &mut F,
    paths: &FileNames,
    statement: Tokens,
    setting: Setting,
    work: &mut Work,
) -> Result<(), Halt<Fault>>
    requires some { 0 < length statement }
    requires lexed { AreLexed statement }
    requires may { MayRead F.Folder folder.old (LooksFor paths.now (ParsedAsk setting.tool (map (numbered setting.tool) statement))) }
    ensures stepped { IfSome (F.files folder.old) (λ files. Yields (with_work (work_of work.new) result) (Steps (around setting paths.now files) (work_of work.old) (map (numbered setting.tool) statement))) }
    ensures nameable { (files : ℕ) → AreWithin files statement → OnRefusal result (IsNameable files) }
    ensures warned { (files : ℕ) → AreWithin files statement → AreWarnings files work.old.warnings → AreWarnings files work.new.warnings }
    ensures reads { OnlyReads F.Folder folder.old folder.new (IsReadFault result) }
{
    let tokens = number_tool_words(setting.tool, statement);
    let end = tokens.len();
    let mark = tokens.at(0).mark;
    let stmt = parse(alloc, &tokens, Span { start: 0, end });
    drop(tokens);
    let stmt = stmt?;
    let around = Around {
        paths,
        mark,
        setting,
    };
    match done_by(setting.tool, stmt) {
        Stmt::Empty => Ok(()),
        Stmt::Raw(raw) => {
            let made = resource_of(alloc, folder, around, raw);
            put_made(made, mark, setting, &mut work.resources)
        }
        Stmt::List(stmt) => {
            let ended = list_step(alloc, folder, around, &stmt, &mut work.resources);
            drop(stmt);
            ended
        }
        Stmt::Compile(stmt) => {
            let made = resource_of_items(alloc, folder, around, stmt, &work.types);
            put_made(made, mark, setting, &mut work.resources)
        }
        Stmt::Declare(stmt) => Ok(declare_type(alloc, stmt, mark, setting, work)?),
    }
}

/// What a tool does of a statement: DeRez declares types, and nothing else.
fn done_by(tool: Tool, stmt: Stmt) -> Stmt
    ensures { statement_of result ≡ done_by tool (statement_of stmt) }
{
    if matches!(tool, Tool::Rez) || matches!(stmt, Stmt::Declare(_)) {
        return stmt;
    }
    drop(stmt);
    Stmt::Empty
}

/// Puts the resource of a statement on this line, if one was made.
fn put_made(
    made: Result<Resource, Halt<Fault>>,
    mark: Mark,
    setting: Setting,
    resources: &mut ResSet,
) -> Result<(), Halt<Fault>>
    requires named { IfOk made (λ resource. length resource.name < 256) }
    ensures put { IfOk made (λ resource. Yields (left resources.new result) (λ answer. answer ≡ list_with mark setting.over resources.old resource)) }
    ensures stopped { IfErr made (λ halt. result ≡ Err halt) }
    ensures nameable { (files : ℕ) → mark.file < files → OnRefusal made (IsNameable files) → OnRefusal result (IsNameable files) }
    ensures unread { IsReadFault result → IsReadFault made }
{
    match made {
        Ok(resource) => Ok(put(resources, resource, setting.over, mark)?),
        Err(halt) => Err(halt),
    }
}

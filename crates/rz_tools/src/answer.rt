//! The answer to arguments, with nothing of it carried out. A new command is an arm here and a case of `specs/Program`.

ghost use Rattle.std.specs.Prelude.{◌≡◌, ◌⊎◌, ℕ, map, IfOk, IsOkAnd, Err};
ghost use Rattle.std.specs.String.{string_bytes};
ghost use Rattle.rz_core.specs.declared.stop.Halt.TheVariants.{NoMemory as no_memory};
ghost use Rattle.rz_folder.specs.Folder.{Files};
ghost use Rattle.rz_folder.specs.MayRead.{MayReadOf};
ghost use Rattle.rz_pre.specs.Lexed.{HaveLexedTexts};
ghost use Rattle.rz_tools.specs.Asked.{CommandAsks, WordsAsk};
ghost use Rattle.rz_tools.specs.Program.{Answers, AnswersTo, IsFileless, NeedNoFile};
ghost use Rattle.rz_tools.specs.Reply.{outcome_of, EachAnswer, IsReplyOf, Replies};
ghost use Rattle.rz_tools.specs.Shown.{AnswersCommand, AnswersWords};
ghost use Rattle.rz_tools_args.specs.Command.{places_of, ArePlaces, IsMisplaced};
ghost use Rattle.rz_tools_args.specs.Held.{asked, items_of};
ghost use Rattle.rz_tools_args.specs.Items.{defs_of};
ghost use Rattle.rz_tools_args.specs.Syntax.{syntax_of};

use crate::derez::{DeRezWords, answer_derez};
use crate::list::answer_list;
use crate::reply::{Reply, planned};
use crate::restring::{RestringWords, restring_fork};
use crate::rez::{RezWords, compile};
use crate::sample::sampled;
use crate::strings::{StringsWords, list_strings};
use rz_core::{Halt, Moment, Stop};
use rz_folder::Folder;
use rz_tools_answer::{Outcome, Plan, help_text, version_text};
use rz_tools_args::{Command, CommandName, definitions_are_lexed, one_command, read_words};
use rz_tools_output::{BridgeWords, DetWords, plan_bridge, plan_det};
use std::alloc::Global;
use std::convert::Infallible;

/// What is to be carried out for words, with nothing of it carried out. All files that it needs are read, and all
/// memory is taken but that of the text of a fork, which is made line by line while it is put.
pub fn answer<F: Folder>(
    alloc: Global,
    words: &[String],
    folder: &mut F,
    moment: Moment,
) -> Result<Reply, Halt<Infallible>>
    requires { MayReadOf F.Folder folder.old (WordsAsk (map string_bytes words.now)) }
    ensures replies { Replies F.Folder folder.old folder.new result (AnswersWords (map string_bytes words.now) moment) (IsMisplaced (map string_bytes words.now)) }
    ensures fileless { NeedNoFile (map string_bytes words.now) → (files : Files) → IfOk result (λ reply. EachAnswer reply (Answers (map string_bytes words.now) files moment)) }
    ensures every_usage { (position : ℕ) → IsMisplaced (map string_bytes words.now) position
        → (result ≡ Err no_memory) ⊎ IsOkAnd result (λ reply. outcome_of reply ≡ Outcome.Usage (record { position = position })) }
{
    one_command();
    definitions_are_lexed();
    match read_words(alloc, words) {
        Ok(command) => answer_command(alloc, folder, command, moment),
        Err(Stop::Refused(fault)) => Ok(Reply::Plan(Plan::misused(alloc, fault)?)),
        Err(Stop::NoMemory) => Err(Halt::NoMemory),
    }
}

/// What is to be carried out for a command.
fn answer_command<F: Folder>(
    alloc: Global,
    folder: &mut F,
    command: Command<'_>,
    moment: Moment,
) -> Result<Reply, Halt<Infallible>>
    requires lexed { HaveLexedTexts (defs_of (items_of command)) }
    requires places { ArePlaces (syntax_of command.name).places (places_of (items_of command)) }
    requires may { MayReadOf F.Folder folder.old (CommandAsks command.name (items_of command)) }
    ensures replies { IsReplyOf F.Folder folder.old folder.new result (AnswersCommand (asked command.entry) moment) }
    ensures fileless { IsFileless command.entry.name → (files : Files) → IfOk result (λ reply. EachAnswer reply (AnswersTo (asked command.entry) files moment)) }
{
    match command.name {
        CommandName::Rez => {
            let words = RezWords::of(alloc, command)?;
            let made = compile(alloc, folder, &words, moment);
            let plan = Plan::to_write(alloc, words.target.name, made);
            drop(words);
            planned(plan)
        }
        CommandName::DeRez => answer_derez(alloc, folder, DeRezWords::of(alloc, command)?, moment),
        CommandName::Bridge => {
            planned(plan_bridge(alloc, folder, BridgeWords::of(alloc, command)?))
        }
        CommandName::Det => planned(plan_det(alloc, folder, DetWords::of(alloc, command)?)),
        CommandName::List => answer_list(alloc, folder, DetWords::of(alloc, command)?),
        CommandName::Strings => {
            let words = StringsWords::of(alloc, command)?;
            let made = list_strings(alloc, folder, &words, moment);
            drop(words);
            planned(Plan::to_show(alloc, made))
        }
        CommandName::Restring => {
            let words = RestringWords::of(alloc, command)?;
            let made = restring_fork(alloc, folder, &words, moment);
            let plan = Plan::to_write(alloc, words.output, made);
            drop(words);
            planned(plan)
        }
        CommandName::Sample => {
            let count = command.number();
            drop(command);
            planned(Plan::to_show(alloc, sampled(alloc, count, moment)))
        }
        CommandName::Help => {
            drop(command);
            Ok(Reply::Plan(Plan::text(alloc, help_text(alloc)?.as_slice())?))
        }
        CommandName::Version => {
            drop(command);
            Ok(Reply::Plan(Plan::text(alloc, version_text())?))
        }
    }
}

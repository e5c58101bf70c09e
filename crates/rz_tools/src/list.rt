//! `list`: the text of a file, which is put piece by piece, or the refusal. What it answers is in `specs/List` of
//! `rz_tools_output`.

ghost use Rattle.rz_tools.specs.Reply.{IsReplyOf};
ghost use Rattle.rz_tools_output.specs.Det.{det};
ghost use Rattle.rz_tools_output.specs.List.{AnswersList};

use crate::reply::{Reply, planned};
use rz_core::{FileNames, Halt};
use rz_folder::Folder;
use rz_tools_answer::{Faults, Plan, say_stop};
use rz_tools_output::{DetWords, read_list};
use std::alloc::Global;
use std::convert::Infallible;

/// The answer to the words of `list`: the text of the file, which is to be put out piece by piece.
pub fn answer_list<F: Folder>(
    alloc: Global,
    folder: &mut F,
    words: DetWords,
) -> Result<Reply, Halt<Infallible>>
    requires { F.may_read folder.old (det words).file }
    ensures { IsReplyOf F.Folder folder.old folder.new result (AnswersList (det words)) }
{
    let text = read_list(alloc, folder, &words);
    drop(words);
    match text {
        Ok(text) => Ok(Reply::List(text)),
        Err(halt) => {
            let warnings = Faults::new(alloc);
            let files = FileNames::new(alloc);
            planned(Plan::stopped(alloc, say_stop(alloc, halt, &warnings, files)))
        }
    }
}

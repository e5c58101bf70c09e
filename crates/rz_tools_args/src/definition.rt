//! What `-d` and `-u` define. What may be defined is in `specs/Definition`.

ghost use Rattle.std.specs.Prelude.{◌≡◌, ◌&&◌, IfOk};
ghost use Rattle.rz_words.specs.Words.{is_label, role_of};
ghost use Rattle.rz_tools_args.specs.Definition.{Alone, Defines, IsName, IsText, Undefines, WithText};
ghost use Rattle.rz_core.specs.Decided.{Decided};
ghost use Rattle.rz_tools_args.specs.Line.{is_one_word};

use crate::line::{is_one_word, tokens_in};
use crate::roman::roman_of;
use rz_core::{Bytes, NoMemory, Word};
use rz_expr::role_of;
use rz_lex::{Token, Tokens, one_cut};
use rz_pre::Def;
use rz_pre_source::one_text;
use std::alloc::Global;

/// The definition of `-d`, by its value: a name, or a name, `=` and its text. `None` where the name isn't one
/// or is reserved, or where the text has a character without a byte in Mac Roman or can't be cut.
pub fn define(alloc: Global, value: &str) -> Result<Option<Def>, NoMemory>
    ensures { IfOk result (Decided (Defines value.now)) }
{
    match value.split_once('=') {
        Some((name, text)) => define_text(alloc, name, text),
        None => define_alone(alloc, value),
    }
}

/// The definition of `-u`, by its value, a name. `None` where the name isn't one or is reserved.
pub fn undefine(alloc: Global, value: &str) -> Result<Option<Def>, NoMemory>
    ensures { IfOk result (Decided (Undefines value.now)) }
{
    match name_in(alloc, value)? {
        Some(name) => Ok(Some(Def { name, text: None })),
        None => Ok(None),
    }
}

/// A name without a text.
fn define_alone(alloc: Global, name: &str) -> Result<Option<Def>, NoMemory>
    ensures { IfOk result (Decided (Alone name.now)) }
{
    match name_in(alloc, name)? {
        Some(name) => Ok(Some(Def {
            name,
            text: Some(Tokens::new(alloc)),
        })),
        None => Ok(None),
    }
}

/// A name and its text.
fn define_text(alloc: Global, name: &str, text: &str) -> Result<Option<Def>, NoMemory>
    ensures { IfOk result (Decided (WithText name.now text.now)) }
{
    let Some(name) = name_in(alloc, name)? else {
        return Ok(None);
    };
    match text_in(alloc, text)? {
        Some(tokens) => Ok(Some(Def {
            name,
            text: Some(tokens),
        })),
        None => Ok(None),
    }
}

/// A name that may be defined.
fn name_in(alloc: Global, name: &str) -> Result<Option<Word>, NoMemory>
    ensures { IfOk result (Decided (IsName name.now)) }
{
    one_cut();
    let Some(tokens) = tokens_in(alloc, Bytes::of(alloc, name.as_bytes())?)? else {
        return Ok(None);
    };
    let word = Word {
        bytes: Bytes::of(alloc, name.as_bytes())?,
    };
    if is_free_word(tokens.as_slice(), &word) {
        Ok(Some(word))
    } else {
        Ok(None)
    }
}

/// Whether the tokens are this word alone, and it isn't reserved.
fn is_free_word(tokens: &[Token], word: &Word) -> bool
    ensures { result ≡ (is_one_word tokens.now word.now.bytes && is_label (role_of word.now.bytes)) }
{
    is_one_word(tokens, word) && role_of(word).is_label()
}

/// The tokens of a text in UTF-8.
fn text_in(alloc: Global, text: &str) -> Result<Option<Tokens>, NoMemory>
    ensures { IfOk result (Decided (IsText text.now)) }
{
    one_text();
    match roman_of(alloc, text)? {
        Some(bytes) => tokens_in(alloc, bytes),
        None => Ok(None),
    }
}

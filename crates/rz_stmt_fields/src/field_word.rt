//! The words that a field begins with, and the words of units; changes with `specs/FieldWord`.

ghost use Rattle.std.specs.Prelude.{◌≡◌, false, None, option_map};
ghost use Rattle.rz_stmt_fields.specs.FieldWord.{align_unit, field_word, field_word_in, front_in, hex_of, modifier_in, modifier_word, text_form, unit_in, unit_word};
ghost use Rattle.rz_stmt_fields.specs.Held.{held_front};

use rz_expr::{Keyword, keyword_in};
use rz_lex::Token;
use rz_types_fields::{NumForm, Radix, TextForm};

/// The word that says what a field is.
#[derive(Clone, Copy, PartialEq, Eq)]
pub enum FieldWord {
    /// The type of a number.
    Number(NumForm),
    /// The type of a text.
    Text(TextForm),
    /// `rect`, or else `point`.
    Points(bool),
    /// `fill`
    Fill,
    /// `align`
    Align,
}

/// A word before the type of a number.
#[derive(Clone, Copy, PartialEq, Eq)]
pub enum Modifier {
    /// `unsigned`
    Unsigned,
    /// How it is shown.
    Shown(Radix),
}

/// A field up to the word that says what it is, and what stands after it.
#[derive(Drop)]
pub struct Front<'a> {
    pub unsigned: bool,
    pub radix: Option<Radix>,
    pub word: FieldWord,
    pub tail: &'a [Token],
}

/// The front of a field, of which `unsigned` and a radix stand before these tokens, or not.
pub fn front_in(tokens: &[Token], unsigned: bool, radix: Option<Radix>) -> Option<Front<'_>>
    ensures { option_map held_front result ≡ front_in unsigned radix tokens.now }
{
    let Some((first, rest)) = tokens.split_first() else {
        return None;
    };
    match modifier_in(first) {
        Some(Modifier::Unsigned) => {
            if unsigned {
                None
            } else {
                front_in(rest, true, radix)
            }
        }
        Some(Modifier::Shown(shown)) => match radix {
            Some(_) => None,
            None => front_in(rest, unsigned, Some(shown)),
        },
        None => match field_word_in(first) {
            Some(word) => Some(Front {
                unsigned,
                radix,
                word,
                tail: rest,
            }),
            None => None,
        },
    }
}

/// The type of a text, where the word is one.
pub fn text_form(word: FieldWord) -> Option<TextForm>
    ensures { result ≡ text_form word }
{
    match word {
        FieldWord::Text(form) => Some(form),
        _ => None,
    }
}

/// Whether `hex` alone stands before a word, or nothing; `None` for all else.
pub fn hex_of(unsigned: bool, radix: Option<Radix>) -> Option<bool>
    ensures { result ≡ hex_of unsigned radix }
{
    if unsigned {
        return None;
    }
    match radix {
        None => Some(false),
        Some(Radix::Hex) => Some(true),
        Some(_) => None,
    }
}

fn modifier_in(token: &Token) -> Option<Modifier>
    ensures { result ≡ modifier_in token.now.shape }
{
    match keyword_in(token) {
        Some(keyword) => modifier_word(keyword),
        None => None,
    }
}

fn modifier_word(keyword: Keyword) -> Option<Modifier>
    ensures { result ≡ modifier_word keyword }
{
    match keyword {
        Keyword::Unsigned => Some(Modifier::Unsigned),
        Keyword::Hex => Some(Modifier::Shown(Radix::Hex)),
        Keyword::Decimal => Some(Modifier::Shown(Radix::Decimal)),
        Keyword::Octal => Some(Modifier::Shown(Radix::Octal)),
        Keyword::Binary => Some(Modifier::Shown(Radix::Binary)),
        Keyword::Literal => Some(Modifier::Shown(Radix::Literal)),
        _ => None,
    }
}

fn field_word_in(token: &Token) -> Option<FieldWord>
    ensures { result ≡ field_word_in token.now.shape }
{
    match keyword_in(token) {
        Some(keyword) => field_word(keyword),
        None => None,
    }
}

fn field_word(keyword: Keyword) -> Option<FieldWord>
    ensures { result ≡ field_word keyword }
{
    match keyword {
        Keyword::Bitstring => Some(FieldWord::Number(NumForm::Bits)),
        Keyword::Byte => Some(FieldWord::Number(NumForm::Byte)),
        Keyword::Integer => Some(FieldWord::Number(NumForm::Integer)),
        Keyword::Longint => Some(FieldWord::Number(NumForm::Longint)),
        Keyword::Boolean => Some(FieldWord::Number(NumForm::Boolean)),
        Keyword::Char => Some(FieldWord::Number(NumForm::Char)),
        Keyword::String => Some(FieldWord::Text(TextForm::Open)),
        Keyword::Pstring => Some(FieldWord::Text(TextForm::Pascal)),
        Keyword::Wstring => Some(FieldWord::Text(TextForm::WordLong)),
        Keyword::Cstring => Some(FieldWord::Text(TextForm::Zero)),
        Keyword::Point => Some(FieldWord::Points(false)),
        Keyword::Rect => Some(FieldWord::Points(true)),
        Keyword::Fill => Some(FieldWord::Fill),
        Keyword::Align => Some(FieldWord::Align),
        _ => None,
    }
}

/// The unit that a token is, in bits.
pub fn unit_in(token: &Token) -> Option<u8>
    ensures { result ≡ unit_in token.now.shape }
{
    match keyword_in(token) {
        Some(keyword) => unit_word(keyword),
        None => None,
    }
}

fn unit_word(keyword: Keyword) -> Option<u8>
    ensures { result ≡ unit_word keyword }
{
    match keyword {
        Keyword::Bit => Some(1),
        Keyword::Nibble => Some(4),
        Keyword::Byte => Some(8),
        Keyword::Word => Some(16),
        Keyword::Long => Some(32),
        _ => None,
    }
}

/// The unit of an `align`: each but the bit.
pub fn align_unit(token: &Token) -> Option<u8>
    ensures { result ≡ align_unit (unit_in token.now.shape) }
{
    match unit_in(token) {
        Some(1) => None,
        unit => unit,
    }
}

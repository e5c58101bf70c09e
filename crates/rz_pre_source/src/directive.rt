//! The directives, and how a line is told to be one; a new directive changes `specs/Directive` too.

ghost use Rattle.std.specs.Prelude.{◌≡◌, ◌≤◌, length, option_map};
ghost use Rattle.std.specs.List.{prefix_len};
ghost use Rattle.rz_lex.specs.Classes.{is_word_byte};
ghost use Rattle.rz_pre_source.specs.Directive.{behind_hash, behind_word, directive_in, front_word, has_parameters, named, unblanked};

use rz_lex::{is_blank, is_word_byte};

/// Which directive a line is.
#[derive(Clone, Copy, Debug, PartialEq, Eq)]
pub enum Directive {
    /// `#include "name"`: the lines of a file stand here.
    Include,
    /// `#define name text`: from the next line on the name means the text.
    Define,
    /// `#undef name`: from the next line on the name means itself.
    Undefine,
    /// `#if condition`
    If,
    /// `#elif condition`
    Elif,
    /// `#ifdef name`
    Ifdef,
    /// `#ifndef name`
    Ifndef,
    /// `#else`
    Else,
    /// `#endif`
    Endif,
    /// `#` alone, which does nothing.
    Empty,
    /// Anything else after a `#`.
    Other,
}

/// What stands after the `#` of a directive. `None` comes exactly where the line's first byte other than a
/// blank isn't `#`.
pub fn directive_text(line: &[u8]) -> Option<&[u8]>
    ensures { option_map (λ text. text.now) result ≡ behind_hash (unblanked line.now) }
{
    behind_hash(unblanked(line))
}

/// The directive whose text stands after a `#`. The case of its word doesn't matter, and nothing after it
/// is looked at. (MPW Rez.)
pub fn directive_in(text: &[u8]) -> Directive
    ensures { result ≡ directive_in (unblanked text.now) }
{
    let rest = unblanked(text);
    if rest.is_empty() {
        Directive::Empty
    } else {
        named(front_word(rest))
    }
}

/// Whether a bracket stands directly after the name, which stands after the directive's word.
pub fn has_parameters(text: &[u8]) -> bool
    ensures { result ≡ has_parameters text.now }
{
    let name = unblanked(behind_word(unblanked(text)));
    behind_word(name).starts_with(b"(")
}

/// What follows the letters, digits and `_` at the front.
fn behind_word(bytes: &[u8]) -> &[u8]
    ensures { result.now ≡ behind_word bytes.now }
{
    let mut rest = bytes;
    loop {
        match rest {
            [first, behind @ ..] if is_word_byte(*first) => rest = behind,
            _ => return rest,
        }
    }
}

/// A line without the blanks at its front.
fn unblanked(line: &[u8]) -> &[u8]
    ensures { result.now ≡ unblanked line.now }
{
    let mut rest = line;
    loop {
        match rest {
            [first, behind @ ..] if is_blank(*first) => rest = behind,
            _ => return rest,
        }
    }
}

/// What stands after the `#` at the front.
fn behind_hash(line: &[u8]) -> Option<&[u8]>
    ensures { option_map (λ rest. rest.now) result ≡ behind_hash line.now }
{
    match line {
        [b'#', rest @ ..] => Some(rest),
        _ => None,
    }
}

/// The letters, digits and `_` at the front.
fn front_word(bytes: &[u8]) -> &[u8]
    ensures { result.now ≡ front_word bytes.now }
{
    bytes.split_at(word_size(bytes)).0
}

/// How many they are.
fn word_size(bytes: &[u8]) -> usize
    ensures size { result ≡ prefix_len is_word_byte bytes.now }
    ensures within { result ≤ length bytes.now }
{
    let mut size = 0;
    while size < bytes.len() && is_word_byte(bytes[size]) {
        size += 1;
    }
    size
}

/// The directive of a word.
fn named(name: &[u8]) -> Directive
    ensures { result ≡ named name.now }
{
    if name.eq_ignore_ascii_case(b"include") {
        Directive::Include
    } else if name.eq_ignore_ascii_case(b"define") {
        Directive::Define
    } else if name.eq_ignore_ascii_case(b"undef") {
        Directive::Undefine
    } else if name.eq_ignore_ascii_case(b"if") {
        Directive::If
    } else if name.eq_ignore_ascii_case(b"elif") {
        Directive::Elif
    } else if name.eq_ignore_ascii_case(b"ifdef") {
        Directive::Ifdef
    } else if name.eq_ignore_ascii_case(b"ifndef") {
        Directive::Ifndef
    } else if name.eq_ignore_ascii_case(b"else") {
        Directive::Else
    } else if name.eq_ignore_ascii_case(b"endif") {
        Directive::Endif
    } else {
        Directive::Other
    }
}

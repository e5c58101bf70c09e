//! How far the longest lexeme at the front of a line goes. It is defined in `specs/Extent` and `specs/Scan`.

ghost use Rattle.std.specs.Prelude.{◌≡◌, ◌≤◌, length, IfSome, MatchOption, None};
ghost use Rattle.rz_lex.specs.Seen.{seen};
ghost use Rattle.rz_lex.specs.Extent.{is_lexeme, Longest, NoFront};
ghost use Rattle.rz_lex.specs.Scan.{after_dollar, after_lexeme, after_quote, after_run, after_sign, after_two_dollars};

use crate::classes::{is_hex_digit, is_letter, is_quote, is_word_byte};
use crate::sign::{sign_of_one, sign_of_two};
use memchr::memchr2;

/// The longest lexeme at the front of a line, and what follows it. `None` comes exactly where no front
/// is a lexeme.
pub fn lexeme_at(rest: &[u8]) -> Option<(&[u8], &[u8])>
    ensures { MatchOption result (NoFront is_lexeme rest.now)
        (λ read. Longest is_lexeme rest.now read.0.now read.1.now) }
{
    match after_lexeme(rest) {
        None => None,
        Some(after) => {
            let size = rest.len() - after.len();
            Some((rest.split_at(size).0, after))
        }
    }
}

/// What follows the longest lexeme at the front.
fn after_lexeme(rest: &[u8]) -> Option<&[u8]>
    ensures { seen result ≡ after_lexeme rest.now }
{
    match rest {
        [] => None,
        [first, after @ ..] if is_word_byte(*first) => Some(after_run(after)),
        [first, after @ ..] if is_quote(*first) => after_quote(*first, after),
        [b'$', after @ ..] => after_dollar(after),
        _ => after_sign(rest),
    }
}

/// What follows the word bytes at the front.
fn after_run(start: &[u8]) -> &[u8]
    ensures { result.now ≡ after_run start.now }
{
    let mut rest = start;
    loop {
        match rest {
            [byte, after @ ..] if is_word_byte(*byte) => rest = after,
            _ => return rest,
        }
    }
}

/// What follows the first such quote mark that no backslash takes along.
fn after_quote(quote: u8, start: &[u8]) -> Option<&[u8]>
    ensures { seen result ≡ after_quote quote start.now }
{
    let mut rest = start;
    loop {
        match to_mark(quote, rest)? {
            [] => return None,
            [byte, after @ ..] if *byte == quote => return Some(after),
            [b'\\', _, after @ ..] => rest = after,
            [_, after @ ..] => rest = after,
        }
    }
}

/// The bytes from the first such quote mark or backslash on.
fn to_mark(quote: u8, bytes: &[u8]) -> Option<&[u8]>
    ensures rest { MatchOption result (after_quote quote bytes.now ≡ None)
        (λ rest. after_quote quote bytes.now ≡ after_quote quote rest.now) }
    ensures shorter { IfSome result (λ rest. length rest.now ≤ length bytes.now) }
{
    match memchr2(quote, b'\\', bytes) {
        None => None,
        Some(size) => Some(bytes.split_at(size).1),
    }
}

/// What follows a lexeme whose `$` is passed: a number, a hex text or a word.
fn after_dollar(rest: &[u8]) -> Option<&[u8]>
    ensures { seen result ≡ after_dollar rest.now }
{
    match rest {
        [byte, after @ ..] if is_hex_digit(*byte) => Some(after_run(after)),
        [b'"', after @ ..] => after_quote(b'"', after),
        [b'$', after @ ..] => after_two_dollars(after),
        _ => None,
    }
}

/// What follows a word whose `$$` is passed.
fn after_two_dollars(rest: &[u8]) -> Option<&[u8]>
    ensures { seen result ≡ after_two_dollars rest.now }
{
    match rest {
        [byte, after @ ..] if is_letter(*byte) => Some(after_run(after)),
        _ => None,
    }
}

/// What follows the longest sign at the front.
fn after_sign(rest: &[u8]) -> Option<&[u8]>
    ensures { seen result ≡ after_sign rest.now }
{
    match rest {
        [] => None,
        [first, second, after @ ..] if sign_of_two(*first, *second).is_some() => Some(after),
        [first, after @ ..] => {
            if sign_of_one(*first).is_some() {
                Some(after)
            } else {
                None
            }
        }
    }
}

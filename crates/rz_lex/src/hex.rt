//! The bytes of a hex text, whose digits stand in pairs. What they spell is in `specs/Hex`.

ghost use Rattle.std.specs.Prelude.{◌≡◌, ◌≤◌, length, IfOk};
ghost use Rattle.rz_lex.specs.Escape.{before};
ghost use Rattle.rz_lex.specs.Hex.{hex_value};

use crate::classes::is_blank;
use crate::digits::digit_value;
use rz_core::{Bytes, NoMemory};
use std::alloc::Global;

/// The bytes that pairs of hex digits spell, with blanks anywhere among them. `None` comes exactly where
/// the count of digits is odd or another byte stands. (MPW Rez.)
#[tactic(auto, using(crate::proofs::Befores::before_one_more))]
pub fn hex_value(alloc: Global, body: &[u8]) -> Result<Option<Bytes>, NoMemory>
    ensures { IfOk result (λ value. value ≡ hex_value body.now) }
{
    let mut value = Bytes::with_capacity(alloc, body.len() / 2)?;
    let mut first: Option<u8> = None;
    let mut rest = push_pairs(body, &mut value)?;
    while let [byte, after @ ..] = rest {
        if is_blank(*byte) {
            rest = after;
            if first.is_none() {
                rest = push_pairs(after, &mut value)?;
            }
            continue;
        }
        rest = after;
        let digit = digit_value(*byte);
        if digit >= 16 {
            return Ok(None);
        }
        match first {
            None => first = Some(digit),
            Some(high) => {
                value.push(16 * high + digit)?;
                first = None;
            }
        }
    }
    Ok(if first.is_some() { None } else { Some(value) })
}

/// Appends the bytes of the pairs of hex digits at the front, and gives what follows them.
fn push_pairs<'a>(body: &'a [u8], value: &mut Bytes) -> Result<&'a [u8], NoMemory>
    ensures value { IfOk result (λ rest. before value.new (hex_value rest.now) ≡ before value.old (hex_value body.now)) }
    ensures shorter { IfOk result (λ rest. length rest.now ≤ length body.now) }
{
    let mut rest = body;
    while let [first, second, after @ ..] = rest {
        let high = digit_value(*first);
        let low = digit_value(*second);
        if high >= 16 || low >= 16 {
            return Ok(rest);
        }
        value.push(16 * high + low)?;
        rest = after;
    }
    Ok(rest)
}

//! What expressions see of what is laid, and their values. What they see is in `specs/Seen`.

ghost use Rattle.std.specs.Prelude.{◌≡◌, ◌≤◌, if◌then◌else◌, not, Err, None, option_map, pos};
ghost use Rattle.rz_core.specs.Stop.{Gives};
ghost use Rattle.rz_expr.specs.NameKey.{key_of};
ghost use Rattle.rz_expr.specs.Term.{term_of};
ghost use Rattle.rz_expr.specs.Unvalued.{fault_of, held};
ghost use Rattle.rz_expr.specs.Value.{value_of};
ghost use Rattle.rz_layout.specs.Fault.{refusal_of};
ghost use Rattle.rz_layout.specs.Laid.{draft_of, IsShort};
ghost use Rattle.rz_layout.specs.Seen.{env_sight};
ghost use Rattle.rz_types_fields.specs.Known.{known};
ghost use Rattle.rz_types_fields.specs.Laid.{draft_sight, early_value, met_in, reads_late, refusal};
ghost use Rattle.rz_types_fields.specs.Sees.{bits_before, hit, is_later, names_later};
ghost use Rattle.rz_types_fields.specs.Spells.{nowhere};
ghost use Rattle.rz_types_fields.specs.Text.{bytes_seen, plain_parts};

use crate::LayFault;
use crate::fault::value_fault;
use crate::laid::Laid;
use rz_bits::BitBuf;
use rz_core::{Bytes, Facts, Fault, Mark, Stop};
use rz_expr::{Env, Expr, FactWord, Key, Mention, MentionTest, Unvalued, first_mention, value_in};
use rz_types_fields::{NamesEnv, Notes, Texts, text_seen, value_noted};
use std::alloc::Global;

/// What an expression sees of names and of the bits before a place, without the late ones.
#[derive(Drop)]
pub struct DraftEnv<'a> {
    /// What is known of the resource, and what was noted of names.
    pub names: NamesEnv<'a>,
    /// The bits.
    pub bits: &'a BitBuf,
    /// A mark for each bit up to the last late one: whether it is late.
    pub marks: &'a BitBuf,
    /// The place before which the bits stand that are seen.
    pub at: u32,
}

impl Env for DraftEnv<'_> {
    ghost view = { λ env. env_sight env };

    fn give(&self, key: Key<'_>) -> Option<i128> {
        self.names.give(key)
    }

    fn bits(&self, first: i64, width: i32) -> Option<u32> {
        number_seen(self.bits, self.marks, self.at, first, width as u8)
    }

    fn fact(&self, which: FactWord) -> i32 {
        self.names.fact(which)
    }
}

/// The number in so many bits from a bit on, where they all stand before a place and none of them is late.
fn number_seen(bits: &BitBuf, marks: &BitBuf, at: u32, first: i64, width: u8) -> Option<u32>
    requires { width ≤ 32 }
    ensures { option_map (λ n. pos n) result ≡ (if hit marks.now first (pos width) then None else bits_before bits.now at first (pos width)) }
{
    if first < 0 || first > i64::from(at) {
        return None;
    }
    if first + i64::from(width) > i64::from(at) {
        return None;
    }
    if is_hit(marks, first as u32, width) {
        return None;
    }
    bits.at(first as u32, width)
}

/// Whether one of so many bits from a bit on is late.
fn is_hit(marks: &BitBuf, first: u32, width: u8) -> bool
    requires { width ≤ 32 }
    ensures { result ≡ hit marks.now (pos first) (pos width) }
{
    marks.any(first, width)
}

/// What has no place yet.
#[derive(Clone, Copy)]
struct Later<'a> {
    notes: &'a Notes<'a>,
}

impl MentionTest for Later<'_> {
    ghost test = { λ test mention. is_later (met_in (known test.notes.now.items)) mention };

    fn passes(&self, mention: Mention<'_>) -> bool {
        match mention {
            Mention::Alone(name) | Mention::WithBits(name) => {
                is_later(self.notes, Key::Place(name))
            }
            Mention::Indexed(name) => is_later(self.notes, Key::Rows(name)),
            Mention::Counted(_) | Mention::Around(_) | Mention::Fact(_) => false,
        }
    }
}

/// Whether an expression names a label that has no place yet.
pub fn names_later(expr: &Expr, notes: &Notes<'_>) -> bool
    ensures { result ≡ names_later (met_in (known notes.now.items)) (term_of expr.now) }
{
    first_mention(expr, &Later { notes }).is_some()
}

/// Whether a key has no value yet.
fn is_later(notes: &Notes<'_>, key: Key<'_>) -> bool
    ensures { result ≡ not (met_in (known notes.now.items) (key_of key.entry)) }
{
    value_noted(notes, key).is_none()
}

/// The value of an expression after what is laid so far.
pub fn value_behind<'e>(expr: &'e Expr, facts: &Facts, laid: &Laid<'_>) -> Result<i32, Unvalued<'e>>
    ensures { held result ≡ value_of (term_of expr.now) (draft_sight facts.now (draft_of laid.now)) }
{
    let env = DraftEnv {
        names: NamesEnv {
            facts,
            notes: &laid.notes,
        },
        bits: &laid.bits,
        marks: &laid.marks,
        at: laid.bits.len(),
    };
    value_in(expr, &env)
}

/// The bytes of the parts of a text after what is laid so far, or their first fault.
pub fn bytes_behind(
    alloc: Global,
    parts: &Texts,
    facts: &Facts,
    laid: &Laid<'_>,
) -> Result<Bytes, Stop<Fault>>
    ensures { Gives (bytes_seen nowhere facts.now (draft_sight facts.now (draft_of laid.now)) (plain_parts parts.now)) result }
{
    let env = DraftEnv {
        names: NamesEnv {
            facts,
            notes: &laid.notes,
        },
        bits: &laid.bits,
        marks: &laid.marks,
        at: laid.bits.len(),
    };
    text_seen(alloc, parts, Mark { file: 0, line: 0 }, facts, &env)
}

/// Whether an expression has no value since bits before this place are late.
pub fn reads_late(at: u32, fault: &Unvalued<'_>) -> bool
    ensures { result ≡ reads_late at (fault_of fault.now) }
{
    match *fault {
        Unvalued::LaterData(first, end) => first >= 0 && end >= 0 && end <= i64::from(at),
        _ => false,
    }
}

/// Why an expression that can't be left for later has no value: 214 where it reads late bits.
pub fn early_fault(fault: Unvalued<'_>, laid: &Laid<'_>) -> LayFault
    requires { IsShort laid.now }
    ensures { early_value (draft_of laid.now) (Err (fault_of fault.entry)) ≡ Err (refusal_of result) }
{
    if reads_late(laid.bits.len(), &fault) {
        later_fault(laid)
    } else {
        value_fault(fault, laid.piece)
    }
}

/// 214, with the piece.
pub fn later_fault(laid: &Laid<'_>) -> LayFault
    requires { IsShort laid.now }
    ensures { refusal_of result ≡ refusal 214 laid.now.piece (pos laid.now.piece) }
{
    LayFault {
        number: 214,
        piece: laid.piece,
        value: laid.piece as i64,
    }
}

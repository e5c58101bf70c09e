//! What an expression sees: names, bits and facts. What an environment must give is in `specs/Environment`.

ghost use Rattle.std.specs.Prelude.{◌≡◌, ◌≤ℤ◌, pos, option_map};
ghost use Rattle.rz_expr.specs.Constant.{predefined_key};
ghost use Rattle.rz_expr.specs.Environment.{Sight, predefined};
ghost use Rattle.rz_expr.specs.NameKey.{key_of};
ghost use Rattle.rz_expr.specs.Value.{reduced};

use crate::FactWord;
use rz_core::Word;

/// What can have a value. Names are the same in whatever case. (MPW Rez.)
#[derive(Clone, Copy)]
pub enum Key<'a> {
    /// A name by itself: of a label its place in bits from the start of the resource, of `true` 1, of `false` 0.
    Place(&'a Word),
    /// How many rows the array of this name has.
    Count(&'a Word),
    /// How many rows the array has in which the label of this name stands.
    Rows(&'a Word),
    /// The place of the label of this name in the row of this number, which is counted from 1.
    PlaceIn(&'a Word, i32),
    /// The number, counted from 1, of the row around that is one of the array of this name.
    Row(&'a Word),
}

/// The value of a word that is a name in every expression, in whatever case: 1 of `true`, 0 of `false`. An environment
/// gives this value where nothing else has the name. (MPW Rez.)
pub fn predefined(name: &Word) -> Option<i32>
    ensures { result ≡ predefined name.now.bytes }
{
    let name = name.bytes.as_slice();
    if name.eq_ignore_ascii_case(b"true") {
        Some(1)
    } else if name.eq_ignore_ascii_case(b"false") {
        Some(0)
    } else {
        None
    }
}

/// The value of a key to which nothing else gives one: of `true` and `false` their values, of any other key none.
pub fn value_outside(key: Key<'_>) -> Option<i128>
    ensures { result ≡ predefined_key (key_of key.entry) }
{
    match key {
        Key::Place(name) => match predefined(name) {
            Some(value) => Some(i128::from(value)),
            None => None,
        },
        Key::Count(_) | Key::Rows(_) | Key::PlaceIn(..) | Key::Row(_) => None,
    }
}

/// What an expression sees at some moment: the values of keys, the bits of the resource so far, and the facts of the
/// resource and the moment. None of the calls takes memory.
pub trait Env {
    /// What is seen.
    ghost view: { Self → Sight };

    /// The value of a key, not wrapped to 32 bits. `None` where the key has none.
    fn give(&self, key: Key<'_>) -> Option<i128>
        ensures { result ≡ (view self.now).names.give (key_of key.entry) };

    /// The unsigned number in `width` bits, 1 to 32 of them, from the bit `first` on. Bits are counted from 0 at the
    /// start of the resource. `None` where one of these bits isn't there.
    fn bits(&self, first: i64, width: i32) -> Option<u32>
        requires { (pos 1 ≤ℤ width) × (width ≤ℤ pos 32) }
        ensures { option_map (λ number. pos number) result ≡ (view self.now).bits first width };

    /// A fact of the resource or the moment, wrapped to 32 bits with a sign.
    fn fact(&self, which: FactWord) -> i32
        ensures { result ≡ reduced ((view self.now).fact which) };
}

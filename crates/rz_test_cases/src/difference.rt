//! A difference, as it is printed.

use rz_test_cases_text::What;
use std::fmt;

/// The most bytes that are shown of what was wanted and of what came.
const MOST_SHOWN: usize = 80;

/// How many of the bytes that agree are shown before the first that differs.
const SHOWN_BEFORE: usize = 20;

/// What a run left otherwise than its case wants.
#[derive(Clone, Copy)]
pub struct Difference<'a> {
    pub what: What<'a>,
    pub wanted: Found<'a>,
    pub came: Found<'a>,
}

/// What is wanted or came there.
#[derive(Clone, Copy)]
pub enum Found<'a> {
    Number(u8),
    NoFile,
    Bytes(&'a [u8]),
    /// Whether a call comes.
    Comes(bool),
}

impl fmt::Display for Difference<'_> {
    fn fmt<W: fmt::Write>(&self, f: &mut fmt::Formatter<W>) -> fmt::Result {
        let from = self.first().saturating_sub(SHOWN_BEFORE);
        let what = self.what;
        let wanted = Shown {
            found: self.wanted,
            from,
        };
        let came = Shown {
            found: self.came,
            from,
        };
        write!(f, "{what} differs\n  wanted: {wanted}\n  came:   {came}")
    }
}

impl Difference<'_> {
    /// The position of the first byte that differs.
    fn first(&self) -> usize {
        let (Found::Bytes(wanted), Found::Bytes(came)) = (self.wanted, self.came) else {
            return 0;
        };
        let mut pairs = wanted.iter().zip(came.iter());
        match pairs.position(|(wanted, came)| *wanted != *came) {
            Some(place) => place,
            None => wanted.len().min(came.len()),
        }
    }
}

/// What is wanted or came, its bytes from a position on.
#[derive(Clone, Copy)]
struct Shown<'a> {
    found: Found<'a>,
    from: usize,
}

impl fmt::Display for Shown<'_> {
    fn fmt<W: fmt::Write>(&self, f: &mut fmt::Formatter<W>) -> fmt::Result {
        match self.found {
            Found::Number(number) => write!(f, "{number}"),
            Found::NoFile => write!(f, "no file"),
            Found::Comes(true) => write!(f, "it comes"),
            Found::Comes(false) => write!(f, "it never comes"),
            Found::Bytes(bytes) => {
                let count = bytes.len();
                let from = self.from;
                write!(f, "{count} bytes, from {from} on \"")?;
                for byte in bytes.iter().skip(from).take(MOST_SHOWN) {
                    for letter in byte.escape_ascii() {
                        write!(f, "{}", letter as char)?;
                    }
                }
                write!(f, "\"")
            }
        }
    }
}

//! The values that all other crates share: bytes and lists, numbers at a place of bytes, types and attributes of
//! resources, moments, Mac Roman, and faults with their message lines. Each call gives exactly its definition, or is
//! out of memory.
//! It rests on the standard library, on `bitflags` for attributes, on `byteorder` for numbers in bytes, and on
//! `jiff_core` for the calendar.
//! A new fault is a row of the table in `message`, of its definition, and of docs/LANGUAGE.md. Definitions that
//! several crates need stand in `specs`.
//!
//! Choices, and why:
//! - Every list is a `Listing<T>`, with an alias for each use. Contracts see the plain list of its items. It is made
//!   from a `Vec` and gives it back without memory. `FileNames` is a type of its own, since it takes and gives
//!   `&str`.
//! - Trees of values hold no expression and stand over `Listing` alone; `specs/formers` tells the checker that they
//!   may.
//! - A call that only appends to a `Bytes` takes no allocator: it grows by the one that the list keeps. Text of
//!   several appends is made apart and appended at once, so a lent list is unchanged if memory is refused.
//! - Attributes are flags by the crate `bitflags` (`Attr` of a resource, `MapAttributes` of a fork's map in
//!   `rz_fork`), and contracts see the number of their bits. `impl Flags` is written by hand. Every bit is kept,
//!   since a number in a header sets all eight bits, those without a word too. The list of flags is empty:
//!   `bitflag_items!` makes it a constant, and a constant may not lend values that contracts see by a model. So
//!   nothing is used that reads the list, as `all`, `from_bits`, `complement`, `from_name` and `iter`.
//! - Messages know the whole table of faults, so that a later part of the language adds no message.
#![tactic(auto)]

mod attr;
mod date_text;
mod decimal;
mod facts;
mod fault;
mod file_names;
mod laws;
mod list;
mod message;
mod moment;
mod number;
mod quoted;
mod resource;
mod roman;
mod stop;
mod word;

pub use attr::Attr;
pub use date_text::{write_date, write_time};
pub use decimal::{write_decimal, write_signed};
pub use facts::Facts;
pub use fault::{Fault, Kept, Mark};
pub use file_names::FileNames;
pub use laws::one_date;
pub use list::{Bytes, Listing};
pub use message::{fault_name, write_fault};
pub use moment::Moment;
pub use number::{
    append_u16, append_u24, append_u32, append_zeros, rest_at, u8_at, u16_at, u24_at, u32_at,
};
pub use quoted::{write_hex, write_quoted, write_shown, write_type};
pub use resource::{OsType, Resource, Resources, Word, Words};
pub use roman::{fold, from_roman, roman_is_one_to_one, to_roman};
pub use stop::{Halt, NoMemory, Stop};
pub use word::names_agree;

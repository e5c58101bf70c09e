//! Bits, most significant first: a buffer of them that grows at its end and becomes bytes, and a view of bytes as
//! their bits, with a place among them. Contracts see a `BitBuf` as the list of its bits, and of a `BitView` that list
//! and the place; each call gives exactly its definition, or is out of memory. The laws say that numbers and bytes are
//! read back from their bits.
//! It rests on `rz_core` and the standard library.
//! What a bit, a number of bits and a byte are is defined in `specs/Bits.antt`, and what stands at a place in
//! `specs/View.antt`. How the code holds the bits, in whole bytes, is in `specs/Held.antt`.
//!
//! Choices, and why:
//! - Bits are held in whole bytes, the last one filled with zero bits, so that they become bytes without memory.
#![tactic(auto)]

mod bit_buf;
mod bit_view;
mod laws;
mod patch;
mod tail;

pub use bit_buf::BitBuf;
pub use bit_view::BitView;
pub use laws::{
    bits_are_written_back, bytes_are_read_back, filled_to_a_multiple, numbers_are_read_back,
    numbers_are_written_back,
};
pub use tail::missing;

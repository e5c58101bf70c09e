//! Texts that are put together piece by piece, and texts with runs.

use rz_core::{Bytes, NoMemory, write_decimal};
use std::alloc::Global;

/// What a call gave, as bytes. Once memory is refused for a piece it is not whole, and stays so, so that no piece needs
/// an answer.
#[derive(Drop)]
pub struct Text {
    bytes: Bytes,
    is_whole: bool,
}

impl Text {
    /// No bytes.
    pub fn new(alloc: Global) -> Text {
        Text {
            bytes: Bytes::new(alloc),
            is_whole: true,
        }
    }

    /// Appends bytes.
    pub fn put(&mut self, piece: &[u8]) {
        if self.bytes.append(piece).is_err() {
            self.is_whole = false;
        }
    }

    /// Appends a number in decimal.
    pub fn number(&mut self, number: u64) {
        if write_decimal(number, &mut self.bytes).is_err() {
            self.is_whole = false;
        }
    }

    /// Leaves the text not whole, as where something can't be shown.
    pub fn fail(&mut self) {
        self.is_whole = false;
    }

    /// Its bytes, or, unless it is whole, words that no table wants.
    pub fn as_slice(&self) -> &[u8] {
        if self.is_whole {
            self.bytes.as_slice()
        } else {
            b"(not whole)"
        }
    }
}

/// The text that a call spells, where `«TEXT×N»` stands for TEXT N times.
pub fn expanded(alloc: Global, call: &str) -> Result<String, NoMemory> {
    let mut text = String::new(alloc);
    for piece in call.split('«') {
        let (run, after) = piece.split_once('»').unwrap_or(("×0", piece));
        let (again, count) = run.split_once('×').unwrap_or((run, "1"));
        for _ in 0..count.parse::<u32>().unwrap_or(0) {
            text.push_str(again)?;
        }
        text.push_str(after)?;
    }
    Ok(text)
}

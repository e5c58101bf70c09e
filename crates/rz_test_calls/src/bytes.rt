//! Bits, run codes, digits, statements and a fork.

use rz_bits::{BitBuf, BitView};
use rz_core::{Attr, Bytes, OsType, Resource, Resources, write_hex};
use rz_fork::{ForkView, MapAttributes, ResView, write_fork};
use rz_hqx::{runs_read, runs_write};
use rz_lex::lex;
use rz_stmt_brackets::statements;
use std::process::Abort;

/// The most bits of a buffer, and the most bytes of a fork.
const MOST: u32 = 1_000;

/// Appends zero bits to a whole byte, and looks at bits ahead.
pub fn try_bits(rt: &(impl Abort + AllocGlobal)) {
    let mut bits = BitBuf::new(rt.alloc());
    bits.push(5, 3).expect(rt, "memory");
    if bits.len() > MOST {
        panic!(rt; "too many bits");
    }
    bits.align(8).expect(rt, "memory");
    let bytes = bits.finish();
    if bytes.as_slice() != [0xA0].as_slice() {
        panic!(rt; "other bits");
    }
    let view = BitView::over(&[0xA0]);
    if view.peek(1, 2) != Some(1) || view.peek(7, 2).is_some() {
        panic!(rt; "other bits ahead");
    }
}

/// Makes codes of bytes, and bytes of codes.
pub fn try_codes(rt: &(impl Abort + AllocGlobal)) {
    let codes = runs_write(rt.alloc(), b"AAAAA\x90").expect(rt, "memory");
    if codes.as_slice() != b"A\x90\x05\x90\x00".as_slice() {
        panic!(rt; "other codes");
    }
    let Ok(bytes) = runs_read(rt.alloc(), b"A\x90\x05\x90\x00") else {
        panic!(rt; "no bytes");
    };
    if bytes.as_slice() != b"AAAAA\x90".as_slice() {
        panic!(rt; "other bytes");
    }
}

/// Writes a byte in hexadecimal.
pub fn try_digits(rt: &(impl Abort + AllocGlobal)) {
    let mut digits = Bytes::new(rt.alloc());
    write_hex(0xA5, &mut digits).expect(rt, "memory");
    if digits.as_slice() != b"A5".as_slice() {
        panic!(rt; "other digits");
    }
}

/// Cuts tokens into statements.
pub fn try_statements(rt: &(impl Abort + AllocGlobal)) {
    let Ok(tokens) = lex(rt.alloc(), b"a; { b; c; } d; e", 0) else {
        panic!(rt; "no tokens");
    };
    let spans = statements(rt.alloc(), &tokens).expect(rt, "memory");
    match spans.as_slice() {
        [first, second, last] if first.end == 2 && second.end == 10 && last.end == 11 => {}
        _ => panic!(rt; "other statements"),
    }
}

/// Writes the fork of one resource, and looks at the resource in place.
pub fn try_fork(rt: &(impl Abort + AllocGlobal)) {
    let mut list = Resources::new(rt.alloc());
    let resource = Resource {
        kind: OsType { code: 0x5465_7374 },
        id: -1,
        name: Bytes::of(rt.alloc(), b"ab").expect(rt, "memory"),
        attr: Attr::of(0x81),
        bytes: Bytes::new(rt.alloc()),
    };
    list.push(resource).expect(rt, "memory");
    let Ok(fork) = write_fork(rt.alloc(), &list, MapAttributes::READ_ONLY, b"rez") else {
        panic!(rt; "no fork");
    };
    if fork.as_slice().len() > 1_000 {
        panic!(rt; "too many bytes");
    }
    match ForkView::admit(fork.as_slice()) {
        Ok(view) if view.len() == 1 && is_one(&view.resource(0)) => {}
        _ => panic!(rt; "another resource"),
    }
}

/// Whether this is the resource of the fork.
fn is_one(one: &ResView<'_>) -> bool {
    one.kind.code == 0x5465_7374
        && one.id == -1
        && one.attr.byte() == 0x81
        && one.name == b"ab".as_slice()
        && one.bytes.is_empty()
}

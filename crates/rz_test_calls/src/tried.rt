//! The test that makes all calls.

use crate::{bytes, rows};

#[test]
fn calls_give_what_stands_here(rt: HostRuntime) {
    bytes::try_bits(&rt);
    bytes::try_codes(&rt);
    bytes::try_digits(&rt);
    bytes::try_statements(&rt);
    bytes::try_fork(&rt);
    rows::try_rows(&rt);
}

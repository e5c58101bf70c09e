//! The lengths that a fork to be written must not pass. What passes them is in `specs/Image`.

ghost use Rattle.std.specs.Prelude.{◌≡◌, ◌<◌, ◌≤◌, ◌^◌, ℕ, length, IfNone};
ghost use Rattle.rz_core.specs.Numbers.{kept_length};
ghost use Rattle.rz_fork.specs.Groups.{shown};
ghost use Rattle.rz_fork.specs.Image.{data_area, name_list, lists_end, passed, limit_of, AreNamed};

use crate::fault::LimitFault;
use crate::parts::stored_name_length;
use rz_core::Resource;

/// The longest data area, in bytes.
const DATA_LIMIT: u64 = 16_777_216;

/// The longest map without its name list, and the longest name list, in bytes.
const MAP_LIMIT: u64 = 65_535;

/// The longest length that a fault keeps.
const LAST_LENGTH: u64 = (1 << 63) - 1;

/// The length of the data area, at most 2^63 - 1.
pub fn data_length(order: &[&Resource]) -> u64
    ensures { result ≡ kept_length (length (data_area (shown order.now))) }
{
    let mut total: u64 = 0;
    for resource in order {
        total = total
            .saturating_add(4)
            .saturating_add(resource.bytes.len())
            .min(LAST_LENGTH);
    }
    total
}

/// The length of the name list, at most 2^63 - 1.
fn names_length(order: &[&Resource]) -> u64
    requires { AreNamed (shown order.now) }
    ensures { result ≡ kept_length (length (name_list (shown order.now))) }
{
    let mut total: u64 = 0;
    for resource in order {
        total = total
            .saturating_add(u64::from(stored_name_length(resource)))
            .min(LAST_LENGTH);
    }
    total
}

/// The length of the map without its name list, at most 2^63 - 1.
fn lists_length(kinds: usize, resources: usize) -> u64
    ensures { result ≡ kept_length (lists_end kinds resources) }
{
    (kinds as u64)
        .saturating_mul(8)
        .saturating_add((resources as u64).saturating_mul(12))
        .saturating_add(30)
        .min(LAST_LENGTH)
}

fn passed(number: u16, limit: u64, length: u64) -> Option<LimitFault>
    requires { length < 2 ^ 63 }
    ensures fault { result ≡ passed number limit length }
    ensures within { IfNone result (length ≤ limit) }
{
    if limit < length {
        return Some(LimitFault { number, length });
    }
    None
}

/// The first limit that a fork of so many types and of these resources passes.
pub fn first_limit(kinds: usize, order: &[&Resource]) -> Option<LimitFault>
    requires { AreNamed (shown order.now) }
    ensures first { result ≡ limit_of kinds (shown order.now) }
    ensures area { IfNone result (length (data_area (shown order.now)) ≤ 2 ^ 24) }
    ensures lists { IfNone result (lists_end kinds (length order.now) < 2 ^ 16) }
    ensures names { IfNone result (length (name_list (shown order.now)) < 2 ^ 16) }
{
    if let Some(fault) = passed(302, DATA_LIMIT, data_length(order)) {
        return Some(fault);
    }
    if let Some(fault) = passed(303, MAP_LIMIT, lists_length(kinds, order.len())) {
        return Some(fault);
    }
    passed(304, MAP_LIMIT, names_length(order))
}

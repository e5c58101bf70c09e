//! The broken rules of a fork, to be given one after the other.

ghost use Rattle.std.specs.Prelude.{◌≡◌, ◌<◌, ◌≤◌, ◌^◌, ◌++◌, [], length, drop, IfNone, IfSome};
ghost use Rattle.std.specs.List.{flat_map, AllByRecursion};
ghost use Rattle.rz_fork.specs.Admit.{IsSayable};
ghost use Rattle.rz_fork.specs.Breaks.{breaks, listed};
ghost use Rattle.rz_fork.specs.View.{GivesFirst};

use crate::heads::{HEAD_RULES, Heads, read_heads};
use crate::lists::{Cursor, Pass, START, next_in_lists};
use rz_fork::{ForkFault, IDS, Marks};
use std::marker::Model;

/// The broken rules of a fork that are still to be given: by rule, and within a rule in map order.
#[derive(Drop)]
pub struct Det<'a> {
    bytes: &'a [u8],
    heads: Heads,
    begun: usize,
    pass: Pass,
    cursor: Cursor,
    marks: Marks,
}

impl<'a> Model for Det<'a> {
    ghost use Rattle.std.specs.Prelude.{List};
    ghost use Rattle.rz_fork.specs.declared.fault.ForkFault.{ForkFault};
    ghost use Rattle.rz_told.specs.Left.{left, CanGive};

    ghost Value = { List ForkFault };

    ghost view = { λ det. left det.bytes.now det.heads det.begun det.pass det.cursor };

    ghost invariant = { λ det. CanGive det.bytes.now det.heads det.begun det.pass det.cursor det.marks };
}

/// What no bytes break.
const NOTHING: Heads = Heads {
    faults: [None; HEAD_RULES],
    outline: None,
    area: false,
};

impl<'a> Det<'a> {
    /// All broken rules of bytes, with the numbers, offsets and values of [`ForkFault`]. No bytes break none. A fork of
    /// fewer than 16 bytes breaks that rule alone; else the data area, the map and its length are each tested by
    /// themselves. Types and references are looked at where the map and its type list are sound, and a
    /// reference only in a type whose reference list is: from where the references pass 16,384 on no type's is.
    /// Data are looked at where the data area is sound too. It takes no memory. (After MPW RezDet.)
    pub fn over(bytes: &'a [u8]) -> Det<'a>
        requires short { length bytes.now < 2 ^ 32 }
        ensures { result ≡ breaks bytes.now }
    {
        Det {
            bytes,
            heads: if bytes.is_empty() {
                NOTHING
            } else {
                read_heads(bytes)
            },
            begun: 0,
            pass: Pass::Lists,
            cursor: START,
            marks: [false; IDS],
        }
    }

    /// The first of the broken rules that are still to come; `None` exactly where none is. It takes no memory. The time
    /// of all calls is linear in the map, but that each type's code is compared with those before it.
    pub fn next(&mut self) -> Option<ForkFault>
        ensures first { GivesFirst result self.old self.new }
        ensures sayable { IfSome result IsSayable }
    {
        let fault = next_head(&self.heads.faults, &mut self.begun);
        if fault.is_some() {
            return fault;
        }
        next_in_lists(
            self.bytes,
            self.heads.outline?,
            self.heads.area,
            &mut self.pass,
            &mut self.cursor,
            &mut self.marks,
        )
    }
}

/// The next fault on the header and the map, from a rule on.
fn next_head(faults: &[Option<ForkFault>; HEAD_RULES], begun: &mut usize) -> Option<ForkFault>
    requires begun { begun.old ≤ 6 }
    requires sayable { AllByRecursion (λ fault. IfSome fault IsSayable) faults.now }
    ensures gives { flat_map listed (drop begun.old faults.now) ≡ listed result ++ flat_map listed (drop begun.new faults.now) }
    ensures none { IfNone result (flat_map listed (drop begun.new faults.now) ≡ []) }
    ensures begun { begun.new ≤ 6 }
    ensures sayable { IfSome result IsSayable }
{
    while *begun < HEAD_RULES {
        let fault = faults[*begun];
        *begun += 1;
        if fault.is_some() {
            return fault;
        }
    }
    None
}

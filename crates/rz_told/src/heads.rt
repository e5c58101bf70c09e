//! The rules on the header and the map, each where the rules hold that it stands on.

ghost use Rattle.std.specs.Prelude.{◌≡◌, ◌<◌, ◌^◌, ◌++◌, true, length, IfSome, None};
ghost use Rattle.std.specs.List.{flat_map, AllByRecursion};
ghost use Rattle.rz_fork.specs.Admit.{HasArea, HasTypes, IsSayable};
ghost use Rattle.rz_fork.specs.Breaks.{breaks, listed};
ghost use Rattle.rz_told.specs.Left.{lists_of};

use rz_fork::{
    ForkFault, Outline, data_area_outside, map_outside, read_header, read_outline, short_header,
    short_map, type_list_at, type_list_outside, types_outside,
};

/// How many rules there are on the header and the map.
pub const HEAD_RULES: usize = 6;

/// What the rules on the header and the map find.
#[derive(Clone, Copy)]
pub struct Heads {
    /// The fault of each rule, where it is tested and broken.
    pub faults: [Option<ForkFault>; HEAD_RULES],
    /// Where the parts of the fork lie, if no rule but that on the data area is broken.
    pub outline: Option<Outline>,
    /// Whether the rule on the data area holds.
    pub area: bool,
}

/// Tests the rules on the header and the map.
pub fn read_heads(bytes: &[u8]) -> Heads
    requires short { length bytes.now < 2 ^ 32 }
    requires some { 0 < length bytes.now }
    ensures breaks { breaks bytes.now ≡ flat_map listed result.faults ++ lists_of bytes.now result.outline result.area }
    ensures types { IfSome result.outline (HasTypes bytes.now) }
    ensures area { IfSome result.outline (λ o. result.area ≡ true → HasArea bytes.now o.header) }
    ensures sayable { AllByRecursion (λ fault. IfSome fault IsSayable) result.faults }
{
    let short = short_header(bytes);
    if short.is_some() {
        return broken([short, None, None, None, None, None]);
    }
    let header = read_header(bytes);
    let area = data_area_outside(bytes, header);
    let map = map_outside(bytes, header);
    let long = short_map(header);
    if map.is_some() || long.is_some() {
        return broken([None, area, map, long, None, None]);
    }
    let types = type_list_at(bytes, header);
    let list = type_list_outside(header, types);
    if list.is_some() {
        return broken([None, area, None, None, list, None]);
    }
    let outline = read_outline(bytes, header, types);
    let count = types_outside(outline);
    if count.is_some() {
        return broken([None, area, None, None, None, count]);
    }
    Heads {
        faults: [None, area, None, None, None, None],
        outline: Some(outline),
        area: area.is_none(),
    }
}

/// These faults, after which types and references aren't looked at.
fn broken(faults: [Option<ForkFault>; HEAD_RULES]) -> Heads
    ensures faults { result.faults ≡ faults }
    ensures outline { result.outline ≡ None }
{
    Heads {
        faults,
        outline: None,
        area: false,
    }
}

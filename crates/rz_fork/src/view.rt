//! Forks in place: what the bytes of a fork hold, lent from them. What that is is in `specs/Contents` and `specs/View`.

ghost use Rattle.std.specs.Prelude.{◌≡◌, ◌<◌, ◌≤◌, ◌^◌, [], length, option_map, slice_get, IfOk, IfErr, Ok, Err, Some, None};
ghost use Rattle.std.specs.List.{AllByRecursion};
ghost use Rattle.rz_core.specs.Resources.{KeysDiffer};
ghost use Rattle.rz_fork.specs.Layout.{entries};
ghost use Rattle.rz_fork.specs.Admit.{admitted, HasArea, HasTypes, IsSayable};
ghost use Rattle.rz_fork.specs.Rules.{count_of, data_outside, name_outside};
ghost use Rattle.rz_fork.specs.Contents.{resource_of, FitsFork};
ghost use Rattle.rz_fork.specs.View.{lent, GivesFirst};

use crate::admit::{admit, entry_of, reference_of};
use crate::fault::ForkFault;
use crate::layout::{Header, Outline, Reference, TypeEntry};
use crate::map_attributes::MapAttributes;
use crate::read::{attributes_of, data_of, name_of, reserved_of};
use bitflags::Flags;
use rz_core::{Attr, Bytes, NoMemory, OsType, Resource, Resources};
use std::alloc::Global;
use std::marker::Model;

/// A resource of a fork, lent from the bytes of the fork.
#[derive(Clone, Copy)]
pub struct ResView<'a> {
    /// The type.
    pub kind: OsType,
    /// The id.
    pub id: i16,
    /// The name, at most 255 bytes; empty: no name.
    pub name: &'a [u8],
    /// The attributes.
    pub attr: Attr,
    /// The contents.
    pub bytes: &'a [u8],
}

/// A fork in place: contracts see what its bytes hold, which is lent and never copied, but by
/// [`copy_all`](ForkView::copy_all).
#[derive(Drop)]
pub struct ForkView<'a> {
    bytes: &'a [u8],
    outline: Outline,
    count: u32,
}

impl<'a> Model for ForkView<'a> {
    ghost use Rattle.std.specs.Prelude.{◌≡◌, ◌<◌, ◌^◌, length};
    ghost use Rattle.rz_fork.specs.Contents.{contents, Fork};
    ghost use Rattle.rz_fork.specs.View.{IsLent};

    ghost Value = { Fork };

    ghost view = { λ fork. contents fork.bytes.now };

    ghost invariant = { λ fork. IsLent fork.bytes.now fork.outline fork.count × (length fork.bytes.now < 2 ^ 32) };
}

/// The outline of no bytes.
const NOTHING: Outline = Outline {
    header: Header {
        data_at: 0,
        map_at: 0,
        data_length: 0,
        map_length: 0,
    },
    types: 0,
    names: 0,
    count: 0,
};

/// A type without references, with which a walk begins.
const NO_TYPE: TypeEntry = TypeEntry {
    place: 0,
    code: 0,
    count: 0,
    list: 0,
};

impl<'a> ForkView<'a> {
    /// The fork that the bytes are, or the first rule that they break. No bytes hold no resources, the attributes 0 and
    /// no reserved bytes. Other bytes are admitted where no rule of [`ForkFault`] is broken, and are else refused with
    /// the first broken rule, each tested over all types and references, in map order, before the next. Counts are
    /// stored less one, modulo 65,536, so that FFFF means none. A name offset of FFFF and a name without
    /// bytes are both an empty name. Resources may share bytes, names and reference lists. There are at most
    /// 2^32 - 1 bytes, and every offset in a fault is below 2^63. It takes no memory. (Inside Macintosh: More
    /// Macintosh Toolbox, Resource Manager, resource file format.)
    pub fn admit(bytes: &'a [u8]) -> Result<ForkView<'a>, ForkFault>
        requires short { length bytes.now < 2 ^ 32 }
        ensures ok { IfOk result (λ fork. admitted bytes.now ≡ Ok fork) }
        ensures err { IfErr result (λ fault. admitted bytes.now ≡ Err fault) }
        ensures keys { IfOk result (λ fork. KeysDiffer [] fork.list) }
        ensures bytes { IfOk result (λ fork. AllByRecursion FitsFork fork.list) }
        ensures room { IfOk result (λ fork. length fork.reserved ≤ 240) }
        ensures sayable { IfErr result IsSayable }
    {
        if bytes.is_empty() {
            return Ok(ForkView {
                bytes,
                outline: NOTHING,
                count: 0,
            });
        }
        let outline = admit(bytes)?;
        Ok(ForkView {
            bytes,
            outline,
            count: reference_count(bytes, outline),
        })
    }

    /// How many resources there are, at most 16,384.
    pub fn len(&self) -> u32
        ensures { result ≡ length self.now.list }
    {
        self.count
    }

    /// The attributes of the map.
    #[tactic(auto, unfolding(crate::specs::Contents::contents))]
    pub fn attributes(&self) -> MapAttributes
        ensures { result ≡ self.now.attributes }
    {
        if self.bytes.is_empty() {
            return MapAttributes::empty();
        }
        MapAttributes::from_bits_retain(attributes_of(self.bytes, self.outline.header))
    }

    /// The 240 bytes after the header, or as many of them as stand before the data area, the map and the
    /// end of the fork.
    #[tactic(auto, unfolding(crate::specs::Contents::contents))]
    pub fn reserved(&self) -> &'a [u8]
        ensures bytes { result.now ≡ self.now.reserved }
        ensures room { length result.now ≤ 240 }
    {
        if self.bytes.is_empty() {
            return &[];
        }
        reserved_of(self.bytes, self.outline.header)
    }

    /// The resource at a position from 0, in map order. It looks through the types before it; to visit all resources,
    /// [`walk`](ForkView::walk).
    pub fn resource(&self, k: u32) -> ResView<'a>
        requires { k < length self.now.list }
        ensures { slice_get self.now.list k ≡ Some (lent result) }
    {
        let mut entry = NO_TYPE;
        let mut begun = 0;
        let mut next = k as usize;
        while next >= entry.count {
            next -= entry.count;
            entry = entry_of(self.bytes, self.outline, begun);
            begun += 1;
        }
        let reference = reference_of(self.bytes, entry, next);
        view_of(self.bytes, self.outline, entry, reference)
    }

    /// The resources in map order, to be lent one after another: type by type, each type's in the order of
    /// its references.
    pub fn walk(&self) -> Walk<'a>
        ensures { result ≡ self.now.list }
    {
        Walk {
            bytes: self.bytes,
            outline: self.outline,
            entry: NO_TYPE,
            next: 0,
            begun: 0,
        }
    }

    /// A law, with nothing to run: no two of the resources have the same type and id.
    pub fn keys_differ(&self)
        ensures { KeysDiffer [] self.now.list }
    {
        let _bytes = self.bytes;
    }

    /// A law, with nothing to run: each resource is one that a fork can hold.
    pub fn fits(&self)
        ensures { AllByRecursion FitsFork self.now.list }
    {
        let _bytes = self.bytes;
    }

    /// All resources in map order, copied. Bytes that resources share are copied for each of them.
    pub fn copy_all(&self, alloc: Global) -> Result<Resources, NoMemory>
        ensures list { IfOk result (λ list. list ≡ self.now.list) }
        ensures keys { IfOk result (KeysDiffer []) }
        ensures bytes { IfOk result (AllByRecursion FitsFork) }
    {
        self.keys_differ();
        self.fits();
        let mut list = Resources::new(alloc);
        let mut walk = self.walk();
        while let Some(one) = walk.next() {
            list.push(copied(alloc, &one)?)?;
        }
        Ok(list)
    }
}

/// The resources of a fork that are still to be lent, in map order.
#[derive(Drop)]
pub struct Walk<'a> {
    bytes: &'a [u8],
    outline: Outline,
    entry: TypeEntry,
    next: usize,
    begun: usize,
}

impl<'a> Model for Walk<'a> {
    ghost use Rattle.std.specs.Prelude.{List};
    ghost use Rattle.rz_core.specs.declared.resource.Resource.{Resource};
    ghost use Rattle.rz_fork.specs.View.{left, CanLend};

    ghost Value = { List Resource };

    ghost view = { λ walk. left walk.bytes.now walk.outline walk.entry walk.next walk.begun };

    ghost invariant = { λ walk. CanLend walk.bytes.now walk.outline walk.entry walk.next walk.begun };
}

impl<'a> Walk<'a> {
    /// The first of the resources that are still to come; `None` exactly where none is. It takes no memory.
    pub fn next(&mut self) -> Option<ResView<'a>>
        ensures { GivesFirst (option_map lent result) self.old self.new }
    {
        while self.next >= self.entry.count {
            if self.begun >= self.outline.count {
                return None;
            }
            self.entry = entry_of(self.bytes, self.outline, self.begun);
            self.begun += 1;
            self.next = 0;
        }
        let reference = reference_of(self.bytes, self.entry, self.next);
        self.next += 1;
        Some(view_of(self.bytes, self.outline, self.entry, reference))
    }
}

/// How many references all types have.
fn reference_count(bytes: &[u8], outline: Outline) -> u32
    requires { HasTypes bytes.now outline }
    ensures { result ≡ count_of (entries bytes.now outline) }
{
    let mut count = 0;
    for position in 0..outline.count {
        count += entry_of(bytes, outline, position).count as u32;
    }
    count
}

/// The resource of a reference, lent.
#[tactic(auto, unfolding(crate::specs::Contents::resource_of))]
fn view_of<'a>(
    bytes: &'a [u8],
    outline: Outline,
    entry: TypeEntry,
    reference: Reference,
) -> ResView<'a>
    requires types { HasTypes bytes.now outline }
    requires area { HasArea bytes.now outline.header }
    requires data { data_outside bytes.now outline reference ≡ None }
    requires names { name_outside bytes.now outline reference ≡ None }
    ensures { lent result ≡ resource_of bytes.entry.now outline entry reference }
{
    ResView {
        kind: OsType { code: entry.code },
        id: reference.id.cast_signed(),
        name: name_of(bytes, outline, reference),
        attr: Attr::of(reference.attr),
        bytes: data_of(bytes, outline, reference),
    }
}

/// The resource that is lent, copied.
fn copied(alloc: Global, one: &ResView<'_>) -> Result<Resource, NoMemory>
    ensures { IfOk result (λ resource. resource ≡ lent one.now) }
{
    Ok(Resource {
        kind: one.kind,
        id: one.id,
        name: Bytes::of(alloc, one.name)?,
        attr: one.attr,
        bytes: Bytes::of(alloc, one.bytes)?,
    })
}

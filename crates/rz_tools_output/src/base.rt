//! What `rez` and `restring` begin with: a new file, or one that is there. What is taken of it is in `specs/Base`.

ghost use Rattle.std.specs.Prelude.{◌≡◌, ◌<◌, ◌≤◌, ◌^◌, [], ℕ, true, length, IfOk};
ghost use Rattle.std.specs.FinMap as finite;
ghost use Rattle.std.specs.List.{AllByRecursion};
ghost use Rattle.rz_core.specs.Message.{IsNameable};
ghost use Rattle.rz_core.specs.Resources.{KeysDiffer};
ghost use Rattle.rz_core.specs.Stop.{seen, Gives, OnFault};
ghost use Rattle.rz_folder.specs.Finds.{Finds};
ghost use Rattle.rz_folder.specs.Names.{IsUnplaced};
ghost use Rattle.rz_bridge_files.specs.Contents.{form_or};
ghost use Rattle.rz_set.specs.ResSet.{AreNamed};
ghost use Rattle.rz_tools_output.specs.Base.{base_held, base_in, base_of, begun_of, limited, new_base, read_only, CanBegin, HasOrNone, IsShortBase};

use bitflags::Flags;
use rz_bridge::{Finder, MacFile};
use rz_bridge_files::{Form, admit_fork, file_in, form_of};
use rz_core::{Bytes, Fault, Halt, Kept, OsType, Resources, Stop};
use rz_folder::{Folder, Read, read_present};
use rz_fork::{ForkView, MapAttributes};
use std::alloc::Global;

/// The most bytes of a resource that may be told as values.
const MOST_BYTES: usize = 16_777_212;

/// The type of applications, `APPL`.
const APPLICATION: OsType = OsType { code: 0x4150_504C };

/// The creator of a file that has none, `????`.
const UNKNOWN: OsType = OsType { code: 0x3F3F_3F3F };

/// What `rez` begins with, beside the resources.
#[derive(Drop)]
pub struct Base {
    /// The form of the file.
    pub form: Form,
    /// The fields of the file.
    pub file: MacFile,
    /// The attributes of the fork's map.
    pub attributes: MapAttributes,
    /// The reserved bytes of the fork.
    pub reserved: Bytes,
}

/// What `rez` begins with.
#[derive(Drop)]
pub struct Beginning {
    /// The form, the fields and what else the fork has.
    pub base: Base,
    /// The resources.
    pub list: Resources,
}

/// What `rez` begins with: where it appends to the file of this name, what that holds, in the form that its bytes have,
/// where a missing file counts as one of no bytes; else a new file. Refused with the first broken rule of the form,
/// then of the fork, then 220 (kept: the attributes) where the fork may be read only; none has a mark. (MPW Rez.)
pub fn read_base<F: Folder>(
    alloc: Global,
    folder: &mut F,
    append: bool,
    name: &str,
) -> Result<Beginning, Halt<Fault>>
    requires { append ≡ true → F.may_read folder.old name.now }
    ensures { Finds F.Folder folder.old folder.new (seen begun_of result) (λ files answer. base_of append name.now files ≡ answer) CanBegin IsUnplaced }
{
    if !append {
        return Ok(new_file(alloc));
    }
    let bytes = read_or_empty(alloc, folder, name)?;
    Ok(base_in(alloc, false, None, bytes)?)
}

/// The bytes of the file of this name, or none where no file has the name.
pub fn read_or_empty<F: Folder>(
    alloc: Global,
    folder: &mut F,
    name: &str,
) -> Result<Bytes, Halt<Fault>>
    requires { F.may_read folder.old name.now }
    ensures { Finds F.Folder folder.old folder.new result (λ files. HasOrNone (finite.get files name.now)) (λ bytes. length bytes < 2 ^ 32) IsUnplaced }
{
    match folder.read(alloc, name) {
        Read::Bytes(bytes) => Ok(bytes),
        Read::Missing => Ok(Bytes::new(alloc)),
        Read::Failed => Err(Halt::ReadFault),
        Read::NoMemory => Err(Halt::NoMemory),
    }
}

/// A new file, and no resources.
fn new_file(alloc: Global) -> Beginning
    ensures base { begun_of result ≡ new_base }
    ensures none { result.list ≡ [] }
{
    Beginning {
        base: Base {
            form: Form::Raw,
            file: MacFile {
                name: Bytes::new(alloc),
                finder: Finder {
                    kind: APPLICATION,
                    creator: UNKNOWN,
                    flags: 0,
                    vertical: 0,
                    horizontal: 0,
                    folder: 0,
                    extra: [0; 16],
                },
                locked: false,
                created: 0,
                modified: 0,
                data_fork: Bytes::new(alloc),
                res_fork: Bytes::new(alloc),
            },
            attributes: MapAttributes::empty(),
            reserved: Bytes::new(alloc),
        },
        list: Resources::new(alloc),
    }
}

/// What the file of this name holds to begin with, in the form that is asked for or else that its bytes have. Refused
/// with 101 if there is no such file, then with the first broken rule of the form, then of the fork, then 301 for the
/// first resource of more than 16,777,212 bytes (kept: its length), then 220 (kept: the attributes); none has a mark.
pub fn read_held<F: Folder>(
    alloc: Global,
    folder: &mut F,
    form: Option<Form>,
    name: &str,
) -> Result<Beginning, Halt<Fault>>
    requires { F.may_read folder.old name.now }
    ensures { Finds F.Folder folder.old folder.new (seen begun_of result) (λ files answer. base_held form name.now (finite.get files name.now) ≡ answer) IsShortBase IsUnplaced }
{
    let bytes = read_present(alloc, folder, name)?;
    Ok(base_in(alloc, true, form, bytes)?)
}

/// What bytes hold to begin with, in the form that is asked for or else that they have. The resources are copied out of
/// their fork, whose own bytes are then given back.
fn base_in(
    alloc: Global,
    short: bool,
    form: Option<Form>,
    bytes: Bytes,
) -> Result<Beginning, Stop<Fault>>
    requires { length bytes < 2 ^ 32 }
    ensures base { Gives (base_in short form bytes) (seen begun_of result) }
    ensures keys { IfOk result (λ begun. KeysDiffer [] begun.list) }
    ensures named { IfOk result (λ begun. AreNamed begun.list) }
    ensures short { short ≡ true → IfOk result (λ begun. AllByRecursion (λ r. length r.bytes ≤ 16777212) begun.list) }
    ensures room { IfOk result (λ begun. length begun.base.reserved ≤ 240) }
    ensures nameable { (files : ℕ) → OnFault result (IsNameable files) }
{
    let had = form_or(form, bytes.as_slice());
    let file = file_in(alloc, form, bytes, Bytes::new(alloc), None)?;
    let fork = match admit_fork(file.res_fork.as_slice(), None) {
        Ok(fork) => fork,
        Err(fault) => return Err(Stop::Refused(fault)),
    };
    if short {
        all_short(&fork)?;
    }
    let attributes = fork.attributes();
    if attributes.intersects(MapAttributes::READ_ONLY) {
        return Err(Stop::Refused(read_only(attributes.bits())));
    }
    let list = fork.copy_all(alloc)?;
    let reserved = Bytes::of(alloc, fork.reserved())?;
    Ok(Beginning {
        base: Base {
            form: had,
            file: MacFile {
                res_fork: Bytes::new(alloc),
                ..file
            },
            attributes,
            reserved,
        },
        list,
    })
}

/// Refuses with 301 the first resource of a fork that has more than 16,777,212 bytes (kept: its length), without a
/// mark.
pub fn all_short(fork: &ForkView<'_>) -> Result<(), Stop<Fault>>
    ensures fork { Gives (limited true fork.now) (seen (λ _. fork.now) result) }
    ensures short { IfOk result (λ _. AllByRecursion (λ r. length r.bytes ≤ 16777212) fork.now.list) }
    ensures nameable { (files : ℕ) → OnFault result (IsNameable files) }
{
    let mut walk = fork.walk();
    while let Some(one) = walk.next() {
        if one.bytes.len() > MOST_BYTES {
            return Err(Stop::Refused(Fault {
                number: 301,
                mark: None,
                kept: Kept::Number(one.bytes.len() as i64),
            }));
        }
    }
    Ok(())
}

/// The form that is asked for, or else that bytes have.
pub fn form_or(form: Option<Form>, bytes: &[u8]) -> Form
    ensures { result ≡ form_or form bytes.now }
{
    match form {
        Some(form) => form,
        None => form_of(bytes),
    }
}

/// 220, with the attributes.
fn read_only(attributes: u16) -> Fault
    ensures fault { result ≡ read_only attributes }
    ensures nameable { (files : ℕ) → IsNameable files result }
{
    Fault {
        number: 220,
        mark: None,
        kept: Kept::Number(i64::from(attributes)),
    }
}

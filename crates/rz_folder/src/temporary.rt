//! The name of a temporary file beside a path, and the folder of both; changed only with `specs/Temporary`.

ghost use Rattle.std.specs.Prelude.{◌≡◌, ◌<◌, ◌++◌, ℕ, List, length, codes, decimal, MatchOption};
ghost use Rattle.rz_folder.specs.Temporary.{IsNameBeside};

use arrayvec::ArrayString;
use itoa::Buffer;

// The longest name of a temporary file, in bytes. The host takes no longer path.
const NAME_LIMIT: usize = 4096;

/// The name of a temporary file. It lies in the value itself and takes no memory.
pub(crate) type TemporaryName = ArrayString<NAME_LIMIT>;

/// The name of the temporary file of that number beside a path: the folder part of the path, which
/// ends in its last slash, then `.rezkit-` and the number in decimal. It is `None` exactly where
/// that is longer than 4,096 bytes.
pub(crate) fn temporary_name(path: &str, number: u32) -> Option<TemporaryName>
    ensures { MatchOption result ((name : List ℕ) × IsNameBeside path.now number name × (NAME_LIMIT < length name))
        (λ name. IsNameBeside path.now number name.bytes) }
{
    match path.rsplit_once('/') {
        Some((folder, _)) => joined(folder, "/", number),
        None => joined("", "", number),
    }
}

// A folder, a slash or nothing, and the rest of the name, one after the other.
fn joined(folder: &str, slash: &str, number: u32) -> Option<TemporaryName>
    ensures { MatchOption result (NAME_LIMIT < length (folder.now ++ slash.now ++ codes ".rezkit-" ++ decimal number))
        (λ name. name.bytes ≡ folder.now ++ slash.now ++ codes ".rezkit-" ++ decimal number) }
{
    let mut digits = Buffer::new();
    let mut name = TemporaryName::new();
    name.try_push_str(folder).ok()?;
    name.try_push_str(slash).ok()?;
    name.try_push_str(".rezkit-").ok()?;
    name.try_push_str(digits.format(number)).ok()?;
    Some(name)
}

/// The folder of a path: what stands before its last slash, `.` where it has none, and `/` where nothing stands before
/// it.
pub(crate) fn folder_of(path: &str) -> &str {
    match path.rsplit_once('/') {
        Some(("", _)) => "/",
        Some((folder, _)) => folder,
        None => ".",
    }
}

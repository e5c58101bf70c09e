//! The name of the data file beside a header file of AppleDouble; changed only with `specs/DataFile`.

ghost use Rattle.std.specs.Prelude.{◌≡◌, ◌≢◌, ◌++◌, ℕ, [], IfOk, List, MatchOption, codes};
ghost use Rattle.std.specs.String.{string_bytes};
ghost use Rattle.rz_folder.specs.Temporary.{IsParted};
ghost use Rattle.rz_bridge_files.specs.DataFile.{IsDataFile, IsDataName};

use rz_core::NoMemory;
use std::alloc::Global;

/// The name of the file that holds the data fork beside a header file of AppleDouble: `dir/n` beside `dir/._n` where
/// `n` isn't empty, and beside any other header file its name and `.data`.
pub fn data_file_name(alloc: Global, header: &str) -> Result<String, NoMemory>
    ensures { IfOk result (λ name. IsDataFile header.now (string_bytes name)) }
{
    match header.rsplit_once('/') {
        Some((folder, last)) => in_folder(alloc, folder, "/", last),
        None => in_folder(alloc, "", "", header),
    }
}

/// The last name of a path: what follows its last slash, or the whole path where it has none.
pub fn last_name(path: &str) -> &str
    ensures { (folder : List ℕ) × IsParted path.now folder result.now }
{
    match path.rsplit_once('/') {
        Some((_, last)) => last,
        None => path,
    }
}

/// The name of the data file beside a header file with this last name in a folder; a slash or nothing stands between.
fn in_folder(alloc: Global, folder: &str, slash: &str, last: &str) -> Result<String, NoMemory>
    ensures { IfOk result (λ name. (own : List ℕ) × (string_bytes name ≡ folder.now ++ slash.now ++ own) × IsDataName last.now own) }
{
    match behind_mark(last) {
        Some(name) => joined(alloc, folder, slash, name, ""),
        None => joined(alloc, folder, slash, last, ".data"),
    }
}

/// What stands after `._`, where that isn't empty.
fn behind_mark(last: &str) -> Option<&str>
    ensures { MatchOption result ((rest : List ℕ) → rest ≢ [] → last.now ≡ codes "._" ++ rest → ⊥)
        (λ name. (last.now ≡ codes "._" ++ name.now) × (name.now ≢ [])) }
{
    let Some(rest) = last.strip_prefix('.') else {
        return None;
    };
    let Some(name) = rest.strip_prefix('_') else {
        return None;
    };
    if name.is_empty() { None } else { Some(name) }
}

/// Four texts, one after the other.
fn joined(
    alloc: Global,
    folder: &str,
    slash: &str,
    name: &str,
    end: &str,
) -> Result<String, NoMemory>
    ensures { IfOk result (λ text. string_bytes text ≡ folder.now ++ slash.now ++ name.now ++ end.now) }
{
    let mut text = folder.to_string(alloc)?;
    text.push_str(slash)?;
    text.push_str(name)?;
    text.push_str(end)?;
    Ok(text)
}

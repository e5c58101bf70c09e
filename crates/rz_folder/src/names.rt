//! The names under which an included file is looked for, in their order; changed only with `specs/Names`.

ghost use Rattle.std.specs.Prelude.{◌≡◌, ◌∷◌, ◌++◌, IfOk};
ghost use Rattle.std.specs.String.{string_bytes};
ghost use Rattle.rz_folder.specs.Names.{names_of, utf8_name};

use rz_core::{FileNames, NoMemory, from_roman};
use std::alloc::Global;

/// The names under which an included file is looked for, in UTF-8, in this order: its own, and then after each
/// path and `/`. The name is in Mac Roman. (MPW Rez.)
pub fn names_of(alloc: Global, paths: &FileNames, name: &[u8]) -> Result<FileNames, NoMemory>
    ensures { IfOk result (λ names. names ≡ names_of paths.now (utf8_name name.now)) }
{
    let own = utf8_name(alloc, name)?;
    let mut names = FileNames::new(alloc);
    names.push(&own)?;
    let mut k = 0;
    while k < paths.len() {
        names.push(&behind_path(alloc, paths.at(k), &own)?)?;
        k += 1;
    }
    Ok(names)
}

/// A name after a path and `/`.
fn behind_path(alloc: Global, path: &str, name: &str) -> Result<String, NoMemory>
    ensures { IfOk result (λ whole. string_bytes whole ≡ path.now ++ 47 ∷ name.now) }
{
    let mut whole = path.to_string(alloc)?;
    whole.push('/')?;
    whole.push_str(name)?;
    Ok(whole)
}

/// A name in Mac Roman as UTF-8.
fn utf8_name(alloc: Global, name: &[u8]) -> Result<String, NoMemory>
    ensures { IfOk result (λ whole. string_bytes whole ≡ utf8_name name.now) }
{
    let mut whole = String::new(alloc);
    for byte in name {
        whole.push(from_roman(*byte))?;
    }
    Ok(whole)
}

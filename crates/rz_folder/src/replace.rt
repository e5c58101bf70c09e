//! How a file of the host's is written: by a temporary file beside it; a link, device or pipe in place.

use crate::limit::may_have;
use crate::temporary::{folder_of, temporary_name};
use std::fs::{OpenFile, OpenOptions, Permissions};
use std::io::{ErrorKind, Write};
use std::os::unix::fs::OpenOptionsExt;
use std::rt::Files;
use std::{fs, io};

// What the host has at a path that is to be written.
#[derive(Drop)]
enum Target {
    // Nothing.
    Missing,
    // A regular file that may be written, with these permissions.
    Regular(Permissions),
    // A link, a device or a pipe.
    Special,
}

/// Makes the host's file of that path hold these bytes.
///
/// A regular file is replaced: the bytes go to a temporary file beside it, which takes its place
/// when they are all there. So after an error the old file is whole, or there is still none, and the
/// temporary file is removed; or the new file is whole, and its folder could not be brought to the
/// disk. A link, a device or a pipe is written in place, and after an error what it leads to may be
/// empty or hold a front of the bytes.
pub(crate) fn write_file<R: Files>(rt: &R, path: &str, bytes: &[u8]) -> io::Result<()> {
    match target_at(rt, path)? {
        Target::Missing => replace_file(rt, path, bytes, None),
        Target::Regular(permissions) => replace_file(rt, path, bytes, Some(permissions)),
        Target::Special => write_in_place(rt, path, bytes),
    }
}

// What is at the path. A folder is an error, and so is a regular file that may not be written.
fn target_at<R: Files>(rt: &R, path: &str) -> io::Result<Target> {
    let found = match fs::symlink_metadata(rt, path) {
        Ok(found) => found,
        Err(error) if error.kind() == ErrorKind::NotFound => return Ok(Target::Missing),
        Err(error) => return Err(error),
    };
    if found.is_dir() {
        return Err(io::Error::from(ErrorKind::IsADirectory));
    }
    if !found.is_file() {
        return Ok(Target::Special);
    }
    // A rename asks only whether the folder may be written; this asks it of the file.
    OpenOptions::new().write(true).open(rt, path)?;
    Ok(Target::Regular(found.permissions()))
}

// Writes what the path leads to, from its start. A regular file is on its disk after this; one that may not have so
// many bytes stays as it was.
fn write_in_place<R: Files>(rt: &R, path: &str, bytes: &[u8]) -> io::Result<()> {
    if !may_have(rt, bytes.len()) && fs::metadata(rt, path)?.is_file() {
        return Err(io::Error::from(ErrorKind::FileTooLarge));
    }
    let mut file = fs::create(rt, path)?;
    file.write_all(bytes)?;
    if file.metadata()?.is_file() {
        file.sync_all()?;
    }
    Ok(())
}

// Writes a temporary file beside the path under the first number that is free, and moves it there.
fn replace_file<R: Files>(
    rt: &R,
    path: &str,
    bytes: &[u8],
    permissions: Option<Permissions>,
) -> io::Result<()> {
    if !may_have(rt, bytes.len()) {
        return Err(io::Error::from(ErrorKind::FileTooLarge));
    }
    for number in 0..u32::MAX {
        let Some(name) = temporary_name(path, number) else {
            return Err(io::Error::from(ErrorKind::InvalidFilename));
        };
        match create_temporary(rt, name.as_str(), permissions.is_some()) {
            Ok(file) => {
                let outcome = fill(file, bytes, permissions);
                return settle(rt, outcome, name.as_str(), path);
            }
            Err(error) if error.kind() == ErrorKind::AlreadyExists => {}
            Err(error) => return Err(error),
        }
    }
    Err(io::Error::from(ErrorKind::AlreadyExists))
}

// Creates a file that wasn't there. A private one is its owner's alone until it gets permissions.
fn create_temporary<R: Files>(rt: &R, name: &str, is_private: bool) -> io::Result<R::File> {
    let mut options = OpenOptions::new();
    options.write(true).create_new(true);
    if is_private {
        options.mode(0o600);
    }
    options.open(rt, name)
}

// Writes the bytes to the file until they are on its disk, and closes it.
fn fill<F: Write + OpenFile + Drop>(
    mut file: F,
    bytes: &[u8],
    permissions: Option<Permissions>,
) -> io::Result<()> {
    if let Some(permissions) = permissions {
        file.set_permissions(permissions)?;
    }
    file.write_all(bytes)?;
    file.sync_all()
}

// Moves the temporary file to the path where it was filled, and removes it where one of the two failed.
fn settle<R: Files>(rt: &R, filled: io::Result<()>, name: &str, path: &str) -> io::Result<()> {
    let moved = match filled {
        Ok(()) => fs::rename(rt, name, path),
        Err(error) => Err(error),
    };
    match moved {
        Ok(()) => sync_folder(rt, folder_of(path)),
        Err(error) => {
            // The first error is the one to tell.
            let _ = fs::remove_file(rt, name);
            Err(error)
        }
    }
}

// Waits until what a folder names is on its disk. Where the host doesn't open the folder, or has no such call for it,
// nothing is waited for.
fn sync_folder<R: Files>(rt: &R, folder: &str) -> io::Result<()> {
    let Ok(folder) = fs::open(rt, folder) else {
        return Ok(());
    };
    match folder.sync_all() {
        Err(error)
            if !matches!(
                error.kind(),
                ErrorKind::InvalidInput | ErrorKind::Unsupported
            ) => { Err(error) }
        _ => Ok(()),
    }
}

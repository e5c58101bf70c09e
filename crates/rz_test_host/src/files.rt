//! Calls of the host's files, and what they give, as text.

use crate::steps::{in_two, show_bytes, show_done};
use crate::text::Text;
use rz_folder::{Folder, RealFolder, Written};
use std::alloc::Global;
use std::fs::{OpenOptions, Permissions};
use std::os::unix::fs::{PermissionsExt, symlink};
use std::{fs, io};

/// Makes a call of the host's, or shows what the host tells of a file.
pub fn show_file_call(rt: HostRuntime, call: &str, came: &mut Text) {
    match in_two(call) {
        ("make-folder", name) => show_done(fs::create_dir(&rt, name), came),
        ("remove-folder", name) => show_done(fs::remove_dir(&rt, name), came),
        ("remove", name) => show_done(fs::remove_file(&rt, name), came),
        ("write", rest) => {
            let (name, content) = in_two(rest);
            show_done(fs::write(&rt, name, content.as_bytes()), came);
        }
        ("link", rest) => {
            let (target, link) = in_two(rest);
            show_done(symlink(&rt, target, link), came);
        }
        ("allow", rest) => show_allow(rt, rest, came),
        ("leave", rest) => show_left(rt, rest, true, came),
        ("take", rest) => show_left(rt, rest, false, came),
        ("read", name) => match fs::read(&rt, name) {
            Ok(bytes) => show_bytes(bytes.as_slice(), came),
            Err(_) => came.put(b"refused"),
        },
        ("mode", name) => match fs::metadata(&rt, name) {
            Ok(facts) => show_mode(rt.alloc(), facts.permissions().mode() & 0o777, came),
            Err(_) => came.put(b"refused"),
        },
        ("is-link", name) => {
            let facts = fs::symlink_metadata(&rt, name);
            show_truth(facts.map(|facts| facts.is_symlink()), came);
        }
        ("exists", name) => show_truth(fs::exists(&rt, name), came),
        _ => came.fail(),
    }
}

/// Writes or removes so many files of another's that have the first names of temporary files in a folder.
fn show_left(rt: HostRuntime, call: &str, is_written: bool, came: &mut Text) {
    let (count, folder) = in_two(call);
    let Ok(count) = count.parse::<u32>() else {
        came.fail();
        return;
    };
    for number in 0..count {
        let Ok(name) = format!(in rt.alloc(); "{folder}/.rezkit-{number}") else {
            came.fail();
            return;
        };
        if is_written {
            show_done(fs::write(&rt, name.as_str(), b"another's"), came);
        } else {
            show_done(fs::remove_file(&rt, name.as_str()), came);
        }
    }
}

/// Sets the permissions of a file.
fn show_allow(rt: HostRuntime, call: &str, came: &mut Text) {
    let (mode, name) = in_two(call);
    match u32::from_str_radix(mode, 8) {
        Ok(mode) => {
            let permissions = Permissions::from_mode(mode);
            show_done(fs::set_permissions(&rt, name, permissions), came);
        }
        Err(_) => came.fail(),
    }
}

/// Shows permissions in octal.
fn show_mode(alloc: Global, mode: u32, came: &mut Text) {
    match format!(in alloc; "{mode:o}") {
        Ok(mode) => came.put(mode.as_bytes()),
        Err(_) => came.fail(),
    }
}

/// Shows whether something is so.
fn show_truth(is_so: io::Result<bool>, came: &mut Text) {
    match is_so {
        Ok(true) => came.put(b"true"),
        Ok(false) => came.put(b"false"),
        Err(_) => came.put(b"refused"),
    }
}

/// Writes a file that is there: `Done` where the host lets it be written, else `Failed`. What gives the other of both is
/// `wrong`.
pub fn show_rewrite(
    rt: HostRuntime,
    folder: &mut RealFolder<HostRuntime>,
    call: &str,
    came: &mut Text,
) {
    let (name, content) = in_two(call);
    if content.len() > 1_000 {
        came.fail();
        return;
    }
    let may_write = OpenOptions::new().write(true).open(&rt, name).is_ok();
    let is_done = matches!(folder.write(name, content.as_bytes()), Written::Done);
    if is_done == may_write {
        came.put(b"as the host lets it");
    } else {
        came.put(b"wrong");
    }
}

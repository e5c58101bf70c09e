//! What a run left, compared with what its case wants.

use crate::difference::{Difference, Found};
use crate::runner::Ran;
use rz_test_cases_text::{Case, Target, Trouble, What};
use std::alloc::Global;

/// All that a run left or did otherwise than its case wants. The files that are looked at are those of the
/// case and those that the run wrote; so no other is there.
pub fn differences<'a>(
    alloc: Global,
    case: &'a Case,
    ran: &'a Ran,
) -> Result<Vec<Difference<'a>>, Trouble> {
    let mut found = Vec::new(alloc);
    match add_differences(alloc, case, ran, &mut found) {
        Ok(()) => Ok(found),
        Err(trouble) => {
            drop(found);
            Err(trouble)
        }
    }
}

/// Adds all that a run left or did otherwise than its case wants.
fn add_differences<'a>(
    alloc: Global,
    case: &'a Case,
    ran: &'a Ran,
    found: &mut Vec<Difference<'a>>,
) -> Result<(), Trouble> {
    if case.status != Some(ran.status) {
        found.push(Difference {
            what: What::Status,
            wanted: status_of(case.status),
            came: Found::Number(ran.status),
        })?;
    }
    let names = names_of(alloc, case, ran)?;
    let added = add_files(case, ran, &names, found);
    drop(names);
    added?;
    let out = Found::Bytes(ran.world.out.bytes());
    add_difference(found, What::Out, stream_of(&case.out), out)?;
    let err = Found::Bytes(ran.world.err.bytes());
    add_difference(found, What::Err, stream_of(&case.err), err)?;
    add_calls(found, ran)
}

/// Adds the files of these names that a run left otherwise than its case wants.
fn add_files<'a>(
    case: &'a Case,
    ran: &'a Ran,
    names: &[&'a str],
    found: &mut Vec<Difference<'a>>,
) -> Result<(), Trouble> {
    for name in names {
        let wanted = found_in(case.wanted(name));
        let came = found_in(ran.world.folder.folder.bytes(name));
        add_difference(found, What::File(name), wanted, came)?;
    }
    Ok(())
}

/// The names of the files that are looked at, each once.
pub fn names_of<'a>(alloc: Global, case: &'a Case, ran: &'a Ran) -> Result<Vec<&'a str>, Trouble> {
    let mut names = Vec::new(alloc);
    for stored in &case.files {
        add_name(&mut names, stored.name.as_str())?;
    }
    for left in &case.left {
        add_name(&mut names, left.name.as_str())?;
    }
    for name in &ran.world.folder.written {
        add_name(&mut names, name.as_str())?;
    }
    Ok(names)
}

fn add_name<'a>(names: &mut Vec<&'a str>, name: &'a str) -> Result<(), Trouble> {
    if !names.contains(&name) {
        names.push(name)?;
    }
    Ok(())
}

/// Adds a place where what came isn't what is wanted.
pub fn add_difference<'a>(
    found: &mut Vec<Difference<'a>>,
    what: What<'a>,
    wanted: Found<'a>,
    came: Found<'a>,
) -> Result<(), Trouble> {
    let same = match (wanted, came) {
        (Found::Bytes(wanted), Found::Bytes(came)) => wanted == came,
        (Found::NoFile, Found::NoFile) => true,
        _ => false,
    };
    if !same {
        found.push(Difference { what, wanted, came })?;
    }
    Ok(())
}

/// Adds the calls that are to fail and that the run didn't make, or made where it was to make none of them.
pub fn add_calls(found: &mut Vec<Difference<'_>>, ran: &Ran) -> Result<(), Trouble> {
    let wanted = !ran.failures.never;
    for target in Target::ALL {
        if let Some(call) = ran.failures.call(target) {
            let comes = call <= ran.world.calls(target);
            if comes != wanted {
                found.push(Difference {
                    what: What::Call(target),
                    wanted: Found::Comes(wanted),
                    came: Found::Comes(comes),
                })?;
            }
        }
    }
    Ok(())
}

/// What a name holds.
pub fn found_in(bytes: Option<&[u8]>) -> Found<'_> {
    match bytes {
        Some(bytes) => Found::Bytes(bytes),
        None => Found::NoFile,
    }
}

/// The status that is wanted.
pub fn status_of(stated: Option<u8>) -> Found<'static> {
    match stated {
        Some(status) => Found::Number(status),
        None => Found::NoFile,
    }
}

/// What a stream is to hold: nothing, unless the case states it.
fn stream_of(stated: &Option<Vec<u8>>) -> Found<'_> {
    match stated {
        Some(bytes) => Found::Bytes(bytes.as_slice()),
        None => Found::Bytes(&[]),
    }
}

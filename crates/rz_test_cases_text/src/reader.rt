//! A case file, read as its cases.

use crate::case::{Case, Target};
use crate::entry::{Entry, entries};
use crate::keys::add_entry;
use crate::trouble::Trouble;
use std::alloc::Global;

/// The cases of a case file, or the first line that has another form than the format.
pub fn read_cases(alloc: Global, text: &str) -> Result<Vec<Case>, Trouble> {
    let entries = entries(alloc, text)?;
    let mut cases: Vec<Case> = Vec::new(alloc);
    let read = add_cases(alloc, &entries, &mut cases);
    drop(entries);
    match read {
        Ok(()) => Ok(cases),
        Err(trouble) => {
            drop(cases);
            Err(trouble)
        }
    }
}

/// Adds the cases that entries say, which are to have all that a case needs.
fn add_cases(alloc: Global, entries: &[Entry<'_>], cases: &mut Vec<Case>) -> Result<(), Trouble> {
    for entry in entries {
        add_said(alloc, entry, cases)?;
    }
    for case in cases.as_slice() {
        if let Some(what) = flaw_of(case) {
            return Err(Trouble::Malformed {
                line: case.line,
                what,
            });
        }
    }
    Ok(())
}

/// Begins a case, or adds what an entry says to the last one.
fn add_said(alloc: Global, entry: &Entry<'_>, cases: &mut Vec<Case>) -> Result<(), Trouble> {
    if entry.key == "case" {
        let name = String::from_str(alloc, entry.argument)?;
        cases.push(Case::new(alloc, entry.line, name))?;
        return Ok(());
    }
    match cases.last_mut() {
        Some(case) => add_entry(alloc, case, entry),
        None => Err(entry.flaw("no case begins before this line")),
    }
}

/// What a case leaves out, or says for nothing.
fn flaw_of(case: &Case) -> Option<&'static str> {
    let failures = &case.failures;
    let names_none = Target::ALL
        .iter()
        .all(|target| failures.call(*target).is_none());
    if case.status.is_none() {
        Some("the case states no status")
    } else if failures.never && names_none {
        Some("no call is named that never comes")
    } else if case.sweep.is_some() && !(names_none && case.wrong.is_empty()) {
        Some("a sweep names no other call that fails, and isn't wrong on purpose")
    } else {
        None
    }
}

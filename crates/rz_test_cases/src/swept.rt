//! The runs of a sweep, and what each left otherwise than it must.

use crate::compare::{add_calls, add_difference, differences, found_in, names_of, status_of};
use crate::demand::{Demand, Files, Held};
use crate::difference::{Difference, Found};
use crate::runner::{Command, Ran, run_with};
use anyhow::Result;
use rz_test_cases_text::{Case, Sweep, Trouble, What};
use std::alloc::Global;

/// Runs a case once for each call that fails in turn, and once more, where none does. Prints what the first run that
/// differs left otherwise, and says whether there is one.
pub fn sweep_differs<R: AllocGlobal + Print, C: Command>(
    rt: &R,
    command: &C,
    name: &str,
    case: &Case,
    sweep: &Sweep,
) -> Result<bool> {
    for failed in 0..sweep.calls() {
        if run_differs(rt, command, name, case, sweep, failed + 1)? {
            return Ok(true);
        }
    }
    run_differs(rt, command, name, case, sweep, sweep.calls() + 1)
}

/// Prints what the run of this number left otherwise than it must, and says whether there is anything.
fn run_differs<R: AllocGlobal + Print, C: Command>(
    rt: &R,
    command: &C,
    name: &str,
    case: &Case,
    sweep: &Sweep,
    run: u64,
) -> Result<bool> {
    let ran = run_with(rt.alloc(), command, case, sweep.failures(run))?;
    let differs = print_run(rt, name, case, sweep, run, &ran);
    drop(ran);
    differs
}

/// Prints what the run of this number, which left this, left otherwise than it must, and says whether there is
/// anything.
fn print_run<R: AllocGlobal + Print>(
    rt: &R,
    name: &str,
    case: &Case,
    sweep: &Sweep,
    run: u64,
    ran: &Ran,
) -> Result<bool> {
    if sweep.is_last(run) {
        let found = differences(rt.alloc(), case, ran)?;
        return print_found(rt, name, case, run, &found);
    }
    let demand = Demand::of(rt.alloc(), sweep, case, run)?;
    let differs = print_unmet(rt, name, case, run, ran, &demand);
    drop(demand);
    differs
}

/// Prints what a run of which a call failed left otherwise than is demanded, and says whether there is anything.
fn print_unmet<R: AllocGlobal + Print>(
    rt: &R,
    name: &str,
    case: &Case,
    run: u64,
    ran: &Ran,
    demand: &Demand,
) -> Result<bool> {
    let found = unmet(rt.alloc(), case, ran, demand)?;
    print_found(rt, name, case, run, &found)
}

/// Prints the differences of a run, and says whether there are any.
fn print_found<R: Print>(
    rt: &R,
    name: &str,
    case: &Case,
    run: u64,
    found: &[Difference<'_>],
) -> Result<bool> {
    let line = case.line;
    let title = case.name.as_str();
    for difference in found {
        println!(rt; "{name}:{line}: {title}: run {run}: {difference}")?;
    }
    Ok(!found.is_empty())
}

/// What a run of which a call failed left otherwise than is demanded.
fn unmet<'a>(
    alloc: Global,
    case: &'a Case,
    ran: &'a Ran,
    demand: &'a Demand,
) -> Result<Vec<Difference<'a>>, Trouble> {
    let mut found = Vec::new(alloc);
    match add_unmet(alloc, case, ran, demand, &mut found) {
        Ok(()) => Ok(found),
        Err(trouble) => {
            drop(found);
            Err(trouble)
        }
    }
}

/// Adds what a run of which a call failed left otherwise than is demanded.
fn add_unmet<'a>(
    alloc: Global,
    case: &'a Case,
    ran: &'a Ran,
    demand: &'a Demand,
    found: &mut Vec<Difference<'a>>,
) -> Result<(), Trouble> {
    if demand.status != Some(ran.status) {
        found.push(Difference {
            what: What::Status,
            wanted: status_of(demand.status),
            came: Found::Number(ran.status),
        })?;
    }
    let names = names_of(alloc, case, ran)?;
    let added = add_files(case, ran, demand.files, &names, found);
    drop(names);
    added?;
    add_stream(found, What::Out, &demand.out, ran.world.out.bytes())?;
    add_stream(found, What::Err, &demand.err, ran.world.err.bytes())?;
    add_calls(found, ran)
}

/// Adds the files of these names that hold something else than they must.
fn add_files<'a>(
    case: &'a Case,
    ran: &'a Ran,
    files: Files,
    names: &[&'a str],
    found: &mut Vec<Difference<'a>>,
) -> Result<(), Trouble> {
    for name in names {
        let wanted = found_in(demanded_file(case, ran, files, name));
        let came = found_in(ran.world.folder.folder.bytes(name));
        add_difference(found, What::File(name), wanted, came)?;
    }
    Ok(())
}

/// What the name must hold after a run of which a call failed.
fn demanded_file<'a>(case: &'a Case, ran: &Ran, files: Files, name: &str) -> Option<&'a [u8]> {
    let is_written = ran
        .world
        .folder
        .written
        .iter()
        .any(|written| written.as_str() == name);
    if files == Files::Wanted || files == Files::Written && is_written {
        case.wanted(name)
    } else {
        case.before(name)
    }
}

/// Adds what a stream holds otherwise than it must.
fn add_stream<'a>(
    found: &mut Vec<Difference<'a>>,
    what: What<'a>,
    held: &'a Held,
    came: &'a [u8],
) -> Result<(), Trouble> {
    if held.is_front && held.bytes.starts_with(came) {
        return Ok(());
    }
    let wanted = Found::Bytes(held.bytes.as_slice());
    add_difference(found, what, wanted, Found::Bytes(came))
}

//! The case files of a folder, and the cases of each.

use crate::compare::differences;
use crate::difference::Difference;
use crate::runner::{Command, Ran, run_with};
use crate::swept::sweep_differs;
use crate::tally::Tally;
use anyhow::Result;
use rz_test_cases_text::{Case, Trouble, What, read_cases};
use std::alloc::Global;
use std::fs;
use std::process::ExitCode;
use std::rt::Files;

/// Runs the cases of a folder by this command: those of its files `*.cases`, in the order of their names. It prints
/// each place in which a run left something else than its case wants, then how many cases there are and how many
/// differ. It is a success exactly where there are cases and none differs; a case that can't be run counts as one that
/// differs, and so does a file that isn't one of cases. An error comes where the folder can't be read, nothing can be
/// printed, or memory for the names of the files is refused.
pub fn run_cases<R: Files + AllocGlobal + Print + Clone + Drop, C: Command>(
    rt: &R,
    folder: &str,
    command: &C,
) -> Result<ExitCode> {
    let mut tally = Tally::default();
    let files = case_files(rt, folder)?;
    let ran = run_files(rt, command, &files, &mut tally);
    drop(files);
    ran?;
    println!(rt; "{tally}")?;
    Ok(tally.exit_code())
}

/// Runs the cases of files.
fn run_files<R: Files + AllocGlobal + Print, C: Command>(
    rt: &R,
    command: &C,
    files: &[String],
    tally: &mut Tally,
) -> Result<()> {
    for file in files {
        run_group(rt, command, file.as_str(), tally)?;
    }
    Ok(())
}

/// The paths of the case files in a folder, in order.
fn case_files<R: Files + AllocGlobal + Clone + Drop>(rt: &R, folder: &str) -> Result<Vec<String>> {
    let mut names = Vec::new(rt.alloc());
    match add_case_files(rt, folder, &mut names) {
        Ok(()) => Ok(names),
        Err(error) => {
            drop(names);
            Err(error)
        }
    }
}

/// Adds the paths of the case files in a folder, and puts all in order.
fn add_case_files<R: Files + AllocGlobal + Clone + Drop>(
    rt: &R,
    folder: &str,
    names: &mut Vec<String>,
) -> Result<()> {
    for entry in fs::read_dir(rt, folder)? {
        add_path(rt.alloc(), entry?.path().as_str(), names)?;
    }
    names.sort()?;
    Ok(())
}

/// Adds a path, if it is that of a case file.
fn add_path(alloc: Global, path: &str, names: &mut Vec<String>) -> Result<()> {
    if path.ends_with(".cases") {
        names.push(String::from_str(alloc, path)?)?;
    }
    Ok(())
}

/// Runs the cases of a file, prints what differs, and counts the cases.
fn run_group<R: Files + AllocGlobal + Print, C: Command>(
    rt: &R,
    command: &C,
    name: &str,
    tally: &mut Tally,
) -> Result<()> {
    match cases_in(rt, name) {
        Ok(cases) => {
            let ran = run_each(rt, command, name, &cases, tally);
            drop(cases);
            ran
        }
        Err(trouble) => {
            tally.add_unread();
            println!(rt; "{name}:{trouble}")?;
            Ok(())
        }
    }
}

/// Runs cases, prints what differs, and counts them.
fn run_each<R: AllocGlobal + Print, C: Command>(
    rt: &R,
    command: &C,
    name: &str,
    cases: &[Case],
    tally: &mut Tally,
) -> Result<()> {
    for case in cases {
        tally.add(is_other(rt, command, name, case)?);
        if let Some(sweep) = &case.sweep {
            tally.add_sweep(sweep);
        }
    }
    Ok(())
}

/// Runs a case, and says whether it differs or can't be run. Why is printed.
fn is_other<R: AllocGlobal + Print, C: Command>(
    rt: &R,
    command: &C,
    name: &str,
    case: &Case,
) -> Result<bool> {
    match print_differences(rt, command, name, case) {
        Ok(differs) => Ok(differs),
        Err(error) => {
            let printed = println!(rt; "{name}:{error}");
            drop(error);
            printed?;
            Ok(true)
        }
    }
}

/// The cases that a file has.
fn cases_in<R: Files + AllocGlobal>(rt: &R, name: &str) -> Result<Vec<Case>, Trouble> {
    match fs::read_to_string(rt, name) {
        Ok(text) => read_cases(rt.alloc(), text.as_str()),
        Err(_) => Err(Trouble::Unread),
    }
}

/// Runs a case, and says whether it differs: in a place in which it isn't wrong on purpose, or not in one in which it
/// is. Both are printed. A sweep differs where one of its runs does.
fn print_differences<R: AllocGlobal + Print, C: Command>(
    rt: &R,
    command: &C,
    name: &str,
    case: &Case,
) -> Result<bool> {
    if let Some(sweep) = &case.sweep {
        return sweep_differs(rt, command, name, case, sweep);
    }
    let ran = run_with(rt.alloc(), command, case, case.failures)?;
    let differs = print_ran(rt, name, case, &ran);
    drop(ran);
    differs
}

/// Prints in what a run and its case differ, and says whether they do.
fn print_ran<R: AllocGlobal + Print>(rt: &R, name: &str, case: &Case, ran: &Ran) -> Result<bool> {
    let found = differences(rt.alloc(), case, ran)?;
    let differs = print_found(rt, name, case, &found);
    drop(found);
    differs
}

/// Prints what differs and isn't on purpose, and what is on purpose and doesn't differ, and says whether there is any.
fn print_found<R: Print>(
    rt: &R,
    name: &str,
    case: &Case,
    found: &[Difference<'_>],
) -> Result<bool> {
    let differs = print_unmeant(rt, name, case, found)?;
    Ok(print_missing(rt, name, case, found)? || differs)
}

/// Prints the differences that aren't on purpose, and says whether there is one.
fn print_unmeant<R: Print>(
    rt: &R,
    name: &str,
    case: &Case,
    found: &[Difference<'_>],
) -> Result<bool> {
    let line = case.line;
    let title = case.name.as_str();
    let mut differs = false;
    for difference in found {
        if !case.is_wrong_in(difference.what) {
            println!(rt; "{name}:{line}: {title}: {difference}")?;
            differs = true;
        }
    }
    Ok(differs)
}

/// Prints the places in which the case is wrong on purpose and that don't differ, and says whether there is one.
fn print_missing<R: Print>(
    rt: &R,
    name: &str,
    case: &Case,
    found: &[Difference<'_>],
) -> Result<bool> {
    let line = case.line;
    let title = case.name.as_str();
    let mut differs = false;
    for place in &case.wrong {
        let what = What::of(place);
        if !found.iter().any(|difference| difference.what == what) {
            println!(rt; "{name}:{line}: {title}: {what} is wrong on purpose, and doesn't differ")?;
            differs = true;
        }
    }
    Ok(differs)
}

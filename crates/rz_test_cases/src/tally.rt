//! How many cases were run, and how many differ.

use rz_test_cases_text::Sweep;
use std::fmt;
use std::process::ExitCode;

/// How many cases were run, and how many of them differ. A case file that can't be read counts as one
/// that differs, and a sweep as one case, whatever its number of runs.
#[derive(Clone, Copy, Default)]
pub struct Tally {
    cases: u64,
    differing: u64,
    sweeps: u64,
    /// The runs of all sweeps.
    runs: u64,
}

impl Tally {
    /// Counts a case.
    pub fn add(&mut self, differs: bool) {
        self.cases = self.cases.saturating_add(1);
        if differs {
            self.add_unread();
        }
    }

    /// Counts the runs of a sweep, which is counted as a case already: one for each call that fails, and one more.
    pub fn add_sweep(&mut self, sweep: &Sweep) {
        self.sweeps = self.sweeps.saturating_add(1);
        self.runs = self.runs.saturating_add(sweep.calls()).saturating_add(1);
    }

    /// Counts a case file that can't be read.
    pub fn add_unread(&mut self) {
        self.differing = self.differing.saturating_add(1);
    }

    /// Success exactly where there are cases and none differs.
    pub fn exit_code(&self) -> ExitCode {
        if self.cases > 0 && self.differing == 0 {
            ExitCode::SUCCESS
        } else {
            ExitCode::FAILURE
        }
    }
}

impl fmt::Display for Tally {
    fn fmt<W: fmt::Write>(&self, f: &mut fmt::Formatter<W>) -> fmt::Result {
        let cases = self.cases;
        let differing = self.differing;
        if self.sweeps > 0 {
            let sweeps = self.sweeps;
            let runs = self.runs;
            writeln!(f, "{sweeps} sweeps, {runs} runs")?;
        }
        write!(f, "{cases} cases, {differing} differ")
    }
}

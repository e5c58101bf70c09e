//! The host of the process that runs: a trusted edge, which hands on what std gives.

ghost use Rattle.std.specs.Prelude.{None};

use crate::host::{Host, NotText};
use rz_core::{NoMemory, Stop};
use std::alloc::Global;
use std::env;
use std::env::{Args, VarError};
use std::io::ErrorKind;
use std::rt::{Clock, Env};
use std::time::{SystemTime, UNIX_EPOCH};

/// The process that runs: its arguments, its environment and the host's clock. This is the trusted edge: it hands on
/// what std gives, and it tells nothing of that. What is proved is that each call is safe and ends.
#[derive(Drop)]
pub struct RealHost<R> {
    runtime: R,
}

impl<R: Env + Clock + Drop> RealHost<R> {
    /// What the runtime gives.
    pub fn new(rt: R) -> RealHost<R> {
        RealHost { runtime: rt }
    }
}

impl<R: Env + Clock + Drop> Host for RealHost<R> {
    ghost process = { λ _. None };

    /// The arguments as std gives them. `Refused` is every error of std's but want of memory: of the host's own
    /// arguments that is one that isn't UTF-8.
    fn args(&self, alloc: Global) -> Result<Vec<String>, Stop<NotText>> {
        match env::args(&(&self.runtime, alloc)) {
            Ok(args) => Ok(listed(alloc, args)?),
            Err(error) if error.kind() == ErrorKind::OutOfMemory => Err(Stop::NoMemory),
            Err(_) => Err(Stop::Refused(NotText)),
        }
    }

    /// The variable as std gives it.
    fn variable(&self, alloc: Global, name: &str) -> Result<Option<String>, Stop<NotText>> {
        match env::var(&(&self.runtime, alloc), name) {
            Ok(text) => Ok(Some(text)),
            Err(VarError::NotPresent) => Ok(None),
            Err(VarError::NotUnicode) => Err(Stop::Refused(NotText)),
            Err(VarError::OutOfMemory) => Err(Stop::NoMemory),
        }
    }

    /// The clock as std reads it. `None` is that it can't be read, or stands before 1970.
    fn clock(&self) -> Option<i64> {
        let now = SystemTime::now(&self.runtime).ok()?;
        let since = now.duration_since(UNIX_EPOCH).ok()?;
        i64::try_from(since.as_secs()).ok()
    }
}

/// The arguments in a list.
fn listed(alloc: Global, args: Args) -> Result<Vec<String>, NoMemory> {
    let mut list = Vec::new(alloc);
    for arg in args {
        list.push(arg)?;
    }
    Ok(list)
}

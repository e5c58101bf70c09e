//! A host in memory, which gives what it is told to give. What its variables are is in `specs/MemHost`.

ghost use Rattle.std.specs.Prelude.{◌≡◌, map, Some, option_map};
ghost use Rattle.std.specs.Option.{option_copied};
ghost use Rattle.std.specs.String.{string_bytes};
ghost use Rattle.rz_core.specs.Stop.{seen};
ghost use Rattle.rz_tools_host.specs.MemHost.{pairs_of, value_in};
ghost use Rattle.rz_tools_host.specs.Process.{GivesText, GivesTexts, GivesValue};

use crate::host::{Host, NotText};
use rz_core::Stop;
use std::alloc::Global;

/// A host in memory, which tells all that it gives.
#[derive(Drop)]
pub struct MemHost<'a> {
    /// The arguments, of which the first is the program's name.
    pub args: &'a [&'a [u8]],
    /// What the environment has for each name; of two of one name the first counts.
    pub variables: &'a [(&'a str, &'a [u8])],
    /// The seconds since the first second of 1970 in UTC that the clock tells, where it tells them.
    pub clock: Option<i64>,
}

impl Host for MemHost<'_> {
    ghost use Rattle.rz_tools_host.specs.MemHost.{process_of};

    ghost process = { λ host. Some (process_of host) };

    fn args(&self, alloc: Global) -> Result<Vec<String>, Stop<NotText>>
        ensures { GivesTexts (process_of self.now).args (seen (λ texts. map string_bytes texts.items) result) }
    {
        let mut texts = Vec::new(alloc);
        for arg in self.args {
            let text = text_of(alloc, arg)?;
            if texts.push(text).is_err() {
                return Err(Stop::NoMemory);
            }
        }
        Ok(texts)
    }

    fn variable(&self, alloc: Global, name: &str) -> Result<Option<String>, Stop<NotText>>
        ensures { GivesValue ((process_of self.now).variables name.now) (seen (option_map string_bytes) result) }
    {
        match value_in(self.variables, name) {
            Some(value) => Ok(Some(text_of(alloc, value)?)),
            None => Ok(None),
        }
    }

    fn clock(&self) -> Option<i64>
        ensures { result ≡ (process_of self.now).clock }
    {
        self.clock
    }
}

/// What the first of these variables that has the name holds.
fn value_in<'a>(variables: &[(&'a str, &'a [u8])], name: &str) -> Option<&'a [u8]>
    ensures { option_copied result ≡ value_in (pairs_of variables.now) name.now }
{
    for (own, value) in variables {
        if name == *own {
            return Some(*value);
        }
    }
    None
}

/// A copy of the bytes as a text.
fn text_of(alloc: Global, bytes: &[u8]) -> Result<String, Stop<NotText>>
    ensures { GivesText bytes.now (seen string_bytes result) }
{
    match str::from_utf8(bytes) {
        Ok(text) => Ok(String::from_str(alloc, text)?),
        Err(_) => Err(Stop::Refused(NotText)),
    }
}

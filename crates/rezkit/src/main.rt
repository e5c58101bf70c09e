//! The program `rezkit`: it runs the command of the host's arguments over the host's files, streams and clock, and
//! gives the exit status. It is proved to be safe and to return, and it is one call of `begin` of `rz_tools`, whose
//! contract says what it does over a host, a folder and streams that tell what they hold. It rests on `rz_core`, `rz_folder`, `rz_tools` and `rz_tools_host`. Its stored run is
//! `sample 2`, by the words in `args`, and compares the four numbers with the file `stdout`, which change if forks or
//! the text of `derez` do.
#![tactic(auto)]

use rz_core::NoMemory;
use rz_folder::{RealFolder, RealSink};
use rz_tools::begin;
use rz_tools_host::RealHost;
use std::process::ExitCode;
use std::rt::Stdout;

/// Standard output is written in large pieces of whole lines, standard error at once.
fn main(rt: HostRuntime) -> ExitCode {
    let host = RealHost::new(rt);
    let mut folder = RealFolder::new(rt);
    let mut out = output_of(rt);
    let mut err = RealSink::new(rt.alloc(), rt.stderr());
    ExitCode::from(begin(rt.alloc(), &host, &mut folder, &mut out, &mut err))
}

/// The host's standard output, with a buffer where there is memory for one.
fn output_of(rt: HostRuntime) -> RealSink<Stdout> {
    match RealSink::buffered(rt.alloc(), rt.stdout()) {
        Ok(out) => out,
        Err(NoMemory) => RealSink::new(rt.alloc(), rt.stdout()),
    }
}

//! Tests of the edge over a runtime that gives what it is told: which words and which moment a run has, or why it
//! doesn't begin. The same over a host in memory.

ghost use Rattle.std.specs.Io.{WritesAtMost};

use super::start::{moment_at, moment_of};
use super::{MemHost, RealHost, given};
use std::alloc::{AllocError, Global};
use std::env::FillError;
use std::io;
use std::io::ErrorKind;
use std::rt::{Clock, Env};
use std::time::Duration;

/// The first second of 1904.
const FIRST: i64 = -2_082_844_800;

/// A runtime that gives what it is told.
#[derive(Drop)]
struct Told<'a> {
    /// The arguments, of which the first is the program's name.
    args: &'a [&'a [u8]],
    /// What the environment has for `SOURCE_DATE_EPOCH`. It has nothing else.
    epoch: Option<&'a [u8]>,
    /// What the clock tells; it fails where that is nothing.
    now: Option<Duration>,
}

/// The host of a runtime that gives these arguments, this value of `SOURCE_DATE_EPOCH` and this time.
fn host_of<'a>(
    args: &'a [&'a [u8]],
    epoch: Option<&'a [u8]>,
    now: Option<Duration>,
) -> RealHost<Told<'a>> {
    RealHost::new(Told { args, epoch, now })
}

impl Env for Told<'_> {
    fn arg(&self, i: usize, buf: &mut [u8]) -> Result<usize, FillError> {
        fill(self.args.get(i).copied(), buf)
    }

    fn var(&self, name: &str, buf: &mut [u8]) -> Result<usize, FillError> {
        fill(self.epoch.filter(|_| name == "SOURCE_DATE_EPOCH"), buf)
    }

    fn var_at(&self, _i: usize, _buf: &mut [u8]) -> Result<usize, FillError> {
        Err(FillError::NotPresent)
    }
}

impl Clock for Told<'_> {
    fn monotonic(&self) -> io::Result<Duration> {
        Err(io::Error::from(ErrorKind::Unsupported))
    }

    fn since_1970(&self) -> io::Result<Duration> {
        self.now.ok_or(io::Error::from(ErrorKind::Unsupported))
    }
}

/// Copies a value to the front of a buffer.
fn fill(value: Option<&[u8]>, buf: &mut [u8]) -> Result<usize, FillError>
    ensures { WritesAtMost result buf.new }
{
    let Some(value) = value else {
        return Err(FillError::NotPresent);
    };
    match buf.get_mut(..value.len()) {
        Some(front) => {
            front.copy_from_slice(value);
            Ok(value.len())
        }
        None => Err(FillError::TooLong),
    }
}

/// The second of the moment that a run has over this host, or the status where it has none.
fn second_of(alloc: Global, host: &RealHost<Told<'_>>) -> Result<i64, u8> {
    match moment_of(alloc, host) {
        Ok(moment) => Ok(moment.unix),
        Err(hindrance) => Err(hindrance.status()),
    }
}

#[test]
fn the_environment_tells_the_moment_before_the_clock(rt: HostRuntime) {
    let told: [(&[u8], Result<i64, u8>); 16] = [
        (b"0", Ok(0)),
        (b"1", Ok(1)),
        (b"951827696", Ok(951_827_696)),
        (b"2208988799", Ok(2_208_988_799)),
        (b"2208988800", Err(5)),
        (b"4294967296", Err(5)),
        (b"18446744073709551616", Err(5)),
        (b"-1", Err(5)),
        (b"+1", Err(5)),
        (b"01", Err(5)),
        (b"", Err(5)),
        (b" 1", Err(5)),
        (b"1 ", Err(5)),
        (b"0x10", Err(5)),
        (b"today", Err(5)),
        (b"1\xFF", Err(5)),
    ];
    for (epoch, second) in told {
        let now = Duration::from_secs(7);
        let host = host_of(&[], Some(epoch), Some(now));
        assert_eq!(rt; second_of(rt.alloc(), &host), second, "{epoch:?}");
    }
}

#[test]
fn the_clock_tells_the_moment_where_the_environment_does_not(rt: HostRuntime) {
    let told = [
        (Some(Duration::from_secs(0)), 0),
        (Some(Duration::new(951_827_696, 999_999_999)), 951_827_696),
        (
            Some(Duration::new(2_208_988_799, 999_999_999)),
            2_208_988_799,
        ),
        (Some(Duration::from_secs(2_208_988_800)), FIRST),
        (Some(Duration::from_secs((1 << 63) - 1)), FIRST),
        (Some(Duration::from_secs(1 << 63)), FIRST),
        (Some(Duration::from_secs(u64::MAX)), FIRST),
        (None, FIRST),
    ];
    for (now, second) in told {
        let host = host_of(&[], None, now);
        assert_eq!(rt; second_of(rt.alloc(), &host), Ok(second), "{now:?}");
    }
}

#[test]
fn seconds_outside_the_range_are_the_first_second(rt: HostRuntime) {
    let told = [
        (Some(i64::MIN), FIRST),
        (Some(FIRST - 1), FIRST),
        (Some(FIRST), FIRST),
        (Some(FIRST + 1), FIRST + 1),
        (Some(-1), -1),
        (Some(2_208_988_799), 2_208_988_799),
        (Some(2_208_988_800), FIRST),
        (Some(i64::MAX), FIRST),
        (None, FIRST),
    ];
    for (seconds, second) in told {
        assert_eq!(rt; moment_at(seconds).unix, second, "{seconds:?}");
    }
}

/// The arguments, each with a line end after it.
fn lines_of(alloc: Global, args: &[String]) -> Result<String, AllocError> {
    let mut lines = String::new(alloc);
    for arg in args {
        lines.push_str(arg.as_str())?;
        lines.push('\n')?;
    }
    Ok(lines)
}

#[test]
fn the_words_are_the_arguments_after_the_name(rt: HostRuntime) {
    let told: [(&[&[u8]], &str); 6] = [
        (&[], ""),
        (&[b"rezkit"], ""),
        (&[b"rez", b"--version"], "--version\n"),
        (&[b"rezkit", b"rez", b"-o"], "rez\n-o\n"),
        (&[b"", b"rez", b"", b"rezkit"], "rez\n\nrezkit\n"),
        (&[b"rezkit", b"rez", b"\xC3\xA9.r"], "rez\n\u{e9}.r\n"),
    ];
    for (words, wanted) in told {
        let now = Duration::from_secs(7);
        let host = host_of(words, None, Some(now));
        let run = given(rt.alloc(), &host).ok().expect(&rt, "a run begins");
        let lines = lines_of(rt.alloc(), run.words.as_slice()).expect(&rt, "memory");
        assert_eq!(rt; lines.as_str(), wanted);
        assert_eq!(rt; run.moment.unix, 7);
    }
}

#[test]
fn arguments_come_with_the_moment_of_the_environment(rt: HostRuntime) {
    let words: &[&[u8]] = &[b"rezkit", b"rez", b"one.r"];
    let host = host_of(words, Some(b"951827696"), None);
    let run = given(rt.alloc(), &host).ok().expect(&rt, "a run begins");
    let lines = lines_of(rt.alloc(), run.words.as_slice()).expect(&rt, "memory");
    assert_eq!(rt; lines.as_str(), "rez\none.r\n");
    assert_eq!(rt; run.moment.unix, 951_827_696);
}

#[test]
fn no_run_begins_without_its_words_or_its_moment(rt: HostRuntime) {
    let no_moment: &[u8] =
        b"rezkit: SOURCE_DATE_EPOCH isn't a decimal number from 0 to 2208988799\n";
    let no_words: &[u8] = b"rezkit: no words\n";
    let told: [(&[&[u8]], &[u8], &[u8]); 5] = [
        (&[b"rezkit", b"rez", b"one.r"], b"2208988800", no_moment),
        (&[b"rezkit", b"--version"], b"", no_moment),
        (&[b"rezkit", b"rez", b"\xFF"], b"0", no_words),
        (&[b"\xFF", b"rez", b"one.r"], b"0", no_words),
        (&[b"rezkit", b"rez", b"\xFF"], b"", no_words),
    ];
    for (args, epoch, line) in told {
        let now = Duration::from_secs(7);
        let host = host_of(args, Some(epoch), Some(now));
        let hindrance = given(rt.alloc(), &host).err().expect(&rt, "no run begins");
        assert_eq!(rt; hindrance.line(), line);
        assert_eq!(rt; hindrance.status(), 5);
    }
}

/// The second at which a run begins over a host in memory with these variables, whose clock tells 7, or the status.
fn second_in(alloc: Global, variables: &[(&str, &[u8])]) -> Result<i64, u8> {
    let host = MemHost {
        args: &[b"rezkit", b"rez"],
        variables,
        clock: Some(7),
    };
    match given(alloc, &host) {
        Ok(run) => Ok(run.moment.unix),
        Err(hindrance) => Err(hindrance.status()),
    }
}

#[test]
fn a_host_in_memory_has_the_variables_that_it_is_given(rt: HostRuntime) {
    let told: [(&[(&str, &[u8])], Result<i64, u8>); 6] = [
        (&[], Ok(7)),
        (&[("SOURCE_DATE", b"1"), ("TZ", b"2")], Ok(7)),
        (&[("TZ", b"2"), ("SOURCE_DATE_EPOCH", b"1")], Ok(1)),
        (
            &[("SOURCE_DATE_EPOCH", b"1"), ("SOURCE_DATE_EPOCH", b"2")],
            Ok(1),
        ),
        (&[("SOURCE_DATE_EPOCH", b"")], Err(5)),
        (&[("SOURCE_DATE_EPOCH", b"\xFF")], Err(5)),
    ];
    for (variables, second) in told {
        assert_eq!(rt; second_in(rt.alloc(), variables), second);
    }
}

#[test]
fn a_host_in_memory_has_the_arguments_that_it_is_given(rt: HostRuntime) {
    let told: [(&[&[u8]], Option<&str>); 5] = [
        (&[], Some("")),
        (&[b"rezkit"], Some("")),
        (&[b"rezkit", b"rez", b"\xC3\xA9.r"], Some("rez\n\u{e9}.r\n")),
        (&[b"rezkit", b"rez", b"\xFF"], None),
        (&[b"\xFF", b"rez"], None),
    ];
    for (args, wanted) in told {
        let host = MemHost {
            args,
            variables: &[],
            clock: None,
        };
        match given(rt.alloc(), &host) {
            Ok(run) => {
                let lines = lines_of(rt.alloc(), run.words.as_slice()).expect(&rt, "memory");
                assert_eq!(rt; Some(lines.as_str()), wanted);
                assert_eq!(rt; run.moment.unix, FIRST);
            }
            Err(hindrance) => {
                assert_eq!(rt; None, wanted);
                assert_eq!(rt; hindrance.status(), 5);
            }
        }
    }
}

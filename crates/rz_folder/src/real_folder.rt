//! The host's files by their paths: a trusted edge. How its counts of faults rise is in `specs/Counts`.

ghost use Rattle.std.specs.Prelude.{◌≡◌, ◌≤◌, ◌<◌, ◌^◌, None, IfOk, length};
ghost use Rattle.rz_folder.specs.Counts.{next, Rose};
ghost use Rattle.rz_folder.specs.Folder.{IsShort};

use crate::replace::write_file;
use crate::{Folder, Read, Written};
use rz_core::Bytes;
use std::alloc::Global;
use std::fs::OpenFile;
use std::io::ErrorKind;
use std::marker::Model;
use std::rt::Files;
use std::{fs, io};

// The first length that is too long for a file.
const LENGTH_LIMIT: u64 = 1 << 32;

/// The host's files, by their paths. This is the trusted edge: it tells nothing of what the files
/// hold, and what its calls do to them rests on the host and on std, not on a proof. What is proved
/// is that a read gives fewer than 2^32 bytes, that each call ends, and that the counts of writes and
/// of faults are kept as their clauses say. Contracts see the three counts.
#[derive(Drop)]
pub struct RealFolder<R> {
    runtime: R,
    read_faults: u64,
    write_faults: u64,
    // Nothing reads this count but contracts.
    writes: u64,
}

impl<R> Model for RealFolder<R> {
    ghost use Rattle.rz_folder.specs.RealFaults.{RealCounts};

    ghost Value = { RealCounts };

    ghost view = { λ folder. record { read_faults = folder.read_faults; write_faults = folder.write_faults; writes = folder.writes } };
}

impl<R: Files + Drop> RealFolder<R> {
    /// The files that the runtime gives, with no writes and no faults so far.
    pub fn new(rt: R) -> RealFolder<R>
        ensures { result ≡ record { read_faults = 0; write_faults = 0; writes = 0 } }
    {
        RealFolder {
            runtime: rt,
            read_faults: 0,
            write_faults: 0,
            writes: 0,
        }
    }
}

impl<R: Files + Drop> Folder for RealFolder<R> {
    ghost use Rattle.rz_folder.specs.RealFaults.{after_read, after_write};

    ghost files = { λ _. None };

    ghost read_faults = { λ folder. folder.read_faults };

    ghost write_faults = { λ folder. folder.write_faults };

    ghost writes = { λ folder. folder.writes };

    /// Reads the host's file of that path. `Missing` is the host's 'not found', and that no file can
    /// stand at the path: a folder stands there, it leads through a file, it is too long for the
    /// host, or it has a zero byte. `NoMemory` is that memory for the contents, or the host's own,
    /// was refused. `Failed` is every other error of the host's, and a file of 2^32 bytes or more;
    /// exactly then the count of read faults rises, unless it stands at 2^64 - 1. A regular file
    /// that tells such a length is refused before it is read, and the memory of the length that it
    /// tells is taken at once. A read that a signal interrupts is taken again.
    fn read(&mut self, alloc: Global, name: &str) -> Read
        ensures short { IsShort result }
        ensures counted { self.old.read_faults ≤ self.new.read_faults }
        ensures cause { result ≡ Read.Failed → Rose self.old.read_faults self.new.read_faults }
        ensures other_count { self.new.write_faults ≡ self.old.write_faults }
        ensures unwritten { self.new.writes ≡ self.old.writes }
        ensures after { self.new ≡ after_read self.old result }
    {
        match read_file(&self.runtime, alloc, name) {
            Ok(bytes) => Read::Bytes(bytes),
            Err(error) => match error.kind() {
                ErrorKind::NotFound => Read::Missing,
                ErrorKind::OutOfMemory => Read::NoMemory,
                _ => {
                    self.read_faults = self.read_faults.saturating_add(1);
                    Read::Failed
                }
            },
        }
    }

    /// Makes the host's file of that path hold these bytes, and waits until they are on its disk, and
    /// the file's name too, where the host lets its folder be opened and waited for. `Failed` is
    /// every error of the host's; exactly then the count of write faults rises, unless it stands at
    /// 2^64 - 1.
    ///
    /// The bytes go to a temporary file `.rezkit-N` in the same folder, where N is the first number
    /// from 0 that is free. That file gets the permissions of the old one, and then takes its
    /// place. So after `Failed` the old file is whole, or there is still none, or the new one is
    /// whole and its folder alone could not be brought to the disk; and nothing else is left in the
    /// folder, as far as the host does what its calls say. `Failed` is also the answer where the
    /// path is a folder's, where the file or its folder may not be written, where the process may
    /// not write a file of so many bytes, and where the temporary name is longer than 4,096 bytes.
    ///
    /// A link, a device or a pipe is written in place; after `Failed` what it leads to may be
    /// empty or hold a front of the bytes.
    fn write(&mut self, name: &str, bytes: &[u8]) -> Written
        requires { length bytes.now < 2 ^ 32 }
        ensures counted { self.old.write_faults ≤ self.new.write_faults }
        ensures cause { result ≡ Written.Failed → Rose self.old.write_faults self.new.write_faults }
        ensures other_count { self.new.read_faults ≡ self.old.read_faults }
        ensures once { self.new.writes ≡ next self.old.writes }
        ensures after { self.new ≡ after_write self.old result }
    {
        self.writes = self.writes.saturating_add(1);
        if write_file(&self.runtime, name, bytes).is_ok() {
            return Written::Done;
        }
        self.write_faults = self.write_faults.saturating_add(1);
        Written::Failed
    }

    fn read_faults(&self) -> u64
        ensures { result ≡ self.now.read_faults }
    {
        self.read_faults
    }

    fn write_faults(&self) -> u64
        ensures { result ≡ self.now.write_faults }
    {
        self.write_faults
    }
}

// The whole file of that path.
fn read_file<R: Files>(rt: &R, alloc: Global, name: &str) -> io::Result<Bytes>
    ensures { IfOk result (λ bytes. length bytes < 2 ^ 32) }
{
    let mut file = open_file(rt, name)?;
    let expected = expected_length(&file)?;
    let Ok(mut bytes) = Bytes::with_capacity(alloc, expected) else {
        return Err(io::Error::from(ErrorKind::OutOfMemory));
    };
    read_to_end(&mut file, &mut bytes)?;
    Ok(bytes)
}

// Appends what stands in the file up to its end. Each turn takes at least one byte, was interrupted, or is the last.
fn read_to_end<F: io::Read>(file: &mut F, bytes: &mut Bytes) -> io::Result<()>
    requires { length bytes.old < 2 ^ 32 }
    ensures { IfOk result (λ _. length bytes.new < 2 ^ 32) }
{
    let mut piece = [0; 8192];
    for _ in 0..u64::MAX {
        let count = match io::Read::read(file, &mut piece) {
            Ok(count) => count,
            Err(error) if error.kind() == ErrorKind::Interrupted => continue,
            Err(error) => return Err(error),
        };
        if count == 0 {
            return Ok(());
        }
        if bytes.len() + count as u64 >= LENGTH_LIMIT {
            break;
        }
        if bytes.append(&piece[..count]).is_err() {
            return Err(io::Error::from(ErrorKind::OutOfMemory));
        }
    }
    Err(io::Error::from(ErrorKind::FileTooLarge))
}

// Opens the file of that path. A path at which no file can stand isn't found, but for that of a folder, which is
// opened.
fn open_file<R: Files>(rt: &R, name: &str) -> io::Result<R::File> {
    match fs::open(rt, name) {
        Err(error) if is_no_place(error.kind()) => Err(io::Error::from(ErrorKind::NotFound)),
        opened => opened,
    }
}

// Whether this is said of a path at which no file can stand: it leads through a file, is too long, or has a zero byte.
fn is_no_place(kind: ErrorKind) -> bool {
    matches!(
        kind,
        ErrorKind::NotADirectory | ErrorKind::InvalidFilename | ErrorKind::InvalidInput
    )
}

// The length that a regular file tells, and 0 for what tells none. One that is too long is an error, and a folder isn't
// found.
fn expected_length<F: OpenFile>(file: &F) -> io::Result<usize>
    ensures { IfOk result (λ expected. expected < 2 ^ 32) }
{
    let metadata = file.metadata()?;
    if metadata.is_dir() {
        return Err(io::Error::from(ErrorKind::NotFound));
    }
    if !metadata.is_file() {
        return Ok(0);
    }
    if metadata.len() >= LENGTH_LIMIT {
        return Err(io::Error::from(ErrorKind::FileTooLarge));
    }
    Ok(metadata.len() as usize)
}

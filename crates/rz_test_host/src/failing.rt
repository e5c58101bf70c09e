//! The host's files, one call of which fails.

use std::alloc::Allocator;
use std::cell::Cell;
use std::fs::{File, Metadata, OpenFile, OpenOptions, Permissions};
use std::io;
use std::io::{ErrorKind, Read, Seek, SeekFrom, Write};
use std::rt::Files;

/// The calls of the host's so far, the number of the one that is to fail, and how.
#[derive(Clone, Copy)]
pub struct Calls<'a> {
    pub made: &'a Cell<u32>,
    pub failing: u32,
    pub error: ErrorKind,
}

impl Calls<'_> {
    fn count(&self) -> io::Result<()> {
        let number = self.made.get().saturating_add(1);
        self.made.set(number);
        if number == self.failing {
            return Err(io::Error::from(self.error));
        }
        Ok(())
    }
}

/// The host's files, one call of which fails.
#[derive(Drop)]
pub struct FailingFiles<'a> {
    pub runtime: HostRuntime,
    pub calls: Calls<'a>,
}

/// An open file of theirs, which takes three bytes at most at once.
#[derive(Drop)]
pub struct FailingFile<'a> {
    file: File,
    calls: Calls<'a>,
}

impl Read for FailingFile<'_> {
    fn read(&mut self, bytes: &mut [u8]) -> io::Result<usize> {
        self.calls.count()?;
        self.file.read(bytes)
    }
}

impl Write for FailingFile<'_> {
    fn write(&mut self, bytes: &[u8]) -> io::Result<usize> {
        self.calls.count()?;
        let count = bytes.len().min(3);
        self.file.write(&bytes[..count])
    }

    fn flush(&mut self) -> io::Result<()> {
        self.file.flush()
    }
}

impl Seek for FailingFile<'_> {
    fn seek(&mut self, to: SeekFrom) -> io::Result<u64> {
        self.file.seek(to)
    }
}

impl OpenFile for FailingFile<'_> {
    fn metadata(&self) -> io::Result<Metadata> {
        self.calls.count()?;
        self.file.metadata()
    }

    fn set_len(&self, size: u64) -> io::Result<()> {
        self.file.set_len(size)
    }

    fn sync_all(&self) -> io::Result<()> {
        self.calls.count()?;
        self.file.sync_all()
    }

    fn sync_data(&self) -> io::Result<()> {
        self.file.sync_data()
    }

    fn set_permissions(&self, permissions: Permissions) -> io::Result<()> {
        self.calls.count()?;
        self.file.set_permissions(permissions)
    }
}

fn unused<T>() -> io::Result<T> {
    Err(io::Error::from(ErrorKind::Unsupported))
}

impl<'a> Files for FailingFiles<'a> {
    type File = FailingFile<'a>;

    type Dir = FailingFile<'a>;

    fn open_file(&self, how: &OpenOptions, path: &str) -> io::Result<FailingFile<'a>> {
        self.calls.count()?;
        let file = self.runtime.open_file(how, path)?;
        Ok(FailingFile {
            file,
            calls: self.calls,
        })
    }

    fn symlink_metadata(&self, path: &str) -> io::Result<Metadata> {
        self.calls.count()?;
        self.runtime.symlink_metadata(path)
    }

    fn rename(&self, from: &str, to: &str) -> io::Result<()> {
        self.calls.count()?;
        self.runtime.rename(from, to)
    }

    fn remove_file(&self, path: &str) -> io::Result<()> {
        self.calls.count()?;
        self.runtime.remove_file(path)
    }

    fn open_dir(&self, _path: &str) -> io::Result<FailingFile<'a>> {
        unused()
    }

    fn metadata(&self, _path: &str) -> io::Result<Metadata> {
        unused()
    }

    fn copy(&self, _from: &str, _to: &str) -> io::Result<u64> {
        unused()
    }

    fn create_dir(&self, _path: &str) -> io::Result<()> {
        unused()
    }

    fn remove_dir(&self, _path: &str) -> io::Result<()> {
        unused()
    }

    fn remove_dir_all<B: Allocator>(&self, _alloc: B, _path: &str) -> io::Result<()> {
        unused()
    }
}

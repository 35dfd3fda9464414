//! A runtime for tests, of one file and an output, of whose calls one may fail.
ghost use Rattle.std.specs.Prelude.{IsErr};

use std::cell::Cell;
use std::fmt::Display;
use std::fs::{Metadata, OpenFile, OpenOptions};
use std::io;
use std::io::{ErrorKind, Print, Read, Seek, SeekFrom, Write};
use std::rt::Files;

/// What was done by a [`FakeRuntime`].
#[derive(Drop)]
pub struct Done {
    /// How many reads, writes and renames there were.
    pub calls: Cell<u64>,
    /// How many bytes were read of the file, or taken by the output.
    pub bytes: Cell<u64>,
    /// A digit for each change of the disk: 1 where the neighbour was made, 2 where it was renamed over the file, 3 where it was removed, and
    /// each byte that was written to it.
    pub changes: Cell<u64>,
}

/// A runtime whose disk has the file `M.json` of the bytes 0 to 3 and may have its neighbour `M.json.new`, which are read and written a byte at a
/// time, as its output is. It is its own open file. Of its reads, writes and renames the one after `good` others fails, with an error of this
/// kind; the output takes nothing then.
#[derive(Clone, Copy)]
pub struct FakeRuntime<'d> {
    pub done: &'d Done,
    pub good: u64,
    pub kind: ErrorKind,
}

impl Done {
    /// Nothing.
    pub fn nothing() -> Done {
        Done {
            calls: Cell::new(0),
            bytes: Cell::new(0),
            changes: Cell::new(0),
        }
    }
}

impl<'d> FakeRuntime<'d> {
    // Counts a call, and fails where it is the one that is to fail.
    fn call(&self) -> io::Result<()> {
        let calls = self.done.calls.get();
        self.done.calls.set(calls.saturating_add(1));
        if calls == self.good {
            return Err(io::Error::from(self.kind));
        }
        Ok(())
    }

    // Counts a byte that was read or taken.
    fn count(&self) {
        let bytes = self.done.bytes.get();
        self.done.bytes.set(bytes.saturating_add(1));
    }

    // Puts a digit behind those of the changes.
    fn change(&self, digit: u64) {
        let changes = self.done.changes.get();
        self.done
            .changes
            .set(changes.saturating_mul(10).saturating_add(digit));
    }
}

// What a call answers that no test makes.
fn unsupported<T>() -> io::Result<T>
    ensures { IsErr result }
{
    Err(io::Error::from(ErrorKind::Unsupported))
}

// What a call answers on a path where nothing is.
fn missing<T>() -> io::Result<T>
    ensures { IsErr result }
{
    Err(io::Error::from(ErrorKind::NotFound))
}

impl<'d> Read for FakeRuntime<'d> {
    fn read(&mut self, buffer: &mut [u8]) -> io::Result<usize> {
        self.call()?;
        let byte = self.done.bytes.get();
        match buffer.first_mut() {
            Some(place) if byte < 4 => *place = byte as u8,
            _ => return Ok(0),
        }
        self.count();
        Ok(1)
    }
}

impl<'d> Write for FakeRuntime<'d> {
    fn write(&mut self, bytes: &[u8]) -> io::Result<usize> {
        let Some(byte) = bytes.first() else {
            return Ok(0);
        };
        self.call()?;
        self.change(u64::from(*byte));
        Ok(1)
    }

    fn flush(&mut self) -> io::Result<()> {
        unsupported()
    }
}

impl<'d> Seek for FakeRuntime<'d> {
    fn seek(&mut self, _to: SeekFrom) -> io::Result<u64> {
        unsupported()
    }
}

impl<'d> OpenFile for FakeRuntime<'d> {
    fn metadata(&self) -> io::Result<Metadata> {
        unsupported()
    }

    fn set_len(&self, _size: u64) -> io::Result<()> {
        unsupported()
    }

    fn sync_all(&self) -> io::Result<()> {
        unsupported()
    }

    fn sync_data(&self) -> io::Result<()> {
        unsupported()
    }
}

impl<'d> Files for FakeRuntime<'d> {
    type File = FakeRuntime<'d>;

    type Dir = FakeRuntime<'d>;

    fn open_file(&self, how: &OpenOptions, path: &str) -> io::Result<FakeRuntime<'d>> {
        if how.asks_create() {
            if path != "M.json.new" {
                return missing();
            }
            self.change(1);
        } else if path != "M.json" {
            return missing();
        }
        Ok(*self)
    }

    fn open_dir(&self, _path: &str) -> io::Result<FakeRuntime<'d>> {
        unsupported()
    }

    fn metadata(&self, _path: &str) -> io::Result<Metadata> {
        unsupported()
    }

    fn symlink_metadata(&self, _path: &str) -> io::Result<Metadata> {
        unsupported()
    }

    fn copy(&self, _from: &str, _to: &str) -> io::Result<u64> {
        unsupported()
    }

    fn rename(&self, from: &str, to: &str) -> io::Result<()> {
        if from != "M.json.new" || to != "M.json" {
            return missing();
        }
        self.call()?;
        self.change(2);
        Ok(())
    }

    fn remove_file(&self, path: &str) -> io::Result<()> {
        if path != "M.json.new" {
            return missing();
        }
        self.change(3);
        Ok(())
    }

    fn create_dir(&self, _path: &str) -> io::Result<()> {
        unsupported()
    }

    fn remove_dir(&self, _path: &str) -> io::Result<()> {
        unsupported()
    }

    fn remove_dir_all<B: std::alloc::Allocator>(&self, _alloc: B, _path: &str) -> io::Result<()> {
        unsupported()
    }
}

impl<'d> Print for FakeRuntime<'d> {
    fn print<D: Display + Drop>(&self, _value: D) -> io::Result<()> {
        unsupported()
    }

    fn println<D: Display + Drop>(&self, _value: D) -> io::Result<()> {
        unsupported()
    }

    fn write_all(&self, _bytes: &[u8]) -> io::Result<()> {
        unsupported()
    }

    fn write_some(&self, bytes: &[u8]) -> io::Result<usize> {
        if bytes.is_empty() || self.call().is_err() {
            return Ok(0);
        }
        self.count();
        Ok(1)
    }
}

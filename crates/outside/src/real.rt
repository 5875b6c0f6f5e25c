//! The desk and the sink over the system: thin, trusted for what they reach, and telling nothing
//! of it. Here alone a want of memory, inside the standard library, counts as a fault.
ghost use Rattle.std.specs.Prelude.{◌≡◌, ◌≤◌, length, IfOk, IfSome};

use crate::kept_file::{KeptFile, KeptName, read_retrying};
use crate::traits::{Desk, Failed, Sink};
use std::fs;
use std::fs::File;
use std::io::{self, ErrorKind, Seek, SeekFrom, Write};
use std::marker::Model;
use std::rt::Files;

/// The files of the system, by their paths. It tells none of what they hold, and counts a fault
/// for each error of the system but that there is no such file. Contracts see the two counts.
///
/// It keeps the file of the last read open: a read of the same name, at the place where that one
/// ended, goes on in this file. So what is read piece by piece, from the beginning on, is of one
/// file, and may be a pipe. Any other read opens the file anew. An interrupted read is repeated.
#[derive(Drop)]
pub struct DirDesk<'a, R: Files> {
    rt: &'a R,
    // None before the first read, and after a write, a failed read or the end of a file.
    kept: Option<KeptFile<R::File>>,
    read_faults: u64,
    write_faults: u64,
}

impl<'a, R: Files> Model for DirDesk<'a, R> {
    ghost use Rattle.outside.specs.Faults.{FaultCounts};

    ghost Value = { FaultCounts };

    ghost view = { λ d. record { reads = d.read_faults; writes = d.write_faults } };
}

impl<'a, R: Files> DirDesk<'a, R> {
    ghost use Rattle.outside.specs.Faults.{no_faults};

    /// A desk that has met no fault yet. A name is a path, from the working folder if relative.
    pub fn new(rt: &'a R) -> Self
        ensures { result ≡ no_faults }
    {
        DirDesk {
            rt,
            kept: None,
            read_faults: 0,
            write_faults: 0,
        }
    }

    // The next bytes of a file, and None where there is no such file.
    fn read_next(&mut self, name: &str, at: u64, buffer: &mut [u8]) -> io::Result<Option<usize>>
        ensures bound { IfOk result (λ read. IfSome read (λ n. n ≤ length buffer.new)) }
        ensures counts { self.new ≡ self.old }
    {
        let opened = match self.kept.take() {
            Some(kept) if kept.goes_on(name, at) => Some(kept),
            _ => open_at(self.rt, name, at)?,
        };
        let Some(mut kept) = opened else {
            return Ok(None);
        };
        let n = read_retrying(&mut kept.file, buffer)?;
        // No byte for a buffer that has room is the file's end, where the file is let go.
        let is_end = n == 0 && !buffer.is_empty();
        if !is_end && let Some(place) = at.checked_add(n as u64) {
            kept.place = place;
            self.kept = Some(kept);
        }
        Ok(Some(n))
    }
}

impl<'a, R: Files> Desk for DirDesk<'a, R> {
    ghost use Rattle.std.specs.Prelude.{None};

    ghost contents = { λ _. None };

    ghost calls = { λ _. 0 };

    ghost read_faults = { λ d. d.reads };

    ghost write_faults = { λ d. d.writes };

    fn read_at(&mut self, name: &str, at: u64, buffer: &mut [u8]) -> Result<Option<usize>, Failed> {
        match self.read_next(name, at, buffer) {
            Ok(read) => Ok(read),
            Err(_) => {
                self.read_faults = self.read_faults.saturating_add(1);
                Err(Failed)
            }
        }
    }

    fn write(&mut self, name: &str, bytes: &[u8]) -> Result<(), Failed> {
        self.kept = None;
        match fs::write(self.rt, name, bytes) {
            Ok(()) => Ok(()),
            Err(_) => {
                self.write_faults = self.write_faults.saturating_add(1);
                Err(Failed)
            }
        }
    }
}

// The file of a name, opened anew at this place, and None where there is no such file. At its
// beginning no place is sought, since a pipe has none.
fn open_at<R: Files>(rt: &R, name: &str, at: u64) -> io::Result<Option<KeptFile<R::File>>> {
    let Some(copy) = KeptName::new(name) else {
        return Err(io::Error::from(ErrorKind::InvalidFilename));
    };
    let mut file = match File::open(rt, name) {
        Ok(file) => file,
        Err(e) if e.kind() == ErrorKind::NotFound => return Ok(None),
        Err(e) => return Err(e),
    };
    if at > 0 {
        file.seek(SeekFrom::Start(at))?;
    }
    Ok(Some(KeptFile {
        file,
        name: copy,
        place: at,
    }))
}

/// Standard output. It tells none of what it took, and counts a fault for each error of the
/// system. Contracts see that count.
#[derive(Drop)]
pub struct StdSink<'a, R> {
    rt: &'a R,
    faults: u64,
}

impl<'a, R> Model for StdSink<'a, R> {
    ghost use Rattle.std.specs.Prelude.{ℕ};

    ghost Value = { ℕ };

    ghost view = { λ s. s.faults };
}

impl<'a, R: Print> StdSink<'a, R> {
    /// A sink that has met no fault yet.
    pub fn new(rt: &'a R) -> Self
        ensures { result ≡ 0 }
    {
        StdSink { rt, faults: 0 }
    }
}

impl<'a, R: Print> Sink for StdSink<'a, R> {
    ghost use Rattle.std.specs.Prelude.{None};

    ghost taken = { λ _. None };

    ghost calls = { λ _. 0 };

    ghost faults = { λ s. s };

    fn put(&mut self, bytes: &[u8]) -> Result<(), Failed> {
        match io::writer(self.rt).write_all(bytes) {
            Ok(()) => Ok(()),
            Err(_) => {
                self.faults = self.faults.saturating_add(1);
                Err(Failed)
            }
        }
    }
}

//! The objects over the machine. They tell nothing of what they hold, but that a source has come to its end: clauses see each as its count of faults, and
//! a source with whether it has ended.
ghost use Rattle.std.specs.Prelude.{◌≡◌, ◌≤◌, ◌⊎◌, ◌^◌, false, None, length, IfOk, IsErrOf};
ghost use Rattle.mv_io.specs.Outside.{Rose, CountAfter, left_outside};
ghost use Rattle.mv_io.specs.Shelves.{untold, unasked, AsksFor, is_fault, Lacks, Loads};

use crate::faults::count_fault;
use crate::outside::{Failed, Shelf, ShelfError, Sink, Source};
use std::alloc::{AllocError, Global};
use std::fs::{File, OpenFile};
use std::io::{ErrorKind, Read, Write};
use std::marker::Model;
use std::os::unix::fs::MetadataExt;
use std::rt::Files;
use std::{fs, io};

/// How many bytes a `StdSource` asks its reader for at once.
const BLOCK: usize = 4_096;

/// The longest file that a `FileShelf` reads, in bytes.
const MAX_FILE: u64 = 268_435_456;

/// A source over a reader, as standard input, which is read through a block of 4,096 bytes.
/// Each error of the reader is a fault. Once the input has ended it stays at its end (C11 7.21.7.1).
#[derive(Drop)]
pub struct StdSource<R: Read + Drop> {
    reader: R,
    block: [u8; BLOCK],
    next: usize,
    filled: usize,
    at_end: bool,
    faults: u64,
}

impl<R: Read + Drop> Model for StdSource<R> {
    ghost use Rattle.std.specs.Prelude.{◌≡◌, ◌≤◌, true};
    ghost use Rattle.mv_io.specs.Outside.{SourceOutside};

    ghost Value = { SourceOutside };

    ghost view = { λ s. record { ended = s.at_end; faults = s.faults } };

    ghost invariant = { λ s. (s.next ≤ s.filled) × (s.filled ≤ 4096) × (s.at_end ≡ true → s.next ≡ s.filled) };
}

impl<R: Read + Drop> StdSource<R> {
    /// A source of what the reader has still to give.
    pub fn new(reader: R) -> StdSource<R>
        ensures { result ≡ record { ended = false; faults = 0 } }
    {
        StdSource {
            reader,
            block: [0; BLOCK],
            next: 0,
            filled: 0,
            at_end: false,
            faults: 0,
        }
    }
}

impl<R: Read + Drop> Source for StdSource<R> {
    ghost left = { λ s. left_outside s };

    ghost faults = { λ s. s.faults };

    fn read_byte(&mut self) -> Result<Option<u8>, Failed> {
        if self.next == self.filled && !self.at_end {
            let Ok(count) = self.reader.read(&mut self.block) else {
                return Err(count_fault(&mut self.faults));
            };
            self.next = 0;
            self.filled = count;
            self.at_end = count == 0;
        }
        if self.next == self.filled {
            return Ok(None);
        }
        let byte = self.block[self.next];
        self.next += 1;
        Ok(Some(byte))
    }
}

/// A sink over a writer, as standard output or standard error. Each piece is handed on at once and flushed.
/// Each error of the writer is a fault, and so is a piece of which it takes nothing.
#[derive(Drop)]
pub struct StdSink<W: Write + Drop> {
    writer: W,
    faults: u64,
}

impl<W: Write + Drop> Model for StdSink<W> {
    ghost use Rattle.std.specs.Prelude.{ℕ};

    ghost Value = { ℕ };

    ghost view = { λ s. s.faults };
}

impl<W: Write + Drop> StdSink<W> {
    /// A sink that hands its bytes to this writer.
    pub fn new(writer: W) -> StdSink<W>
        ensures { result ≡ 0 }
    {
        StdSink { writer, faults: 0 }
    }
}

impl<W: Write + Drop> Sink for StdSink<W> {
    ghost written = { λ _. None };

    ghost faults = { λ s. s };

    fn write(&mut self, bytes: &[u8]) -> Result<usize, Failed> {
        match write_flushed(&mut self.writer, bytes) {
            Ok(count) if count > 0 => Ok(count),
            _ => Err(count_fault(&mut self.faults)),
        }
    }
}

fn write_flushed<W: Write>(writer: &mut W, bytes: &[u8]) -> io::Result<usize>
    ensures { IfOk result (λ n. n ≤ length bytes.now) }
{
    let count = writer.write(bytes)?;
    writer.flush()?;
    Ok(count)
}

/// A shelf over the files of the machine, by their paths. Each error is a fault, that of an absent file too;
/// only memory that a `load` is refused is answered as such. To load a file of more than 268,435,456 bytes is an error.
/// A `save` writes a file beside, `NAME.part0` or the first of ten such names that is free, and gives it the name when it is whole, so that
/// the name has its old bytes or the new ones, whatever happens. A symbolic link, a device or a pipe is written in place.
/// To save over the file that was loaded last is an error, whatever name of it is given, and nothing is written.
#[derive(Drop)]
pub struct FileShelf<R: Files + Drop> {
    files: R,
    faults: u64,
    loaded: Option<Identity>,
}

impl<R: Files + Drop> Model for FileShelf<R> {
    ghost use Rattle.std.specs.Prelude.{ℕ};

    ghost Value = { ℕ };

    ghost view = { λ s. s.faults };
}

impl<R: Files + Drop> FileShelf<R> {
    /// A shelf of the files that this runtime reaches.
    pub fn new(files: R) -> FileShelf<R>
        ensures { result ≡ 0 }
    {
        FileShelf {
            files,
            faults: 0,
            loaded: None,
        }
    }
}

impl<R: Files + Drop> Shelf for FileShelf<R> {
    ghost files = { λ _. untold };

    ghost asked = { λ _. unasked };

    ghost faults = { λ s. s };

    fn load(&mut self, alloc: Global, name: &str) -> Result<Vec<u8>, ShelfError>
        ensures bytes { Loads untold name.now result }
        ensures absent { Lacks untold name.now → IsErrOf result ShelfError.Failed }
        ensures same { untold ≡ untold }
        ensures asks { AsksFor unasked unasked name.now }
        ensures later { self.old ≤ self.new }
        ensures failed { IsErrOf result ShelfError.Failed → Rose self.old self.new ⊎ Lacks untold name.now }
        ensures count { CountAfter (is_fault result) self.old self.new }
        ensures short { IfOk result (λ bytes. length bytes.items ≤ 2 ^ 28) }
    {
        self.loaded = identity_of(&self.files, name);
        match read_file(alloc, &self.files, name) {
            Ok(bytes) => Ok(bytes),
            Err(error) if error.kind() == ErrorKind::OutOfMemory => {
                Err(ShelfError::Memory(AllocError))
            }
            Err(_) => {
                count_fault(&mut self.faults);
                Err(ShelfError::Failed)
            }
        }
    }

    fn save(&mut self, alloc: Global, name: &str, bytes: &[u8]) -> Result<(), ShelfError> {
        if self.loaded.is_some() && identity_of(&self.files, name) == self.loaded {
            count_fault(&mut self.faults);
            return Err(ShelfError::Failed);
        }
        match write_file(alloc, &self.files, name, bytes) {
            Ok(()) => Ok(()),
            Err(error) if error.kind() == ErrorKind::OutOfMemory => {
                Err(ShelfError::Memory(AllocError))
            }
            Err(_) => {
                count_fault(&mut self.faults);
                Err(ShelfError::Failed)
            }
        }
    }
}

/// A file of the machine, whichever of its names is given: its device, and its number there.
#[derive(Clone, Copy, PartialEq, Eq)]
struct Identity {
    device: u64,
    number: u64,
}

// The file that a name leads to, also by a symbolic link. One that can't be asked for is none.
fn identity_of<R: Files>(files: &R, name: &str) -> Option<Identity> {
    let metadata = files.metadata(name).ok()?;
    Some(Identity {
        device: metadata.dev(),
        number: metadata.ino(),
    })
}

/// How many names for a file beside another are tried: killed runs may have left some.
const PARTS: u32 = 10;

// Whether another file can take the name of this one: it is a regular file, or there is none.
fn is_replaceable<R: Files>(files: &R, name: &str) -> bool {
    match files.symlink_metadata(name) {
        Ok(metadata) => metadata.is_file(),
        Err(error) => error.kind() == ErrorKind::NotFound,
    }
}

// A new file with these bytes, which are on the disk.
fn write_new<R: Files>(files: &R, name: &str, bytes: &[u8]) -> io::Result<()> {
    let mut file = File::create_new(files, name)?;
    file.write_all(bytes)?;
    file.sync_all()
}

// Writes a new file under a name that is free, and gives it another name. Where that fails, the new file goes.
fn write_beside<R: Files>(files: &R, part: &str, name: &str, bytes: &[u8]) -> io::Result<()> {
    let written = write_new(files, part, bytes);
    if let Err(error) = &written {
        if error.kind() == ErrorKind::AlreadyExists {
            return written;
        }
    }
    let renamed = written.and_then(|()| files.rename(part, name));
    if renamed.is_err() {
        let _removed = files.remove_file(part);
    }
    renamed
}

fn write_file<R: Files>(alloc: Global, files: &R, name: &str, bytes: &[u8]) -> io::Result<()> {
    if !is_replaceable(files, name) {
        return fs::write(files, name, bytes);
    }
    for number in 0..PARTS {
        let part = format!(in alloc; "{name}.part{number}")?;
        match write_beside(files, part.as_str(), name, bytes) {
            Err(error) if error.kind() == ErrorKind::AlreadyExists => {}
            done => return done,
        }
    }
    Err(ErrorKind::AlreadyExists.into())
}

fn read_file<R: Files>(alloc: Global, files: &R, name: &str) -> io::Result<Vec<u8>>
    ensures { IfOk result (λ bytes. length bytes.items ≤ 2 ^ 28) }
{
    let mut bytes = Vec::new(alloc);
    File::open(files, name)?
        .take(MAX_FILE + 1)
        .read_to_end(&mut bytes)?;
    if bytes.len() as u64 > MAX_FILE {
        return Err(ErrorKind::FileTooLarge.into());
    }
    Ok(bytes)
}

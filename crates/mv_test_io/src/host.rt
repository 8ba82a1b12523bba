use mv_io::{Failed, FileShelf, Shelf, ShelfError, Sink, Source, StdSink, StdSource};
use std::fs::Files;
use std::io::{ErrorKind, Read, Write};
use std::test::Fail;
use std::{fs, io};

/// A terminal: `ab`, an error, `c`, an end of input, and then more.
#[derive(Drop)]
struct Terminal {
    reads: u8,
}

impl Read for Terminal {
    fn read(&mut self, buffer: &mut [u8]) -> io::Result<usize> {
        self.reads = self.reads.saturating_add(1);
        let mut piece = match self.reads {
            1 => b"ab".as_slice(),
            2 => return Err(ErrorKind::TimedOut.into()),
            3 => b"c".as_slice(),
            4 => b"".as_slice(),
            _ => b"d".as_slice(),
        };
        piece.read(buffer)
    }
}

/// A writer that takes at most two bytes at once, and fails at its third write and its second flush.
#[derive(Drop)]
struct Pipe {
    bytes: Vec<u8>,
    writes: u8,
    flushes: u8,
}

impl Write for Pipe {
    fn write(&mut self, bytes: &[u8]) -> io::Result<usize> {
        self.writes = self.writes.saturating_add(1);
        if self.writes == 3 {
            return Err(ErrorKind::BrokenPipe.into());
        }
        let count = bytes.len().min(2);
        self.bytes.extend_from_slice(&bytes[..count])?;
        Ok(count)
    }

    fn flush(&mut self) -> io::Result<()> {
        self.flushes = self.flushes.saturating_add(1);
        if self.flushes == 2 {
            return Err(ErrorKind::TimedOut.into());
        }
        Ok(())
    }
}

#[test]
fn standard_input_fails_in_mid_stream_and_stays_at_its_end(rt: HostRuntime) {
    let mut source = StdSource::new(Terminal { reads: 0 });
    let wanted = [
        Ok(Some(b'a')),
        Ok(Some(b'b')),
        Err(Failed),
        Ok(Some(b'c')),
        Ok(None),
        Ok(None),
    ];
    for want in wanted {
        assert!(rt; source.read_byte() == want);
    }
}

#[test]
fn standard_input_goes_on_after_its_block(rt: HostRuntime) -> Result<(), Fail> {
    let bytes = vec![in rt.alloc(); 7u8; 5_000]?;
    let mut source = StdSource::new(bytes.as_slice());
    let mut count = 0u32;
    for _ in 0..6_000 {
        if source.read_byte() == Ok(Some(7)) {
            count = count.saturating_add(1);
        }
    }
    assert_eq!(rt; count, 5_000);
    Ok(())
}

#[test]
fn standard_output_takes_pieces_and_fails(rt: HostRuntime) -> Result<(), Fail> {
    let mut pipe = Pipe {
        bytes: Vec::new(rt.alloc()),
        writes: 0,
        flushes: 0,
    };
    let mut sink = StdSink::new(&mut pipe);
    let wanted = [Ok(2), Err(Failed), Err(Failed), Ok(2)];
    for want in wanted {
        assert!(rt; sink.write(b"xyz") == want);
    }
    drop(sink);
    assert_eq!(rt; pipe.bytes.as_slice(), b"xyxyxy".as_slice());
    Ok(())
}

#[test]
fn files_are_saved_and_loaded(rt: HostRuntime) -> Result<(), Fail> {
    let alloc = rt.alloc();
    let _ = fs::remove_dir_all(&rt, "mv_io_shelf");
    fs::create_dir(&rt, "mv_io_shelf")?;
    let mut shelf = FileShelf::new(&rt);
    shelf.save(alloc, "mv_io_shelf/a", b"long text")?;
    shelf.save(alloc, "mv_io_shelf/a", b"text")?;
    let rows = [
        ("mv_io_shelf/a", Some(b"text".as_slice())),
        ("mv_io_shelf/b", None),
        ("mv_io_shelf", None),
    ];
    for (name, want) in rows {
        let loaded = shelf.load(alloc, name).ok();
        assert!(rt; loaded.as_ref().map(|bytes| bytes.as_slice()) == want);
    }
    let refused = shelf.save(alloc, "mv_io_shelf", b"a folder");
    assert!(rt; matches!(refused, Err(ShelfError::Failed)));
    fs::remove_dir_all(&rt, "mv_io_shelf")?;
    Ok(())
}

#[test]
fn a_file_is_saved_beside_what_others_left(rt: HostRuntime) -> Result<(), Fail> {
    let alloc = rt.alloc();
    let _ = fs::remove_dir_all(&rt, "mv_io_beside");
    fs::create_dir(&rt, "mv_io_beside")?;
    fs::write(&rt, "mv_io_beside/a", b"old")?;
    fs::write(&rt, "mv_io_beside/a.part0", b"left behind")?;
    rt.symlink("target", "mv_io_beside/link")?;
    let mut old = fs::open(&rt, "mv_io_beside/a")?;
    let mut shelf = FileShelf::new(&rt);
    shelf.save(alloc, "mv_io_beside/a", b"whole")?;
    shelf.save(alloc, "mv_io_beside/link", b"in place")?;
    // Whoever had the old file open still has it, whole.
    let mut bytes = Vec::new(alloc);
    old.read_to_end(&mut bytes)?;
    assert_eq!(rt; bytes.as_slice(), b"old".as_slice());
    let rows = [
        ("mv_io_beside/a", Some(b"whole".as_slice())),
        ("mv_io_beside/a.part0", Some(b"left behind".as_slice())),
        ("mv_io_beside/a.part1", None),
        ("mv_io_beside/target", Some(b"in place".as_slice())),
    ];
    for (name, want) in rows {
        let loaded = shelf.load(alloc, name).ok();
        assert!(rt; loaded.as_ref().map(|bytes| bytes.as_slice()) == want);
    }
    fs::remove_dir_all(&rt, "mv_io_beside")?;
    Ok(())
}

#[test]
fn no_file_is_saved_over_the_one_that_was_loaded(rt: HostRuntime) -> Result<(), Fail> {
    let alloc = rt.alloc();
    let _ = fs::remove_dir_all(&rt, "mv_io_itself");
    fs::create_dir(&rt, "mv_io_itself")?;
    fs::write(&rt, "mv_io_itself/a", b"source")?;
    rt.symlink("a", "mv_io_itself/link")?;
    let mut shelf = FileShelf::new(&rt);
    let source = shelf.load(alloc, "mv_io_itself/a").ok();
    assert!(rt; source.as_ref().map(|bytes| bytes.as_slice()) == Some(b"source".as_slice()));
    for name in ["mv_io_itself/a", "mv_io_itself/./a", "mv_io_itself/link"] {
        let refused = shelf.save(alloc, name, b"image");
        assert!(rt; matches!(refused, Err(ShelfError::Failed)));
    }
    shelf.save(alloc, "mv_io_itself/b", b"image")?;
    let kept = shelf.load(alloc, "mv_io_itself/a").ok();
    assert!(rt; kept.as_ref().map(|bytes| bytes.as_slice()) == Some(b"source".as_slice()));
    // It is a file like others once another one was loaded.
    let _image = shelf.load(alloc, "mv_io_itself/b").ok();
    shelf.save(alloc, "mv_io_itself/a", b"image")?;
    fs::remove_dir_all(&rt, "mv_io_itself")?;
    Ok(())
}

//! What no clause says: that calls succeed with ample memory, and what real files give.
use pcp_base::Failed;
use pcp_io::{
    FileSource, MemorySink, MemorySource, ReadSource, Sink, Source, StdSink, StdSource, WriteSink,
    write_all,
};
use std::alloc::{AllocError, Global};
use std::io::{ErrorKind, Read, Write};
use std::process::Abort;
use std::test::Fail;
use std::{fs, io};

// Reads a piece of three, and writes its octets, or "!" where it failed, and a bar behind them.
fn read_one<S: Source>(source: &mut S, seen: &mut Vec<u8>) -> Result<(), AllocError> {
    let mut piece = [b'.'; 3];
    match source.read(&mut piece) {
        Ok(count) => seen.extend_from_slice(&piece[..count])?,
        Err(_) => seen.push(b'!')?,
    }
    seen.push(b'|')?;
    Ok(())
}

// Whether this is written of four reads.
fn reads<S: Source>(alloc: Global, source: &mut S, want: &[u8]) -> Result<bool, AllocError> {
    let mut seen = Vec::new(alloc);
    for _ in 0..4 {
        read_one(source, &mut seen)?;
    }
    Ok(seen.as_slice() == want)
}

#[test]
fn sources_in_memory(rt: HostRuntime) -> Result<(), Fail> {
    let alloc = rt.alloc();
    let mut source = MemorySource::new(alloc, b"abcdefgh".to_vec(alloc)?)?;
    source.fail_at(alloc, 1)?;
    let whole = reads(alloc, &mut source, b"abc|!|def|gh|");
    let nothing = reads(alloc, &mut source, b"||||");
    assert!(rt; (whole, nothing, source.starved()) == (Ok(true), Ok(true), 0));
    Ok(())
}

// A reader whose second read fails. The others give at most three octets of a list.
#[derive(Drop)]
struct RoughReader {
    octets: &'static [u8],
    reads: u8,
}

impl Read for RoughReader {
    fn read(&mut self, buf: &mut [u8]) -> io::Result<usize> {
        self.reads = self.reads.wrapping_add(1);
        if self.reads == 2 {
            return Err(io::Error::from(ErrorKind::Other));
        }
        let count = self.octets.len().min(buf.len()).min(3);
        buf[..count].copy_from_slice(&self.octets[..count]);
        self.octets = &self.octets[count..];
        Ok(count)
    }
}

#[test]
fn reader_that_fails(rt: HostRuntime) {
    let mut source = ReadSource::of(RoughReader {
        octets: b"abcde",
        reads: 0,
    });
    assert!(rt; reads(rt.alloc(), &mut source, b"abc|!|de||") == Ok(true));
}

// A writer whose second write fails and whose third takes nothing. The others take at most two
// octets.
#[derive(Drop)]
struct RoughWriter {
    taken: Vec<u8>,
    writes: u8,
}

impl Write for RoughWriter {
    fn write(&mut self, buf: &[u8]) -> io::Result<usize> {
        self.writes = self.writes.wrapping_add(1);
        match self.writes {
            2 => Err(io::Error::from(ErrorKind::BrokenPipe)),
            3 => Ok(0),
            _ => {
                let count = buf.len().min(2);
                self.taken.extend_from_slice(&buf[..count])?;
                Ok(count)
            }
        }
    }

    fn flush(&mut self) -> io::Result<()> {
        Ok(())
    }
}

#[test]
fn writer_that_fails(rt: HostRuntime) {
    let mut writer = RoughWriter {
        taken: Vec::new(rt.alloc()),
        writes: 0,
    };
    let mut sink = WriteSink::of(&mut writer);
    let part = sink.write(b"abcde").ok();
    let failed = sink.write(b"cde").ok();
    let nothing = sink.write(b"cde").ok();
    let rest = write_all(&mut sink, b"cde").ok();
    assert!(rt; (part, failed, nothing, rest) == (Some(2), None, None, Some(())));
    assert!(rt; writer.taken.as_slice() == b"abcde".as_slice());
}

fn script(rt: &HostRuntime, path: &str) -> Result<FileSource<HostRuntime>, Fail> {
    Ok(FileSource::new(rt.clone()?, String::from_str(rt.alloc(), path)?))
}

// A folder can be opened, and not be read.
#[test]
fn a_folder_is_no_file(rt: HostRuntime) -> Result<(), Fail> {
    let mut source = script(&rt, ".")?;
    assert!(rt; reads(rt.alloc(), &mut source, b"!|!|!|!|") == Ok(true));
    Ok(())
}

// Whether a read fails and leaves the piece.
fn fails<S: Source>(source: &mut S) -> bool {
    let mut piece = [b'.'; 3];
    source.read(&mut piece).is_err() && piece == *b"..."
}

// A file that isn't there when it is read first may be there later.
#[test]
fn a_file_is_opened_when_it_is_read(rt: HostRuntime) -> Result<(), Fail> {
    let mut source = script(&rt, "script")?;
    assert!(rt; fails(&mut source));
    fs::write(&rt, "script", "abcde")?;
    assert!(rt; reads(rt.alloc(), &mut source, b"abc|de|||") == Ok(true));
    Ok(())
}

#[test]
fn standard_streams(rt: HostRuntime) {
    let mut source = StdSource::new(rt.stdin());
    let mut sink = StdSink::new(rt.stdout());
    let read = source.read(&mut [b'.'; 3]).ok();
    let written = write_all(&mut sink, b"written\n").ok();
    assert!(rt; (read, written, sink.write(b"").ok()) == (Some(0), Some(()), Some(0)));
}

// A sink in memory that takes at most two octets a write.
#[derive(Drop)]
struct SlowSink {
    sink: MemorySink,
}

impl Sink for SlowSink {
    ghost use Rattle.std.specs.Prelude.{Some};

    ghost held = { λ s. Some s.sink.held };

    ghost faults = { λ s. s.sink.calls.faults };

    fn write(&mut self, piece: &[u8]) -> Result<usize, Failed> {
        let most = piece.len().min(2);
        self.sink.write(&piece[..most])
    }
}

// Pieces, and whether each is written whole where the second write fails.
static PIECES: [(&[u8], bool); 2] = [(b"abcde", false), (b"fghij", true)];

fn are_written<W: Sink>(sink: &mut W) -> bool {
    for (piece, whole) in PIECES {
        if write_all(sink, piece).is_ok() != whole {
            return false;
        }
    }
    true
}

#[test]
fn writing_in_parts(rt: HostRuntime) -> Result<(), Fail> {
    let mut slow = SlowSink {
        sink: MemorySink::new(rt.alloc(), 100)?,
    };
    slow.sink.fail_at(rt.alloc(), 1)?;
    assert!(rt; are_written(&mut slow) && slow.sink.held() == b"abfghij".as_slice());
    Ok(())
}

// Pieces that are written into a sink of eight octets, and how many of each are taken.
static TAKEN: [(&[u8], Option<usize>); 3] = [
    (b"abcde", Some(5)),
    (b"fghi", None),
    (b"fgh", Some(3)),
];

fn are_taken<W: Sink>(sink: &mut W) -> bool {
    for (piece, count) in TAKEN {
        if sink.write(piece).ok() != count {
            return false;
        }
    }
    true
}

#[test]
fn sinks_in_memory(rt: HostRuntime) -> Result<(), Fail> {
    let mut sink = MemorySink::new(rt.alloc(), 8)?;
    assert!(rt;
        are_taken(&mut sink) && sink.held() == b"abcdefgh".as_slice() && sink.starved() == 0
    );
    Ok(())
}

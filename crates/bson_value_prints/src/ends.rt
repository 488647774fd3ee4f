// Sources and sinks over readers and writers that fail, and the calls of the ends that take memory.
use bson_io::{
    MemorySink, MemorySource, Out, ReadAdapter, Sink, Source, Steps, Tally, WriteAdapter,
    read_to_end, write_due,
};
use bson_lines::Lines;
use std::alloc::{AllocError, Global};
use std::io;
use std::io::{Read, Write};
use std::mem::size_of;

/// Gives a 7 at each call but the second, which fails.
#[derive(Drop)]
struct Sevens {
    calls: u8,
}

impl Read for Sevens {
    fn read(&mut self, buf: &mut [u8]) -> io::Result<usize> {
        self.calls = self.calls.saturating_add(1);
        if self.calls == 2 {
            return Err(io::Error::from(io::ErrorKind::TimedOut));
        }
        match buf.first_mut() {
            Some(byte) => {
                *byte = 7;
                Ok(1)
            }
            None => Ok(0),
        }
    }
}

/// Takes one byte at each call but the second, which fails, and none from the fourth on.
#[derive(Drop)]
struct Reluctant {
    calls: u8,
}

impl Write for Reluctant {
    fn write(&mut self, buf: &[u8]) -> io::Result<usize> {
        self.calls = self.calls.saturating_add(1);
        match self.calls {
            2 => Err(io::Error::from(io::ErrorKind::TimedOut)),
            1 | 3 => Ok(buf.len().min(1)),
            _ => Ok(0),
        }
    }

    fn flush(&mut self) -> io::Result<()> {
        Ok(())
    }
}

/// Reads once, and adds what was read, and the bytes that were given for it.
fn add_next(lines: &mut Lines, input: &mut ReadAdapter<Sevens>) {
    let mut buf = [0; 2];
    lines.debug("read", &input.read(&mut buf));
    lines.hex("bytes", &buf);
}

/// Adds what a source passes on: bytes and errors.
fn add_source(lines: &mut Lines) {
    let mut input = ReadAdapter::new(Sevens { calls: 0 });
    for _ in 0..3 {
        add_next(lines, &mut input);
    }
}

/// Adds what a sink passes on: bytes and errors.
fn add_sink(lines: &mut Lines) {
    let mut out = WriteAdapter::new(Reluctant { calls: 0 });
    for _ in 0..4 {
        lines.debug("written", &out.write(&[7, 8]));
    }
}

/// A source of three bytes, which gives two at its first call.
fn three(alloc: Global) -> Result<MemorySource, AllocError> {
    let bytes = vec![in alloc; 1, 2, 3]?;
    let most = vec![in alloc; 2]?;
    Ok(MemorySource::new(bytes, Vec::new(alloc), most))
}

/// Adds what is read to the end of a source in memory.
fn add_read(lines: &mut Lines, alloc: Global) {
    match three(alloc) {
        Ok(mut input) => lines.debug("in memory", &read_to_end(alloc, &mut input)),
        Err(error) => lines.text("no source", &error),
    }
}

/// A sink in memory.
fn sink(alloc: Global) -> Result<MemorySink, AllocError> {
    MemorySink::new(alloc, 12, Vec::new(alloc), Vec::new(alloc))
}

/// Adds what a sink in memory took.
fn add_taken(lines: &mut Lines, alloc: Global) {
    match sink(alloc) {
        Ok(mut out) => {
            lines.debug("written", &write_due(&mut out, &[1, 2, 3]));
            lines.hex("bytes", out.written());
        }
        Err(error) => lines.text("no sink", &error),
    }
}

/// Puts two bytes behind an output.
fn fill(out: &mut Out) -> Result<(), AllocError> {
    let mut steps = Steps::<Tally>::new();
    out.reserve(8)?;
    out.push(7, &mut steps)?;
    out.push_all(&[8], &mut steps)
}

/// A copy of what an output holds.
fn copied(out: &Out) -> Result<Vec<u8>, AllocError> {
    out.as_bytes().to_vec(out.allocator())
}

/// Adds a copy of what an output holds that has grown, and what it becomes.
fn add_output(lines: &mut Lines, alloc: Global) {
    let mut out = Out::new(alloc);
    lines.debug("output", &fill(&mut out));
    lines.debug("copy", &copied(&out));
    lines.hex("bytes", &out.into_vec());
}

/// A source and a sink that pass errors on, ends in memory, an output that grows, and the size of a counter that does not count.
pub fn add_ends(lines: &mut Lines, alloc: Global) {
    add_source(lines);
    add_sink(lines);
    add_read(lines, alloc);
    add_taken(lines, alloc);
    add_output(lines, alloc);
    lines.text("size of steps", &size_of::<Steps<Tally>>());
}

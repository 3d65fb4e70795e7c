//! Tests of `cl_io`: what sources give, and what sinks take, where calls fail.
use cl_io::{
    Failed, Gate, MemSink, MemSource, NoGate, Sink, Source, StdSink, StdSource, write_all,
};
use std::alloc::{AllocError, Global};
use std::io;
use std::io::ErrorKind;
use std::test::Fail;

// Whether five reads of at most three bytes give what is wanted: the bytes, `.` at the end and `!` at a fault.
fn is_read<S: Source>(alloc: Global, source: &mut S, wanted: &str) -> Result<bool, AllocError> {
    let mut given = Vec::new(alloc);
    for _ in 0..5 {
        let mut buf = [0; 3];
        match source.read(&mut buf) {
            Ok(0) => given.push(b'.')?,
            Ok(count) => given.extend_from_slice(&buf[..count])?,
            Err(Failed) => given.push(b'!')?,
        }
    }
    Ok(given.as_slice() == wanted.as_bytes())
}

// Whether a source in memory whose listed calls fail gives what is wanted.
fn is_read_in_memory(alloc: Global, failing: &[u64], wanted: &str) -> Result<bool, AllocError> {
    let bytes = b"abcde".to_vec(alloc)?;
    let mut source = MemSource::new(bytes, failing.to_vec(alloc)?);
    is_read(alloc, &mut source, wanted)
}

#[test]
fn a_source_in_memory_fails_at_the_listed_calls(rt: HostRuntime) -> Result<(), Fail> {
    let rows = [
        ([0, 0], "abcde..."),
        ([1, 0], "!abcde.."),
        ([2, 3], "abc!!de."),
        ([4, 4], "abcde.!."),
    ];
    for (failing, wanted) in rows {
        let holds = is_read_in_memory(rt.alloc(), &failing, wanted)?;
        assert!(rt; holds, "calls {failing:?}");
    }
    Ok(())
}

// A reader of `abc` that gives a byte a call. The call with the number `failing` fails.
#[derive(Drop)]
struct Reader {
    given: usize,
    calls: u8,
    failing: u8,
}

impl io::Read for Reader {
    fn read(&mut self, buf: &mut [u8]) -> io::Result<usize> {
        self.calls = self.calls.saturating_add(1);
        if self.calls == self.failing {
            return Err(io::Error::from(ErrorKind::Interrupted));
        }
        if self.given >= 3 || buf.is_empty() {
            return Ok(0);
        }
        buf[0] = b"abc"[self.given];
        self.given += 1;
        Ok(1)
    }
}

// No error is passed over, not even one that others would try again.
#[test]
fn a_source_of_std_fails_once_at_each_error(rt: HostRuntime) -> Result<(), Fail> {
    let rows = [
        (0, "abc.."),
        (1, "!abc."),
        (2, "a!bc."),
        (4, "abc!."),
        (5, "abc.!"),
    ];
    for (failing, wanted) in rows {
        let mut source = StdSource::new(Reader {
            given: 0,
            calls: 0,
            failing,
        });
        let holds = is_read(rt.alloc(), &mut source, wanted)?;
        assert!(rt; holds, "call {failing}");
    }
    Ok(())
}

// Writes two pieces and flushes, and answers which of the three succeeded.
fn successes<K: Sink>(sink: &mut K) -> [bool; 3] {
    let first = write_all(sink, b"ab\n");
    let second = write_all(sink, b"cd\n");
    let flushed = sink.flush();
    [first.is_ok(), second.is_ok(), flushed.is_ok()]
}

// Whether a sink in memory whose call with this number fails succeeds as wanted, with these bytes written.
fn is_written_in_memory(
    alloc: Global,
    failing: u64,
    wanted: [bool; 3],
    written: &str,
) -> Result<bool, AllocError> {
    let mut sink = MemSink::new(alloc, [failing].to_vec(alloc)?);
    Ok(successes(&mut sink) == wanted && sink.bytes() == written.as_bytes())
}

#[test]
fn a_sink_in_memory_fails_at_the_listed_calls(rt: HostRuntime) -> Result<(), Fail> {
    let rows = [
        (0, [true, true, true], "ab\ncd\n"),
        (1, [false, true, true], "cd\n"),
        (2, [true, false, true], "ab\n"),
        (3, [true, true, false], "ab\ncd\n"),
    ];
    for (failing, wanted, written) in rows {
        let holds = is_written_in_memory(rt.alloc(), failing, wanted, written)?;
        assert!(rt; holds, "call {failing}");
    }
    Ok(())
}

// A writer of at most two bytes a call, and of at most `most` in all. The call with the number `failing` fails.
#[derive(Drop)]
struct Writer {
    bytes: Vec<u8>,
    // How many bytes there were at the last flush.
    flushed: usize,
    most: usize,
    calls: u8,
    failing: u8,
}

impl Writer {
    fn begin(&mut self) -> io::Result<()> {
        self.calls = self.calls.saturating_add(1);
        if self.calls == self.failing {
            return Err(io::Error::from(ErrorKind::Interrupted));
        }
        Ok(())
    }
}

impl io::Write for Writer {
    fn write(&mut self, buf: &[u8]) -> io::Result<usize> {
        self.begin()?;
        let room = self.most.saturating_sub(self.bytes.len());
        let count = buf.len().min(room).min(2);
        self.bytes.extend_from_slice(&buf[..count])?;
        Ok(count)
    }

    fn flush(&mut self) -> io::Result<()> {
        self.begin()?;
        self.flushed = self.bytes.len();
        Ok(())
    }
}

// What a sink over a `Writer` is to do: which calls succeed, and what is written and flushed.
#[derive(Clone, Copy, Debug)]
struct WriterCase {
    most: usize,
    failing: u8,
    successes: [bool; 3],
    written: &'static str,
    flushed: usize,
}

fn is_written_by(alloc: Global, row: WriterCase) -> bool {
    let mut output = Writer {
        bytes: Vec::new(alloc),
        flushed: 0,
        most: row.most,
        calls: 0,
        failing: row.failing,
    };
    let found = successes(&mut StdSink::new(&mut output));
    found == row.successes
        && output.bytes.as_slice() == row.written.as_bytes()
        && output.flushed == row.flushed
}

fn row(
    most: usize,
    failing: u8,
    successes: [bool; 3],
    written: &'static str,
    flushed: usize,
) -> WriterCase {
    WriterCase {
        most,
        failing,
        successes,
        written,
        flushed,
    }
}

// Each error of the writer and each write of nothing is a fault, and a flush reaches the writer.
#[test]
fn a_sink_of_std_fails_once_at_each_error(rt: HostRuntime) {
    let rows = [
        row(9, 0, [true, true, true], "ab\ncd\n", 6),
        row(5, 0, [true, false, true], "ab\ncd", 5),
        row(0, 0, [false, false, true], "", 0),
        row(9, 1, [false, true, true], "cd\n", 3),
        row(9, 2, [false, true, true], "abcd\n", 5),
        row(9, 4, [true, false, true], "ab\ncd", 5),
        row(9, 5, [true, true, false], "ab\ncd\n", 0),
    ];
    for row in rows {
        let holds = is_written_by(rt.alloc(), row);
        assert!(rt; holds, "at {row:?}");
    }
}

// The first call fails, and the empty piece makes none.
#[test]
fn an_empty_piece_makes_no_call(rt: HostRuntime) -> Result<(), Fail> {
    let alloc = rt.alloc();
    let mut sink = MemSink::new(alloc, [1].to_vec(alloc)?);
    let ended = [
        write_all(&mut sink, b"").is_ok(),
        write_all(&mut sink, b"ab").is_ok(),
    ];
    assert!(rt; ended == [true, false], "{ended:?}");
    Ok(())
}

// Where an allocation fails, so does the write, and the sink takes the next one.
#[test]
fn a_failed_allocation_is_a_fault_of_the_sink(rt: HostRuntime) {
    let mut sink = MemSink::new(rt.alloc(), Vec::new(rt.alloc()));
    let first = write_all(&mut sink, b"ab").is_ok();
    let holds = first || sink.bytes().is_empty() && write_all(&mut sink, b"ab").is_ok();
    assert!(rt;
        holds && sink.bytes() == b"ab".as_slice(),
        "after a first write that succeeded: {first}"
    );
}

fn pass<G: Gate + Sync>(gate: &G) {
    gate.enter(1);
    gate.leave(1);
}

#[test]
fn no_gate_is_open() {
    pass(&NoGate);
}

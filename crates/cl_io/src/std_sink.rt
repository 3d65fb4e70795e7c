//! A writer of std as a sink.
ghost use Rattle.std.specs.Prelude.{◌≡◌, ◌<◌, ◌≤◌, ◌⊎◌, IfOk, OnOk, OnErr, None, length};
ghost use Rattle.std.specs.Io.KnownBytes.{Keeps, WriteAppends};
ghost use Rattle.cl_io.specs.Faults as faults;
ghost use Rattle.cl_io.specs.Std.{sink_faults, writer};

use crate::count::one_more;
use crate::{Failed, Sink};
use std::io::{Stdout, Write};

/// A writer of std as a sink: standard output unless another is named. It tells no bytes. Where the
/// writer tells its contents, each write appends to them what it takes.
///
/// Contracts see its writer and its count of faults.
#[derive(Debug, Drop)]
pub struct StdSink<W = Stdout> {
    output: W,
    errors: u64,
}

impl<W> StdSink<W> {
    /// A sink that writes there, with no fault so far.
    pub fn new(output: W) -> Self
        ensures writer { writer result ≡ output }
        ensures faults { sink_faults result ≡ 0 }
    {
        StdSink { output, errors: 0 }
    }
}

impl<W: Write> Sink for StdSink<W> {
    ghost written = { λ _. None };

    ghost flushed = { λ _. None };

    ghost faults = { sink_faults };

    /// One call of the writer's `write`. An error is a fault, and so is taking nothing of a piece that
    /// is not empty.
    fn write(&mut self, piece: &[u8]) -> Result<usize, Failed>
        ensures within { IfOk result (λ n. n ≤ length piece.now) }
        ensures bytes { WriteAppends (W.contents (writer self.old)) (W.contents (writer self.new)) result piece.now }
        ensures none { IfOk result (λ n. n ≡ 0 → 0 < length piece.now
            → sink_faults self.new ≡ faults.one_more (sink_faults self.old)) }
        ensures unfaulted { IfOk result (λ n. (0 < n) ⊎ (length piece.now ≡ 0) → sink_faults self.new ≡ sink_faults self.old) }
        ensures fault { OnErr result (sink_faults self.new ≡ faults.one_more (sink_faults self.old)) }
        ensures counted { sink_faults self.old ≤ sink_faults self.new }
    {
        let result = self.output.write(piece);
        let is_fault = match result {
            Ok(count) => count == 0 && !piece.is_empty(),
            Err(_) => true,
        };
        if is_fault {
            self.errors = one_more(self.errors);
        }
        result.map_err(|_| Failed)
    }

    /// One call of the writer's `flush`. An error is a fault.
    fn flush(&mut self) -> Result<(), Failed>
        ensures bytes { Keeps (W.contents (writer self.old)) (W.contents (writer self.new)) }
        ensures unfaulted { OnOk result (sink_faults self.new ≡ sink_faults self.old) }
        ensures fault { OnErr result (sink_faults self.new ≡ faults.one_more (sink_faults self.old)) }
        ensures counted { sink_faults self.old ≤ sink_faults self.new }
    {
        match self.output.flush() {
            Ok(()) => Ok(()),
            Err(_) => {
                self.errors = one_more(self.errors);
                Err(Failed)
            }
        }
    }
}

//! A sink into memory, whose calls fail where its maker says.
ghost use Rattle.std.specs.Prelude.{◌≡◌, ◌≤◌, ◌↔◌, ◌++◌, [], length, IfOk, OnOk, OnErr, IsErr, Some};
ghost use Rattle.cl_io.specs.Memory.{FailsNext, after_call, after_fault};

use crate::calls::Calls;
use crate::{Failed, Sink};
use std::alloc::Global;
use std::marker::Model;

/// A sink that keeps what is written. The calls with the listed numbers, counted from 1, fail.
///
/// Contracts see it as a `SinkState`.
#[derive(Debug, Drop)]
pub struct MemSink {
    bytes: Vec<u8>,
    calls: Calls,
}

impl Model for MemSink {
    ghost use Rattle.cl_io.specs.Memory.{SinkState};

    ghost Value = { SinkState };

    ghost view = { λ s. record { given = s.bytes.items; calls = s.calls } };
}

impl MemSink {
    /// An empty sink whose listed calls fail. It allocates nothing.
    pub fn new(alloc: Global, failing: Vec<u64>) -> Self
        ensures given { result.given ≡ [] }
        ensures calls { result.calls ≡ record { failing = failing.items; made = 0; faults = 0 } }
    {
        MemSink {
            bytes: Vec::new(alloc),
            calls: Calls::new(failing),
        }
    }

    /// The bytes that were written.
    pub fn bytes(&self) -> &[u8]
        ensures { result.now ≡ self.now.given }
    {
        self.bytes.as_slice()
    }
}

impl Sink for MemSink {
    ghost written = { λ s. Some s.given };

    ghost flushed = { λ s. Some s.given };

    ghost faults = { λ s. s.calls.faults };

    /// Takes the whole piece. It fails where the number of the call is listed, and may give up for want of memory.
    ///
    /// A flush is a call too, with a number of its own.
    fn write(&mut self, piece: &[u8]) -> Result<usize, Failed>
        ensures failing { FailsNext self.old.calls → IsErr result }
        ensures count { IfOk result (λ n. n ≡ length piece.now) }
        ensures written { OnOk result (self.new ≡ record
            { given = self.old.given ++ piece.now; calls = after_call self.old.calls }) }
        ensures failed { OnErr result (self.new ≡ record self.old { calls = after_fault self.old.calls }) }
        ensures counted { self.old.calls.faults ≤ self.new.calls.faults }
    {
        self.calls.begin()?;
        if self.bytes.extend_from_slice(piece).is_err() {
            return Err(self.calls.fail());
        }
        Ok(piece.len())
    }

    /// Fails where the number of the call is listed, and does nothing else.
    fn flush(&mut self) -> Result<(), Failed>
        ensures failing { IsErr result ↔ FailsNext self.old.calls }
        ensures flushed { OnOk result (self.new ≡ record self.old { calls = after_call self.old.calls }) }
        ensures failed { OnErr result (self.new ≡ record self.old { calls = after_fault self.old.calls }) }
        ensures counted { self.old.calls.faults ≤ self.new.calls.faults }
    {
        self.calls.begin()
    }
}

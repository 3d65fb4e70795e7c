//! A source over bytes in memory, whose calls fail where its maker says.
ghost use Rattle.std.specs.Prelude.{◌≡◌, ◌≤◌, ◌↔◌, ◌++◌, length, take, drop, min, IfOk, OnErr, IsErr, Some};
ghost use Rattle.cl_io.specs.Memory.{FailsNext, after_call, after_fault};

use crate::calls::Calls;
use crate::{Failed, Source};
use std::marker::Model;

/// A source of given bytes. The calls with the listed numbers, counted from 1, fail.
///
/// Contracts see it as a `SourceState`.
#[derive(Debug, Drop)]
pub struct MemSource {
    bytes: Vec<u8>,
    position: usize,
    calls: Calls,
}

impl Model for MemSource {
    ghost use Rattle.std.specs.Prelude.{drop, ◌≤◌, vec_len};
    ghost use Rattle.cl_io.specs.Memory.{SourceState};

    ghost Value = { SourceState };

    ghost view = { λ s. record { rest = drop s.position s.bytes.items; calls = s.calls } };

    ghost invariant = { λ s. s.position ≤ vec_len s.bytes };
}

impl MemSource {
    /// A source of these bytes whose listed calls fail. It allocates nothing.
    pub fn new(bytes: Vec<u8>, failing: Vec<u64>) -> Self
        ensures rest { result.rest ≡ bytes.items }
        ensures calls { result.calls ≡ record { failing = failing.items; made = 0; faults = 0 } }
    {
        MemSource {
            bytes,
            position: 0,
            calls: Calls::new(failing),
        }
    }
}

impl Source for MemSource {
    ghost left = { λ s. Some s.rest };

    ghost faults = { λ s. s.calls.faults };

    /// Fills as much of the buffer as there are bytes. It fails where the number of the call is listed.
    ///
    /// Its time grows with the bytes that it gives and the calls that are listed.
    fn read(&mut self, buf: &mut [u8]) -> Result<usize, Failed>
        ensures failing { IsErr result ↔ FailsNext self.old.calls }
        ensures count { IfOk result (λ n. n ≡ min (length buf.old) (length self.old.rest)) }
        ensures copied { IfOk result (λ n. buf.new ≡ take n self.old.rest ++ drop n buf.old) }
        ensures read { IfOk result (λ n. self.new ≡ record
            { rest = drop n self.old.rest; calls = after_call self.old.calls }) }
        ensures failed { OnErr result (self.new ≡ record self.old { calls = after_fault self.old.calls }) }
        ensures size { length buf.new ≡ length buf.old }
        ensures counted { self.old.calls.faults ≤ self.new.calls.faults }
    {
        self.calls.begin()?;
        let count = copy_front(&self.bytes[self.position..], buf);
        self.position += count;
        Ok(count)
    }
}

// Copies as many bytes as both have and returns how many.
fn copy_front(from: &[u8], to: &mut [u8]) -> usize
    ensures count { result ≡ min (length to.old) (length from.now) }
    ensures copied { to.new ≡ take result from.now ++ drop result to.old }
{
    let count = to.len().min(from.len());
    to[..count].copy_from_slice(&from[..count]);
    count
}

//! A reader of std as a source.
ghost use Rattle.std.specs.Prelude.{◌≡◌, ◌≤◌, IfOk, OnOk, OnErr, None, length};
ghost use Rattle.std.specs.Io.KnownBytes.{ReadConsumes};
ghost use Rattle.cl_io.specs.Faults as faults;
ghost use Rattle.cl_io.specs.Std.{reader, source_faults};

use crate::count::one_more;
use crate::{Failed, Source};
use std::io::{Read, Stdin};

/// A reader of std as a source: standard input unless another is named. It tells no bytes.
///
/// Contracts see its reader and its count of faults.
#[derive(Debug, Drop)]
pub struct StdSource<R = Stdin> {
    input: R,
    errors: u64,
}

impl<R> StdSource<R> {
    /// A source that reads from here, with no fault so far.
    pub fn new(input: R) -> Self
        ensures reader { reader result ≡ input }
        ensures faults { source_faults result ≡ 0 }
    {
        StdSource { input, errors: 0 }
    }
}

impl<R: Read> Source for StdSource<R> {
    ghost left = { λ _. None };

    ghost faults = { source_faults };

    /// One call of the reader's `read`, whose bytes it hands on. Each error is a fault.
    fn read(&mut self, buf: &mut [u8]) -> Result<usize, Failed>
        ensures within { IfOk result (λ n. n ≤ length buf.old) }
        ensures size { length buf.new ≡ length buf.old }
        ensures bytes { ReadConsumes (R.remaining (reader self.old)) (R.remaining (reader self.new)) result buf.new }
        ensures unfaulted { OnOk result (source_faults self.new ≡ source_faults self.old) }
        ensures fault { OnErr result (source_faults self.new ≡ faults.one_more (source_faults self.old)) }
        ensures counted { source_faults self.old ≤ source_faults self.new }
    {
        match self.input.read(buf) {
            Ok(count) => Ok(count),
            Err(_) => {
                self.errors = one_more(self.errors);
                Err(Failed)
            }
        }
    }
}

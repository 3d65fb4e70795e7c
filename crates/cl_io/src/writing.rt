//! Writing a whole piece.
ghost use Rattle.std.specs.Prelude.{◌≡◌, ◌<◌, ◌≤◌, length, take, IfOk, OnOk, OnErr};
ghost use Rattle.cl_io.specs.Faults.{one_more};
ghost use Rattle.std.specs.Io.KnownBytes.{append_known};
ghost use Rattle.cl_io.specs.Told.{AppendsPart};

use crate::{Failed, Sink};

/// Writes the whole piece, in as many writes as the sink needs. It stops at the first fault.
///
/// A write that takes nothing is a fault. An empty piece makes no call.
pub fn write_all<K: Sink>(sink: &mut K, piece: &[u8]) -> Result<(), Failed>
    ensures all { OnOk result (K.written sink.new ≡ append_known (K.written sink.old) piece.now) }
    ensures part { OnErr result (AppendsPart (K.written sink.old) (K.written sink.new) piece.now) }
    ensures fault { OnErr result (K.faults sink.new ≡ one_more (K.faults sink.old)) }
    ensures unfaulted { OnOk result (K.faults sink.new ≡ K.faults sink.old) }
    ensures counted { K.faults sink.old ≤ K.faults sink.new }
{
    let mut done = 0;
    while done < piece.len() {
        done += write_some(sink, &piece[done..])?;
    }
    Ok(())
}

// Writes at least one byte of the piece and returns how many.
fn write_some<K: Sink>(sink: &mut K, piece: &[u8]) -> Result<usize, Failed>
    requires { 0 < length piece.now }
    ensures some { IfOk result (λ n. 0 < n) }
    ensures within { IfOk result (λ n. n ≤ length piece.now) }
    ensures taken { IfOk result (λ n. K.written sink.new ≡ append_known (K.written sink.old) (take n piece.now)) }
    ensures unchanged { OnErr result (K.written sink.new ≡ K.written sink.old) }
    ensures fault { OnErr result (K.faults sink.new ≡ one_more (K.faults sink.old)) }
    ensures unfaulted { OnOk result (K.faults sink.new ≡ K.faults sink.old) }
    ensures counted { K.faults sink.old ≤ K.faults sink.new }
{
    match sink.write(piece)? {
        0 => Err(Failed),
        count => Ok(count),
    }
}

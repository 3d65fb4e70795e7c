//! Reading the whole input, within its limits.
ghost use Rattle.std.specs.Prelude.{◌≡◌, ℕ, ◌+◌, ◌-◌, ◌<◌, ◌≤◌, ◌==◌, ◌^◌, not, if◌then◌else◌, length, take, count_by, slice_index, IfOk, OnOk, OnErr, IfErr, Err, vec_len};
ghost use Rattle.cl_io.specs.Faults.{one_more};
ghost use Rattle.std.specs.Io.KnownBytes.{prepend_known, IsAtEnd};
ghost use Rattle.clustra.specs.Reading.{ReadsToEnd, AddsPiece};

use crate::limits::{BYTES_MAX, LINES_MAX, PIECE_MAX};
use cl_io::{Failed, Source};
use std::alloc::{AllocError, Global};

/// Why the input was not read to its end.
#[derive(Clone, Copy, Debug, PartialEq, Eq)]
pub(crate) enum InputFault {
    /// A read failed.
    Read,
    /// There is a line or a byte too many.
    TooMuch,
    /// The call gave up for want of memory; no clause says when.
    NoMemory,
}

// Reads at most `room` bytes into the front of the buffer.
fn read_piece<S: Source>(source: &mut S, buffer: &mut [u8], room: usize) -> Result<usize, Failed>
    requires some { 0 < room }
    requires within { room ≤ length buffer.old }
    ensures within { IfOk result (λ count. count ≤ room) }
    ensures taken { IfOk result (λ count. S.left source.old ≡ prepend_known (take count buffer.new) (S.left source.new)) }
    ensures end { IfOk result (λ count. count ≡ 0 → IsAtEnd (S.left source.new)) }
    ensures kept { OnErr result (S.left source.new ≡ S.left source.old) }
    ensures fault { OnErr result (S.faults source.new ≡ one_more (S.faults source.old)) }
    ensures unfaulted { OnOk result (S.faults source.new ≡ S.faults source.old) }
    ensures counted { S.faults source.old ≤ S.faults source.new }
{
    source.read(&mut buffer[..room])
}

// The number of newlines.
fn count_newlines(piece: &[u8]) -> usize
    ensures count { result ≡ count_by (λ byte. byte == 10) piece.now }
    ensures within { result ≤ length piece.now }
{
    piece.iter().filter(|byte| **byte == b'\n').count()
}

// The number of lines that have begun, given the newlines so far and the last piece.
fn lines_begun(newlines: usize, piece: &[u8]) -> usize
    requires some { 0 < length piece.now }
    requires few { newlines < 2 ^ 63 }
    ensures { result ≡ newlines + (if not (slice_index piece.now (length piece.now - 1) == 10) then 1 else 0) }
{
    if piece[piece.len() - 1] == b'\n' {
        newlines
    } else {
        newlines + 1
    }
}

// A buffer for so many bytes.
fn new_buffer(alloc: Global, count: usize) -> Result<Vec<u8>, AllocError>
    ensures { IfOk result (λ buffer. vec_len buffer ≡ count) }
{
    vec![in alloc; 0u8; count]
}

// Adds a piece to the bytes so far, unless there is too much with it.
fn add_piece(bytes: &mut Vec<u8>, newlines: &mut usize, piece: &[u8]) -> Result<(), InputFault>
    requires some { 0 < length piece.now }
    requires small { length piece.now ≤ PIECE_MAX }
    requires few { vec_len bytes.old ≤ BYTES_MAX }
    requires counted { newlines.old ≡ count_by (λ byte. byte == 10) bytes.old.items }
    ensures adds { AddsPiece bytes.old.items piece.now bytes.new.items result }
    ensures counted { OnOk result (newlines.new ≡ count_by (λ byte. byte == 10) bytes.new.items) }
    ensures few { OnOk result (vec_len bytes.new ≤ BYTES_MAX) }
    ensures more { OnOk result (vec_len bytes.new ≡ vec_len bytes.old + length piece.now) }
{
    let begun = *newlines + count_newlines(piece);
    if LINES_MAX < lines_begun(begun, piece) {
        return Err(InputFault::TooMuch);
    }
    if BYTES_MAX < bytes.len() + piece.len() {
        return Err(InputFault::TooMuch);
    }
    if bytes.extend_from_slice(piece).is_err() {
        return Err(InputFault::NoMemory);
    }
    *newlines = begun;
    Ok(())
}

/// Reads to the end of the source, and no further than one byte past the limit. It stops at the first fault.
pub(crate) fn read_input<S: Source>(alloc: Global, source: &mut S) -> Result<Vec<u8>, InputFault>
    ensures reads { ReadsToEnd (λ bytes. bytes.items) (S.left source.old) (S.left source.new) result }
    ensures end { IfOk result (λ _. IsAtEnd (S.left source.new)) }
    ensures fault { result ≡ Err InputFault.Read → S.faults source.new ≡ one_more (S.faults source.old) }
    ensures unfaulted { (result ≡ Err InputFault.Read → ⊥) → S.faults source.new ≡ S.faults source.old }
    ensures counted { S.faults source.old ≤ S.faults source.new }
{
    let Ok(mut buffer) = new_buffer(alloc, PIECE_MAX) else {
        return Err(InputFault::NoMemory);
    };
    let mut bytes = Vec::new(alloc);
    let mut newlines = 0;
    'pieces: loop {
        let room = PIECE_MAX.min(BYTES_MAX + 1 - bytes.len());
        let Ok(count) = read_piece(source, &mut buffer, room) else {
            return Err(InputFault::Read);
        };
        if count == 0 {
            return Ok(bytes);
        }
        if let Err(fault) = add_piece(&mut bytes, &mut newlines, &buffer[..count]) {
            return Err(fault);
        }
    }
}

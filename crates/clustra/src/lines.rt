//! The lines of the input.
ghost use Rattle.std.specs.Prelude.{◌≡◌, ◌∷◌, ◌<◌, IfOk, length};
ghost use Rattle.cl_serial.specs.Bytes.{whole_lines, kept_line};
ghost use Rattle.cl_schedule.specs.Making.{texts_of};
ghost use Rattle.clustra.specs.Run.{texts_in};

use cl_lines::LINE_MAX;
use cl_types::{GrowingList, NoMemory};
use cl_world::LineList;
use std::alloc::Global;

// The first line of some bytes without its newline, and the bytes after that.
fn first_line(bytes: &[u8]) -> (&[u8], &[u8])
    requires { 0 < length bytes.now }
    ensures line { whole_lines bytes.now ≡ result.0.now ∷ whole_lines result.1.now }
    ensures shorter { length result.1.now < length bytes.now }
{
    for (position, byte) in bytes.iter().enumerate() {
        if *byte == b'\n' {
            return (&bytes[..position], &bytes[position + 1..]);
        }
    }
    (bytes, &[])
}

// The part of a line that is kept: one byte past the limit shows that it is too long.
fn shortened(line: &[u8]) -> &[u8]
    ensures { result.now ≡ kept_line line.now }
{
    if line.len() <= LINE_MAX {
        line
    } else {
        &line[..LINE_MAX + 1]
    }
}

/// The lines of the bytes, each as far as it is kept.
pub(crate) fn split_lines(alloc: Global, bytes: &[u8]) -> Result<LineList, NoMemory>
    ensures { IfOk result (λ lines. texts_of lines ≡ texts_in bytes.now) }
{
    let mut lines = LineList::new(alloc);
    let mut rest = bytes;
    while !rest.is_empty() {
        let (line, after) = first_line(rest);
        lines.push(GrowingList::copy_of(alloc, shortened(line))?)?;
        rest = after;
    }
    Ok(lines)
}

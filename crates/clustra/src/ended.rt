//! How a run ends.
use cl_world::Kept;

/// How a run ended. `kept` is `None` at status `USAGE`, perhaps at `NO_MEMORY`, and at no other. Where it is, nothing was
/// read or written.
#[derive(Drop)]
pub struct Ended {
    pub status: u8,
    pub kept: Option<Kept>,
}

/// The source was read to its end, its lines were answered, and every answer written and flushed.
pub const DONE: u8 = 0;
/// The words are not those of the call. Nothing was read or written.
pub const USAGE: u8 = 2;
/// A read failed. Nothing was fed or written.
pub const READ_FAULT: u8 = 3;
/// A write or the flush failed, or a write took nothing of a piece.
pub const WRITE_FAULT: u8 = 4;
/// There is more input than a run takes. Nothing was fed or written.
pub const TOO_MUCH_INPUT: u8 = 5;
/// The run gave up for want of memory; no clause says when. Nothing was written.
pub const NO_MEMORY: u8 = 6;
/// All turns were made, and a line is not fed or the system is not quiet. What was answered is written, and then the
/// sessions that wait for an answer.
pub const UNFINISHED: u8 = 7;
/// The next event needs a number above its limit. Nothing was written.
pub const SPENT: u8 = 8;

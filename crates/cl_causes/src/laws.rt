//! What holds of every run. The function does nothing: its contract is a law of the definitions.
ghost use Rattle.cl_causes.specs.Laws.{FirmRunsNameTrueCauses};

/// Each reply ABORTED of a firm run names a true cause: CLIENT of ABORT, CONFLICT of an operation that met a lock of another
/// transaction, MEMORY of an operation where, before the reply, an event with its mark brought a message that asks for the
/// transaction. With its mark a participant gives up for want of memory; no clause says when.
pub fn causes_are_true()
    ensures { FirmRunsNameTrueCauses }
{}

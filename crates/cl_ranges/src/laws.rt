//! What holds of every run. Each function does nothing: its contract is a law of the definitions.
ghost use Rattle.cl_ranges.specs.Laws.{FewBecomeFirm, FirmRunsAreInRange, GivenIsInRange, PacketsAreInRange};

/// In every run, also where quiet moments come at any time, one event makes at most `FIRM_MAX` transactions firm.
pub fn few_become_firm()
    ensures few { FewBecomeFirm }
{}

/// Whatever the front, the replicas and the messages on their way have is in the ranges of the wire format, after each firm
/// run of which no step needs a number above its limit.
pub fn messages_stay_in_range()
    ensures { FirmRunsAreInRange }
{}

/// In every run of which no step is refused because a number would be above its limit, whatever was given to a link is in
/// range, and so is each packet: it has a spelling, and `cl_wire::encode` takes it.
pub fn packets_are_in_range()
    ensures given { GivenIsInRange }
    ensures packets { PacketsAreInRange }
{}

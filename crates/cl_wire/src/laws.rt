//! What holds of every spelling, and what the faults mean. Each function does nothing: its contract is a law of the definitions.
ghost use Rattle.cl_wire.specs.Laws.{SpelledIsRead, ReadIsSpelled, SpellsAtMostOne, NoneBeginsAnother, NoneIsLonger, IsAsLong, LongerIsRest, RestIsLonger, VersionIsFirstByte, KindIsSecondByte, FaultStays, BeginningIsShort, ShortEnds};

use crate::limits::PACKET_MAX;

/// What is spelled is read, and what is read is spelled so: the two sides of the grammar agree.
pub fn spelling_and_reading_agree()
    ensures spelled { SpelledIsRead }
    ensures read { ReadIsSpelled }
{}

/// A list of bytes is the spelling of at most one message.
pub fn bytes_spell_at_most_one()
    ensures { SpellsAtMostOne }
{}

/// No spelling begins another spelling.
pub fn no_spelling_begins_another()
    ensures { NoneBeginsAnother }
{}

/// No spelling has more than `PACKET_MAX` bytes, and one has so many.
pub fn no_spelling_is_longer()
    ensures most { NoneIsLonger PACKET_MAX }
    ensures reached { IsAsLong PACKET_MAX }
{}

/// When each fault comes, said by the spellings and the bytes.
pub fn what_faults_mean()
    ensures longer { LongerIsRest }
    ensures rest { RestIsLonger }
    ensures version { VersionIsFirstByte }
    ensures kind { KindIsSecondByte }
    ensures stays { FaultStays }
    ensures beginning { BeginningIsShort }
    ensures end { ShortEnds }
{}

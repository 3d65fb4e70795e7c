//! The laws of the roster. A law is the contract of a function that does nothing.
ghost use Rattle.cl_roster.specs.Laws.{RolesGoOnByOneStep, StopTakesOut, RepairPutsIn, EmptyIsLawful, LawfulEntryKeepsLawful, PrefixIsLawful, MembersAreSound, MembersAreOnTwoSites, AdmittedStopLeavesMember, PrimaryStays, MemberStays, StoppedNeverReturns, PrefixDecidesRoles, VerdictsMean, SparesMean, PickedSpareIsLawful, LawfulRostersAreShort};
ghost use Rattle.cl_roster.specs.Roster.{IsClusterSize, IsLawfulRoster};

use crate::Roster;

/// Each roster is lawful, and its cluster has a lawful size.
pub fn rosters_are_lawful(roster: &Roster)
    ensures size { IsClusterSize roster.now.nodes roster.now.spares }
    ensures lawful { IsLawfulRoster roster.now.nodes roster.now.spares roster.now.entries }
{
    roster.lawful();
}

/// One more entry changes the roles of each virtual node by one step: a stop takes out, a repair puts in.
pub fn one_entry_more()
    ensures step { RolesGoOnByOneStep }
    ensures stop { StopTakesOut }
    ensures repair { RepairPutsIn }
{}

/// Lawful rosters grow by lawful entries, their prefixes are lawful, and they are short.
pub fn lawful_rosters()
    ensures empty { EmptyIsLawful }
    ensures push { LawfulEntryKeepsLawful }
    ensures prefix { PrefixIsLawful }
    ensures short { LawfulRostersAreShort }
{}

/// Each virtual node has one or two members, which live and differ. They are on two sites where each repair crosses.
pub fn members_are_sound()
    ensures sound { MembersAreSound }
    ensures two_sites { MembersAreOnTwoSites }
    ensures left { AdmittedStopLeavesMember }
{}

/// A primary and a member stay until they stop, a stop stays for ever, and the first entries decide their roles.
pub fn what_stays()
    ensures primary { PrimaryStays }
    ensures member { MemberStays }
    ensures stopped { StoppedNeverReturns }
    ensures prefix { PrefixDecidesRoles }
{}

/// A verdict on a stop means what it says, and the search for a spare finds the lowest lawful one.
pub fn verdicts_and_spares()
    ensures verdict { VerdictsMean }
    ensures spare { SparesMean }
    ensures lawful { PickedSpareIsLawful }
{}

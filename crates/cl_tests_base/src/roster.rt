//! A worked case, and runs over each size of a cluster against lists of members kept by plain loops.
ghost use Rattle.std.specs.Prelude.{◌≡◌, ◌+◌, ◌<◌, ◌≤◌, length};
ghost use Rattle.cl_roster.specs.Roster.{IsClusterSize};

use cl_roster::{
    Roles, Roster, RosterEntry, SPARES_MAX, lawful_rosters, members_are_sound, one_entry_more,
    rosters_are_lawful, verdicts_and_spares, what_stays,
};
use cl_types::{NoMemory, StopFault, is_node_count};
use std::alloc::{AllocError, Global};
use std::test::Fail;

// Stops the node where that is admitted.
fn stop_where_admitted(roster: &mut Roster, node: u32) -> Result<Result<(), StopFault>, NoMemory>
    ensures nodes { roster.new.nodes ≡ roster.old.nodes }
    ensures spares { roster.new.spares ≡ roster.old.spares }
{
    let verdict = roster.may_stop(node);
    if let Ok(()) = verdict {
        roster.push(RosterEntry::Stopped(node))?;
    }
    Ok(verdict)
}

// Repairs the virtual node where it has no standby and there is a spare.
fn repair_where_lone(roster: &mut Roster, virtual_node: u32) -> Result<Option<u32>, NoMemory>
    requires { virtual_node < roster.old.nodes }
    ensures nodes { roster.new.nodes ≡ roster.old.nodes }
    ensures spares { roster.new.spares ≡ roster.old.spares }
{
    let count = roster.len();
    if let Some(_) = roster.roles(count, virtual_node).standby {
        return Ok(None);
    }
    let Some(spare) = roster.spare_for(virtual_node) else {
        return Ok(None);
    };
    roster.push(RosterEntry::Repaired(virtual_node, spare))?;
    Ok(Some(spare))
}

// Whether the first node is stopped. Where an allocation fails, the roster stays empty, and takes the entry then.
fn first_is_stopped(roster: &mut Roster) -> bool
    ensures nodes { roster.new.nodes ≡ roster.old.nodes }
{
    let mut verdict = stop_where_admitted(roster, 1);
    if verdict.is_err() {
        if !roster.is_empty() || !roster.living(0, 1) {
            return false;
        }
        verdict = stop_where_admitted(roster, 1);
    }
    verdict == Ok(Ok(()))
}

// Whether these are the roles of the virtual node, of four, after the first entries.
fn has_roles(roster: &Roster, count: u32, virtual_node: u32, wanted: Roles) -> bool
    requires { roster.now.nodes ≡ 4 }
{
    count <= roster.len() && virtual_node < 4 && roster.roles(count, virtual_node) == wanted
}

// Whether the entries are the stop of node 1 and the repair of virtual node 0 by node 5, and say so of the nodes.
fn has_stop_and_repair(roster: &Roster) -> bool {
    roster.len() == 2
        && roster.entry(0).is_none()
        && roster.entry(1) == Some(RosterEntry::Stopped(1))
        && roster.entry(2) == Some(RosterEntry::Repaired(0, 5))
        && roster.entry(3).is_none()
        && roster.living(0, 1)
        && !roster.living(1, 1)
        && roster.may_stop(2) == Err(StopFault::Last(1))
}

#[test]
fn a_stop_promotes_the_standby(rt: HostRuntime) -> Result<(), Fail> {
    let rows = [
        (0, 1, 1, Some(2)),
        (1, 0, 0, None),
        (1, 1, 2, None),
        (1, 2, 2, Some(3)),
        (1, 3, 3, Some(0)),
        (2, 0, 0, Some(5)),
    ];
    let mut roster = Roster::new(rt.alloc(), 4, 2);
    assert!(rt; first_is_stopped(&mut roster));
    assert!(rt; repair_where_lone(&mut roster, 0)? == Some(5) && has_stop_and_repair(&roster));
    for row in rows {
        let (count, virtual_node, primary, standby) = row;
        assert!(rt;
            has_roles(&roster, count, virtual_node, Roles { primary, standby }),
            "at {row:?}"
        );
    }
    Ok(())
}

// Repairs the virtual node by that spare, whatever its site, where the spare may serve.
fn repair_by(roster: &mut Roster, virtual_node: u32, spare: u32) -> Result<(), NoMemory>
    ensures nodes { roster.new.nodes ≡ roster.old.nodes }
    ensures spares { roster.new.spares ≡ roster.old.spares }
{
    if roster.may_repair(virtual_node, spare) {
        roster.push(RosterEntry::Repaired(virtual_node, spare))?;
    }
    Ok(())
}

// How virtual nodes are repaired after each stop.
#[derive(Clone, Copy, Debug)]
enum Repairs {
    None,
    ByPickedSpare,
    ByAnySpare,
}

// Repairs each virtual node in that way.
fn repair_all(
    roster: &mut Roster,
    nodes: u32,
    spares: u32,
    repairs: Repairs,
) -> Result<(), NoMemory>
    requires size { IsClusterSize nodes spares }
    requires nodes { roster.old.nodes ≡ nodes }
    requires spares { roster.old.spares ≡ spares }
    ensures nodes { roster.new.nodes ≡ nodes }
    ensures spares { roster.new.spares ≡ spares }
{
    for virtual_node in 0..nodes {
        match repairs {
            Repairs::None => {}
            Repairs::ByPickedSpare => {
                repair_where_lone(roster, virtual_node)?;
            }
            Repairs::ByAnySpare => {
                for spare in nodes..nodes + spares {
                    repair_by(roster, virtual_node, spare)?;
                }
            }
        }
    }
    Ok(())
}

// Whether one of the first entries is the stop of the node.
fn stopped_within(roster: &Roster, count: u32, node: u32) -> bool {
    (1..=count).any(|k| roster.entry(k) == Some(RosterEntry::Stopped(node)))
}

// The members of each virtual node after the first entries, primary first: a stop removes the node, a repair adds it.
fn members_after(
    alloc: Global,
    roster: &Roster,
    nodes: u32,
    count: u32,
) -> Result<Vec<Vec<u32>>, AllocError>
    requires some { 0 < nodes }
    requires few { nodes ≤ 8 }
{
    let mut all = Vec::new(alloc);
    for virtual_node in 0..nodes {
        all.push(vec![in alloc; virtual_node, (virtual_node + 1) % nodes]?)?;
    }
    for k in 1..=count {
        match roster.entry(k) {
            Some(RosterEntry::Stopped(node)) => {
                for members in all.iter_mut() {
                    members.retain(|member| *member != node);
                }
            }
            Some(RosterEntry::Repaired(virtual_node, node)) => {
                if let Some(members) = all.get_mut(virtual_node as usize) {
                    members.push(node)?;
                }
            }
            None => {}
        }
    }
    Ok(all)
}

// The verdict on the stop of the node, by the members and the entries so far.
fn wanted_verdict(
    roster: &Roster,
    all: &[Vec<u32>],
    known: u32,
    node: u32,
) -> Result<(), StopFault> {
    if known <= node {
        return Err(StopFault::Unknown);
    }
    if stopped_within(roster, roster.len(), node) {
        return Err(StopFault::Down);
    }
    for virtual_node in 0..known {
        if let Some(members) = all.get(virtual_node as usize) {
            if members.len() == 1 && members.contains(&node) {
                return Err(StopFault::Last(virtual_node));
            }
        }
    }
    Ok(())
}

// Whether the verdict on the stop of each node, and of one too many, is the wanted one.
fn verdicts_agree(roster: &Roster, all: &[Vec<u32>], known: u32) -> bool {
    (0..=known).all(|node| roster.may_stop(node) == wanted_verdict(roster, all, known, node))
}

// Whether the roles are those of the members.
fn are_roles(roles: Roles, members: Option<&Vec<u32>>) -> bool {
    match members {
        Some(members) => match (members.as_slice(), roles.standby) {
            ([primary], None) => *primary == roles.primary,
            ([primary, second], Some(standby)) => *primary == roles.primary && *second == standby,
            _ => false,
        },
        None => false,
    }
}

// Whether the roles and the living nodes after the first entries are those of the plain lists.
fn roles_agree(roster: &Roster, all: &[Vec<u32>], nodes: u32, known: u32, count: u32) -> bool
    requires nodes { roster.now.nodes ≡ nodes }
    requires count { count ≤ length roster.now.entries }
{
    for virtual_node in 0..nodes {
        if !are_roles(
            roster.roles(count, virtual_node),
            all.get(virtual_node as usize),
        ) {
            return false;
        }
    }
    for node in 0..known {
        if roster.living(count, node) == stopped_within(roster, count, node) {
            return false;
        }
    }
    true
}

// A cluster whose nodes stop from one on, up or down, each where that is admitted, with repairs between.
#[derive(Clone, Copy, Debug)]
struct Run {
    nodes: u32,
    spares: u32,
    first: u32,
    upwards: bool,
    repairs: Repairs,
}

// Stops the next node of the run and repairs, and answers whether the verdicts before that agree.
fn turns(roster: &mut Roster, alloc: Global, run: Run, turn: u32) -> Result<bool, NoMemory>
    requires size { IsClusterSize run.nodes run.spares }
    requires turn { turn < run.nodes + run.spares }
    requires nodes { roster.old.nodes ≡ run.nodes }
    requires spares { roster.old.spares ≡ run.spares }
    ensures nodes { roster.new.nodes ≡ run.nodes }
    ensures spares { roster.new.spares ≡ run.spares }
{
    let known = run.nodes + run.spares;
    let all = members_after(alloc, roster, run.nodes, roster.len())?;
    let agree = verdicts_agree(roster, &all, known);
    let ahead = if run.upwards { turn } else { known - turn };
    let _ = stop_where_admitted(roster, (run.first % known + ahead) % known)?;
    repair_all(roster, run.nodes, run.spares, run.repairs)?;
    Ok(agree)
}

// Whether verdicts, roles and living nodes agree with the plain lists throughout the run.
fn agrees(alloc: Global, run: Run) -> Result<bool, NoMemory> {
    if !is_node_count(run.nodes) || run.spares > SPARES_MAX as u32 {
        return Ok(false);
    }
    let known = run.nodes + run.spares;
    let mut roster = Roster::new(alloc, run.nodes, run.spares);
    let mut agree = true;
    for turn in 0..known {
        agree = turns(&mut roster, alloc, run, turn)? && agree;
    }
    for count in 0..roster.len() + 1 {
        let all = members_after(alloc, &roster, run.nodes, count)?;
        agree = roles_agree(&roster, &all, run.nodes, known, count) && agree;
    }
    Ok(agree)
}

#[test]
fn roles_and_verdicts_follow_each_entry(rt: HostRuntime) -> Result<(), Fail> {
    for nodes in [2_u32, 4, 6, 8] {
        for spares in 0..9 {
            for first in 0..nodes.saturating_add(spares) {
                for upwards in [true, false] {
                    for repairs in [Repairs::None, Repairs::ByPickedSpare, Repairs::ByAnySpare] {
                        let run = Run {
                            nodes,
                            spares,
                            first,
                            upwards,
                            repairs,
                        };
                        assert!(rt; agrees(rt.alloc(), run)?, "in {run:?}");
                    }
                }
            }
        }
    }
    Ok(())
}

#[test]
fn the_laws_are_called(rt: HostRuntime) {
    rosters_are_lawful(&Roster::new(rt.alloc(), 4, 2));
    one_entry_more();
    lawful_rosters();
    members_are_sound();
    what_stays();
    verdicts_and_spares();
}

//! The lines of a run: transfers between accounts.
use crate::load::Load;
use cl_types::{NoMemory, Text};
use cl_world::LineList;
use std::alloc::Global;

// Appends a line.
fn push_line(alloc: Global, lines: &mut LineList, line: &str) -> Result<(), NoMemory> {
    lines.push(Text::copy_of(alloc, line.as_bytes())?)
}

// A number below a count that is not 0.
fn below(count: u64, number: u64) -> u64 {
    number.checked_rem(count).unwrap_or(0)
}

// Appends the lines of a transfer.
fn push_transfer(
    alloc: Global,
    lines: &mut LineList,
    load: &Load,
    number: u64,
) -> Result<(), NoMemory> {
    let session = below(load.sessions, number).wrapping_add(1);
    let source = below(load.accounts, number.wrapping_mul(7));
    let other = number.wrapping_mul(13).wrapping_add(load.accounts / 2);
    let target = below(load.accounts, other);
    push_line(alloc, lines, &format!(in alloc; "{session} BEGIN")?)?;
    push_line(
        alloc,
        lines,
        &format!(in alloc; "{session} ADD acct k{source} -5")?,
    )?;
    push_line(
        alloc,
        lines,
        &format!(in alloc; "{session} ADD acct k{target} 5")?,
    )?;
    push_line(alloc, lines, &format!(in alloc; "{session} COMMIT")?)
}

/// The lines of a part of a load.
pub fn lines_of_part(alloc: Global, load: &Load, part: u64) -> Result<LineList, NoMemory> {
    let mut lines = LineList::new(alloc);
    for transfer in 0..load.transfers {
        push_transfer(
            alloc,
            &mut lines,
            load,
            part.wrapping_mul(load.transfers).wrapping_add(transfer),
        )?;
    }
    Ok(lines)
}

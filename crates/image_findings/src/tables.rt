//! Tables that somebody maps, or that two trees have.
ghost use Rattle.std.specs.Prelude.{◌≡◌, ◌++◌, OnOk, length};
ghost use Rattle.std.specs.List.{filter_map};
ghost use Rattle.image_findings.specs.Findings.{has_frame, mapped_of, mapped_in, met_of, met_in};

use crate::claim::Claim;
use crate::finding::{Finding, add};
use std::alloc::AllocError;
use walked_tables::Reached;

/// Whether a claim has a frame.
pub(crate) fn claims_frame(claim: &Claim, frame: u64) -> bool
    ensures { result ≡ has_frame claim.now frame }
{
    claim.frame <= frame && frame - claim.frame < claim.count
}

/// That the host or a guest maps a table.
fn mapped(table: &Reached, claim: &Claim) -> Option<Finding>
    ensures { result ≡ mapped_of table.now claim.now }
{
    if claim.named || claim.tree == 1 || !claims_frame(claim, table.frame) {
        return None;
    }
    Some(Finding::MappedTable {
        table: *table,
        claim: *claim,
    })
}

/// Adds those who map a table.
fn add_mapped_by(
    table: &Reached,
    claims: &[Claim],
    found: &mut Vec<Finding>,
) -> Result<(), AllocError>
    ensures { OnOk result
        (found.new.items ≡ found.old.items ++ filter_map (mapped_of table.now) claims.now) }
{
    for i in 0..claims.len() {
        add(found, mapped(table, &claims[i]))?;
    }
    Ok(())
}

/// Adds each table that the host or a guest maps.
pub fn add_mapped(
    tables: &[Reached],
    claims: &[Claim],
    found: &mut Vec<Finding>,
) -> Result<(), AllocError>
    ensures { OnOk result
        (found.new.items
        ≡ found.old.items ++ mapped_in claims.now tables.now (length tables.now)) }
{
    for i in 0..tables.len() {
        add_mapped_by(&tables[i], claims, found)?;
    }
    Ok(())
}

/// That two tables of two trees have one frame.
fn met(second: &Reached, first: &Reached) -> Option<Finding>
    ensures { result ≡ met_of second.now first.now }
{
    if first.frame == second.frame {
        Some(Finding::MetTwice {
            first: *first,
            second: *second,
        })
    } else {
        None
    }
}

/// Adds the earlier tables that have the frame of one.
fn add_met_with(
    table: &Reached,
    earlier: &[Reached],
    found: &mut Vec<Finding>,
) -> Result<(), AllocError>
    ensures { OnOk result (found.new.items ≡ found.old.items ++ filter_map (met_of table.now) earlier.now) }
{
    for i in 0..earlier.len() {
        add(found, met(table, &earlier[i]))?;
    }
    Ok(())
}

/// Adds each two tables of one frame.
pub fn add_met_twice(tables: &[Reached], found: &mut Vec<Finding>) -> Result<(), AllocError>
    ensures { OnOk result (found.new.items ≡ found.old.items ++ met_in tables.now (length tables.now)) }
{
    for i in 0..tables.len() {
        add_met_with(&tables[i], &tables[..i], found)?;
    }
    Ok(())
}

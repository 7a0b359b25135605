//! Frames that two own, or two borrow.
ghost use Rattle.std.specs.Prelude.{◌≡◌, ◌++◌, OnOk, length};
ghost use Rattle.std.specs.List.{filter_map};
ghost use Rattle.image_findings.specs.Findings.{are_apart, clash_of, clashes_of, common_frame};

use crate::claim::Claim;
use crate::finding::{Finding, add};
use std::alloc::AllocError;

/// The first frame of both, if they have one.
pub(crate) fn common(first: &Claim, second: &Claim) -> Option<u64>
    ensures { result ≡ common_frame first.now second.now }
{
    if first.frame < second.frame {
        if second.frame - first.frame < first.count {
            Some(second.frame)
        } else {
            None
        }
    } else if first.frame - second.frame < second.count {
        Some(first.frame)
    } else {
        None
    }
}

/// Whether both may own a frame: a tree that is named as the owner may map it.
fn may_both_own(first: &Claim, second: &Claim) -> bool
    ensures { result ≡ are_apart first.now second.now }
{
    first.tree == second.tree && (first.named || second.named)
}

/// The frame that two claims both own or both borrow.
fn clash(second: &Claim, first: &Claim) -> Option<Finding>
    ensures { result ≡ clash_of second.now first.now }
{
    let Some(frame) = common(first, second) else {
        return None;
    };
    if first.owns() && second.owns() && !may_both_own(first, second) {
        return Some(Finding::TwoOwners {
            frame,
            first: *first,
            second: *second,
        });
    }
    if first.borrows() && second.borrows() {
        return Some(Finding::TwoBorrowers {
            frame,
            first: *first,
            second: *second,
        });
    }
    None
}

/// Adds the clashes of a claim with earlier ones.
fn add_with(claim: &Claim, earlier: &[Claim], found: &mut Vec<Finding>) -> Result<(), AllocError>
    ensures { OnOk result
        (found.new.items ≡ found.old.items ++ filter_map (clash_of claim.now) earlier.now) }
{
    for i in 0..earlier.len() {
        add(found, clash(claim, &earlier[i]))?;
    }
    Ok(())
}

/// Adds each two claims by which a frame has two owners or two borrowers.
pub fn add_clashes(claims: &[Claim], found: &mut Vec<Finding>) -> Result<(), AllocError>
    ensures { OnOk result (found.new.items ≡ found.old.items ++ clashes_of claims.now (length claims.now)) }
{
    for i in 0..claims.len() {
        add_with(&claims[i], &claims[..i], found)?;
    }
    Ok(())
}

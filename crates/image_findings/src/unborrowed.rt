//! Frames that are shared and that nobody borrows, or borrowed and that nobody shares.
ghost use Rattle.std.specs.Prelude.{◌≡◌, ◌++◌, OnOk};
ghost use Rattle.std.specs.List.{filter_map, list_any};
ghost use Rattle.image_findings.specs.Unborrowed.{first_from, is_of, is_on, unborrowed_of, unshared_of};

use crate::claim::Claim;
use crate::finding::{Finding, add};
use crate::tables::claims_frame;
use std::alloc::AllocError;

/// A side of a share.
#[derive(Clone, Copy, PartialEq)]
pub(crate) enum Side {
    /// Who owns the page and shares it.
    Sharer,
    /// Who borrows it.
    Borrower,
}

/// Whether a claim is on this side of a share.
fn is_on_side(side: Side, claim: &Claim) -> bool
    ensures { result ≡ is_on side claim.now }
{
    match side {
        Side::Sharer => claim.shares(),
        Side::Borrower => claim.borrows(),
    }
}

/// Whether a claim has a frame on this side.
fn is_at(side: Side, claim: &Claim, frame: u64) -> bool
    ensures { result ≡ is_of side frame claim.now }
{
    is_on_side(side, claim) && claims_frame(claim, frame)
}

/// Whether a claim has the frame on this side.
fn has_side(side: Side, claims: &[Claim], frame: u64) -> bool
    ensures { result ≡ list_any (is_of side frame) claims.now }
{
    claims.iter().any(|claim| is_at(side, claim, frame))
}

/// The first frame of a range that no claim has on this side.
fn first_without(side: Side, claims: &[Claim], frame: u64, count: u64) -> Option<u64>
    ensures { result ≡ first_from side claims.now frame count }
{
    for i in 0..count {
        match frame.checked_add(i) {
            None => return None,
            Some(at) => {
                if !has_side(side, claims, at) {
                    return Some(at);
                }
            }
        }
    }
    None
}

/// The first frame that a claim shares and that nobody borrows.
fn unborrowed(claims: &[Claim], claim: &Claim) -> Option<Finding>
    ensures { result ≡ unborrowed_of claims.now claim.now }
{
    if !claim.shares() {
        return None;
    }
    match first_without(Side::Borrower, claims, claim.frame, claim.count) {
        Some(frame) => Some(Finding::NoBorrower {
            frame,
            claim: *claim,
        }),
        None => None,
    }
}

/// Adds each claim that shares a frame that nobody borrows, with the first such frame.
pub fn add_unborrowed(claims: &[Claim], found: &mut Vec<Finding>) -> Result<(), AllocError>
    ensures { OnOk result
        (found.new.items ≡ found.old.items ++ filter_map (unborrowed_of claims.now) claims.now) }
{
    for i in 0..claims.len() {
        add(found, unborrowed(claims, &claims[i]))?;
    }
    Ok(())
}

/// The first frame that a claim borrows and that nobody shares.
fn unshared(claims: &[Claim], claim: &Claim) -> Option<Finding>
    ensures { result ≡ unshared_of claims.now claim.now }
{
    if !claim.borrows() {
        return None;
    }
    match first_without(Side::Sharer, claims, claim.frame, claim.count) {
        Some(frame) => Some(Finding::Unshared {
            frame,
            claim: *claim,
        }),
        None => None,
    }
}

/// Adds each claim that borrows a frame that nobody shares, with the first such frame.
pub fn add_unshared(claims: &[Claim], found: &mut Vec<Finding>) -> Result<(), AllocError>
    ensures { OnOk result
        (found.new.items ≡ found.old.items ++ filter_map (unshared_of claims.now) claims.now) }
{
    for i in 0..claims.len() {
        add(found, unshared(claims, &claims[i]))?;
    }
    Ok(())
}

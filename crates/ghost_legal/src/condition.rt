//! The condition of a frame, from the facts of the parts about it.
ghost use Rattle.std.specs.Prelude.{◌≡◌, ◌+◌, ◌<◌, ◌^◌, ◌↔◌, IsTrue, Some};
ghost use Rattle.page_state.specs.EntryTests.{leaf as leaf_of};
ghost use Rattle.reference_model.specs.help.Conditions.{row_in as row_in_of, hyp_entry_by as hyp_entry_by_of, HostFits};
ghost use Rattle.page_state.specs.declared.row.Usage.TheVariants.{Plain};
ghost use Rattle.ghost_legal.specs.Facts.{IsLowCondition, IsLowHolder, condition_in, condition_by, held_in, unheld_in, Fits, IsCondition};

use crate::finding::{Facts, Holder};
use descriptor::{Frame, Kind, Owner, Prot, State};
use page_state::{Entry, Lent, Row, Usage};

/// The condition of a frame.
#[derive(Clone, Copy, PartialEq)]
pub(crate) enum Condition {
    /// No memory frame.
    Outside,
    /// The host's.
    Hosts,
    /// Shared with the hypervisor.
    WithHyp,
    /// The hypervisor's, in a use.
    Hyps(Usage),
    /// Shared with the guest of a slot at a page.
    WithGuest { slot: u64, page: u64 },
    /// The guest's at a page.
    Guests { slot: u64, page: u64 },
    /// Lent back by the guest from a page.
    LentBack { slot: u64, page: u64 },
}

/// The distance of the hypervisor's page of a frame.
pub(crate) const HYP_DISTANCE: u64 = 0x400_0000;

/// The condition of a frame that something else has.
pub(crate) fn held(holder: Holder) -> Condition
    ensures { condition_in result ≡ held_in holder }
{
    match holder {
        Holder::SharedPool => Condition::Hyps(Usage::SharedPool),
        Holder::VmPool(slot) => Condition::Hyps(Usage::VmPool(slot)),
        Holder::Table(at) => {
            if at.tree < 2 {
                Condition::Hyps(Usage::SharedPool)
            } else {
                Condition::Hyps(Usage::VmPool(at.tree - 2))
            }
        }
        Holder::Hand(cpu) => Condition::Hyps(Usage::InHand(cpu)),
        Holder::Guest { slot, page, state } => match state {
            State::Owned => Condition::Guests { slot, page },
            State::SharedOwned => Condition::LentBack { slot, page },
            State::SharedBorrowed => Condition::WithGuest { slot, page },
        },
    }
}

/// The condition of a memory frame without a holder, from its row.
fn unheld(row: Row) -> Condition
    ensures { condition_in result ≡ unheld_in row }
{
    if row.owner.0 == 1 {
        return Condition::Hyps(Usage::Plain);
    }
    match row.lent {
        Some(_) => Condition::WithHyp,
        None => Condition::Hosts,
    }
}

/// The one condition that a frame can be in.
pub(crate) fn condition_of(facts: Facts) -> Condition
    ensures { condition_in result ≡ condition_by facts }
{
    match facts.holder {
        Some(holder) => held(holder),
        None => {
            if facts.memory {
                unheld(facts.row)
            } else {
                Condition::Outside
            }
        }
    }
}

/// A leaf of memory.
fn leaf(prot: Prot, frame: u64, state: State) -> Entry
    ensures { result ≡ leaf_of prot frame state }
{
    Entry::Leaf {
        frame: Frame(frame),
        prot,
        kind: Kind::Normal,
        state,
    }
}

/// Whether the host's entry of a page is one of the condition's.
#[tactic(auto, using(page_state::proofs::Equality::entries_tell))]
fn host_fits(page: u64, condition: Condition, host: Entry) -> bool
    requires { IsLowCondition condition }
    ensures { IsTrue result ↔ HostFits page (condition_in condition) host }
{
    match condition {
        Condition::Outside => {
            host == Entry::Unmapped
                || host
                    == Entry::Leaf {
                        frame: Frame(page),
                        prot: Prot::RW,
                        kind: Kind::Device,
                        state: State::Owned,
                    }
        }
        Condition::Hosts => {
            host == Entry::Unmapped || host == leaf(Prot::RWX, page, State::Owned)
        }
        Condition::WithHyp => host == leaf(Prot::RWX, page, State::SharedOwned),
        Condition::Hyps(_) => host == Entry::Annotated(Owner(1)),
        Condition::WithGuest { .. } => host == leaf(Prot::RWX, page, State::SharedOwned),
        Condition::Guests { slot, .. } => host == Entry::Annotated(Owner(2 + slot)),
        Condition::LentBack { .. } => host == leaf(Prot::RWX, page, State::SharedBorrowed),
    }
}

/// The hypervisor's entry of a frame's page.
fn hyp_entry_by(frame: u64, condition: Condition) -> Entry
    ensures { result ≡ hyp_entry_by_of frame (condition_in condition) }
{
    match condition {
        Condition::WithHyp => leaf(Prot::RW, frame, State::SharedBorrowed),
        Condition::Hyps(_) => leaf(Prot::RW, frame, State::Owned),
        _ => Entry::Unmapped,
    }
}

/// The row of a frame that the host owns, lent to the component of a number at its page.
fn lent_row(number: u64, page: u64) -> Row
    ensures { result
        ≡ record {
          owner = record { 0 = 0 };
          lent = Some (record { owner = record { 0 = number }; page = page });
          usage = Plain;
        } }
{
    Row {
        owner: Owner(0),
        lent: Some(Lent {
            owner: Owner(number),
            page,
        }),
        usage: Usage::Plain,
    }
}

/// The row of a memory frame in a condition.
fn row_in(frame: u64, condition: Condition) -> Row
    requires frame { frame < 2 ^ 63 }
    requires condition { IsLowCondition condition }
    ensures { result ≡ row_in_of frame (condition_in condition) }
{
    match condition {
        Condition::Outside | Condition::Hosts => Row {
            owner: Owner(0),
            lent: None,
            usage: Usage::Plain,
        },
        Condition::WithHyp => lent_row(1, frame + HYP_DISTANCE),
        Condition::Hyps(usage) => Row {
            owner: Owner(1),
            lent: None,
            usage,
        },
        Condition::WithGuest { slot, page } => lent_row(2 + slot, page),
        Condition::Guests { slot, .. } => Row {
            owner: Owner(2 + slot),
            lent: None,
            usage: Usage::Plain,
        },
        Condition::LentBack { slot, .. } => Row {
            owner: Owner(2 + slot),
            lent: Some(Lent {
                owner: Owner(0),
                page: frame,
            }),
            usage: Usage::Plain,
        },
    }
}

/// Whether the facts of the parts about a frame fit the condition.
#[tactic(auto, using(page_state::proofs::Equality::entries_tell, page_state::proofs::Equality::rows_tell))]
fn fits_in(frame: u64, condition: Condition, facts: Facts) -> bool
    requires frame { frame < 2 ^ 63 }
    requires condition { IsLowCondition condition }
    ensures { IsTrue result ↔ Fits frame (condition_in condition) facts }
{
    if !host_fits(frame, condition, facts.host) {
        return false;
    }
    if facts.hyp != hyp_entry_by(frame, condition) {
        return false;
    }
    !facts.memory || facts.row == row_in(frame, condition)
}

/// Whether the facts of the parts about a frame fit some condition.
pub(crate) fn fits(frame: u64, facts: Facts) -> bool
    requires frame { frame < 2 ^ 63 }
    requires holder { IsLowHolder facts.holder }
    ensures { IsTrue result ↔ IsCondition frame facts }
{
    if facts.holder.is_some() && !facts.memory {
        return false;
    }
    fits_in(frame, condition_of(facts), facts)
}

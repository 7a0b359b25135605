//! The owner row that a call's changes give to the frames that they touch.
ghost use Rattle.std.specs.Prelude.{◌≡◌, ◌+◌, ◌<◌, ◌^◌, option_map, unwrap_or};
ghost use Rattle.page_state.specs.Rows.{plain_row};
ghost use Rattle.reference_model.specs.model.Changes.{touched as touched_by};
ghost use Rattle.reference_model.specs.model.GuestRules.{guest_owner as owner_of_guest};
ghost use Rattle.reference_model.specs.help.RowChanges.{borrower as borrower_of, first_row as first_row_of, row_by, use_by};

use decisions::{HOST, HYPERVISOR};
use page_state::{Entry, Lent, Owner, Page, PageRange, Row, State, Usage};
use reference_model::{Changes, Update};

/// The frames whose rows the changes touch: those of the host's change, or else those that change use.
pub fn touched(changes: &Changes) -> Option<PageRange>
    ensures { result ≡ touched_by changes.now }
{
    match changes.host {
        Some(change) => Some(change.range),
        None => changes.moved,
    }
}

/// The owner number of the guest of a slot (profile).
fn guest_owner(slot: Option<u64>) -> Owner
    requires { unwrap_or slot 0 < 2 ^ 32 }
    ensures { result.0 ≡ owner_of_guest slot }
{
    Owner(2 + slot.unwrap_or(0))
}

/// The borrower of the frames that the host shares: the hypervisor at its page, or the guest at its page.
fn borrower(slot: Option<u64>, changes: &Changes) -> Option<Lent>
    requires { unwrap_or slot 0 < 2 ^ 32 }
    ensures { result ≡ borrower_of slot changes.now }
{
    if let Some(change) = changes.hyp {
        return Some(Lent {
            owner: HYPERVISOR,
            page: change.range.first.0,
        });
    }
    changes.guest.map(|change| Lent {
        owner: guest_owner(slot),
        page: change.range.first.0,
    })
}

/// The use of frames that the hypervisor gets: in the CPU's hand if the CPU gets a hand, else Plain.
fn use_of(id: u64, changes: &Changes) -> Usage
    ensures { result ≡ use_by id changes.now.cpu.hand }
{
    match changes.cpu.hand {
        Update::Becomes(Some(_)) => Usage::InHand(id),
        _ => Usage::Plain,
    }
}

/// The row of the first touched frame, from the entry that the host's page gets.
fn row_of_entry(id: u64, slot: Option<u64>, changes: &Changes, first: Page, entry: Entry) -> Row
    requires { unwrap_or slot 0 < 2 ^ 32 }
    ensures { result ≡ row_by id slot changes.now first.0 entry }
{
    match entry {
        Entry::Annotated(owner) => Row {
            owner,
            lent: None,
            usage: use_of(id, changes),
        },
        Entry::Leaf {
            state: State::SharedOwned,
            ..
        } => Row {
            owner: HOST,
            lent: borrower(slot, changes),
            usage: Usage::Plain,
        },
        Entry::Leaf {
            state: State::SharedBorrowed,
            ..
        } => Row {
            owner: guest_owner(slot),
            lent: Some(Lent {
                owner: HOST,
                page: first.0,
            }),
            usage: Usage::Plain,
        },
        _ => Row {
            owner: HOST,
            lent: None,
            usage: Usage::Plain,
        },
    }
}

/// The row of the first touched frame. If the host's map stays, the frames go to the guest's pool.
pub fn first_row(id: u64, slot: Option<u64>, changes: &Changes) -> Row
    requires { unwrap_or slot 0 < 2 ^ 32 }
    ensures { result ≡ first_row_of id slot changes.now }
{
    match changes.host {
        Some(change) => row_of_entry(id, slot, changes, change.range.first, change.entry),
        None => Row {
            owner: HYPERVISOR,
            lent: None,
            usage: Usage::VmPool(slot.unwrap_or(0)),
        },
    }
}

//! Owner rows.
ghost use Rattle.std.specs.Prelude.{◌≡◌, Some};
ghost use Rattle.c_words.specs.Said.{lent_from_c, row_from_c, usage_from_c};
ghost use Rattle.c_words.specs.Written.{row_written, usage_written};

use descriptor::Owner;
use page_state::{Lent, Row, Usage};

/// Who has a frame.
#[repr(C)]
#[derive(Clone, Copy, PartialEq)]
pub struct PlainOwner {
    /// The owner's number: 0 the host, 1 the hypervisor, 2 + v the guest in slot v.
    pub owner: u64,
    /// Not 0 if the frame is lent.
    pub is_lent: u64,
    /// If it is lent: the borrower's number.
    pub borrower: u64,
    /// If it is lent: the borrower's page that maps it.
    pub borrower_page: u64,
    /// 0 in no use beside the maps, 1 for the shared pool, 2 for a guest's pool, 3 in a CPU's hand.
    pub usage: u64,
    /// Of a guest's pool: the guest's slot. Of a hand: the CPU.
    pub user: u64,
}

/// To whom a frame is lent.
fn lent_of(owner: PlainOwner) -> Option<Lent>
    ensures { result ≡ lent_from_c owner }
{
    if owner.is_lent == 0 {
        return None;
    }
    Some(Lent {
        owner: Owner(owner.borrower),
        page: owner.borrower_page,
    })
}

/// What holds a frame beside the maps.
fn usage_of(owner: PlainOwner) -> Option<Usage>
    ensures { result ≡ usage_from_c owner }
{
    match owner.usage {
        0 => Some(Usage::Plain),
        1 => Some(Usage::SharedPool),
        2 => Some(Usage::VmPool(owner.user)),
        3 => Some(Usage::InHand(owner.user)),
        _ => None,
    }
}

/// The row that the numbers say. None if the usage is unknown.
pub fn row_of(owner: PlainOwner) -> Option<Row>
    ensures { result ≡ row_from_c owner }
{
    let usage = usage_of(owner)?;
    Some(Row {
        owner: Owner(owner.owner),
        lent: lent_of(owner),
        usage,
    })
}

/// A use in numbers, with 0 in the fields of the owner and of the loan.
fn usage_to_c(usage: Usage) -> PlainOwner
    ensures said { usage_from_c result ≡ Some usage }
    ensures written { result ≡ usage_written usage }
{
    let (usage, user) = match usage {
        Usage::Plain => (0, 0),
        Usage::SharedPool => (1, 0),
        Usage::VmPool(slot) => (2, slot),
        Usage::InHand(cpu) => (3, cpu),
    };
    PlainOwner {
        owner: 0,
        is_lent: 0,
        borrower: 0,
        borrower_page: 0,
        usage,
        user,
    }
}

/// A row in numbers.
pub fn owner_to_c(row: Row) -> PlainOwner
    ensures said { row_from_c result ≡ Some row }
    ensures written { result ≡ row_written row }
{
    let told = usage_to_c(row.usage);
    match row.lent {
        None => PlainOwner {
            owner: row.owner.0,
            is_lent: 0,
            ..told
        },
        Some(lent) => PlainOwner {
            owner: row.owner.0,
            is_lent: 1,
            borrower: lent.owner.0,
            borrower_page: lent.page,
            ..told
        },
    }
}

//! What faults are called.
ghost use Rattle.std.specs.Prelude.{◌≡◌};
ghost use Rattle.pkvm_oracle.specs.FaultTexts.{text_of_fault, text_of_list_fault, text_of_root_fault, text_of_table_fault, IsFaultReported};

use crate::statuses::{BAD_NUMBER, NO_ROOM};

/// From the faults of profiles and sizes of roots on.
fn root_fault_text(fault: u64) -> &'static str
    ensures { result.now ≡ text_of_root_fault fault }
{
    match fault {
        27 => "a root's tree has no such profile",
        28 => "a root has over 4 levels",
        29 => "a root's pages aren't 1, 2, 4, 8 or 16, or end over frame 2^64",
        30 => "a range that is left out has no page, or ends over page 2^52",
        _ => "",
    }
}

/// From the faults of tables on.
fn table_fault_text(fault: u64) -> &'static str
    ensures { result.now ≡ text_of_table_fault fault }
{
    match fault {
        15 => "a page of tables hasn't 512 words",
        16 => "two pages have one frame",
        17 => "a root is of a tree that can't be",
        18 => "a tree has two roots",
        19 => "a frame of a root has no page",
        20 => "a table is below itself",
        21 => "a table is reached at two levels",
        22 => "a table is reached twice",
        23 => "a freedom that there is not",
        24 => "freedoms without that of own tables",
        25 => "CPUs that aren't 1 to 64",
        26 => "the carve-out has fewer frames than boot needs tables",
        _ => root_fault_text(fault),
    }
}

/// From the faults of lists on.
fn list_fault_text(fault: u64) -> &'static str
    ensures { result.now ≡ text_of_list_fault fault }
{
    match fault {
        7 => "an invalid number",
        8 => "a frame of the rows or a lent page is too large",
        9 => "two runs of rows share a frame",
        10 => "two slots, guests or CPUs have one number",
        11 => "a page, a frame or a slot is too large",
        12 => "two runs of one tree share a page",
        13 => "two tables of one tree are at one block, or have one frame",
        14 => "a pool has a frame twice",
        _ => table_fault_text(fault),
    }
}

/// The text of a fault, by its number; empty if no fault has it.
fn fault_text(fault: u64) -> &'static str
    ensures { result.now ≡ text_of_fault fault }
{
    match fault {
        1 => "address bits that are neither 39 nor 48",
        2 => "over 16 regions",
        3 => "a region or the carve-out has no page",
        4 => "a region ends over page 2^26, or there are over 524288 pages of memory",
        5 => "two regions share a page",
        6 => "the carve-out isn't in one memory region",
        _ => list_fault_text(fault),
    }
}

/// What a fault is called: 0, and the first `text_len` bytes of `text` are the words. Below 0 `text` stays: -2 it has fewer than
/// `text_len` bytes, which the words need; -3 no fault has the number.
#[unsafe(no_mangle)]
pub extern "C" fn pkvm_fault_text(fault: u64, text: &mut [u8], text_len: &mut usize) -> i32
    ensures { IsFaultReported fault text.old text.new text_len.new result }
{
    *text_len = 0;
    let told = fault_text(fault).as_bytes();
    let count = told.len();
    if count == 0 {
        return BAD_NUMBER;
    }
    *text_len = count;
    if count > text.len() {
        return NO_ROOM;
    }
    text[..count].copy_from_slice(told);
    0
}

//! The headers of an ELF core.
ghost use Rattle.std.specs.Prelude.{◌≡◌, ◌+◌, ◌≤◌, ◌<◌, ◌^◌, nat_lt, Err, IfOk, length};
ghost use Rattle.memory_image.specs.Pieces.{number16, number32, number64};
ghost use Rattle.memory_image.specs.CoreFile.{table_of, segment_of, begins_with, IsReachable};

use crate::refused::{Fault, Why};
use crate::segment::Segment;

/// Where the program headers begin in the file, and how many there are.
#[derive(Clone, Copy, PartialEq, Eq)]
pub struct Table {
    pub at: u64,
    pub headers: u64,
}

/// A number of two bytes.
#[tactic(auto, unfolding(crate::specs::Pieces::number16))]
fn number16_at(bytes: &[u8], at: usize) -> u64
    requires { at + 2 ≤ length bytes.now }
    ensures { result ≡ number16 bytes.now at }
{
    u16::from_le_bytes([bytes[at], bytes[at + 1]]) as u64
}

/// A number of four bytes.
#[tactic(auto, unfolding(crate::specs::Pieces::number32))]
fn number32_at(bytes: &[u8], at: usize) -> u64
    requires { at + 4 ≤ length bytes.now }
    ensures { result ≡ number32 bytes.now at }
{
    u32::from_le_bytes([bytes[at], bytes[at + 1], bytes[at + 2], bytes[at + 3]]) as u64
}

/// A number of eight bytes.
#[tactic(auto, unfolding(crate::specs::Pieces::number64))]
pub(crate) fn number64_at(bytes: &[u8], at: usize) -> u64
    requires { at + 8 ≤ length bytes.now }
    ensures { result ≡ number64 bytes.now at }
{
    u64::from_le_bytes([
        bytes[at],
        bytes[at + 1],
        bytes[at + 2],
        bytes[at + 3],
        bytes[at + 4],
        bytes[at + 5],
        bytes[at + 6],
        bytes[at + 7],
    ])
}

/// Whether bytes begin with these.
fn begins(bytes: &[u8], name: &[u8]) -> bool
    requires { length name.now ≤ length bytes.now }
    ensures { result ≡ begins_with bytes.now name.now }
{
    &bytes[..name.len()] == name
}

/// Whether a range ends past a limit.
pub(crate) fn ends_past(limit: u64, first: u64, count: u64) -> bool
    ensures { result ≡ nat_lt limit (first + count) }
{
    first > limit || limit - first < count
}

/// A fault at a place.
fn wrong(why: Why, at: u64) -> Result<Table, Fault>
    ensures { result ≡ Err (record { at = at; why = why }) }
{
    Err(Fault { at, why })
}

/// The place of the program headers in a file of `count` bytes, by its first 64.
pub(crate) fn table_in(count: u64, head: &[u8]) -> Result<Table, Fault>
    requires { length head.now ≡ 64 }
    ensures is { result ≡ table_of count head.now }
    ensures reachable { IfOk result (IsReachable count) }
{
    if begins(head, b"KDUMP   ") {
        return wrong(Why::KdumpCompressed, 0);
    }
    if begins(head, b"makedumpfile") {
        return wrong(Why::Flattened, 0);
    }
    if !begins(head, b"\x7fELF") {
        return wrong(Why::NotElf, 0);
    }
    if head[4] != 2 {
        return wrong(Why::NotElf64, 4);
    }
    if head[5] != 1 {
        return wrong(Why::NotLittleEndian, 5);
    }
    if number16_at(head, 16) != 4 {
        return wrong(Why::NotCore, 16);
    }
    if number16_at(head, 18) != 183 {
        return wrong(Why::OtherMachine, 18);
    }
    if number16_at(head, 54) != 56 {
        return wrong(Why::HeaderSize, 54);
    }
    let headers = number16_at(head, 56);
    if headers > 4096 {
        return wrong(Why::TooManyHeaders, 56);
    }
    let at = number64_at(head, 32);
    if ends_past(count, at, 56 * headers) {
        return wrong(Why::Truncated, 32);
    }
    Ok(Table { at, headers })
}

/// The segment of a program header: it is loaded, and the file has bytes of it.
pub(crate) fn segment_in(header: &[u8]) -> Option<Segment>
    requires { length header.now ≡ 56 }
    ensures { result ≡ segment_of header.now }
{
    if number32_at(header, 0) != 1 {
        return None;
    }
    let count = number64_at(header, 32);
    if count == 0 {
        return None;
    }
    Some(Segment {
        address: number64_at(header, 24),
        at: number64_at(header, 8),
        count,
    })
}

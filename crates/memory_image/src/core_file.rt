//! The segments of an image.
ghost use Rattle.std.specs.Prelude.{◌≡◌, ◌+◌, ◌≤◌, [], ◌∷◌, ◌++◌, All, None, IfOk, OnOk, length};
ghost use Rattle.std.specs.List.{list_any};
ghost use Rattle.memory_image.specs.CoreFile.{fault_of, shares_address, joined_by, segment_of, IsReachable, IsPlaced};
ghost use Rattle.memory_image.specs.Opened.{IsJoined, IsOpened, IsOpenedRaw, IsRead};

use crate::bytes::ImageBytes;
use crate::header::{Table, ends_past, segment_in, table_in};
use crate::refused::{Fault, Refused, Why};
use crate::segment::Segment;
use std::alloc::{AllocError, Global};

/// All addresses are below this one.
const LIMIT: u64 = 1 << 52;

/// Whether two segments share an address.
fn share_address(s: &Segment, t: &Segment) -> bool
    ensures { result ≡ shares_address s.now t.now }
{
    if s.address < t.address {
        t.address - s.address < s.count
    } else {
        s.address - t.address < t.count
    }
}

/// Whether a segment shares an address with one of these.
fn shares_with(before: &[Segment], segment: &Segment) -> bool
    ensures { result ≡ list_any (λ s. shares_address s segment.now) before.now }
{
    before.iter().any(|s| share_address(s, segment))
}

/// The fault of the segment of the program header at `place`, after those before it, in a file of `count` bytes.
fn fault_in(count: u64, before: &[Segment], place: u64, segment: &Segment) -> Option<Fault>
    requires { place + 56 ≤ count }
    ensures is { result ≡ fault_of count before.now place segment.now }
    ensures fitting { result ≡ None → segment.now.at + segment.now.count ≤ count }
{
    if ends_past(LIMIT, segment.address, segment.count) {
        return Some(Fault {
            at: place + 24,
            why: Why::PastLimit,
        });
    }
    if ends_past(count, segment.at, segment.count) {
        return Some(Fault {
            at: place + 8,
            why: Why::Truncated,
        });
    }
    if shares_with(before, segment) {
        return Some(Fault {
            at: place + 24,
            why: Why::Overlap,
        });
    }
    None
}

/// Adds a segment.
fn add(found: &mut Vec<Segment>, segment: Segment) -> Result<(), AllocError>
    ensures { OnOk result (found.new.items ≡ found.old.items ++ segment ∷ []) }
{
    found.push(segment)?;
    Ok(())
}

/// Adds the segment of the program header at `place`, if it has one, in a file of `count` bytes.
fn join(count: u64, found: &mut Vec<Segment>, place: u64, header: &[u8]) -> Result<(), Refused>
    requires header { length header.now ≡ 56 }
    requires place { place + 56 ≤ count }
    requires placed { All IsPlaced found.old.items }
    ensures joined { IsJoined
        (joined_by count found.old.items place (segment_of header.now)) found.new.items result }
    ensures placed { OnOk result (All IsPlaced found.new.items) }
{
    let Some(segment) = segment_in(header) else {
        return Ok(());
    };
    if let Some(fault) = fault_in(count, found.as_slice(), place, &segment) {
        return Err(Refused::Wrong(fault));
    }
    add(found, segment)?;
    Ok(())
}

/// Reads the program headers of a file of `count` bytes.
fn read_segments<I: ImageBytes>(
    alloc: Global,
    image: &I,
    count: u64,
    table: Table,
) -> Result<Vec<Segment>, Refused>
    requires { IsReachable count table }
    ensures read { IsRead (I.bytes image.now) (I.may_fail image.now) count table result }
    ensures placed { IfOk result (λ segments. All IsPlaced segments.items) }
{
    let mut found = Vec::new(alloc);
    for i in 0..table.headers {
        let place = table.at + 56 * i;
        let mut header = [0u8; 56];
        if image.fill(place, &mut header).is_err() {
            return Err(Refused::Unread { at: place });
        }
        match join(count, &mut found, place, &header) {
            Ok(()) => {}
            Err(refused) => return Err(refused),
        }
    }
    Ok(found)
}

/// The segments of an ELF core of physical memory, in the order of its program headers.
pub fn core_segments<I: ImageBytes>(alloc: Global, image: &I) -> Result<Vec<Segment>, Refused>
    ensures opened { IsOpened (I.bytes image.now) (I.may_fail image.now) result }
    ensures placed { IfOk result (λ segments. All IsPlaced segments.items) }
{
    let Ok(count) = image.count() else {
        return Err(Refused::Unread { at: 0 });
    };
    if count < 64 {
        return Err(Refused::Wrong(Fault {
            at: 0,
            why: Why::Truncated,
        }));
    }
    let mut head = [0u8; 64];
    if image.fill(0, &mut head).is_err() {
        return Err(Refused::Unread { at: 0 });
    }
    match table_in(count, &head) {
        Ok(table) => read_segments(alloc, image, count, table),
        Err(fault) => Err(Refused::Wrong(fault)),
    }
}

/// The one segment of a raw image: all its bytes, from the address `base` on.
pub fn raw_segments<I: ImageBytes>(
    alloc: Global,
    image: &I,
    base: u64,
) -> Result<Vec<Segment>, Refused>
    ensures opened { IsOpenedRaw (I.bytes image.now) (I.may_fail image.now) base result }
    ensures placed { IfOk result (λ segments. All IsPlaced segments.items) }
{
    let Ok(count) = image.count() else {
        return Err(Refused::Unread { at: 0 });
    };
    if ends_past(LIMIT, base, count) {
        return Err(Refused::Wrong(Fault {
            at: 0,
            why: Why::PastLimit,
        }));
    }
    let mut found = Vec::new(alloc);
    let all = Segment {
        address: base,
        at: 0,
        count,
    };
    add(&mut found, all)?;
    Ok(found)
}

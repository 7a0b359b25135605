//! Pages of an image.
ghost use Rattle.std.specs.Prelude.{◌≡◌, ◌<◌, ◌^◌, All, IfOk, find, length};
ghost use Rattle.std.specs.Option.{ForSome};
ghost use Rattle.memory_image.specs.Pages.{has_page, place_of, words_in, IsPageRead};
ghost use Rattle.memory_image.specs.CoreFile.{IsPlaced};

use crate::bytes::ImageBytes;
use crate::header::number64_at;
use crate::refused::Refused;
use crate::segment::Segment;
use std::alloc::{AllocError, Global};

/// Frames are below this one, as addresses are below 2^52.
const FRAMES: u64 = 1 << 40;

/// Room for the bytes of a page.
pub fn page_buffer(alloc: Global) -> Result<Vec<u8>, AllocError>
    ensures { IfOk result (λ buffer. length buffer.items ≡ 4096) }
{
    vec![in alloc; 0; 4096]
}

/// Whether a segment has all of the page at an address.
fn has_page_at(segment: &Segment, first: u64) -> bool
    ensures { result ≡ has_page first segment.now }
{
    segment.address <= first && segment.count.saturating_sub(first - segment.address) >= 4096
}

/// The first segment that has all of the page at an address.
fn segment_with(segments: &[Segment], first: u64) -> Option<Segment>
    ensures { result ≡ find (has_page first) segments.now }
{
    segments.iter().copied().find(|s| has_page_at(s, first))
}

/// Where the bytes of a frame's page begin in the file.
fn place_in(segments: &[Segment], frame: u64) -> Option<u64>
    requires { All IsPlaced segments.now }
    ensures { result ≡ place_of segments.now frame }
{
    if frame >= FRAMES {
        return None;
    }
    match segment_with(segments, frame * 4096) {
        Some(segment) => Some(segment.at + (frame * 4096 - segment.address)),
        None => None,
    }
}

/// The words of a page.
fn words_of_page(alloc: Global, page: &[u8]) -> Result<Vec<u64>, AllocError>
    requires { length page.now ≡ 4096 }
    ensures words { IfOk result (λ words. words.items ≡ words_in page.now 512) }
    ensures whole { IfOk result (λ words. length words.items ≡ 512) }
{
    let mut words = Vec::new(alloc);
    for i in 0..512usize {
        words.push(number64_at(page, 8 * i))?;
    }
    Ok(words)
}

/// The words of a frame's page. None if no segment has all of it. The buffer is used for its bytes.
pub fn read_page<I: ImageBytes>(
    alloc: Global,
    image: &I,
    segments: &[Segment],
    frame: u64,
    buffer: &mut [u8],
) -> Result<Option<Vec<u64>>, Refused>
    requires placed { All IsPlaced segments.now }
    requires room { length buffer.old ≡ 4096 }
    ensures read { IsPageRead (I.bytes image.now) (I.may_fail image.now) segments.now frame result }
    ensures whole { IfOk result (λ page. ForSome page (λ words. length words.items ≡ 512)) }
{
    let Some(at) = place_in(segments, frame) else {
        return Ok(None);
    };
    if image.fill(at, buffer).is_err() {
        return Err(Refused::Unread { at });
    }
    let words = words_of_page(alloc, buffer)?;
    Ok(Some(words))
}

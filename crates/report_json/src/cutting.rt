//! Cutting a line at a text.
ghost use Rattle.std.specs.Prelude.{◌≡◌, option_map};
ghost use Rattle.report_json.specs.Forms.{cut as cut_at};

use memchr::memmem;

/// The bytes before the first place of `stop`, and those after it. All bytes if it is empty, None if it has no place.
#[tactic(auto, using(crate::proofs::Parts::cut_all, crate::proofs::Parts::cut_by))]
pub fn cut<'a>(bytes: &'a [u8], stop: &[u8]) -> Option<(&'a [u8], &'a [u8])>
    ensures { option_map (λ parts. (parts.0.now, parts.1.now)) result ≡ cut_at stop.now bytes.now }
{
    if stop.is_empty() {
        return Some((bytes, &bytes[bytes.len()..]));
    }
    let place = memmem::find(bytes, stop)?;
    Some((
        bytes.split_at(place).0,
        bytes.split_at(place + stop.len()).1,
    ))
}

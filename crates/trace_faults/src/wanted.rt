//! What was expected of lines, in words.
ghost use Rattle.std.specs.Prelude.{◌≡◌};
ghost use Rattle.trace_faults.specs.Wanted.{is_header as is_header_by, place_wanted as place_wanted_by, unknown_place as unknown_place_by, unknown_wanted as unknown_wanted_by};

use trace_words::is_name;

/// The place of the word that is unknown or missing in a line that asks for nothing, by its first word.
pub(crate) fn unknown_place(first: &[u8]) -> usize
    ensures { result ≡ unknown_place_by first.now }
{
    if matches!(first, [b'0'..=b'9', ..])
        || is_name(first, b"word")
        || is_name(first, b"free")
        || is_name(first, b"show")
        || is_name(first, b"poke")
    {
        1
    } else {
        0
    }
}

/// What is expected at that place.
pub(crate) fn unknown_wanted(first: &[u8]) -> &'static [u8]
    ensures { result.now ≡ unknown_wanted_by first.now }
{
    if matches!(first, [b'0'..=b'9', ..]) {
        return b"a call";
    }
    if is_name(first, b"free") {
        return b"shared or guest";
    }
    if is_name(first, b"word") || is_name(first, b"show") || is_name(first, b"poke") {
        return b"host, hyp or guest";
    }
    b"a setting, boot, start, a query or a CPU"
}

/// Whether a word begins a setting.
fn is_header(first: &[u8]) -> bool
    ensures { result ≡ is_header_by first.now }
{
    is_name(first, b"geometry")
        || is_name(first, b"cpus")
        || is_name(first, b"log")
        || is_name(first, b"memory")
        || is_name(first, b"device")
        || is_name(first, b"carve")
}

/// The expected place of a line that may not be where it is. `booted`: a line before it is `boot`.
pub(crate) fn place_wanted(first: &[u8], booted: bool) -> &'static [u8]
    ensures { result.now ≡ place_wanted_by first.now booted }
{
    if is_header(first) {
        return if booted {
            b"settings before boot"
        } else {
            b"each setting once"
        };
    }
    if is_name(first, b"boot") {
        return if booted {
            b"one boot"
        } else {
            b"carve before boot"
        };
    }
    if !booted {
        return b"boot before it";
    }
    if is_name(first, b"start") {
        return b"one start";
    }
    if is_name(first, b"poke") {
        return b"no poke but under audit";
    }
    b"pokes alone after a poke, and no query under race"
}

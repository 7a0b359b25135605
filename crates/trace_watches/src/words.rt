//! Lines of a trace, by their first bytes and by their words.
ghost use Rattle.std.specs.Prelude.{◌≡◌, drop, map};
ghost use Rattle.std.specs.List.{list_any};
ghost use Rattle.trace_cases.specs.Ways.{has_poke as has_poke_by, is_poke as is_poke_line, is_start as is_start_line};
ghost use Rattle.trace_watches.specs.Watched.{are_same as are_same_by, is_of_cpu as is_of_cpu_by, is_step as is_step_line};
ghost use Rattle.trace_watches.specs.Watches.{is_boot as is_boot_line, is_marked as is_marked_line, word_at as word_at_place};

use trace_words::{Words, is_name, number};

/// Whether a line begins as a watch does.
pub(crate) fn is_marked(line: &[u8]) -> bool
    ensures { result ≡ is_marked_line line.now }
{
    line.starts_with(b"#!")
}

pub(crate) fn is_boot(line: &[u8]) -> bool
    ensures { result ≡ is_boot_line line.now }
{
    is_name(line, b"boot")
}

/// Whether a line is a step line, which begins with a digit.
pub(crate) fn is_step(line: &[u8]) -> bool
    ensures { result ≡ is_step_line line.now }
{
    matches!(line, [b'0'..=b'9', ..])
}

fn is_poke(line: &[u8]) -> bool
    ensures { result ≡ is_poke_line line.now }
{
    line.starts_with(b"poke")
}

fn is_start(line: &[u8]) -> bool
    ensures { result ≡ is_start_line line.now }
{
    line.starts_with(b"start")
}

/// Whether one of these lines begins as a poke does.
pub(crate) fn has_poke(lines: &[&[u8]]) -> bool
    ensures { result ≡ has_poke_by (map (λ line. line.now) lines.now) }
{
    for line in lines {
        if is_poke(line) {
            return true;
        }
    }
    false
}

/// Whether one of these lines begins as `start` does.
pub(crate) fn has_start(lines: &[&[u8]]) -> bool
    ensures { result ≡ list_any is_start_line (map (λ line. line.now) lines.now) }
{
    for line in lines {
        if is_start(line) {
            return true;
        }
    }
    false
}

/// The word at a place of a line; without a byte if there is none.
pub(crate) fn word_at(line: &[u8], place: usize) -> &[u8]
    ensures { result.now ≡ word_at_place line.now place }
{
    Words::of(line).get(place).unwrap_or(b"")
}

/// The bytes behind this many.
pub(crate) fn behind(bytes: &[u8], count: usize) -> &[u8]
    ensures { result.now ≡ drop count bytes.now }
{
    if bytes.len() < count {
        b""
    } else {
        &bytes[count..]
    }
}

fn are_same(one: Option<u64>, other: Option<u64>) -> bool
    ensures { result ≡ are_same_by one other }
{
    match one {
        Some(one) => match other {
            Some(other) => one == other,
            None => false,
        },
        None => false,
    }
}

/// Whether a line is a step of the CPU of another step line.
pub(crate) fn is_of_cpu(step: &[u8], line: &[u8]) -> bool
    ensures { result ≡ is_of_cpu_by step.now line.now }
{
    is_step(line) && are_same(number(word_at(step, 0)), number(word_at(line, 0)))
}

//! Comments that say what a line should report.
ghost use Rattle.std.specs.Prelude.{◌≡◌, is_some, option_copied};
ghost use Rattle.trace_check.specs.Expectations.{expectation as expectation_in, is_marked as is_marked_line, is_mistaken as is_mistaken_line, leads_to_mark};

use trace_reader::MOST_BYTES;
use trace_words::{has_stray_byte, is_name};

/// What a line expects: None of a line that is no expectation. One of over 256 bytes, or with a byte that no line may have,
/// is none: it is a fault.
#[tactic(auto, unfolding(crate::specs::Expectations::expectation))]
pub fn expectation(line: &[u8]) -> Option<&[u8]>
    ensures { option_copied result ≡ expectation_in line.now }
{
    if line.len() > MOST_BYTES {
        return None;
    }
    if line.len() < 3 {
        return None;
    }
    if has_stray_byte(line) {
        return None;
    }
    if !is_name(&line[..3], b"#= ") {
        return None;
    }
    Some(&line[3..])
}

/// Whether a line is a comment that resembles an expectation but is none: after `#` and any number of spaces comes `=`.
/// One of over 256 bytes, or with a byte that no line may have, is a fault of every run, and not reported here.
pub(crate) fn is_mistaken(line: &[u8]) -> bool
    ensures { result ≡ is_mistaken_line line.now }
{
    if line.len() > MOST_BYTES {
        return false;
    }
    if has_stray_byte(line) {
        return false;
    }
    is_marked(line) && !is_expectation(line)
}

/// Whether a line is a comment that begins with `=`, after any number of spaces.
fn is_marked(line: &[u8]) -> bool
    ensures { result ≡ is_marked_line line.now }
{
    match line {
        [b'#', rest @ ..] => leads_to(rest),
        _ => false,
    }
}

/// Whether the first byte that is no space is `=`.
fn leads_to(rest: &[u8]) -> bool
    ensures { result ≡ leads_to_mark rest.now }
{
    for byte in rest {
        if *byte != b' ' {
            return *byte == b'=';
        }
    }
    false
}

/// Whether a line is an expectation.
pub(crate) fn is_expectation(line: &[u8]) -> bool
    ensures { result ≡ is_some (expectation_in line.now) }
{
    expectation(line).is_some()
}

//! The expectations of a trace.
ghost use Rattle.std.specs.Prelude.{◌≡◌, ◌≤◌, IfOk, length, map};
ghost use Rattle.trace_check.specs.Expectations.{count_expected as count_expected_in, count_mistaken as count_mistaken_in, expected_first as expected_first_in};

use crate::comment::{expectation, is_expectation, is_mistaken};
use std::alloc::{AllocError, Global};

/// What the expectations at the front of lines expect.
pub(crate) fn expected_first<'a>(
    global: Global,
    lines: &[&'a [u8]],
) -> Result<Vec<&'a [u8]>, AllocError>
    ensures texts { IfOk result
        (λ texts. map (λ text. text.now) texts.items
        ≡ expected_first_in (map (λ line. line.now) lines.now)) }
    ensures few { IfOk result (λ texts. length texts.items ≤ length lines.now) }
{
    let mut texts = Vec::new(global);
    for line in lines {
        match expectation(line) {
            Some(text) => texts.push(text)?,
            None => return Ok(texts),
        }
    }
    Ok(texts)
}

/// How many lines are expectations.
pub fn count_expected(lines: &[&[u8]]) -> usize
    ensures { result ≡ count_expected_in (map (λ line. line.now) lines.now) }
{
    lines.iter().filter(|line| is_expectation(line)).count()
}

/// How many lines are comments like an expectation, and none.
pub(crate) fn count_mistaken(lines: &[&[u8]]) -> usize
    ensures { result ≡ count_mistaken_in (map (λ line. line.now) lines.now) }
{
    lines.iter().filter(|line| is_mistaken(line)).count()
}

//! A disagreement as text.
ghost use Rattle.std.specs.Prelude.{◌≡◌, ◌<◌, ◌≤◌, IfOk, OnErr, drop, length, take};
ghost use Rattle.ghost_judge.specs.Texts.{text_of_judgement};

use ghost_judge::disagreement::Disagreement;
use ghost_judge::text::Judgement;
use std::alloc::{AllocError, Global};

/// Writes a judgement's finding into the front of `text`, if that has room for all of it, and returns its length in bytes.
pub fn write_judgement(
    alloc: Global,
    found: Disagreement,
    text: &mut [u8],
) -> Result<usize, AllocError>
    ensures count { IfOk result (λ n. n ≡ length (text_of_judgement found)) }
    ensures written { IfOk result (λ n. n ≤ length text.old → take n text.new ≡ text_of_judgement found) }
    ensures behind { IfOk result (λ n. n ≤ length text.old → drop n text.new ≡ drop n text.old) }
    ensures no_room { IfOk result (λ n. length text.old < n → text.new ≡ text.old) }
    ensures err { OnErr result (text.new ≡ text.old) }
{
    let judgement = Judgement(found);
    let told = format!(in alloc; "{judgement}")?;
    let bytes = told.as_bytes();
    let count = bytes.len();
    if count <= text.len() {
        text[..count].copy_from_slice(bytes);
    }
    Ok(count)
}

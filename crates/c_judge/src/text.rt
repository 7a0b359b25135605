//! Findings as text.
ghost use Rattle.std.specs.Prelude.{◌≡◌, ◌<◌, ◌≤◌, IfOk, OnErr, Some, drop, length, take};
ghost use Rattle.c_judge.specs.Texts.{text_of_found};

use crate::found::Found;
use ghost_judge::text::Judgement;
use std::alloc::{AllocError, Global};
use std::fmt;

/// What a judgement finds, to be written.
#[derive(Clone, Copy)]
struct Told(Found);

impl fmt::Display for Told {
    ghost output = { λ told. Some (text_of_found told.0) };

    fn fmt<W: fmt::Write>(&self, f: &mut fmt::Formatter<W>) -> fmt::Result {
        match self.0 {
            Found::Differs(d) => {
                let d = Judgement(d);
                write!(f, "{d}")
            }
            Found::Refusal { number, spec } => {
                write!(f, "disagree reply said {number} spec {spec}")
            }
            Found::Stopped { spec } => write!(f, "disagree reply said stopped spec {spec}"),
        }
    }
}

/// Writes a finding into the front of `text`, if that has room for all of it, and returns its length in bytes.
pub fn write_found(alloc: Global, found: Found, text: &mut [u8]) -> Result<usize, AllocError>
    ensures count { IfOk result (λ n. n ≡ length (text_of_found found)) }
    ensures written { IfOk result (λ n. n ≤ length text.old → take n text.new ≡ text_of_found found) }
    ensures behind { IfOk result (λ n. n ≤ length text.old → drop n text.new ≡ drop n text.old) }
    ensures no_room { IfOk result (λ n. length text.old < n → text.new ≡ text.old) }
    ensures err { OnErr result (text.new ≡ text.old) }
{
    let told = Told(found);
    let told = format!(in alloc; "{told}")?;
    let bytes = told.as_bytes();
    let count = bytes.len();
    if count <= text.len() {
        text[..count].copy_from_slice(bytes);
    }
    Ok(count)
}

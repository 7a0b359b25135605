//! What a line of a trace says.
ghost use Rattle.std.specs.Prelude.{◌≡◌, IfOk, IfSome};
ghost use Rattle.trace_lines.specs.Places.{IsAllowed};
ghost use Rattle.trace_lines.specs.Said.{said as said_by, said_by_words as said_by_all_words};
ghost use Rattle.trace_lines.specs.Settings.{told_of};
ghost use Rattle.trace_words.specs.Words.{is_silent as is_silent_line};

use crate::asked::Asked;
use crate::fault::LineFault;
use crate::line::Line;
use crate::place::{Allows, may_stand};
use crate::settings::Settings;
use trace_reader::MOST_BYTES;
use trace_words::{Words, has_stray_byte};

/// The meaning of a line after the settings so far, if the program allows these lines: nothing, a line, or its first
/// fault.
#[tactic(auto, unfolding(crate::specs::Said::said))]
pub fn said(allows: Allows, settings: &Settings, line: &[u8]) -> Result<Option<Line>, LineFault>
    ensures value { result ≡ said_by allows (told_of settings.now) line.now }
    ensures allowed { IfOk result (λ said. IfSome said (IsAllowed allows)) }
{
    if line.len() > MOST_BYTES {
        return Err(LineFault::Long);
    }
    if has_stray_byte(line) {
        return Err(LineFault::Byte);
    }
    if is_silent(line) {
        return Ok(None);
    }
    let words = Words::of(line);
    if words.has_empty() {
        return Err(LineFault::Space);
    }
    said_by_words(allows, settings, &words)
}

/// An empty line, and one that begins with `#`.
fn is_silent(line: &[u8]) -> bool
    ensures { result ≡ is_silent_line line.now }
{
    matches!(line, [] | [b'#', ..])
}

fn said_by_words(
    allows: Allows,
    settings: &Settings,
    words: &Words<'_>,
) -> Result<Option<Line>, LineFault>
    ensures { result ≡ said_by_all_words allows (told_of settings.now) words.now }
{
    let asked = Asked::of(words).ok_or(LineFault::Word)?;
    if !may_stand(allows, settings, asked.verb) {
        return Err(LineFault::Place);
    }
    if words.count() != asked.words {
        return Err(LineFault::Count);
    }
    let line = asked.line.ok_or(LineFault::Form)?;
    Ok(Some(line))
}

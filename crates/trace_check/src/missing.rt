//! What is missed of the expectations of a trace.
ghost use Rattle.std.specs.Prelude.{◌≡◌, ◌+◌, ◌<◌, ◌≤◌, ◌^◌, ◌∷◌, [], ◌++◌, IfOk, OnOk, codes, drop, length, map, option_copied, option_map, string_bytes, if◌then◌else◌};
ghost use Rattle.trace_check.specs.Misses.{
  against as against_by,
  early as early_by,
  extra as extra_by,
  extra_words,
  is_nothing as is_nothing_by,
  left as left_by,
  left_at as left_at_by,
  missed as missed_by_all,
  missed_at as missed_at_by,
  missed_by as missed_by_line,
  misses as misses_by,
  other_at as other_at_by,
  other_words,
  rest_missed as rest_by,
  unexpected as unexpected_by,
  unexpected_at as unexpected_at_by,
  unmet as unmet_by,
  unmet_at as unmet_at_by,
  unmet_words,
  unreached as unreached_by,
};
ghost use Rattle.trace_check.specs.Shown.{shown as shown_by};
ghost use Rattle.trace_words.specs.Words.{is_silent as is_silent_line};
ghost use Rattle.trace_check.specs.View.{AddsMisses, misses_in, told_in};

use crate::comment::{expectation, is_expectation};
use crate::expecting::expected_first;
use crate::shown::{is_plain, shown, shown_all};
use std::alloc::{AllocError, Global};
use trace_text::ReportLine;

/// Something that isn't as expected.
#[derive(Drop)]
pub struct Miss {
    /// The number of its line.
    pub line: u64,
    /// What is wrong there.
    pub said: Vec<u8>,
}

/// All misses of a trace, by the lines that were carried out.
#[tactic(auto, unfolding(crate::specs::Misses::misses))]
pub fn misses(
    global: Global,
    lines: &[&[u8]],
    told: &[Vec<ReportLine>],
) -> Result<Vec<Miss>, AllocError>
    requires { length told.now ≤ length lines.now }
    ensures { IfOk result
        (λ found. misses_in found.items
        ≡ misses_by (map (λ line. line.now) lines.now) (told_in told.now)) }
{
    let mut found = Vec::new(global);
    add_early(global, &mut found, lines)?;
    add_missed(global, &mut found, lines, told)?;
    add_rest(global, &mut found, lines, told)?;
    Ok(found)
}

/// The misses of the lines that weren't reached.
fn add_rest(
    global: Global,
    found: &mut Vec<Miss>,
    lines: &[&[u8]],
    told: &[Vec<ReportLine>],
) -> Result<(), AllocError>
    requires { length told.now ≤ length lines.now }
    ensures { OnOk result
        (AddsMisses found.old found.new
        (rest_by (map (λ line. line.now) lines.now) (told_in told.now))) }
{
    let count = told.len();
    add_unreached(global, found, count as u64, &lines[count..])?;
    Ok(())
}

/// The expectations before the first line.
fn add_early(global: Global, found: &mut Vec<Miss>, lines: &[&[u8]]) -> Result<(), AllocError>
    ensures { OnOk result (AddsMisses found.old found.new (early_by (map (λ line. line.now) lines.now))) }
{
    let texts = expected_first(global, lines)?;
    add_unmet(
        global,
        found,
        0,
        b"there is no line to check",
        &[],
        texts.as_slice(),
    )
}

/// The misses of the lines that were carried out.
fn add_missed(
    global: Global,
    found: &mut Vec<Miss>,
    lines: &[&[u8]],
    told: &[Vec<ReportLine>],
) -> Result<(), AllocError>
    requires { length told.now ≤ length lines.now }
    ensures { OnOk result
        (AddsMisses found.old found.new
        (missed_by_all 1 (map (λ line. line.now) lines.now) (told_in told.now))) }
{
    for (place, reported) in told.iter().enumerate() {
        let number = place as u64 + 1;
        add_missed_at(
            global,
            found,
            number,
            lines[place],
            reported.as_slice(),
            &lines[place + 1..],
        )?;
    }
    Ok(())
}

/// Those of a line.
fn add_missed_at(
    global: Global,
    found: &mut Vec<Miss>,
    number: u64,
    line: &[u8],
    reported: &[ReportLine],
    rest: &[&[u8]],
) -> Result<(), AllocError>
    requires { number + length rest.now < 2 ^ 64 }
    ensures { OnOk result
        (AddsMisses found.old found.new
        (missed_at_by number line.now reported.now (map (λ line. line.now) rest.now))) }
{
    if is_expectation(line) {
        return add_unexpected(global, found, number, reported);
    }
    let texts = expected_first(global, rest)?;
    add_missed_by(global, found, number, line, reported, texts.as_slice())
}

/// Those of a line that is no expectation, by the expectations after it.
fn add_missed_by(
    global: Global,
    found: &mut Vec<Miss>,
    number: u64,
    line: &[u8],
    reported: &[ReportLine],
    texts: &[&[u8]],
) -> Result<(), AllocError>
    requires { number + length texts.now < 2 ^ 64 }
    ensures { OnOk result
        (AddsMisses found.old found.new
        (missed_by_line number line.now reported.now (map (λ text. text.now) texts.now))) }
{
    if texts.is_empty() {
        return add_unexpected(global, found, number, reported);
    }
    if is_nothing(line, reported) {
        return add_unmet(
            global,
            found,
            number,
            b"there is no line to check",
            &[],
            texts,
        );
    }
    let got = shown_all(global, reported)?;
    add_against(global, found, number, got.as_slice(), texts)
}

/// What a line reported, against the expectations after it.
fn add_against(
    global: Global,
    found: &mut Vec<Miss>,
    number: u64,
    got: &[String],
    texts: &[&[u8]],
) -> Result<(), AllocError>
    requires { number + length texts.now < 2 ^ 64 }
    ensures { OnOk result
        (AddsMisses found.old found.new
        (against_by number (map string_bytes got.now) (map (λ text. text.now) texts.now))) }
{
    add_unmet(global, found, number, b"got no more", got, texts)?;
    add_past(global, found, number, got, texts.len())?;
    Ok(())
}

/// What was reported past as many texts as were expected.
fn add_past(
    global: Global,
    found: &mut Vec<Miss>,
    number: u64,
    got: &[String],
    count: usize,
) -> Result<(), AllocError>
    ensures { OnOk result
        (AddsMisses found.old found.new
        (extra_by number (drop count (map string_bytes got.now)))) }
{
    if got.len() <= count {
        return Ok(());
    }
    add_extra(global, found, number, &got[count..])?;
    Ok(())
}

/// Whether a line says nothing and has no fault.
fn is_nothing(line: &[u8], reported: &[ReportLine]) -> bool
    ensures { result ≡ is_nothing_by line.now reported.now }
{
    if !reported.is_empty() {
        return false;
    }
    is_silent(line)
}

/// An empty line, and one that begins with `#`.
fn is_silent(line: &[u8]) -> bool
    ensures { result ≡ is_silent_line line.now }
{
    matches!(line, [] | [b'#', ..])
}

/// Expectations on the lines after that of a number, of texts that were reported.
fn add_unmet(
    global: Global,
    found: &mut Vec<Miss>,
    number: u64,
    why: &[u8],
    got: &[String],
    texts: &[&[u8]],
) -> Result<(), AllocError>
    requires { number + length texts.now < 2 ^ 64 }
    ensures { OnOk result
        (AddsMisses found.old found.new
        (unmet_by (number + 1) why.now (map string_bytes got.now)
        (map (λ text. text.now) texts.now))) }
{
    for (place, text) in texts.iter().enumerate() {
        let at = number + place as u64 + 1;
        add_unmet_at(global, found, at, why, got.get(place), text)?;
    }
    Ok(())
}

/// One of them.
fn add_unmet_at(
    global: Global,
    found: &mut Vec<Miss>,
    number: u64,
    why: &[u8],
    got: Option<&String>,
    text: &[u8],
) -> Result<(), AllocError>
    ensures { OnOk result
        (AddsMisses found.old found.new
        (unmet_at_by number why.now
        (option_map string_bytes (option_copied got.entry)) text.now)) }
{
    match got {
        Some(got) => add_other(global, found, number, got, text),
        None => add_expected(global, found, number, text, why),
    }
}

/// An expectation, and why it isn't met.
fn add_expected(
    global: Global,
    found: &mut Vec<Miss>,
    number: u64,
    text: &[u8],
    why: &[u8],
) -> Result<(), AllocError>
    ensures { OnOk result (AddsMisses found.old found.new ((number, unmet_words text.now why.now) ∷ [])) }
{
    add(found, number, unmet_text(global, text, why)?)
}

/// A text that was reported in place of the expected one.
fn add_other(
    global: Global,
    found: &mut Vec<Miss>,
    number: u64,
    got: &String,
    text: &[u8],
) -> Result<(), AllocError>
    ensures { OnOk result
        (AddsMisses found.old found.new (other_at_by number (string_bytes got.now) text.now)) }
{
    if got.as_bytes() == text {
        return Ok(());
    }
    add(found, number, other_text(global, text, got.as_bytes())?)
}

/// Texts that were reported past the last that was expected.
fn add_extra(
    global: Global,
    found: &mut Vec<Miss>,
    number: u64,
    got: &[String],
) -> Result<(), AllocError>
    ensures { OnOk result (AddsMisses found.old found.new (extra_by number (map string_bytes got.now))) }
{
    for text in got {
        add_extra_at(global, found, number, text.as_bytes())?;
    }
    Ok(())
}

fn add_extra_at(
    global: Global,
    found: &mut Vec<Miss>,
    number: u64,
    got: &[u8],
) -> Result<(), AllocError>
    ensures { OnOk result (AddsMisses found.old found.new ((number, extra_words got.now) ∷ [])) }
{
    add(found, number, extra_text(global, got)?)
}

/// Faults and disagreements of a line that expects nothing.
fn add_unexpected(
    global: Global,
    found: &mut Vec<Miss>,
    number: u64,
    reported: &[ReportLine],
) -> Result<(), AllocError>
    ensures { OnOk result (AddsMisses found.old found.new (unexpected_by number reported.now)) }
{
    for told in reported {
        add_unexpected_at(global, found, number, *told)?;
    }
    Ok(())
}

fn add_unexpected_at(
    global: Global,
    found: &mut Vec<Miss>,
    number: u64,
    told: ReportLine,
) -> Result<(), AllocError>
    ensures { OnOk result (AddsMisses found.old found.new (unexpected_at_by number told)) }
{
    if is_plain(told) {
        return Ok(());
    }
    add(found, number, unexpected_text(global, told)?)
}

/// The lines after the one that ended the run, whose number is given.
fn add_unreached(
    global: Global,
    found: &mut Vec<Miss>,
    number: u64,
    lines: &[&[u8]],
) -> Result<(), AllocError>
    requires { number + length lines.now < 2 ^ 64 }
    ensures { OnOk result
        (AddsMisses found.old found.new
        (unreached_by (number + 1) (map (λ line. line.now) lines.now))) }
{
    for (place, line) in lines.iter().enumerate() {
        if !is_expectation(line) {
            return add_left(global, found, number + place as u64, &lines[place..]);
        }
    }
    Ok(())
}

/// Lines after that of a number, which weren't reached.
fn add_left(
    global: Global,
    found: &mut Vec<Miss>,
    number: u64,
    lines: &[&[u8]],
) -> Result<(), AllocError>
    requires { number + length lines.now < 2 ^ 64 }
    ensures { OnOk result
        (AddsMisses found.old found.new
        (left_by (number + 1) (map (λ line. line.now) lines.now))) }
{
    for (place, line) in lines.iter().enumerate() {
        add_left_at(global, found, number + place as u64 + 1, line)?;
    }
    Ok(())
}

fn add_left_at(
    global: Global,
    found: &mut Vec<Miss>,
    number: u64,
    line: &[u8],
) -> Result<(), AllocError>
    ensures { OnOk result (AddsMisses found.old found.new (left_at_by number line.now)) }
{
    match expectation(line) {
        Some(text) => add_expected(global, found, number, text, b"not reached"),
        None => add_unsilent(global, found, number, line),
    }
}

fn add_not_reached(global: Global, found: &mut Vec<Miss>, number: u64) -> Result<(), AllocError>
    ensures { OnOk result (AddsMisses found.old found.new ((number, codes "not reached") ∷ [])) }
{
    add(found, number, not_reached(global)?)
}

fn not_reached(global: Global) -> Result<Vec<u8>, AllocError>
    ensures { IfOk result (λ said. said.items ≡ codes "not reached") }
{
    Vec::from_slice(global, b"not reached")
}

/// A line that wasn't reached and is no expectation.
fn add_unsilent(
    global: Global,
    found: &mut Vec<Miss>,
    number: u64,
    line: &[u8],
) -> Result<(), AllocError>
    ensures { OnOk result
        (AddsMisses found.old found.new
        (if is_silent_line line.now then [] else (number, codes "not reached") ∷ [])) }
{
    if is_silent(line) {
        return Ok(());
    }
    add_not_reached(global, found, number)
}

fn add(found: &mut Vec<Miss>, line: u64, said: Vec<u8>) -> Result<(), AllocError>
    ensures { OnOk result (AddsMisses found.old found.new ((line, said.items) ∷ [])) }
{
    found.push(Miss { line, said })?;
    Ok(())
}

fn other_text(global: Global, text: &[u8], got: &[u8]) -> Result<Vec<u8>, AllocError>
    ensures { IfOk result (λ said. said.items ≡ other_words text.now got.now) }
{
    let mut said = Vec::from_slice(global, b"expected ")?;
    said.extend_from_slice(text)?;
    said.extend_from_slice(b", got ")?;
    said.extend_from_slice(got)?;
    Ok(said)
}

fn extra_text(global: Global, got: &[u8]) -> Result<Vec<u8>, AllocError>
    ensures { IfOk result (λ said. said.items ≡ extra_words got.now) }
{
    let mut said = Vec::from_slice(global, b"got ")?;
    said.extend_from_slice(got)?;
    said.extend_from_slice(b", expected no more")?;
    Ok(said)
}

fn unmet_text(global: Global, text: &[u8], why: &[u8]) -> Result<Vec<u8>, AllocError>
    ensures { IfOk result (λ said. said.items ≡ unmet_words text.now why.now) }
{
    let mut said = Vec::from_slice(global, b"expected ")?;
    said.extend_from_slice(text)?;
    said.extend_from_slice(b", ")?;
    said.extend_from_slice(why)?;
    Ok(said)
}

fn unexpected_text(global: Global, told: ReportLine) -> Result<Vec<u8>, AllocError>
    ensures { IfOk result (λ said. said.items ≡ codes "unexpected " ++ shown_by told) }
{
    let mut said = Vec::from_slice(global, b"unexpected ")?;
    let text = shown(global, told)?;
    said.extend_from_slice(text.as_bytes())?;
    Ok(said)
}

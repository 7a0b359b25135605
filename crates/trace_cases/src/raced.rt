//! The expectations of steps that may be made in any order.
ghost use Rattle.std.specs.Prelude.{◌≡◌, ◌<◌, ◌≤◌, ◌++◌, ◌∷◌, [], IfOk, IfSome, OnOk, length, map, option_copied, codes};
ghost use Rattle.trace_cases.specs.Races.{expected_behind as expected_behind_by, is_step_line as is_step_line_by, missed_from, never_at, never_missed, order_words, other_missed, others_missed, plain as plain_by, plain_at as plain_at_by, race_misses as race_misses_by, step_missed, text_missed};
ghost use Rattle.trace_check.specs.Misses.{other_words};
ghost use Rattle.trace_check.specs.View.{AddsMisses, misses_in, told_in};

use crate::kinds::{is_open, kinds};
use race_outcomes::Outcome;
use std::alloc::{AllocError, Global};
use trace_check::{Miss, expectation, misses};
use trace_outcomes::{add_places, is_among, kinds_at, text_at};
use trace_race::Asked;
use trace_text::ReportLine;

/// All misses of lines that report this, of whose steps after `start` these are all outcomes.
pub(crate) fn race_misses(
    global: Global,
    lines: &[&[u8]],
    told: &[Vec<ReportLine>],
    steps: &[Asked],
    found: &[Outcome],
) -> Result<Vec<Miss>, AllocError>
    requires { length told.now ≤ length lines.now }
    ensures { IfOk result
        (λ missed. misses_in missed.items
        ≡ race_misses_by (map (λ line. line.now) lines.now)
        (told_in told.now) steps.now found.now) }
{
    let plain = plain(global, steps, lines)?;
    let mut missed = misses(global, plain.as_slice(), told)?;
    add_raced(global, &mut missed, lines, steps, found)?;
    Ok(missed)
}

/// Lines, of which an expectation of one of these steps is only a comment.
fn plain<'a>(
    global: Global,
    steps: &[Asked],
    lines: &[&'a [u8]],
) -> Result<Vec<&'a [u8]>, AllocError>
    ensures plain { IfOk result
        (λ plain. map (λ line. line.now) plain.items
        ≡ plain_by steps.now (map (λ line. line.now) lines.now)) }
    ensures count { IfOk result (λ plain. length plain.items ≡ length lines.now) }
{
    let mut plain = Vec::new(global);
    for (place, line) in lines.iter().enumerate() {
        plain.push(plain_at(steps, place as u64, line))?;
    }
    Ok(plain)
}

/// The line after that of a number.
fn plain_at<'a>(steps: &[Asked], number: u64, line: &'a [u8]) -> &'a [u8]
    ensures { result.now ≡ plain_at_by steps.now number line.now }
{
    if expectation(line).is_some() && is_step_line(steps, number) {
        b"#"
    } else {
        line
    }
}

/// Whether one of these steps is on the line of a number.
fn is_step_line(steps: &[Asked], number: u64) -> bool
    ensures { result ≡ is_step_line_by steps.now number }
{
    steps.iter().any(|asked| asked.line == number)
}

/// The misses of steps that may have these outcomes.
fn add_raced(
    global: Global,
    missed: &mut Vec<Miss>,
    lines: &[&[u8]],
    steps: &[Asked],
    found: &[Outcome],
) -> Result<(), AllocError>
    ensures { OnOk result
        (AddsMisses missed.old missed.new
        (missed_from (map (λ line. line.now) lines.now) steps.now found.now 0 steps.now)) }
{
    for place in 0..steps.len() {
        add_step(global, missed, lines, steps, found, place, steps[place])?;
    }
    Ok(())
}

/// Those of the step at a place.
fn add_step(
    global: Global,
    missed: &mut Vec<Miss>,
    lines: &[&[u8]],
    steps: &[Asked],
    found: &[Outcome],
    place: usize,
    asked: Asked,
) -> Result<(), AllocError>
    ensures { OnOk result
        (AddsMisses missed.old missed.new
        (step_missed (map (λ line. line.now) lines.now) steps.now found.now place asked)) }
{
    match expected_behind(lines, asked.line) {
        Some(text) => add_text(global, missed, steps, found, place, asked.line + 1, text),
        None => Ok(()),
    }
}

/// The expectation on the line right after that of a number.
fn expected_behind<'a>(lines: &[&'a [u8]], number: u64) -> Option<&'a [u8]>
    ensures text { option_copied result ≡ expected_behind_by (map (λ line. line.now) lines.now) number }
    ensures below { IfSome result (λ _. number < length lines.now) }
{
    match lines.get(number as usize) {
        Some(line) => expectation(line),
        None => None,
    }
}

/// What is missed of an expectation, on the line of a number.
fn add_text(
    global: Global,
    missed: &mut Vec<Miss>,
    steps: &[Asked],
    found: &[Outcome],
    place: usize,
    number: u64,
    text: &[u8],
) -> Result<(), AllocError>
    ensures { OnOk result
        (AddsMisses missed.old missed.new
        (text_missed steps.now found.now place number text.now)) }
{
    let wanted = kinds(global, text)?;
    let come = kinds_at(global, found, place)?;
    add_others(
        global,
        missed,
        steps,
        found,
        place,
        number,
        text,
        wanted.as_slice(),
    )?;
    add_never(global, missed, number, come.as_slice(), wanted.as_slice())
}

/// The first outcome whose reply isn't a listed text, unless others may come, too.
fn add_others(
    global: Global,
    missed: &mut Vec<Miss>,
    steps: &[Asked],
    found: &[Outcome],
    place: usize,
    number: u64,
    text: &[u8],
    wanted: &[Vec<u8>],
) -> Result<(), AllocError>
    ensures { OnOk result
        (AddsMisses missed.old missed.new
        (others_missed steps.now number text.now
        (map (λ v. v.items) wanted.now) place found.now)) }
{
    if is_open(text) {
        return Ok(());
    }
    add_other(global, missed, steps, found, place, number, text, wanted)
}

/// The first outcome whose reply isn't a listed text.
fn add_other(
    global: Global,
    missed: &mut Vec<Miss>,
    steps: &[Asked],
    found: &[Outcome],
    place: usize,
    number: u64,
    text: &[u8],
    wanted: &[Vec<u8>],
) -> Result<(), AllocError>
    ensures { OnOk result
        (AddsMisses missed.old missed.new
        (other_missed steps.now number text.now
        (map (λ v. v.items) wanted.now) place found.now)) }
{
    for outcome in found {
        let reply = text_at(global, outcome.replies.as_slice(), place)?;
        if !is_among(wanted, reply.as_slice()) {
            let said = other_text(global, steps, outcome, text, reply.as_slice())?;
            return add(missed, number, said);
        }
    }
    Ok(())
}

/// What is wrong with a reply, and an order that gives it.
fn other_text(
    global: Global,
    steps: &[Asked],
    outcome: &Outcome,
    text: &[u8],
    reply: &[u8],
) -> Result<Vec<u8>, AllocError>
    ensures { IfOk result
        (λ said. said.items
        ≡ other_words text.now reply.now ++ order_words steps.now outcome.now) }
{
    let mut said = Vec::from_slice(global, b"expected ")?;
    said.extend_from_slice(text)?;
    said.extend_from_slice(b", got ")?;
    said.extend_from_slice(reply)?;
    said.extend_from_slice(b" by order")?;
    add_places(&mut said, global, steps, outcome.order.as_slice())?;
    Ok(said)
}

/// The listed texts that never come.
fn add_never(
    global: Global,
    missed: &mut Vec<Miss>,
    number: u64,
    come: &[Vec<u8>],
    wanted: &[Vec<u8>],
) -> Result<(), AllocError>
    ensures { OnOk result
        (AddsMisses missed.old missed.new
        (never_missed number (map (λ v. v.items) come.now) (map (λ v. v.items) wanted.now))) }
{
    for kind in wanted {
        add_never_at(global, missed, number, come, kind.as_slice())?;
    }
    Ok(())
}

/// One of them.
fn add_never_at(
    global: Global,
    missed: &mut Vec<Miss>,
    number: u64,
    come: &[Vec<u8>],
    kind: &[u8],
) -> Result<(), AllocError>
    ensures { OnOk result
        (AddsMisses missed.old missed.new
        (never_at number (map (λ v. v.items) come.now) kind.now)) }
{
    if is_among(come, kind) {
        return Ok(());
    }
    add(missed, number, never_text(global, kind)?)
}

fn never_text(global: Global, kind: &[u8]) -> Result<Vec<u8>, AllocError>
    ensures { IfOk result (λ said. said.items ≡ codes "never " ++ kind.now) }
{
    let mut said = Vec::from_slice(global, b"never ")?;
    said.extend_from_slice(kind)?;
    Ok(said)
}

fn add(missed: &mut Vec<Miss>, line: u64, said: Vec<u8>) -> Result<(), AllocError>
    ensures { OnOk result (AddsMisses missed.old missed.new ((line, said.items) ∷ [])) }
{
    missed.push(Miss { line, said })?;
    Ok(())
}

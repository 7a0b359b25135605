//! The lines of a report of outcomes.
ghost use Rattle.std.specs.Prelude.{◌≡◌, ◌∷◌, ◌++◌, [], IfOk, OnOk, length, map};
ghost use Rattle.std.specs.Fmt.{decimal};
ghost use Rattle.call_table.specs.Texts.{text_of_reply};
ghost use Rattle.trace_race.specs.Raced.{step_lines};
ghost use Rattle.trace_text.specs.Texts.{text_of as text_of_line, text_of_report};
ghost use Rattle.trace_outcomes.specs.Texts.{
  all_text,
  behind_bars,
  end_text,
  is_among as is_among_of,
  kinds_at as kinds_at_of,
  kinds_text,
  line_at as line_at_of,
  order_text,
  otherwise_text,
  outcome_line,
  outcomes_text,
  place_text,
  places_text,
  replies_text,
  step_line,
  steps_text,
  text_at as text_at_of,
  too_many_text,
  varied_from,
  varied_reply,
  with_kind,
};

use call_table::Reply;
use race_outcomes::Outcome;
use std::alloc::{AllocError, Global};
use trace_lines::Response;
use trace_race::Asked;
use trace_text::{Fault, ReportLine};
use trace_words::is_name;

/// A line of a race's report.
fn add_told(text: &mut Vec<u8>, global: Global, told: ReportLine) -> Result<(), AllocError>
    ensures { OnOk result (text.new.items ≡ text.old.items ++ text_of_line told ++ 10 ∷ []) }
{
    let said = format!(in global; "{told}\n")?;
    text.extend_from_slice(said.as_bytes())?;
    Ok(())
}

/// The line of a fault.
pub(crate) fn add_fault(
    text: &mut Vec<u8>,
    global: Global,
    line: u64,
    fault: Fault,
) -> Result<(), AllocError>
    ensures { OnOk result
        (text.new.items ≡ text.old.items ++ text_of_report (ReportLine.Fault line fault ∷ [])) }
{
    add_told(text, global, ReportLine::Fault { line, fault })
}

/// The lines of the steps before `start`, as a replay has them.
fn add_first(
    text: &mut Vec<u8>,
    global: Global,
    steps: &[Asked],
    replies: &[Reply],
) -> Result<(), AllocError>
    requires { length replies.now ≡ length steps.now }
    ensures { OnOk result
        (text.new.items ≡ text.old.items ++ text_of_report (step_lines steps.now replies.now)) }
{
    for place in 0..steps.len() {
        let Asked { line, cpu, .. } = steps[place];
        let reply = replies[place];
        add_told(
            text,
            global,
            ReportLine::Response(Response::Step { line, cpu, reply }),
        )?;
    }
    Ok(())
}

/// The text of the reply at a place.
pub fn text_at(global: Global, replies: &[Reply], place: usize) -> Result<Vec<u8>, AllocError>
    ensures { IfOk result (λ v. v.items ≡ text_at_of place replies.now) }
{
    match replies.get(place) {
        Some(reply) => text_of(global, *reply),
        None => Ok(Vec::new(global)),
    }
}

/// The text of a reply.
pub(crate) fn text_of(global: Global, reply: Reply) -> Result<Vec<u8>, AllocError>
    ensures { IfOk result (λ v. v.items ≡ text_of_reply reply) }
{
    let said = format!(in global; "{reply}")?;
    Vec::from_slice(global, said.as_bytes())
}

/// Whether a text is among others.
pub fn is_among(texts: &[Vec<u8>], text: &[u8]) -> bool
    ensures { result ≡ is_among_of (map (λ v. v.items) texts.now) text.now }
{
    for other in texts {
        if is_name(other.as_slice(), text) {
            return true;
        }
    }
    false
}

/// Adds a text, unless it is there.
fn add_kind(kinds: &mut Vec<Vec<u8>>, text: Vec<u8>) -> Result<(), AllocError>
    ensures { OnOk result
        (map (λ v. v.items) kinds.new.items
        ≡ with_kind (map (λ v. v.items) kinds.old.items) text.items) }
{
    if is_among(kinds.as_slice(), text.as_slice()) {
        drop(text);
        return Ok(());
    }
    kinds.push(text)?;
    Ok(())
}

/// All texts of the replies at a place, each once.
pub fn kinds_at(global: Global, found: &[Outcome], place: usize) -> Result<Vec<Vec<u8>>, AllocError>
    ensures { IfOk result (λ v. map (λ v. v.items) v.items ≡ kinds_at_of found.now place) }
{
    let mut kinds = Vec::new(global);
    for outcome in found {
        let text = text_at(global, outcome.replies.as_slice(), place)?;
        add_kind(&mut kinds, text)?;
    }
    Ok(kinds)
}

/// The texts after a first one, each after ` | `.
fn add_behind(text: &mut Vec<u8>, kinds: &[Vec<u8>]) -> Result<(), AllocError>
    ensures { OnOk result (text.new.items ≡ text.old.items ++ behind_bars (map (λ v. v.items) kinds.now)) }
{
    for kind in kinds {
        text.extend_from_slice(b" | ")?;
        text.extend_from_slice(kind.as_slice())?;
    }
    Ok(())
}

/// Texts with ` | ` between them.
pub fn add_kinds(text: &mut Vec<u8>, kinds: &[Vec<u8>]) -> Result<(), AllocError>
    ensures { OnOk result (text.new.items ≡ text.old.items ++ kinds_text (map (λ v. v.items) kinds.now)) }
{
    match kinds {
        [] => Ok(()),
        [first, rest @ ..] => {
            text.extend_from_slice(first.as_slice())?;
            add_behind(text, rest)
        }
    }
}

/// The line of a step with all its replies.
fn add_step(
    text: &mut Vec<u8>,
    global: Global,
    asked: Asked,
    kinds: &[Vec<u8>],
) -> Result<(), AllocError>
    ensures { OnOk result
        (text.new.items ≡ text.old.items ++ step_line asked (map (λ v. v.items) kinds.now)) }
{
    let Asked { line, cpu, .. } = asked;
    let begin = format!(in global; "{line} {cpu} ")?;
    text.extend_from_slice(begin.as_bytes())?;
    add_kinds(text, kinds)?;
    text.extend_from_slice(b"\n")?;
    Ok(())
}

/// The lines of the steps after `start`; for each, whether its replies vary.
fn add_steps(
    text: &mut Vec<u8>,
    global: Global,
    steps: &[Asked],
    found: &[Outcome],
) -> Result<Vec<bool>, AllocError>
    ensures text { IfOk result (λ _. text.new.items ≡ text.old.items ++ steps_text found.now 0 steps.now) }
    ensures varied { IfOk result (λ v. v.items ≡ varied_from found.now 0 steps.now) }
    ensures count { IfOk result (λ v. length v.items ≡ length steps.now) }
{
    let mut varied = Vec::new(global);
    for place in 0..steps.len() {
        let kinds = kinds_at(global, found, place)?;
        add_step(text, global, steps[place], kinds.as_slice())?;
        varied.push(kinds.len() > 1)?;
    }
    Ok(varied)
}

/// The reply of a step, if it varies.
#[tactic(auto, unfolding(crate::specs::Texts::varied_reply))]
fn add_varied(
    text: &mut Vec<u8>,
    global: Global,
    asked: Asked,
    varies: bool,
    replies: &[Reply],
    place: usize,
) -> Result<(), AllocError>
    ensures { OnOk result
        (text.new.items
        ≡ text.old.items ++ varied_reply asked varies (text_at_of place replies.now)) }
{
    if !varies {
        return Ok(());
    }
    let line = asked.line;
    let begin = format!(in global; "{line} ")?;
    let reply = text_at(global, replies, place)?;
    text.extend_from_slice(begin.as_bytes())?;
    text.extend_from_slice(reply.as_slice())?;
    text.extend_from_slice(b"; ")?;
    Ok(())
}

/// The replies that vary.
fn add_replies(
    text: &mut Vec<u8>,
    global: Global,
    steps: &[Asked],
    varied: &[bool],
    replies: &[Reply],
) -> Result<(), AllocError>
    requires { length varied.now ≡ length steps.now }
    ensures { OnOk result
        (text.new.items ≡ text.old.items ++ replies_text replies.now 0 steps.now varied.now) }
{
    for place in 0..steps.len() {
        add_varied(text, global, steps[place], varied[place], replies, place)?;
    }
    Ok(())
}

/// The line of the step at a place.
fn line_at(steps: &[Asked], place: usize) -> u64
    ensures { result ≡ line_at_of steps.now place }
{
    match steps.get(place) {
        Some(asked) => asked.line,
        None => 0,
    }
}

/// An order, by the lines of its steps.
pub(crate) fn add_order(
    text: &mut Vec<u8>,
    global: Global,
    steps: &[Asked],
    order: &[usize],
) -> Result<(), AllocError>
    ensures { OnOk result (text.new.items ≡ text.old.items ++ order_text steps.now order.now) }
{
    text.extend_from_slice(b"order")?;
    add_places(text, global, steps, order)?;
    text.extend_from_slice(b"\n")?;
    Ok(())
}

pub fn add_places(
    text: &mut Vec<u8>,
    global: Global,
    steps: &[Asked],
    order: &[usize],
) -> Result<(), AllocError>
    ensures { OnOk result (text.new.items ≡ text.old.items ++ places_text steps.now order.now) }
{
    for place in order {
        add_place(text, global, steps, *place)?;
    }
    Ok(())
}

fn add_place(
    text: &mut Vec<u8>,
    global: Global,
    steps: &[Asked],
    place: usize,
) -> Result<(), AllocError>
    ensures { OnOk result (text.new.items ≡ text.old.items ++ place_text steps.now place) }
{
    let line = line_at(steps, place);
    let said = format!(in global; " {line}")?;
    text.extend_from_slice(said.as_bytes())?;
    Ok(())
}

/// The line of an outcome.
fn add_outcome(
    text: &mut Vec<u8>,
    global: Global,
    steps: &[Asked],
    varied: &[bool],
    outcome: &Outcome,
) -> Result<(), AllocError>
    requires { length varied.now ≡ length steps.now }
    ensures { OnOk result
        (text.new.items ≡ text.old.items ++ outcome_line steps.now varied.now outcome.now) }
{
    text.extend_from_slice(b"outcome ")?;
    add_replies(text, global, steps, varied, outcome.replies.as_slice())?;
    add_order(text, global, steps, outcome.order.as_slice())
}

fn add_outcomes(
    text: &mut Vec<u8>,
    global: Global,
    steps: &[Asked],
    varied: &[bool],
    found: &[Outcome],
) -> Result<(), AllocError>
    requires { length varied.now ≡ length steps.now }
    ensures { OnOk result
        (text.new.items ≡ text.old.items ++ outcomes_text steps.now varied.now found.now) }
{
    for outcome in found {
        add_outcome(text, global, steps, varied, outcome)?;
    }
    Ok(())
}

/// The last line.
pub(crate) fn add_end(
    text: &mut Vec<u8>,
    global: Global,
    steps: usize,
    outcomes: usize,
) -> Result<(), AllocError>
    ensures { OnOk result (text.new.items ≡ text.old.items ++ end_text steps outcomes) }
{
    let said = format!(in global; "end steps {steps} outcomes {outcomes}\n")?;
    text.extend_from_slice(said.as_bytes())?;
    Ok(())
}

/// All lines: of the steps before `start`, with their replies, of those after it, and of all outcomes.
pub(crate) fn add_all(
    text: &mut Vec<u8>,
    global: Global,
    first: &[Asked],
    replies: &[Reply],
    steps: &[Asked],
    found: &[Outcome],
) -> Result<(), AllocError>
    requires { length replies.now ≡ length first.now }
    ensures { OnOk result
        (text.new.items ≡ text.old.items ++ all_text first.now replies.now steps.now found.now) }
{
    add_first(text, global, first, replies)?;
    let varied = add_steps(text, global, steps, found)?;
    add_outcomes(text, global, steps, varied.as_slice(), found)?;
    add_end(text, global, first.len() + steps.len(), found.len())
}

/// That there are too many points.
pub(crate) fn add_too_many(text: &mut Vec<u8>, global: Global, made: u64) -> Result<(), AllocError>
    ensures { OnOk result (text.new.items ≡ text.old.items ++ too_many_text made) }
{
    let said = format!(in global; "too many after {made} steps\n")?;
    text.extend_from_slice(said.as_bytes())?;
    Ok(())
}

fn add_number(text: &mut Vec<u8>, global: Global, number: u64) -> Result<(), AllocError>
    ensures { OnOk result (text.new.items ≡ text.old.items ++ decimal number) }
{
    let said = format!(in global; "{number}")?;
    text.extend_from_slice(said.as_bytes())?;
    Ok(())
}

/// That a step before `start` has another reply than the model's.
pub(crate) fn add_otherwise(
    text: &mut Vec<u8>,
    global: Global,
    line: u64,
    reply: &[u8],
) -> Result<(), AllocError>
    ensures { OnOk result (text.new.items ≡ text.old.items ++ otherwise_text line reply.now) }
{
    add_number(text, global, line)?;
    text.extend_from_slice(b" told otherwise than ")?;
    text.extend_from_slice(reply)?;
    text.extend_from_slice(b"\n")?;
    Ok(())
}

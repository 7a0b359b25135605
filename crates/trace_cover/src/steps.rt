//! The steps of a trace, and what each adds to the counts.
ghost use Rattle.std.specs.Prelude.{◌≡◌, ◌+◌, ◌<◌, ◌≤◌, ◌++◌, IfOk, OnOk, Option, Some, None, is_some, length};
ghost use Rattle.trace_cover.specs.Steps.{allowed as allowed_by, condition_before as condition_before_by, is_poke as is_poke_by, line_read, refused, seen_in, seen_of, step_in};
ghost use Rattle.trace_cover.specs.View.{AddsAll, IsCountedAt};
ghost use Rattle.trace_text.specs.ByPlace.{lines_in};
ghost use Rattle.trace_reader.specs.Reading.{lines_of};
ghost use Rattle.trace_text.specs.Ready.{IsReady};
ghost use Rattle.trace_text.specs.Session.{at_start};
ghost use Rattle.trace_text.specs.View.{lines_reported, standing_of};

use crate::condition::Condition;
use crate::looking::condition_at;
use call_table::{CallName, Refusal, Reply, Step, values_of};
use std::alloc::{AllocError, Allocator, Global};
use trace_faults::add_place;
use trace_lines::{Allows, Line, Response, said};
use trace_reader::{Outcome, lines};
use trace_text::{Fault, Reported, Session, Stop, line_run};

/// A step as it is counted: its call, its refusal and the condition of its frame.
#[derive(Clone, Copy)]
pub struct Seen {
    pub call: CallName,
    /// Why it was refused; None if it was made.
    pub why: Option<Refusal>,
    /// The condition, before the step, of the frame that it names, or of the frame at the guest's page that it names;
    /// of the first page of a range. None if it names none, or only looks.
    pub condition: Option<Condition>,
}

/// Carries a trace out up to its first poke, its first fault or its end, without an oracle, and adds each of its steps
/// to `seen`. Steps after `start` are made in the order of lines. `text` gets the fault, with its place; `name` is the
/// trace's file. The tables of the trees are allocated from `alloc`. Err if memory was refused.
pub fn add_steps<A: Allocator + Copy>(
    global: Global,
    alloc: A,
    name: &str,
    trace: &[u8],
    seen: &mut Vec<Seen>,
    text: &mut Vec<u8>,
) -> Result<Outcome, AllocError>
    ensures { IfOk result
        (AddsAll name.now
        (lines_of trace.now) seen.old.items text.old.items seen.new.items text.new.items) }
{
    let lines = lines(global, trace)?;
    let mut session = Session::new(global, alloc);
    let ran = count_lines(global, &mut session, name, lines.as_slice(), seen, text);
    // The proof of a scope's end would go through all parts.
    drop(session);
    ran
}

fn count_lines<A: Allocator + Copy>(
    global: Global,
    session: &mut Session<A>,
    name: &str,
    lines: &[&[u8]],
    seen: &mut Vec<Seen>,
    text: &mut Vec<u8>,
) -> Result<Outcome, AllocError>
    requires start { standing_of session.old ≡ at_start }
    requires ready { IsReady session.old }
    ensures { IfOk result
        (AddsAll name.now
        (lines_in lines.now) seen.old.items text.old.items seen.new.items text.new.items) }
{
    for place in 0..lines.len() {
        if is_poke(session, lines[place]) {
            return Ok(Outcome::Clean);
        }
        let stopped = count_line(session, lines, place, seen)?;
        if let Some(fault) = stopped {
            add_place(text, global, name, lines, place, fault)?;
            return Ok(Outcome::Fault);
        }
    }
    Ok(Outcome::Clean)
}

/// What is allowed at this point of a trace: the same as in an audit before its first poke.
fn allowed<A: Allocator + Copy>(session: &Session<A>) -> Allows
    ensures { result
        ≡ allowed_by (is_some (standing_of session.now).machine)
        (standing_of session.now).started }
{
    if session.has_booted() {
        Allows::of_audit(session.has_started())
    } else {
        Allows::before_boot()
    }
}

/// Whether a line is a poke.
fn is_poke<A: Allocator + Copy>(session: &Session<A>, line: &[u8]) -> bool
    ensures { result ≡ is_poke_by (line_read (standing_of session.now) line.now) }
{
    matches!(
        said(allowed(session), session.settings(), line),
        Ok(Some(Line::Poke(_)))
    )
}

/// The step that a line says, with its CPU.
fn step_of_line<A: Allocator + Copy>(session: &Session<A>, line: &[u8]) -> Option<(u64, Step)>
    ensures { result ≡ step_in (line_read (standing_of session.now) line.now) }
{
    match said(allowed(session), session.settings(), line) {
        Ok(Some(Line::Step { cpu, step })) => Some((cpu, step)),
        _ => None,
    }
}

/// The condition of the frame that a step names.
fn condition_before<A: Allocator + Copy>(
    session: &Session<A>,
    asked: Option<(u64, Step)>,
) -> Option<Condition>
    ensures { result ≡ condition_before_by (standing_of session.now).machine asked }
{
    let world = session.world()?;
    let (cpu, step) = asked?;
    condition_at(world, cpu, step)
}

/// Carries out a line of a trace that is no poke, by its place from 0 on, and adds its step. It doesn't report a fault
/// yet.
fn count_line<A: Allocator + Copy>(
    session: &mut Session<A>,
    lines: &[&[u8]],
    place: usize,
    seen: &mut Vec<Seen>,
) -> Result<Option<Fault>, AllocError>
    requires place { place < length lines.now }
    requires few { (standing_of session.old).steps ≤ place }
    requires ready { IsReady session.old }
    ensures done { IfOk result
        (IsCountedAt lines.now place session.old seen.old.items session.new seen.new.items) }
    ensures steps { (standing_of session.new).steps ≤ place + 1 }
    ensures ready { IsReady session.new }
{
    let asked = step_of_line(session, lines[place]);
    let condition = condition_before(session, asked);
    match line_run(session, lines, place) {
        Ok(reported) => {
            add_seen(seen, session, asked, condition, reported)?;
            Ok(None)
        }
        Err(Stop::Fault(fault)) => Ok(Some(fault)),
        Err(Stop::NoMemory) => Err(AllocError),
    }
}

/// Adds the step of a line to `seen`, by the line's report; nothing if the line is no step.
fn add_seen<A: Allocator + Copy>(
    seen: &mut Vec<Seen>,
    session: &Session<A>,
    asked: Option<(u64, Step)>,
    condition: Option<Condition>,
    reported: Reported,
) -> Result<(), AllocError>
    ensures { OnOk result
        (seen.new.items
        ≡ seen.old.items ++ seen_of asked condition (lines_reported session.now reported)) }
{
    let Some((_, step)) = asked else {
        return Ok(());
    };
    match reported {
        Reported::Line(line) => add_replied(seen, step, condition, line),
        Reported::Step(line, _) => add_replied(seen, step, condition, line),
        Reported::Nothing => Ok(()),
        Reported::Maplets(_) => Ok(()),
    }
}

fn add_replied(
    seen: &mut Vec<Seen>,
    step: Step,
    condition: Option<Condition>,
    line: Response,
) -> Result<(), AllocError>
    ensures { OnOk result (seen.new.items ≡ seen.old.items ++ seen_in step condition line) }
{
    if let Response::Step { reply, .. } = line {
        let call = values_of(step).call;
        let why = why_of(reply);
        seen.push(Seen {
            call,
            why,
            condition,
        })?;
    }
    Ok(())
}

/// Why a step was refused.
fn why_of(reply: Reply) -> Option<Refusal>
    ensures { result ≡ refused reply }
{
    match reply {
        Reply::Done(_) => None,
        Reply::Refused(why) => Some(why),
    }
}

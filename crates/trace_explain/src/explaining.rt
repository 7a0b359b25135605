//! Explaining a trace.
ghost use Rattle.std.specs.Prelude.{◌≡◌, ℕ, ◌+◌, ◌<◌, ◌≤◌, [], ◌++◌, List, IfOk, OnOk, is_some, length, true, false};
ghost use Rattle.ghost_oracle.specs.Found.{HasRowsOf};
ghost use Rattle.ghost_spec.specs.States.{contents_in};
ghost use Rattle.state_changes.specs.Changed.{ReportsAll};
ghost use Rattle.state_changes.specs.Together.{Adds};
ghost use Rattle.trace_explain.specs.Carried.{HasFrames, IsBefore, ReportsFrom};
ghost use Rattle.trace_explain.specs.Explained.{ExplainsAll, caused_line, ended, is_shown, plain_line, report_line, report_lines, step_at};
ghost use Rattle.trace_explain.specs.Looks.{look_lines, looked, seen, seen_at, seen_by};
ghost use Rattle.trace_explain.specs.Texts.{look_line, name_of};
ghost use Rattle.trace_explain.specs.View.{looks_in, IsCarriedAt, told_fault, told_line};
ghost use Rattle.trace_text.specs.ByPlace.{line_at, lines_in};
ghost use Rattle.trace_reader.specs.Reading.{lines_of};
ghost use Rattle.trace_text.specs.Ready.{IsReady};
ghost use Rattle.trace_text.specs.Session.{allowed as allowed_by, at_start};
ghost use Rattle.trace_text.specs.View.{machine_of, standing_of};

use crate::causes::cause_of;
use crate::looking::text_at_place;
use crate::place::Place;
use crate::places::add_places;
use call_table::{Reply, Step};
use ghost_spec::state::Ghost;
use state_changes::add_changes;
use std::alloc::{AllocError, Allocator, Global};
use trace_check::lines_of_report;
use trace_check::shown::shown;
use trace_faults::add_place;
use trace_lines::{Allows, Line, Response, said};
use trace_reader::{Outcome, lines};
use trace_text::{Fault, ReportLine, Reported, Session, Stop, line_run};
use world::World;

/// A trace that was explained.
#[derive(Drop)]
pub struct Explained {
    /// Each line that was carried out; after it, indented, its report, what its step looked at and left as it was, and all that
    /// it changed: `NAME: BEFORE -> AFTER`.
    pub text: Vec<u8>,
    pub outcome: Outcome,
}

/// A place that a step looks at, and its contents before the step.
#[derive(Drop)]
pub(crate) struct Look {
    pub(crate) place: Place,
    pub(crate) before: String,
}

/// Carries a trace out up to its first fault, and explains each line, or `only` the one of this number, counted from 1.
/// The text always has the fault. `name` is the trace's file, for the place of a fault. The tables of the trees are
/// allocated from `alloc`. Err if memory was refused.
pub fn explain<A: Allocator + Copy>(
    global: Global,
    alloc: A,
    name: &str,
    trace: &[u8],
    only: Option<u64>,
) -> Result<Explained, AllocError>
    ensures { IfOk result
        (λ explained. ExplainsAll only name.now
        (lines_of trace.now) explained.text.items explained.outcome) }
{
    let lines = lines(global, trace)?;
    let mut text = Vec::new(global);
    let mut session = Session::new(global, alloc);
    let ran = explain_lines(
        global,
        &mut session,
        name,
        lines.as_slice(),
        only,
        &mut text,
    );
    // The proof of a scope's end would go through all parts.
    drop(session);
    let outcome = ran?;
    Ok(Explained { text, outcome })
}

fn explain_lines<A: Allocator + Copy>(
    global: Global,
    session: &mut Session<A>,
    name: &str,
    lines: &[&[u8]],
    only: Option<u64>,
    text: &mut Vec<u8>,
) -> Result<Outcome, AllocError>
    requires start { standing_of session.old ≡ at_start }
    requires ready { IsReady session.old }
    requires empty { text.old.items ≡ [] }
    ensures { IfOk result (ExplainsAll only name.now (lines_in lines.now) text.new.items) }
{
    for place in 0..lines.len() {
        let stopped = carry_line(global, session, lines, place, only, text)?;
        if let Some(fault) = stopped {
            add_fault(text, global, name, lines, place, fault)?;
            return Ok(Outcome::Fault);
        }
    }
    Ok(Outcome::Clean)
}

/// Carries out a line of a trace, by its place from 0 on, and explains it if it is to be shown. A fault isn't reported yet.
fn carry_line<A: Allocator + Copy>(
    global: Global,
    session: &mut Session<A>,
    lines: &[&[u8]],
    place: usize,
    only: Option<u64>,
    text: &mut Vec<u8>,
) -> Result<Option<Fault>, AllocError>
    requires place { place < length lines.now }
    requires few { (standing_of session.old).steps ≤ place }
    requires ready { IsReady session.old }
    ensures done { IfOk result
        (IsCarriedAt
        (is_shown only (place + 1)) lines.now place session.old text.old.items session.new
        text.new.items) }
    ensures steps { (standing_of session.new).steps ≤ place + 1 }
    ensures ready { IsReady session.new }
{
    if is_wanted(only, place as u64 + 1) {
        show_line(global, session, lines, place, text)
    } else {
        pass_line(session, lines, place)
    }
}

/// Whether the line of a number is to be shown.
fn is_wanted(only: Option<u64>, number: u64) -> bool
    ensures { result ≡ is_shown only number }
{
    match only {
        Some(only) => number == only,
        None => true,
    }
}

/// Carries out a line that isn't shown.
fn pass_line<A: Allocator + Copy>(
    session: &mut Session<A>,
    lines: &[&[u8]],
    place: usize,
) -> Result<Option<Fault>, AllocError>
    requires place { place < length lines.now }
    requires few { (standing_of session.old).steps ≤ place }
    requires ready { IsReady session.old }
    ensures done { (text : List ℕ)
        → IfOk result (IsCarriedAt false lines.now place session.old text session.new text) }
    ensures steps { (standing_of session.new).steps ≤ place + 1 }
    ensures ready { IsReady session.new }
{
    match line_run(session, lines, place) {
        Ok(_) => Ok(None),
        Err(Stop::Fault(fault)) => Ok(Some(fault)),
        Err(Stop::NoMemory) => Err(AllocError),
    }
}

/// Carries out a line, and explains it.
fn show_line<A: Allocator + Copy>(
    global: Global,
    session: &mut Session<A>,
    lines: &[&[u8]],
    place: usize,
    text: &mut Vec<u8>,
) -> Result<Option<Fault>, AllocError>
    requires place { place < length lines.now }
    requires few { (standing_of session.old).steps ≤ place }
    requires ready { IsReady session.old }
    ensures done { IfOk result
        (IsCarriedAt true lines.now place session.old text.old.items session.new text.new.items) }
    ensures steps { (standing_of session.new).steps ≤ place + 1 }
    ensures ready { IsReady session.new }
{
    let asked = step_of_line(session, lines[place]);
    let looks = looks_before(global, session, asked)?;
    let before = state_before(global, session, asked)?;
    let shown = show_run(
        global,
        session,
        lines,
        place,
        asked,
        looks.as_slice(),
        &before,
        text,
    );
    drop(before);
    shown
}

/// Carries out a line, and explains it by what its step looks at and by the state before it.
fn show_run<A: Allocator + Copy>(
    global: Global,
    session: &mut Session<A>,
    lines: &[&[u8]],
    place: usize,
    asked: Option<(u64, Step)>,
    looks: &[Look],
    before: &Option<Ghost>,
    text: &mut Vec<u8>,
) -> Result<Option<Fault>, AllocError>
    requires place { place < length lines.now }
    requires few { (standing_of session.old).steps ≤ place }
    requires ready { IsReady session.old }
    requires asked { asked ≡ step_at (standing_of session.old) (line_at lines.now place) }
    requires looks { looks_in looks.now ≡ seen (standing_of session.old).machine asked }
    requires before { IsBefore (standing_of session.old).machine asked before.now }
    ensures done { IfOk result
        (IsCarriedAt true lines.now place session.old text.old.items session.new text.new.items) }
    ensures steps { (standing_of session.new).steps ≤ place + 1 }
    ensures ready { IsReady session.new }
{
    match line_run(session, lines, place) {
        Ok(reported) => {
            add_line(text, global, session, lines[place], asked, looks, reported)?;
            add_changed(text, global, session, asked, before)?;
            Ok(None)
        }
        Err(Stop::Fault(fault)) => Ok(Some(fault)),
        Err(Stop::NoMemory) => Err(AllocError),
    }
}

/// The state before a step.
fn state_before<A: Allocator + Copy>(
    global: Global,
    session: &Session<A>,
    asked: Option<(u64, Step)>,
) -> Result<Option<Ghost>, AllocError>
    ensures { IfOk result (IsBefore (standing_of session.now).machine asked) }
{
    let Some(world) = session.world() else {
        return Ok(None);
    };
    if asked.is_none() {
        return Ok(None);
    }
    let state = world.to_ghost(global)?;
    Ok(Some(state))
}

/// All that changed from the state before a step.
fn add_changed<A: Allocator + Copy>(
    text: &mut Vec<u8>,
    global: Global,
    session: &Session<A>,
    asked: Option<(u64, Step)>,
    before: &Option<Ghost>,
) -> Result<(), AllocError>
    requires frames { HasFrames before.now (standing_of session.now).machine }
    ensures { OnOk result
        (Adds
        (ReportsFrom before.now asked (standing_of session.now).machine) text.old.items
        text.new.items) }
{
    let Some(before) = before else {
        return Ok(());
    };
    let Some((cpu, _)) = asked else {
        return Ok(());
    };
    let Some(world) = session.world() else {
        return Ok(());
    };
    add_changed_to(text, global, cpu, before, world)
}

/// All that changed up to the state of a world.
fn add_changed_to<A: Allocator>(
    text: &mut Vec<u8>,
    global: Global,
    cpu: u64,
    before: &Ghost,
    world: &World<A>,
) -> Result<(), AllocError>
    requires frames { HasRowsOf (machine_of world.now).layout before.now }
    ensures { OnOk result
        (Adds
        (ReportsAll (contents_in before.now)
        (machine_of world.now).state.contents cpu) text.old.items text.new.items) }
{
    let after = world.to_ghost(global)?;
    let told = add_changes(text, global, cpu, before, &after);
    drop(after);
    told
}

/// The step that a line says, with its CPU.
fn step_of_line<A: Allocator + Copy>(session: &Session<A>, line: &[u8]) -> Option<(u64, Step)>
    ensures { result ≡ step_at (standing_of session.now) line.now }
{
    match said(allowed(session), session.settings(), line) {
        Ok(Some(Line::Step { cpu, step })) => Some((cpu, step)),
        _ => None,
    }
}

/// What `replay` allows at this point of a session.
fn allowed<A: Allocator + Copy>(session: &Session<A>) -> Allows
    ensures { result
        ≡ allowed_by (is_some (standing_of session.now).machine)
        (standing_of session.now).started }
{
    if session.has_booted() {
        Allows::of_replay(session.has_started())
    } else {
        Allows::before_boot()
    }
}

/// The places that a step looks at, with their contents before it.
fn looks_before<A: Allocator + Copy>(
    global: Global,
    session: &Session<A>,
    asked: Option<(u64, Step)>,
) -> Result<Vec<Look>, AllocError>
    ensures { IfOk result (λ looks. looks_in looks.items ≡ seen (standing_of session.now).machine asked) }
{
    let Some(world) = session.world() else {
        return Ok(Vec::new(global));
    };
    let Some((cpu, step)) = asked else {
        return Ok(Vec::new(global));
    };
    looks_in_world(global, world, cpu, step)
}

fn looks_in_world<A: Allocator>(
    global: Global,
    world: &World<A>,
    cpu: u64,
    step: Step,
) -> Result<Vec<Look>, AllocError>
    ensures { IfOk result (λ looks. looks_in looks.items ≡ seen_by (machine_of world.now) cpu step) }
{
    let mut places = Vec::new(global);
    add_places(&mut places, world, cpu, step)?;
    looks_at(global, world, cpu, places.as_slice())
}

fn looks_at<A: Allocator>(
    global: Global,
    world: &World<A>,
    cpu: u64,
    places: &[Place],
) -> Result<Vec<Look>, AllocError>
    ensures { IfOk result (λ looks. looks_in looks.items ≡ seen_at (machine_of world.now) cpu places.now) }
{
    let mut looks = Vec::new(global);
    for place in places {
        let before = text_at_place(global, world, cpu, *place)?;
        looks.push(Look {
            place: *place,
            before,
        })?;
    }
    Ok(looks)
}

/// A line that was carried out.
fn add_line<A: Allocator + Copy>(
    text: &mut Vec<u8>,
    global: Global,
    session: &Session<A>,
    line: &[u8],
    asked: Option<(u64, Step)>,
    looks: &[Look],
    reported: Reported,
) -> Result<(), AllocError>
    ensures { OnOk result
        (text.new.items
        ≡ text.old.items ++ told_line session.now line.now asked looks.now reported) }
{
    add_ended(text, line)?;
    let told = lines_of_report(global, session, reported)?;
    add_report(text, global, asked, told.as_slice())?;
    add_looked(text, global, session, asked, looks)
}

fn add_ended(text: &mut Vec<u8>, line: &[u8]) -> Result<(), AllocError>
    ensures { OnOk result (text.new.items ≡ text.old.items ++ ended line.now) }
{
    text.extend_from_slice(line)?;
    text.extend_from_slice(b"\n")?;
    Ok(())
}

/// A line that has a fault, by its place, and where in it the fault is.
fn add_fault(
    text: &mut Vec<u8>,
    global: Global,
    name: &str,
    lines: &[&[u8]],
    place: usize,
    fault: Fault,
) -> Result<(), AllocError>
    requires { place < length lines.now }
    ensures { OnOk result (text.new.items ≡ text.old.items ++ told_fault name.now lines.now place fault) }
{
    add_ended(text, lines[place])?;
    let said = format!(in global; "    fault {fault}\n    ")?;
    text.extend_from_slice(said.as_bytes())?;
    add_place(text, global, name, lines, place, fault)
}

fn add_report(
    text: &mut Vec<u8>,
    global: Global,
    asked: Option<(u64, Step)>,
    reported: &[ReportLine],
) -> Result<(), AllocError>
    ensures { OnOk result (text.new.items ≡ text.old.items ++ report_lines asked reported.now) }
{
    for told in reported {
        add_told(text, global, asked, *told)?;
    }
    Ok(())
}

/// A line of the report, and why a step was refused.
fn add_told(
    text: &mut Vec<u8>,
    global: Global,
    asked: Option<(u64, Step)>,
    told: ReportLine,
) -> Result<(), AllocError>
    ensures { OnOk result (text.new.items ≡ text.old.items ++ report_line asked told) }
{
    let said = shown(global, told)?;
    match (asked, told) {
        (
            Some((_, step)),
            ReportLine::Response(
                Response::Step {
                    reply: Reply::Refused(refusal),
                    ..
                },
            ),
        ) => add_caused(text, said.as_bytes(), cause_of(step, refusal)),
        _ => add_plain(text, said.as_bytes()),
    }
}

fn add_plain(text: &mut Vec<u8>, said: &[u8]) -> Result<(), AllocError>
    ensures { OnOk result (text.new.items ≡ text.old.items ++ plain_line said.now) }
{
    text.extend_from_slice(b"    ")?;
    text.extend_from_slice(said)?;
    text.extend_from_slice(b"\n")?;
    Ok(())
}

fn add_caused(text: &mut Vec<u8>, said: &[u8], cause: &str) -> Result<(), AllocError>
    ensures { OnOk result (text.new.items ≡ text.old.items ++ caused_line said.now cause.now) }
{
    text.extend_from_slice(b"    ")?;
    text.extend_from_slice(said)?;
    text.extend_from_slice(b": ")?;
    text.extend_from_slice(cause.as_bytes())?;
    text.extend_from_slice(b"\n")?;
    Ok(())
}

/// Adds the places that a step looked at and left as they were.
fn add_looked<A: Allocator + Copy>(
    text: &mut Vec<u8>,
    global: Global,
    session: &Session<A>,
    asked: Option<(u64, Step)>,
    looks: &[Look],
) -> Result<(), AllocError>
    ensures { OnOk result
        (text.new.items
        ≡ text.old.items
        ++ looked (standing_of session.now).machine asked (looks_in looks.now)) }
{
    let Some(world) = session.world() else {
        return Ok(());
    };
    let Some((cpu, _)) = asked else {
        return Ok(());
    };
    add_looks(text, global, world, cpu, looks)
}

fn add_looks<A: Allocator>(
    text: &mut Vec<u8>,
    global: Global,
    world: &World<A>,
    cpu: u64,
    looks: &[Look],
) -> Result<(), AllocError>
    ensures { OnOk result
        (text.new.items
        ≡ text.old.items ++ look_lines (machine_of world.now) cpu (looks_in looks.now)) }
{
    for look in looks {
        let after = text_at_place(global, world, cpu, look.place)?;
        add_look(
            text,
            global,
            look.place,
            look.before.as_bytes(),
            after.as_bytes(),
        )?;
    }
    Ok(())
}

/// Adds a place with its contents before the step, if they are the same now.
fn add_look(
    text: &mut Vec<u8>,
    global: Global,
    place: Place,
    before: &[u8],
    after: &[u8],
) -> Result<(), AllocError>
    ensures { OnOk result
        (text.new.items ≡ text.old.items ++ look_line (name_of place) before.now after.now) }
{
    if before != after {
        return Ok(());
    }
    let name = format!(in global; "    {place}: ")?;
    text.extend_from_slice(name.as_bytes())?;
    text.extend_from_slice(before)?;
    text.extend_from_slice(b"\n")?;
    Ok(())
}

//! All outcomes of a trace, and whether a report is one of them.
ghost use Rattle.std.specs.Prelude.{◌≡◌, ℕ, [], IfOk, Ok, drop, length, option_map};
ghost use Rattle.call_table.specs.Texts.{text_of_reply};
ghost use Rattle.trace_lines.specs.Settings.{config_of};
ghost use Rattle.trace_reader.specs.Reading.{lines_of};
ghost use Rattle.ghost_spec.specs.States.{contents_in};
ghost use Rattle.trace_race.specs.Booted.{machine_in};
ghost use Rattle.trace_race.specs.Judged.{HasGenerationsTo};
ghost use Rattle.trace_race.specs.Courses.{IsSound, course_in, course_of, in_order_of, nothing_asked};
ghost use Rattle.trace_outcomes.specs.Finds.{found_text};
ghost use Rattle.trace_outcomes.specs.Made.{IsNoGeneration, IsReady, OnMade};
ghost use Rattle.trace_outcomes.specs.Races.{first_of, raced_of, texts_in};
ghost use Rattle.trace_outcomes.specs.Texts.{end_text, none_text, order_text, otherwise_text, too_many_text};
ghost use Rattle.trace_outcomes.specs.Told.{ReportsBehind, ReportsBy, ReportsClean, ReportsFault, ReportsObserved, ReportsOutcomes, AnswersReport, ReportsUnclean, first_apart as first_apart_of, is_read};

use crate::booting::boot_state;
use crate::finding::{Found, Outcomes, find_outcomes};
use crate::making::{Race, first_made, no_replies};
use crate::observed::{Report, read_report};
use crate::reading::{Read, read_trace};
use crate::writing::{
    add_all, add_end, add_fault, add_order, add_otherwise, add_too_many, text_of,
};
use call_table::Reply;
use ghost_spec::state::Ghost;
use race_outcomes::{OutcomesFault, explained};
use std::alloc::{AllocError, Global};
use trace_race::{Asked, Course};
use trace_reader::{Outcome, Progress};
use trace_text::{Fault, Stop};

/// The report of a trace whose steps after `start` are made at once.
#[derive(Drop)]
pub struct Told {
    pub text: Vec<u8>,
    /// Clean if all outcomes are given, or an order; Fault if the trace or the report has a fault; Disagreed otherwise.
    pub outcome: Outcome,
    /// The trace's fault, and the number of its line, if it has one.
    pub fault: Option<(u64, Fault)>,
}

/// A fault of the trace.
fn faulty(global: Global, line: u64, fault: Fault) -> Result<Told, AllocError>
    ensures { IfOk result (ReportsFault line fault) }
{
    let mut text = Vec::new(global);
    add_fault(&mut text, global, line, fault)?;
    Ok(Told {
        text,
        outcome: Outcome::Fault,
        fault: Some((line, fault)),
    })
}

/// A text that is clean.
fn clean(text: Vec<u8>) -> Told
    ensures { ReportsClean text.items result }
{
    Told {
        text,
        outcome: Outcome::Clean,
        fault: None,
    }
}

/// A text that isn't.
fn unclean(text: Vec<u8>) -> Told
    ensures { ReportsUnclean text.items result }
{
    Told {
        text,
        outcome: Outcome::Disagreed,
        fault: None,
    }
}

/// Why there is no list of outcomes.
fn too_many(global: Global, fault: OutcomesFault) -> Result<Told, AllocError>
    requires { IsNoGeneration fault }
    ensures { IfOk result
        (λ t. (made : ℕ)
        × (fault ≡ OutcomesFault.TooMany made)
        × ReportsUnclean (too_many_text made) t) }
{
    match fault {
        OutcomesFault::TooMany(made) => many_told(global, made),
        OutcomesFault::NoMemory => Err(AllocError),
        OutcomesFault::Generation => unreachable!(),
    }
}

/// Writes the replies that the steps of a trace may get: those before `start` in order, and those after it in any order
/// that keeps each CPU's own. Each list of replies comes once, with an order that gives it. If orders of some number of
/// steps lead to more points than `limit`, which are states with the replies so far, that is the whole text. Err if
/// memory was refused. `progress` gets a call for each point that is left.
pub fn report_outcomes<P: Progress>(
    global: Global,
    trace: &[u8],
    limit: usize,
    progress: &P,
) -> Result<Told, AllocError>
    ensures { IfOk result (ReportsOutcomes limit (course_of 1 nothing_asked (lines_of trace.now))) }
{
    match read_trace(global, trace)? {
        Read::Whole(course) => outcomes_of(global, &course, limit, progress),
        Read::Fault(line, fault) => faulty(global, line, fault),
    }
}

/// Nothing boots.
fn idle(global: Global) -> Result<Told, AllocError>
    ensures { IfOk result (ReportsClean (end_text 0 0)) }
{
    let mut text = Vec::new(global);
    add_end(&mut text, global, 0, 0)?;
    Ok(clean(text))
}

/// All outcomes of what a trace asks for.
fn outcomes_of<P: Progress>(
    global: Global,
    course: &Course,
    limit: usize,
    progress: &P,
) -> Result<Told, AllocError>
    requires { IsSound (course_in course.now) }
    ensures { IfOk result (ReportsOutcomes limit (Ok (course_in course.now))) }
{
    match find_outcomes(global, course, limit, progress)? {
        Found::Idle => idle(global),
        Found::Fault(line, fault) => faulty(global, line, fault),
        Found::TooMany(made) => many_told(global, made),
        Found::All(outcomes) => all_told(global, course, &outcomes),
    }
}

/// That there are too many points.
fn many_told(global: Global, made: u64) -> Result<Told, AllocError>
    ensures { IfOk result (ReportsUnclean (too_many_text made)) }
{
    let mut text = Vec::new(global);
    add_too_many(&mut text, global, made)?;
    Ok(unclean(text))
}

/// Tells all outcomes.
fn all_told(global: Global, course: &Course, outcomes: &Outcomes) -> Result<Told, AllocError>
    requires sound { IsSound (course_in course.now) }
    requires count { length outcomes.now.replies.items ≡ length (first_of (course_in course.now)) }
    ensures { IfOk result (ReportsClean (found_text (course_in course.now) outcomes.now)) }
{
    let count = course.in_order();
    let steps = course.steps.as_slice();
    let mut text = Vec::new(global);
    add_all(
        &mut text,
        global,
        &steps[..count],
        outcomes.replies.as_slice(),
        &steps[count..],
        outcomes.found.as_slice(),
    )?;
    Ok(clean(text))
}

/// Writes an order of a trace's steps after `start` that gives the replies of a report, or that there is none, or the
/// first step before `start` whose reply in the report isn't the model's. `name` is the report's file, for the place of
/// its first fault. A step without a reply in it may get any reply but `nomemory`. Too many points, and Err, are as for
/// all outcomes.
pub fn report_order<P: Progress>(
    global: Global,
    trace: &[u8],
    name: &str,
    report: &[u8],
    limit: usize,
    progress: &P,
) -> Result<Told, AllocError>
    ensures { IfOk result
        (AnswersReport name.now (lines_of report.now) limit
        (course_of 1 nothing_asked (lines_of trace.now))) }
{
    match read_trace(global, trace)? {
        Read::Whole(course) => order_of(global, &course, name, report, limit, progress),
        Read::Fault(line, fault) => faulty(global, line, fault),
    }
}

/// An order of what a trace asks for that gives the replies of a report.
fn order_of<P: Progress>(
    global: Global,
    course: &Course,
    name: &str,
    report: &[u8],
    limit: usize,
    progress: &P,
) -> Result<Told, AllocError>
    requires { IsSound (course_in course.now) }
    ensures { IfOk result (AnswersReport name.now (lines_of report.now) limit (Ok (course_in course.now))) }
{
    let texts = no_replies(global, course.steps.as_slice())?;
    match read_report(global, name, report, course.steps.as_slice(), texts)? {
        Report::Texts(texts) => order_by(global, course, texts.as_slice(), limit, progress),
        Report::Fault(text) => Ok(Told {
            text,
            outcome: Outcome::Fault,
            fault: None,
        }),
    }
}

/// Nothing boots, so no step is made.
fn idle_order(global: Global) -> Result<Told, AllocError>
    ensures { IfOk result (ReportsClean (order_text [] [])) }
{
    let mut text = Vec::new(global);
    add_order(&mut text, global, &[], &[])?;
    Ok(clean(text))
}

/// An order that gives these replies.
fn order_by<P: Progress>(
    global: Global,
    course: &Course,
    texts: &[Option<Vec<u8>>],
    limit: usize,
    progress: &P,
) -> Result<Told, AllocError>
    requires sound { IsSound (course_in course.now) }
    requires count { length texts.now ≡ length course.now.steps.items }
    ensures { IfOk result (ReportsBy limit (course_in course.now) (Ok (texts_in texts.now))) }
{
    let boot = match course.boot {
        Some(boot) => boot,
        None => return idle_order(global),
    };
    let carve = match course.settings.carve {
        Some(carve) => carve,
        None => return idle_order(global),
    };
    match boot_state(global, &course.settings, carve) {
        Ok(state) => order_from(global, state, course, texts, limit, progress),
        Err(Stop::Fault(fault)) => faulty(global, boot, fault),
        Err(Stop::NoMemory) => Err(AllocError),
    }
}

/// The same from the boot state.
fn order_from<P: Progress>(
    global: Global,
    state: Ghost,
    course: &Course,
    texts: &[Option<Vec<u8>>],
    limit: usize,
    progress: &P,
) -> Result<Told, AllocError>
    requires sound { IsSound (course_in course.now) }
    requires config { state.layout.config ≡ config_of (course_in course.now).told }
    requires low { HasGenerationsTo 1 (contents_in state) }
    requires count { length texts.now ≡ length course.now.steps.items }
    ensures { IfOk result
        (ReportsObserved (machine_in state) (course_in course.now) (texts_in texts.now) limit) }
{
    match first_made(global, state, course, texts) {
        Ok(race) => order_in(global, &race, course, texts, limit, progress),
        Err(_) => Err(AllocError),
    }
}

/// Reports that a step before `start` has another reply than the model's.
fn otherwise(global: Global, line: u64, reply: Reply) -> Result<Told, AllocError>
    ensures { IfOk result (ReportsUnclean (otherwise_text line (text_of_reply reply))) }
{
    let reply = text_of(global, reply)?;
    let mut text = Vec::new(global);
    add_otherwise(&mut text, global, line, reply.as_slice())?;
    Ok(unclean(text))
}

/// The same once the steps before `start` are made.
fn order_in<P: Progress>(
    global: Global,
    race: &Race,
    course: &Course,
    texts: &[Option<Vec<u8>>],
    limit: usize,
    progress: &P,
) -> Result<Told, AllocError>
    requires sound { IsSound (course_in course.now) }
    requires count { length texts.now ≡ length course.now.steps.items }
    requires ready { IsReady (course_in course.now)
        (drop (in_order_of (course_in course.now)) texts.now) race.now }
    ensures { IfOk result
        (OnMade (λ m a texts. ReportsObserved m a texts limit) (course_in course.now)
        (texts_in texts.now) race.now) }
{
    let count = course.in_order();
    let steps = course.steps.as_slice();
    match first_apart(
        global,
        &steps[..count],
        race.replies.as_slice(),
        &texts[..count],
    )? {
        Some((line, reply)) => otherwise(global, line, reply),
        None => order_behind(global, race, course, texts, limit, progress),
    }
}

/// Reports an order of the steps after `start` that gives these replies, or that none does.
fn order_behind<P: Progress>(
    global: Global,
    race: &Race,
    course: &Course,
    texts: &[Option<Vec<u8>>],
    limit: usize,
    progress: &P,
) -> Result<Told, AllocError>
    requires sound { IsSound (course_in course.now) }
    requires count { length texts.now ≡ length course.now.steps.items }
    requires ready { IsReady (course_in course.now)
        (drop (in_order_of (course_in course.now)) texts.now) race.now }
    ensures { IfOk result
        (OnMade (λ m a texts. ReportsBehind m a texts limit) (course_in course.now)
        (texts_in texts.now) race.now) }
{
    let count = course.in_order();
    match explained(
        global,
        &race.state,
        race.turns.as_slice(),
        &texts[count..],
        limit,
        progress,
    ) {
        Ok(Some(order)) => order_reported(global, course, order.as_slice()),
        Ok(None) => none_told(global),
        Err(fault) => too_many(global, fault),
    }
}

/// Tells an order.
fn order_reported(global: Global, course: &Course, order: &[usize]) -> Result<Told, AllocError>
    requires { IsSound (course_in course.now) }
    ensures { IfOk result (ReportsClean (order_text (raced_of (course_in course.now)) order.now)) }
{
    let count = course.in_order();
    let steps = course.steps.as_slice();
    let mut text = Vec::new(global);
    add_order(&mut text, global, &steps[count..], order)?;
    Ok(clean(text))
}

/// Tells that there is none.
fn none_told(global: Global) -> Result<Told, AllocError>
    ensures { IfOk result (ReportsUnclean none_text) }
{
    let text = Vec::from_slice(global, b"no order gives these replies\n")?;
    Ok(unclean(text))
}

/// Whether a reply has the given text, if one was given.
fn reads(global: Global, reply: Reply, text: &Option<Vec<u8>>) -> Result<bool, AllocError>
    ensures { IfOk result (λ b. b ≡ is_read (text_of_reply reply) (option_map (λ v. v.items) text.now)) }
{
    match text {
        Some(text) => {
            let said = text_of(global, reply)?;
            Ok(said.as_slice() == text.as_slice())
        }
        None => Ok(true),
    }
}

/// The first step with another text than its reply.
fn first_apart(
    global: Global,
    steps: &[Asked],
    replies: &[Reply],
    texts: &[Option<Vec<u8>>],
) -> Result<Option<(u64, Reply)>, AllocError>
    requires replies { length replies.now ≡ length steps.now }
    requires texts { length texts.now ≡ length steps.now }
    ensures { IfOk result (λ o. o ≡ first_apart_of steps.now replies.now (texts_in texts.now)) }
{
    for place in 0..steps.len() {
        if !reads(global, replies[place], &texts[place])? {
            return Ok(Some((steps[place].line, replies[place])));
        }
    }
    Ok(None)
}

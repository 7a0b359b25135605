//! A trace that is run, and the states kept of it for a picture.
ghost use Rattle.std.specs.Prelude.{◌≡◌, ◌+◌, ◌^◌, ◌<◌, IfOk, map};
ghost use Rattle.trace_draw.specs.Courses.{Leads};
ghost use Rattle.trace_text.specs.Ready.{IsReady};
ghost use Rattle.trace_text.specs.Session.{at_start};
ghost use Rattle.trace_text.specs.View.{standing_of};

use crate::bands::{Band, bands_of};
use call_table::{Reply, VmKind};
use std::alloc::{AllocError, Allocator, Global};
use trace_lines::Response;
use trace_text::{Fault, Reported, Session, Stop, line_run};
use vm_table::{Slot, SlotState};
use world::World;

/// How a run of a trace ended.
#[derive(Clone, Copy)]
pub enum Ended {
    /// With its last line.
    Clean,
    /// With the fault of a line, counted from 1.
    Fault { line: u64, fault: Fault },
}

impl Ended {
    /// The fault of the line at a place, counted from 0.
    pub(crate) fn at(place: usize, fault: Fault) -> Ended
        requires { place + 1 < 2 ^ 64 }
        ensures { result ≡ Ended.Fault (place + 1) fault }
    {
        Ended::Fault {
            line: place as u64 + 1,
            fault,
        }
    }
}

/// A VM slot that is drawn.
#[derive(Clone, Copy, PartialEq)]
pub(crate) struct SlotLook {
    pub(crate) slot: u64,
    pub(crate) generation: u64,
    pub(crate) kind: VmKind,
    pub(crate) state: SlotState,
}

/// The parts of a state that a picture shows.
#[derive(Drop)]
pub(crate) struct Scene {
    pub(crate) bands: Vec<Band>,
    /// The slots that aren't Vacant, by number.
    pub(crate) slots: Vec<SlotLook>,
}

/// A row of a picture: a step, and the state after it.
#[derive(Clone, Copy)]
pub(crate) struct Moment {
    /// The place of its line, counted from 0.
    pub(crate) place: usize,
    /// None for the boot.
    pub(crate) reply: Option<Reply>,
    /// The place of the scene in the list of scenes.
    pub(crate) scene: usize,
}

/// A run of a trace: its moments, each distinct scene, and how it ended.
#[derive(Drop)]
pub(crate) struct Course {
    pub(crate) moments: Vec<Moment>,
    pub(crate) scenes: Vec<Scene>,
    pub(crate) ended: Ended,
}

/// Runs a trace up to its end or its first fault, and keeps the states to draw.
pub(crate) fn made<A: Allocator + Copy>(
    global: Global,
    session: &mut Session<A>,
    lines: &[&[u8]],
) -> Result<Course, AllocError>
    requires start { standing_of session.old ≡ at_start }
    requires ready { IsReady session.old }
    ensures { IfOk result
        (λ c. Leads 1 at_start (map (λ line. line.now) lines.now)
        (standing_of session.new) c.ended) }
{
    let mut moments = Vec::new(global);
    let mut scenes = Vec::new(global);
    let ended = filled(global, session, lines, &mut moments, &mut scenes)?;
    Ok(Course {
        moments,
        scenes,
        ended,
    })
}

fn filled<A: Allocator + Copy>(
    global: Global,
    session: &mut Session<A>,
    lines: &[&[u8]],
    moments: &mut Vec<Moment>,
    scenes: &mut Vec<Scene>,
) -> Result<Ended, AllocError>
    requires start { standing_of session.old ≡ at_start }
    requires ready { IsReady session.old }
    ensures { IfOk result (Leads 1 at_start (map (λ line. line.now) lines.now) (standing_of session.new)) }
{
    for place in 0..lines.len() {
        match line_run(session, lines, place) {
            Ok(reported) => note(global, session, place, reported, moments, scenes)?,
            Err(Stop::Fault(fault)) => return Ok(Ended::at(place, fault)),
            Err(Stop::NoMemory) => return Err(AllocError),
        }
    }
    Ok(Ended::Clean)
}

/// Keeps a moment after the boot and after each step.
fn note<A: Allocator + Copy>(
    global: Global,
    session: &Session<A>,
    place: usize,
    reported: Reported,
    moments: &mut Vec<Moment>,
    scenes: &mut Vec<Scene>,
) -> Result<(), AllocError> {
    let reply = match reported {
        Reported::Step(Response::Step { reply, .. }, _) => Some(reply),
        Reported::Line(Response::Boot { .. }) => None,
        _ => return Ok(()),
    };
    let Some(world) = session.world() else {
        return Ok(());
    };
    keep_scene(scenes, scene_of(global, world)?)?;
    moments.push(Moment {
        place,
        reply,
        scene: scenes.len().saturating_sub(1),
    })?;
    Ok(())
}

/// Puts a scene last, unless it is the last already.
fn keep_scene(scenes: &mut Vec<Scene>, scene: Scene) -> Result<(), AllocError> {
    if let Some(last) = scenes.last() {
        if is_same(last, &scene) {
            drop(scene);
            return Ok(());
        }
    }
    scenes.push(scene)?;
    Ok(())
}

fn is_same(one: &Scene, other: &Scene) -> bool {
    one.bands.as_slice() == other.bands.as_slice() && one.slots.as_slice() == other.slots.as_slice()
}

/// The parts of a world that a picture shows.
fn scene_of<A: Allocator>(global: Global, world: &World<A>) -> Result<Scene, AllocError> {
    let bands = bands_of(global, world.parts().shared.owners.runs())?;
    let slots = slots_of(global, world)?;
    Ok(Scene { bands, slots })
}

fn slots_of<A: Allocator>(global: Global, world: &World<A>) -> Result<Vec<SlotLook>, AllocError> {
    let mut looks = Vec::new(global);
    for slot in 0..64 {
        let entry = world.parts().vms.table.slot(slot);
        if entry.state != SlotState::Vacant {
            looks.push(slot_look(slot, entry))?;
        }
    }
    Ok(looks)
}

fn slot_look(slot: u64, entry: Slot) -> SlotLook {
    SlotLook {
        slot,
        generation: entry.generation,
        kind: entry.kind,
        state: entry.state,
    }
}

//! A snapshot as text: the owner rows where a trace ends, and the VM slots.
ghost use Rattle.std.specs.Prelude.{◌≡◌, [], ◌++◌, codes, IfOk, OnOk, Some, map, string_bytes};
ghost use Rattle.trace_draw.specs.Courses.{Leads};
ghost use Rattle.trace_draw.specs.Snapshots.{IsSnapshot, IsTextOf, ReportsMachine};
ghost use Rattle.trace_draw.specs.Texts.{line_by, line_of_run, text_of_run, text_of_runs, text_of_slot, text_of_slots};
ghost use Rattle.trace_text.specs.Ready.{IsReady};
ghost use Rattle.trace_text.specs.Session.{at_start};
ghost use Rattle.trace_text.specs.View.{machine_of, standing_of};
ghost use Rattle.vm_table.specs.View.{slot_of, vms_of};

use crate::course::Ended;
use call_table::{VmId, vm_kind_word};
use ghost_oracle::stand_from;
use page_state::Row;
use run_list::Run;
use state_changes::stand_word;
use std::alloc::{AllocError, Allocator, Global};
use std::fmt;
use std::fmt::Write;
use trace_reader::lines;
use trace_text::{Session, Stop, line_run};
use vm_table::{Slot, SlotState, VmTable};
use world::World;

/// The end of a trace as text, and how the run of the trace ended.
#[derive(Drop)]
pub struct TextDrawing {
    pub text: String,
    pub ended: Ended,
}

/// A line for each run of owner rows, and one for each VM slot that isn't Empty, at the end of a trace: its last line,
/// or its first fault. A trace that hasn't booted has no text.
pub fn draw_text<A: Allocator + Copy>(
    global: Global,
    alloc: A,
    trace: &[u8],
) -> Result<TextDrawing, AllocError>
    ensures { IfOk result (λ d. IsSnapshot trace.now d.ended (string_bytes d.text)) }
{
    let lines = lines(global, trace)?;
    let mut session = Session::new(global, alloc);
    let mut text = String::new(global);
    let made = end_of(&mut session, lines.as_slice(), &mut text);
    drop(session);
    let ended = made?;
    Ok(TextDrawing { text, ended })
}

/// Runs a trace, and writes the state at its end.
fn end_of<A: Allocator + Copy>(
    session: &mut Session<A>,
    lines: &[&[u8]],
    text: &mut String,
) -> Result<Ended, AllocError>
    requires start { standing_of session.old ≡ at_start }
    requires ready { IsReady session.old }
    requires empty { string_bytes text.old ≡ [] }
    ensures run { IfOk result (Leads 1 at_start (map (λ line. line.now) lines.now) (standing_of session.new)) }
    ensures text { OnOk result (ReportsMachine (standing_of session.new).machine (string_bytes text.new)) }
{
    let ended = run_all(session, lines)?;
    write_end(session, text)?;
    Ok(ended)
}

/// Runs a trace up to its end or its first fault.
fn run_all<A: Allocator + Copy>(
    session: &mut Session<A>,
    lines: &[&[u8]],
) -> Result<Ended, AllocError>
    requires start { standing_of session.old ≡ at_start }
    requires ready { IsReady session.old }
    ensures { IfOk result (Leads 1 at_start (map (λ line. line.now) lines.now) (standing_of session.new)) }
{
    for place in 0..lines.len() {
        match line_run(session, lines, place) {
            Ok(_) => {}
            Err(Stop::Fault(fault)) => return Ok(Ended::at(place, fault)),
            Err(Stop::NoMemory) => return Err(AllocError),
        }
    }
    Ok(Ended::Clean)
}

/// Writes the state at the end of a run.
fn write_end<A: Allocator + Copy>(session: &Session<A>, text: &mut String) -> Result<(), AllocError>
    requires { string_bytes text.old ≡ [] }
    ensures { OnOk result (ReportsMachine (standing_of session.now).machine (string_bytes text.new)) }
{
    let Some(world) = session.world() else {
        return Ok(());
    };
    write_world(world, text)?;
    Ok(())
}

/// Writes the state of a world.
fn write_world<A: Allocator>(world: &World<A>, text: &mut String) -> Result<(), AllocError>
    requires { string_bytes text.old ≡ [] }
    ensures { OnOk result (IsTextOf (machine_of world.now) (string_bytes text.new)) }
{
    let parts = world.parts();
    write_runs(parts.shared.owners.runs(), text)?;
    write_slots(&parts.vms.table, text)?;
    Ok(())
}

/// Writes a line for each run of rows.
fn write_runs(runs: &[Run<Row>], text: &mut String) -> Result<(), AllocError>
    ensures { OnOk result (string_bytes text.new ≡ string_bytes text.old ++ text_of_runs runs.now) }
{
    for run in runs {
        write_run(*run, text)?;
    }
    Ok(())
}

fn write_run(run: Run<Row>, text: &mut String) -> Result<(), AllocError>
    ensures { OnOk result (string_bytes text.new ≡ string_bytes text.old ++ line_of_run run) }
{
    let line = RowsLine(run);
    writeln!(text, "{line}")
}

/// Writes a line for each slot that isn't Empty.
fn write_slots(table: &VmTable, text: &mut String) -> Result<(), AllocError>
    ensures { OnOk result
        (string_bytes text.new
        ≡ string_bytes text.old ++ text_of_slots (vms_of table.now).slot 64) }
{
    for slot in 0..64 {
        let entry = table.slot(slot);
        write_slot(slot, entry, text)?;
    }
    Ok(())
}

/// Writes the line of a slot, unless it is Empty.
fn write_slot(slot: u64, entry: Slot, text: &mut String) -> Result<(), AllocError>
    ensures { OnOk result
        (string_bytes text.new
        ≡ string_bytes text.old
        ++ line_by (slot_of entry).stand (text_of_slot slot (slot_of entry))) }
{
    match entry.state {
        SlotState::Vacant => Ok(()),
        SlotState::Reserved | SlotState::Open | SlotState::Closing => {
            let line = SlotLine { slot, entry };
            writeln!(text, "{line}")
        }
    }
}

/// A run of owner rows.
#[derive(Clone, Copy)]
struct RowsLine(Run<Row>);

impl fmt::Display for RowsLine {
    ghost output = { λ line. Some (text_of_run line.0) };

    fn fmt<W: fmt::Write>(&self, f: &mut fmt::Formatter<W>) -> fmt::Result {
        let Run { pages, value } = self.0;
        write!(f, "rows 0x{:x} {} {value}", pages.first.0, pages.count)
    }
}

/// A slot that isn't Empty.
#[derive(Clone, Copy)]
struct SlotLine {
    slot: u64,
    entry: Slot,
}

impl fmt::Display for SlotLine {
    ghost output = { λ line. Some (text_of_slot line.slot (slot_of line.entry)) };

    fn fmt<W: fmt::Write>(&self, f: &mut fmt::Formatter<W>) -> fmt::Result {
        let vm = VmId {
            slot: self.slot,
            generation: self.entry.generation,
        };
        let stand = stand_word(stand_from(self.entry.state));
        let kind = vm_kind_word(self.entry.kind);
        let vcpus = self.entry.vcpus;
        write!(f, "vm {vm} {stand} {kind} vcpus {vcpus}")
    }
}

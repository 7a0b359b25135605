//! The end of a race: the machine is shut down, each reply compared with the model's along the merged list, and the
//! world audited.
ghost use Rattle.std.specs.Prelude.{◌≡◌, ◌≤◌, [], IfOk, OnOk, None, length};
ghost use Rattle.page_state.specs.LayoutView.{layout_of};
ghost use Rattle.reference_model.specs.model.Boot.{boot};
ghost use Rattle.ghost_oracle.specs.Counted.{HasRead, tables_of_parts};
ghost use Rattle.ghost_spec.specs.States.{contents_in, ghost_state};
ghost use Rattle.hypercalls.specs.Stands.{kept_of, parts_layout};
ghost use Rattle.world.specs.Merges.{AreLogsOf, ReportsMerged};
ghost use Rattle.table_tree.specs.Reading.{count_of};
ghost use Rattle.trace_race.specs.Judged.{HasGenerationsTo, JudgesAll};
ghost use Rattle.trace_race.specs.Made.{AreMade, OneHistory};
ghost use Rattle.trace_race.specs.Ordered.{AreAsked, IsOfLogs};
ghost use Rattle.trace_race.specs.Orders.{IsOrder};

use crate::course::Asked;
use crate::judged::judge_all;
use crate::ordering::order_text;
use call_table::{Reply, Step};
use cpu_threads::{CpuPass, Machine};
use ghost_judge::disagreement::Disagreement;
use ghost_spec::state::Ghost;
use std::alloc::{AllocError, Global};
use table_tree::Reads;
use world::{Histories, World};

/// The findings of comparing: the replies that aren't the model's, and the difference at the end between the kept state
/// and a walk. Beside them is the order of the steps.
#[derive(Drop)]
pub(crate) struct Compared {
    pub judged: Vec<Disagreement>,
    pub audited: Option<Disagreement>,
    /// The text of the order, if it is asked for.
    pub order: Vec<u8>,
}

/// Ends a machine whose CPUs are done, without its world. There is one legal history of all steps.
pub(crate) fn dropped(
    machine: Machine<Global>,
    passes: Vec<CpuPass<Global>>,
    steps: &[Asked],
    start: usize,
    replies: &[Reply],
)
    requires { AreMade machine.table start steps.now replies.now passes.items }
    ensures { OneHistory (layout_of machine.table.layout) start steps.now replies.now }
{
    let _ = steps;
    let _ = start;
    let _ = replies;
    machine.drop_with(passes);
}

/// The world of a machine whose CPUs are done, and its logs. There is one legal history of all steps.
fn ended(
    global: Global,
    machine: Machine<Global>,
    passes: Vec<CpuPass<Global>>,
    steps: &[Asked],
    start: usize,
    replies: &[Reply],
) -> Result<(World<Global>, Histories), AllocError>
    requires { AreMade machine.table start steps.now replies.now passes.items }
    ensures layout { IfOk result (λ r. r.0.parts.layout ≡ machine.table.layout) }
    ensures logs { IfOk result (λ r. AreLogsOf r.1 (parts_layout r.0.parts) (kept_of r.0.parts)) }
    ensures of { IfOk result
        (λ r. IsOfLogs (layout_of machine.table.layout) start steps.now replies.now r.1) }
    ensures history { OneHistory (layout_of machine.table.layout) start steps.now replies.now }
{
    match machine.shutdown(global, passes) {
        Ok((world, logs)) => Ok((world, logs)),
        Err((machine, passes, _)) => {
            dropped(machine, passes, steps, start, replies);
            Err(AllocError)
        }
    }
}

/// Where the replies of logs aren't the model's, from a state on along their merged list, and that list.
fn compare_replies(
    global: Global,
    state: Ghost,
    logs: &Histories,
) -> Result<(Vec<Disagreement>, Vec<(u64, Step, Reply)>), AllocError>
    requires cpus { length logs.now.cpus.items ≤ state.layout.config.cpus }
    requires generations { HasGenerationsTo 1 (contents_in state) }
    ensures merged { IfOk result (λ r. ReportsMerged logs.now r.1.items) }
    ensures judged { IfOk result
        (λ r. JudgesAll (layout_of state.layout) (ghost_state state) r.1.items r.0.items) }
{
    let Ok(calls) = World::<Global>::merge(global, logs) else {
        drop(state);
        return Err(AllocError);
    };
    let judged = judge_all(global, state, calls.as_slice())?;
    Ok((judged, calls))
}

/// Compares each reply with the model's along the merged list, takes the order from that list if it is asked for, and
/// audits. `reads` counts the words that the audit reads.
fn compare(
    global: Global,
    state: Ghost,
    world: &World<Global>,
    logs: &Histories,
    steps: &[Asked],
    start: usize,
    replies: &[Reply],
    ordered: bool,
    reads: &mut Reads,
) -> Result<Compared, AllocError>
    requires layout { layout_of state.layout ≡ parts_layout world.now.parts }
    requires boot { ghost_state state ≡ boot (layout_of state.layout) }
    requires logs { AreLogsOf logs.now (parts_layout world.now.parts) (kept_of world.now.parts) }
    requires replied { length replies.now ≡ length steps.now }
    requires asked { AreAsked world.now.parts.layout.config.cpus start steps.now }
    requires of { IsOfLogs (parts_layout world.now.parts) start steps.now replies.now logs.now }
    ensures agree { IfOk result (λ c. (c.judged.items ≡ []) × (c.audited ≡ None)) }
    ensures order { IfOk result
        (λ c. IsOrder ordered (parts_layout world.now.parts) start steps.now replies.now
        c.order.items) }
    ensures reads { OnOk result
        (HasRead (count_of reads.old) (tables_of_parts world.now.parts) (count_of reads.new)) }
{
    let (judged, calls) = compare_replies(global, state, logs)?;
    let order = order_text(
        global,
        ordered,
        world,
        calls.as_slice(),
        steps,
        start,
        replies,
    )?;
    let audited = world.audit(global, reads)?;
    Ok(Compared {
        judged,
        audited,
        order,
    })
}

/// Shuts a machine down whose CPUs have made all steps, compares, and orders the steps if that is asked for. `state` is
/// the model's at boot.
pub(crate) fn compared_at_end(
    global: Global,
    machine: Machine<Global>,
    passes: Vec<CpuPass<Global>>,
    steps: &[Asked],
    start: usize,
    replies: &[Reply],
    state: Ghost,
    ordered: bool,
) -> Result<Compared, AllocError>
    requires done { AreMade machine.table start steps.now replies.now passes.items }
    requires layout { layout_of machine.table.layout ≡ layout_of state.layout }
    requires boot { ghost_state state ≡ boot (layout_of state.layout) }
    requires replied { length replies.now ≡ length steps.now }
    requires asked { AreAsked state.layout.config.cpus start steps.now }
    ensures agree { IfOk result (λ c. (c.judged.items ≡ []) × (c.audited ≡ None)) }
    ensures order { IfOk result
        (λ c. IsOrder ordered (layout_of state.layout) start steps.now replies.now c.order.items) }
    ensures history { OneHistory (layout_of state.layout) start steps.now replies.now }
{
    let Ok((world, logs)) = ended(global, machine, passes, steps, start, replies) else {
        drop(state);
        return Err(AllocError);
    };
    let found = compare(
        global,
        state,
        &world,
        &logs,
        steps,
        start,
        replies,
        ordered,
        &mut Reads::new(),
    );
    drop(logs);
    drop(world);
    found
}

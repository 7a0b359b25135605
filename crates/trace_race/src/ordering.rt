//! The order in which the steps after `start` took effect, along the merged list of all calls.
ghost use Rattle.std.specs.Prelude.{◌≡◌, ◌≢◌, ◌<◌, ◌≤◌, ◌==◌, ◌^◌, ◌+◌, ◌++◌, ◌∷◌, ℕ, [], All, IfOk, OnOk, filter, if◌then◌else◌, length, map, nat_lt, slice_index};
ghost use Rattle.hypercalls.specs.Stands.{parts_layout};
ghost use Rattle.trace_race.specs.Made.{AreBelow, is_stored as is_stored_of};
ghost use Rattle.trace_race.specs.Ordered.{AreAsked, IsMergedOf, IsNext, OrdersBy, behind as behind_of, less_at, own_from};
ghost use Rattle.trace_race.specs.Orders.{HasOrder, IsOrder, idle_order as idle_order_of, numbers_text, order_text as order_text_of};

use crate::course::Asked;
use crate::making::starts;
use call_table::{Refusal, Reply, Step};
use std::alloc::{AllocError, Global};
use world::World;

/// Whether logs store a call with this reply.
fn is_stored(reply: Reply) -> bool
    ensures { result ≡ is_stored_of reply }
{
    match reply {
        Reply::Refused(Refusal::LogFull) => false,
        Reply::Refused(Refusal::Contended) => false,
        _ => true,
    }
}

/// One more at a CPU's place.
fn add_one(counts: &mut Vec<usize>, cpu: usize)
    requires inside { cpu < length counts.old.items }
    requires few { slice_index counts.old.items cpu < 2 ^ 63 }
    ensures count { length counts.new.items ≡ length counts.old.items }
    ensures here { slice_index counts.new.items cpu ≡ slice_index counts.old.items cpu + 1 }
    ensures others { (j : ℕ) → j ≢ cpu → slice_index counts.new.items j ≡ slice_index counts.old.items j }
{
    counts[cpu] += 1;
}

/// How many steps of each of `count` CPUs are stored.
fn stored_counts(
    global: Global,
    count: usize,
    steps: &[Asked],
    replies: &[Reply],
) -> Result<Vec<usize>, AllocError>
    requires replied { length replies.now ≡ length steps.now }
    requires below { AreBelow count steps.now }
    ensures count { IfOk result (λ v. length v.items ≡ count) }
    ensures each { IfOk result
        (λ v. (cpu : ℕ)
        → slice_index v.items cpu ≡ length (own_from cpu 0 steps.now replies.now)) }
{
    let mut counts = starts(global, count)?;
    for i in 0..steps.len() {
        if !is_stored(replies[i]) {
            continue;
        }
        add_one(&mut counts, steps[i].cpu as usize);
    }
    Ok(counts)
}

/// Whether a CPU has calls left to leave out. Then this call is one of them.
fn is_left(counts: &mut Vec<usize>, cpu: usize) -> bool
    requires { cpu < length counts.old.items }
    ensures is { result ≡ nat_lt 0 (slice_index counts.old.items cpu) }
    ensures count { length counts.new.items ≡ length counts.old.items }
    ensures less { (k : ℕ)
        → slice_index counts.new.items k
        ≡ (if result then less_at (λ c. slice_index counts.old.items c) cpu k
        else slice_index counts.old.items k) }
{
    let left = counts[cpu];
    if left == 0 {
        return false;
    }
    counts[cpu] = left - 1;
    true
}

/// The CPUs of calls, in order, without the first calls of each CPU, of which there are this many.
fn behind(
    global: Global,
    calls: &[(u64, Step, Reply)],
    counts: Vec<usize>,
) -> Result<Vec<u64>, AllocError>
    requires { All (λ c. c.0 < length counts.items) calls.now }
    ensures { IfOk result
        (λ v. v.items ≡ behind_of (λ cpu. slice_index counts.items cpu) (map (λ c. c.0) calls.now)) }
{
    let mut counts = counts;
    let mut cpus = Vec::new(global);
    for i in 0..calls.len() {
        let cpu = calls[i].0;
        if !is_left(&mut counts, cpu as usize) {
            cpus.push(cpu)?;
        }
    }
    Ok(cpus)
}

/// The place of the next step of a CPU that is stored.
fn next_of(steps: &[Asked], replies: &[Reply], from: usize, cpu: u64) -> usize
    requires count { length replies.now ≡ length steps.now }
    requires some { own_from cpu from steps.now replies.now ≢ [] }
    ensures inside { result < length steps.now }
    ensures next { IsNext steps.now replies.now from cpu result }
{
    for place in from..steps.len() {
        if steps[place].cpu == cpu && is_stored(replies[place]) {
            return place;
        }
    }
    unreachable!()
}

/// Puts a number at a CPU's place.
fn put(cursors: &mut Vec<usize>, cpu: usize, place: usize)
    requires { cpu < length cursors.old.items }
    ensures count { length cursors.new.items ≡ length cursors.old.items }
    ensures here { slice_index cursors.new.items cpu ≡ place }
    ensures others { (j : ℕ)
        → j ≢ cpu
        → slice_index cursors.new.items j ≡ slice_index cursors.old.items j }
{
    cursors[cpu] = place;
}

/// The lines of the stored steps, in the order of these CPUs. Each of `count` CPUs has a cursor to its next step.
fn lines_of(
    global: Global,
    count: usize,
    steps: &[Asked],
    replies: &[Reply],
    cpus: &[u64],
) -> Result<Vec<u64>, AllocError>
    requires replied { length replies.now ≡ length steps.now }
    requires below { All (λ cpu. cpu < count) cpus.now }
    requires fits { (cpu : ℕ)
        → length (filter (λ k. k == cpu) cpus.now)
        ≡ length (own_from cpu 0 steps.now replies.now) }
    ensures { IfOk result (λ v. OrdersBy steps.now replies.now cpus.now v.items) }
{
    let mut cursors = starts(global, count)?;
    let mut lines = Vec::new(global);
    for i in 0..cpus.len() {
        let cpu = cpus[i];
        let place = next_of(steps, replies, cursors[cpu as usize], cpu);
        put(&mut cursors, cpu as usize, place + 1);
        lines.push(steps[place].line)?;
    }
    Ok(lines)
}

/// The line numbers of the steps after the first `start`, in the order of the merged list of all calls. That list may
/// have calls of one CPU from before `start` behind those of another from after it: each CPU's first calls are left
/// out, as many as its steps before `start` that are stored.
fn order_of(
    global: Global,
    world: &World<Global>,
    calls: &[(u64, Step, Reply)],
    steps: &[Asked],
    start: usize,
    replies: &[Reply],
) -> Result<Vec<u64>, AllocError>
    requires replied { length replies.now ≡ length steps.now }
    requires asked { AreAsked world.now.parts.layout.config.cpus start steps.now }
    requires merged { IsMergedOf (parts_layout world.now.parts) start steps.now replies.now calls.now }
    ensures { IfOk result
        (λ v. HasOrder (parts_layout world.now.parts) start steps.now replies.now v.items) }
{
    let count = world.cpus() as usize;
    let (before, after) = steps.split_at(start);
    let (first, rest) = replies.split_at(start);
    let counts = stored_counts(global, count, before, first)?;
    let cpus = behind(global, calls, counts)?;
    lines_of(global, count, after, rest, cpus.as_slice())
}

fn add_number(text: &mut Vec<u8>, global: Global, line: u64) -> Result<(), AllocError>
    ensures { OnOk result (text.new.items ≡ text.old.items ++ numbers_text (line ∷ [])) }
{
    let said = format!(in global; " {line}")?;
    text.extend_from_slice(said.as_bytes())?;
    Ok(())
}

fn add_numbers(text: &mut Vec<u8>, global: Global, lines: &[u64]) -> Result<(), AllocError>
    ensures { OnOk result (text.new.items ≡ text.old.items ++ numbers_text lines.now) }
{
    for line in lines {
        add_number(text, global, *line)?;
    }
    Ok(())
}

/// The line of an order.
fn order_line(global: Global, lines: &[u64]) -> Result<Vec<u8>, AllocError>
    ensures { IfOk result (λ text. text.items ≡ order_text_of lines.now) }
{
    let mut text = Vec::new(global);
    text.extend_from_slice(b"order")?;
    add_numbers(&mut text, global, lines)?;
    text.extend_from_slice(b"\n")?;
    Ok(text)
}

/// The text before a report's last line: that of the order, if it is asked for.
pub(crate) fn order_text(
    global: Global,
    ordered: bool,
    world: &World<Global>,
    calls: &[(u64, Step, Reply)],
    steps: &[Asked],
    start: usize,
    replies: &[Reply],
) -> Result<Vec<u8>, AllocError>
    requires replied { length replies.now ≡ length steps.now }
    requires asked { AreAsked world.now.parts.layout.config.cpus start steps.now }
    requires merged { IsMergedOf (parts_layout world.now.parts) start steps.now replies.now calls.now }
    ensures { IfOk result
        (λ text. IsOrder ordered (parts_layout world.now.parts) start steps.now replies.now
        text.items) }
{
    if !ordered {
        return Ok(Vec::new(global));
    }
    let lines = order_of(global, world, calls, steps, start, replies)?;
    order_line(global, lines.as_slice())
}

/// That of a trace that boots nothing.
pub(crate) fn idle_order(ordered: bool) -> &'static [u8]
    ensures { result.now ≡ idle_order_of ordered }
{
    if ordered { b"order\n" } else { b"" }
}

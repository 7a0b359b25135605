//! Logs of a world become one list of calls: the call that is next in all its logs, again and again.
ghost use Rattle.std.specs.Prelude.{◌≡◌, ◌<◌, ◌↔◌, ◌==◌, ℕ, true, IsTrue, IfErr, IfNone, IfOk, IfSome, List, Some, [], drop, length, slice_index, if◌then◌else◌};
ghost use Rattle.call_table.specs.declared.reply.Call.{Call};
ghost use Rattle.reference_model.specs.model.Parts.{is_slot, Part, guest_part};
ghost use Rattle.reference_model.specs.model.Rules.{call_uses};
ghost use Rattle.world.specs.Merges.{IsMerged, ReportsMerged, log_at, merge_number};
ghost use Rattle.world.specs.declared.merge.MergeFault.TheVariants.{NoOrder};
ghost use Rattle.world.specs.inner.Merging.{after_call, first_of, left, on, rest_of, whole, IsNext, IsPlaced, LogName, left_at, IsAdvanced};

use call_table::{Call, Reply, Step};
use hypercalls::{uses_shared, uses_vms};
use std::alloc::{AllocError, Global};
use thiserror::Error;

/// The logs of a world as lists of calls, the oldest first. They need not be those of one history.
#[derive(Drop)]
pub struct Histories {
    /// The VM part's.
    pub vms: Vec<Call>,
    /// The Shared part's.
    pub shared: Vec<Call>,
    /// The Guest parts', by slot.
    pub guests: Vec<Vec<Call>>,
    /// Each CPU's own calls, by the CPU's number.
    pub cpus: Vec<Vec<Call>>,
}

/// Why logs aren't merged.
#[derive(Clone, Copy, PartialEq, Debug, Error)]
pub enum MergeFault {
    /// (1) A growth was refused.
    #[error("out of memory")]
    NoMemory,
    /// (2) No list of calls has these logs.
    #[error("no list of calls has these logs")]
    NoOrder,
}

impl MergeFault {
    /// The fault's number.
    pub fn number(self) -> u64
        ensures { result ≡ merge_number self }
    {
        match self {
            MergeFault::NoMemory => 1,
            MergeFault::NoOrder => 2,
        }
    }
}

/// How many calls of each log were given.
#[derive(Drop)]
struct Places {
    vms: usize,
    shared: usize,
    guests: Vec<usize>,
    cpus: Vec<usize>,
}

/// A place at the start of each of `n` logs.
fn starts(global: Global, n: usize) -> Result<Vec<usize>, AllocError>
    ensures count { IfOk result (λ v. length v.items ≡ n) }
    ensures start { IfOk result (λ v. (i : ℕ) → slice_index v.items i ≡ 0) }
{
    let mut places = Vec::new(global);
    for _ in 0..n {
        places.push(0)?;
    }
    Ok(places)
}

/// A place at the start of each log.
fn all_starts(global: Global, histories: &Histories) -> Result<Places, AllocError>
    ensures placed { IfOk result (IsPlaced histories.now) }
    ensures start { IfOk result (λ g. (x : LogName) → left histories.now g x ≡ whole histories.now x) }
{
    Ok(Places {
        vms: 0,
        shared: 0,
        guests: starts(global, histories.guests.len())?,
        cpus: starts(global, histories.cpus.len())?,
    })
}

/// Whether a call is next in a log.
fn is_next_in(log: &[Call], place: usize, call: &Call) -> bool
    ensures { IsTrue result ↔ (first_of (drop place log.now) ≡ Some call.now) }
{
    match log.get(place) {
        Some(next) => next == call,
        None => false,
    }
}

/// Whether a call is next in a log, if the log has it at all.
fn is_next_where(used: bool, log: &[Call], place: usize, call: &Call) -> bool
    ensures { IsTrue result ↔ (used ≡ true → first_of (drop place log.now) ≡ Some call.now) }
{
    !used || is_next_in(log, place, call)
}

/// Whether a call is next in the log of a number, in a list of logs.
fn is_next_at(logs: &[Vec<Call>], places: &[usize], i: u64, call: &Call) -> bool
    requires { length places.now ≡ length logs.now }
    ensures { IsTrue result ↔ (first_of (left_at logs.now places.now i) ≡ Some call.now) }
{
    let i = i as usize;
    if i < logs.len() {
        is_next_in(logs[i].as_slice(), places[i], call)
    } else {
        false
    }
}

/// Whether a call is next in the log of the guest that it uses, if any.
fn is_next_on_guest(histories: &Histories, places: &Places, call: &Call) -> bool
    requires { IsPlaced histories.now places.now }
    ensures { IsTrue result
        ↔ ((v : ℕ)
        → is_slot call.now.slot v ≡ true
        → first_of (left histories.now places.now (on (guest_part v))) ≡ Some call.now) }
{
    match call.slot {
        Some(v) => is_next_at(
            histories.guests.as_slice(),
            places.guests.as_slice(),
            v,
            call,
        ),
        None => true,
    }
}

/// Whether a call is next in the log of each part that it uses.
fn is_next_on_parts(histories: &Histories, places: &Places, call: &Call) -> bool
    requires { IsPlaced histories.now places.now }
    ensures { IsTrue result
        ↔ ((p : Part)
        → call_uses p call.now ≡ true
        → first_of (left histories.now places.now (on p)) ≡ Some call.now) }
{
    if !is_next_where(
        uses_vms(call.step),
        histories.vms.as_slice(),
        places.vms,
        call,
    ) {
        return false;
    }
    if !is_next_where(
        uses_shared(call.step, call.slot),
        histories.shared.as_slice(),
        places.shared,
        call,
    ) {
        return false;
    }
    is_next_on_guest(histories, places, call)
}

/// The next call of a CPU, if it is next in all its logs.
fn next_by(histories: &Histories, places: &Places, cpu: usize) -> Option<Call>
    requires placed { IsPlaced histories.now places.now }
    requires inside { cpu < length histories.now.cpus.items }
    ensures next { IfSome result (IsNext (left histories.now places.now)) }
    ensures none { IfNone result ((c : Call) → c.cpu ≡ cpu → IsNext (left histories.now places.now) c → ⊥) }
{
    let Some(call) = histories.cpus[cpu].as_slice().get(places.cpus[cpu]) else {
        return None;
    };
    if call.cpu != cpu as u64 {
        return None;
    }
    if is_next_on_parts(histories, places, call) {
        Some(*call)
    } else {
        None
    }
}

/// A call that is next in all its logs. The CPUs are tried in order.
fn find_next(histories: &Histories, places: &Places) -> Option<Call>
    requires { IsPlaced histories.now places.now }
    ensures next { IfSome result (IsNext (left histories.now places.now)) }
    ensures none { IfNone result ((c : Call) → IsNext (left histories.now places.now) c → ⊥) }
{
    for cpu in 0..histories.cpus.len() {
        if let Some(call) = next_by(histories, places, cpu) {
            return Some(call);
        }
    }
    None
}

/// The place in a log after its next call, if that call was taken; otherwise the same place.
fn place_after(given: bool, log: &[Call], place: usize) -> usize
    ensures { drop result log.now ≡ (if given then rest_of (drop place log.now) else drop place log.now) }
{
    if given && place < log.len() {
        place + 1
    } else {
        place
    }
}

/// Goes on in the log of a number, in a list of logs.
fn advance_at(logs: &[Vec<Call>], places: &mut Vec<usize>, i: u64)
    requires { length places.old.items ≡ length logs.now }
    ensures count { length places.new.items ≡ length places.old.items }
    ensures left { IsAdvanced (λ k. k == i) logs.now places.old.items places.new.items }
{
    let i = i as usize;
    if i < logs.len() {
        places[i] = place_after(true, logs[i].as_slice(), places[i]);
    }
}

/// Goes on in the log of a slot, if any.
fn advance_on_guest(logs: &[Vec<Call>], places: &mut Vec<usize>, slot: Option<u64>)
    requires { length places.old.items ≡ length logs.now }
    ensures count { length places.new.items ≡ length places.old.items }
    ensures left { IsAdvanced (is_slot slot) logs.now places.old.items places.new.items }
{
    if let Some(v) = slot {
        advance_at(logs, places, v);
    }
}

/// Goes on in all logs of a call.
fn advance(histories: &Histories, places: &mut Places, call: &Call)
    requires { IsPlaced histories.now places.old }
    ensures placed { IsPlaced histories.now places.new }
    ensures left { (x : LogName)
        → left histories.now places.new x
        ≡ after_call (left histories.now places.old) call.now x }
{
    places.vms = place_after(uses_vms(call.step), histories.vms.as_slice(), places.vms);
    places.shared = place_after(
        uses_shared(call.step, call.slot),
        histories.shared.as_slice(),
        places.shared,
    );
    advance_on_guest(histories.guests.as_slice(), &mut places.guests, call.slot);
    advance_at(histories.cpus.as_slice(), &mut places.cpus, call.cpu);
}

/// Whether all calls of a log were given.
fn is_given(log: &[Call], place: usize) -> bool
    ensures { IsTrue result ↔ (drop place log.now ≡ []) }
{
    place >= log.len()
}

/// Whether all calls of each log of a list were given.
fn are_given(logs: &[Vec<Call>], places: &[usize]) -> bool
    requires { length places.now ≡ length logs.now }
    ensures { IsTrue result ↔ ((k : ℕ) → drop (slice_index places.now k) (log_at logs.now k) ≡ []) }
{
    for i in 0..logs.len() {
        if !is_given(logs[i].as_slice(), places[i]) {
            return false;
        }
    }
    true
}

/// Whether all calls of all logs were given.
fn all_given(histories: &Histories, places: &Places) -> bool
    requires { IsPlaced histories.now places.now }
    ensures { IsTrue result ↔ ((x : LogName) → left histories.now places.now x ≡ []) }
{
    if !is_given(histories.vms.as_slice(), places.vms) {
        return false;
    }
    if !is_given(histories.shared.as_slice(), places.shared) {
        return false;
    }
    if !are_given(histories.guests.as_slice(), places.guests.as_slice()) {
        return false;
    }
    are_given(histories.cpus.as_slice(), places.cpus.as_slice())
}

/// A list of all calls of the logs, each once, as `World::merge` gives it.
pub(crate) fn merged(
    global: Global,
    histories: &Histories,
) -> Result<Vec<(u64, Step, Reply)>, MergeFault>
    ensures merged { IfOk result (λ v. ReportsMerged histories.now v.items) }
    ensures no_order { IfErr result (λ f. f ≡ NoOrder → (all : List Call) → IsMerged histories.now all → ⊥) }
{
    let Ok(mut places) = all_starts(global, histories) else {
        return Err(MergeFault::NoMemory);
    };
    let mut told = Vec::new(global);
    while let Some(call) = find_next(histories, &places) {
        let Ok(()) = told.push((call.cpu, call.step, call.reply)) else {
            return Err(MergeFault::NoMemory);
        };
        advance(histories, &mut places, &call);
    }
    if all_given(histories, &places) {
        Ok(told)
    } else {
        Err(MergeFault::NoOrder)
    }
}

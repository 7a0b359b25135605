//! A CPU that is stopped after each exchange of a call, while another CPU makes calls.
ghost use Rattle.part_table.specs.Passes.{IsPassOf};

use super::gates::{Beside, FIRST, UNMAPPED};
use super::heard::Heard;
use super::rows::expect_call;
use super::*;
use page_state::{Entry, Frame, Kind, Owner, Prot, Row, State, Usage};
use std::cell::Cell;

/// The VM of the second slot, in its first generation.
const OTHER: VmId = VmId {
    slot: 1,
    generation: 1,
};

/// The frame and the page of the first VM that it is donated to.
const DONATION: Step = Step::DonateGuest {
    pfn: 0x40100,
    gfn: 0x80000,
    n: 1,
};

/// What is answered about the page once the donation is made.
const DONATED: Reply = Reply::Done(Value::Entry(Entry::Leaf {
    frame: Frame(0x40100),
    prot: Prot::RWX,
    kind: Kind::Normal,
    state: State::Owned,
}));

/// What is answered about the frame then.
const OWNED: Reply = Reply::Done(Value::Row(Row {
    owner: Owner(2),
    lent: None,
    usage: Usage::Plain,
}));

const CONTENDED: Reply = Reply::Refused(Refusal::Contended);

/// What is answered about the frame, about the page of the first VM, and about a page of the second one.
type Answers = (Reply, Reply, Reply);

/// Tries three calls, each once.
fn ask_each<'a>(beside: Beside<'a>) -> Answers {
    let Beside { machine, mut pass } = beside;
    let gfn = 0x80000;
    let owner = machine.try_call(&mut pass, Step::OwnerOf { pfn: 0x40100 });
    let first = machine.try_call(&mut pass, Step::GuestTranslate { vm: FIRST, gfn });
    let second = machine.try_call(&mut pass, Step::GuestTranslate { vm: OTHER, gfn: 0 });
    (owner, first, second)
}

/// After a call's exchange of this place, counted from 1, another CPU makes calls.
#[derive(Drop)]
struct Stopped<'a> {
    other: Cell<Option<Beside<'a>>>,
    place: u64,
    count: Cell<u64>,
    answers: Cell<Option<Answers>>,
}

impl<'a> Gate for Stopped<'a> {
    ghost heard_taken = { λ gate cpu number. Unit {0} };

    ghost heard_answered = { λ gate cpu number. Unit {0} };

    fn taken(&self, _cpu: u64, _number: u64) {}

    fn answered(&self, _cpu: u64, _number: u64) {}

    fn exchanged(&self, _cpu: u64, _number: u64, _kind: u64) {
        self.count.set(self.count.get().wrapping_add(1));
        if self.count.get() != self.place {
            return;
        }
        if let Some(other) = self.other.replace(None) {
            self.answers.set(Some(ask_each(other)));
        }
    }
}

/// CPU 0 has a vCPU of the first VM loaded, and CPU 1 has made the second VM.
fn make_ready<R: Wait + Abort>(
    rt: &R,
    machine: &Machine<Global>,
    zero: &mut CpuPass<Global>,
    one: &mut CpuPass<Global>,
)
    requires zero { IsPassOf machine.now.table zero.old }
    requires one { IsPassOf machine.now.table one.old }
    ensures zero { IsPassOf machine.now.table zero.new }
    ensures one { IsPassOf machine.now.table one.new }
{
    make_first(rt, machine, zero);
    let load = Step::VcpuLoad { vm: FIRST, vcpu: 0 };
    expect_call(rt, machine, zero, load, Reply::Done(Value::Nothing));
    let asked = (VmKind::Plain, 1, 0x40408, 1);
    expect_init(rt, machine, one, asked, Ok(OTHER));
}

/// What the other CPU was answered.
fn answers_of<'a>(gate: Stopped<'a>) -> Option<Answers> {
    let Stopped {
        other,
        place: _,
        count: _,
        answers,
    } = gate;
    drop(other.into_inner());
    answers.into_inner()
}

/// CPU 0's donation is stopped after its exchange of this place, and CPU 1 makes its calls.
fn donate_stopped<'a>(
    machine: &'a Machine<Global>,
    zero: &mut CpuPass<Global>,
    one: CpuPass<Global>,
    place: u64,
) -> (Reply, Option<Answers>)
    requires zero { IsPassOf machine.now.table zero.old }
    requires one { IsPassOf machine.now.table one }
{
    let pass = one;
    let gate = Stopped {
        other: Cell::new(Some(Beside { machine, pass })),
        place,
        count: Cell::new(0),
        answers: Cell::new(None),
    };
    let reply = machine.try_call_gated(&gate, zero, DONATION);
    (reply, answers_of(gate))
}

/// The same on a machine of its own.
fn expect_stopped<R: Wait + Abort>(rt: &R, alloc: Global, place: u64, wanted: Answers) {
    let mut machine = new_machine(rt, alloc, 2, 64);
    let mut zero = machine.pass(0).expect(rt, "the pass of CPU 0");
    let mut one = machine.pass(1).expect(rt, "the pass of CPU 1");
    make_ready(rt, &machine, &mut zero, &mut one);
    let (reply, answers) = donate_stopped(&machine, &mut zero, one, place);
    assert_eq!(rt; reply, Reply::Done(Value::Nothing));
    assert!(rt; answers == Some(wanted));
    drop((machine, zero));
}

#[test]
fn stop_each(rt: HostRuntime) {
    let alloc = rt.alloc();
    expect_stopped(&rt, alloc, 1, (CONTENDED, UNMAPPED, UNMAPPED));
    expect_stopped(&rt, alloc, 2, (CONTENDED, CONTENDED, UNMAPPED));
    expect_stopped(&rt, alloc, 3, (CONTENDED, DONATED, UNMAPPED));
    expect_stopped(&rt, alloc, 4, (OWNED, DONATED, UNMAPPED));
}

/// While a call holds its parts, another CPU tries the donation once, and then asks the host about the frame.
#[derive(Drop)]
struct Crossed<'a> {
    other: Cell<Option<Beside<'a>>>,
    events: Cell<u64>,
    replies: Cell<Option<(Reply, Reply)>>,
}

/// Tries the donation, and asks the host about the frame. What the gate heard of the donation, and both replies.
fn donate_crossed<'a>(beside: Beside<'a>) -> (u64, Reply, Reply) {
    let Beside { machine, mut pass } = beside;
    let gate = Heard::new(pass.cpu(), pass.number());
    let reply = machine.try_call_gated(&gate, &mut pass, DONATION);
    let entry = machine.try_call(&mut pass, Step::HostTranslate { page: 0x40100 });
    (gate.events(), reply, entry)
}

impl<'a> Gate for Crossed<'a> {
    ghost heard_taken = { λ gate cpu number. Unit {0} };

    ghost heard_answered = { λ gate cpu number. Unit {0} };

    fn taken(&self, _cpu: u64, _number: u64) {
        if let Some(other) = self.other.replace(None) {
            let (events, reply, entry) = donate_crossed(other);
            self.events.set(events);
            self.replies.set(Some((reply, entry)));
        }
    }

    fn answered(&self, _cpu: u64, _number: u64) {}
}

/// The events heard of the donation, and the replies in the middle of it.
fn found<'a>(gate: Crossed<'a>) -> (u64, Option<(Reply, Reply)>) {
    let Crossed {
        other,
        events,
        replies,
    } = gate;
    drop(other.into_inner());
    (events.into_inner(), replies.into_inner())
}

/// CPU 1 asks about the page, and CPU 0 tries the donation while CPU 1 holds the guest.
fn ask_crossed<'a>(
    machine: &'a Machine<Global>,
    zero: CpuPass<Global>,
    one: &mut CpuPass<Global>,
) -> (Reply, u64, Option<(Reply, Reply)>)
    requires zero { IsPassOf machine.now.table zero }
    requires one { IsPassOf machine.now.table one.old }
{
    let pass = zero;
    let gate = Crossed {
        other: Cell::new(Some(Beside { machine, pass })),
        events: Cell::new(0),
        replies: Cell::new(None),
    };
    let gfn = 0x80000;
    let reply = machine.try_call_gated(&gate, one, Step::GuestTranslate { vm: FIRST, gfn });
    let (events, replies) = found(gate);
    (reply, events, replies)
}

#[test]
fn stop_the_other(rt: HostRuntime) {
    let mut machine = new_machine(&rt, rt.alloc(), 2, 64);
    let mut zero = machine.pass(0).expect(&rt, "the pass of CPU 0");
    let mut one = machine.pass(1).expect(&rt, "the pass of CPU 1");
    make_ready(&rt, &machine, &mut zero, &mut one);
    let (asked, events, replies) = ask_crossed(&machine, zero, &mut one);
    assert_eq!(rt; asked, UNMAPPED);
    // The Shared part is taken, the guest is away, the Shared part goes home, and the call is answered.
    assert_eq!(rt; events, 1259);
    assert!(rt; replies == Some((CONTENDED, UNMAPPED)));
    drop((machine, one));
}

//! Bugs and the differences reported for them, and choices that are left to a hypervisor.
use crate::changes::{with_host, with_hyp, with_row};
use crate::walks::{ALL, Call, TABLES, read, stepped, told as told_of};
use call_table::{Refusal, Reply, Value};
use freedoms::Freedoms;
use ghost_spec::state::Ghost;
use page_state::{Entry, Frame, Kind, Owner, Prot, Row, State, Usage};
use std::alloc::Global;
use std::process::Abort;
use std::test::Fail;

const BEGIN: &str = "memory 0x40000 0x800
device 0x9000 0x400
carve 0x40600 0x40
cpus 2
boot
0 vm_reserve protected 2
0 fund 0x40200 4
0 install
0 vm_open
0 vcpu_load 0.1 0
0 donate_guest 0x40100 0x80000 1
0 share_hyp 0x40400
0 donate_hyp 0x40410 2
0 host_abort 0x40500
";

/// The guest is dying, and all its pages are reclaimed.
const END: &str = "0 vcpu_put
0 teardown 0.1
0 mark_dying
0 reclaim_page 0.1 0x80000
";

fn leaf(frame: u64, kind: Kind, state: State) -> Entry {
    Entry::Leaf {
        frame: Frame(frame),
        prot: Prot::RWX,
        kind,
        state,
    }
}

fn row(owner: u64, usage: Usage) -> Row {
    Row {
        owner: Owner(owner),
        lent: None,
        usage,
    }
}

/// A difference in the state after the last call, or in its reply.
#[derive(Clone, Copy)]
enum Change {
    /// Nothing.
    None,
    /// The reply is this, and nothing changed.
    Says(Reply),
    /// The reply is this.
    SaysAfter(Reply),
    /// The host's entry of a page is this.
    Host(u64, Entry),
    /// The row of a frame is that of the shared pool.
    PoolRow(u64),
    /// The host gets this frame of the pool in place of the model's, by reply, row and maps.
    Reclaims(u64, u64),
}

/// The state in which the host got another frame of a pool in place of the model's, by row and maps.
fn reclaimed(rt: &impl Abort, alloc: Global, state: Ghost, told: u64, frame: u64) -> Ghost {
    assert!(rt; told < 0x1_0000_0000 && frame < 0x1_0000_0000);
    let state = with_row(rt, alloc, state, told, row(1, Usage::VmPool(0)));
    let state = with_row(rt, alloc, state, frame, row(0, Usage::Plain));
    let state = with_host(rt, alloc, state, told, Entry::Annotated(Owner(1)));
    let state = with_host(rt, alloc, state, frame, Entry::Unmapped);
    let kept = Entry::Leaf {
        frame: Frame(told),
        prot: Prot::RW,
        kind: Kind::Normal,
        state: State::Owned,
    };
    let state = with_hyp(rt, alloc, state, told + 0x400_0000, kept);
    with_hyp(rt, alloc, state, frame + 0x400_0000, Entry::Unmapped)
}

/// The reply and the state after a call with the change.
fn changed(
    rt: &impl Abort,
    alloc: Global,
    state: &Ghost,
    call: Call,
    change: Change,
) -> (Reply, Ghost) {
    let (reply, after) = stepped(rt, alloc, state, call);
    match change {
        Change::None => (reply, after),
        Change::Says(said) => (said, state.copied(alloc).expect(rt, "memory")),
        Change::SaysAfter(said) => (said, after),
        Change::Host(page, entry) => (reply, with_host(rt, alloc, after, page, entry)),
        Change::PoolRow(frame) => {
            let row = row(0, Usage::SharedPool);
            (reply, with_row(rt, alloc, after, frame, row))
        }
        Change::Reclaims(told, frame) => {
            let reply = Reply::Done(Value::Frame(Frame(frame)));
            (reply, reclaimed(rt, alloc, after, told, frame))
        }
    }
}

/// The difference reported for the last call of a trace, with the change.
fn judged(
    rt: &impl Abort,
    alloc: Global,
    freedoms: Freedoms,
    text: &str,
    change: Change,
) -> String {
    let (mut state, calls) = read(rt, alloc, text);
    let calls = calls.as_slice();
    assert!(rt; !calls.is_empty());
    let last = calls.len() - 1;
    for call in &calls[..last] {
        let (_, after) = stepped(rt, alloc, &state, *call);
        state = after;
    }
    let call = calls[last];
    let (reply, post) = changed(rt, alloc, &state, call, change);
    told_of(rt, alloc, freedoms, &state, call, reply, &post)
}

/// The difference reported for a trace that ends with these lines.
fn told(rt: &impl Abort, alloc: Global, freedoms: Freedoms, lines: &str, change: Change) -> String {
    let mut text = String::new(alloc);
    text.push_str(BEGIN).expect(rt, "memory");
    text.push_str(lines).expect(rt, "memory");
    judged(rt, alloc, freedoms, text.as_str(), change)
}

const OK: Reply = Reply::Done(Value::Nothing);

const PERM: Reply = Reply::Refused(Refusal::Perm);

const BUSY: Reply = Reply::Refused(Refusal::Busy);

const NO_MEMORY: Reply = Reply::Refused(Refusal::NoMemory);

const NO_POOL: Reply = Reply::Refused(Refusal::NoPool);

#[test]
fn bugs_are_told(rt: HostRuntime) -> Result<(), Fail> {
    let alloc = rt.alloc();
    let all = ALL;
    let share = "0 share_hyp 0x40300\n";
    let frame = Change::PoolRow(0x40300);
    let d = told(&rt, alloc, all, share, frame);
    assert_eq!(rt;
        d.as_str(),
        "disagree owner 0x40300 post owner 0 lent - use shared_pool spec owner 0 lent 1:0x4040300 use plain"
    );
    let owned = Change::Host(0x40300, leaf(0x40300, Kind::Normal, State::Owned));
    let d = told(&rt, alloc, all, share, owned);
    assert_eq!(rt;
        d.as_str(),
        "disagree host 0x40300 post leaf 0x40300 rwx normal owned spec leaf 0x40300 rwx normal shared_owned"
    );
    let d = told(&rt, alloc, all, share, Change::Says(PERM));
    assert_eq!(rt; d.as_str(), "disagree reply said perm spec ok");
    let d = told(&rt, alloc, all, share, Change::SaysAfter(NO_POOL));
    assert_eq!(rt;
        d.as_str(),
        "disagree host 0x40300 post leaf 0x40300 rwx normal shared_owned spec leaf 0x40300 rwx normal owned"
    );
    let d = told(
        &rt,
        alloc,
        all,
        "0 share_hyp 0x40410\n",
        Change::SaysAfter(OK),
    );
    assert_eq!(rt; d.as_str(), "disagree reply said ok spec perm");
    let lost = Change::Host(0x40410, Entry::Unmapped);
    let d = told(&rt, alloc, all, share, lost);
    assert_eq!(rt;
        d.as_str(),
        "disagree host 0x40410 post leaf 0x40410 rwx normal owned spec annot 1"
    );
    let other = Change::Host(0x40501, leaf(0x40502, Kind::Normal, State::Owned));
    let d = told(&rt, alloc, all, share, other);
    assert_eq!(rt;
        d.as_str(),
        "disagree host 0x40501 post leaf 0x40502 rwx normal owned spec leaf 0x40501 rwx normal owned"
    );
    let device = Change::Host(0x40500, leaf(0x40500, Kind::Device, State::Owned));
    let d = told(&rt, alloc, all, share, device);
    assert_eq!(rt;
        d.as_str(),
        "disagree host 0x40500 post leaf 0x40500 rwx device owned spec leaf 0x40500 rwx normal owned"
    );
    let d = told(&rt, alloc, all, "0 host_abort 0x9004\n", Change::Says(OK));
    assert_eq!(rt;
        d.as_str(),
        "disagree host 0x9004 post unmapped spec leaf 0x9004 rw device owned"
    );
    let value = Reply::Done(Value::Entry(leaf(0x40380, Kind::Normal, State::Owned)));
    let d = told(
        &rt,
        alloc,
        all,
        "0 donate_hyp 0x40380 1\n0 hyp_donate_host 0x40380 1\n0 host_translate 0x40380\n",
        Change::SaysAfter(value),
    );
    assert_eq!(rt;
        d.as_str(),
        "disagree reply said ok entry leaf 0x40380 rwx normal owned spec ok entry unmapped"
    );
    Ok(())
}

/// The end of the guest's life, and further lines.
fn ended(rt: &impl Abort, alloc: Global, lines: &str) -> String {
    let mut text = String::new(alloc);
    text.push_str(END).expect(rt, "memory");
    text.push_str(lines).expect(rt, "memory");
    text
}

#[test]
fn frames_of_pools(rt: HostRuntime) -> Result<(), Fail> {
    let alloc = rt.alloc();
    // the pool has 0x40200 to 0x40203, the first as its root
    let one = ended(&rt, alloc, "0 reclaim_pool 0.1\n");
    let d = told(
        &rt,
        alloc,
        TABLES,
        one.as_str(),
        Change::Reclaims(0x40201, 0x40203),
    );
    assert_eq!(rt; d.as_str(), "");
    let d = told(
        &rt,
        alloc,
        TABLES,
        one.as_str(),
        Change::Reclaims(0x40201, 0x40200),
    );
    assert_eq!(rt; d.as_str(), "");
    let d = told(
        &rt,
        alloc,
        TABLES,
        one.as_str(),
        Change::Reclaims(0x40201, 0x40410),
    );
    assert_eq!(rt;
        d.as_str(),
        "disagree reply said ok frame 0x40410 spec ok frame 0x40201"
    );
    let d = told(&rt, alloc, TABLES, one.as_str(), Change::Says(PERM));
    assert_eq!(rt;
        d.as_str(),
        "disagree reply said perm spec ok frame 0x40201"
    );
    let early = "0 vcpu_put\n0 teardown 0.1\n0 mark_dying\n0 reclaim_pool 0.1\n";
    let d = told(&rt, alloc, TABLES, early, Change::Says(PERM));
    assert_eq!(rt; d.as_str(), "");
    // all frames but the root may be tables, and any refusal then counts as the model's
    let d = told(&rt, alloc, ALL, early, Change::Says(BUSY));
    assert_eq!(rt; d.as_str(), "");
    let d = told(&rt, alloc, TABLES, early, Change::Says(BUSY));
    assert_eq!(rt;
        d.as_str(),
        "disagree reply said busy spec ok frame 0x40201"
    );
    let last = ended(
        &rt,
        alloc,
        "0 reclaim_pool 0.1\n0 reclaim_pool 0.1\n0 reclaim_pool 0.1\n0 reclaim_pool 0.1\n",
    );
    let d = told(&rt, alloc, TABLES, last.as_str(), Change::None);
    assert_eq!(rt; d.as_str(), "");
    let root = Change::SaysAfter(Reply::Done(Value::Frame(Frame(0x40200))));
    let d = told(&rt, alloc, TABLES, last.as_str(), root);
    assert_eq!(rt;
        d.as_str(),
        "disagree reply said ok frame 0x40200 spec perm"
    );
    let left = ended(&rt, alloc, "0 finish_guest\n");
    let d = told(&rt, alloc, TABLES, left.as_str(), Change::SaysAfter(OK));
    assert_eq!(rt; d.as_str(), "disagree reply said ok spec perm");
    let all = ended(
        &rt,
        alloc,
        "0 reclaim_pool 0.1\n0 reclaim_pool 0.1\n0 reclaim_pool 0.1\n0 finish_guest\n",
    );
    let d = told(&rt, alloc, TABLES, all.as_str(), Change::None);
    assert_eq!(rt; d.as_str(), "");
    let many = "1 fund 0x40000 255\n1 topup 0.1\n1 fund 0x40300 253\n1 topup 0.1\n";
    let d = told(&rt, alloc, TABLES, many, Change::None);
    assert_eq!(rt; d.as_str(), "");
    let more = "1 fund 0x40000 255\n1 topup 0.1\n1 fund 0x40700 254\n1 topup 0.1\n";
    let d = told(&rt, alloc, TABLES, more, Change::SaysAfter(OK));
    assert_eq!(rt; d.as_str(), "disagree reply said ok spec perm");
    Ok(())
}

#[test]
fn freedoms_are_left(rt: HostRuntime) -> Result<(), Fail> {
    let alloc = rt.alloc();
    let all = ALL;
    let share = "0 share_hyp 0x40300\n";
    for said in [NO_POOL, NO_MEMORY] {
        let d = told(&rt, alloc, TABLES, share, Change::Says(said));
        assert_eq!(rt; d.as_str(), "");
    }
    let d = told(
        &rt,
        alloc,
        TABLES,
        "0 host_translate 0x40300\n",
        Change::Says(NO_POOL),
    );
    assert_eq!(rt;
        d.as_str(),
        "disagree reply said nopool spec ok entry unmapped"
    );
    let bad = "0 share_hyp 0x9000\n";
    let d = told(&rt, alloc, TABLES, bad, Change::Says(PERM));
    assert_eq!(rt; d.as_str(), "disagree reply said perm spec invalid");
    for said in [PERM, NO_MEMORY] {
        let d = told(&rt, alloc, all, bad, Change::Says(said));
        assert_eq!(rt; d.as_str(), "");
    }
    let lazy = Change::Host(0x40500, Entry::Unmapped);
    let d = told(&rt, alloc, TABLES, share, lazy);
    assert_eq!(rt;
        d.as_str(),
        "disagree host 0x40500 post unmapped spec leaf 0x40500 rwx normal owned"
    );
    let d = told(&rt, alloc, all, share, lazy);
    assert_eq!(rt; d.as_str(), "");
    let normal = Change::Host(
        0x9004,
        Entry::Leaf {
            frame: Frame(0x9004),
            prot: Prot::RW,
            kind: Kind::Normal,
            state: State::Owned,
        },
    );
    let d = told(&rt, alloc, TABLES, "0 host_abort 0x9004\n", normal);
    assert_eq!(rt;
        d.as_str(),
        "disagree host 0x9004 post leaf 0x9004 rw normal owned spec leaf 0x9004 rw device owned"
    );
    let d = told(&rt, alloc, all, "0 host_abort 0x9004\n", normal);
    assert_eq!(rt; d.as_str(), "");
    Ok(())
}

//! Random runs: the model's, given as it has them, by a hypervisor with tables of its own, and by one whose host is
//! lazy.
use crate::changes::{bare, lazy};
use crate::walks::{ALL, Call, TABLES, read, stepped, told};
use call_table::{Refusal, Reply, Step};
use freedoms::Freedoms;
use ghost_spec::state::Ghost;
use std::alloc::Global;
use std::process::Abort;
use std::test::Fail;
use trace_generate::{Options, generate};
use trace_reader::Silent;

fn trace(rt: &impl Abort, alloc: Global, seed: u64) -> String {
    let options = Options {
        cpus: 1 + seed % 4,
        pages: if seed % 2 == 0 { 1024 } else { 2048 },
        geometry: if seed % 2 == 0 { 39 } else { 48 },
        hostile: if seed % 3 == 0 { 30 } else { 0 },
    };
    generate(alloc, seed, 100, &options, &Silent).expect(rt, "a trace")
}

/// Fails if a difference is reported.
fn agrees(
    rt: &impl Abort,
    alloc: Global,
    freedoms: Freedoms,
    pre: &Ghost,
    call: Call,
    reply: Reply,
    post: &Ghost,
) {
    let told = told(rt, alloc, freedoms, pre, call, reply, post);
    assert_eq!(rt; told.as_str(), "");
}

/// Another refusal for one that a rule's test refuses.
fn renamed(reply: Reply) -> Reply {
    match reply {
        Reply::Refused(Refusal::Invalid | Refusal::NoVm | Refusal::Busy | Refusal::Perm) => {
            Reply::Refused(Refusal::Contended)
        }
        other => other,
    }
}

/// Whether a step depends on which of its own pages the host has.
fn reads_host(step: Step) -> bool {
    matches!(step, Step::HostAbort { .. } | Step::HostTranslate { .. })
}

/// A call of the model agrees, in each form in which it is given.
fn is_told(rt: &impl Abort, alloc: Global, pre: &Ghost, call: Call, reply: Reply, post: &Ghost) {
    agrees(rt, alloc, ALL, pre, call, reply, post);
    let before = bare(rt, alloc, pre);
    let after = bare(rt, alloc, post);
    agrees(rt, alloc, TABLES, &before, call, reply, &after);
    if !reads_host(call.step) {
        let before = lazy(rt, alloc, pre);
        let after = lazy(rt, alloc, post);
        agrees(rt, alloc, ALL, &before, call, renamed(reply), &after);
    }
}

/// A run of the model; how many calls were made.
fn run(rt: &impl Abort, alloc: Global, seed: u64) -> u64 {
    let text = trace(rt, alloc, seed);
    let (mut state, calls) = read(rt, alloc, text.as_str());
    let mut made = 0u64;
    for call in calls.as_slice() {
        let (reply, after) = stepped(rt, alloc, &state, *call);
        is_told(rt, alloc, &state, *call, reply, &after);
        if let Reply::Done(_) = reply {
            made = made.saturating_add(1);
        }
        state = after;
    }
    made
}

#[test]
fn runs_agree(rt: HostRuntime) -> Result<(), Fail> {
    let alloc = rt.alloc();
    let mut made = 0u64;
    for seed in 0..6u64 {
        made = made.saturating_add(run(&rt, alloc, seed));
    }
    assert!(rt; made > 300);
    Ok(())
}

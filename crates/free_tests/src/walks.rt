//! The machine of a trace, and its steps.
use call_table::{Reply, Step};
use free_judge::judge::judge_freely;
use freedoms::Freedoms;
use ghost_judge::text::Judgement;
use ghost_spec::start::start;
use ghost_spec::state::{Ghost, has_next_generation, predict};
use page_state::{Geometry, Layout, MemoryMap};
use std::alloc::Global;
use std::process::Abort;
use trace_lines::{Allows, Line, Settings, said};

/// Own tables alone.
pub(crate) const TABLES: Freedoms = Freedoms {
    lazy_host: false,
    any_kind: false,
    any_refusal: false,
};

/// All freedoms.
pub(crate) const ALL: Freedoms = Freedoms {
    lazy_host: true,
    any_kind: true,
    any_refusal: true,
};

/// A step of a CPU.
#[derive(Clone, Copy)]
pub(crate) struct Call {
    pub cpu: u64,
    pub step: Step,
}

/// The state at boot.
fn booted(rt: &impl Abort, alloc: Global, settings: &Settings) -> Ghost {
    let config = settings.config();
    let carve = settings.carve.expect(rt, "a carve-out");
    let map = MemoryMap::new(alloc, settings.regions.as_slice(), carve).expect(rt, "a memory");
    let geometry = Geometry::of_bits(config.geometry).expect(rt, "a width");
    assert!(rt; config.cpus > 0);
    let layout = Layout {
        map,
        config,
        geometry,
    };
    let made = start(alloc, layout).expect(rt, "memory");
    made.expect(rt, "enough frames")
}

/// The state at boot, and the calls of a trace.
pub(crate) fn read(rt: &impl Abort, alloc: Global, text: &str) -> (Ghost, Vec<Call>) {
    let mut settings = Settings::new(alloc);
    let mut state: Option<Ghost> = None;
    let mut calls = Vec::new(alloc);
    for line in text.split('\n') {
        let allows = match state {
            Some(_) => Allows::of_replay(false),
            None => Allows::before_boot(),
        };
        if let Ok(Some(line)) = said(allows, &settings, line.as_bytes()) {
            match line {
                Line::Setting(setting) => settings.say(setting).expect(rt, "memory"),
                Line::Boot => state = Some(booted(rt, alloc, &settings)),
                Line::Step { cpu, step } => calls.push(Call { cpu, step }).expect(rt, "memory"),
                _ => (),
            }
        }
    }
    (state.expect(rt, "a boot"), calls)
}

/// The model's reply to a call, and the state after it.
pub(crate) fn stepped(rt: &impl Abort, alloc: Global, state: &Ghost, call: Call) -> (Reply, Ghost) {
    let cpus = state.lists().layout.config.cpus;
    assert!(rt; call.cpu < cpus);
    assert!(rt; has_next_generation(state, call.cpu, call.step));
    predict(alloc, state, call.cpu, call.step).expect(rt, "memory")
}

/// The difference reported for a call; empty if it agrees.
pub(crate) fn told(
    rt: &impl Abort,
    alloc: Global,
    freedoms: Freedoms,
    pre: &Ghost,
    call: Call,
    reply: Reply,
    post: &Ghost,
) -> String {
    let cpus = pre.lists().layout.config.cpus;
    assert!(rt; call.cpu < cpus);
    assert!(rt; has_next_generation(pre, call.cpu, call.step));
    let found = judge_freely(alloc, freedoms, pre, call.cpu, call.step, &reply, post);
    match found.expect(rt, "memory") {
        Some(d) => {
            let d = Judgement(d);
            format!(in alloc; "{d}").expect(rt, "memory")
        }
        None => String::new(alloc),
    }
}

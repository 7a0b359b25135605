//! A walk along the lines of a trace.
use call_table::{Reply, Step};
use ghost_legal::{have_first_blocks, illegal, illegal_but_for_trees};
use ghost_spec::start::start;
use ghost_spec::state::{Ghost, has_next_generation, predict_last};
use page_state::{Geometry, Layout, MemoryMap};
use std::alloc::Global;
use std::process::Abort;
use trace_lines::{Allows, Line, Settings, said};

/// The state at boot.
fn booted(rt: &impl Abort, alloc: Global, settings: &Settings) -> Ghost {
    let config = settings.config();
    let carve = settings.carve.expect(rt, "a carve-out");
    let map = MemoryMap::new(alloc, settings.regions.as_slice(), carve).expect(rt, "a memory");
    let geometry = Geometry::of_bits(config.geometry).expect(rt, "a width");
    assert!(rt; config.cpus > 0);
    let layout = Layout {
        map,
        config,
        geometry,
    };
    let made = start(alloc, layout).expect(rt, "memory");
    made.expect(rt, "enough frames")
}

/// The fault of a state, written out.
pub(crate) fn told(rt: &impl Abort, alloc: Global, state: &Ghost) -> String {
    let lists = state.lists();
    assert!(rt; have_first_blocks(lists));
    match illegal(alloc, lists).expect(rt, "memory") {
        Some(found) => format!(in alloc; "{found}").expect(rt, "memory"),
        None => String::new(alloc),
    }
}

/// Whether a state is legal, whatever tables its trees need.
pub(crate) fn is_legal_but_for_trees(rt: &impl Abort, alloc: Global, state: &Ghost) -> bool {
    let lists = state.lists();
    assert!(rt; have_first_blocks(lists));
    illegal_but_for_trees(alloc, lists)
        .expect(rt, "memory")
        .is_none()
}

/// Fails if a state isn't legal.
fn expect_legal(rt: &impl Abort, alloc: Global, state: &Ghost) {
    let text = told(rt, alloc, state);
    assert_eq!(rt; text.as_str(), "");
}

/// A step, and the state after it.
fn stepped(rt: &impl Abort, alloc: Global, before: Ghost, cpu: u64, step: Step) -> (Reply, Ghost) {
    let cpus = before.lists().layout.config.cpus;
    assert!(rt; cpu < cpus);
    assert!(rt; has_next_generation(&before, cpu, step));
    predict_last(alloc, before, cpu, step).expect(rt, "memory")
}

/// The state after a line that boots or is a step, and whether that was made.
fn after(
    rt: &impl Abort,
    alloc: Global,
    settings: &mut Settings,
    state: Option<Ghost>,
    line: Line,
) -> (Option<Ghost>, bool) {
    match line {
        Line::Setting(setting) => {
            settings.say(setting).expect(rt, "memory");
            (state, false)
        }
        Line::Boot => (Some(booted(rt, alloc, settings)), false),
        Line::Step { cpu, step } => {
            let (reply, made) = stepped(rt, alloc, state.expect(rt, "a boot"), cpu, step);
            expect_legal(rt, alloc, &made);
            match reply {
                Reply::Done(_) => (Some(made), true),
                Reply::Refused(_) => (Some(made), false),
            }
        }
        _ => (state, false),
    }
}

/// The state at the end of a trace, and how many of its steps were made. Each state on the way must be legal.
pub(crate) fn walk(rt: &impl Abort, alloc: Global, text: &str) -> (Ghost, u64) {
    let mut settings = Settings::new(alloc);
    let mut state: Option<Ghost> = None;
    let mut ok = 0u64;
    for line in text.split('\n') {
        let allows = match state {
            Some(_) => Allows::of_replay(false),
            None => Allows::before_boot(),
        };
        if let Ok(Some(line)) = said(allows, &settings, line.as_bytes()) {
            let (next, made) = after(rt, alloc, &mut settings, state, line);
            state = next;
            if made {
                ok = ok.saturating_add(1);
            }
        }
    }
    (state.expect(rt, "a boot"), ok)
}

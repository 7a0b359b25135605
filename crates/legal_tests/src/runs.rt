//! States of generated traces.
use crate::walks::walk;
use std::test::Fail;
use trace_generate::{Options, generate};
use trace_reader::Silent;

#[test]
fn states_of_runs_are_legal(rt: HostRuntime) -> Result<(), Fail> {
    let mut made = 0u64;
    for seed in 0..12u64 {
        let options = Options {
            cpus: 1 + seed % 4,
            pages: if seed % 3 == 0 { 1024 } else { 4096 },
            geometry: if seed % 2 == 0 { 39 } else { 48 },
            hostile: if seed % 3 == 0 { 30 } else { 0 },
        };
        let text = generate(rt.alloc(), seed, 150, &options, &Silent)?;
        let (state, ok) = walk(&rt, rt.alloc(), text.as_str());
        drop(state);
        made = made.saturating_add(ok);
    }
    assert!(rt; made > 1000);
    Ok(())
}

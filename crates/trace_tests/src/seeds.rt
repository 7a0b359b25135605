//! A generated trace has every call, and each seed has its own.
use call_table::CallName;
use std::test::Fail;
use trace_generate::{Options, generate};
use trace_reader::Silent;

/// Whether a step line has a call of this name.
fn has_call(text: &str, name: &str) -> bool {
    text.split('\n')
        .any(|line| line.split(' ').nth(1) == Some(name))
}

#[test]
fn every_call_is_made(rt: HostRuntime) -> Result<(), Fail> {
    let options = Options {
        cpus: 4,
        pages: 2048,
        geometry: 39,
        hostile: 0,
    };
    let text = generate(rt.alloc(), 1, 1000, &options, &Silent)?;
    for call in CallName::all() {
        let name = call.row().word;
        assert!(rt; has_call(text.as_str(), name), "{name}");
    }
    Ok(())
}

#[test]
fn seeds_differ(rt: HostRuntime) -> Result<(), Fail> {
    let options = Options {
        cpus: 4,
        pages: 2048,
        geometry: 39,
        hostile: 0,
    };
    let one = generate(rt.alloc(), 1, 20, &options, &Silent)?;
    let again = generate(rt.alloc(), 1, 20, &options, &Silent)?;
    let other = generate(rt.alloc(), 2, 20, &options, &Silent)?;
    assert!(rt; one.as_str() == again.as_str());
    assert!(rt; one.as_str() != other.as_str());
    Ok(())
}

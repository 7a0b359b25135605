//! Counts of small traces.
use std::str::from_utf8;
use std::test::Fail;
use trace_cover::{add_steps, cover};
use trace_reader::Outcome;

#[test]
fn two_traces_are_counted_together(rt: HostRuntime) -> Result<(), Fail> {
    let head = "memory 0x40000 0x800\ncarve 0x40600 0x40\nboot\n";
    let first = format!(in rt.alloc();
        "{head}0 share_hyp 0x40100\n0 share_hyp 0x40100\npoke host 0x40100 3 0\n0 unfund\n"
    )?;
    let second = format!(in rt.alloc(); "{head}start\n0 share_hyp 0x40101\nno <line>\n")?;
    let mut seen = Vec::new(rt.alloc());
    let mut text = Vec::new(rt.alloc());
    let ended = add_steps(
        rt.alloc(),
        rt.alloc(),
        "a",
        first.as_bytes(),
        &mut seen,
        &mut text,
    )?;
    assert!(rt; ended == Outcome::Clean);
    let ended = add_steps(
        rt.alloc(),
        rt.alloc(),
        "b",
        second.as_bytes(),
        &mut seen,
        &mut text,
    )?;
    assert!(rt; ended == Outcome::Fault);
    let place = "b:6:1: fault word: found `no`, wanted a setting, boot, start, a query or a CPU\n";
    assert!(rt; text.as_slice() == place.as_bytes());
    let told = cover(rt.alloc(), seen.as_slice(), false)?;
    let said = from_utf8(told.text.as_slice())?;
    assert!(rt; said.contains("2 share_hyp ok\n"));
    assert!(rt; said.contains("1 share_hyp perm\n"));
    assert!(rt; said.contains("2 share_hyp: the host's, untouched\n"));
    assert!(rt; said.contains("1 share_hyp: shared with the hypervisor\n"));
    assert!(rt; said.contains("0 share_hyp: a device's page\n"));
    assert!(rt;
        said.contains(
            "impossible guest_relax: a Dying guest's: no CPU has a vCPU of a Dying guest loaded\n"
        )
    );
    assert!(rt; said.ends_with("end steps 3 missing 266\n"));
    Ok(())
}

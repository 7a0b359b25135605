//! Checks of traces with names.
use std::test::Fail;
use trace_check::Watch;
use trace_values::{Expansion, check, expand};

#[test]
fn a_name_stands_for_its_value(rt: HostRuntime) -> Result<(), Fail> {
    let trace =
        b"memory 0x40000 0x800\ncarve 0x40600 0x40\nboot\n0 vm_reserve plain 1\n#= ok vm $V\n0 fund 0x40300 8\n0 install\n0 vm_open\n#= ok vm $V\n0 vcpu_load $V 0\n#= ok\n";
    let wanted =
        "memory 0x40000 0x800\ncarve 0x40600 0x40\nboot\n0 vm_reserve plain 1\n#= ok vm 0.1\n0 fund 0x40300 8\n0 install\n0 vm_open\n#= ok vm 0.1\n0 vcpu_load 0.1 0\n#= ok\n";
    match expand(rt.alloc(), rt.alloc(), trace)? {
        Expansion::Text(text) => assert!(rt; text.as_slice() == wanted.as_bytes()),
        Expansion::Fault(spot) => assert!(rt; spot.said.is_empty()),
    }
    Ok(())
}

#[test]
fn a_name_without_a_value_has_a_place(rt: HostRuntime) -> Result<(), Fail> {
    let trace =
        b"memory 0x40000 0x800\ncarve 0x40600 0x40\nboot\n0 vm_reserve plain 9\n#= ok vm $V\n";
    let checked = check(rt.alloc(), rt.alloc(), "a.trace", trace, Watch::EachStep)?;
    let text =
        "a.trace:5:10: fault unbound: found `invalid`, wanted `ok vm $V`\na.trace: 1 expected, 1 wrong\n";
    assert!(rt; checked.text.as_slice() == text.as_bytes());
    Ok(())
}

//! Checks of a trace that is audited, and of one whose steps may be made in any order.
use std::test::Fail;
use trace_cases::check;
use trace_check::Watch;

#[test]
fn an_audit_finds_what_is_expected_last(rt: HostRuntime) -> Result<(), Fail> {
    let trace =
        b"memory 0x40000 0x800\ncarve 0x40600 0x40\nboot\n0 share_hyp 0x40100\n#= ok\npoke hyp 0x4040100 3 0x0\n#= nothing\n# That is all.\n";
    let checked = check(rt.alloc(), rt.alloc(), "a.trace", trace, Watch::EachStep)?;
    let text =
        "a.trace:7: expected nothing, got disagree hyp 0x4040100 kept leaf 0x40100 rw normal shared_borrowed walked unmapped\na.trace: 2 expected, 1 wrong\n";
    assert!(rt; checked.text.as_slice() == text.as_bytes());
    Ok(())
}

#[test]
fn replies_of_any_order_are_expected(rt: HostRuntime) -> Result<(), Fail> {
    let trace =
        b"memory 0x40000 0x800\ncarve 0x40600 0x40\ncpus 2\nboot\n#= boot host 3 hyp 3 free 58\nstart\n0 share_hyp 0x40100\n#= ok | perm\n1 share_hyp 0x40100\n#= ok\n1 unshare_hyp 0x40100\n#= sometimes perm | busy\n";
    let checked = check(rt.alloc(), rt.alloc(), "a.trace", trace, Watch::EachStep)?;
    let text =
        "a.trace:10: expected ok, got perm by order 7 9 11\na.trace:12: never perm\na.trace:12: never busy\na.trace: 4 expected, 3 wrong\n";
    assert!(rt; checked.text.as_slice() == text.as_bytes());
    Ok(())
}

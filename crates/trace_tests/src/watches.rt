//! Checks of traces with watches.
use std::test::Fail;
use trace_check::Watch;
use trace_watches::check;

#[test]
fn the_first_step_that_breaks_a_watch_is_missed(rt: HostRuntime) -> Result<(), Fail> {
    let trace =
        b"#! owner_of 0x40100 owner 0\n#! owner_of 0x40100 owner 0 lent -\n#! owner_of 0x40200 ok owner 0\nmemory 0x40000 0x800\ncarve 0x40600 0x40\nboot\n0 share_hyp 0x40100\n#= ok\n0 unshare_hyp 0x40100\n0 donate_hyp 0x40100 1\n0 donate_hyp 0x40101 1\n";
    let checked = check(rt.alloc(), rt.alloc(), "a.trace", trace, Watch::EachStep)?;
    let text =
        "a.trace:1: expected owner 0, got ok owner 1 lent - use plain after line 10\na.trace:2: expected owner 0 lent -, got ok owner 0 lent 1:0x4040100 use plain after line 7\na.trace: 4 expected, 2 wrong\n";
    assert!(rt; checked.text.as_slice() == text.as_bytes());
    assert!(rt; checked.expected == 4 && checked.wrong == 2 && !checked.clean);
    Ok(())
}

#[test]
fn one_order_that_breaks_a_watch_is_missed(rt: HostRuntime) -> Result<(), Fail> {
    let trace =
        b"#! owner_of 0x40100 owner 0\nmemory 0x40000 0x800\ncarve 0x40600 0x40\ncpus 2\nboot\n0 owner_of 0x40100\nstart\n0 donate_hyp 0x40100 1\n1 share_hyp 0x40100\n";
    let checked = check(rt.alloc(), rt.alloc(), "a.trace", trace, Watch::EachStep)?;
    let text =
        "a.trace:1: expected owner 0, got ok owner 1 lent - use plain | ok owner 0 lent 1:0x4040100 use plain after line 8\na.trace: 1 expected, 1 wrong\n";
    assert!(rt; checked.text.as_slice() == text.as_bytes());
    Ok(())
}

#[test]
fn watches_that_hold_are_clean(rt: HostRuntime) -> Result<(), Fail> {
    let trace =
        b"#! owner_of 0x40100 owner 0\nmemory 0x40000 0x800\ncarve 0x40600 0x40\ncpus 2\nboot\nstart\n0 share_hyp 0x40100\n1 share_hyp 0x40100\n";
    let checked = check(rt.alloc(), rt.alloc(), "a.trace", trace, Watch::AtEnd)?;
    assert!(rt; checked.text.as_slice() == "a.trace: 1 expected, 0 wrong\n".as_bytes());
    assert!(rt; checked.clean);
    Ok(())
}

#[test]
fn what_is_no_watch_has_a_place(rt: HostRuntime) -> Result<(), Fail> {
    let trace =
        b"memory 0x40000 0x800\ncarve 0x40600 0x40\n#! owner_of 0x4010g owner 0\nboot\n#= other\n";
    let checked = check(rt.alloc(), rt.alloc(), "a.trace", trace, Watch::EachStep)?;
    let text =
        "a.trace:3:13: fault form: found `0x4010g`, wanted FRAME, a number\na.trace: 1 expected, 1 wrong\n";
    assert!(rt; checked.text.as_slice() == text.as_bytes());
    Ok(())
}

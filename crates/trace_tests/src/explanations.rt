//! Explanations of a small trace.
use std::test::Fail;
use trace_explain::explain;
use trace_reader::Outcome;

#[test]
fn a_page_is_shared_and_then_refused(rt: HostRuntime) -> Result<(), Fail> {
    let trace =
        b"memory 0x40000 0x800\ncarve 0x40600 0x40\nboot\n0 share_hyp 0x40100\n0 share_hyp 0x40100\nno <line>\n";
    let told = explain(rt.alloc(), rt.alloc(), "a.trace", trace, None)?;
    let text = "memory 0x40000 0x800
carve 0x40600 0x40
boot
    boot host 3 hyp 3 free 58
0 share_hyp 0x40100
    ok
    host 0x40100: unmapped -> leaf 0x40100 rwx normal shared_owned
    hyp 0x4040100: unmapped -> leaf 0x40100 rw normal shared_borrowed
    owner 0x40100: owner 0 lent - use plain -> owner 0 lent 1:0x4040100 use plain
    free shared: 58 -> 56
0 share_hyp 0x40100
    perm: the host's page isn't free to give, or the hypervisor's page of the frame is mapped
    host 0x40100: leaf 0x40100 rwx normal shared_owned
    hyp 0x4040100: leaf 0x40100 rw normal shared_borrowed
    owner 0x40100: owner 0 lent 1:0x4040100 use plain
    free shared: 56
no <line>
    fault word
    a.trace:6:1: fault word: found `no`, wanted a setting, boot, start, a query or a CPU
";
    assert!(rt; told.text.as_slice() == text.as_bytes());
    assert!(rt; told.outcome == Outcome::Fault);
    Ok(())
}

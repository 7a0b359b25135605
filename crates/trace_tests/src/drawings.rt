//! Pictures and snapshots of a small trace.
use std::test::Fail;
use trace_draw::{Ended, draw, draw_text};

/// A frame that is shared, and a line that is none.
const TRACE: &[u8] =
    b"memory 0x40000 0x800\ncarve 0x40600 0x40\nboot\n0 share_hyp 0x40100\n0 vm_reserve plain 1\nno <line>\n";

#[test]
fn rows_and_slots_are_told(rt: HostRuntime) -> Result<(), Fail> {
    let told = draw_text(rt.alloc(), rt.alloc(), TRACE)?;
    assert_eq!(rt;
        told.text.as_str(),
        "rows 0x40000 256 owner 0 lent - use plain\nrows 0x40100 1 owner 0 lent 1:0x4040100 use plain\nrows 0x40101 1279 owner 0 lent - use plain\nrows 0x40600 64 owner 1 lent - use shared_pool\nrows 0x40640 448 owner 0 lent - use plain\nvm 0.1 reserved plain vcpus 1\n"
    );
    Ok(())
}

#[test]
fn a_picture_has_its_columns_and_the_fault(rt: HostRuntime) -> Result<(), Fail> {
    let drawn = draw(rt.alloc(), rt.alloc(), TRACE)?;
    let svg = drawn.svg.as_str();
    assert!(rt; matches!(drawn.ended, Ended::Fault { line: 6, .. }));
    assert!(rt; svg.contains("6 fault word"));
    for frame in ["40000", "40100", "40101", "40600", "40640"] {
        assert!(rt; svg.contains(frame), "{frame}");
    }
    Ok(())
}

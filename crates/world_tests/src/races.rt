//! Races and audits.
use crate::held::Held;
use cpu_threads::Open;
use std::io::Cursor;
use trace_audit::audit_buffered;
use trace_race::race_buffered;
use trace_text::Outcome;

/// Two VMs, and a question about each, made at once.
const TWO_VMS: &[u8] =
    b"memory 0x40000 0x800\ndevice 0x9000 0x10\ncarve 0x40600 0x40\ncpus 2\nlog 64\nboot
0 vm_reserve plain 1\n0 fund 0x40400 1\n0 install\n0 vm_open
1 vm_reserve plain 1\n1 fund 0x40404 1\n1 install\n1 vm_open
start\n0 guest_translate 0.1 0x10\n1 guest_translate 1.1 0x10\n";

/// Its report.
const TWO_VMS_TOLD: &[u8] = b"boot host 3 hyp 3 free 58
7 0 ok vm 0.1\n8 0 ok\n9 0 ok\n10 0 ok vm 0.1
11 1 ok vm 1.1\n12 1 ok\n13 1 ok\n14 1 ok vm 1.1
16 0 ok entry unmapped\n17 1 ok entry unmapped
end steps 10 disagreements 0\n";

#[test]
fn race_gate(rt: HostRuntime) {
    let gate = Held::new();
    let writer = Vec::new(rt.alloc());
    let ended = race_buffered(&rt, rt.alloc(), Cursor::new(TWO_VMS), writer, &gate, false);
    assert!(rt;
        matches!(&ended, Ok((Outcome::Clean, written)) if written.as_slice() == TWO_VMS_TOLD)
    );
    assert!(rt; !gate.was_late());
}

#[test]
fn races_without_a_gate(rt: HostRuntime) {
    let writer = Vec::new(rt.alloc());
    let ended = race_buffered(&rt, rt.alloc(), Cursor::new(TWO_VMS), writer, &Open, false);
    assert!(rt;
        matches!(&ended, Ok((Outcome::Clean, written)) if written.as_slice() == TWO_VMS_TOLD)
    );
}

/// That report with either order of the steps after `start`.
const FIRST_TOLD: &[u8] = b"boot host 3 hyp 3 free 58
7 0 ok vm 0.1\n8 0 ok\n9 0 ok\n10 0 ok vm 0.1
11 1 ok vm 1.1\n12 1 ok\n13 1 ok\n14 1 ok vm 1.1
16 0 ok entry unmapped\n17 1 ok entry unmapped
order 16 17\nend steps 10 disagreements 0\n";

const SECOND_TOLD: &[u8] = b"boot host 3 hyp 3 free 58
7 0 ok vm 0.1\n8 0 ok\n9 0 ok\n10 0 ok vm 0.1
11 1 ok vm 1.1\n12 1 ok\n13 1 ok\n14 1 ok vm 1.1
16 0 ok entry unmapped\n17 1 ok entry unmapped
order 17 16\nend steps 10 disagreements 0\n";

#[test]
fn says_the_order(rt: HostRuntime) {
    let writer = Vec::new(rt.alloc());
    let ended = race_buffered(&rt, rt.alloc(), Cursor::new(TWO_VMS), writer, &Open, true);
    assert!(rt;
        matches!(
            &ended,
            Ok((Outcome::Clean, written))
                if written.as_slice() == FIRST_TOLD || written.as_slice() == SECOND_TOLD
        )
    );
}

/// A word is broken after a step.
const BROKEN: &[u8] =
    b"memory 0x40000 0x800\ndevice 0x9000 0x10\ncarve 0x40600 0x40\ncpus 2\nlog 64\nboot
0 share_hyp 0x40100\npoke host 0x40100 3 0x01800000401007ff\n";

/// Its report.
const BROKEN_TOLD: &[u8] = b"boot host 3 hyp 3 free 58\n7 0 ok
disagree host 0x40100 kept leaf 0x40100 rwx normal shared_owned walked malformed
end steps 1 disagreements 1\n";

#[test]
fn audits_a_broken_word(rt: HostRuntime) {
    let writer = Vec::new(rt.alloc());
    let ended = audit_buffered(rt.alloc(), rt.alloc(), Cursor::new(BROKEN), writer, false);
    assert!(rt;
        matches!(&ended, Ok((Outcome::Disagreed, written)) if written.as_slice() == BROKEN_TOLD)
    );
}

/// With legality asked for: the shared frame is in no condition, since its host's word says nothing.
const ILLEGAL_TOLD: &[u8] = b"boot host 3 hyp 3 free 58\n7 0 ok
disagree host 0x40100 kept leaf 0x40100 rwx normal shared_owned walked malformed
illegal no condition 0x40100: host malformed, hyp leaf 0x40100 rw normal shared_borrowed, row owner 0 lent 1:0x4040100 use plain
end steps 1 disagreements 1\n";

#[test]
fn tells_why_the_words_are_illegal(rt: HostRuntime) {
    let writer = Vec::new(rt.alloc());
    let ended = audit_buffered(rt.alloc(), rt.alloc(), Cursor::new(BROKEN), writer, true);
    assert!(rt;
        matches!(&ended, Ok((Outcome::Disagreed, written)) if written.as_slice() == ILLEGAL_TOLD)
    );
}

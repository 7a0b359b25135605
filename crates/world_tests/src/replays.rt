//! Replays.
ghost use Rattle.std.specs.Prelude.{true};

use call_table::{Reply, Step};
use ghost_judge::disagreement::Disagreement;
use ghost_oracle::compared::Compared;
use ghost_spec::state::Ghost;
use std::alloc::{AllocError, Global};
use std::io::{Cursor, Error, ErrorKind, Read, Write};
use trace_audit::audit_buffered;
use trace_text::{
    Counting, EngineFault, Oracle, Outcome, Stopped, Verdict, replay, replay_buffered, replay_with,
};

/// Two texts, one after the other.
fn joined(alloc: Global, first: &[u8], second: &[u8]) -> Result<Vec<u8>, AllocError> {
    let mut text = Vec::from_slice(alloc, first)?;
    text.extend_from_slice(second)?;
    Ok(text)
}

/// A boot with 64 frames of tables.
const BOOT: &[u8] =
    b"memory 0x40000 0x800\ndevice 0x9000 0x10\ncarve 0x40600 0x40\ncpus 2\nlog 64\nboot\n";

/// A reader that gives a number of bytes, and then fails.
#[derive(Drop)]
struct Cut {
    bytes: &'static [u8],
    left: usize,
}

impl Read for Cut {
    fn read(&mut self, buf: &mut [u8]) -> Result<usize, Error> {
        if buf.is_empty() {
            return Ok(0);
        }
        if self.left == 0 {
            return Err(Error::from(ErrorKind::Other));
        }
        let Some((first, rest)) = self.bytes.split_first() else {
            return Ok(0);
        };
        buf[0] = *first;
        self.bytes = rest;
        self.left -= 1;
        Ok(1)
    }
}

/// A reader whose every other read is interrupted.
#[derive(Drop)]
struct Interrupted {
    bytes: &'static [u8],
    ready: bool,
}

impl Read for Interrupted {
    fn read(&mut self, buf: &mut [u8]) -> Result<usize, Error> {
        if buf.is_empty() {
            return Ok(0);
        }
        self.ready = !self.ready;
        if self.ready {
            return Err(Error::from(ErrorKind::Interrupted));
        }
        let Some((first, rest)) = self.bytes.split_first() else {
            return Ok(0);
        };
        buf[0] = *first;
        self.bytes = rest;
        Ok(1)
    }
}

/// A writer that takes no byte.
#[derive(Drop)]
struct Full;

impl Write for Full {
    fn write(&mut self, _buf: &[u8]) -> Result<usize, Error> {
        Err(Error::from(ErrorKind::Other))
    }

    fn flush(&mut self) -> Result<(), Error> {
        Ok(())
    }
}

/// What a reader and a writer of std are replayed to.
fn replayed<R: AllocGlobal, F: Read + Drop, W: Write + Drop>(
    rt: &R,
    reader: F,
    writer: W,
) -> Result<Outcome, EngineFault> {
    let (mut source, mut sink) = (Counting::new(reader), Counting::new(writer));
    replay(rt.alloc(), rt.alloc(), &mut source, &mut sink)
}

#[test]
fn tells_failed_reads_and_writes(rt: HostRuntime) {
    let mut written = Vec::new(rt.alloc());
    let reader = Cut {
        bytes: BOOT,
        left: 30,
    };
    let ended = replayed(&rt, reader, &mut written);
    assert!(rt; ended == Err(EngineFault::Read));
    assert!(rt; written.is_empty());
    let ended = replayed(&rt, Cursor::new(BOOT), Full);
    assert!(rt; ended == Err(EngineFault::Write));
}

#[test]
fn reads_on_after_interrupted_reads(rt: HostRuntime) {
    let mut written = Vec::new(rt.alloc());
    let reader = Interrupted {
        bytes: BOOT,
        ready: false,
    };
    let ended = replayed(&rt, reader, &mut written);
    assert!(rt; ended == Ok(Outcome::Clean));
    let wanted: &[u8] = b"boot host 3 hyp 3 free 58\nend steps 0 disagreements 0\n";
    assert!(rt; written.as_slice() == wanted);
}

#[test]
fn writes_all_that_buffers_hold(rt: HostRuntime) {
    let writer = Vec::new(rt.alloc());
    let ended = replay_buffered(rt.alloc(), rt.alloc(), Cursor::new(BOOT), writer);
    let wanted: &[u8] = b"boot host 3 hyp 3 free 58\nend steps 0 disagreements 0\n";
    assert!(rt; matches!(&ended, Ok((Outcome::Clean, written)) if written.as_slice() == wanted));
    let ended = replay_buffered(rt.alloc(), rt.alloc(), Cursor::new(BOOT), Full);
    assert!(rt;
        matches!(&ended, Err(stopped) if stopped.fault == EngineFault::Write && stopped.writer.is_none())
    );
}

/// The boot, after which a read fails.
fn boot_cut_short() -> Cut {
    Cut {
        bytes: BOOT,
        left: BOOT.len(),
    }
}

/// Whether a run through a buffer reported a read that failed after the boot, and wrote what the boot reports.
fn is_cut_after_boot(ended: &Result<(Outcome, Vec<u8>), Stopped<Vec<u8>>>) -> bool {
    let wanted: &[u8] = b"boot host 3 hyp 3 free 58\n";
    match ended {
        Err(
            Stopped {
                fault: EngineFault::Read,
                cause: Some(cause),
                writer: Some(written),
            },
        ) => cause.kind() == ErrorKind::Other && written.as_slice() == wanted,
        _ => false,
    }
}

#[test]
fn gives_back_what_was_written(rt: HostRuntime) {
    let writer = Vec::new(rt.alloc());
    let ended = replay_buffered(rt.alloc(), rt.alloc(), boot_cut_short(), writer);
    assert!(rt; is_cut_after_boot(&ended));
    let writer = Vec::new(rt.alloc());
    let ended = audit_buffered(rt.alloc(), rt.alloc(), boot_cut_short(), writer, false);
    assert!(rt; is_cut_after_boot(&ended));
}

/// An oracle that disagrees after each second step.
#[derive(Drop)]
struct Doubting {
    doubts: bool,
}

impl Oracle for Doubting {
    ghost gives = { λ m c t v. Unit {0} };

    ghost looking = { λ _. true };

    fn looks(&self) -> bool {
        true
    }

    fn check(
        &mut self,
        _global: Global,
        _before: Ghost,
        cpu: u64,
        _step: Step,
        _reply: Reply,
        _after: &Compared,
    ) -> Result<Verdict, AllocError> {
        let doubts = self.doubts;
        self.doubts = !doubts;
        Ok(Verdict {
            judged: doubts.then_some(Disagreement::Vm(2)),
            audited: doubts.then_some(Disagreement::Cpu(cpu)),
        })
    }
}

#[test]
fn oracle_asked(rt: HostRuntime) {
    let steps: &[u8] =
        b"0 share_hyp 0x40100\nfree shared\n1 share_hyp 0x40100\n0 unshare_hyp 0x40100\n1 share_hyp 0x40101\n";
    let trace = joined(rt.alloc(), BOOT, steps).expect(&rt, "memory");
    let wanted: &[u8] =
        b"boot host 3 hyp 3 free 58\n7 0 ok\nfree 56\n9 1 perm\ndisagree vm 2\ndisagree cpu 1\n10 0 ok\n11 1 ok\ndisagree vm 2\ndisagree cpu 1\nend steps 4 disagreements 4\n";
    let mut written = Vec::new(rt.alloc());
    let mut source = Counting::new(Cursor::new(trace.as_slice()));
    let mut sink = Counting::new(&mut written);
    let mut oracle = Doubting { doubts: false };
    let ended = replay_with(rt.alloc(), rt.alloc(), &mut source, &mut sink, &mut oracle);
    assert!(rt; ended == Ok(Outcome::Disagreed));
    let _ = sink.into_parts();
    assert!(rt; written.as_slice() == wanted);
}

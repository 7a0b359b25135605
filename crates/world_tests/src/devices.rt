//! Readers and writers that fail at each of their calls in turn, and move few bytes at a time.
ghost use Rattle.std.specs.Prelude.{◌≤◌, IfOk};

use cpu_threads::Open;
use std::alloc::Global;
use std::io::{Cursor, Error, ErrorKind, Read, Write};
use std::process::Abort;
use std::sync::Wait;
use std::thread::Threads;
use trace_audit::audit;
use trace_race::{RaceFault, race};
use trace_text::{Counting, EngineFault, Outcome, replay};

/// A boot and two steps.
const TRACE: &[u8] =
    b"memory 0x40000 0x800\ncarve 0x40600 0x40\nboot\n0 share_hyp 0x40100\nstart\n0 share_hyp 0x40100\n";

/// Its report.
const TOLD: &[u8] = b"boot host 3 hyp 3 free 58\n4 0 ok\n6 0 perm\nend steps 2 disagreements 0\n";

/// What each call of a reader or a writer does.
#[derive(Clone, Copy)]
struct Calls {
    /// How many bytes it moves at most.
    most: usize,
    /// How many calls there are before one fails.
    left: usize,
    /// Whether each call is interrupted once before it is made.
    interrupts: bool,
    /// Whether the next call is interrupted.
    is_next: bool,
}

impl Calls {
    fn of(most: usize, left: usize, interrupts: bool) -> Calls {
        Calls {
            most,
            left,
            interrupts,
            is_next: interrupts,
        }
    }

    /// The number of bytes that the next call moves, at most `asked`.
    fn next(&mut self, asked: usize) -> Result<usize, ErrorKind>
        ensures { IfOk result (λ count. count ≤ asked) }
    {
        if self.is_next {
            self.is_next = false;
            return Err(ErrorKind::Interrupted);
        }
        self.is_next = self.interrupts;
        if self.left == 0 {
            return Err(ErrorKind::Other);
        }
        self.left -= 1;
        Ok(asked.min(self.most))
    }
}

/// A reader of the trace.
#[derive(Drop)]
struct Reader {
    bytes: Cursor<&'static [u8]>,
    calls: Calls,
}

impl Read for Reader {
    fn read(&mut self, buf: &mut [u8]) -> Result<usize, Error> {
        match self.calls.next(buf.len()) {
            Ok(count) => self.bytes.read(&mut buf[..count]),
            Err(kind) => Err(Error::from(kind)),
        }
    }
}

/// A writer, and the bytes that it got.
#[derive(Drop)]
struct Writer {
    written: Vec<u8>,
    calls: Calls,
}

impl Write for Writer {
    fn write(&mut self, buf: &[u8]) -> Result<usize, Error> {
        match self.calls.next(buf.len()) {
            Ok(count) => self.written.write(&buf[..count]),
            Err(kind) => Err(Error::from(kind)),
        }
    }

    fn flush(&mut self) -> Result<(), Error> {
        Ok(())
    }
}

/// What runs a trace.
#[derive(Clone, Copy, PartialEq)]
enum Program {
    Replay,
    Race,
    Audit,
}

/// The result of a run. None if a thread couldn't start.
fn ran<R: AllocGlobal + Threads + Wait + Sync>(
    rt: &R,
    program: Program,
    reader: Reader,
    writer: &mut Writer,
) -> Option<Result<Outcome, EngineFault>> {
    let (mut source, mut sink) = (Counting::new(reader), Counting::new(writer));
    let global: Global = rt.alloc();
    match program {
        Program::Replay => Some(replay(global, global, &mut source, &mut sink)),
        Program::Audit => Some(audit(global, global, &mut source, &mut sink, false)),
        Program::Race => match race(rt, global, &mut source, &mut sink, &Open, false) {
            Ok(outcome) => Some(Ok(outcome)),
            Err(RaceFault::Engine(fault)) => Some(Err(fault)),
            Err(RaceFault::Start) => None,
        },
    }
}

/// Whether a text begins with another.
fn begins(text: &[u8], front: &[u8]) -> bool {
    matches!(text.get(..front.len()), Some(begun) if begun == front)
}

/// Runs the trace, and compares the written text and the outcome: all and Clean, or a beginning and this fault. Answers
/// whether it was all.
fn expect_run<R: AllocGlobal + Threads + Wait + Sync + Abort>(
    rt: &R,
    program: Program,
    reads: Calls,
    writes: Calls,
    fault: EngineFault,
) -> bool {
    let reader = Reader {
        bytes: Cursor::new(TRACE),
        calls: reads,
    };
    let mut writer = Writer {
        written: Vec::new(rt.alloc()),
        calls: writes,
    };
    let ended = ran(rt, program, reader, &mut writer);
    if ended == Some(Ok(Outcome::Clean)) {
        assert!(rt; writer.written.as_slice() == TOLD);
        return true;
    }
    assert!(rt; ended == Some(Err(fault)));
    assert!(rt; begins(TOLD, writer.written.as_slice()));
    assert!(rt; writer.written.len() < TOLD.len());
    assert!(rt;
        program != Program::Race || fault == EngineFault::Write || writer.written.is_empty()
    );
    false
}

/// More calls than a run makes.
const MANY: usize = 1000;

/// Runs the trace with each read failing in turn, and gives how many there are.
fn failing_reads<R: AllocGlobal + Threads + Wait + Sync + Abort>(
    rt: &R,
    program: Program,
    all: Calls,
) -> usize {
    for left in 0..MANY {
        let reads = Calls { left, ..all };
        if expect_run(rt, program, reads, all, EngineFault::Read) {
            return left;
        }
    }
    MANY
}

/// The same of the writes.
fn failing_writes<R: AllocGlobal + Threads + Wait + Sync + Abort>(
    rt: &R,
    program: Program,
    all: Calls,
) -> usize {
    for left in 0..MANY {
        let writes = Calls { left, ..all };
        if expect_run(rt, program, all, writes, EngineFault::Write) {
            return left;
        }
    }
    MANY
}

/// Runs the trace with few bytes moved at a time, each read failing in turn, and then each write.
fn expect_each<R: AllocGlobal + Threads + Wait + Sync + Abort>(
    rt: &R,
    program: Program,
    most: usize,
    interrupts: bool,
) {
    let all = Calls::of(most, MANY, interrupts);
    assert!(rt; expect_run(rt, program, all, all, EngineFault::Read));
    let reads = failing_reads(rt, program, all);
    let writes = failing_writes(rt, program, all);
    assert!(rt; reads < MANY && reads.wrapping_mul(most) >= TRACE.len());
    assert!(rt; writes < MANY && writes.wrapping_mul(most) >= TOLD.len());
}

/// Runs the trace with 1, 2, 3 and 7 bytes moved at a time, and with interrupted calls.
fn expect_all<R: AllocGlobal + Threads + Wait + Sync + Abort>(rt: &R, program: Program) {
    for most in [1, 2, 3, 7] {
        expect_each(rt, program, most, false);
    }
    expect_each(rt, program, 7, true);
}

#[test]
fn replay_on_failing_devices(rt: HostRuntime) {
    expect_all(&rt, Program::Replay);
}

#[test]
fn race_on_failing_devices(rt: HostRuntime) {
    expect_all(&rt, Program::Race);
}

#[test]
fn audit_on_failing_devices(rt: HostRuntime) {
    expect_all(&rt, Program::Audit);
}

//! Laws over lists of steps. Each function does nothing, and its contract is the law.
ghost use Rattle.world.specs.HeadlineLaws.{BeginsRight, BootedElse, FaultOnce, RefusalsLeave, StepKeepsFrames, StepKeepsHand, StepKeepsHeld, StepsRight};
ghost use Rattle.world.specs.Merges.{HistoryMerges, MergedHistory, MergedRun};
ghost use Rattle.world.specs.Laws.{StepsIsolate, StepsRun};

use std::alloc::Allocator;

/// After any list of steps of any CPUs the world is at the end of a run of the reference step, with the replies
/// that were given.
pub fn steps_run<A: Allocator>()
    ensures { StepsRun A }
{}

/// After any list of steps of any CPUs the represented state is right: a walk of each tree's words finds the map of its
/// maplets, and these are the coarsest list of runs of that map; the owner rows are those from scratch; each memory
/// frame has one owner, each frame at most one borrower, and each frame in use is held once; and nobody but the host
/// also maps a guest's frame, and the host only while the guest's entry is SharedOwned.
pub fn steps_right<A: Allocator>()
    ensures { StepsRight A }
{}

/// No step takes a frame from a Live guest: the guest remains the frame's owner, and its page of it stays mapped,
/// unless the guest itself shares it with the host or ends the share, on a CPU that has a vCPU of that guest loaded;
/// then only the entry's state changes.
pub fn steps_isolate<A: Allocator>()
    ensures { StepsIsolate A }
{}

/// The calls of one legal history are a merged list of its logs. Each merged list of these is a legal history that leaves
/// the same, and a run to the same end.
pub fn merged_lists()
    ensures merges { HistoryMerges }
    ensures history { MergedHistory }
    ensures run { MergedRun }
{}

/// Corollaries of the headline for the caller. If all steps are refused, the state keeps all that it had. One step
/// leaves a Live guest its frames, and its pages of them except for a share with the host or the end of one; it leaves
/// a guest that isn't Dying the frames of its pool and its tables, and a CPU its hand, unless that CPU passes it on. If
/// a step is made, the state before it was right.
pub fn after_run<A: Allocator>()
    ensures refused { RefusalsLeave A }
    ensures frames { StepKeepsFrames A }
    ensures held { StepKeepsHeld A }
    ensures hand { StepKeepsHand A }
    ensures begins { BeginsRight A }
{}

/// Of one memory and configuration a boot has one fault alone, and if another boot made a world, only that memory was
/// refused.
pub fn one_fault<A: Allocator>()
    ensures once { FaultOnce }
    ensures booted { BootedElse A }
{}

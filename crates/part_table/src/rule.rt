//! What a pass knows, and the rule of the table.
use crate::slot::Slot;
use atomic_table::{Join, Play, Split, TableRule};
use call_table::Call;
use page_state::Layout;
use part_types::{CpuState, Log};
use std::alloc::Allocator;
use std::collections::LinkedList;
use std::marker::{Brand, PhantomData};
use std::snapshot::Snapshot;

/// The start of a table: its layout, and the parts and the CPUs' own states with which it begins.
#[derive(Drop)]
pub struct Opening<A: Allocator> {
    pub layout: Layout,
    pub slots: Snapshot<Vec<Option<Slot<A>>>>,
    pub owns: Snapshot<Vec<CpuState>>,
}

/// What a table begins with: the log of each part, by number, and the CPUs' own states. No value of it is made.
pub struct Begun {
    pub logs: LinkedList<LinkedList<Call>>,
    pub owns: LinkedList<CpuState>,
}

/// What a pass knows, or the root, from which passes come. No value of it is made. A list of pairs represents a function
/// of a part's number: the first pair of a number counts.
pub struct View<A: Allocator> {
    /// A CPU's pass has it.
    pub on: bool,
    pub layout: Layout,
    pub cpu: u64,
    /// The CPU's own state, with its log.
    pub own: CpuState,
    /// What the pass has seen of each part's log.
    pub seen: LinkedList<(u64, LinkedList<Call>)>,
    /// The parts that the pass holds.
    pub held: LinkedList<(u64, Option<Slot<A>>)>,
    /// Each part that was tried, with its log as it was taken, or none if another pass had it. With each try the number
    /// of calls in the CPU's own list then.
    pub tries: LinkedList<(u64, (u64, Option<Log>))>,
    pub root: bool,
    /// Of the root: what the table began with.
    pub begun: Begun,
    /// Of the root: how many CPUs have a pass.
    pub made: u64,
    /// In the root: each CPU's own state at the end, the calls that its pass has seen of each part's log, and its
    /// tries.
    pub ended: LinkedList<
        (
            CpuState,
            LinkedList<(u64, LinkedList<Call>)>,
            LinkedList<(u64, (u64, Option<Log>))>,
        ),
    >,
}

/// The rule of the table: there is one legal history.
pub struct Law;

impl<A: Allocator> TableRule<Option<Slot<A>>, View<A>, Opening<A>> for Law {
    ghost use Rattle.part_table.specs.Rule.{IsLawful, rooted};

    ghost holds = { λ k. IsLawful k.layout };

    ghost first = { rooted };
}

/// Takes a part.
pub(crate) struct Take;

impl<A: Allocator> Play<Option<Slot<A>>, View<A>> for Take {
    ghost use Rattle.part_table.specs.Rule.{took};

    ghost then = { took };
}

/// Puts a part home as it is recorded.
pub(crate) struct Return;

impl<A: Allocator> Play<Option<Slot<A>>, View<A>> for Return {
    ghost use Rattle.part_table.specs.Rule.{returned};

    ghost then = { returned };
}

/// A call, and the state in which it leaves its CPU.
pub trait Deed {
    ghost use Rattle.call_table.specs.declared.reply.Call.{Call};
    ghost use Rattle.part_types.specs.declared.parts.CpuState.{CpuState};

    ghost call: { Call };

    ghost own: { CpuState };
}

impl Deed for Brand {
    ghost use Rattle.part_table.specs.Beginnings.{no_own};
    ghost use Rattle.part_table.specs.Rule.{no_call};

    ghost call = { no_call };

    ghost own = { no_own };
}

/// Puts a part home with the call stored.
pub(crate) struct Store<J> {
    deed: PhantomData<J>,
}

impl<A: Allocator, J: Deed> Play<Option<Slot<A>>, View<A>> for Store<J> {
    ghost use Rattle.part_table.specs.Rule.{stored};

    ghost then = { stored J.call J.own };
}

/// A load with which a pass enters a call that used no part in its own list.
pub(crate) struct Enter<J> {
    deed: PhantomData<J>,
}

impl<A: Allocator, J: Deed> Play<Option<Slot<A>>, View<A>> for Enter<J> {
    ghost use Rattle.part_table.specs.Rule.{entered};

    ghost then = { entered J.call J.own };
}

/// The root makes the next CPU's view, and takes in those of the CPUs that end, in their order.
pub(crate) struct Root;

impl<A: Allocator> Split<View<A>> for Root {
    ghost use Rattle.part_table.specs.Rule.{newcomer, one_more};

    ghost left = { one_more };

    ghost right = { newcomer };
}

impl<A: Allocator> Join<View<A>> for Root {
    ghost use Rattle.part_table.specs.Rule.{nobody, with_end};

    ghost both = { with_end };

    ghost spent = { nobody };
}

/// What two seats of one CPU would come to, which can't be had.
pub(crate) struct Clash;

impl<A: Allocator> Join<View<A>> for Clash {
    ghost use Rattle.part_table.specs.Rule.{clash, nobody};

    ghost both = { clash };

    ghost spent = { nobody };
}

impl<A: Allocator> Play<Option<Slot<A>>, View<A>> for Clash {
    ghost use Rattle.part_table.specs.Rule.{never};

    ghost then = { never };
}

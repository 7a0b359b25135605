//! The conditions in which a frame can be.
ghost use Rattle.std.specs.Prelude.{◌≡◌};
ghost use Rattle.trace_cover.specs.Conditions.{by_state as by_state_in, by_usage as by_usage_in, condition_number, conditions as all_conditions, words_of};

use descriptor::State;
use page_state::Usage;

/// The condition in which a frame is.
#[derive(Clone, Copy)]
pub enum Condition {
    /// No frame of memory: a device's page.
    Device,
    /// The host's, and the host's page is unmapped.
    Untouched,
    /// The host's, and the host's page is mapped.
    Mapped,
    /// Shared with the hypervisor.
    WithHyp,
    /// The hypervisor's, in no other use.
    HypPlain,
    /// The hypervisor's, in the shared pool or a table of the host's or the hypervisor's tree.
    InSharedPool,
    /// The hypervisor's, in a guest's pool or a table of its tree.
    InVmPool,
    /// The hypervisor's, in a CPU's hand.
    InHand,
    /// Shared with a guest.
    WithGuest,
    /// Shared with a Dying guest.
    WithDying,
    /// A guest's.
    Guests,
    /// A Dying guest's.
    OfDying,
    /// Lent back by a guest.
    LentBack,
    /// Lent back by a Dying guest.
    LentByDying,
}

impl Condition {
    /// All of them, in the order of the report.
    pub fn all() -> &'static [Condition]
        ensures { result.now ≡ all_conditions }
    {
        &[
            Condition::Device,
            Condition::Untouched,
            Condition::Mapped,
            Condition::WithHyp,
            Condition::HypPlain,
            Condition::InSharedPool,
            Condition::InVmPool,
            Condition::InHand,
            Condition::WithGuest,
            Condition::WithDying,
            Condition::Guests,
            Condition::OfDying,
            Condition::LentBack,
            Condition::LentByDying,
        ]
    }

    /// Its place in the order of the report, from 1 on.
    pub(crate) fn number(self) -> u64
        ensures { result ≡ condition_number self }
    {
        match self {
            Condition::Device => 1,
            Condition::Untouched => 2,
            Condition::Mapped => 3,
            Condition::WithHyp => 4,
            Condition::HypPlain => 5,
            Condition::InSharedPool => 6,
            Condition::InVmPool => 7,
            Condition::InHand => 8,
            Condition::WithGuest => 9,
            Condition::WithDying => 10,
            Condition::Guests => 11,
            Condition::OfDying => 12,
            Condition::LentBack => 13,
            Condition::LentByDying => 14,
        }
    }

    /// The condition in words, as a line of the report has it.
    pub fn words(self) -> &'static str
        ensures { result.now ≡ words_of self }
    {
        match self {
            Condition::Device => "a device's page",
            Condition::Untouched => "the host's, untouched",
            Condition::Mapped => "the host's, mapped",
            Condition::WithHyp => "shared with the hypervisor",
            Condition::HypPlain => "the hypervisor's, Plain",
            Condition::InSharedPool => "SharedPool",
            Condition::InVmPool => "VmPool",
            Condition::InHand => "InHand",
            Condition::WithGuest => "shared with a guest",
            Condition::WithDying => "shared with a Dying guest",
            Condition::Guests => "a guest's",
            Condition::OfDying => "a Dying guest's",
            Condition::LentBack => "lent back by a guest",
            Condition::LentByDying => "lent back by a Dying guest",
        }
    }
}

/// The condition of a frame that a guest maps in a state.
pub(crate) fn by_state(is_dying: bool, state: State) -> Condition
    ensures { result ≡ by_state_in is_dying state }
{
    match (is_dying, state) {
        (false, State::SharedBorrowed) => Condition::WithGuest,
        (true, State::SharedBorrowed) => Condition::WithDying,
        (false, State::Owned) => Condition::Guests,
        (true, State::Owned) => Condition::OfDying,
        (false, State::SharedOwned) => Condition::LentBack,
        (true, State::SharedOwned) => Condition::LentByDying,
    }
}

/// The condition of a frame of the hypervisor, by its use.
pub(crate) fn by_usage(usage: Usage) -> Condition
    ensures { result ≡ by_usage_in usage }
{
    match usage {
        Usage::Plain => Condition::HypPlain,
        Usage::SharedPool => Condition::InSharedPool,
        Usage::VmPool(_) => Condition::InVmPool,
        Usage::InHand(_) => Condition::InHand,
    }
}

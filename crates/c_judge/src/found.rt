//! What a judgement finds.
use crate::wanted::FreedomsFault;
use c_states::Unjudged;
use call_table::Reply;
use ghost_judge::disagreement::Disagreement;

/// Where a call and the model disagree.
#[derive(Clone, Copy, PartialEq)]
pub enum Found {
    /// On the state after it, or on a reply that the model has.
    Differs(Disagreement),
    /// On a refusal whose number the model hasn't.
    Refusal { number: u64, spec: Reply },
    /// On a call that stopped the machine.
    Stopped { spec: Reply },
}

/// Why there is no judgement.
#[derive(Clone, Copy, PartialEq)]
pub enum Unfound {
    /// The freedoms of the layout are refused. They are tested first.
    Freedoms(FreedomsFault),
    /// The call, the layout or a state is.
    Call(Unjudged),
}

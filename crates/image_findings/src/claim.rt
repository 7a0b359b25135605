//! What trees say of frames.
ghost use Rattle.std.specs.Prelude.{◌≡◌, ◌++◌, OnOk, option_to_list};
ghost use Rattle.std.specs.List.{filter_map};
ghost use Rattle.image_findings.specs.Claims.{claim_of, owns, borrows, shares};

use descriptor::State;
use run_list::Run;
use std::alloc::AllocError;
use table_words::Decoded;
use walked_tables::Said;

/// What a tree says of frames: that its pages from `page` on map them, or that it owns them.
#[derive(Clone, Copy, PartialEq)]
pub struct Claim {
    /// 0 the host's, 1 the hypervisor's, 2 + N guest N's.
    pub tree: u64,
    /// The first page of the run, or of the host's annotation.
    pub page: u64,
    /// The first frame.
    pub frame: u64,
    /// How many frames there are.
    pub count: u64,
    /// The state, if words say one.
    pub state: Option<State>,
    /// Whether an annotation of the host names the tree as the owner.
    pub named: bool,
}

impl Claim {
    /// Whether the tree owns the frames.
    pub(crate) fn owns(&self) -> bool
        ensures { result ≡ owns self.now }
    {
        matches!(self.state, Some(State::Owned | State::SharedOwned))
    }

    /// Whether the tree borrows the frames.
    pub(crate) fn borrows(&self) -> bool
        ensures { result ≡ borrows self.now }
    {
        matches!(self.state, Some(State::SharedBorrowed))
    }

    /// Whether the tree owns the frames and shares them.
    pub(crate) fn shares(&self) -> bool
        ensures { result ≡ shares self.now }
    {
        matches!(self.state, Some(State::SharedOwned))
    }
}

/// The claim of a run: a leaf claims for its tree, an annotation of the host for the owner that it names. The
/// annotation of a guest by its handle claims nothing, since which tree has the handle isn't known.
pub(crate) fn claimed(tree: u64, run: &Run<Said>) -> Option<Claim>
    ensures { result ≡ claim_of tree run.now }
{
    let page = run.pages.first.0;
    let count = run.pages.count;
    match run.value.0 {
        Decoded::Leaf(mapping) => Some(Claim {
            tree,
            page,
            frame: mapping.frame.0,
            count,
            state: mapping.state,
            named: false,
        }),
        Decoded::Annotated { owner, guest } => {
            if tree == 0 && guest.is_none() {
                Some(Claim {
                    tree: owner.0,
                    page,
                    frame: page,
                    count,
                    state: Some(State::Owned),
                    named: true,
                })
            } else {
                None
            }
        }
        Decoded::Malformed
        | Decoded::Unmapped
        | Decoded::Poisoned
        | Decoded::Locked
        | Decoded::Cleared(_)
        | Decoded::Table(_) => None,
    }
}

/// Adds a claim, if there is one.
fn add(claims: &mut Vec<Claim>, next: Option<Claim>) -> Result<(), AllocError>
    ensures { OnOk result (claims.new.items ≡ claims.old.items ++ option_to_list next) }
{
    if let Some(next) = next {
        claims.push(next)?;
    }
    Ok(())
}

/// Adds what the runs of a tree claim.
pub fn add_claims(tree: u64, runs: &[Run<Said>], claims: &mut Vec<Claim>) -> Result<(), AllocError>
    ensures { OnOk result (claims.new.items ≡ claims.old.items ++ filter_map (claim_of tree) runs.now) }
{
    for i in 0..runs.len() {
        add(claims, claimed(tree, &runs[i]))?;
    }
    Ok(())
}

//! States and layouts as lists of plain structs, which C and Rust lay out alike: the values that they say, the
//! judgement of a call by them, and the prediction of one.
#![tactic(auto)]

mod clash;
mod judge;
mod known;
pub mod laws;
mod layout;
mod lists;
mod members;
mod state;
mod text;
mod told;

pub use judge::{
    PlainCall, Prediction, Unjudged, Unmade, judged, made, predicted, predicted_state,
};
pub use layout::{PlainLayout, PlainLayoutFault, PlainRegion, layout_of};
pub use members::{
    PlainCpu, PlainFrame, PlainGuest, PlainLoad, PlainRow, PlainRun, PlainSlot, PlainTable,
};
pub use state::{PlainFault, PlainList, PlainState, state_of};
pub use text::write_judgement;
pub use told::{PlainLists, lists_of};

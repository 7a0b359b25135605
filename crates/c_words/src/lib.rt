//! Words of tables, owner rows, steps and replies as structs of numbers, which C and Rust lay out alike.
#![tactic(auto)]

pub mod laws;
mod numbers;
mod owner;
mod reply;
mod step;
mod word;

pub use numbers::{
    kind_number, kind_of, level_of, refusal_number, refusal_of, rights_number, rights_of,
    state_number, state_of, vm_kind_number, vm_kind_of,
};
pub use owner::{PlainOwner, owner_to_c, row_of};
pub use reply::{PlainReply, reply_of, reply_to_c};
pub use step::{PlainStep, step_of};
pub use word::{PlainWord, desc_of, desc_to_c, entry_of, entry_to_c, target_of, target_to_c};

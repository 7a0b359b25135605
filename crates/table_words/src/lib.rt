//! Words of page tables by whoever wrote them: the model, or a Linux release.
//!
//! A `Profile` says how the parts of a word are written; `decode` gives the meaning of a word of a level by it. `entry`
//! is the part of this meaning that the model has, `beyond_model` the part that it hasn't.
#![tactic(auto)]

mod decoding;
mod entries;
pub mod laws;
mod parts;
mod profile;
mod word;

pub use decoding::decode;
pub use entries::{Beyond, beyond_model, entry};
pub use profile::{
    AccessForm, ExecuteForm, InvalidForm, MemoryForm, Profile, Release, linux_guest, linux_host,
    linux_hypervisor, model,
};
pub use word::{Access, Decoded, Execute, Guest, Mapping, Memory};

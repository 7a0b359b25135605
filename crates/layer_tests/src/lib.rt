//! Tests of words, layouts and replies, of pools, of pokes, and of changes of trees. They have a crate of their own, since
//! tests are proved with all functions of their crate.
#![tactic(auto)]

#[cfg(test)]
mod changes;
#[cfg(test)]
mod expect;
#[cfg(test)]
mod pokes;
#[cfg(test)]
mod pools;
pub mod sample;
#[cfg(test)]
mod values;
#[cfg(test)]
mod words;

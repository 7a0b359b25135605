//! Tests of the oracle (`audit`, `judge`, `record`), of worlds, of machines, of replays, and of races and audits. They have a
//! crate of their own, since tests are proved with all functions of their crate.
#![tactic(auto)]

#[cfg(test)]
mod audit;
#[cfg(test)]
mod devices;
#[cfg(test)]
mod expect;
#[cfg(test)]
mod handmade;
#[cfg(test)]
mod heaps;
#[cfg(test)]
mod held;
#[cfg(test)]
mod judge;
#[cfg(test)]
mod machines;
pub mod numbers;
#[cfg(test)]
mod races;
#[cfg(test)]
mod record;
#[cfg(test)]
mod replays;
#[cfg(test)]
mod sample;
#[cfg(test)]
mod worlds;

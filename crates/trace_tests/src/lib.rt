//! Tests of what the program does with a trace: checks, coverage, pictures, explanations and random traces.
#![tactic(auto)]

#[cfg(test)]
mod counts;
#[cfg(test)]
mod drawings;
#[cfg(test)]
mod expectations;
#[cfg(test)]
mod explanations;
#[cfg(test)]
mod seeds;
#[cfg(test)]
mod value_names;
#[cfg(test)]
mod watches;

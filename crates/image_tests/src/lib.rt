//! Tests of what reads an image of memory: words by their profiles, tables, cores, trees, findings, reports, and the words of the command.
#![tactic(auto)]

#[cfg(test)]
mod claims;
#[cfg(test)]
mod command_words;
#[cfg(test)]
mod cores;
#[cfg(test)]
mod dumps;
#[cfg(test)]
mod linux_words;
#[cfg(test)]
mod page_walks;
#[cfg(test)]
mod raw_trees;
#[cfg(test)]
mod sample;

//! Worked rows of the shared store, as tests alone: passes that meet, read and give, two threads at work, and subtrees that are shared.
#![tactic(auto)]

#[cfg(test)]
mod holder;
#[cfg(test)]
mod tests;

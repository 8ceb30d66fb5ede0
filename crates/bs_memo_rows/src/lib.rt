//! Worked rows of the table of remembered values, as tests alone: what leaves a full table, and a table with no room.
#![tactic(auto)]

#[cfg(test)]
mod holder;
#[cfg(test)]
mod tests;
#[cfg(test)]
mod values;

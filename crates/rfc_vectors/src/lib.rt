//! Vectors of the standards that cross crates, as tests: texts as they are sent are read and their values computed again.
#![tactic(auto)]

#[cfg(test)]
mod tests;

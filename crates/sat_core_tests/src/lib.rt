//! Tests of the solver, with its logs checked.
#![tactic(auto)]

#[cfg(test)]
mod problems;
#[cfg(test)]
mod tests;

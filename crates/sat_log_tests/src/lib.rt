//! Tests of `sat_log`, and the problems and the look at a log that the tests of the solver share with them.
#![tactic(auto)]

#[cfg(test)]
mod cases;
pub mod logs;
pub mod problems;
#[cfg(test)]
mod tests;

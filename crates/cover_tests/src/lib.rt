//! Tests of what a choice of puts has to meet, of its clauses and of their solutions, from the texts of programs. The tests of
//! certificates share the problem and the solution with them.
#![tactic(auto)]

#[cfg(test)]
mod cases;
pub mod choices;
#[cfg(test)]
mod covered;
#[cfg(test)]
mod posed;
pub mod problems;
#[cfg(test)]
mod rows;
#[cfg(test)]
mod shown;
#[cfg(test)]
mod solutions;
#[cfg(test)]
mod tests;

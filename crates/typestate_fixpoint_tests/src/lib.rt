//! Tests of what is derived from the texts of programs. The tests of covers and of certificates share the texts, the facts of a
//! graph and the order of puts with them.
#![tactic(auto)]

#[cfg(test)]
mod analysis;
#[cfg(test)]
mod cases;
pub mod facts;
#[cfg(test)]
mod field_cases;
#[cfg(test)]
mod limits;
pub mod order;
#[cfg(test)]
mod posts;
pub mod programs;
#[cfg(test)]
mod shown;
#[cfg(test)]
mod tests;

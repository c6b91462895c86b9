//! Tests of what flows where, from the texts of programs.
#![tactic(auto)]

#[cfg(test)]
mod programs;
#[cfg(test)]
mod shown;
#[cfg(test)]
mod tests;

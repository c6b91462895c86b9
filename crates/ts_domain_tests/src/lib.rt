//! Tests of the names of a program's graph, from the texts of programs.
#![tactic(auto)]

#[cfg(test)]
mod limits;
#[cfg(test)]
mod programs;
#[cfg(test)]
mod shown;
#[cfg(test)]
mod tests;

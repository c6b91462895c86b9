//! Tests of the facts that hold on every path, from the texts of programs.
#![tactic(auto)]

#[cfg(test)]
mod programs;
#[cfg(test)]
mod shown;
#[cfg(test)]
mod tests;

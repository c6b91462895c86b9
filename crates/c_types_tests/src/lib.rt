//! Tests of names and types, over their public calls.
#![tactic(auto)]

#[cfg(test)]
mod numbers;
#[cfg(test)]
mod programs;
#[cfg(test)]
mod refusals;
#[cfg(test)]
mod scopes;

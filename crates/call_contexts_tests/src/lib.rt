//! Tests of `call_contexts`.
#![tactic(auto)]

#[cfg(test)]
mod programs;
#[cfg(test)]
mod tests;

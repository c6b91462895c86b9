//! Tests of `mf_set`.
#![tactic(auto)]

#[cfg(test)]
mod tests;

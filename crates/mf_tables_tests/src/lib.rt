//! Tests of `mf_tables`.
#![tactic(auto)]

#[cfg(test)]
mod tests;

//! Tests of `memfix_engine`, over its public calls.
#![tactic(auto)]

#[cfg(test)]
mod tests;

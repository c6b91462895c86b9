//! Tests of the lexer, over its public calls.
#![tactic(auto)]

#[cfg(test)]
mod cases;
#[cfg(test)]
mod tests;

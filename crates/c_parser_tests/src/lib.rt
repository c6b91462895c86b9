//! Tests of the parser, over its public calls.
#![tactic(auto)]

#[cfg(test)]
mod cases;
#[cfg(test)]
mod long;
#[cfg(test)]
mod prefixes;
#[cfg(test)]
mod printing;
#[cfg(test)]
mod tests;

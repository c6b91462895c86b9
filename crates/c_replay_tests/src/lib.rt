//! Tests of `c_replay`.
#![tactic(auto)]

#[cfg(test)]
mod courses;
#[cfg(test)]
mod shown;
#[cfg(test)]
mod tests;

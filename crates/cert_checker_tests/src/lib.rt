//! Tests of certificates: those that are made for covers are closed, and one change breaks each condition.
#![tactic(auto)]

#[cfg(test)]
mod certificates;
#[cfg(test)]
mod changes;
#[cfg(test)]
mod covers;
#[cfg(test)]
mod reasons;
#[cfg(test)]
mod splits;
#[cfg(test)]
mod stores;
#[cfg(test)]
mod tests;

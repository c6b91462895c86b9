//! Random problems.

use mf_list::{Memory, Seq};
use rand_core::utils::NextWord;
use rand_pcg::Pcg32;
use sat_log::{Clauses, Lit};
use std::alloc::Global;

fn number_below(words: &mut Pcg32, bound: u32) -> u32 {
    if bound == 0 {
        return 0;
    }
    words.next_word() % bound
}

/// Clauses of `shortest` to `longest` literals each, with literals that are repeated and some beside their opposites.
pub fn random(
    alloc: Global,
    words: &mut Pcg32,
    vars: u16,
    count: u32,
    shortest: u32,
    longest: u32,
) -> Result<Clauses, Memory> {
    let mut list = Seq::new(alloc);
    for _ in 0..count {
        let mut clause = Seq::new(alloc);
        let more = longest.saturating_sub(shortest).saturating_add(1);
        let length = number_below(words, more).saturating_add(shortest);
        for _ in 0..length {
            if vars > 0 {
                let var = number_below(words, u32::from(vars)) as usize;
                let yes = words.next_word() % 2 == 0;
                clause.push(Lit { var, yes })?;
            }
        }
        list.push(clause)?;
    }
    Ok(Clauses {
        vars: usize::from(vars),
        list,
    })
}

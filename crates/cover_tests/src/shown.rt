// Parts of cover problems as text, and lines compared as sets.
use c_tree::Put;
use mf_list::{Memory, Seq};
use mf_set::BitSet;
use sat_log::Lit;
use std::alloc::Global;

fn show_next(line: &mut String, number: usize) -> Result<(), Memory> {
    if !line.is_empty() {
        line.push_str(" ")?;
    }
    write!(line, "{number}")
}

/// The numbers of a set.
pub fn shown_set(alloc: Global, set: &BitSet) -> Result<String, Memory> {
    let mut line = String::new(alloc);
    for number in set.to_vec(alloc)?.as_slice() {
        show_next(&mut line, *number)?;
    }
    Ok(line)
}

/// The places of puts among all.
pub fn shown_puts(alloc: Global, all: &[Put], puts: &[Put]) -> Result<String, Memory> {
    let mut line = String::new(alloc);
    for put in puts {
        let place = all.iter().position(|other| other == put);
        show_next(&mut line, place.unwrap_or(usize::MAX))?;
    }
    Ok(line)
}

/// A triple at an exit: site, node and candidates.
fn shown_exit(alloc: Global, exit: &(usize, usize, BitSet)) -> Result<String, Memory> {
    let candidates = shown_set(alloc, &exit.2)?;
    let mut line = String::new(alloc);
    write!(line, "{} {} [{}]", exit.0, exit.1, candidates.as_str())?;
    Ok(line)
}

pub fn shown_exits(alloc: Global, exits: &[(usize, usize, BitSet)]) -> Result<Vec<String>, Memory> {
    let mut lines = Vec::new(alloc);
    for exit in exits {
        lines.push(shown_exit(alloc, exit)?)?;
    }
    Ok(lines)
}

fn show_literal(line: &mut String, lit: Lit) -> Result<(), Memory> {
    if !line.is_empty() {
        line.push_str(" ")?;
    }
    if !lit.yes {
        line.push_str("-")?;
    }
    write!(line, "{}", lit.var)
}

fn shown_clause(alloc: Global, clause: &[Lit]) -> Result<String, Memory> {
    let mut line = String::new(alloc);
    for lit in clause {
        show_literal(&mut line, *lit)?;
    }
    Ok(line)
}

pub fn shown_clauses(alloc: Global, list: &[Seq<Lit>]) -> Result<Vec<String>, Memory> {
    let mut lines = Vec::new(alloc);
    for clause in list {
        lines.push(shown_clause(alloc, clause.as_slice())?)?;
    }
    Ok(lines)
}

/// Whether all lines are told.
pub fn are_told(lines: &[String], told: &[&str]) -> bool {
    for line in lines {
        let line = line.as_str();
        if told.iter().all(|other| line != *other) {
            return false;
        }
    }
    true
}

/// Whether all told lines are there.
pub fn are_there(lines: &[String], told: &[&str]) -> bool {
    for line in told {
        if lines.iter().all(|other| other.as_str() != *line) {
            return false;
        }
    }
    true
}

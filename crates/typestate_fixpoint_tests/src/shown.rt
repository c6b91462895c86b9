// What is derived as text, and lines compared as sets.
use mf_list::Memory;
use std::alloc::Global;
use ts_domain::{Mark, Verdict, verdict};

fn show_number(line: &mut String, at: usize, number: usize) -> Result<(), Memory> {
    if at > 0 {
        line.push_str(" ")?;
    }
    write!(line, "{number}")
}

fn show_numbers(line: &mut String, numbers: &[usize]) -> Result<(), Memory> {
    for (at, number) in numbers.iter().enumerate() {
        show_number(line, at, *number)?;
    }
    Ok(())
}

fn show_list(line: &mut String, numbers: &[usize]) -> Result<(), Memory> {
    line.push_str(" [")?;
    show_numbers(line, numbers)?;
    line.push_str("]")
}

/// The expressions below a number that a mark leaves undecided.
fn undecided(alloc: Global, mark: &Mark, count: usize) -> Result<Vec<usize>, Memory> {
    let mut list = Vec::new(alloc);
    for expression in 0..count {
        if verdict(mark, expression) == Verdict::Open {
            list.push(expression)?;
        }
    }
    Ok(list)
}

/// A mark at a node with candidates, where there are so many expressions.
pub fn shown(
    alloc: Global,
    node: usize,
    mark: &Mark,
    count: usize,
    candidates: &[usize],
) -> Result<String, Memory> {
    let holds = mark.holds.to_vec(alloc)?;
    let open = undecided(alloc, mark, count)?;
    let mut line = String::new(alloc);
    write!(line, "{node} {}", mark.site)?;
    show_list(&mut line, holds.as_slice())?;
    show_list(&mut line, open.as_slice())?;
    show_list(&mut line, candidates)?;
    Ok(line)
}

/// Numbers, parted by blanks.
pub fn shown_numbers(alloc: Global, numbers: &[usize]) -> Result<String, Memory> {
    let mut line = String::new(alloc);
    show_numbers(&mut line, numbers)?;
    Ok(line)
}

fn show_pair(line: &mut String, at: usize, pair: (usize, usize)) -> Result<(), Memory> {
    if at > 0 {
        line.push_str(" ")?;
    }
    write!(line, "{}-{}", pair.0, pair.1)
}

/// Pairs, ascending.
pub fn shown_pairs(alloc: Global, pairs: &[(usize, usize)]) -> Result<String, Memory> {
    let mut ascending = Vec::from_slice(alloc, pairs)?;
    ascending.sort_unstable();
    let mut line = String::new(alloc);
    for (at, pair) in ascending.as_slice().iter().enumerate() {
        show_pair(&mut line, at, *pair)?;
    }
    Ok(line)
}

/// Whether all lines are told.
pub fn are_told(lines: &[String], told: &[&str]) -> bool {
    for line in lines {
        let line = line.as_str();
        if told.iter().all(|other| line != *other) {
            return false;
        }
    }
    true
}

/// Whether all told lines are there.
pub fn are_there(lines: &[String], told: &[&str]) -> bool {
    for line in told {
        if lines.iter().all(|other| other.as_str() != *line) {
            return false;
        }
    }
    true
}

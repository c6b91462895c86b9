//! Unit propagation over the watched clauses.

use crate::Memory;
use crate::cells::{read, write};
use crate::code::Code;
use crate::trail::{Trail, Truth};
use crate::watches::{Pair, Place, Watch, Watches};

/// What a visit of a clause leads to.
#[derive(Clone, Copy, Debug)]
enum Visit {
    /// The watch went to another literal, or the clause was dropped.
    Gone,
    /// The watch stays, with this literal as its blocker.
    Stays(Code),
    /// All literals of the clause of this number are false.
    Clash(u32),
}

/// Draws the consequences of the literals of the trail, up to the number of a clause whose literals are all false.
pub fn propagate(trail: &mut Trail, watches: &mut Watches) -> Result<Option<u32>, Memory> {
    for _ in 0..u64::MAX {
        let Some(code) = trail.next() else {
            break;
        };
        let clash = propagate_pairs(trail, watches.pairs(code))?;
        if clash.is_some() {
            return Ok(clash);
        }
        let mut list = watches.take(code);
        let clash = propagate_longs(trail, watches, &mut list, code.opposite())?;
        watches.put_back(code, list);
        if clash.is_some() {
            return Ok(clash);
        }
    }
    Ok(None)
}

fn propagate_pairs(trail: &mut Trail, pairs: &[Pair]) -> Result<Option<u32>, Memory> {
    for pair in pairs {
        match trail.value(pair.other) {
            Truth::True => {}
            Truth::False => return Ok(Some(pair.clause)),
            Truth::Unknown => trail.assign(pair.other, pair.clause)?,
        }
    }
    Ok(None)
}

/// Visits the clauses of a list, whose watched literal `falsified` became false, and keeps those that stay.
fn propagate_longs(
    trail: &mut Trail,
    watches: &mut Watches,
    list: &mut Vec<Watch>,
    falsified: Code,
) -> Result<Option<u32>, Memory> {
    let mut kept = 0usize;
    let mut clash = None;
    for at in 0..list.len() {
        let watch = list[at];
        let visit = if clash.is_some() || trail.value(watch.blocker) == Truth::True {
            Visit::Stays(watch.blocker)
        } else {
            visit_clause(trail, watches, watch, falsified)?
        };
        let blocker = match visit {
            Visit::Gone => continue,
            Visit::Stays(blocker) => blocker,
            Visit::Clash(clause) => {
                clash = Some(clause);
                watch.blocker
            }
        };
        write(
            list,
            kept,
            Watch {
                at: watch.at,
                blocker,
            },
        );
        kept = kept.wrapping_add(1);
    }
    list.truncate(kept);
    Ok(clash)
}

fn visit_clause(
    trail: &mut Trail,
    watches: &mut Watches,
    watch: Watch,
    falsified: Code,
) -> Result<Visit, Memory> {
    let place = watches.place(watch.at);
    if place.length == 0 {
        return Ok(Visit::Gone);
    }
    let other = put_second(watches, place, falsified);
    if trail.value(other) == Truth::True {
        return Ok(Visit::Stays(other));
    }
    if let Some(at) = find_other(trail, watches, place) {
        let code = watches.code(at);
        watches.set_code(place.start.wrapping_add(1), code);
        watches.set_code(at, falsified);
        watches.watch(
            code.opposite(),
            Watch {
                at: watch.at,
                blocker: other,
            },
        )?;
        return Ok(Visit::Gone);
    }
    if trail.value(other) == Truth::False {
        return Ok(Visit::Clash(place.clause));
    }
    trail.assign(other, place.clause)?;
    Ok(Visit::Stays(other))
}

/// Makes `falsified` the second literal of the clause, and answers the first.
fn put_second(watches: &mut Watches, place: Place, falsified: Code) -> Code {
    let first = watches.code(place.start);
    if first != falsified {
        return first;
    }
    let second = watches.code(place.start.wrapping_add(1));
    watches.set_code(place.start, second);
    watches.set_code(place.start.wrapping_add(1), falsified);
    second
}

/// The place of a literal that is not false, behind the first two.
fn find_other(trail: &Trail, watches: &Watches, place: Place) -> Option<usize> {
    for offset in 2..place.length {
        let at = place.start.wrapping_add(offset);
        if trail.value(watches.code(at)) != Truth::False {
            return Some(at);
        }
    }
    None
}

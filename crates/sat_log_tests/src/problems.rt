//! Problems that no bits satisfy, and how clauses are written as numbers.

use mf_list::{Memory, Seq};
use sat_log::{Clauses, Lit};
use std::alloc::Global;

/// Puts a clause behind the others. Variables go by numbers from 1 on, and a number below 0 is its variable's negation.
pub fn add(list: &mut Seq<Seq<Lit>>, alloc: Global, numbers: &[i32]) -> Result<(), Memory> {
    let mut clause = Seq::new(alloc);
    for number in numbers {
        let var = (number.unsigned_abs() as usize).wrapping_sub(1);
        clause.push(Lit {
            var,
            yes: *number > 0,
        })?;
    }
    list.push(clause)?;
    Ok(())
}

/// The clauses that are written so.
pub fn list_of(alloc: Global, clauses: &[&[i32]]) -> Result<Seq<Seq<Lit>>, Memory> {
    let mut list = Seq::new(alloc);
    for numbers in clauses {
        add(&mut list, alloc, numbers)?;
    }
    Ok(list)
}

/// Two objects that each must go at one place, and of the two places at most one can be had.
pub fn apart(alloc: Global) -> Result<Clauses, Memory> {
    Ok(Clauses {
        vars: 2,
        list: list_of(alloc, &[&[1], &[2], &[-1, -2]])?,
    })
}

/// The variable that the thing lies in the place, of so many places.
pub fn lies(thing: i32, place: i32, places: i32) -> i32 {
    thing
        .wrapping_mul(places)
        .wrapping_add(place)
        .wrapping_add(1)
}

/// Each thing lies in a place, and no two things in one.
pub fn things(alloc: Global, things: u16, places: u16) -> Result<Clauses, Memory> {
    let vars = usize::from(things).wrapping_mul(usize::from(places));
    let mut list = Seq::new(alloc);
    let things = i32::from(things);
    let places = i32::from(places);
    for thing in 0..things {
        let mut somewhere = Vec::new(alloc);
        for place in 0..places {
            somewhere.push(lies(thing, place, places))?;
        }
        add(&mut list, alloc, somewhere.as_slice())?;
    }
    for place in 0..places {
        for thing in 0..things {
            for other in 0..thing {
                let one = lies(thing, place, places).wrapping_neg();
                let two = lies(other, place, places).wrapping_neg();
                add(&mut list, alloc, &[one, two])?;
            }
        }
    }
    Ok(Clauses { vars, list })
}

/// So many pairs of variables of which one is true, from the given variable on.
fn add_pairs(list: &mut Seq<Seq<Lit>>, alloc: Global, from: i32, pairs: u16) -> Result<(), Memory> {
    for pair in 0..i32::from(pairs) {
        let one = pair.wrapping_mul(2).wrapping_add(from);
        let other = one.wrapping_add(1);
        add(list, alloc, &[one, other])?;
        add(list, alloc, &[one.wrapping_neg(), other.wrapping_neg()])?;
    }
    Ok(())
}

/// 40 pairs, two variables with all four clauses of two literals over them, and 40 pairs.
pub fn core_between_pairs(alloc: Global) -> Result<Clauses, Memory> {
    let mut list = Seq::new(alloc);
    add_pairs(&mut list, alloc, 1, 40)?;
    for core in [[81, 82], [81, -82], [-81, 82], [-81, -82]] {
        add(&mut list, alloc, &core)?;
    }
    add_pairs(&mut list, alloc, 83, 40)?;
    Ok(Clauses { vars: 162, list })
}

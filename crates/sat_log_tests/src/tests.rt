// What the check says of logs, right ones and ones that were tampered with.

use crate::cases::{Case, LOGS, TAMPERED};
use crate::logs::{is_needed_whole, is_refuted_by};
use crate::problems::{add, apart, core_between_pairs, lies, list_of, things};
use mf_list::{Memory, Seq};
use sat_log::{Clauses, Lit, Log};
use std::alloc::Global;
use std::test::Fail;

fn answer_of(alloc: Global, case: &Case) -> Result<Option<bool>, Memory> {
    let clauses = Clauses {
        vars: case.vars,
        list: list_of(alloc, case.clauses)?,
    };
    let log = Log {
        list: list_of(alloc, case.log)?,
    };
    is_refuted_by(alloc, &clauses, &log)
}

#[test]
fn tells_logs_from_others(rt: HostRuntime) -> Result<(), Fail> {
    for (at, case) in LOGS.iter().enumerate() {
        assert_eq!(rt; answer_of(rt.alloc(), case)?, case.answer, "in case {at}");
    }
    Ok(())
}

#[test]
fn refuses_logs_that_were_tampered_with(rt: HostRuntime) -> Result<(), Fail> {
    for (at, case) in TAMPERED.iter().enumerate() {
        assert_eq!(rt; answer_of(rt.alloc(), case)?, case.answer, "in case {at}");
    }
    Ok(())
}

/// A place for a third thing, of four places.
fn third_place(one: i32, two: i32) -> i32 {
    (0..4)
        .find(|place| *place != one && *place != two)
        .unwrap_or(0)
}

/// The first of 5 things can't lie in the place, since then the second can lie in none of the 3 others.
fn add_place(list: &mut Seq<Seq<Lit>>, alloc: Global, one: i32) -> Result<(), Memory> {
    let first = lies(0, one, 4).wrapping_neg();
    for two in 0..4 {
        if two != one {
            let second = lies(1, two, 4).wrapping_neg();
            let third = lies(2, third_place(one, two), 4).wrapping_neg();
            add(list, alloc, &[first, second, third])?;
            add(list, alloc, &[first, second])?;
        }
    }
    add(list, alloc, &[first])
}

/// A log for 5 things in 4 places.
fn log_of_things(alloc: Global) -> Result<Log, Memory> {
    let mut list = Seq::new(alloc);
    for one in 0..4 {
        add_place(&mut list, alloc, one)?;
    }
    add(&mut list, alloc, &[])?;
    Ok(Log { list })
}

#[test]
fn wants_the_last_clause(rt: HostRuntime) -> Result<(), Fail> {
    let alloc = rt.alloc();
    let log = Log {
        list: list_of(alloc, &[&[]])?,
    };
    assert!(rt; is_needed_whole(alloc, &apart(alloc)?, log)?);
    assert!(rt; is_needed_whole(alloc, &things(alloc, 5, 4)?, log_of_things(alloc)?)?);
    let log = Log {
        list: list_of(alloc, &[&[81], &[]])?,
    };
    assert!(rt; is_needed_whole(alloc, &core_between_pairs(alloc)?, log)?);
    Ok(())
}

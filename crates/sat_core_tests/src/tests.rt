//! What no clause of the solver says: that it answers at all, that its search is quick, and that its logs pass.

use crate::problems::random;
use mf_list::{Memory, Seq};
use rand_pcg::Pcg32;
use sat_core::{Answer, solve};
use sat_log::{Clauses, Lit, are_below};
use sat_log_tests::logs::is_needed_whole;
use sat_log_tests::problems::{add, apart, core_between_pairs, list_of, things};
use std::alloc::Global;
use std::process::Abort;
use std::test::Fail;

/// The answer, or None where the problem is none.
fn answer_of(alloc: Global, clauses: &Clauses, hint: bool) -> Result<Option<Answer>, Memory> {
    if !are_below(clauses.vars, clauses.list.as_slice()) {
        return Ok(None);
    }
    let hint = vec![in alloc; hint; clauses.vars]?;
    let answer = solve(alloc, clauses, hint.as_slice())?;
    Ok(Some(answer))
}

/// The bits, or None where a log refutes the clauses.
fn bits_of(
    rt: &impl Abort,
    alloc: Global,
    clauses: &Clauses,
    hint: bool,
) -> Result<Option<Vec<bool>>, Fail> {
    match answer_of(alloc, clauses, hint)? {
        Some(Answer::Sat(bits)) => Ok(Some(bits)),
        Some(Answer::Unsat(log)) => {
            assert!(rt; is_needed_whole(alloc, clauses, log)?);
            Ok(None)
        }
        None => panic!(rt; "no problem"),
    }
}

#[test]
fn refuses_with_a_log(rt: HostRuntime) -> Result<(), Fail> {
    let alloc = rt.alloc();
    assert_eq!(rt; bits_of(&rt, alloc, &apart(alloc)?, false)?, None);
    assert_eq!(rt; bits_of(&rt, alloc, &things(alloc, 5, 4)?, false)?, None);
    assert_eq!(rt;
        bits_of(&rt, alloc, &core_between_pairs(alloc)?, false)?,
        None
    );
    assert_eq!(rt; bits_of(&rt, alloc, &things(alloc, 8, 7)?, true)?, None);
    Ok(())
}

#[test]
fn counts_the_problems(rt: HostRuntime) -> Result<(), Fail> {
    let things = things(rt.alloc(), 5, 4)?;
    assert_eq!(rt; (things.vars, things.list.len()), (20, 45));
    let core = core_between_pairs(rt.alloc())?;
    assert_eq!(rt; (core.vars, core.list.len()), (162, 164));
    Ok(())
}

fn empty(alloc: Global, vars: usize) -> Clauses {
    Clauses {
        vars,
        list: Seq::new(alloc),
    }
}

#[test]
fn takes_the_hint_first(rt: HostRuntime) -> Result<(), Fail> {
    let alloc = rt.alloc();
    let none = bits_of(&rt, alloc, &empty(alloc, 0), false)?;
    assert_eq!(rt; none, Some(vec![in alloc]?));
    for hint in [false, true] {
        let bits = bits_of(&rt, alloc, &empty(alloc, 3), hint)?;
        assert_eq!(rt; bits, Some(vec![in alloc; hint; 3]?));
    }
    Ok(())
}

#[test]
fn takes_odd_clauses(rt: HostRuntime) -> Result<(), Fail> {
    let alloc = rt.alloc();
    let mut clauses = Clauses {
        vars: 2,
        list: list_of(alloc, &[&[1, 1], &[2, -2], &[-1, 2, -1, 2]])?,
    };
    assert_eq!(rt;
        bits_of(&rt, alloc, &clauses, false)?,
        Some(vec![in alloc; true, true]?)
    );
    add(&mut clauses.list, alloc, &[-2, -2, -1])?;
    assert_eq!(rt; bits_of(&rt, alloc, &clauses, false)?, None);
    let empty = Clauses {
        vars: 0,
        list: list_of(alloc, &[&[]])?,
    };
    assert_eq!(rt; bits_of(&rt, alloc, &empty, false)?, None);
    Ok(())
}

fn is_true(lit: Lit, word: u32) -> bool {
    let bit = word.wrapping_shr((lit.var & 31) as u32) & 1;
    lit.yes == (bit == 1)
}

fn satisfies(clauses: &Clauses, word: u32) -> bool {
    clauses.list.as_slice().iter().all(|clause| clause
        .as_slice()
        .iter()
        .any(|lit| is_true(*lit, word)))
}

/// Whether some bits satisfy the clauses, by trying all.
fn is_satisfiable(clauses: &Clauses) -> bool {
    let count = 1u32.wrapping_shl((clauses.vars & 31) as u32);
    (0..count).any(|word| satisfies(clauses, word))
}

#[test]
fn agrees_with_all_assignments(rt: HostRuntime) -> Result<(), Fail> {
    let alloc = rt.alloc();
    let mut words = Pcg32::new(7, 11);
    let mut satisfied = 0u32;
    for round in 0..2_000u32 {
        let vars = (round % 9) as u16;
        let shortest = u32::from(round % 5 != 0);
        let clauses = random(alloc, &mut words, vars, u32::from(vars) * 4, shortest, 4)?;
        let bits = bits_of(&rt, alloc, &clauses, round % 2 == 0)?;
        assert_eq!(rt;
            bits.is_some(),
            is_satisfiable(&clauses),
            "in round {round}"
        );
        satisfied = satisfied.wrapping_add(u32::from(bits.is_some()));
    }
    assert!(rt;
        satisfied > 200 && satisfied < 1_800,
        "{satisfied} satisfied"
    );
    Ok(())
}

#[test]
fn learns_on_larger_ones(rt: HostRuntime) -> Result<(), Fail> {
    let alloc = rt.alloc();
    let mut words = Pcg32::new(3, 5);
    for _ in 0..40 {
        let clauses = random(alloc, &mut words, 60, 260, 3, 3)?;
        bits_of(&rt, alloc, &clauses, false)?;
    }
    Ok(())
}

//! Reads clauses as DIMACS text, solves them and prints the answer as solvers do. With the word `check` it also
//! checks the log of a refusal, and with the word `log` it only checks the log that comes with the text.
#![tactic(auto)]

mod dimacs;

use mf_io::{StdSource, read_all};
use sat_core::{Answer, solve};
use sat_log::{Clauses, Log, are_below, refutes};
use std::{env, io};

fn print_check(rt: &HostRuntime, clauses: &Clauses, log: &Log) -> io::Result<()> {
    if !are_below(clauses.vars, clauses.list.as_slice()) {
        return println!(rt; "c a variable has no place");
    }
    match refutes(rt.alloc(), clauses, log) {
        Ok(true) => println!(rt; "c the log refutes the clauses"),
        Ok(false) => println!(rt; "c the log does not refute the clauses"),
        Err(_) => println!(rt; "c no memory"),
    }
}

fn print_bits(rt: &HostRuntime, bits: &[bool]) -> io::Result<()> {
    print!(rt; "v")?;
    for (var, bit) in bits.iter().enumerate() {
        print!(rt; " {}{}", if *bit { "" } else { "-" }, var.wrapping_add(1))?;
    }
    println!(rt; " 0")
}

fn print_answer(rt: &HostRuntime, clauses: &Clauses, checks: bool) -> io::Result<()> {
    if !are_below(clauses.vars, clauses.list.as_slice()) {
        return println!(rt; "c a variable has no place");
    }
    let Ok(hint) = vec![in rt.alloc(); false; clauses.vars] else {
        return println!(rt; "c no memory");
    };
    match solve(rt.alloc(), clauses, hint.as_slice()) {
        Ok(Answer::Sat(bits)) => {
            println!(rt; "s SATISFIABLE")?;
            print_bits(rt, bits.as_slice())
        }
        Ok(Answer::Unsat(log)) => {
            println!(rt; "s UNSATISFIABLE")?;
            if checks {
                print_check(rt, clauses, &log)?;
            }
            Ok(())
        }
        Err(_) => println!(rt; "c no memory"),
    }
}

fn main(rt: HostRuntime) -> io::Result<()> {
    let word = env::args(&rt)?.nth(1);
    let mut source = StdSource::new(rt.stdin());
    let Ok(text) = read_all(rt.alloc(), &mut source, usize::MAX) else {
        return println!(rt; "c not read");
    };
    let Ok((clauses, log)) = dimacs::read(rt.alloc(), text.as_slice()) else {
        return println!(rt; "c no memory");
    };
    match word {
        Some(word) if word.as_str() == "log" => print_check(&rt, &clauses, &log),
        Some(word) if word.as_str() == "check" => print_answer(&rt, &clauses, true),
        _ => print_answer(&rt, &clauses, false),
    }
}

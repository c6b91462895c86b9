// The states of runs, from the texts of programs.
use crate::courses::{COURSES, Course, FAULTS, Run};
use crate::shown::shown;
use c_lexer::lex;
use c_meaning::Machine;
use c_parser::parse;
use c_replay::{live, run, start, step};
use c_tree::Program;
use c_types::resolve;
use mf_list::Memory;
use std::alloc::Global;
use std::test::Fail;

fn program_of(alloc: Global, text: &[u8]) -> Result<Program, Fail> {
    let tokens = lex(alloc, text)?;
    let tree = parse(alloc, &tokens)?;
    Ok(resolve(alloc, &tree)?)
}

/// The machine after so many steps, taken one by one.
fn stepped(alloc: Global, program: &Program, run: &Run, steps: u64) -> Result<Machine, Memory> {
    let mut machine = start(alloc, program, run.input, run.fails)?;
    for _ in 0..steps {
        if machine.steps < steps {
            step(alloc, &mut machine, program)?;
        }
    }
    Ok(machine)
}

/// The first state of a run that is another than told, be the steps taken at once or one by one.
fn other_state(alloc: Global, program: &Program, told: &Run) -> Result<Option<String>, Memory> {
    for (steps, line) in told.states {
        let at_once = run(alloc, program, told.input, told.fails, *steps)?;
        let by_steps = stepped(alloc, program, told, *steps)?;
        for machine in [&at_once, &by_steps] {
            let state = shown(alloc, machine)?;
            if state.as_str() != *line {
                return Ok(Some(state));
            }
        }
    }
    Ok(None)
}

fn other_run(alloc: Global, course: &Course) -> Result<Option<String>, Fail> {
    let program = program_of(alloc, course.text)?;
    for told in course.runs {
        let state = other_state(alloc, &program, told)?;
        if state.is_some() {
            return Ok(state);
        }
    }
    Ok(None)
}

#[test]
fn runs_have_the_states_that_are_told(rt: HostRuntime) -> Result<(), Fail> {
    for course in COURSES {
        assert_eq!(rt; other_run(rt.alloc(), &course)?, None);
    }
    Ok(())
}

#[test]
fn what_is_freed_lives_no_more(rt: HostRuntime) -> Result<(), Fail> {
    let alloc = rt.alloc();
    let program = program_of(alloc, FAULTS.text)?;
    assert_eq!(rt; live(&run(alloc, &program, b"6", &[], 10)?), 1);
    assert_eq!(rt; live(&run(alloc, &program, b"6", &[], 12)?), 0);
    Ok(())
}

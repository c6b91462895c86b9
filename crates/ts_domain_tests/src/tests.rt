// The names of worked programs.
use crate::programs::COURSES;
use crate::shown::{shown_expressions, shown_puts, shown_sites};
use c_lexer::lex;
use c_parser::parse;
use c_tree::{Program, Put};
use c_types::resolve;
use call_contexts::contexts;
use cfg_lower::lower;
use mf_list::Memory;
use std::alloc::Global;
use std::test::Fail;
use ts_domain::{Names, number};

pub fn program_of(alloc: Global, text: &[u8]) -> Result<Program, Fail> {
    let tokens = lex(alloc, text)?;
    let tree = parse(alloc, &tokens)?;
    Ok(resolve(alloc, &tree)?)
}

fn names_of(alloc: Global, text: &[u8]) -> Result<Names, Fail> {
    let program = program_of(alloc, text)?;
    let graph = lower(alloc, &program, &contexts(alloc, &program)?)?;
    Ok(number(alloc, &graph, &program)?)
}

/// The first line of puts that is another than told, where a line is one of the gap of each put
/// behind those of gaps before it.
fn other_line(alloc: Global, puts: &[Put], told: &[&str]) -> Result<Option<String>, Memory> {
    let mut lines = told.iter();
    let mut last = None;
    for put in puts {
        if last != Some(put.gap) {
            let line = shown_puts(alloc, put.gap, puts)?;
            if lines.next().is_none_or(|told| line.as_str() != *told) {
                return Ok(Some(line));
            }
            last = Some(put.gap);
        }
    }
    Ok(None)
}

fn count_of_gaps(puts: &[Put]) -> usize {
    let behind = puts
        .iter()
        .zip(puts.iter().skip(1))
        .filter(|(a, b)| a.gap < b.gap)
        .count();
    behind.saturating_add(usize::from(!puts.is_empty()))
}

#[test]
fn names_are_those_that_are_told(rt: HostRuntime) -> Result<(), Fail> {
    let alloc = rt.alloc();
    for course in COURSES {
        let names = names_of(alloc, course.text)?;
        let puts = names.puts.as_slice();
        assert_eq!(rt;
            shown_expressions(alloc, &names)?.as_str(),
            course.expressions
        );
        assert_eq!(rt; shown_sites(alloc, &names)?.as_str(), course.sites);
        assert_eq!(rt; other_line(alloc, puts, course.puts)?, None);
        assert_eq!(rt; count_of_gaps(puts), course.puts.len());
    }
    Ok(())
}

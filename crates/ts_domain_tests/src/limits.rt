// Each limit of a count, and the count that is one past it.
use crate::tests::program_of;
use c_tree::{Limit, Refusal};
use call_contexts::contexts;
use cfg_lower::lower;
use mf_list::Memory;
use std::alloc::Global;
use std::test::Fail;
use ts_domain::number;

/// A program that has globals, which are in scope at all gaps: pointers to `int`, and pointers to a
/// struct of so many pointers. `main` has so many requests and assignments before its `return`.
#[derive(Clone, Copy, Debug)]
struct Shape {
    pointers: usize,
    structs: usize,
    fields: usize,
    requests: usize,
    assignments: usize,
}

const fn plain(pointers: usize, assignments: usize) -> Shape {
    Shape {
        pointers,
        structs: 0,
        fields: 0,
        requests: 0,
        assignments,
    }
}

const fn asking(pointers: usize, requests: usize) -> Shape {
    Shape {
        pointers,
        structs: 0,
        fields: 0,
        requests,
        assignments: 0,
    }
}

const fn chained(pointers: usize, structs: usize, fields: usize) -> Shape {
    Shape {
        pointers,
        structs,
        fields,
        requests: 0,
        assignments: 0,
    }
}

fn numbered(text: &mut String, front: &str, count: usize) -> Result<(), Memory> {
    for number in 0..count {
        write!(text, "{front}{number}; ")?;
    }
    Ok(())
}

fn repeated(text: &mut String, statement: &str, count: usize) -> Result<(), Memory> {
    for _ in 0..count {
        text.push_str(statement)?;
    }
    Ok(())
}

fn text_of(alloc: Global, shape: &Shape) -> Result<String, Memory> {
    let mut text = String::new(alloc);
    text.push_str("struct s { int last; ")?;
    numbered(&mut text, "int *f", shape.fields)?;
    text.push_str("}; int x; ")?;
    numbered(&mut text, "int *p", shape.pointers)?;
    numbered(&mut text, "struct s *s", shape.structs)?;
    text.push_str("int main(void) { ")?;
    repeated(&mut text, "p0 = malloc(sizeof(int)); ", shape.requests)?;
    repeated(&mut text, "x = 1; ", shape.assignments)?;
    text.push_str("return 0; }")?;
    Ok(text)
}

/// How many puts there are, or why they have no numbers.
fn puts_of(alloc: Global, shape: &Shape) -> Result<Result<usize, Refusal>, Fail> {
    let text = text_of(alloc, shape)?;
    let program = program_of(alloc, text.as_bytes())?;
    let graph = lower(alloc, &program, &contexts(alloc, &program)?)?;
    match number(alloc, &graph, &program) {
        Ok(names) => Ok(Ok(names.puts.len())),
        Err(refusal) => Ok(Err(refusal)),
    }
}

#[test]
fn each_count_may_come_to_its_limit_and_not_past_it(rt: HostRuntime) -> Result<(), Fail> {
    let cases = [
        (plain(256, 0), Ok(512)),
        (plain(257, 0), Err(Limit::Variables)),
        (chained(0, 4, 255), Ok(2_048)),
        (chained(1, 4, 255), Err(Limit::Expressions)),
        (asking(1, 1_024), Ok(1_026)),
        (asking(1, 1_025), Err(Limit::Sites)),
        (plain(64, 126), Ok(8_192)),
        (plain(3, 2_729), Err(Limit::Frees)),
        (plain(256, 4_900), Err(Limit::Frees)),
        (asking(257, 1_025), Err(Limit::Variables)),
        (asking(64, 1_025), Err(Limit::Sites)),
    ];
    for (shape, answer) in &cases {
        assert_eq!(rt; puts_of(rt.alloc(), shape)?, answer.map_err(Refusal::Limit));
    }
    Ok(())
}

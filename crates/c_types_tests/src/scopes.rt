// What is in scope at gaps of worked programs.
use crate::programs::{CHAIN, FORS, GLOBALS, RETURNS};
use crate::refusals::program_of;
use c_types::scope_at;
use std::test::Fail;

/// A gap of a text, with what is in scope there.
#[derive(Clone, Copy, Debug)]
struct Case {
    text: &'static [u8],
    gap: usize,
    vars: &'static [usize],
}

macro_rules! cases {
    ($($text:expr, $gap:expr => $vars:expr;)*) => {
        [$(Case { text: $text, gap: $gap, vars: &$vars }),*]
    };
}

/// A function without variables of its own between two globals.
const BETWEEN: &[u8] = b"int a; void f(void) { } int b; int main(void) { return 0; }";

/// Blocks in each other, and the declaration of a body without braces.
const BLOCKS: &[u8] =
    b"int f(int a) { { int b; } if (a) int c = 1; else { int d; } return a; } int main(void) { return 0; }";

const CASES: [Case; 29] = cases![
    FORS, 0 => [];
    FORS, 1 => [0];
    FORS, 2 => [0, 1];
    FORS, 3 => [0, 1, 2];
    FORS, 4 => [0, 1, 2];
    FORS, 7 => [0, 1, 2];
    FORS, 8 => [0, 1];
    FORS, 22 => [0, 1];
    RETURNS, 1 => [];
    RETURNS, 2 => [1];
    RETURNS, 6 => [1];
    RETURNS, 7 => [];
    RETURNS, 10 => [4];
    RETURNS, 17 => [4, 5];
    GLOBALS, 0 => [0, 1, 2];
    GLOBALS, 5 => [0, 1];
    GLOBALS, 6 => [0, 1, 3];
    GLOBALS, 8 => [0, 1, 4];
    CHAIN, 2 => [0, 1];
    CHAIN, 22 => [0, 1, 2];
    BETWEEN, 0 => [0];
    BETWEEN, 1 => [0, 1];
    BLOCKS, 1 => [0];
    BLOCKS, 2 => [0, 1];
    BLOCKS, 3 => [0];
    BLOCKS, 5 => [0, 2];
    BLOCKS, 7 => [0, 3];
    BLOCKS, 8 => [0];
    BLOCKS, 10 => [];
];

#[test]
fn scope_ends_with_its_block(rt: HostRuntime) -> Result<(), Fail> {
    for case in &CASES {
        let program = program_of(&rt, case.text)??;
        assert_eq!(rt;
            scope_at(rt.alloc(), &program, case.gap)?.as_slice(),
            case.vars
        );
    }
    Ok(())
}

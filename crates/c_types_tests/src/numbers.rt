// The variables, gaps and calls of worked programs.
use crate::programs::{
    CHAIN, CHAIN_VARIABLES, FORS, FORS_VARIABLES, GLOBALS, GLOBALS_VARIABLES, RETURNS,
    RETURNS_VARIABLES, Variable,
};
use crate::refusals::program_of;
use c_tree::VarDef;
use std::test::Fail;

/// How many variables, gaps and calls a text has, where its variables are these.
fn counts(
    rt: &impl Alloc<A = std::alloc::Global>,
    text: &[u8],
    variables: &[Variable],
) -> Result<(usize, usize, usize), Fail> {
    let program = program_of(rt, text)??;
    let found = program.vars.as_slice();
    let same = found
        .iter()
        .zip(variables)
        .filter(|(v, w)| is_alike(v, w))
        .count();
    Ok((same, program.gaps, program.calls))
}

fn is_alike(found: &VarDef, expected: &Variable) -> bool {
    found.name.as_slice() == expected.name
        && found.ty == expected.ty
        && found.home == expected.home
        && found.at == expected.at
}

#[test]
fn numbers_are_those_of_the_places_in_the_text(rt: HostRuntime) -> Result<(), Fail> {
    assert_eq!(rt; counts(&rt, FORS, &FORS_VARIABLES)?, (4, 23, 0));
    assert_eq!(rt; counts(&rt, RETURNS, &RETURNS_VARIABLES)?, (7, 18, 4));
    assert_eq!(rt; counts(&rt, GLOBALS, &GLOBALS_VARIABLES)?, (6, 16, 1));
    assert_eq!(rt; counts(&rt, CHAIN, &CHAIN_VARIABLES)?, (4, 23, 0));
    Ok(())
}

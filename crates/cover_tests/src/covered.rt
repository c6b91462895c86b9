// Programs with one cover or two, of which the solver finds one whatever the hint. Where no exit is reached no free is needed.
use crate::choices::{Found, solved};
use crate::posed::pose;
use c_tree::Put;
use std::alloc::Global;
use std::test::Fail;
use typestate_fixpoint_tests::programs;

/// A program and all its covers.
#[derive(Clone, Copy, Debug)]
struct Covered {
    text: &'static [u8],
    covers: &'static [&'static [Put]],
}

macro_rules! covered {
    ($($text:expr, [$([$(($gap:expr, $var:expr, $field:expr)),*]),*];)*) => {
        [$(Covered {
            text: $text,
            covers: &[$(&[$(Put { gap: $gap, var: $var, field: $field }),*]),*],
        }),*]
    };
}

const COVERED: [Covered; 9] = covered![
    programs::BRANCH, [[(6, 0, None)]];
    programs::TWO_FREES, [[(5, 0, None)]];
    programs::FREE_BEFORE_A_READ, [[(7, 1, None)]];
    programs::TWO_LEAKS, [[(7, 0, None), (12, 0, None), (12, 1, None)]];
    programs::NEW_IN_EACH_TURN, [[(8, 1, None)]];
    programs::BUFFER, [[(6, 1, None), (20, 4, Some(1)), (20, 4, None)]];
    programs::UNSET_ELSEWHERE, [[(8, 1, None)]];
    programs::ENDLESS, [[], [(1, 0, None)]];
    programs::TWO_NAMES, [[(7, 0, None)], [(7, 1, None)]];
];

fn finds_a_cover(alloc: Global, covered: &Covered, hint: bool) -> Result<bool, Fail> {
    let found = pose(alloc, covered.text)?;
    match solved(alloc, &found.problem, hint)? {
        Found::Nothing(_, _) => Ok(false),
        Found::Puts(choice) => {
            let puts = choice.puts.as_slice();
            Ok(covered.covers.iter().any(|cover| *cover == puts))
        }
    }
}

#[test]
fn one_of_the_covers_is_found(rt: HostRuntime) -> Result<(), Fail> {
    for (place, covered) in COVERED.iter().enumerate() {
        assert!(rt;
            finds_a_cover(rt.alloc(), covered, false)?,
            "of place {place}"
        );
        assert!(rt;
            finds_a_cover(rt.alloc(), covered, true)?,
            "of place {place}"
        );
    }
    Ok(())
}

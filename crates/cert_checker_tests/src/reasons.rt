// For each condition a certificate that one change breaks, by the node and the condition. Certificates are those of covers of
// two programs.
use crate::certificates::{Line, told, told_with};
use crate::changes::{Change, changed};
use crate::covers::{Certified, certify, check_for};
use cert_checker::CheckRefusal;
use std::alloc::Global;
use std::test::Fail;
use typestate_fixpoint_tests::programs;

/// A struct with a field that holds an object: expression 0 is `x` and 1 is `x->a`. Both are freed at node 16, `x->a` first.
const FIELD: &[u8] =
    b"struct s { int *a; }; int main(void) { struct s *x = malloc(sizeof(struct s)); if (x == NULL) { return 1; } x->a = malloc(sizeof(int)); if (x->a == NULL) { return 1; } *x->a = 7; return 0; }";

/// The leak behind a null test is freed at node 11, its marks are those of nodes 2, 3, 7 to 12 and 16.
const LEAK: &[u8] = programs::BRANCH;

const UNDECIDED: Line = Line {
    node: 11,
    site: 0,
    holds: &[],
    lacks: &[],
    freed: false,
};

const BOTH: Line = Line {
    node: 11,
    site: 0,
    holds: &[0],
    lacks: &[0],
    freed: false,
};

const FREED_BASE: Line = Line {
    node: 16,
    site: 0,
    holds: &[0],
    lacks: &[1],
    freed: true,
};

/// A text, a change of its certificate, and the node and the condition by which that is refused.
#[derive(Clone, Copy, Debug)]
struct Broken {
    text: &'static [u8],
    change: Change,
    node: usize,
    reason: u16,
}

macro_rules! broken {
    ($($text:expr, $change:expr, $node:expr, $reason:expr;)*) => {
        [$(Broken { text: $text, change: $change, node: $node, reason: $reason }),*]
    };
}

const BROKEN: [Broken; 18] = broken![
    LEAK, Change::Facts(17, 3, &[0, 1]), 0, 1;
    LEAK, Change::Held(9, 18, true), 0, 1;
    LEAK, Change::Held(0, 3, false), 0, 1;
    LEAK, Change::Held(0, 2, false), 0, 1;
    LEAK, Change::With(6, 2, UNDECIDED), 0, 1;
    LEAK, Change::With(6, 1, BOTH), 0, 1;
    LEAK, Change::NoFlow(0), 1, 2;
    LEAK, Change::Facts(0, 2, &[0]), 0, 3;
    LEAK, Change::Facts(7, 2, &[]), 7, 3;
    LEAK, Change::Without(0), 1, 4;
    LEAK, Change::Held(4, 8, true), 8, 5;
    LEAK, Change::With(6, 1, UNDECIDED), 11, 6;
    FIELD, Change::With(15, 2, FREED_BASE), 16, 7;
    LEAK, Change::Held(7, 11, true), 11, 8;
    LEAK, Change::Without(7), 11, 9;
    LEAK, Change::Without(2), 3, 9;
    LEAK, Change::Held(3, 7, true), 7, 9;
    LEAK, Change::Held(8, 16, false), 16, 10;
];

/// Whether the certificate of the text is closed, and the changed one is refused so.
fn breaks(alloc: Global, broken: &Broken) -> Result<bool, Fail> {
    let Some(whole) = certify(alloc, broken.text)? else {
        return Ok(false);
    };
    let before = whole.check(alloc);
    let Certified { graph, names, cert } = whole;
    let cert = changed(alloc, cert, broken.change)?;
    let after = Certified { graph, names, cert }.check(alloc);
    let refused = Err(CheckRefusal::NotClosed(broken.node, broken.reason));
    Ok(before == Ok(()) && after == refused)
}

#[test]
fn one_change_breaks_each_condition(rt: HostRuntime) -> Result<(), Fail> {
    for (place, broken) in BROKEN.iter().enumerate() {
        assert!(rt; breaks(rt.alloc(), broken)?, "of place {place}");
    }
    Ok(())
}

/// The leak with its free before the print. The certificate with these marks is closed but for the print, which reads what is
/// freed.
const READ_BEHIND: &[u8] =
    b"int main(void) { int *p = malloc(sizeof(int)); if (p == NULL) { return 1; } *p = 7; free(p); printf(\"%d\\n\", *p); return 0; }";

const MARKS_BEHIND: [(usize, bool); 9] = [
    (2, false),
    (3, false),
    (7, false),
    (8, false),
    (9, false),
    (10, true),
    (11, true),
    (12, true),
    (16, true),
];

/// The leak with its free, and another at node 13, which no run reaches.
const FREED_BEHIND: &[u8] =
    b"int main(void) { int *p = malloc(sizeof(int)); if (p == NULL) { return 1; } *p = 7; printf(\"%d\\n\", *p);  free(p); return 0; free(p); }";

/// The field's text with the frees of its cover, at node 16 in the wrong order.
const BASE_FIRST: &[u8] =
    b"struct s { int *a; }; int main(void) { struct s *x = malloc(sizeof(struct s)); if (x == NULL) { return 1; } x->a = malloc(sizeof(int)); if (x->a == NULL) { free(x); return 1; } *x->a = 7; free(x); free(x->a); return 0; }";

fn breaks_touches_alone(alloc: Global) -> Result<bool, Fail> {
    let cert = told_with(alloc, &MARKS_BEHIND)?;
    let found = check_for(alloc, READ_BEHIND, cert)?;
    Ok(found == Err(CheckRefusal::NotClosed(10, 5)))
}

fn breaks_frees_alone(alloc: Global) -> Result<bool, Fail> {
    let before = check_for(alloc, FREED_BEHIND, told(alloc)?)?;
    let cert = changed(alloc, told(alloc)?, Change::Facts(13, 2, &[]))?;
    let after = check_for(alloc, FREED_BEHIND, cert)?;
    Ok(before == Ok(()) && after == Err(CheckRefusal::NotClosed(13, 6)))
}

fn breaks_bases_alone(alloc: Global) -> Result<bool, Fail> {
    let Some(whole) = certify(alloc, FIELD)? else {
        return Ok(false);
    };
    let found = check_for(alloc, BASE_FIRST, whole.cert)?;
    Ok(found == Err(CheckRefusal::NotClosed(16, 7)))
}

/// In the table above the changes that break conditions 5, 6 and 7 break a later one too. These break none but theirs.
#[test]
fn conditions_five_to_seven_break_alone(rt: HostRuntime) -> Result<(), Fail> {
    let alloc = rt.alloc();
    assert!(rt; breaks_touches_alone(alloc)?);
    assert!(rt; breaks_frees_alone(alloc)?);
    assert!(rt; breaks_bases_alone(alloc)?);
    Ok(())
}

// Problems, each with logs that refute it, and with others. A variable is a number from 1 on, and a number below 0 its
// negation.

/// Clauses over so many variables, a log, and whether it refutes them; None where they have another variable.
#[derive(Clone, Copy, Debug)]
pub struct Case {
    pub vars: usize,
    pub clauses: &'static [&'static [i32]],
    pub log: &'static [&'static [i32]],
    pub answer: Option<bool>,
}

macro_rules! cases {
    ($($vars:expr, $clauses:expr, $log:expr => $answer:expr),* $(,)?) => {
        [$(Case { vars: $vars, clauses: $clauses, log: $log, answer: $answer }),*]
    };
}

/// All clauses of two literals over two variables.
const TWO: &[&[i32]] = &[&[1, 2], &[1, -2], &[-1, 2], &[-1, -2]];

/// All clauses of three literals over three variables.
const THREE: &[&[i32]] = &[
    &[1, 2, 3],
    &[1, 2, -3],
    &[1, -2, 3],
    &[1, -2, -3],
    &[-1, 2, 3],
    &[-1, 2, -3],
    &[-1, -2, 3],
    &[-1, -2, -3],
];

/// Three things in two places, of which the first has the variables 1 and 2, and so on.
const THINGS: &[&[i32]] = &[
    &[1, 2],
    &[3, 4],
    &[5, 6],
    &[-1, -3],
    &[-1, -5],
    &[-3, -5],
    &[-2, -4],
    &[-2, -6],
    &[-4, -6],
];

/// Literals that are repeated, and one beside its opposite.
const ODD: &[&[i32]] = &[&[1, 1], &[2, -2], &[-1, -1, -1]];

/// Logs as they are right, and other ones.
pub const LOGS: [Case; 19] = cases![
    2, TWO, &[&[1], &[]] => Some(true),
    2, TWO, &[&[-2, -2], &[]] => Some(true),
    2, TWO, &[&[2, -2], &[1], &[]] => Some(true),
    2, TWO, &[] => Some(false),
    2, TWO, &[&[1], &[-1]] => Some(false),
    2, TWO, &[&[], &[]] => Some(false),
    2, TWO, &[&[1, 2], &[]] => Some(false),
    2, TWO, &[&[3, -3], &[1], &[]] => Some(false),
    3, TWO, &[&[3, -3], &[1], &[]] => Some(true),
    1, TWO, &[&[1], &[]] => None,
    6, THINGS, &[&[-1], &[]] => Some(true),
    6, THINGS, &[&[]] => Some(false),
    2, ODD, &[&[]] => Some(true),
    2, &[&[1, 2]], &[&[1, 2], &[]] => Some(false),
    2, &[&[1, 2]], &[&[1], &[]] => Some(false),
    0, &[], &[&[]] => Some(false),
    0, &[], &[] => Some(false),
    0, &[&[]], &[&[]] => Some(true),
    0, &[&[]], &[] => Some(false),
];

/// A log, what comes of it when a clause is left out, a literal turned or two clauses swapped, and last a swap that
/// doesn't matter.
pub const TAMPERED: [Case; 12] = cases![
    3, THREE, &[&[1, 2], &[1], &[-1, 2], &[]] => Some(true),
    3, THREE, &[&[1], &[-1, 2], &[]] => Some(false),
    3, THREE, &[&[1, 2], &[-1, 2], &[]] => Some(false),
    3, THREE, &[&[1, 2], &[1], &[]] => Some(false),
    3, THREE, &[&[1, 2], &[1], &[-1, 2]] => Some(false),
    3, THREE, &[&[-1, 2], &[1], &[-1, 2], &[]] => Some(false),
    3, THREE, &[&[1, 2], &[-1], &[-1, 2], &[]] => Some(false),
    3, THREE, &[&[1, 2], &[1], &[1, 2], &[]] => Some(false),
    3, THREE, &[&[1], &[1, 2], &[-1, 2], &[]] => Some(false),
    3, THREE, &[&[-1, 2], &[1], &[1, 2], &[]] => Some(false),
    3, THREE, &[&[1, 2], &[1], &[], &[-1, 2]] => Some(false),
    3, THREE, &[&[1, 2], &[-1, 2], &[1], &[]] => Some(true),
];

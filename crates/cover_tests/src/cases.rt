// Programs and their cover problems, worked out apart from the code.
use typestate_fixpoint_tests::programs;

/// A program, the allowed puts, the triples at exits (site, node, candidates), the puts that have a variable, the clauses (a
/// number with a line before it is a negation), the least triple that no put can free, and whether there is a cover.
#[derive(Clone, Copy, Debug)]
pub struct Case {
    pub text: &'static [u8],
    pub allowed: &'static str,
    pub exits: &'static [&'static str],
    pub usable: &'static str,
    pub clauses: &'static [&'static str],
    pub alone: Option<(usize, usize)>,
    pub has_cover: bool,
}

const BRANCH: Case = Case {
    text: programs::BRANCH,
    allowed: "0 1 2 3 4 5 6",
    exits: &["0 16 [5]"],
    usable: "5",
    clauses: &["0"],
    alone: None,
    has_cover: true,
};

const BREAK_AND_CONTINUE: Case = Case {
    text: programs::BREAK_AND_CONTINUE,
    allowed: "0 1 2 3 4 5 6 7 8 9 10 11 12 13 14 15 16 17 18 19 20 21 22 23 24 25 26 27 28",
    exits: &["0 34 [23]", "0 34 [26 27]"],
    usable: "23 26 27",
    clauses: &["0", "1 2", "-1 -2"],
    alone: None,
    has_cover: true,
};

const FOR_FORMS: Case = Case {
    text: programs::FOR_FORMS,
    allowed: "",
    exits: &[],
    usable: "",
    clauses: &[],
    alone: None,
    has_cover: true,
};

const CONDITIONS: Case = Case {
    text: programs::CONDITIONS,
    allowed: "0 1 2 3 4 5 6 7 8 9 10 11 12 13 14 15 16",
    exits: &["0 41 [0 1 2]", "0 42 []"],
    usable: "1 2",
    clauses: &["", "0 1", "-0 -1"],
    alone: Some((0, 42)),
    has_cover: false,
};

const CALLS_IN_TWO_CONTEXTS: Case = Case {
    text: programs::CALLS_IN_TWO_CONTEXTS,
    allowed: "0 1 2 3 4 5 6 7 8 9 10 11 13 15 16 17 19 20 21 22 23 24 25 26 27 28 29 30 31 32",
    exits: &["0 57 [17 19 21]", "0 58 [27 29]", "1 58 [28 30]"],
    usable: "21 27 28 29 30",
    clauses: &["0", "1 3", "2 4", "-1 -3", "-2 -4"],
    alone: None,
    has_cover: true,
};

const RETURN_OF_A_CALL: Case = Case {
    text: programs::RETURN_OF_A_CALL,
    allowed: "0 1 2 3 4 5 6",
    exits: &["0 44 [5]"],
    usable: "5",
    clauses: &["0"],
    alone: None,
    has_cover: true,
};

const FIELDS_AND_ALIASES: Case = Case {
    text: programs::FIELDS_AND_ALIASES,
    allowed: "2 7 8 13 14 15 20 21 22 23 24 25 26 27 28 29 34 35 36 37 41 42 43 44 45 48 49 50 51 52 55 56 57 58 59 62 63 64 65 66 67 68 69 70 71 72 73 76 77 78 79 80 83 84 85 86 87 88 90 91 92 93 94 95 97 98 99 100 101 102 104 105 106 107 108 109 111 112 113 114 115 116 118 119 120 121 122 123 125 126 127 128 129 130 132 133 134 135 136 137 138 139 140 141",
    exits: &[
        "0 42 [55 56 62 63]",
        "0 43 [132 133]",
        "1 41 [15 22]",
        "1 43 [121 122 123 124 129 131]",
    ],
    usable: "22 62 63 121 122 123 129 132 133",
    clauses: &[
        "0", "1 2", "3 4 5 6", "7 8", "-1 -2", "-3 -4", "-3 -5", "-3 -6", "-4 -5", "-4 -6",
        "-5 -6", "-7 -8",
    ],
    alone: None,
    has_cover: true,
};

const AN_UNREACHED_FUNCTION: Case = Case {
    text: programs::AN_UNREACHED_FUNCTION,
    allowed: "0 1 2 3 4 5 6 7 8 9 10 11 12 13 14 15 16 17 18 19 20 21 22 23 24 25 26",
    exits: &["0 27 [1 7 9 22 24]", "0 27 [23 24]"],
    usable: "23 24",
    clauses: &["0 1", "1", "-0 -1"],
    alone: None,
    has_cover: true,
};

const ELSE_IF: Case = Case {
    text: programs::ELSE_IF,
    allowed: "0 1 2 3 4 5 6 7 8 9 10 11 12 13 14 15 16 17 18 19 20 21 22 23",
    exits: &[
        "0 47 [22]",
        "0 47 [17 18 21 22]",
        "0 47 [19 20 21 22]",
        "1 47 [22]",
        "1 47 [17 18 21 22]",
        "1 47 [19 20 21 22]",
    ],
    usable: "17 18 19 20 21 22",
    clauses: &[
        "0 1 4 5", "2 3 4 5", "5", "-0 -1", "-0 -4", "-0 -5", "-1 -4", "-1 -5", "-2 -3", "-2 -4",
        "-2 -5", "-3 -4", "-3 -5", "-4 -5",
    ],
    alone: None,
    has_cover: true,
};

const OWN_FREES_AND_BLOCKS: Case = Case {
    text: programs::OWN_FREES_AND_BLOCKS,
    allowed: "0 1 3 5 6 7 9 11 13 14 16 17 19 20 21 22 23 24 25 26 27 28 29 30 31 32 33 34",
    exits: &[
        "0 31 [14 16 17 19 21]",
        "0 32 [27 29 31]",
        "1 32 [28 30 32]",
    ],
    usable: "21 27 28 29 30 31 32",
    clauses: &[
        "0", "1 3 5", "2 4 6", "-1 -3", "-1 -5", "-2 -4", "-2 -6", "-3 -5", "-4 -6",
    ],
    alone: None,
    has_cover: true,
};

const STRUCT_CHAIN: Case = Case {
    text: programs::STRUCT_CHAIN,
    allowed: "1 4 9 15 18 19 20 21 22 23 27 33 36 39 42 45 46 48 51 52 54 55 56 57 58 59 60 63 64 66 69 70 72 73 75 76 78 79 81 82 83 84 85 87 88 89 90 91 93 94 95 96 97 99 100 101 102 103 105 106 107 108 109 111 112 113 114 115 117 118 119 120 121 122 123 124 125",
    exits: &["0 43 [39 45 51]", "0 44 []", "1 44 []"],
    usable: "51",
    clauses: &["", "0"],
    alone: Some((0, 44)),
    has_cover: false,
};

const LIST: Case = Case {
    text: programs::LIST,
    allowed: "1 4 8 12 17 19 23 25 26 27 28 29 30 31 35 37 41 43 46 47 49 50 52 53 55 56 58 59 61 64 68 69 72 73 76 77 80 81 84 85 86 87 88 89",
    exits: &[
        "0 37 [10 14 20 46 47 50 52 56 58]",
        "0 37 [10 14 32 38 44 46 47 50 52 56 58]",
        "0 37 [12 17 23 53 55 59 61]",
        "0 38 []",
        "0 38 [78 82]",
        "0 38 [70 74 78 82]",
        "0 38 [80 84]",
        "0 38 [72 76 80 84]",
        "0 38 [10 14 32 38 44 46 47 50 52 56 58]",
    ],
    usable: "23 84",
    clauses: &["", "0", "1"],
    alone: Some((0, 37)),
    has_cover: false,
};

const WRAPPER: Case = Case {
    text: programs::WRAPPER,
    allowed: "0 1 2 3 5 7 8 9 11 12 13 14 15 16 17 18 19 20 21 22 23 24 25 26 27 28 29 30",
    exits: &["0 43 [0 1 15]", "0 44 [27]", "1 44 [0 1 28]"],
    usable: "15 27 28",
    clauses: &["0", "1", "2"],
    alone: None,
    has_cover: true,
};

const NO_CHOICE: Case = Case {
    text: programs::NO_CHOICE,
    allowed: "0 1 2 3 4 5 6 7 8 9",
    exits: &["0 29 [0]", "0 30 [2 5 8]", "0 30 [0 7 8]"],
    usable: "0 7 8",
    clauses: &["0", "0 1 2", "2", "-0 -1", "-0 -2", "-1 -2"],
    alone: None,
    has_cover: false,
};

const SWAP_AND_COMPARE: Case = Case {
    text: programs::SWAP_AND_COMPARE,
    allowed: "0 1 2 3 4 6 7 9 10 11 12 13 15 16 18 19 21 22 24 25 26 27 28 29 30 31 32 33 34 36 37 39 40 42 43 45 46 47",
    exits: &[
        "0 34 [6]",
        "0 35 [39 42]",
        "0 35 [40 41 43 44]",
        "1 34 [2 4 7]",
        "1 35 [39 42]",
        "1 35 [40 43]",
    ],
    usable: "6 7 39 40 42 43",
    clauses: &["0", "1", "2 4", "3 5", "-2 -4", "-3 -5"],
    alone: None,
    has_cover: true,
};

const CLOSING_BRACE: Case = Case {
    text: programs::CLOSING_BRACE,
    allowed: "",
    exits: &[],
    usable: "",
    clauses: &[],
    alone: None,
    has_cover: true,
};

const FAULTS: Case = Case {
    text: programs::FAULTS,
    allowed: "0 1 2 3 4 5 6 7 8 9 10 11 12 13 14 15 16 17 18 19 20 21 22 23 24 25 26 27 28 29 30 31 32 34 35",
    exits: &[
        "0 64 []",
        "0 65 [0 1 2 5 6]",
        "0 66 [0 1 2 5 9 12 15 18 19]",
        "0 66 [11 12 15 18 19]",
        "0 66 [0 1 2 5 9 12 13 14 15 18 19]",
        "0 66 [11 12 13 14 15 18 19]",
        "0 66 [0 1 2 5 9 12 15 16 17 18 19]",
        "0 66 [11 12 15 16 17 18 19]",
        "0 66 [0 1 2 5 9 12 13 14 15 16 17 18 19]",
        "0 66 [11 12 13 14 15 16 17 18 19]",
        "0 67 []",
        "0 68 [0 1 2 5 9 12 15 18 21 24 26 27 28]",
        "0 68 [11 12 15 18 21 24 26 27 28]",
        "0 68 [0 1 2 5 9 12 13 14 15 18 21 24 26 27 28]",
        "0 68 [11 12 13 14 15 18 21 24 26 27 28]",
        "0 68 [0 1 2 5 9 12 15 16 17 18 21 24 26 27 28]",
        "0 68 [11 12 15 16 17 18 21 24 26 27 28]",
        "0 68 [0 1 2 5 9 12 13 14 15 16 17 18 21 24 26 27 28]",
        "0 68 [11 12 13 14 15 16 17 18 21 24 26 27 28]",
        "0 68 [0 1 2 5 9 12 15 18 21 24 25 26 27 28]",
        "0 68 [11 12 15 18 21 24 25 26 27 28]",
        "0 68 [0 1 2 5 9 12 13 14 15 18 21 24 25 26 27 28]",
        "0 68 [11 12 13 14 15 18 21 24 25 26 27 28]",
        "0 68 [0 1 2 5 9 12 15 16 17 18 21 24 25 26 27 28]",
        "0 68 [11 12 15 16 17 18 21 24 25 26 27 28]",
        "0 68 [0 1 2 5 9 12 13 14 15 16 17 18 21 24 25 26 27 28]",
        "0 68 [11 12 13 14 15 16 17 18 21 24 25 26 27 28]",
        "0 69 [0 1 2 5 9 12 15 18 21 24 26 30 34]",
        "0 69 [11 12 15 18 21 24 26 30 34]",
        "0 69 [0 1 2 5 9 12 13 14 15 18 21 24 26 30 34]",
        "0 69 [11 12 13 14 15 18 21 24 26 30 34]",
        "0 69 [0 1 2 5 9 12 15 16 17 18 21 24 26 30 34]",
        "0 69 [11 12 15 16 17 18 21 24 26 30 34]",
        "0 69 [0 1 2 5 9 12 13 14 15 16 17 18 21 24 26 30 34]",
        "0 69 [11 12 13 14 15 16 17 18 21 24 26 30 34]",
        "0 69 [0 1 2 5 9 12 15 18 21 24 25 26 30 34]",
        "0 69 [11 12 15 18 21 24 25 26 30 34]",
        "0 69 [0 1 2 5 9 12 13 14 15 18 21 24 25 26 30 34]",
        "0 69 [11 12 13 14 15 18 21 24 25 26 30 34]",
        "0 69 [0 1 2 5 9 12 15 16 17 18 21 24 25 26 30 34]",
        "0 69 [11 12 15 16 17 18 21 24 25 26 30 34]",
        "0 69 [0 1 2 5 9 12 13 14 15 16 17 18 21 24 25 26 30 34]",
        "0 69 [11 12 13 14 15 16 17 18 21 24 25 26 30 34]",
        "0 69 [0 1 2 5 9 12 15 18 21 24 26 30 31 32 34]",
        "0 69 [11 12 15 18 21 24 26 30 31 32 34]",
        "0 69 [0 1 2 5 9 12 13 14 15 18 21 24 26 30 31 32 34]",
        "0 69 [11 12 13 14 15 18 21 24 26 30 31 32 34]",
        "0 69 [0 1 2 5 9 12 15 16 17 18 21 24 26 30 31 32 34]",
        "0 69 [11 12 15 16 17 18 21 24 26 30 31 32 34]",
        "0 69 [0 1 2 5 9 12 13 14 15 16 17 18 21 24 26 30 31 32 34]",
        "0 69 [11 12 13 14 15 16 17 18 21 24 26 30 31 32 34]",
        "0 69 [0 1 2 5 9 12 15 18 21 24 25 26 30 31 32 34]",
        "0 69 [11 12 15 18 21 24 25 26 30 31 32 34]",
        "0 69 [0 1 2 5 9 12 13 14 15 18 21 24 25 26 30 31 32 34]",
        "0 69 [11 12 13 14 15 18 21 24 25 26 30 31 32 34]",
        "0 69 [0 1 2 5 9 12 15 16 17 18 21 24 25 26 30 31 32 34]",
        "0 69 [11 12 15 16 17 18 21 24 25 26 30 31 32 34]",
        "0 69 [0 1 2 5 9 12 13 14 15 16 17 18 21 24 25 26 30 31 32 34]",
        "0 69 [11 12 13 14 15 16 17 18 21 24 25 26 30 31 32 34]",
    ],
    usable: "6 19 24 25 26 27 28 30 31 32 34",
    clauses: &[
        "",
        "0",
        "1",
        "2 3 4 5 6",
        "2 3 4 7 10",
        "2 3 4 7 8 9 10",
        "2 4 5 6",
        "2 4 7 10",
        "2 4 7 8 9 10",
        "-2 -10",
        "-2 -3",
        "-2 -4",
        "-2 -5",
        "-2 -6",
        "-2 -7",
        "-2 -8",
        "-2 -9",
        "-3 -10",
        "-3 -4",
        "-3 -5",
        "-3 -6",
        "-3 -7",
        "-3 -8",
        "-3 -9",
        "-4 -10",
        "-4 -5",
        "-4 -6",
        "-4 -7",
        "-4 -8",
        "-4 -9",
        "-5 -6",
        "-7 -10",
        "-7 -8",
        "-7 -9",
        "-8 -10",
        "-8 -9",
        "-9 -10",
    ],
    alone: Some((0, 64)),
    has_cover: false,
};

/// Tests, loops and ways that leave them.
pub const BRANCHES: &[Case] = &[
    BRANCH,
    BREAK_AND_CONTINUE,
    FOR_FORMS,
    CONDITIONS,
    ELSE_IF,
    FAULTS,
];

/// Functions that are called, once, twice and never.
pub const CALLS: &[Case] = &[
    CALLS_IN_TWO_CONTEXTS,
    RETURN_OF_A_CALL,
    AN_UNREACHED_FUNCTION,
    WRAPPER,
    CLOSING_BRACE,
];

/// Objects with fields, with frees of their own, without any choice, and with two names.
pub const OBJECTS: &[Case] = &[
    FIELDS_AND_ALIASES,
    OWN_FREES_AND_BLOCKS,
    STRUCT_CHAIN,
    LIST,
    NO_CHOICE,
    SWAP_AND_COMPARE,
];

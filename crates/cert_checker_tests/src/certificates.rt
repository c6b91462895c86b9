// A certificate as a value: that of a leak behind a null test, for the text with its free.
use cover_certificate::{Cert, CertMark};
use mf_list::{Memory, Seq};
use mf_set::BitSet;
use std::alloc::Global;
use ts_domain::{Mark, May, Path};

/// The text with its free.
pub const FREED: &[u8] =
    b"int main(void) { int *p = malloc(sizeof(int)); if (p == NULL) { return 1; } *p = 7; printf(\"%d\\n\", *p);  free(p); return 0; }";

/// The facts by node: 0 is that `p` is set, 1 that it holds an object.
const FACTS: [&[usize]; 18] = [
    &[],
    &[],
    &[0],
    &[0],
    &[0],
    &[0],
    &[0, 1],
    &[0, 1],
    &[0, 1],
    &[0, 1],
    &[0, 1],
    &[0, 1],
    &[0, 1],
    &[0, 1],
    &[0, 1],
    &[0],
    &[0, 1],
    &[0, 1],
];

/// A mark of a certificate. Of a number of expressions those in neither list are undecided.
#[derive(Clone, Copy, Debug)]
pub struct Line {
    pub node: usize,
    pub site: usize,
    pub holds: &'static [usize],
    pub lacks: &'static [usize],
    pub freed: bool,
}

/// A mark of the one site that `p` holds.
pub fn held(node: usize, freed: bool) -> Line {
    Line {
        node,
        site: 0,
        holds: &[0],
        lacks: &[],
        freed,
    }
}

/// The marks by their nodes and bits.
const MARKS: [(usize, bool); 9] = [
    (2, false),
    (3, false),
    (7, false),
    (8, false),
    (9, false),
    (10, false),
    (11, false),
    (12, true),
    (16, true),
];

/// The numbers of a set of a room, of which those past it are left out.
pub fn set_of(alloc: Global, room: usize, numbers: &[usize]) -> Result<BitSet, Memory> {
    let mut set = BitSet::with_room(alloc, room)?;
    for number in numbers {
        if *number < set.room() {
            set.insert(*number);
        }
    }
    Ok(set)
}

pub fn mark_of(alloc: Global, expressions: usize, line: &Line) -> Result<CertMark, Memory> {
    Ok(CertMark {
        node: line.node,
        mark: Mark {
            site: line.site,
            holds: set_of(alloc, expressions, line.holds)?,
            lacks: set_of(alloc, expressions, line.lacks)?,
        },
        freed: line.freed,
    })
}

fn marks(alloc: Global, lines: &[(usize, bool)]) -> Result<Seq<CertMark>, Memory> {
    let mut list = Seq::new(alloc);
    for (node, freed) in lines {
        list.push(mark_of(alloc, 1, &held(*node, *freed))?)?;
    }
    Ok(list)
}

fn facts(alloc: Global) -> Result<Path, Memory> {
    let mut at = Seq::new(alloc);
    for facts in FACTS {
        at.push(set_of(alloc, 2, facts)?)?;
    }
    Ok(Path { at })
}

/// The one site flows to `p`.
fn flows(alloc: Global) -> Result<May, Memory> {
    let mut vars = Seq::new(alloc);
    vars.push(set_of(alloc, 1, &[0])?)?;
    Ok(May {
        vars,
        fields: Seq::new(alloc),
    })
}

/// That certificate with other marks, by their nodes and bits.
pub fn told_with(alloc: Global, lines: &[(usize, bool)]) -> Result<Cert, Memory> {
    Ok(Cert {
        may: flows(alloc)?,
        path: facts(alloc)?,
        marks: marks(alloc, lines)?,
    })
}

pub fn told(alloc: Global) -> Result<Cert, Memory> {
    told_with(alloc, &MARKS)
}

fn is_same_mark(one: &CertMark, other: &CertMark) -> bool {
    one.node == other.node && one.mark == other.mark && one.freed == other.freed
}

fn are_same_marks(one: &[CertMark], other: &[CertMark]) -> bool {
    one.len() == other.len() && one.iter().zip(other).all(|(x, y)| is_same_mark(x, y))
}

/// Whether two certificates are the same, where no site flows to a field.
pub fn is_same(one: &Cert, other: &Cert) -> bool {
    one.may.vars.as_slice() == other.may.vars.as_slice()
        && one.may.fields.len() == 0
        && other.may.fields.len() == 0
        && one.path.at.as_slice() == other.path.at.as_slice()
        && are_same_marks(one.marks.as_slice(), other.marks.as_slice())
}

// Changes of certificates.
use crate::certificates::{Line, held, mark_of, set_of};
use cover_certificate::{Cert, CertMark};
use mf_list::{Memory, Seq};
use std::alloc::Global;
use ts_domain::{May, Path};

#[derive(Clone, Copy, Debug)]
pub enum Change {
    /// The facts of a node are others, in a set of that room.
    Facts(usize, usize, &'static [usize]),
    /// No site flows to the variable.
    NoFlow(usize),
    /// The mark of that place goes.
    Without(usize),
    /// Before that of that place comes a mark at a node, of the one site that the one expression holds, with that bit.
    Held(usize, usize, bool),
    /// Before that of that place comes a mark over so many expressions.
    With(usize, usize, Line),
}

fn with_facts(
    alloc: Global,
    path: Path,
    node: usize,
    room: usize,
    facts: &[usize],
) -> Result<Path, Memory> {
    let Path { mut at } = path;
    let set = set_of(alloc, room, facts)?;
    if node < at.len() {
        at.set(node, set);
    }
    Ok(Path { at })
}

fn without_flow(may: May, variable: usize) -> May {
    let May { mut vars, fields } = may;
    if variable < vars.len() {
        vars.at_mut(variable).clear();
    }
    May { vars, fields }
}

fn without_mark(marks: Seq<CertMark>, place: usize) -> Seq<CertMark> {
    let mut marks = marks;
    if place < marks.len() {
        marks.remove(place);
    }
    marks
}

fn with_mark(
    alloc: Global,
    marks: Seq<CertMark>,
    place: usize,
    expressions: usize,
    line: &Line,
) -> Result<Seq<CertMark>, Memory> {
    let mut list = marks.into_vec();
    let mark = mark_of(alloc, expressions, line)?;
    if place <= list.len() {
        list.insert(place, mark)?;
    }
    Ok(Seq::from_vec(list))
}

pub fn changed(alloc: Global, cert: Cert, change: Change) -> Result<Cert, Memory> {
    let Cert { may, path, marks } = cert;
    match change {
        Change::Facts(node, room, facts) => {
            let path = with_facts(alloc, path, node, room, facts)?;
            Ok(Cert { may, path, marks })
        }
        Change::NoFlow(variable) => Ok(Cert {
            may: without_flow(may, variable),
            path,
            marks,
        }),
        Change::Without(place) => Ok(Cert {
            may,
            path,
            marks: without_mark(marks, place),
        }),
        Change::Held(place, node, freed) => {
            let marks = with_mark(alloc, marks, place, 1, &held(node, freed))?;
            Ok(Cert { may, path, marks })
        }
        Change::With(place, expressions, line) => {
            let marks = with_mark(alloc, marks, place, expressions, &line)?;
            Ok(Cert { may, path, marks })
        }
    }
}

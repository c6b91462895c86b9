// Whether a condition fails over an edge from a node.
ghost use Rattle.std.specs.Prelude.{◌≡◌, false, not, IfOk};
ghost use Rattle.c_tree.specs.Typing.{has};
ghost use Rattle.ts_domain.specs.declared.marks.Mark.{Mark};
ghost use Rattle.ts_domain.specs.Deeds.{edge_deeds};
ghost use Rattle.ts_domain.specs.Rows.{row as row_at};
ghost use Rattle.path_facts.specs.Numbering.{IsNumbering};
ghost use Rattle.cover_certificate.specs.Closed.{lacks_birth};
ghost use Rattle.cert_checker.specs.Checking.{any_at, edge_fails, mark_fails, matched_by, passes, HasRooms, IsReady};

use crate::checking::{Checking, Question};
use crate::facts::adds_fact;
use crate::flows::add_flow;
use crate::matching::is_matched;
use crate::posts::mark_fails;
use c_graph::Edge;
use mf_list::Memory;
use path_facts::Numbering;
use std::alloc::Global;
use ts_domain::{Deed, Known, Mark, deeds_born, row};

fn mark_fails_at(
    alloc: Global,
    checking: Checking,
    question: Question,
    names: &[Option<usize>],
    edge: Edge,
    deeds: &[Deed],
    place: usize,
) -> Result<bool, Memory>
    requires { deeds.now ≡ edge_deeds checking.names.now checking.graph.now edge }
    ensures { IfOk result (λ b. b ≡ passes (mark_fails checking.entry question names.now edge) checking.entry.cert.now.marks place) }
{
    match checking.cert.marks.get(place) {
        None => Ok(false),
        Some(mark) => mark_fails(alloc, checking, question, names, edge, deeds, mark),
    }
}

fn marks_fail(
    alloc: Global,
    checking: Checking,
    question: Question,
    names: &[Option<usize>],
    edge: Edge,
    deeds: &[Deed],
    places: &[usize],
) -> Result<bool, Memory>
    requires { deeds.now ≡ edge_deeds checking.names.now checking.graph.now edge }
    ensures { IfOk result (λ b. b ≡ any_at (mark_fails checking.entry question names.now edge) checking.entry.cert.now.marks places.now) }
{
    let mut fails = false;
    for place in places {
        fails |= mark_fails_at(alloc, checking, question, names, edge, deeds, *place)?;
    }
    Ok(fails)
}

/// Whether a mark, if there is one, is matched nowhere at a node.
fn is_lacking(checking: Checking, node: usize, mark: Option<Mark>) -> bool
    ensures { result ≡ has (λ (m : Mark). not (matched_by checking.entry node m false)) mark }
{
    match mark {
        None => false,
        Some(mark) => !is_matched(checking, node, &mark, false),
    }
}

/// Whether the mark of a new object is matched nowhere behind an edge with these deeds.
fn lacks_birth(
    alloc: Global,
    checking: Checking,
    edge: Edge,
    deeds: &[Deed],
) -> Result<bool, Memory>
    requires { deeds.now ≡ edge_deeds checking.names.now checking.graph.now edge }
    ensures { IfOk result (λ b. b ≡ lacks_birth checking.entry.names.now checking.entry.graph.now checking.entry.facts.now (matched_by checking.entry) edge) }
{
    let known = Known {
        names: checking.names,
        graph: checking.graph,
        facts: checking.facts,
        node: edge.from,
    };
    let mark = deeds_born(alloc, known, deeds, edge.way)?;
    Ok(is_lacking(checking, edge.to, mark))
}

/// Whether a condition fails over an edge with these deeds, from a node with marks of these places.
fn edge_fails(
    alloc: Global,
    checking: Checking,
    numbering: &Numbering,
    question: Question,
    names: &[Option<usize>],
    places: &[usize],
    edge: Edge,
    deeds: &[Deed],
) -> Result<bool, Memory>
    requires numbering { IsNumbering checking.names.now numbering.now }
    requires rooms { HasRooms checking.names.now checking.cert.now.path }
    requires deeds { deeds.now ≡ edge_deeds checking.names.now checking.graph.now edge }
    ensures { IfOk result (λ b. b ≡ edge_fails checking.entry question names.now places.now edge) }
{
    match question {
        Question::Flow => {
            let known = Known {
                names: checking.names,
                graph: checking.graph,
                facts: checking.facts,
                node: edge.from,
            };
            Ok(add_flow(known, deeds))
        }
        Question::Fact => {
            let path = &checking.cert.path;
            adds_fact(
                alloc,
                checking.graph,
                checking.names,
                numbering,
                path,
                edge,
                deeds,
            )
        }
        Question::Birth => lacks_birth(alloc, checking, edge, deeds),
        Question::Touch => marks_fail(alloc, checking, question, names, edge, deeds, places),
        Question::Post => marks_fail(alloc, checking, question, names, edge, deeds, places),
    }
}

fn edge_fails_at(
    alloc: Global,
    checking: Checking,
    numbering: &Numbering,
    question: Question,
    names: &[Option<usize>],
    places: &[usize],
    place: usize,
) -> Result<bool, Memory>
    requires ready { IsReady checking }
    requires numbering { IsNumbering checking.names.now numbering.now }
    requires rooms { HasRooms checking.names.now checking.cert.now.path }
    ensures { IfOk result (λ b. b ≡ passes (edge_fails checking.entry question names.now places.now) checking.entry.graph.now.edges place) }
{
    if place >= checking.graph.edges.len() {
        return Ok(false);
    }
    let edge = *checking.graph.edges.at(place);
    let deeds = checking.deeds.at(place).as_slice();
    edge_fails(
        alloc, checking, numbering, question, names, places, edge, deeds,
    )
}

/// Whether a condition fails over some edge from a node, where the frees there free these expressions.
pub fn edges_fail(
    alloc: Global,
    checking: Checking,
    numbering: &Numbering,
    question: Question,
    names: &[Option<usize>],
    node: usize,
) -> Result<bool, Memory>
    requires ready { IsReady checking }
    requires numbering { IsNumbering checking.names.now numbering.now }
    requires rooms { HasRooms checking.names.now checking.cert.now.path }
    ensures { IfOk result (λ b. b ≡ any_at (edge_fails checking.entry question names.now (row_at checking.entry.marks.now node)) checking.entry.graph.now.edges (row_at checking.entry.edges.now node)) }
{
    let places = row(checking.marks.as_slice(), node);
    let mut fails = false;
    for place in row(checking.edges.as_slice(), node) {
        fails |= edge_fails_at(alloc, checking, numbering, question, names, places, *place)?;
    }
    Ok(fails)
}

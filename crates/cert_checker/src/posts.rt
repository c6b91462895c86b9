// Whether an edge touches the object of a mark, and whether its posts are matched.
ghost use Rattle.std.specs.Prelude.{◌≡◌, [], ◌∷◌, false, cond, IfOk};
ghost use Rattle.std.specs.List.{list_any};
ghost use Rattle.ts_domain.specs.Deeds.{edge_deeds};
ghost use Rattle.ts_domain.specs.Marks.{knowledge, step};
ghost use Rattle.ts_domain.specs.Post.{at_edge, deeds_post, first_entry, is_gap, is_wide, leaves_gap};
ghost use Rattle.cover_certificate.specs.Closed.{is_touched, is_unmatched};
ghost use Rattle.cert_checker.specs.Checking.{is_post, is_told, mark_fails, matched_by};

use crate::checking::{Checking, Question};
use crate::frees::freed_behind;
use crate::matching::is_matched;
use c_graph::{Edge, Graph, NodeKind};
use c_tree::Refusal;
use cover_certificate::CertMark;
use mf_list::Memory;
use std::alloc::{AllocError, Global};
use ts_domain::{Deed, Known, Step, deeds_post};

fn is_gap(kind: &NodeKind) -> bool
    ensures { result ≡ is_gap kind.now }
{
    match kind {
        NodeKind::Gap(_, _) => true,
        NodeKind::Act(_) => false,
        NodeKind::Exit(_) => false,
    }
}

fn leaves_gap(graph: &Graph, edge: Edge) -> bool
    ensures { result ≡ leaves_gap graph.now edge }
{
    match graph.nodes.get(edge.from) {
        None => false,
        Some(node) => is_gap(&node.kind),
    }
}

fn are_touched(steps: &[Step]) -> bool
    ensures { result ≡ list_any is_touched steps.now }
{
    steps.iter().any(|step| step.touched)
}

fn are_unmatched(checking: Checking, node: usize, freed: bool, steps: &[Step]) -> bool
    ensures { result ≡ list_any (is_unmatched (matched_by checking.entry) node freed) steps.now }
{
    steps
        .iter()
        .any(|step| !is_matched(checking, node, &step.mark, freed))
}

/// What is asked of the marks behind an edge.
fn is_told(
    checking: Checking,
    question: Question,
    node: usize,
    mark: &CertMark,
    freed: bool,
    steps: &[Step],
) -> bool
    ensures { result ≡ is_told checking.entry question node mark.now freed steps.now }
{
    match question {
        Question::Touch => mark.freed && are_touched(steps),
        Question::Post => are_unmatched(checking, node, freed, steps),
        Question::Flow => false,
        Question::Fact => false,
        Question::Birth => false,
    }
}

fn is_post(question: Question) -> bool
    ensures { result ≡ is_post question }
{
    match question {
        Question::Flow => false,
        Question::Fact => false,
        Question::Birth => false,
        Question::Touch => false,
        Question::Post => true,
    }
}

/// What is said of a mark over an edge from a node that is no gap.
fn deeds_fail(
    alloc: Global,
    checking: Checking,
    question: Question,
    edge: Edge,
    deeds: &[Deed],
    mark: &CertMark,
    freed: bool,
) -> Result<bool, Memory>
    ensures { IfOk result (λ b. b ≡ cond (is_wide (at_edge checking.entry.names.now checking.entry.graph.now checking.entry.facts.now edge) deeds.now 0 (first_entry mark.now.mark ∷ [])) (is_post question) (is_told checking.entry question edge.to mark.now freed (deeds_post (at_edge checking.entry.names.now checking.entry.graph.now checking.entry.facts.now edge) deeds.now mark.now.mark))) }
{
    let known = Known {
        names: checking.names,
        graph: checking.graph,
        facts: checking.facts,
        node: edge.from,
    };
    match deeds_post(alloc, known, deeds, &mark.mark) {
        Ok(steps) => Ok(is_told(checking, question, edge.to, mark, freed, steps.as_slice())),
        Err(Refusal::Limit(_)) => Ok(is_post(question)),
        Err(Refusal::Memory) => Err(AllocError),
    }
}

#[tactic(auto, using(crate::proofs::PostLaws::gap_post, crate::proofs::PostLaws::gap_touch))]
/// What is said of a mark over an edge from a gap, which changes nothing but the bit.
fn gap_fails(
    checking: Checking,
    question: Question,
    edge: Edge,
    mark: &CertMark,
    freed: bool,
) -> bool
    ensures { result ≡ is_told checking.entry question edge.to mark.now freed (step mark.now.mark false ∷ []) }
{
    match question {
        Question::Post => !is_matched(checking, edge.to, &mark.mark, freed),
        Question::Touch => false,
        Question::Flow => false,
        Question::Fact => false,
        Question::Birth => false,
    }
}

/// Whether a condition on a mark fails over an edge with these deeds, where the frees at its first node free these expressions.
pub fn mark_fails(
    alloc: Global,
    checking: Checking,
    question: Question,
    names: &[Option<usize>],
    edge: Edge,
    deeds: &[Deed],
    mark: &CertMark,
) -> Result<bool, Memory>
    requires { deeds.now ≡ edge_deeds checking.names.now checking.graph.now edge }
    ensures { IfOk result (λ b. b ≡ mark_fails checking.entry question names.now edge mark.now) }
{
    let freed = freed_behind(&mark.mark, names, mark.freed);
    if leaves_gap(checking.graph, edge) {
        return Ok(gap_fails(checking, question, edge, mark, freed));
    }
    deeds_fail(alloc, checking, question, edge, deeds, mark, freed)
}

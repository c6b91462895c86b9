// The first condition that fails at a node.
ghost use Rattle.std.specs.Prelude.{◌≡◌, ◌&&◌, ◌==◌, ◌++◌, IfOk};
ghost use Rattle.ts_domain.specs.Cover.{is_exit, is_exit_at};
ghost use Rattle.path_facts.specs.Numbering.{IsNumbering};
ghost use Rattle.cover_certificate.specs.Closed.{is_false_at_start, is_unfreed};
ghost use Rattle.ts_domain.specs.Rows.{row as row_at};
ghost use Rattle.cert_checker.specs.Checking.{any_at, edges_failing, facts_failing, failing_behind, failing_by, failing_in, failing_over, first_failing, reasons, HasRooms, IsReady};

use crate::checking::{Checking, Question};
use crate::edges::edges_fail;
use crate::facts::is_false_at_start;
use crate::frees::{are_unfreed, are_unsure, free_again, frees_at, names_of, read_freed};
use c_graph::{Graph, NodeKind};
use mf_list::Memory;
use path_facts::Numbering;
use std::alloc::Global;
use ts_domain::row;

fn is_exit(kind: &NodeKind) -> bool
    ensures { result ≡ is_exit kind.now }
{
    match kind {
        NodeKind::Gap(_, _) => false,
        NodeKind::Act(_) => false,
        NodeKind::Exit(_) => true,
    }
}

fn is_exit_at(graph: &Graph, node: usize) -> bool
    ensures { result ≡ is_exit_at graph.now node }
{
    match graph.nodes.get(node) {
        None => false,
        Some(node) => is_exit(&node.kind),
    }
}

/// Whether the node is the first, and a fact is noted there that is false of the start.
fn starts_false(
    alloc: Global,
    checking: Checking,
    numbering: &Numbering,
    node: usize,
) -> Result<bool, Memory>
    requires numbering { IsNumbering checking.names.now numbering.now }
    requires rooms { HasRooms checking.names.now checking.cert.now.path }
    ensures { IfOk result (λ b. b ≡ (node == 0 && is_false_at_start checking.entry.names.now checking.entry.cert.now.path)) }
{
    if node != 0 {
        return Ok(false);
    }
    is_false_at_start(alloc, checking.names, numbering, &checking.cert.path)
}

fn facts_fail(
    alloc: Global,
    checking: Checking,
    numbering: &Numbering,
    names: &[Option<usize>],
    node: usize,
) -> Result<bool, Memory>
    requires ready { IsReady checking }
    requires numbering { IsNumbering checking.names.now numbering.now }
    requires rooms { HasRooms checking.names.now checking.cert.now.path }
    ensures { IfOk result (λ b. b ≡ facts_failing checking.entry names.now node) }
{
    if starts_false(alloc, checking, numbering, node)? {
        return Ok(true);
    }
    edges_fail(alloc, checking, numbering, Question::Fact, names, node)
}

fn reached_facts_fail(
    alloc: Global,
    checking: Checking,
    numbering: &Numbering,
    reached: bool,
    names: &[Option<usize>],
    node: usize,
) -> Result<bool, Memory>
    requires ready { IsReady checking }
    requires numbering { IsNumbering checking.names.now numbering.now }
    requires rooms { HasRooms checking.names.now checking.cert.now.path }
    ensures { IfOk result (λ b. b ≡ (reached && facts_failing checking.entry names.now node)) }
{
    if !reached {
        return Ok(false);
    }
    facts_fail(alloc, checking, numbering, names, node)
}

fn reached_births_fail(
    alloc: Global,
    checking: Checking,
    numbering: &Numbering,
    reached: bool,
    names: &[Option<usize>],
    node: usize,
) -> Result<bool, Memory>
    requires ready { IsReady checking }
    requires numbering { IsNumbering checking.names.now numbering.now }
    requires rooms { HasRooms checking.names.now checking.cert.now.path }
    ensures { IfOk result (λ b. b ≡ (reached && edges_failing checking.entry Question.Birth names.now node)) }
{
    if !reached {
        return Ok(false);
    }
    edges_fail(alloc, checking, numbering, Question::Birth, names, node)
}

fn failing_over(
    alloc: Global,
    checking: Checking,
    numbering: &Numbering,
    reached: bool,
    names: &[Option<usize>],
    node: usize,
) -> Result<Option<u16>, Memory>
    requires ready { IsReady checking }
    requires numbering { IsNumbering checking.names.now numbering.now }
    requires rooms { HasRooms checking.names.now checking.cert.now.path }
    ensures { IfOk result (λ r. r ≡ first_failing 2 (failing_over checking.entry reached names.now node)) }
{
    if edges_fail(alloc, checking, numbering, Question::Flow, names, node)? {
        return Ok(Some(2));
    }
    if reached_facts_fail(alloc, checking, numbering, reached, names, node)? {
        return Ok(Some(3));
    }
    if reached_births_fail(alloc, checking, numbering, reached, names, node)? {
        return Ok(Some(4));
    }
    if edges_fail(alloc, checking, numbering, Question::Touch, names, node)? {
        return Ok(Some(5));
    }
    Ok(None)
}

fn failing_in(checking: Checking, names: &[Option<usize>], node: usize) -> Option<u16>
    ensures { result ≡ first_failing 6 (failing_in checking.entry names.now node) }
{
    let places = row(checking.marks.as_slice(), node);
    if are_unsure(checking, node, places, frees_at(checking.graph, node)) {
        return Some(6);
    }
    if read_freed(checking, places, names) {
        return Some(7);
    }
    if free_again(checking, places, names) {
        return Some(8);
    }
    None
}

fn is_unfreed_exit(checking: Checking, node: usize) -> bool
    ensures { result ≡ (is_exit_at checking.entry.graph.now node && any_at is_unfreed checking.entry.cert.now.marks (row_at checking.entry.marks.now node)) }
{
    is_exit_at(checking.graph, node) && are_unfreed(checking, row(checking.marks.as_slice(), node))
}

fn failing_behind(
    alloc: Global,
    checking: Checking,
    numbering: &Numbering,
    names: &[Option<usize>],
    node: usize,
) -> Result<Option<u16>, Memory>
    requires ready { IsReady checking }
    requires numbering { IsNumbering checking.names.now numbering.now }
    requires rooms { HasRooms checking.names.now checking.cert.now.path }
    ensures { IfOk result (λ r. r ≡ first_failing 9 (failing_behind checking.entry names.now node)) }
{
    if edges_fail(alloc, checking, numbering, Question::Post, names, node)? {
        return Ok(Some(9));
    }
    if is_unfreed_exit(checking, node) {
        return Ok(Some(10));
    }
    Ok(None)
}

/// Of the conditions on frees, posts and exits.
fn failing_from(
    alloc: Global,
    checking: Checking,
    numbering: &Numbering,
    names: &[Option<usize>],
    node: usize,
) -> Result<Option<u16>, Memory>
    requires ready { IsReady checking }
    requires numbering { IsNumbering checking.names.now numbering.now }
    requires rooms { HasRooms checking.names.now checking.cert.now.path }
    ensures { IfOk result (λ r. r ≡ first_failing 6 (failing_in checking.entry names.now node ++ failing_behind checking.entry names.now node)) }
{
    match failing_in(checking, names, node) {
        Some(reason) => Ok(Some(reason)),
        None => failing_behind(alloc, checking, numbering, names, node),
    }
}

fn failing_by(
    alloc: Global,
    checking: Checking,
    numbering: &Numbering,
    reached: bool,
    names: &[Option<usize>],
    node: usize,
) -> Result<Option<u16>, Memory>
    requires ready { IsReady checking }
    requires numbering { IsNumbering checking.names.now numbering.now }
    requires rooms { HasRooms checking.names.now checking.cert.now.path }
    ensures { IfOk result (λ r. r ≡ first_failing 2 (failing_by checking.entry reached names.now node)) }
{
    match failing_over(alloc, checking, numbering, reached, names, node)? {
        Some(reason) => Ok(Some(reason)),
        None => failing_from(alloc, checking, numbering, names, node),
    }
}

/// The number of the first condition from the second on that fails at a node, by whether it is reached. A condition is only
/// computed where those before it hold.
pub fn reason_at(
    alloc: Global,
    checking: Checking,
    numbering: &Numbering,
    reached: bool,
    node: usize,
) -> Result<Option<u16>, Memory>
    requires ready { IsReady checking }
    requires numbering { IsNumbering checking.names.now numbering.now }
    requires rooms { HasRooms checking.names.now checking.cert.now.path }
    ensures { IfOk result (λ r. r ≡ first_failing 2 (reasons checking.entry reached node)) }
{
    let names = names_of(alloc, checking.names, frees_at(checking.graph, node))?;
    failing_by(alloc, checking, numbering, reached, names.as_slice(), node)
}

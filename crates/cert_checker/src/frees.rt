// What the frees of a gap do to marks, and what they ask for.
ghost use Rattle.std.specs.Prelude.{◌≡◌, ℕ, [], ◌∷◌, map, not, IfOk};
ghost use Rattle.std.specs.List.{list_all, list_any};
ghost use Rattle.c_tree.specs.Typing.{has};
ghost use Rattle.mf_set.specs.Numbers.{has as has_number};
ghost use Rattle.c_tree.specs.declared.program.Free.{Free};
ghost use Rattle.ts_domain.specs.Path.{holds_at};
ghost use Rattle.cover_certificate.specs.Closed.{freed_behind, frees, frees_again, frees_at, frees_twice, is_readable, is_undecided, is_unfreed, kind_frees, name_of, named, reads_base, reads_freed, reads_when_freed};
ghost use Rattle.cert_checker.specs.Checking.{any_at, is_sure_by, is_unsure_by, passes};

use crate::checking::Checking;
use c_graph::{Graph, NodeKind};
use c_tree::{Expr, Free};
use cover_certificate::CertMark;
use mf_list::{Memory, Seq};
use std::alloc::Global;
use ts_domain::{Fact, Mark, Names, Path, Read, field_at, holds_at, is_null, pointer_of};

fn name_of(read: Read) -> Option<usize>
    ensures { result ≡ name_of read }
{
    match read {
        Read::Name(name) => Some(name),
        Read::Deep(_, _) => None,
    }
}

/// The number of an expression, if it is a variable or a field of a variable.
pub fn named(names: &Names, expr: &Expr) -> Option<usize>
    ensures { result ≡ named names.now expr.now }
{
    match pointer_of(names, expr) {
        None => None,
        Some(pointer) => name_of(pointer.read),
    }
}

fn kind_frees(kind: &NodeKind) -> &[Free]
    ensures { result.now ≡ kind_frees kind.now }
{
    match kind {
        NodeKind::Gap(_, frees) => frees.as_slice(),
        NodeKind::Act(_) => &[],
        NodeKind::Exit(_) => &[],
    }
}

/// The frees at a node.
pub fn frees_at(graph: &Graph, node: usize) -> &[Free]
    ensures { result.now ≡ frees_at graph.now node }
{
    match graph.nodes.get(node) {
        None => &[],
        Some(node) => kind_frees(&node.kind),
    }
}

/// The numbers of what is freed.
pub fn names_of(alloc: Global, names: &Names, frees: &[Free]) -> Result<Seq<Option<usize>>, Memory>
    ensures { IfOk result (λ list. list ≡ map (λ (f : Free). named names.now f.expr) frees.now) }
{
    let mut list = Seq::new(alloc);
    for free in frees {
        list.push(named(names, &free.expr))?;
    }
    Ok(list)
}

fn field_readable(names: &Names, path: &Path, node: usize, variable: usize, place: usize) -> bool
    ensures { result ≡ list_all (holds_at names.now path.now node) (Fact.Ready variable ∷ Fact.Full variable ∷ Fact.Filled place ∷ []) }
{
    holds_at(names, path, node, Fact::Ready(variable))
        && (holds_at(names, path, node, Fact::Full(variable))
            && holds_at(names, path, node, Fact::Filled(place)))
}

fn is_readable(names: &Names, path: &Path, node: usize, name: usize) -> bool
    ensures { result ≡ is_readable names.now path.now node name }
{
    match field_at(names, name) {
        None => holds_at(names, path, node, Fact::Ready(name)),
        Some((variable, _)) => {
            field_readable(names, path, node, variable, name - names.vars.len())
        }
    }
}

fn frees(mark: &Mark, name: Option<usize>) -> bool
    ensures { result ≡ frees mark.now name }
{
    match name {
        None => false,
        Some(name) => mark.holds.contains(name),
    }
}

/// Whether the object is freed behind frees.
pub fn freed_behind(mark: &Mark, names: &[Option<usize>], freed: bool) -> bool
    ensures { result ≡ freed_behind mark.now names.now freed }
{
    let mut now = freed;
    for name in names {
        now |= frees(mark, *name);
    }
    now
}

fn is_of_field(mark: &Mark, field: Option<(usize, usize)>) -> bool
    ensures { result ≡ has (λ (q : ℕ × ℕ). not (has_number mark.now.lacks.items q.0)) field }
{
    match field {
        None => false,
        Some((variable, _)) => !mark.lacks.contains(variable),
    }
}

fn reads_base(names: &Names, mark: &Mark, name: Option<usize>) -> bool
    ensures { result ≡ reads_base names.now mark.now name }
{
    match name {
        None => false,
        Some(name) => is_of_field(mark, field_at(names, name)),
    }
}

/// Whether a free reads a field of an object that is freed by then.
pub fn reads_freed(names: &Names, mark: &Mark, freed_names: &[Option<usize>], freed: bool) -> bool
    ensures { result ≡ reads_freed names.now mark.now freed_names.now freed }
{
    let mut now = freed;
    for name in freed_names {
        if now && reads_base(names, mark, *name) {
            return true;
        }
        now |= frees(mark, *name);
    }
    false
}

/// Whether a free frees the object again.
pub fn frees_again(mark: &Mark, names: &[Option<usize>], freed: bool) -> bool
    ensures { result ≡ frees_again mark.now names.now freed }
{
    let mut now = freed;
    for name in names {
        if now && frees(mark, *name) {
            return true;
        }
        now |= frees(mark, *name);
    }
    false
}

fn is_undecided(name: usize, mark: &CertMark) -> bool
    ensures { result ≡ is_undecided name mark.now }
{
    !mark.mark.holds.contains(name) && !mark.mark.lacks.contains(name)
}

fn is_undecided_at(marks: &[CertMark], name: usize, place: usize) -> bool
    ensures { result ≡ passes (is_undecided name) marks.now place }
{
    match marks.get(place) {
        None => false,
        Some(mark) => is_undecided(name, mark),
    }
}

fn is_undecided_by(checking: Checking, places: &[usize], name: usize) -> bool
    ensures { result ≡ any_at (is_undecided name) checking.entry.cert.now.marks places.now }
{
    let marks = checking.cert.marks.as_slice();
    places
        .iter()
        .any(|place| is_undecided_at(marks, name, *place))
}

fn is_sure(checking: Checking, node: usize, places: &[usize], name: usize) -> bool
    ensures { result ≡ is_sure_by checking.entry node places.now name }
{
    is_readable(checking.names, &checking.cert.path, node, name)
        && !is_undecided_by(checking, places, name)
}

fn is_sure_of(checking: Checking, node: usize, places: &[usize], name: Option<usize>) -> bool
    ensures { result ≡ has (is_sure_by checking.entry node places.now) name }
{
    match name {
        None => false,
        Some(name) => is_sure(checking, node, places, name),
    }
}

fn is_unsure(checking: Checking, node: usize, places: &[usize], free: &Free) -> bool
    ensures { result ≡ is_unsure_by checking.entry node places.now free.now }
{
    !is_null(&free.expr) && !is_sure_of(checking, node, places, named(checking.names, &free.expr))
}

/// Whether one of the frees asks for what isn't known at a node with marks of these places.
pub fn are_unsure(checking: Checking, node: usize, places: &[usize], frees: &[Free]) -> bool
    ensures { result ≡ list_any (is_unsure_by checking.entry node places.now) frees.now }
{
    frees
        .iter()
        .any(|free| is_unsure(checking, node, places, free))
}

fn reads_freed_at(checking: Checking, names: &[Option<usize>], place: usize) -> bool
    ensures { result ≡ passes (reads_when_freed checking.entry.names.now names.now) checking.entry.cert.now.marks place }
{
    match checking.cert.marks.get(place) {
        None => false,
        Some(mark) => reads_freed(checking.names, &mark.mark, names, mark.freed),
    }
}

/// Whether a free reads a field of an object of one of these marks that is freed by then.
pub fn read_freed(checking: Checking, places: &[usize], names: &[Option<usize>]) -> bool
    ensures { result ≡ any_at (reads_when_freed checking.entry.names.now names.now) checking.entry.cert.now.marks places.now }
{
    places
        .iter()
        .any(|place| reads_freed_at(checking, names, *place))
}

fn frees_again_at(checking: Checking, names: &[Option<usize>], place: usize) -> bool
    ensures { result ≡ passes (frees_twice names.now) checking.entry.cert.now.marks place }
{
    match checking.cert.marks.get(place) {
        None => false,
        Some(mark) => frees_again(&mark.mark, names, mark.freed),
    }
}

/// Whether a free frees an object of one of these marks again.
pub fn free_again(checking: Checking, places: &[usize], names: &[Option<usize>]) -> bool
    ensures { result ≡ any_at (frees_twice names.now) checking.entry.cert.now.marks places.now }
{
    places
        .iter()
        .any(|place| frees_again_at(checking, names, *place))
}

fn is_unfreed_at(marks: &[CertMark], place: usize) -> bool
    ensures { result ≡ passes is_unfreed marks.now place }
{
    match marks.get(place) {
        None => false,
        Some(mark) => !mark.freed,
    }
}

/// Whether the object of one of these marks isn't freed.
pub fn are_unfreed(checking: Checking, places: &[usize]) -> bool
    ensures { result ≡ any_at is_unfreed checking.entry.cert.now.marks places.now }
{
    let marks = checking.cert.marks.as_slice();
    places.iter().any(|place| is_unfreed_at(marks, *place))
}

// Whether a certificate is regular.
ghost use Rattle.std.specs.Prelude.{◌≡◌, ◌++◌, [], ◌∷◌, cond, IfOk, OnOk};
ghost use Rattle.std.specs.List.{list_all};
ghost use Rattle.std.specs.Ordering.{nat_cmp};
ghost use Rattle.c_tree.specs.Typing.{has};
ghost use Rattle.ts_domain.specs.Pointers.{field_type, is_pointer};
ghost use Rattle.path_facts.specs.Numbering.{IsNumbering};
ghost use Rattle.cover_certificate.specs.Regular.{are_facts, are_fields, are_marks, are_vars, ascends, bit_before, by_order, field_before, has_room, held_before, is_field, is_mark, is_open, is_pointer_field, is_regular, mark_before, next_after, open_before, open_below};

use c_graph::Graph;
use cover_certificate::{Cert, CertMark};
use mf_list::{Memory, Seq};
use mf_set::BitSet;
use path_facts::Numbering;
use std::alloc::Global;
use std::cmp::Ordering;
use ts_domain::{Mark, May, Names, Path, expression_count, field_type, is_pointer, struct_of};

fn has_room(room: usize, set: &BitSet) -> bool
    ensures { result ≡ has_room room set.now }
{
    set.room() == room
}

fn have_room(room: usize, sets: &[BitSet]) -> bool
    ensures { result ≡ list_all (has_room room) sets.now }
{
    sets.iter().all(|set| has_room(room, set))
}

fn are_vars(names: &Names, may: &May) -> bool
    ensures { result ≡ are_vars names.now may.now }
{
    may.vars.len() == names.vars.len() && have_room(names.sites.len(), may.vars.as_slice())
}

fn is_pointer_of(names: &Names, of: usize, field: usize) -> bool
    ensures { result ≡ has is_pointer (field_type names.now of field) }
{
    match field_type(names, of, field) {
        None => false,
        Some(ty) => is_pointer(ty),
    }
}

fn is_pointer_field(graph: &Graph, names: &Names, site: usize, field: usize) -> bool
    ensures { result ≡ is_pointer_field names.now graph.now site field }
{
    match struct_of(graph, names, site) {
        None => false,
        Some(of) => is_pointer_of(names, of, field),
    }
}

fn is_field(graph: &Graph, names: &Names, entry: &(usize, usize, BitSet)) -> bool
    ensures { result ≡ is_field names.now graph.now entry.now }
{
    is_pointer_field(graph, names, entry.0, entry.1)
        && (has_room(names.sites.len(), &entry.2) && 0 < entry.2.count())
}

fn field_before(x: &(usize, usize, BitSet), y: &(usize, usize, BitSet)) -> bool
    ensures { result ≡ field_before x.now y.now }
{
    match x.0.cmp(&y.0) {
        Ordering::Less => true,
        Ordering::Equal => x.1 < y.1,
        Ordering::Greater => false,
    }
}

fn field_ascends(fields: &[(usize, usize, BitSet)], place: usize) -> bool
    ensures { result ≡ next_after field_before fields.now place }
{
    match fields.get(place) {
        None => false,
        Some(x) => match fields.get(place + 1) {
            None => false,
            Some(y) => field_before(x, y),
        },
    }
}

fn fields_ascend(fields: &[(usize, usize, BitSet)]) -> bool
    ensures { result ≡ ascends field_before fields.now }
{
    (0..fields.len().saturating_sub(1)).all(|place| field_ascends(fields, place))
}

fn all_fields(graph: &Graph, names: &Names, fields: &[(usize, usize, BitSet)]) -> bool
    ensures { result ≡ list_all (is_field names.now graph.now) fields.now }
{
    fields.iter().all(|entry| is_field(graph, names, entry))
}

fn are_fields(graph: &Graph, names: &Names, may: &May) -> bool
    ensures { result ≡ are_fields names.now graph.now may.now }
{
    let fields = may.fields.as_slice();
    all_fields(graph, names, fields) && fields_ascend(fields)
}

fn are_facts(graph: &Graph, names: &Names, numbering: &Numbering, path: &Path) -> bool
    requires { IsNumbering names.now numbering.now }
    ensures { result ≡ are_facts names.now graph.now path.now }
{
    path.at.len() == graph.nodes.len() && have_room(numbering.count, path.at.as_slice())
}

fn is_mark(graph: &Graph, names: &Names, mark: &CertMark) -> bool
    ensures { result ≡ is_mark names.now graph.now mark.now }
{
    let count = expression_count(names);
    mark.node < graph.nodes.len()
        && (mark.mark.site < names.sites.len()
            && (has_room(count, &mark.mark.holds)
                && (has_room(count, &mark.mark.lacks)
                    && mark.mark.holds.first_common(&mark.mark.lacks).is_none())))
}

fn is_open(mark: &Mark, expression: usize) -> bool
    ensures { result ≡ is_open mark.now expression }
{
    !mark.holds.contains(expression) && !mark.lacks.contains(expression)
}

fn push_if(list: &mut Seq<usize>, passes: bool, item: usize) -> Result<(), Memory>
    ensures { OnOk result (list.new ≡ list.old ++ cond passes (item ∷ []) []) }
{
    if passes { list.push(item) } else { Ok(()) }
}

/// The expressions below a number that a mark leaves undecided.
fn open_below(alloc: Global, count: usize, mark: &Mark) -> Result<Seq<usize>, Memory>
    ensures { IfOk result (λ list. list ≡ open_below count mark.now) }
{
    let mut list = Seq::new(alloc);
    for expression in 0..count {
        push_if(&mut list, is_open(mark, expression), expression)?;
    }
    Ok(list)
}

fn bit_before(x: bool, y: bool) -> bool
    ensures { result ≡ bit_before x y }
{
    !x && y
}

fn open_before(alloc: Global, count: usize, x: &CertMark, y: &CertMark) -> Result<bool, Memory>
    ensures { IfOk result (λ b. b ≡ open_before count x.now y.now) }
{
    let left = open_below(alloc, count, &x.mark)?;
    let right = open_below(alloc, count, &y.mark)?;
    match left.as_slice().cmp(right.as_slice()) {
        Ordering::Less => Ok(true),
        Ordering::Equal => Ok(bit_before(x.freed, y.freed)),
        Ordering::Greater => Ok(false),
    }
}

fn held_before(alloc: Global, count: usize, x: &CertMark, y: &CertMark) -> Result<bool, Memory>
    ensures { IfOk result (λ b. b ≡ held_before count x.now y.now) }
{
    let left = x.mark.holds.to_vec(alloc)?;
    let right = y.mark.holds.to_vec(alloc)?;
    match left.as_slice().cmp(right.as_slice()) {
        Ordering::Less => Ok(true),
        Ordering::Equal => open_before(alloc, count, x, y),
        Ordering::Greater => Ok(false),
    }
}

fn site_before(alloc: Global, count: usize, x: &CertMark, y: &CertMark) -> Result<bool, Memory>
    ensures { IfOk result (λ b. b ≡ by_order (nat_cmp x.now.mark.site y.now.mark.site) (held_before count x.now y.now)) }
{
    match x.mark.site.cmp(&y.mark.site) {
        Ordering::Less => Ok(true),
        Ordering::Equal => held_before(alloc, count, x, y),
        Ordering::Greater => Ok(false),
    }
}

fn mark_before(alloc: Global, count: usize, x: &CertMark, y: &CertMark) -> Result<bool, Memory>
    ensures { IfOk result (λ b. b ≡ mark_before count x.now y.now) }
{
    match x.node.cmp(&y.node) {
        Ordering::Less => Ok(true),
        Ordering::Equal => site_before(alloc, count, x, y),
        Ordering::Greater => Ok(false),
    }
}

fn mark_ascends(
    alloc: Global,
    count: usize,
    marks: &[CertMark],
    place: usize,
) -> Result<bool, Memory>
    ensures { IfOk result (λ b. b ≡ next_after (mark_before count) marks.now place) }
{
    match marks.get(place) {
        None => Ok(false),
        Some(x) => match marks.get(place + 1) {
            None => Ok(false),
            Some(y) => mark_before(alloc, count, x, y),
        },
    }
}

fn marks_ascend(alloc: Global, count: usize, marks: &[CertMark]) -> Result<bool, Memory>
    ensures { IfOk result (λ b. b ≡ ascends (mark_before count) marks.now) }
{
    let mut ascend = true;
    for place in 0..marks.len().saturating_sub(1) {
        ascend &= mark_ascends(alloc, count, marks, place)?;
    }
    Ok(ascend)
}

fn all_marks(graph: &Graph, names: &Names, marks: &[CertMark]) -> bool
    ensures { result ≡ list_all (is_mark names.now graph.now) marks.now }
{
    marks.iter().all(|mark| is_mark(graph, names, mark))
}

fn are_marks(
    alloc: Global,
    graph: &Graph,
    names: &Names,
    marks: &[CertMark],
) -> Result<bool, Memory>
    ensures { IfOk result (λ b. b ≡ are_marks names.now graph.now marks.now) }
{
    if !all_marks(graph, names, marks) {
        return Ok(false);
    }
    marks_ascend(alloc, expression_count(names), marks)
}

/// Whether a certificate is regular.
pub fn is_regular(
    alloc: Global,
    graph: &Graph,
    names: &Names,
    numbering: &Numbering,
    cert: &Cert,
) -> Result<bool, Memory>
    requires { IsNumbering names.now numbering.now }
    ensures { IfOk result (λ b. b ≡ is_regular names.now graph.now cert.now) }
{
    if !are_vars(names, &cert.may) || !are_fields(graph, names, &cert.may) {
        return Ok(false);
    }
    if !are_facts(graph, names, numbering, &cert.path) {
        return Ok(false);
    }
    are_marks(alloc, graph, names, cert.marks.as_slice())
}

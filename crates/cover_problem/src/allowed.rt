// Which puts are allowed: what a free asks for is noted at each node of its gap.
ghost use Rattle.std.specs.Prelude.{◌≡◌, ◌<◌, cond, length, map, IfOk};
ghost use Rattle.std.specs.List.{list_all};
ghost use Rattle.mf_set.specs.Numbers.{with_number};
ghost use Rattle.c_graph.specs.declared.graph.Node.{Node};
ghost use Rattle.ts_domain.specs.Cover.{is_allowed};
ghost use Rattle.ts_domain.specs.Rows.{row as row_at};
ghost use Rattle.cover_problem.specs.Parts.{are_noted, are_noted_at, gap_of, is_noted, needs_at, needs_of, AreAllowed, AreAllowedBy};

use c_graph::{Graph, Node, NodeKind};
use c_tree::Put;
use mf_list::{Memory, Seq};
use mf_set::BitSet;
use std::alloc::Global;
use ts_domain::{Names, Path, field_place, place_of, row, rows_of};

/// The numbers of the facts that a free asks for: that its variable is set; for a field besides, that the variable holds an
/// object and that the field is set.
#[derive(Clone, Copy, Debug)]
pub enum Needs {
    Variable(usize),
    Field(usize, usize, usize),
}

fn field_needs(names: &Names, variable: usize, field: usize) -> Option<Needs>
    requires { variable < length names.now.vars }
    ensures { result ≡ needs_at names.now (Some field) variable }
{
    let vars = names.vars.as_slice();
    let fields = names.fields.as_slice();
    match field_place(fields, variable, field) {
        None => None,
        Some(place) => {
            let full = vars.len() + variable;
            let filled = vars.len() + vars.len() + place;
            Some(Needs::Field(variable, full, filled))
        }
    }
}

fn needs_of(names: &Names, put: Put) -> Option<Needs>
    ensures { result ≡ needs_of names.now put }
{
    match place_of(names, put.var) {
        None => None,
        Some(variable) => match put.field {
            None => Some(Needs::Variable(variable)),
            Some(field) => field_needs(names, variable, field),
        },
    }
}

fn is_noted(path: &Path, node: usize, number: usize) -> bool
    ensures { result ≡ is_noted path.now node number }
{
    match path.at.get(node) {
        None => false,
        Some(numbers) => numbers.contains(number),
    }
}

fn are_noted(path: &Path, node: usize, needs: Needs) -> bool
    ensures { result ≡ are_noted path.now node needs }
{
    match needs {
        Needs::Variable(ready) => is_noted(path, node, ready),
        Needs::Field(ready, full, filled) => {
            is_noted(path, node, ready)
                && (is_noted(path, node, full) && is_noted(path, node, filled))
        }
    }
}

fn are_noted_at(path: &Path, needs: Option<Needs>, node: usize) -> bool
    ensures { result ≡ are_noted_at path.now needs node }
{
    match needs {
        None => false,
        Some(needs) => are_noted(path, node, needs),
    }
}

fn are_noted_at_all(path: &Path, needs: Option<Needs>, nodes: &[usize]) -> bool
    ensures { result ≡ list_all (are_noted_at path.now needs) nodes.now }
{
    nodes.iter().all(|node| are_noted_at(path, needs, *node))
}

fn is_allowed(names: &Names, path: &Path, nodes: &[Seq<usize>], put: Put) -> bool
    ensures { result ≡ list_all (are_noted_at path.now (needs_of names.now put)) (row_at nodes.now put.gap) }
{
    are_noted_at_all(path, needs_of(names, put), row(nodes, put.gap))
}

fn insert_if(set: &mut BitSet, passes: bool, place: usize)
    requires { place < set.old.room }
    ensures { set.new ≡ record set.old { items = cond passes (with_number set.old.items place) set.old.items } }
{
    if passes {
        set.insert(place);
    }
}

fn allowed_by(
    alloc: Global,
    names: &Names,
    path: &Path,
    nodes: &[Seq<usize>],
) -> Result<BitSet, Memory>
    ensures { IfOk result (AreAllowedBy names.now path.now nodes.now (length names.now.puts)) }
{
    let mut set = BitSet::with_room(alloc, names.puts.len())?;
    for place in 0..names.puts.len() {
        let put = *names.puts.at(place);
        insert_if(&mut set, is_allowed(names, path, nodes, put), place);
    }
    Ok(set)
}

fn gap_of(kind: &NodeKind) -> Option<usize>
    ensures { result ≡ gap_of kind.now }
{
    match kind {
        NodeKind::Gap(number, _) => Some(*number),
        NodeKind::Act(_) => None,
        NodeKind::Exit(_) => None,
    }
}

fn gap_keys(alloc: Global, nodes: &[Node]) -> Result<Seq<Option<usize>>, Memory>
    ensures { IfOk result (λ keys. keys ≡ map (λ (v : Node). gap_of v.kind) nodes.now) }
{
    let mut keys = Seq::new(alloc);
    for node in nodes {
        keys.push(gap_of(&node.kind))?;
    }
    Ok(keys)
}

/// The puts that are allowed.
pub fn allowed(alloc: Global, graph: &Graph, names: &Names, path: &Path) -> Result<BitSet, Memory>
    ensures { IfOk result (AreAllowed graph.now names.now path.now) }
{
    let keys = gap_keys(alloc, graph.nodes.as_slice())?;
    let nodes = rows_of(alloc, &keys)?;
    let set = allowed_by(alloc, names, path, nodes.as_slice())?;
    Ok(set)
}

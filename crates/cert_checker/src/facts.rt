// Whether a fact is noted behind an edge for which nothing that stands before it speaks.
ghost use Rattle.std.specs.Prelude.{◌≡◌, slice_get, Some, IfOk};
ghost use Rattle.mf_set.specs.Numbers.{is_subset, IsSet, Numbers};
ghost use Rattle.ts_domain.specs.Deeds.{edge_deeds};
ghost use Rattle.path_facts.specs.Numbering.{IsNumbering, room_of};
ghost use Rattle.cover_certificate.specs.Closed.{adds_fact, is_false_at_start};
ghost use Rattle.cert_checker.specs.Checking.{HasRooms, numbers_at};

use c_graph::{Edge, Graph};
use mf_list::Memory;
use mf_set::BitSet;
use path_facts::{Numbering, full, over_deeds, start_set};
use std::alloc::Global;
use ts_domain::{Deed, Names, Path};

fn noted_at(
    alloc: Global,
    names: &Names,
    numbering: &Numbering,
    path: &Path,
    node: usize,
) -> Result<BitSet, Memory>
    requires numbering { IsNumbering names.now numbering.now }
    requires rooms { HasRooms names.now path.now }
    ensures items { IfOk result (λ s. s.items ≡ numbers_at path.now node) }
    ensures room { IfOk result (λ s. s.room ≡ room_of names.now) }
{
    match path.at.get(node) {
        None => {
            let set = BitSet::with_room(alloc, numbering.count)?;
            Ok(set)
        }
        Some(own) => {
            let set = own.copy(alloc)?;
            Ok(set)
        }
    }
}

fn are_within(path: &Path, node: usize, set: &BitSet) -> bool
    ensures within { result ≡ is_subset (numbers_at path.now node) set.now.items }
    ensures set { (x : Numbers) → slice_get path.now.at node ≡ Some x → IsSet x }
{
    match path.at.get(node) {
        None => true,
        Some(own) => own.is_subset(set),
    }
}

/// Whether an edge with these deeds does so.
pub fn adds_fact(
    alloc: Global,
    graph: &Graph,
    names: &Names,
    numbering: &Numbering,
    path: &Path,
    edge: Edge,
    deeds: &[Deed],
) -> Result<bool, Memory>
    requires numbering { IsNumbering names.now numbering.now }
    requires rooms { HasRooms names.now path.now }
    requires deeds { deeds.now ≡ edge_deeds names.now graph.now edge }
    ensures { IfOk result (λ b. b ≡ adds_fact names.now graph.now path.now edge) }
{
    let before = noted_at(alloc, names, numbering, path, edge.from)?;
    let carried = over_deeds(alloc, names, numbering, deeds, &before)?;
    Ok(!are_within(path, edge.to, &carried))
}

/// Whether a fact is noted at the first node that is false of the start.
pub fn is_false_at_start(
    alloc: Global,
    names: &Names,
    numbering: &Numbering,
    path: &Path,
) -> Result<bool, Memory>
    requires numbering { IsNumbering names.now numbering.now }
    requires rooms { HasRooms names.now path.now }
    ensures { IfOk result (λ b. b ≡ is_false_at_start names.now path.now) }
{
    let all = full(alloc, numbering.count)?;
    let start = start_set(alloc, names, numbering, &all)?;
    Ok(!are_within(path, 0, &start))
}

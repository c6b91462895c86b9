// Triples that are added to those so far.
ghost use Rattle.std.specs.Prelude.{◌≡◌, map, IfOk, OnOk};
ghost use Rattle.indexmap.specs.IndexSet.{insert_all, insert_key};
ghost use Rattle.ts_domain.specs.Derived.{carried};
ghost use Rattle.typestate_fixpoint.specs.Steps.{next_triple, same_triple};

use indexmap::IndexSet;
use mf_list::Memory;
use mf_set::BitSet;
use std::alloc::Global;
use ts_domain::{Step, Triple, copied};

/// The same triple once more.
pub fn copy_of(alloc: Global, triple: &Triple) -> Result<Triple, Memory>
    ensures { IfOk result (λ t. t ≡ triple.now) }
{
    Ok(Triple {
        node: triple.node,
        mark: copied(alloc, &triple.mark)?,
        puts: triple.puts.copy(alloc)?,
    })
}

pub fn add_triple(triples: &mut IndexSet<Triple>, triple: Triple) -> Result<(), Memory>
    ensures { OnOk result (triples.new.keys ≡ insert_key same_triple triples.old.keys triple) }
{
    triples.insert(triple)?;
    Ok(())
}

fn puts_behind(alloc: Global, touched: bool, held: &BitSet) -> Result<BitSet, Memory>
    ensures { IfOk result (λ s. s ≡ record held.now { items = carried touched held.now.items }) }
{
    if touched {
        BitSet::with_room(alloc, held.room())
    } else {
        held.copy(alloc)
    }
}

fn next_triple(alloc: Global, to: usize, held: &BitSet, step: &Step) -> Result<Triple, Memory>
    ensures { IfOk result (λ t. t ≡ next_triple to held.now step.now) }
{
    Ok(Triple {
        node: to,
        mark: copied(alloc, &step.mark)?,
        puts: puts_behind(alloc, step.touched, held)?,
    })
}

/// Adds what a triple becomes over an edge, of the candidates behind its node.
pub fn add_steps(
    alloc: Global,
    to: usize,
    held: &BitSet,
    steps: &[Step],
    triples: &mut IndexSet<Triple>,
) -> Result<(), Memory>
    ensures { OnOk result (triples.new.keys ≡ insert_all same_triple triples.old.keys (map (next_triple to held.now) steps.now)) }
{
    for step in steps {
        add_triple(triples, next_triple(alloc, to, held, step)?)?;
    }
    Ok(())
}

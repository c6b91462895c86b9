// The candidates that have variables: of each triple, and of each exit, every set once.
ghost use Rattle.std.specs.Prelude.{◌≡◌, ℕ, Contains, IfOk, OnOk};
ghost use Rattle.mf_set.specs.Numbers.{Numbers};
ghost use Rattle.ts_domain.specs.declared.triples.Triple.{Triple as Derivation};
ghost use Rattle.cover_clauses.specs.Conflicts.{exit_sets, narrowed, triple_sets, with_set};

use indexmap::IndexSet;
use mf_list::Memory;
use mf_set::BitSet;
use std::alloc::Global;
use ts_domain::Triple;

/// The numbers of a set that are usable too.
fn narrowed(alloc: Global, usable: &BitSet, set: &BitSet) -> Result<BitSet, Memory>
    requires { set.now.room ≡ usable.now.room }
    ensures { IfOk result (λ s. s ≡ narrowed usable.now set.now) }
{
    let mut copy = set.copy(alloc)?;
    copy.meet_with(usable);
    Ok(copy)
}

fn add(
    alloc: Global,
    sets: &mut IndexSet<BitSet>,
    usable: &BitSet,
    set: &BitSet,
) -> Result<(), Memory>
    requires { set.now.room ≡ usable.now.room }
    ensures { OnOk result (sets.new.keys ≡ with_set sets.old.keys (narrowed usable.now set.now)) }
{
    let set = narrowed(alloc, usable, set)?;
    sets.insert(set)?;
    Ok(())
}

pub fn exit_sets(
    alloc: Global,
    usable: &BitSet,
    exits: &[(usize, usize, BitSet)],
) -> Result<IndexSet<BitSet>, Memory>
    requires { (e : ℕ × ℕ × Numbers) → Contains exits.now e → e.2.room ≡ usable.now.room }
    ensures { IfOk result (λ sets. sets.keys ≡ exit_sets usable.now exits.now) }
{
    let mut sets = IndexSet::new(alloc);
    for exit in exits {
        add(alloc, &mut sets, usable, &exit.2)?;
    }
    Ok(sets)
}

pub fn triple_sets(
    alloc: Global,
    usable: &BitSet,
    triples: &[Triple],
) -> Result<IndexSet<BitSet>, Memory>
    requires { (t : Derivation) → Contains triples.now t → t.puts.room ≡ usable.now.room }
    ensures { IfOk result (λ sets. sets.keys ≡ triple_sets usable.now triples.now) }
{
    let mut sets = IndexSet::new(alloc);
    for triple in triples {
        add(alloc, &mut sets, usable, &triple.puts)?;
    }
    Ok(sets)
}

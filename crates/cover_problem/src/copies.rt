// Copies of names and of what was derived.
ghost use Rattle.std.specs.Prelude.{◌≡◌, IfOk};

use c_tree::Duplicate;
use mf_list::{Memory, Seq};
use std::alloc::Global;
use ts_domain::{Derived, Mark, Names, Triple};

pub fn names_copy(alloc: Global, names: &Names) -> Result<Names, Memory>
    ensures { IfOk result (λ copy. copy ≡ names.now) }
{
    Ok(Names {
        vars: Seq::from_slice(alloc, names.vars.as_slice())?,
        fields: Seq::from_slice(alloc, names.fields.as_slice())?,
        sites: Seq::from_slice(alloc, names.sites.as_slice())?,
        puts: Seq::from_slice(alloc, names.puts.as_slice())?,
        decls: names.decls.duplicate(alloc)?,
        structs: names.structs.duplicate(alloc)?,
    })
}

fn mark_copy(alloc: Global, mark: &Mark) -> Result<Mark, Memory>
    ensures { IfOk result (λ copy. copy ≡ mark.now) }
{
    Ok(Mark {
        site: mark.site,
        holds: mark.holds.copy(alloc)?,
        lacks: mark.lacks.copy(alloc)?,
    })
}

fn triple_copy(alloc: Global, triple: &Triple) -> Result<Triple, Memory>
    ensures { IfOk result (λ copy. copy ≡ triple.now) }
{
    Ok(Triple {
        node: triple.node,
        mark: mark_copy(alloc, &triple.mark)?,
        puts: triple.puts.copy(alloc)?,
    })
}

fn triples_copy(alloc: Global, triples: &[Triple]) -> Result<Seq<Triple>, Memory>
    ensures { IfOk result (λ copy. copy ≡ triples.now) }
{
    let mut copy = Seq::new(alloc);
    for triple in triples {
        copy.push(triple_copy(alloc, triple)?)?;
    }
    Ok(copy)
}

pub fn derived_copy(alloc: Global, derived: &Derived) -> Result<Derived, Memory>
    ensures { IfOk result (λ copy. copy ≡ derived.now) }
{
    Ok(Derived {
        triples: triples_copy(alloc, derived.triples.as_slice())?,
        forbidden: derived.forbidden.copy(alloc)?,
        pairs: Seq::from_slice(alloc, derived.pairs.as_slice())?,
    })
}

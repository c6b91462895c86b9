// How a read decides a mark.
ghost use Rattle.std.specs.Prelude.{◌≡◌, [], ◌∷◌, false, true, IfOk};
ghost use Rattle.ts_domain.specs.Marks.{knowledge, split, split_by, splits, step};
ghost use Rattle.ts_domain.specs.declared.marks.Verdict.TheVariants as verdicts;
ghost use Rattle.ts_domain.specs.declared.names.Read.TheVariants as reads;

use crate::changes::Change;
use crate::facts::Facts;
use crate::known::Known;
use crate::marks::{Mark, Step, Verdict};
use crate::names::{Names, Read};
use crate::redraw::{copied, redrawn, verdict};
use crate::sites::flows;
use c_graph::Graph;
use mf_list::{Memory, Seq};
use smallvec::SmallVec;
use std::alloc::Global;

fn single(alloc: Global, mark: Mark, touched: bool) -> Result<Seq<Step>, Memory>
    ensures { IfOk result (λ list. list ≡ step mark touched ∷ []) }
{
    let mut list = Seq::new(alloc);
    list.push(Step { mark, touched })?;
    Ok(list)
}

fn pair(alloc: Global, met: Mark, other: Mark) -> Result<Seq<Step>, Memory>
    ensures { IfOk result (λ list. list ≡ step met true ∷ step other false ∷ []) }
{
    let mut list = Seq::new(alloc);
    list.push(Step {
        mark: met,
        touched: true,
    })?;
    list.push(Step {
        mark: other,
        touched: false,
    })?;
    Ok(list)
}

fn undecided(alloc: Global, known: Known, mark: &Mark, e: usize) -> Result<Seq<Step>, Memory>
    ensures { IfOk result (λ list. list ≡ split_by (knowledge known.entry) mark.now e verdicts.Open) }
{
    let other = redrawn(alloc, known, mark, Change::Tell(e, Verdict::No))?;
    if !flows(known, mark.site, Read::Name(e)) {
        return single(alloc, other, false);
    }
    let met = redrawn(alloc, known, mark, Change::Tell(e, Verdict::Yes))?;
    pair(alloc, met, other)
}

fn split_name(alloc: Global, known: Known, mark: &Mark, e: usize) -> Result<Seq<Step>, Memory>
    ensures { IfOk result (λ list. list ≡ splits (knowledge known.entry) mark.now (reads.Name e)) }
{
    match verdict(mark, e) {
        Verdict::Yes => single(alloc, copied(alloc, mark)?, true),
        Verdict::No => single(alloc, copied(alloc, mark)?, false),
        Verdict::Open => undecided(alloc, known, mark, e),
    }
}

fn split_deep(
    alloc: Global,
    known: Known,
    mark: &Mark,
    of: usize,
    field: usize,
) -> Result<Seq<Step>, Memory>
    ensures { IfOk result (λ list. list ≡ splits (knowledge known.entry) mark.now (reads.Deep of field)) }
{
    let other = copied(alloc, mark)?;
    if !flows(known, mark.site, Read::Deep(of, field)) {
        return single(alloc, other, false);
    }
    pair(alloc, copied(alloc, mark)?, other)
}

/// What a read makes of a mark, each with whether it met the object.
pub fn splits(alloc: Global, known: Known, mark: &Mark, read: Read) -> Result<Seq<Step>, Memory>
    ensures { IfOk result (λ list. list ≡ splits (knowledge known.entry) mark.now read) }
{
    match read {
        Read::Name(e) => split_name(alloc, known, mark, e),
        Read::Deep(of, field) => split_deep(alloc, known, mark, of, field),
    }
}

/// The marks that a read splits a mark into: where it is undecided, first that it meets the object, unless the site flows
/// nowhere there, and then that it doesn't. A read through a longer chain gives the same mark for both.
pub fn split(
    alloc: Global,
    graph: &Graph,
    names: &Names,
    facts: &Facts,
    node: usize,
    mark: &Mark,
    read: &Read,
) -> Result<SmallVec<Mark, 4>, Memory>
    ensures { IfOk result (λ marks. marks.items ≡ split (record { names = names.now; graph = graph.now; facts = facts.now; node = node }) mark.now read.now) }
{
    let known = Known {
        names,
        graph,
        facts,
        node,
    };
    let found = splits(alloc, known, mark, *read)?;
    let steps = found.as_slice();
    let mut marks = SmallVec::new(alloc);
    for step in steps {
        marks.push(copied(alloc, &step.mark)?)?;
    }
    Ok(marks)
}

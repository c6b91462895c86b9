// The certificate of a choice.
ghost use Rattle.std.specs.Prelude.{◌≡◌, ◌<◌, cond, length, map, IfOk, IsPermutation, IsSorted};
ghost use Rattle.std.specs.List.{dedup};
ghost use Rattle.std.specs.Option.{is_some};
ghost use Rattle.c_tree.specs.Fill.{IsAscending};
ghost use Rattle.c_graph.specs.Ways.{LeadsToNodes};
ghost use Rattle.mf_set.specs.Numbers.{first_common, with_number};
ghost use Rattle.ts_domain.specs.Chosen.{is_chosen};
ghost use Rattle.ts_domain.specs.Derived.{AreDerived};
ghost use Rattle.ts_domain.specs.Marks.{passing};
ghost use Rattle.ts_domain.specs.May.{IsMay};
ghost use Rattle.ts_domain.specs.Path.{IsPath};
ghost use Rattle.cover_certificate.specs.declared.lines.Line.{Line};
ghost use Rattle.cover_certificate.specs.Lines.{is_same, line_by, line_cmp, AreLines};
ghost use Rattle.cover_certificate.specs.Making.{ClosesCover, IsMade};
ghost use Rattle.cover_certificate.specs.Regular.{is_open};

use crate::copies::{may_copy, path_copy};
use crate::lines::{Line, compare};
use crate::types::{Cert, CertMark};
use c_graph::Graph;
use c_tree::Choice;
use mf_list::{Memory, Seq};
use mf_set::BitSet;
use std::alloc::Global;
use std::cmp::Ordering;
use ts_domain::{Derived, Facts, Mark, Names, Triple, copied, expression_count, is_chosen};

fn insert_if(set: &mut BitSet, passes: bool, number: usize)
    requires { number < set.old.room }
    ensures { set.new ≡ record set.old { items = cond passes (with_number set.old.items number) set.old.items } }
{
    if passes {
        set.insert(number);
    }
}

/// The places of the chosen puts.
fn chosen_places(alloc: Global, names: &Names, choice: &Choice) -> Result<BitSet, Memory>
    requires { IsAscending choice.now }
    ensures { IfOk result (λ set. set ≡ passing (length names.now.puts) (length names.now.puts) (is_chosen names.now choice.now)) }
{
    let mut set = BitSet::with_room(alloc, names.puts.len())?;
    for place in 0..names.puts.len() {
        insert_if(&mut set, is_chosen(names, choice, place), place);
    }
    Ok(set)
}

fn is_open(mark: &Mark, expression: usize) -> bool
    ensures { result ≡ is_open mark.now expression }
{
    !mark.holds.contains(expression) && !mark.lacks.contains(expression)
}

/// The expressions below a number that a mark leaves undecided.
fn open_below(alloc: Global, count: usize, mark: &Mark) -> Result<BitSet, Memory>
    ensures { IfOk result (λ set. set ≡ passing count count (is_open mark.now)) }
{
    let mut set = BitSet::with_room(alloc, count)?;
    for expression in 0..count {
        insert_if(&mut set, is_open(mark, expression), expression);
    }
    Ok(set)
}

fn is_common(one: &BitSet, other: &BitSet) -> bool
    ensures { result ≡ is_some (first_common one.now.items other.now.items) }
{
    one.first_common(other).is_some()
}

/// The line of a triple, by the places of the chosen puts.
fn line_by(alloc: Global, names: &Names, chosen: &BitSet, triple: &Triple) -> Result<Line, Memory>
    ensures { IfOk result (λ line. line ≡ line_by names.now chosen.now.items triple.now) }
{
    let undecided = open_below(alloc, expression_count(names), &triple.mark)?;
    let mark = copied(alloc, &triple.mark)?;
    let freed = is_common(&triple.puts, chosen);
    Ok(Line {
        mark: CertMark {
            node: triple.node,
            mark,
            freed,
        },
        undecided,
    })
}

fn lines_by(
    alloc: Global,
    names: &Names,
    chosen: &BitSet,
    triples: &[Triple],
) -> Result<Seq<Line>, Memory>
    ensures { IfOk result (λ lines. lines ≡ map (line_by names.now chosen.now.items) triples.now) }
{
    let mut lines = Seq::new(alloc);
    for triple in triples {
        lines.push(line_by(alloc, names, chosen, triple)?)?;
    }
    Ok(lines)
}

fn ordered(lines: Seq<Line>) -> Result<Seq<Line>, Memory>
    ensures permutation { IfOk result (λ ordered. IsPermutation lines ordered) }
    ensures sorted { IfOk result (λ ordered. IsSorted line_cmp ordered) }
{
    let mut list = lines.into_vec();
    list.sort_by(|x, y| compare(x, y))?;
    Ok(Seq::from_vec(list))
}

fn is_same(x: &Line, y: &Line) -> bool
    ensures { result ≡ is_same x.now y.now }
{
    compare(x, y) == Ordering::Equal
}

fn without_repeats(lines: Seq<Line>) -> Seq<Line>
    ensures { result ≡ dedup is_same lines }
{
    let mut list = lines.into_vec();
    list.dedup_by(|x, y| is_same(x, y));
    Seq::from_vec(list)
}

fn mark_copy(alloc: Global, mark: &CertMark) -> Result<CertMark, Memory>
    ensures { IfOk result (λ copy. copy ≡ mark.now) }
{
    Ok(CertMark {
        node: mark.node,
        mark: copied(alloc, &mark.mark)?,
        freed: mark.freed,
    })
}

fn marks_in(alloc: Global, lines: &[Line]) -> Result<Seq<CertMark>, Memory>
    ensures { IfOk result (λ marks. marks ≡ map (λ (x : Line). x.mark) lines.now) }
{
    let mut marks = Seq::new(alloc);
    for line in lines {
        marks.push(mark_copy(alloc, &line.mark)?)?;
    }
    Ok(marks)
}

/// The marks of triples with their bits, in the order of their lines.
fn marks_of(
    alloc: Global,
    names: &Names,
    choice: &Choice,
    triples: &[Triple],
) -> Result<Seq<CertMark>, Memory>
    requires { IsAscending choice.now }
    ensures { IfOk result (AreLines names.now choice.now triples.now) }
{
    let chosen = chosen_places(alloc, names, choice)?;
    let all = lines_by(alloc, names, &chosen, triples)?;
    let ordered = ordered(all)?;
    let lines = without_repeats(ordered);
    let marks = marks_in(alloc, lines.as_slice())?;
    Ok(marks)
}

/// The certificate of a choice: May and the path facts whole, and the mark of each triple with whether the choice has one of
/// its candidates. Marks come in the order of their lines, so that the certificate is regular.
pub fn make(
    alloc: Global,
    graph: &Graph,
    derived: &Derived,
    names: &Names,
    facts: &Facts,
    choice: &Choice,
) -> Result<Cert, Memory>
    requires { IsAscending choice.now }
    ensures made { LeadsToNodes graph.now → IsMay names.now graph.now facts.now.may → IsPath names.now graph.now facts.now.path → AreDerived names.now graph.now facts.now derived.now → IfOk result (IsMade names.now graph.now facts.now derived.now choice.now) }
    ensures closes { IfOk result (ClosesCover names.now graph.now facts.now derived.now choice.now) }
{
    let marks = marks_of(alloc, names, choice, derived.triples.as_slice())?;
    let may = may_copy(alloc, &facts.may)?;
    let path = path_copy(alloc, &facts.path)?;
    Ok(Cert { may, path, marks })
}

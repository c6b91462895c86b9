// Entries on their way over an edge, deed by deed.
ghost use Rattle.std.specs.Prelude.{◌≡◌, ◌+◌, ◌<◌, ◌^◌, [], ◌∷◌, false, true, Err, IfOk, OnOk};
ghost use Rattle.ts_domain.specs.Looks.{is_noted, is_noted_read};
ghost use Rattle.ts_domain.specs.Marks.{knowledge};
ghost use Rattle.ts_domain.specs.Post.{are_opposed, counted, deed_entries, entry, excludes, first_entry, holds_beneath, is_held_field, is_read, is_wide, last_entries, last_entry, notes_with, read_entries, read_entry, too_many, turn, turns, with_entries, with_entry, written_entry};

use crate::deed::{Deed, Saying};
use crate::entry::{Entry, Notes};
use crate::known::Known;
use crate::marks::{Mark, Step, Verdict};
use crate::names::{Names, Read};
use crate::redraw::{copied, expression_count};
use crate::sites::field_at;
use crate::splits::splits;
use crate::writes::{looked_verdict, settled, written_mark};
use c_tree::{Limit, Refusal};
use indexmap::IndexSet;
use mf_list::{Memory, Seq};
use std::alloc::Global;

// More entries than these behind a read make an edge wide.
const MOST_ENTRIES: usize = 4096;

fn is_noted_read(read: Read, noted: bool) -> bool
    ensures { result ≡ is_noted_read read noted }
{
    match read {
        Read::Deep(_, _) => noted,
        Read::Name(_) => false,
    }
}

fn is_noted(deed: Deed) -> bool
    ensures { result ≡ is_noted deed }
{
    match deed {
        Deed::Reads(read, noted) => is_noted_read(read, noted),
        Deed::Follows(_) => false,
        Deed::Says(_) => false,
        Deed::Sets(_, _) => false,
        Deed::SetsField(_, _, _, _) => false,
    }
}

fn is_read(deed: Deed) -> bool
    ensures { result ≡ is_read deed }
{
    match deed {
        Deed::Reads(_, _) => true,
        Deed::Follows(_) => false,
        Deed::Says(_) => false,
        Deed::Sets(_, _) => false,
        Deed::SetsField(_, _, _, _) => false,
    }
}

fn notes_with(
    alloc: Global,
    notes: &[usize],
    place: usize,
    found: bool,
) -> Result<Seq<usize>, Memory>
    ensures { IfOk result (λ list. list ≡ notes_with notes.now place found) }
{
    let mut list = Seq::from_slice(alloc, notes)?;
    if found {
        list.push(place)?;
    }
    Ok(list)
}

fn new_entry(alloc: Global, mark: Mark, touched: bool) -> Entry
    ensures { result ≡ entry mark touched [] }
{
    let notes = Notes {
        places: Seq::new(alloc),
    };
    Entry {
        mark,
        touched,
        notes,
    }
}

fn read_entry(
    alloc: Global,
    read: Read,
    noted: bool,
    place: usize,
    before: &Entry,
    step: &Step,
) -> Result<Entry, Memory>
    ensures { IfOk result (λ x. x ≡ read_entry read noted place before.now step.now) }
{
    let found = is_noted_read(read, noted) && step.touched;
    let places = notes_with(alloc, before.notes.places.as_slice(), place, found)?;
    let mark = copied(alloc, &step.mark)?;
    let touched = before.touched || step.touched;
    Ok(Entry {
        mark,
        touched,
        notes: Notes { places },
    })
}

fn read_entries(
    alloc: Global,
    known: Known,
    read: Read,
    noted: bool,
    place: usize,
    before: &Entry,
) -> Result<Seq<Entry>, Memory>
    ensures { IfOk result (λ list. list ≡ read_entries (knowledge known.entry) read noted place before.now) }
{
    let found = splits(alloc, known, &before.mark, read)?;
    let steps = found.as_slice();
    let mut list = Seq::new(alloc);
    for step in steps {
        list.push(read_entry(alloc, read, noted, place, before, step)?)?;
    }
    Ok(list)
}

fn is_held_field(names: &Names, mark: &Mark, variable: usize, expression: usize) -> bool
    ensures { result ≡ is_held_field names.now mark.now variable expression }
{
    match field_at(names, expression) {
        None => false,
        Some((of, _)) => of == variable && mark.holds.contains(expression),
    }
}

fn holds_beneath(names: &Names, mark: &Mark, variable: usize) -> bool
    ensures { result ≡ holds_beneath names.now mark.now variable }
{
    for expression in 0..expression_count(names) {
        if is_held_field(names, mark, variable, expression) {
            return true;
        }
    }
    false
}

fn are_opposed(one: Verdict, other: Verdict) -> bool
    ensures { result ≡ are_opposed one other }
{
    match (one, other) {
        (Verdict::Yes, Verdict::No) => true,
        (Verdict::No, Verdict::Yes) => true,
        _ => false,
    }
}

/// Whether what a test says excludes an entry.
fn excludes(names: &Names, entry: &Entry, saying: Saying) -> bool
    ensures { result ≡ excludes names.now entry.now saying }
{
    let mark = &entry.mark;
    let notes = entry.notes.places.as_slice();
    match saying {
        Saying::IsNull(expression) => {
            mark.holds.contains(expression) || holds_beneath(names, mark, expression)
        }
        Saying::IsntNull(_) => false,
        Saying::AreEqual(one, other) => {
            are_opposed(
                looked_verdict(mark, notes, one),
                looked_verdict(mark, notes, other),
            )
        }
        Saying::Differ(one, other) => {
            let first = looked_verdict(mark, notes, one);
            let second = looked_verdict(mark, notes, other);
            first == Verdict::Yes && second == Verdict::Yes
        }
    }
}

fn copy_of(alloc: Global, entry: &Entry) -> Result<Entry, Memory>
    ensures { IfOk result (λ x. x ≡ entry.now) }
{
    let mark = copied(alloc, &entry.mark)?;
    let places = Seq::from_slice(alloc, entry.notes.places.as_slice())?;
    Ok(Entry {
        mark,
        touched: entry.touched,
        notes: Notes { places },
    })
}

fn written_entry(alloc: Global, known: Known, deed: Deed, entry: &Entry) -> Result<Entry, Memory>
    ensures { IfOk result (λ x. x ≡ written_entry (knowledge known.entry) deed entry.now) }
{
    let notes = entry.notes.places.as_slice();
    let mark = written_mark(alloc, known, Verdict::No, notes, deed, &entry.mark)?;
    let places = Seq::from_slice(alloc, notes)?;
    Ok(Entry {
        mark,
        touched: entry.touched,
        notes: Notes { places },
    })
}

fn single(alloc: Global, entry: Entry) -> Result<Seq<Entry>, Memory>
    ensures { IfOk result (λ list. list ≡ entry ∷ []) }
{
    let mut list = Seq::new(alloc);
    list.push(entry)?;
    Ok(list)
}

/// What a deed makes of an entry, where so many noted reads came before.
fn deed_entries(
    alloc: Global,
    known: Known,
    deed: Deed,
    place: usize,
    entry: &Entry,
) -> Result<Seq<Entry>, Memory>
    ensures { IfOk result (λ list. list ≡ deed_entries (knowledge known.entry) deed place entry.now) }
{
    match deed {
        Deed::Reads(read, noted) => read_entries(alloc, known, read, noted, place, entry),
        Deed::Follows(_) => single(alloc, copy_of(alloc, entry)?),
        Deed::Says(saying) => {
            if excludes(known.names, entry, saying) {
                return Ok(Seq::new(alloc));
            }
            single(alloc, copy_of(alloc, entry)?)
        }
        Deed::Sets(_, _) => single(alloc, written_entry(alloc, known, deed, entry)?),
        Deed::SetsField(_, _, _, _) => single(alloc, written_entry(alloc, known, deed, entry)?),
    }
}

fn add(entries: &mut IndexSet<Entry>, entry: Entry) -> Result<(), Memory>
    ensures { OnOk result (entries.new.keys ≡ with_entry entries.old.keys entry) }
{
    entries.insert(entry)?;
    Ok(())
}

fn add_all(alloc: Global, entries: &mut IndexSet<Entry>, more: &[Entry]) -> Result<(), Memory>
    ensures { OnOk result (entries.new.keys ≡ with_entries entries.old.keys more.now) }
{
    for entry in more {
        add(entries, copy_of(alloc, entry)?)?;
    }
    Ok(())
}

/// What a deed makes of all entries.
fn turn(
    alloc: Global,
    known: Known,
    deed: Deed,
    place: usize,
    entries: &[Entry],
) -> Result<IndexSet<Entry>, Memory>
    ensures { IfOk result (λ set. set.keys ≡ turn (knowledge known.entry) deed place entries.now) }
{
    let mut next = IndexSet::new(alloc);
    for entry in entries {
        let made = deed_entries(alloc, known, deed, place, entry)?;
        add_all(alloc, &mut next, made.as_slice())?;
    }
    Ok(next)
}

fn first_entries(alloc: Global, mark: &Mark) -> Result<IndexSet<Entry>, Memory>
    ensures { IfOk result (λ set. set.keys ≡ first_entry mark.now ∷ []) }
{
    let mut entries = IndexSet::new(alloc);
    add(&mut entries, new_entry(alloc, copied(alloc, mark)?, false))?;
    Ok(entries)
}

fn counted(deed: Deed, place: usize) -> usize
    requires { place + 1 < 2 ^ 64 }
    ensures { result ≡ counted deed place }
{
    if is_noted(deed) { place + 1 } else { place }
}

fn is_too_many(deed: Deed, entries: &[Entry]) -> bool
    ensures { result ≡ too_many deed entries.now }
{
    is_read(deed) && entries.len() > MOST_ENTRIES
}

/// The entries behind deeds; an edge whose reads make too many is wide.
pub fn turns(
    alloc: Global,
    known: Known,
    deeds: &[Deed],
    mark: &Mark,
) -> Result<IndexSet<Entry>, Refusal>
    ensures ok { IfOk result (λ set. set.keys ≡ turns (knowledge known.entry) deeds.now 0 (first_entry mark.now ∷ [])) }
    ensures narrow { IfOk result (λ set. is_wide (knowledge known.entry) deeds.now 0 (first_entry mark.now ∷ []) ≡ false) }
    ensures only { (l : Limit) → result ≡ Err (Refusal.Limit l) → l ≡ Limit.States }
    ensures limit { result ≡ Err (Refusal.Limit Limit.States) → is_wide (knowledge known.entry) deeds.now 0 (first_entry mark.now ∷ []) ≡ true }
{
    let mut entries = first_entries(alloc, mark)?;
    let mut place: usize = 0;
    for deed in deeds {
        entries = turn(alloc, known, *deed, place, entries.as_slice())?;
        if is_too_many(*deed, entries.as_slice()) {
            return Err(Refusal::Limit(Limit::States));
        }
        place = counted(*deed, place);
    }
    Ok(entries)
}

/// The entries at the end of an edge, settled and without their notes.
pub fn last_entries(
    alloc: Global,
    known: Known,
    entries: &[Entry],
) -> Result<IndexSet<Entry>, Memory>
    ensures { IfOk result (λ set. set.keys ≡ last_entries (knowledge known.entry) entries.now) }
{
    let mut last = IndexSet::new(alloc);
    for before in entries {
        let mark = settled(alloc, known, &before.mark)?;
        add(&mut last, new_entry(alloc, mark, before.touched))?;
    }
    Ok(last)
}

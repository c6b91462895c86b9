// What writes make of a mark, and the marks of new objects.
ghost use Rattle.std.specs.Prelude.{◌≡◌, [], IfOk};
ghost use Rattle.mf_set.specs.Numbers.{has};
ghost use Rattle.ts_domain.specs.Marks.{knowledge};
ghost use Rattle.ts_domain.specs.MarkWrites.{birth, birth_writes, is_itself, is_looked, looked_verdict, put_mark, set_mark, settled, source_verdict, unborn, written_mark};

use crate::changes::Change;
use crate::deed::{Deed, Looked, Source};
use crate::known::Known;
use crate::marks::{Mark, Verdict};
use crate::names::Read;
use crate::redraw::{copied, open_mark, redrawn, verdict};
use mf_list::Memory;
use std::alloc::Global;

fn has_note(notes: &[usize], place: usize) -> bool
    ensures { result ≡ has notes.now place }
{
    notes.iter().any(|note| *note == place)
}

/// The verdict on what was looked at, with the noted reads that met the object.
pub fn looked_verdict(mark: &Mark, notes: &[usize], looked: Looked) -> Verdict
    ensures { result ≡ looked_verdict mark.now notes.now looked }
{
    match looked {
        Looked::Name(expression) => verdict(mark, expression),
        Looked::Deep(_, _, place) => {
            if has_note(notes, place) {
                Verdict::Yes
            } else {
                Verdict::No
            }
        }
    }
}

fn source_verdict(fresh: Verdict, mark: &Mark, notes: &[usize], source: Source) -> Verdict
    ensures { result ≡ source_verdict fresh mark.now notes.now source }
{
    match source {
        Source::Content(looked) => looked_verdict(mark, notes, looked),
        Source::Null => Verdict::No,
        Source::New(_) => fresh,
        Source::Undef => Verdict::No,
    }
}

fn is_looked(variable: usize, looked: Looked) -> bool
    ensures { result ≡ is_looked variable looked }
{
    match looked {
        Looked::Name(other) => variable == other,
        Looked::Deep(_, _, _) => false,
    }
}

fn is_itself(variable: usize, source: Source) -> bool
    ensures { result ≡ is_itself variable source }
{
    match source {
        Source::Content(looked) => is_looked(variable, looked),
        Source::Null => false,
        Source::New(_) => false,
        Source::Undef => false,
    }
}

fn set_mark(
    alloc: Global,
    known: Known,
    mark: &Mark,
    variable: usize,
    source: Source,
    taken: Verdict,
) -> Result<Mark, Memory>
    ensures { IfOk result (λ m. m ≡ set_mark known.entry.names.now mark.now variable source taken) }
{
    if is_itself(variable, source) {
        return copied(alloc, mark);
    }
    redrawn(alloc, known, mark, Change::Set(variable, source, taken))
}

fn put_mark(
    alloc: Global,
    known: Known,
    mark: &Mark,
    base: Read,
    of: usize,
    field: usize,
    taken: Verdict,
) -> Result<Mark, Memory>
    ensures { IfOk result (λ m. m ≡ put_mark (knowledge known.entry) mark.now base of field taken) }
{
    redrawn(alloc, known, mark, Change::Put(base, of, field, taken))
}

/// A mark behind a deed, with the verdict on an object that the edge makes.
pub fn written_mark(
    alloc: Global,
    known: Known,
    fresh: Verdict,
    notes: &[usize],
    deed: Deed,
    mark: &Mark,
) -> Result<Mark, Memory>
    ensures { IfOk result (λ m. m ≡ written_mark (knowledge known.entry) fresh notes.now deed mark.now) }
{
    match deed {
        Deed::Reads(_, _) => copied(alloc, mark),
        Deed::Follows(_) => copied(alloc, mark),
        Deed::Says(_) => copied(alloc, mark),
        Deed::Sets(variable, source) => {
            let taken = source_verdict(fresh, mark, notes, source);
            set_mark(alloc, known, mark, variable, source, taken)
        }
        Deed::SetsField(base, of, field, source) => {
            let taken = source_verdict(fresh, mark, notes, source);
            put_mark(alloc, known, mark, base, of, field, taken)
        }
    }
}

/// A mark whose undecided expressions are those that the site flows to.
pub fn settled(alloc: Global, known: Known, mark: &Mark) -> Result<Mark, Memory>
    ensures { IfOk result (λ m. m ≡ settled (knowledge known.entry) mark.now) }
{
    redrawn(alloc, known, mark, Change::Settle)
}

fn unborn(alloc: Global, known: Known, site: usize) -> Result<Mark, Memory>
    ensures { IfOk result (λ m. m ≡ unborn (knowledge known.entry) site) }
{
    let open = open_mark(alloc, site, 0)?;
    redrawn(alloc, known, &open, Change::Clear)
}

fn birth_writes(alloc: Global, known: Known, deeds: &[Deed], site: usize) -> Result<Mark, Memory>
    ensures { IfOk result (λ m. m ≡ birth_writes (knowledge known.entry) deeds.now (unborn (knowledge known.entry) site)) }
{
    let mut mark = unborn(alloc, known, site)?;
    for deed in deeds {
        mark = written_mark(alloc, known, Verdict::Yes, &[], *deed, &mark)?;
    }
    Ok(mark)
}

/// The mark of the new object of a site behind deeds.
pub fn birth(alloc: Global, known: Known, deeds: &[Deed], site: usize) -> Result<Mark, Memory>
    ensures { IfOk result (λ m. m ≡ birth (knowledge known.entry) deeds.now site) }
{
    let written = birth_writes(alloc, known, deeds, site)?;
    settled(alloc, known, &written)
}

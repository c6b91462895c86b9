// Facts once more.
ghost use Rattle.std.specs.Prelude.{◌≡◌, IfOk};

use mf_list::{Memory, Seq};
use mf_set::BitSet;
use std::alloc::Global;
use ts_domain::{May, Path};

fn sets_copy(alloc: Global, sets: &[BitSet]) -> Result<Seq<BitSet>, Memory>
    ensures { IfOk result (λ copy. copy ≡ sets.now) }
{
    let mut copy = Seq::new(alloc);
    for set in sets {
        let own = set.copy(alloc)?;
        copy.push(own)?;
    }
    Ok(copy)
}

fn fields_copy(
    alloc: Global,
    fields: &[(usize, usize, BitSet)],
) -> Result<Seq<(usize, usize, BitSet)>, Memory>
    ensures { IfOk result (λ copy. copy ≡ fields.now) }
{
    let mut copy = Seq::new(alloc);
    for field in fields {
        let own = field.2.copy(alloc)?;
        copy.push((field.0, field.1, own))?;
    }
    Ok(copy)
}

pub fn may_copy(alloc: Global, may: &May) -> Result<May, Memory>
    ensures { IfOk result (λ copy. copy ≡ may.now) }
{
    let vars = sets_copy(alloc, may.vars.as_slice())?;
    let fields = fields_copy(alloc, may.fields.as_slice())?;
    Ok(May { vars, fields })
}

pub fn path_copy(alloc: Global, path: &Path) -> Result<Path, Memory>
    ensures { IfOk result (λ copy. copy ≡ path.now) }
{
    let at = sets_copy(alloc, path.at.as_slice())?;
    Ok(Path { at })
}

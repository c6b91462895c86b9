//! A text repaired.
ghost use Rattle.std.specs.Prelude.{◌≡◌, ◌≤◌, false, length, IfOk, IfErr, OnOk};
ghost use Rattle.c_tree.specs.WellFormed.{IsWellFormed};
ghost use Rattle.c_tree.specs.declared.choice.Choice.{Choice};
ghost use Rattle.c_tree.specs.declared.program.Program.{Program};
ghost use Rattle.cover_problem.specs.declared.types.Problem.{Problem};
ghost use Rattle.cover_problem.specs.Problem.{IsCoverOf};
ghost use Rattle.source_patcher.specs.Reads.{ReadsWithin};
ghost use Rattle.memfix_engine.specs.Analysing.{IsAnalysis};
ghost use Rattle.memfix_engine.specs.Analysis.{IsAnalysed};
ghost use Rattle.memfix_engine.specs.Refusal.{source_limit};
ghost use Rattle.memfix_engine.specs.Repair.{Repairs, RefusesRepair, refusal_of};
ghost use Rattle.memfix_engine.specs.Repairing.{RefusesProgram};

use crate::analysis::{Analysis, analyse};
use crate::certifying::certify;
use crate::choosing::choose;
use crate::refusal::{RepairRefusal, SourceRefusal};
use crate::source::read_source;
use c_tree::{Program, Refusal};
use source_patcher::edit;
use std::alloc::Global;

/// At most so many bytes are repaired.
pub const SOURCE_LIMIT: usize = 1_048_576;

/// Want of memory is one answer alone.
fn refusal_of(refusal: SourceRefusal) -> RepairRefusal
    ensures { result ≡ refusal_of refusal }
{
    match refusal {
        SourceRefusal::Memory => RepairRefusal::Memory,
        _ => RepairRefusal::Source(refusal),
    }
}

/// The analyses of a program, refused as its repair is.
fn analysed(alloc: Global, program: &Program) -> Result<Analysis, RepairRefusal>
    requires { IsWellFormed program.now }
    ensures analysis { IfOk result (IsAnalysis program.now) }
    ensures refused { IfErr result (RefusesProgram program.now) }
{
    match analyse(alloc, program) {
        Ok(analysis) => Ok(analysis),
        Err(Refusal::Limit(limit)) => Err(RepairRefusal::Limit(limit)),
        Err(Refusal::Memory) => Err(RepairRefusal::Memory),
    }
}

/// The repaired text of a program that was read from the bytes.
fn repaired(alloc: Global, bytes: &[u8], program: &Program) -> Result<Vec<u8>, RepairRefusal>
    requires read { ReadsWithin bytes.now program.now }
    requires well_formed { IsWellFormed program.now }
    ensures repairs { IfOk result (λ w. Repairs bytes.now w.items) }
    ensures refused { IfErr result (RefusesProgram program.now) }
{
    let analysis = analysed(alloc, program)?;
    let choice = choose(alloc, program, &analysis)?;
    certify(alloc, program, &analysis, &choice)?;
    let text = edit(alloc, bytes, program, &choice)?;
    Ok(text.into_vec())
}

/// The text with its `free` statements placed anew. No certificate can be asked for yet.
pub fn repair(alloc: Global, bytes: &[u8], cert: bool) -> Result<Vec<u8>, RepairRefusal>
    requires { cert ≡ false }
    ensures repairs { IfOk result (λ w. Repairs bytes.now w.items) }
    ensures fits { OnOk result (length bytes.now ≤ source_limit) }
    ensures refused { IfErr result (RefusesRepair bytes.now) }
    // A text that reads as a program within the limits is refused only where it has no cover, or for want of memory.
    ensures only { IfErr result (λ r. (r ≡ RepairRefusal.Memory → ⊥) → length bytes.now ≤ source_limit → (p : Program) → ReadsWithin bytes.now p → (q : Problem) → IsAnalysed p q → (s : Choice) → IsCoverOf q s → ⊥) }
{
    let _uncertified = cert;
    if bytes.len() > SOURCE_LIMIT {
        return Err(RepairRefusal::TooLong);
    }
    let program = match read_source(alloc, bytes) {
        Ok(program) => program,
        Err(refusal) => return Err(refusal_of(refusal)),
    };
    let text = repaired(alloc, bytes, &program)?;
    Ok(text)
}

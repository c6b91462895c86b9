//! A text replayed.
ghost use Rattle.std.specs.Prelude.{◌≡◌, ◌≤◌, length, IfOk, IfErr, OnOk};
ghost use Rattle.c_tree.specs.declared.program.Program.{Program};
ghost use Rattle.source_patcher.specs.Reads.{ReadsWithin};
ghost use Rattle.memfix_engine.specs.Refusal.{source_limit};
ghost use Rattle.memfix_engine.specs.Replay.{Replays, RefusesReplay, refusal_of};

use crate::refusal::{ReplayRefusal, SourceRefusal};
use crate::repairs::SOURCE_LIMIT;
use crate::source::read_source;
use c_meaning::Machine;
use c_replay::run;
use std::alloc::Global;

/// Want of memory is one answer alone.
fn refusal_of(refusal: SourceRefusal) -> ReplayRefusal
    ensures { result ≡ refusal_of refusal }
{
    match refusal {
        SourceRefusal::Memory => ReplayRefusal::Memory,
        _ => ReplayRefusal::Source(refusal),
    }
}

/// The machine of the text's program after n steps. `input` is what `getchar` reads, and `fails` says of each `malloc`,
/// in order, whether it fails; past their ends there is no input, and nothing fails.
pub fn replay(
    alloc: Global,
    bytes: &[u8],
    input: &[u8],
    fails: &[bool],
    n: u64,
) -> Result<Machine, ReplayRefusal>
    ensures replays { IfOk result (Replays bytes.now input.now fails.now n) }
    ensures fits { OnOk result (length bytes.now ≤ source_limit) }
    ensures refused { IfErr result (RefusesReplay bytes.now) }
    ensures only { IfErr result (λ r. (r ≡ ReplayRefusal.Memory → ⊥) → length bytes.now ≤ source_limit → (p : Program) → ReadsWithin bytes.now p → ⊥) }
{
    if bytes.len() > SOURCE_LIMIT {
        return Err(ReplayRefusal::TooLong);
    }
    let program = match read_source(alloc, bytes) {
        Ok(program) => program,
        Err(refusal) => return Err(refusal_of(refusal)),
    };
    let machine = run(alloc, &program, input, fails, n)?;
    Ok(machine)
}

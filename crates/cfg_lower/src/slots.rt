// The nameless slots of the results of all functions, by one pass over the variables.
ghost use Rattle.std.specs.Prelude.{◌≡◌, ℕ, ◌+◌, List, ◌∷◌, length, IfOk};
ghost use Rattle.c_tree.specs.declared.program.VarDef.{VarDef};
ghost use Rattle.cfg_lower.specs.Slots.{below_number, slots_from, slots_of};

use c_tree::{Home, Program, VarDef};
use mf_list::{Memory, Seq};
use std::alloc::Global;

fn no_slots(alloc: Global, count: usize) -> Result<Seq<Option<usize>>, Memory>
    ensures { IfOk result (λ slots. slots ≡ below_number (λ f. None) count) }
{
    let mut slots = Seq::new(alloc);
    for _ in 0..count {
        slots.push(None)?;
    }
    Ok(slots)
}

/// Notes variable `var`, which stands before those noted so far.
fn note(slots: &mut Seq<Option<usize>>, var: usize, def: &VarDef)
    ensures { (n : ℕ) (later : List VarDef) → slots.old ≡ slots_from n (var + 1) later → slots.new ≡ slots_from n var (def.now ∷ later) }
{
    if let Home::Result(fun) = def.home {
        if fun < slots.len() {
            slots.set(fun, Some(var));
        }
    }
}

/// The nameless slot of each function.
pub fn slots(alloc: Global, program: &Program) -> Result<Seq<Option<usize>>, Memory>
    ensures { IfOk result (λ slots. slots ≡ slots_of program.now) }
{
    let mut slots = no_slots(alloc, program.funs.len())?;
    let vars = program.vars.as_slice();
    for var in (0..vars.len()).rev() {
        note(&mut slots, var, &vars[var]);
    }
    Ok(slots)
}

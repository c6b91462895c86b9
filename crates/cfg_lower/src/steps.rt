// Where edges lead from a place, by number.
ghost use Rattle.std.specs.Prelude.{◌≡◌, ◌++◌, slice_get, IfOk, OnOk};
ghost use Rattle.call_contexts.specs.Contexts.{callee_of, home_of};
ghost use Rattle.c_graph.specs.Nodes.{In, enter_leads, lead, leave_leads, leads_of, next_at as next_in, on_leads, return_leads, says as says_in, way_said as way_in};
ghost use Rattle.c_meaning.specs.Parts.{Test};
ghost use Rattle.c_meaning.specs.Place.{result_slot};
ghost use Rattle.cfg_lower.specs.Growth.{leads_at, malloc_leads, said_by};
ghost use Rattle.cfg_lower.specs.Meant.{expr_of, instruction_of, spot_of};
ghost use Rattle.cfg_lower.specs.Sources.{IsHere, IsSource, back_steps, contexts_of, here_in, program_of, step_in, steps_for};

use crate::forms::{Deed, Instruction, Operand, Spot};
use crate::numbers::{exit_number, place_number};
use crate::places::next_at;
use crate::source::Source;
use crate::tables::{CallSite, Here, Step};
use c_graph::Way;
use c_tree::Expr;
use mf_list::{Memory, Seq};
use std::alloc::Global;

/// A step to a place of a context.
fn step_to(source: Source, ctx: usize, path: &[usize], way: Way) -> Step
    requires { IsSource source }
    ensures { result ≡ step_in source.entry (lead way (In ctx path.now)) }
{
    Step {
        to: place_number(source, ctx, path),
        way,
    }
}

/// A step to what follows a path in the same context.
fn step_behind(
    alloc: Global,
    source: Source,
    here: &Here,
    said: Option<bool>,
    path: &[usize],
    way: Way,
) -> Result<Step, Memory>
    requires source { IsSource source }
    requires here { IsHere source here.now }
    ensures { IfOk result (λ step. step ≡ step_in source.entry (lead way (In here.now.ctx (next_in (program_of source.entry) here.now.fun said path.now)))) }
{
    let next = next_at(alloc, source.program, here.fun, here.slot, said, path)?;
    Ok(step_to(source, here.ctx, next.as_slice(), way))
}

fn steps_on(alloc: Global, source: Source, here: &Here, path: &[usize]) -> Result<Seq<Step>, Memory>
    requires source { IsSource source }
    requires here { IsHere source here.now }
    ensures { IfOk result (λ steps. steps ≡ steps_for source.entry (on_leads (program_of source.entry) here.now.ctx here.now.fun path.now)) }
{
    let step = step_behind(alloc, source, here, None, path, Way::On)?;
    Seq::from_slice(alloc, &[step])
}

/// What an integer constant says as a test (C99 6.8.4.1p2).
fn constant_says(test: Operand) -> Option<bool>
    ensures { said_by result ≡ says_in (expr_of test.entry) }
{
    match test {
        Operand::Written(Expr::Const(number, _)) => Some(*number != 0),
        Operand::Written(_) | Operand::Variable(_, _) => None,
        Operand::One => Some(true),
    }
}

fn way_said(said: bool) -> Way
    ensures { result ≡ way_in said }
{
    if said { Way::True } else { Way::False }
}

fn steps_of_test(
    alloc: Global,
    source: Source,
    here: &Here,
    path: &[usize],
    test: Operand,
) -> Result<Seq<Step>, Memory>
    requires source { IsSource source }
    requires here { IsHere source here.now }
    ensures { IfOk result (λ steps. steps ≡ steps_for source.entry (leads_of (program_of source.entry) (contexts_of source.entry) here.now.ctx here.now.fun path.now (Test (expr_of test.entry)))) }
{
    match constant_says(test) {
        Some(said) => {
            let step = step_behind(alloc, source, here, Some(said), path, way_said(said))?;
            Seq::from_slice(alloc, &[step])
        }
        None => {
            let yes = step_behind(alloc, source, here, Some(true), path, Way::True)?;
            let no = step_behind(alloc, source, here, Some(false), path, Way::False)?;
            Seq::from_slice(alloc, &[yes, no])
        }
    }
}

fn steps_of_malloc(
    alloc: Global,
    source: Source,
    here: &Here,
    path: &[usize],
) -> Result<Seq<Step>, Memory>
    requires source { IsSource source }
    requires here { IsHere source here.now }
    ensures { IfOk result (λ steps. steps ≡ steps_for source.entry (malloc_leads (program_of source.entry) here.now.ctx here.now.fun path.now)) }
{
    let made = step_behind(alloc, source, here, None, path, Way::Made)?;
    let not_made = step_behind(alloc, source, here, None, path, Way::NotMade)?;
    Seq::from_slice(alloc, &[made, not_made])
}

/// Into the callee of a call.
fn steps_of_call(
    alloc: Global,
    source: Source,
    ctx: usize,
    number: usize,
) -> Result<Seq<Step>, Memory>
    requires { IsSource source }
    ensures { IfOk result (λ steps. steps ≡ steps_for source.entry (enter_leads (callee_of (contexts_of source.entry) ctx number))) }
{
    match source.contexts.callee(ctx, number) {
        None => Ok(Seq::new(alloc)),
        Some(callee) => Seq::from_slice(alloc, &[step_to(source, callee, &[0], Way::Enter)]),
    }
}

/// Back to the caller, or from `main` to the exit behind that place.
fn steps_of_leave(
    alloc: Global,
    source: Source,
    here: &Here,
    path: &[usize],
) -> Result<Seq<Step>, Memory>
    requires source { IsSource source }
    requires here { IsHere source here.now }
    ensures { IfOk result (λ steps. steps ≡ steps_for source.entry (leave_leads (program_of source.entry) (contexts_of source.entry) path.now (home_of (contexts_of source.entry) here.now.ctx))) }
{
    match &here.back {
        Some(back) => Seq::from_slice(alloc, back.as_slice()),
        None => {
            let step = Step {
                to: exit_number(source, path),
                way: Way::On,
            };
            Seq::from_slice(alloc, &[step])
        }
    }
}

/// Where edges lead from an action.
fn steps_of_action(
    alloc: Global,
    source: Source,
    here: &Here,
    path: &[usize],
    action: Instruction,
) -> Result<Seq<Step>, Memory>
    requires source { IsSource source }
    requires here { IsHere source here.now }
    ensures { IfOk result (λ steps. steps ≡ steps_for source.entry (leads_of (program_of source.entry) (contexts_of source.entry) here.now.ctx here.now.fun path.now (instruction_of action.entry))) }
{
    match action {
        Instruction::Plain(Deed::Malloc(_, _, _)) => steps_of_malloc(alloc, source, here, path),
        Instruction::Plain(_) => steps_on(alloc, source, here, path),
        Instruction::Test(test) => steps_of_test(alloc, source, here, path, test),
        Instruction::Invoke(number, _, _, _) => steps_of_call(alloc, source, here.ctx, number),
        Instruction::Return(_, _) | Instruction::Close(true, _) => {
            steps_of_leave(alloc, source, here, path)
        }
        Instruction::Close(false, _) => Ok(Seq::new(alloc)),
    }
}

/// Where edges lead from what stands at a path.
pub fn steps_at(
    alloc: Global,
    source: Source,
    here: &Here,
    path: &[usize],
    spot: Spot,
) -> Result<Seq<Step>, Memory>
    requires source { IsSource source }
    requires here { IsHere source here.now }
    ensures { IfOk result (λ steps. steps ≡ steps_for source.entry (leads_at (program_of source.entry) (contexts_of source.entry) here.now.ctx here.now.fun path.now (spot_of spot.entry))) }
{
    match spot {
        Spot::AtGap(_) => steps_on(alloc, source, here, path),
        Spot::AtAction(action) => steps_of_action(alloc, source, here, path, action),
        Spot::Nowhere => Ok(Seq::new(alloc)),
    }
}

/// The step back to what follows a call of context `ctx`, if it is the call of that number.
fn add_back(
    steps: &mut Seq<Step>,
    source: Source,
    ctx: usize,
    number: usize,
    call: &CallSite,
) -> Result<(), Memory>
    requires { IsSource source }
    ensures { OnOk result (steps.new ≡ steps.old ++ back_steps source.entry ctx number call.now) }
{
    if call.number != number {
        return Ok(());
    }
    let way = Way::Leave(call.target);
    steps.push(step_to(source, ctx, call.behind.as_slice(), way))
}

/// The steps back to context `ctx`, to what follows its call of that number.
fn steps_back(alloc: Global, source: Source, ctx: usize, number: usize) -> Result<Seq<Step>, Memory>
    requires { IsSource source }
    ensures { IfOk result (λ steps. steps ≡ steps_for source.entry (return_leads (program_of source.entry) ctx number (slice_get (contexts_of source.entry) ctx))) }
{
    let mut steps = Seq::new(alloc);
    let Some(context) = source.contexts.list.get(ctx) else {
        return Ok(steps);
    };
    let Some(row) = source.tables.rows.get(context.fun) else {
        return Ok(steps);
    };
    let calls = row.calls.as_slice();
    for call in calls {
        add_back(&mut steps, source, ctx, number, call)?;
    }
    Ok(steps)
}

/// A context with where control goes back to.
pub fn here(
    alloc: Global,
    source: Source,
    ctx: usize,
    fun: usize,
    slot: Option<usize>,
) -> Result<Here, Memory>
    requires source { IsSource source }
    requires slot { slot ≡ result_slot (program_of source) fun }
    ensures { IfOk result (λ here. here ≡ here_in source.entry ctx fun) }
{
    let back = match source.contexts.home(ctx) {
        None => None,
        Some((from, number)) => Some(steps_back(alloc, source, from, number)?),
    };
    Ok(Here {
        ctx,
        fun,
        slot,
        back,
    })
}

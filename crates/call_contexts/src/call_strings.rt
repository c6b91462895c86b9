// The call strings of a program from `main`, depth first.
ghost use Rattle.std.specs.Prelude.{◌≡◌, [], ◌∷◌, ◌++◌, ◌+◌, ◌<◌, ◌≤◌, length, IfOk, OnOk};
ghost use Rattle.call_contexts.specs.Calls.{calls_of};
ghost use Rattle.call_contexts.specs.Contexts.{contexts, visit, visit_calls};

use crate::calls::calls_by_function;
use crate::context::{Contexts, Ctx};
use c_tree::{Limit, Program, Refusal, UserCall};
use mf_list::Seq;
use std::alloc::Global;

/// The greatest number of contexts.
const MOST: usize = 1024;

fn add_context(list: &mut Seq<Ctx>, context: Ctx) -> Result<(), Refusal>
    ensures ok { OnOk result (list.new ≡ list.old ++ context ∷ []) }
    ensures within { OnOk result (length list.old < 1024) }
    ensures only { (l : Limit) → result ≡ Err (Refusal.Limit l) → l ≡ Limit.Contexts }
    ensures limit { result ≡ Err (Refusal.Limit Limit.Contexts) → 1024 ≤ length list.old }
{
    if list.len() >= MOST {
        return Err(Refusal::Limit(Limit::Contexts));
    }
    list.push(context)?;
    Ok(())
}

fn calls_of(rows: &[Seq<UserCall>], fun: usize) -> &[UserCall]
    ensures { result.now ≡ calls_of rows.now fun }
{
    match rows.get(fun) {
        None => &[],
        Some(calls) => calls.as_slice(),
    }
}

#[cycle(visits)]
fn visit(
    list: &mut Seq<Ctx>,
    rows: &[Seq<UserCall>],
    depth: usize,
    fun: usize,
    home: Option<(usize, usize)>,
) -> Result<(), Refusal>
    ensures ok { OnOk result (list.new ≡ list.old ++ visit rows.now depth (length list.old) fun home) }
    ensures within { length list.old ≤ 1024 → OnOk result (length list.new ≤ 1024) }
    ensures only { (l : Limit) → result ≡ Err (Refusal.Limit l) → l ≡ Limit.Contexts }
    ensures limit { result ≡ Err (Refusal.Limit Limit.Contexts) → 1024 < length list.old + length (visit rows.now depth (length list.old) fun home) }
{
    let Some(below) = depth.checked_sub(1) else {
        return Ok(());
    };
    let me = list.len();
    add_context(list, Ctx { fun, home })?;
    visit_calls(list, rows, below, me, calls_of(rows, fun))
}

#[cycle(visits)]
fn visit_calls(
    list: &mut Seq<Ctx>,
    rows: &[Seq<UserCall>],
    depth: usize,
    me: usize,
    calls: &[UserCall],
) -> Result<(), Refusal>
    ensures ok { OnOk result (list.new ≡ list.old ++ visit_calls (visit rows.now depth) me (length list.old) calls.now) }
    ensures within { length list.old ≤ 1024 → OnOk result (length list.new ≤ 1024) }
    ensures only { (l : Limit) → result ≡ Err (Refusal.Limit l) → l ≡ Limit.Contexts }
    ensures limit { result ≡ Err (Refusal.Limit Limit.Contexts) → 1024 < length list.old + length (visit_calls (visit rows.now depth) me (length list.old) calls.now) }
{
    for call in calls {
        visit(list, rows, depth, call.callee, Some((me, call.number)))?;
    }
    Ok(())
}

/// The contexts of a program that has no recursion.
///
/// # Errors
/// `Limit(Contexts)` where there are more than 1,024.
pub fn contexts(alloc: Global, program: &Program) -> Result<Contexts, Refusal>
    ensures ok { IfOk result (λ c. c.list ≡ contexts program.now) }
    ensures within { IfOk result (λ c. length c.list ≤ 1024) }
    ensures only { (l : Limit) → result ≡ Err (Refusal.Limit l) → l ≡ Limit.Contexts }
    ensures limit { result ≡ Err (Refusal.Limit Limit.Contexts) → 1024 < length (contexts program.now) }
{
    let rows = calls_by_function(alloc, program)?;
    let mut list = Seq::new(alloc);
    visit(
        &mut list,
        rows.as_slice(),
        program.funs.len(),
        program.main,
        None,
    )?;
    Ok(Contexts { list })
}

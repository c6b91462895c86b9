// What an item of a block consists of, and how control passes from part to part (C99 6.8).
ghost use Rattle.std.specs.Prelude.{◌≡◌, ℕ, ◌+◌, ◌<◌, ◌^◌, [], ◌∷◌, length, slice_get, option_map, OnSome};
ghost use Rattle.c_tree.specs.declared.program.Item.{out-Item};
ghost use Rattle.c_meaning.specs.Parts.{assigned as assigned_in, behind_for as for_goal, called as called_in, condition_of, declared as declared_in, else_parts, entry as entry_of, first_part as for_entry, goal as goal_in, put_call as put_call_in, started as started_in, step_part as for_step, target_of as target_in};
ghost use Rattle.c_meaning.specs.Place.{is_result as is_result_of, part_of as part_in, result_slot as result_slot_of};
ghost use Rattle.cfg_lower.specs.Meant.{action_of, actions_of, departure_of, expr_of, goal_of, part_of as part_meant, variable_at};
ghost use Rattle.cfg_lower.specs.Layers.{declared_goal, declared_parts, for_goal as for_flow, for_parts, if_goal, if_parts, returned_call_parts, returned_parts, while_goal, while_parts};
ghost use Rattle.c_tree.specs.declared.expr.Expr.{Expr as TestExpr};
ghost use Rattle.c_tree.specs.declared.program.Block.{Block as Body};

use crate::forms::{Deed, Departure, Goal, Instruction, Operand, Part, Row};
use c_tree::{
    Arm, Block, Call, Declr, Expr, ForHead, Home, Item, Op, Program, Right, Simple, Start,
};

fn is_result(fun: usize, home: Home) -> bool
    ensures { result ≡ is_result_of fun home }
{
    match home {
        Home::Result(of) => of == fun,
        _ => false,
    }
}

/// The nameless slot of a function's result, if it has one.
pub fn result_slot(program: &Program, fun: usize) -> Option<usize>
    ensures { result ≡ result_slot_of program.now fun }
{
    let vars = program.vars.as_slice();
    for var in 0..vars.len() {
        if is_result(fun, vars[var].home) {
            return Some(var);
        }
    }
    None
}

// calls

/// Where a user's call puts its result; the types exclude other places than a variable.
fn target_of(place: Option<Operand>) -> Option<Option<usize>>
    ensures { result ≡ target_in (option_map expr_of place.entry) }
{
    match place {
        None => Some(None),
        Some(Operand::Variable(var, _)) => Some(Some(var)),
        Some(Operand::Written(Expr::Var(var, _))) => Some(Some(*var)),
        Some(_) => None,
    }
}

pub fn called<'a>(place: Option<Operand<'a>>, call: &'a Call) -> Option<Instruction<'a>>
    ensures { action_of result ≡ called_in (option_map expr_of place.entry) call.now }
{
    match call {
        Call::User(number, callee, arguments, _) => {
            let target = target_of(place)?;
            Some(Instruction::Invoke(*number, *callee, arguments.as_slice(), target))
        }
        Call::Malloc(size, at) => Some(Instruction::Plain(Deed::Malloc(place, size, *at))),
        Call::Getchar(_) => Some(Instruction::Plain(Deed::Getchar(place))),
        Call::Putchar(value, _) => match place {
            None => Some(Instruction::Plain(Deed::Putchar(value))),
            Some(_) => None,
        },
        Call::Printf(text, arguments, _) => match place {
            None => {
                let deed = Deed::Printf(text.as_slice(), arguments.as_slice());
                Some(Instruction::Plain(deed))
            }
            Some(_) => None,
        },
    }
}

fn put_call<'a>(op: Op, place: &'a Expr, call: &'a Call) -> Option<Instruction<'a>>
    ensures { action_of result ≡ put_call_in op place.now call.now }
{
    match op {
        Op::Put => called(Some(Operand::Written(place)), call),
        _ => None,
    }
}

pub fn assigned<'a>(simple: &'a Simple) -> Option<Instruction<'a>>
    ensures { action_of result ≡ assigned_in simple.now simple.now.right }
{
    match &simple.right {
        Right::Plain(value) => {
            let place = Operand::Written(&simple.place);
            let deed = Deed::Assign(place, simple.op, value, simple.at);
            Some(Instruction::Plain(deed))
        }
        Right::Call(call) => put_call(simple.op, &simple.place, call),
    }
}

pub fn declared<'a>(declr: &'a Declr) -> Option<Instruction<'a>>
    ensures { action_of result ≡ declared_in declr.now declr.now.right }
{
    let place = Operand::Variable(declr.var, declr.at);
    match &declr.right {
        None => Some(Instruction::Plain(Deed::Unset(declr.var))),
        Some(Right::Plain(value)) => {
            let deed = Deed::Assign(place, Op::Put, value, declr.at);
            Some(Instruction::Plain(deed))
        }
        Some(Right::Call(call)) => called(Some(place), call),
    }
}

pub fn started<'a>(start: &'a Start) -> Option<Instruction<'a>>
    ensures { action_of result ≡ started_in start.now }
{
    match start {
        Start::Declare(declr) => declared(declr),
        Start::Assign(simple) => assigned(simple),
    }
}

pub fn slot_operand<'a>(slot: Option<usize>, at: usize) -> Option<Operand<'a>>
    ensures { option_map expr_of result ≡ option_map (variable_at at) slot }
{
    match slot {
        Some(slot) => Some(Operand::Variable(slot, at)),
        None => None,
    }
}

// items

fn only<'a>(k: usize, part: Part<'a>) -> Option<Part<'a>>
    ensures { option_map part_meant result ≡ slice_get (part_meant part.entry ∷ []) k }
{
    if k == 0 { Some(part) } else { None }
}

fn declared_part<'a>(declrs: &'a [Declr], k: usize) -> Option<Part<'a>>
    ensures part { option_map part_meant result ≡ slice_get (declared_parts declrs.now) k }
    ensures few { OnSome result (k + 2 < 2 ^ 64) }
{
    if k < declrs.len() {
        Some(Part::One(declared(&declrs[k])))
    } else {
        None
    }
}

fn else_part<'a>(otherwise: &'a Option<Block>, k: usize) -> Option<Part<'a>>
    ensures part { option_map part_meant result ≡ slice_get (else_parts otherwise.now) k }
    ensures first { OnSome result (k ≡ 0) }
{
    match otherwise {
        Some(block) if k == 0 => Some(Part::Within(block)),
        _ => None,
    }
}

fn if_part<'a>(arms: &'a [Arm], otherwise: &'a Option<Block>, k: usize) -> Option<Part<'a>>
    ensures part { option_map part_meant result ≡ slice_get (if_parts arms.now otherwise.now) k }
    ensures few { OnSome result (k + 2 < 2 ^ 64) }
{
    let place = k / 2;
    if place >= arms.len() {
        return else_part(otherwise, k - 2 * arms.len());
    }
    if k % 2 == 0 {
        Some(Part::Condition(Operand::Written(&arms[place].test)))
    } else {
        Some(Part::Within(&arms[place].body))
    }
}

fn while_part<'a>(test: &'a Expr, body: &'a Block, k: usize) -> Option<Part<'a>>
    ensures { option_map part_meant result ≡ slice_get (while_parts test.now body.now) k }
{
    match k {
        0 => Some(Part::Condition(Operand::Written(test))),
        1 => Some(Part::Within(body)),
        _ => None,
    }
}

pub fn condition<'a>(test: &'a Option<Expr>) -> Operand<'a>
    ensures { expr_of result ≡ condition_of test.now }
{
    match test {
        Some(test) => Operand::Written(test),
        None => Operand::One,
    }
}

fn for_part<'a>(head: &'a ForHead, body: &'a Block, k: usize) -> Option<Part<'a>>
    ensures { option_map part_meant result ≡ slice_get (for_parts head.now body.now) k }
{
    match k {
        0 => Some(Part::Row(Row::Starts(head.start.as_slice()))),
        1 => Some(Part::Condition(condition(&head.test))),
        2 => Some(Part::Row(Row::Step(&head.step))),
        3 => Some(Part::Within(body)),
        _ => None,
    }
}

fn returned_call<'a>(slot: Option<usize>, call: &'a Call, at: usize, k: usize) -> Option<Part<'a>>
    ensures { option_map part_meant result ≡ slice_get (returned_call_parts slot call.now at) k }
{
    let place = slot_operand(slot, at);
    match k {
        0 => Some(Part::One(called(place, call))),
        1 => Some(Part::One(Some(Instruction::Return(place, at)))),
        _ => None,
    }
}

fn returned_part<'a>(
    slot: Option<usize>,
    value: &'a Option<Right>,
    at: usize,
    k: usize,
) -> Option<Part<'a>>
    ensures { option_map part_meant result ≡ slice_get (returned_parts slot value.now at) k }
{
    match value {
        None => only(k, Part::One(Some(Instruction::Return(None, at)))),
        Some(Right::Plain(value)) => {
            let value = Some(Operand::Written(value));
            only(k, Part::One(Some(Instruction::Return(value, at))))
        }
        Some(Right::Call(call)) => returned_call(slot, call, at, k),
    }
}

/// Part k of an item, in the order of the text.
pub fn part_of<'a>(slot: Option<usize>, item: &'a Item, k: usize) -> Option<Part<'a>>
    ensures part { option_map part_meant result ≡ part_in slot k (out-Item item.now) }
    ensures few { OnSome result (k + 2 < 2 ^ 64) }
{
    match item {
        Item::Declare(declrs) => declared_part(declrs.as_slice(), k),
        Item::Assign(simple) => only(k, Part::One(assigned(simple))),
        Item::Do(call) => only(k, Part::One(called(None, call))),
        Item::Nest(block) => only(k, Part::Within(block)),
        Item::If(arms, otherwise) => if_part(arms.as_slice(), otherwise, k),
        Item::While(test, body) => while_part(test, body, k),
        Item::For(head, body) => for_part(head, body, k),
        Item::Break => None,
        Item::Continue => None,
        Item::Return(value, at) => returned_part(slot, value, *at, k),
    }
}

// rows

/// Action k of a row.
pub fn action_in<'a>(row: Row<'a>, k: usize) -> Option<Option<Instruction<'a>>>
    ensures { option_map action_of result ≡ slice_get (actions_of row.entry) k }
{
    match row {
        Row::Starts(starts) => {
            if k < starts.len() {
                Some(started(&starts[k]))
            } else {
                None
            }
        }
        Row::Step(Some(step)) if k == 0 => Some(assigned(step)),
        Row::Step(_) => None,
    }
}

pub fn row_len(row: Row) -> usize
    ensures { result ≡ length (actions_of row.entry) }
{
    match row {
        Row::Starts(starts) => starts.len(),
        Row::Step(Some(_)) => 1,
        Row::Step(None) => 0,
    }
}

// the flow of control

fn first_part(head: &ForHead) -> Goal
    ensures { goal_of result ≡ for_entry head.now head.now.start }
{
    if head.start.is_empty() {
        Goal::Into(1)
    } else {
        Goal::Into(0)
    }
}

fn step_part(step: &Option<Simple>) -> Goal
    ensures { goal_of result ≡ for_step step.now }
{
    match step {
        Some(_) => Goal::Into(2),
        None => Goal::Into(1),
    }
}

/// Where an item is entered.
pub fn entry(item: &Item) -> Goal
    ensures { goal_of result ≡ entry_of (out-Item item.now) }
{
    match item {
        Item::For(head, _) => first_part(head),
        Item::Break => Goal::Out(Departure::Broken),
        Item::Continue => Goal::Out(Departure::Continued),
        Item::Declare(_) | Item::Assign(_) | Item::Do(_) | Item::Nest(_) => Goal::Into(0),
        Item::If(_, _) | Item::While(_, _) | Item::Return(_, _) => Goal::Into(0),
    }
}

fn behind_action(k: usize, by: Departure) -> Goal
    requires { k + 2 < 2 ^ 64 }
    ensures { goal_of result ≡ declared_goal k (departure_of by) }
{
    match by {
        Departure::Through => Goal::Into(k + 1),
        _ => Goal::Out(by),
    }
}

fn behind_arm(k: usize, by: Departure) -> Goal
    requires { k + 2 < 2 ^ 64 }
    ensures { goal_of result ≡ if_goal k (departure_of by) }
{
    match by {
        Departure::Found(true) => Goal::Into(k + 1),
        Departure::Found(false) => Goal::Into(k + 2),
        _ => Goal::Out(by),
    }
}

fn behind_while(by: Departure) -> Goal
    ensures { (e : TestExpr) (b : Body) (k : ℕ) → goal_of result ≡ while_goal e b k (departure_of by) }
{
    match by {
        Departure::Found(true) => Goal::Into(1),
        Departure::Found(false) | Departure::Broken => Goal::Out(Departure::Through),
        Departure::Through | Departure::Continued => Goal::Into(0),
        Departure::Lost => Goal::Out(by),
    }
}

fn behind_for_part(head: &ForHead, k: usize) -> Goal
    ensures { goal_of result ≡ for_goal head.now k }
{
    if k == 3 {
        step_part(&head.step)
    } else {
        Goal::Into(1)
    }
}

fn behind_for(head: &ForHead, k: usize, by: Departure) -> Goal
    ensures { (b : Body) → goal_of result ≡ for_flow head.now b k (departure_of by) }
{
    match by {
        Departure::Found(true) => Goal::Into(3),
        Departure::Found(false) | Departure::Broken => Goal::Out(Departure::Through),
        Departure::Through => behind_for_part(head, k),
        Departure::Continued => step_part(&head.step),
        Departure::Lost => Goal::Out(by),
    }
}

/// Where control goes on when it leaves part k of an item.
pub fn goal(item: &Item, k: usize, by: Departure) -> Goal
    requires { k + 2 < 2 ^ 64 }
    ensures { goal_of result ≡ goal_in (out-Item item.now) k (departure_of by) }
{
    match item {
        Item::Declare(_) | Item::Return(_, _) => behind_action(k, by),
        Item::If(_, _) => behind_arm(k, by),
        Item::While(_, _) => behind_while(by),
        Item::For(head, _) => behind_for(head, k, by),
        Item::Assign(_) | Item::Do(_) | Item::Nest(_) => Goal::Out(by),
        Item::Break | Item::Continue => Goal::Out(by),
    }
}

// Writes to the store of a machine. Where memory is wanting, nothing was written.
ghost use Rattle.std.specs.Prelude.{◌≡◌, length, slice_set, OnOk, OnErr};
ghost use Rattle.c_meaning.specs.Machine.{altered, marked_freed, stopped, stored, with_cell};
ghost use Rattle.c_meaning.specs.Effects.{answered, born, fails_next as next_fails, fetched, granted, is_over as is_ended, next_byte as byte_or_end, requested, written};
ghost use Rattle.c_replay.specs.Changes.{on_store, grown, revived, unmarked};

use c_meaning::{Cells, Ending, Location, Machine, Object, Stack, Stop, Value};
use mf_list::{Memory, Seq};
use std::alloc::Global;

pub fn is_over(ending: Ending) -> bool
    ensures { result ≡ is_ended ending }
{
    match ending {
        Ending::Running => false,
        Ending::Returned(_) => true,
        Ending::Fault(_, _, _) => true,
    }
}

/// A fault ends the run; what the types exclude does nothing.
pub fn stop(machine: &mut Machine, stop: Stop, by_free: bool)
    ensures { machine.new ≡ on_store (stopped stop by_free) machine.old }
{
    match stop {
        Stop::Faulted(kind, at) => machine.ending = Ending::Fault(kind, at, by_free),
        Stop::Excluded => {}
    }
}

fn write_cell(object: &mut Object, at: usize, value: Value) -> Result<(), Memory>
    ensures ok { OnOk result (object.new ≡ with_cell at value object.old) }
    ensures err { OnErr result (object.new ≡ object.old) }
{
    if at < object.cells.len() {
        object.cells.set(at, value)?;
    }
    Ok(())
}

#[tactic(auto, using(crate::proofs::Altered::altered_at, crate::proofs::Altered::altered_past, crate::proofs::Altered::set_same))]
fn write_object(
    objects: &mut Seq<Object>,
    object: usize,
    at: usize,
    value: Value,
) -> Result<(), Memory>
    ensures ok { OnOk result (objects.new ≡ altered (with_cell at value) object objects.old) }
    ensures err { OnErr result (objects.new ≡ objects.old) }
{
    if object < objects.len() {
        write_cell(objects.at_mut(object), at, value)?;
    }
    Ok(())
}

pub fn write_slot(slots: &mut Seq<Value>, at: usize, value: Value)
    ensures { slots.new ≡ slice_set slots.old at value }
{
    if at < slots.len() {
        slots.set(at, value);
    }
}

pub fn store(machine: &mut Machine, location: Location, value: Value) -> Result<(), Memory>
    ensures ok { OnOk result (machine.new ≡ on_store (stored location value) machine.old) }
    ensures err { OnErr result (machine.new ≡ machine.old) }
{
    match location {
        Location::Slot(at) => {
            write_slot(&mut machine.slots, at, value);
            Ok(())
        }
        Location::Cell(object, at) => write_object(&mut machine.objects, object, at, value),
    }
}

/// An answer is stored where there is a place for it.
fn answer(machine: &mut Machine, location: Option<Location>, value: Value) -> Result<(), Memory>
    ensures ok { OnOk result (machine.new ≡ on_store (answered location value) machine.old) }
    ensures err { OnErr result (machine.new ≡ machine.old) }
{
    match location {
        Some(location) => store(machine, location, value),
        None => Ok(()),
    }
}

// requests

fn grant(
    alloc: Global,
    machine: &mut Machine,
    location: Option<Location>,
    count: usize,
) -> Result<(), Memory>
    ensures ok { OnOk result (machine.new ≡ on_store (grown location count) machine.old) }
    ensures err { OnErr result (machine.new ≡ machine.old) }
{
    let number = machine.objects.len();
    machine.objects.push(Object {
        cells: Cells::new(alloc, count),
        freed: false,
    })?;
    match answer(machine, location, Value::Ptr(number)) {
        Ok(()) => Ok(()),
        Err(error) => {
            machine.objects.pop();
            Err(error)
        }
    }
}

fn fails_next(fails: &[bool]) -> bool
    ensures { result ≡ next_fails fails.now }
{
    match fails {
        [] => false,
        [first, ..] => *first,
    }
}

fn grant_unless(
    alloc: Global,
    machine: &mut Machine,
    location: Option<Location>,
    count: i64,
    fails: bool,
) -> Result<(), Memory>
    ensures ok { OnOk result (machine.new ≡ on_store (granted location count fails) machine.old) }
    ensures err { OnErr result (machine.new ≡ machine.old) }
{
    if count < 0 || fails {
        answer(machine, location, Value::Null)
    } else {
        grant(alloc, machine, location, count as usize)
    }
}

/// A malloc of that many cells takes the next entry of the failure list.
pub fn request(
    alloc: Global,
    machine: &mut Machine,
    location: Option<Location>,
    count: i64,
) -> Result<(), Memory>
    ensures ok { OnOk result (machine.new ≡ on_store (requested location count) machine.old) }
    ensures err { OnErr result (machine.new ≡ machine.old) }
{
    let fails = fails_next(machine.fails.as_slice());
    grant_unless(alloc, machine, location, count, fails)?;
    machine.fails.next();
    Ok(())
}

// input and output

fn next_byte(input: &[u8]) -> Value
    ensures { result ≡ byte_or_end input.now }
{
    match input {
        [] => Value::Int(-1),
        [first, ..] => Value::Int(*first as i32),
    }
}

/// getchar takes a byte of the input.
pub fn fetch(machine: &mut Machine, location: Option<Location>) -> Result<(), Memory>
    ensures ok { OnOk result (machine.new ≡ on_store (fetched location) machine.old) }
    ensures err { OnErr result (machine.new ≡ machine.old) }
{
    let byte = next_byte(machine.input.as_slice());
    answer(machine, location, byte)?;
    machine.input.next();
    Ok(())
}

pub fn write(machine: &mut Machine, bytes: Seq<u8>) -> Result<(), Memory>
    ensures ok { OnOk result (machine.new ≡ on_store (written bytes) machine.old) }
    ensures err { OnErr result (machine.new ≡ machine.old) }
{
    machine.output.append(bytes)
}

// frees

/// The object's lifetime ends.
#[tactic(auto, using(crate::proofs::Altered::altered_at, crate::proofs::Altered::altered_past))]
pub fn mark_freed(objects: &mut Seq<Object>, object: usize)
    ensures { objects.new ≡ altered marked_freed object objects.old }
{
    if object < objects.len() {
        objects.at_mut(object).freed = true;
    }
}

#[tactic(auto, using(crate::proofs::Altered::altered_at, crate::proofs::Altered::altered_past))]
fn unmark(objects: &mut Seq<Object>, object: usize)
    ensures { objects.new ≡ altered unmarked object objects.old }
{
    if object < objects.len() {
        objects.at_mut(object).freed = false;
    }
}

/// Takes back the frees of these objects.
pub fn revive(objects: &mut Seq<Object>, freed: Stack<usize>)
    ensures { objects.new ≡ revived freed objects.old }
{
    let mut left = freed;
    while let Some(object) = left.pop() {
        unmark(objects, object);
    }
}

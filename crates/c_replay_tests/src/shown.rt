// The state of a machine as a line: the slots, the objects, the output, how many bytes of input are left, the ending.
use c_meaning::{Cells, Machine, Object, Value};
use mf_list::Memory;
use std::alloc::Global;

/// How many cells of an object are shown.
const SHOWN: usize = 3;

fn show_value(line: &mut String, value: Value) -> Result<(), Memory> {
    match value {
        Value::Undef => line.push_str("?"),
        Value::Int(number) => write!(line, "{number}"),
        Value::Null => line.push_str("null"),
        Value::Ptr(object) => write!(line, "->{object}"),
    }
}

fn show_cells(line: &mut String, cells: &Cells) -> Result<(), Memory> {
    for at in 0..cells.len().min(SHOWN) {
        if at > 0 {
            line.push_str(" ")?;
        }
        show_value(line, cells.get(at).unwrap_or(Value::Undef))?;
    }
    if cells.len() > SHOWN {
        write!(line, " .. {}", cells.len())?;
    }
    Ok(())
}

fn show_object(line: &mut String, object: &Object) -> Result<(), Memory> {
    line.push_str(if object.freed { "freed [" } else { "[" })?;
    show_cells(line, &object.cells)?;
    line.push_str("] ")
}

pub fn shown(alloc: Global, machine: &Machine) -> Result<String, Memory> {
    let mut line = String::new(alloc);
    for value in machine.slots.as_slice() {
        show_value(&mut line, *value)?;
        line.push_str(" ")?;
    }
    line.push_str("| ")?;
    show_objects(&mut line, machine.objects.as_slice())?;
    line.push_str("| ")?;
    show_bytes(&mut line, machine.output.as_slice())?;
    let left = machine.input.as_slice().len();
    write!(line, " | {left} | {:?}", machine.ending)?;
    Ok(line)
}

fn show_objects(line: &mut String, objects: &[Object]) -> Result<(), Memory> {
    for object in objects {
        show_object(line, object)?;
    }
    Ok(())
}

fn show_bytes(line: &mut String, bytes: &[u8]) -> Result<(), Memory> {
    for byte in bytes {
        line.push(char::from(*byte))?;
    }
    Ok(())
}

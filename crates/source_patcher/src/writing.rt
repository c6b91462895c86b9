// The text that changes make.
ghost use Rattle.std.specs.Prelude.{◌≡◌, ◌-◌, ◌++◌, IfOk, OnOk, replicate};
ghost use Rattle.std.specs.Option.{option_copied};
ghost use Rattle.source_patcher.specs.Edit.{field_name, fields_behind, free_text, freed_text, text_of, variable_name, with_changes, written};

use crate::change::{Change, Writing};
use c_tree::{FieldDef, Program, Put, Ty};
use mf_list::{Memory, Seq};
use std::alloc::Global;

fn variable_name(program: &Program, x: usize) -> &[u8]
    ensures { result.now ≡ variable_name program.now x }
{
    match program.vars.get(x) {
        Some(var) => var.name.as_slice(),
        None => &[],
    }
}

/// The fields of the struct to which a variable points.
fn fields_behind(program: &Program, x: usize) -> Option<&Seq<FieldDef>>
    ensures { option_copied result ≡ fields_behind program.now x }
{
    match program.vars.get(x)?.ty {
        Ty::StructPtr(s) => Some(&program.structs.get(s)?.fields),
        Ty::Int => None,
        Ty::IntPtr => None,
    }
}

fn field_name(program: &Program, x: usize, f: usize) -> &[u8]
    ensures { result.now ≡ field_name program.now x f }
{
    match fields_behind(program, x) {
        Some(fields) => match fields.get(f) {
            Some(field) => field.name.as_slice(),
            None => &[],
        },
        None => &[],
    }
}

fn write_freed(
    text: &mut Vec<u8>,
    program: &Program,
    x: usize,
    field: Option<usize>,
) -> Result<(), Memory>
    ensures { OnOk result (text.new.items ≡ text.old.items ++ freed_text program.now x field) }
{
    text.extend_from_slice(variable_name(program, x))?;
    match field {
        Some(f) => {
            text.extend_from_slice(b"->")?;
            text.extend_from_slice(field_name(program, x, f))
        }
        None => Ok(()),
    }
}

fn write_free(text: &mut Vec<u8>, program: &Program, put: Put) -> Result<(), Memory>
    ensures { OnOk result (text.new.items ≡ text.old.items ++ free_text (freed_text program.now put.var put.field)) }
{
    text.extend_from_slice(b" free(")?;
    write_freed(text, program, put.var, put.field)?;
    text.extend_from_slice(b"); ")
}

fn write_blanks(text: &mut Vec<u8>, count: usize) -> Result<(), Memory>
    ensures { OnOk result (text.new.items ≡ text.old.items ++ replicate count 32) }
{
    for _ in 0..count {
        text.push(b' ')?;
    }
    Ok(())
}

fn write_change(text: &mut Vec<u8>, program: &Program, change: &Change) -> Result<(), Memory>
    ensures { OnOk result (text.new.items ≡ text.old.items ++ text_of program.now change.now) }
{
    match change.writing {
        Writing::Blanks => write_blanks(text, change.end.saturating_sub(change.start)),
        Writing::Free(put) => write_free(text, program, put),
        Writing::Open => text.extend_from_slice(b" { "),
        Writing::Close => text.extend_from_slice(b" } "),
    }
}

/// The bytes with the changes made. All other bytes stay.
pub(crate) fn with_changes(
    alloc: Global,
    program: &Program,
    changes: &[Change],
    bytes: &[u8],
) -> Result<Vec<u8>, Memory>
    ensures { IfOk result (λ text. text.items ≡ with_changes program.now 0 changes.now bytes.now) }
{
    let mut text = Vec::new(alloc);
    let mut rest = bytes;
    let mut at = 0;
    for change in changes {
        let kept = change.start.saturating_sub(at).min(rest.len());
        let gone = change.end.saturating_sub(at).min(rest.len());
        let (front, _) = rest.split_at(kept);
        let (_, behind) = rest.split_at(gone);
        text.extend_from_slice(front)?;
        write_change(&mut text, program, change)?;
        rest = behind;
        at = change.end;
    }
    text.extend_from_slice(rest)?;
    Ok(text)
}

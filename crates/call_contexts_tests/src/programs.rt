// Programs that only call: a function is the list of the functions that it calls.
use c_tree::{Block, Call, FunDef, Gap, Item, Piece, Program};
use mf_list::{Memory, Seq};
use sqlite_items::Items;
use std::alloc::Global;

fn gap(alloc: Global, number: usize) -> Gap {
    Gap {
        number,
        frees: Seq::new(alloc),
    }
}

fn body(alloc: Global, callees: &[usize], numbers: &mut usize) -> Result<Block, Memory> {
    let mut items = Items::new(alloc);
    for callee in callees {
        items.push(Piece {
            gap: gap(alloc, 0),
            item: Item::Do(Call::User(*numbers, *callee, Seq::new(alloc), 0)),
            start: 0,
            end: 0,
        })?;
        *numbers = numbers.saturating_add(1);
    }
    Ok(Block {
        items,
        last_gap: gap(alloc, 0),
        braced: true,
        start: 0,
        end: 0,
    })
}

/// The calls are numbered in order; `main` is the last function.
pub fn program(alloc: Global, functions: &[&[usize]]) -> Result<Program, Memory> {
    let mut numbers = 0;
    let mut funs = Seq::new(alloc);
    for callees in functions {
        funs.push(FunDef {
            name: Seq::new(alloc),
            result: None,
            params: Seq::new(alloc),
            body: body(alloc, callees, &mut numbers)?,
            at: 0,
        })?;
    }
    Ok(Program {
        structs: Seq::new(alloc),
        vars: Seq::new(alloc),
        funs,
        main: functions.len().saturating_sub(1),
        gaps: 0,
        calls: numbers,
    })
}

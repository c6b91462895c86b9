// Copies, skeletons and fills of a program with each kind of item.
ghost use Rattle.std.specs.Prelude.{IfOk};
ghost use Rattle.c_tree.specs.Fill.{IsAscending};

use crate::sample::{empty_block, program, sample};
use c_tree::{Choice, Duplicate, Put, fill, same_skeleton, skeleton};
use mf_list::{Memory, Seq};
use std::alloc::Global;
use std::test::Fail;

/// `free(p->f); free(q);` in the gap 1, by their numbers 2, 0 and 1.
fn choice(alloc: Global) -> Result<Choice, Memory>
    ensures { IfOk result (λ choice. IsAscending choice) }
{
    let field = Put {
        gap: 1,
        var: 2,
        field: Some(0),
    };
    let variable = Put {
        gap: 1,
        var: 1,
        field: None,
    };
    let puts = Seq::from_slice(alloc, &[field, variable])?;
    Ok(Choice { puts })
}

#[test]
fn each_kind_of_item_is_copied(rt: HostRuntime) -> Result<(), Fail> {
    let alloc = rt.alloc();
    let program = sample(alloc, 7)?;
    let copy = program.duplicate(alloc)?;
    let bare = skeleton(alloc, &program)?;
    let puts = choice(alloc)?.duplicate(alloc)?;
    let filled = fill(alloc, &bare, &puts)?;
    assert!(rt; same_skeleton(&copy, &filled));
    Ok(())
}

#[test]
fn offsets_make_no_difference(rt: HostRuntime) -> Result<(), Fail> {
    let alloc = rt.alloc();
    let first = sample(alloc, 7)?;
    let second = sample(alloc, 8)?;
    assert!(rt; same_skeleton(&first, &second));
    let other = program(alloc, empty_block(alloc, 0, 7), 7)?;
    assert!(rt; !same_skeleton(&first, &other));
    Ok(())
}

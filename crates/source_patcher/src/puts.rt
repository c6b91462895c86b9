// The puts of a choice by gap.
ghost use Rattle.std.specs.Prelude.{◌≡◌, ◌+◌, ◌==◌, ◌≤◌, IfOk, IsTrue, drop, length, nat_lt, take};
ghost use Rattle.std.specs.List.{prefix_len};
ghost use Rattle.c_tree.specs.Fill.{ascends, puts_at};
ghost use Rattle.source_patcher.specs.PutsByGap.{IsStarts, of_gap};

use c_tree::{Put, puts_of};
use mf_list::{Memory, Seq};
use std::alloc::Global;
use std::marker::Model;

/// The puts of a choice, with the place of the first one that isn't before each gap.
#[derive(Debug, Drop)]
pub(crate) struct GapPuts {
    puts: Seq<Put>,
    starts: Seq<usize>,
}

impl Model for GapPuts {
    ghost use Rattle.std.specs.Prelude.{List};
    ghost use Rattle.c_tree.specs.declared.choice.Put.{Put};
    ghost use Rattle.source_patcher.specs.PutsByGap.{IsTable};

    ghost Value = { List Put };

    ghost view = { λ t. t.puts };

    ghost invariant = { λ t. IsTable t.puts t.starts };
}

/// How many puts at the front are of the gap.
fn count_of(puts: &[Put], gap: usize) -> usize
    ensures { result ≡ prefix_len (of_gap gap) puts.now }
{
    puts.iter().take_while(|put| put.gap == gap).count()
}

/// For each gap how many puts stand before it.
fn starts(alloc: Global, puts: &[Put], gaps: usize) -> Result<Seq<usize>, Memory>
    requires { IsTrue (ascends puts.now) }
    ensures { IfOk result (IsStarts puts.now) }
{
    let mut starts = Seq::new(alloc);
    let mut behind = puts;
    for gap in 0..gaps {
        starts.push(puts.len() - behind.len())?;
        let (_, rest) = behind.split_at(count_of(behind, gap));
        behind = rest;
    }
    Ok(starts)
}

impl GapPuts {
    pub(crate) fn new(alloc: Global, puts: &[Put], gaps: usize) -> Result<GapPuts, Memory>
        requires { IsTrue (ascends puts.now) }
        ensures { IfOk result (λ t. t ≡ puts.now) }
    {
        let starts = starts(alloc, puts, gaps)?;
        Ok(GapPuts {
            puts: Seq::from_slice(alloc, puts)?,
            starts,
        })
    }

    /// The puts of a gap.
    pub(crate) fn of(&self, gap: usize) -> &[Put]
        ensures { result.now ≡ puts_at self.now gap }
    {
        let puts = self.puts.as_slice();
        match self.starts.get(gap) {
            Some(start) => {
                let (_, behind) = puts.split_at(*start);
                let (front, _) = behind.split_at(count_of(behind, gap));
                front
            }
            None => puts_of(puts, gap),
        }
    }
}

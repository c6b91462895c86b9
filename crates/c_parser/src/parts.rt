// The parts of a tree that are printed alike wherever they stand, and lists of them.
ghost use Rattle.std.specs.Prelude.{◌≡◌, ◌∷◌, ◌++◌, List, OnOk, codes};
ghost use Rattle.c_lexer.specs.declared.token.Kind.{Kind};
ghost use Rattle.c_parser.specs.Printed.{mark, each, maybe, ended};

use crate::words::{COMMA, SEMICOLON};
use crate::written::Written;
use mf_list::Memory;
use std::alloc::Global;

/// A part of a tree that is printed alike wherever it stands.
pub trait Part {
    /// What is printed of it.
    ghost printed: { Self → List Kind };

    fn print(&self, alloc: Global, out: &mut Written) -> Result<(), Memory>
        ensures { OnOk result (out.new ≡ out.old ++ printed self.now) };
}

/// The part, where there is one.
pub fn print_maybe<T: Part>(
    alloc: Global,
    part: &Option<T>,
    out: &mut Written,
) -> Result<(), Memory>
    ensures { OnOk result (out.new ≡ out.old ++ maybe T.printed part.now) }
{
    match part {
        None => Ok(()),
        Some(part) => part.print(alloc, out),
    }
}

/// The parts one behind another.
pub fn print_each<T: Part>(alloc: Global, parts: &[T], out: &mut Written) -> Result<(), Memory>
    ensures { OnOk result (out.new ≡ out.old ++ each T.printed parts.now) }
{
    for part in parts {
        part.print(alloc, out)?;
    }
    Ok(())
}

/// Each part behind a comma.
pub fn print_more<T: Part>(alloc: Global, more: &[T], out: &mut Written) -> Result<(), Memory>
    ensures { OnOk result (out.new ≡ out.old ++ each (λ part. mark (codes ",") ∷ T.printed part) more.now) }
{
    for part in more {
        out.mark(COMMA)?;
        part.print(alloc, out)?;
    }
    Ok(())
}

/// The part, and a `;` behind it.
pub fn print_ended<T: Part>(alloc: Global, part: &T, out: &mut Written) -> Result<(), Memory>
    ensures { OnOk result (out.new ≡ out.old ++ ended (T.printed part.now)) }
{
    part.print(alloc, out)?;
    out.mark(SEMICOLON)
}

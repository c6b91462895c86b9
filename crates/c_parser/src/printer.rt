// Trees as tokens.
ghost use Rattle.std.specs.Prelude.{◌≡◌, IfOk};
ghost use Rattle.c_parser.specs.Answer.{IsPrintable, IsPlainest};
ghost use Rattle.c_parser.specs.Printed.{printed, tokens_of};

use crate::parts::print_each;
use crate::written::Written;
use c_lexer::Tokens;
use c_tree::tree::Tree;
use mf_list::Memory;
use std::alloc::Global;

/// The plainest tokens of a tree: each body has braces, and no parentheses stand that can be
/// spared. Offsets count tokens: token k, from 0, starts at k and ends at k + 1.
#[tactic(auto, using(crate::proofs::Prints::plainest))]
pub fn print(alloc: Global, tree: &Tree) -> Result<Tokens, Memory>
    requires { IsPrintable tree.now }
    ensures tokens { IfOk result (λ tokens. tokens ≡ tokens_of (printed tree.now)) }
    ensures plainest { IfOk result (λ tokens. IsPlainest tree.now tokens) }
{
    let mut out = Written::new(alloc);
    print_each(alloc, tree.tops.as_slice(), &mut out)?;
    Ok(out.into_tokens())
}

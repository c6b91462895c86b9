// The edited text.
ghost use Rattle.std.specs.Prelude.{◌≡◌, IfOk, List};
ghost use Rattle.c_lexer.specs.declared.token.Token.{Token};
ghost use Rattle.c_lexer.specs.Scan.{HasTokens};
ghost use Rattle.c_tree.specs.Fill.{IsAscending};
ghost use Rattle.source_patcher.specs.Edit.{IsAccepted, edited};
ghost use Rattle.source_patcher.specs.InScope.{AreInScope, HaveGaps};
ghost use Rattle.source_patcher.specs.Reads.{ReadsWithin};
ghost use Rattle.source_patcher.specs.ReadsBack.{ReadsBack};

use crate::puts::GapPuts;
use crate::walk::changes;
use crate::writing::with_changes;
use c_lexer::{LexRefusal, Token, lex};
use c_tree::{Choice, Program};
use mf_list::{Memory, Seq};
use std::alloc::{AllocError, Global};

fn tokens_of(alloc: Global, bytes: &[u8]) -> Result<Seq<Token>, Memory>
    requires { IsAccepted bytes.now }
    ensures { IfOk result (HasTokens bytes.now) }
{
    match lex(alloc, bytes) {
        Ok(tokens) => Ok(tokens.list),
        Err(LexRefusal::Memory) => Err(AllocError),
        Err(_) => unreachable!(),
    }
}

/// The text of a program with its gaps filled by a choice. In a gap that has other frees the old ones become blanks but
/// for their `;`, and the new ones are written before the next item, or at the end of the block. A body without braces
/// gets them where a free is written into one of its gaps. It takes the time of the text and of what is written.
pub fn edit(
    alloc: Global,
    bytes: &[u8],
    program: &Program,
    choice: &Choice,
) -> Result<Seq<u8>, Memory>
    requires accepted { IsAccepted bytes.now }
    requires ascending { IsAscending choice.now }
    // The tokens are those of the text, which has one list of them.
    ensures text { (tokens : List Token) → HasTokens bytes.now tokens → IfOk result (λ text. text ≡ edited bytes.now tokens program.now choice.now) }
    // Where the program was read from the text and each put is in scope at its gap, the edited text reads as the filled program.
    ensures reads { ReadsWithin bytes.now program.now → AreInScope program.now choice.now.puts → HaveGaps program.now choice.now.puts → IfOk result (λ text. ReadsBack text program.now choice.now) }
{
    let tokens = tokens_of(alloc, bytes)?;
    let puts = GapPuts::new(alloc, choice.puts.as_slice(), program.gaps)?;
    let list = changes(alloc, tokens.as_slice(), &puts, program)?;
    let text = with_changes(alloc, program, list.as_slice(), bytes)?;
    Ok(Seq::from_vec(text))
}

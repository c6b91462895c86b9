//! A text read as a program.
ghost use Rattle.std.specs.Prelude.{◌≡◌, IfOk, IfErr, Ok};
ghost use Rattle.c_lexer.specs.Outcome.{AreTokens};
ghost use Rattle.c_parser.specs.Answer.{IsAnswer as IsParsed};
ghost use Rattle.c_tree.specs.WellFormed.{IsWellFormed};
ghost use Rattle.c_tree.specs.declared.program.Program.{Program};
ghost use Rattle.c_types.specs.Program.{IsAnswer as IsResolved};
ghost use Rattle.source_patcher.specs.Reads.{HasProgram, Reads, ReadsWithin};
ghost use Rattle.memfix_engine.specs.Refusal.{RefusesSource, RefusesTokens, RefusesTree};
ghost use Rattle.memfix_engine.specs.declared.refusal.SourceRefusal.TheVariants.{Memory};

use crate::refusal::SourceRefusal;
use c_lexer::{LexRefusal, Tokens, lex};
use c_parser::{ParseRefusal, parse};
use c_tree::Program;
use c_tree::tree::Tree;
use c_types::{TypeRefusal, resolve};
use std::alloc::Global;

pub(crate) fn tokens_of(alloc: Global, bytes: &[u8]) -> Result<Tokens, SourceRefusal>
    ensures tokens { IfOk result (AreTokens bytes.now) }
    ensures refused { IfErr result (RefusesSource bytes.now) }
{
    match lex(alloc, bytes) {
        Ok(tokens) => Ok(tokens),
        Err(LexRefusal::Memory) => Err(SourceRefusal::Memory),
        Err(refusal) => Err(SourceRefusal::Lex(refusal)),
    }
}

fn tree_of(alloc: Global, tokens: &Tokens) -> Result<Tree, SourceRefusal>
    ensures tree { IfOk result (λ t. IsParsed tokens.now (Ok t)) }
    ensures refused { IfErr result (RefusesTokens tokens.now) }
{
    match parse(alloc, tokens) {
        Ok(tree) => Ok(tree),
        Err(ParseRefusal::Memory) => Err(SourceRefusal::Memory),
        Err(refusal) => Err(SourceRefusal::Parse(refusal)),
    }
}

fn resolved(alloc: Global, tree: &Tree) -> Result<Program, SourceRefusal>
    ensures program { IfOk result (λ p. IsResolved tree.now (Ok p)) }
    ensures refused { IfErr result (RefusesTree tree.now) }
{
    match resolve(alloc, tree) {
        Ok(program) => Ok(program),
        Err(TypeRefusal::Memory) => Err(SourceRefusal::Memory),
        Err(refusal) => Err(SourceRefusal::Resolve(refusal)),
    }
}

/// The program of tokens.
pub(crate) fn program_of(alloc: Global, tokens: &Tokens) -> Result<Program, SourceRefusal>
    ensures program { IfOk result (HasProgram tokens.now) }
    ensures refused { IfErr result (RefusesTokens tokens.now) }
{
    let tree = tree_of(alloc, tokens)?;
    let program = resolved(alloc, &tree)?;
    Ok(program)
}

/// Reads a text of the language.
pub fn read_source(alloc: Global, bytes: &[u8]) -> Result<Program, SourceRefusal>
    ensures reads { IfOk result (Reads bytes.now) }
    ensures within { IfOk result (ReadsWithin bytes.now) }
    ensures well_formed { IfOk result IsWellFormed }
    ensures refused { IfErr result (RefusesSource bytes.now) }
    // It is refused only where it is no such text, or for want of memory.
    ensures only { IfErr result (λ r. (r ≡ Memory → ⊥) → (p : Program) → ReadsWithin bytes.now p → ⊥) }
{
    let tokens = tokens_of(alloc, bytes)?;
    let program = program_of(alloc, &tokens)?;
    Ok(program)
}

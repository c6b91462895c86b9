// The recogniser's table: the rows for what stands in a file, and what can come next by the symbol.
ghost use Rattle.std.specs.Prelude.{◌≡◌, IfOk};
ghost use Rattle.c_parser.specs.Recogniser.{file, typedef_named, typedef, tagged, field, more_fields, more_names, more_globals, after_global, after_outer, const as constant, parameters, more_parameters, after_star, after_base, after_head, takes, may_end};

use crate::rows::{
    Row, after, after_local, after_unit, arguments, based, begun, followed, for_begun, for_start,
    for_step, for_test, more_arguments, more_locals, named, next_factor, opened, opened_name,
    opened_star, operand, otherwise, piece, pieces, returned, right, row, size, starred, unit,
    unit_within,
};
use crate::symbol::{Part, Symbol};
use crate::term::{Term, same};
use std::alloc::Global;

fn file(alloc: Global, term: Term) -> Row
    ensures { IfOk result (λ row. row ≡ file term) }
{
    match term {
        Term::Typedef => row(
            alloc,
            &[Symbol::Want(Term::Struct), Symbol::Typedef, Symbol::File],
        ),
        Term::Struct => row(
            alloc,
            &[Symbol::Want(Term::Name), Symbol::Tagged, Symbol::File],
        ),
        Term::Void => row(
            alloc,
            &[
                Symbol::Want(Term::Name),
                Symbol::Want(Term::Open),
                Symbol::Parameters,
                Symbol::AfterHead,
                Symbol::File,
            ],
        ),
        _ => based(alloc, &[Symbol::Outer, Symbol::File], term),
    }
}

fn typedef_named(alloc: Global, term: Term) -> Row
    ensures { IfOk result (λ row. row ≡ typedef_named term) }
{
    match term {
        Term::Name => row(alloc, &[Symbol::Want(Term::Semicolon)]),
        Term::OpenBrace => row(
            alloc,
            &[
                Symbol::Field,
                Symbol::MoreFields,
                Symbol::Want(Term::Name),
                Symbol::Want(Term::Semicolon),
            ],
        ),
        _ => Ok(None),
    }
}

fn typedef(alloc: Global, term: Term) -> Row
    ensures { IfOk result (λ row. row ≡ typedef term) }
{
    match term {
        Term::Name => row(alloc, &[Symbol::TypedefNamed]),
        Term::OpenBrace => row(
            alloc,
            &[
                Symbol::Field,
                Symbol::MoreFields,
                Symbol::Want(Term::Name),
                Symbol::Want(Term::Semicolon),
            ],
        ),
        _ => Ok(None),
    }
}

fn tagged(alloc: Global, term: Term) -> Row
    ensures { IfOk result (λ row. row ≡ tagged term) }
{
    match term {
        Term::Semicolon => row(alloc, &[]),
        Term::OpenBrace => row(
            alloc,
            &[
                Symbol::Field,
                Symbol::MoreFields,
                Symbol::Want(Term::Semicolon),
            ],
        ),
        _ => starred(alloc, &[Symbol::AfterOuter], term),
    }
}

fn field(alloc: Global, term: Term) -> Row
    ensures { IfOk result (λ row. row ≡ field term) }
{
    based(alloc, &[Symbol::StarredName, Symbol::MoreNames], term)
}

fn more_fields(alloc: Global, term: Term) -> Row
    ensures { IfOk result (λ row. row ≡ more_fields term) }
{
    match term {
        Term::CloseBrace => row(alloc, &[]),
        _ => followed(field(alloc, term)?, &[Symbol::MoreFields]),
    }
}

fn more_names(alloc: Global, term: Term) -> Row
    ensures { IfOk result (λ row. row ≡ more_names term) }
{
    match term {
        Term::Comma => row(alloc, &[Symbol::StarredName, Symbol::MoreNames]),
        Term::Semicolon => row(alloc, &[]),
        _ => Ok(None),
    }
}

fn more_globals(alloc: Global, term: Term) -> Row
    ensures { IfOk result (λ row. row ≡ more_globals term) }
{
    match term {
        Term::Comma => row(alloc, &[Symbol::Global]),
        Term::Semicolon => row(alloc, &[]),
        _ => Ok(None),
    }
}

fn after_global(alloc: Global, term: Term) -> Row
    ensures { IfOk result (λ row. row ≡ after_global term) }
{
    match term {
        Term::Put => row(alloc, &[Symbol::Const, Symbol::MoreGlobals]),
        _ => more_globals(alloc, term),
    }
}

fn after_outer(alloc: Global, term: Term) -> Row
    ensures { IfOk result (λ row. row ≡ after_outer term) }
{
    match term {
        Term::Open => row(alloc, &[Symbol::Parameters, Symbol::AfterHead]),
        _ => after_global(alloc, term),
    }
}

fn constant(alloc: Global, term: Term) -> Row
    ensures { IfOk result (λ row. row ≡ constant term) }
{
    match term {
        Term::Minus => row(alloc, &[Symbol::Want(Term::Number)]),
        Term::Number => row(alloc, &[]),
        Term::Null => row(alloc, &[]),
        Term::Eof => row(alloc, &[]),
        _ => Ok(None),
    }
}

fn parameters(alloc: Global, term: Term) -> Row
    ensures { IfOk result (λ row. row ≡ parameters term) }
{
    match term {
        Term::Close => row(alloc, &[]),
        Term::Void => row(alloc, &[Symbol::Want(Term::Close)]),
        _ => based(alloc, &[Symbol::AfterBase], term),
    }
}

fn more_parameters(alloc: Global, term: Term) -> Row
    ensures { IfOk result (λ row. row ≡ more_parameters term) }
{
    match term {
        Term::Comma => row(alloc, &[Symbol::Parameter]),
        Term::Close => row(alloc, &[]),
        _ => Ok(None),
    }
}

fn after_star(alloc: Global, term: Term) -> Row
    ensures { IfOk result (λ row. row ≡ after_star term) }
{
    match term {
        Term::Name => row(alloc, &[Symbol::MoreParameters]),
        _ => more_parameters(alloc, term),
    }
}

fn after_base(alloc: Global, term: Term) -> Row
    ensures { IfOk result (λ row. row ≡ after_base term) }
{
    match term {
        Term::Star => row(alloc, &[Symbol::AfterStar]),
        _ => after_star(alloc, term),
    }
}

fn after_head(alloc: Global, term: Term) -> Row
    ensures { IfOk result (λ row. row ≡ after_head term) }
{
    match term {
        Term::Semicolon => row(alloc, &[]),
        Term::OpenBrace => row(alloc, &[Symbol::Pieces]),
        _ => Ok(None),
    }
}

/// What replaces a symbol behind a token of this term.
#[tactic(auto, unfolding(crate::specs::Recogniser::takes))]
pub fn takes(alloc: Global, symbol: Symbol, term: Term) -> Row
    ensures { IfOk result (λ row. row ≡ takes symbol term) }
{
    match symbol {
        Symbol::Want(wanted) => {
            if same(wanted, term) {
                row(alloc, &[])
            } else {
                Ok(None)
            }
        }
        Symbol::Operand(part) => operand(alloc, part, term),
        Symbol::After(part) => after(alloc, part, term),
        Symbol::Right => right(alloc, term),
        Symbol::Named => named(alloc, term),
        Symbol::Opened(part) => opened(alloc, part, term),
        Symbol::OpenedName(part) => opened_name(alloc, part, term),
        Symbol::OpenedStar(part) => opened_star(alloc, part, term),
        Symbol::Arguments => arguments(alloc, term),
        Symbol::MoreArguments => more_arguments(alloc, term),
        Symbol::Size => size(alloc, term),
        Symbol::NextFactor => next_factor(alloc, term),
        Symbol::Unit => unit(alloc, term),
        Symbol::UnitWithin => unit_within(alloc, term),
        Symbol::AfterUnit => after_unit(alloc, term),
        Symbol::Local => starred(alloc, &[Symbol::AfterLocal], term),
        Symbol::AfterLocal => after_local(alloc, term),
        Symbol::MoreLocals => more_locals(alloc, term),
        Symbol::Piece => piece(alloc, term),
        Symbol::Begun => begun(alloc, term),
        Symbol::Pieces => pieces(alloc, term),
        Symbol::Otherwise => otherwise(alloc, term),
        Symbol::Returned => returned(alloc, term),
        Symbol::ForStart => for_start(alloc, term),
        Symbol::ForBegun => for_begun(alloc, term),
        Symbol::ForTest => for_test(alloc, term),
        Symbol::ForStep => for_step(alloc, term),
        Symbol::File => file(alloc, term),
        Symbol::Typedef => typedef(alloc, term),
        Symbol::TypedefNamed => typedef_named(alloc, term),
        Symbol::Tagged => tagged(alloc, term),
        Symbol::Field => field(alloc, term),
        Symbol::MoreFields => more_fields(alloc, term),
        Symbol::StarredName => starred(alloc, &[], term),
        Symbol::MoreNames => more_names(alloc, term),
        Symbol::Outer => starred(alloc, &[Symbol::AfterOuter], term),
        Symbol::AfterOuter => after_outer(alloc, term),
        Symbol::Global => starred(alloc, &[Symbol::AfterGlobal], term),
        Symbol::AfterGlobal => after_global(alloc, term),
        Symbol::MoreGlobals => more_globals(alloc, term),
        Symbol::Const => constant(alloc, term),
        Symbol::Parameters => parameters(alloc, term),
        Symbol::Parameter => based(alloc, &[Symbol::AfterBase], term),
        Symbol::AfterBase => after_base(alloc, term),
        Symbol::AfterStar => after_star(alloc, term),
        Symbol::MoreParameters => more_parameters(alloc, term),
        Symbol::AfterHead => after_head(alloc, term),
    }
}

/// Whether nothing may stand for a symbol.
#[tactic(auto, unfolding(crate::specs::Recogniser::may_end))]
pub fn may_end(symbol: Symbol) -> bool
    ensures { result ≡ may_end symbol }
{
    match symbol {
        Symbol::After(Part::Whole) => true,
        Symbol::After(Part::Factor) => true,
        Symbol::Named => true,
        Symbol::AfterUnit => true,
        Symbol::Otherwise => true,
        Symbol::File => true,
        _ => false,
    }
}

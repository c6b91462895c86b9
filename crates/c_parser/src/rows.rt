// The rows of the recogniser's table for what stands in functions: what can come next in expressions, calls and
// statements.
ghost use Rattle.std.specs.Prelude.{◌≡◌, Some, IfOk};
ghost use Rattle.c_parser.specs.Recogniser.{followed, grouped, based, starred, operand, binary, counted, changed, stepped, operator, after, called, right, named, opened, opened_name, opened_star, arguments, more_arguments, size, next_factor, unit, unit_within, after_unit, more_locals, after_local, simple, piece, for_begun, begun, pieces, otherwise, returned, for_start, for_test, for_step};

use crate::front::Front;
use crate::symbol::{Part, Symbol};
use crate::term::Term;
use mf_list::Memory;
use std::alloc::Global;

/// What replaces a symbol behind a token, or that the token doesn't begin it.
pub type Row = Result<Option<Front>, Memory>;

pub fn row(alloc: Global, front: &[Symbol]) -> Row
    ensures { IfOk result (λ row. row ≡ Some front.now) }
{
    Ok(Some(Front::from_slice(alloc, front)?))
}

/// A row with more behind it.
pub fn followed(row: Option<Front>, behind: &[Symbol]) -> Row
    ensures { IfOk result (λ longer. longer ≡ followed row behind.now) }
{
    match row {
        None => Ok(None),
        Some(front) => {
            let mut front = front;
            front.extend(behind)?;
            Ok(Some(front))
        }
    }
}

/// The rest of a group that begins an operand.
fn grouped(part: Part, row: Option<Front>) -> Row
    ensures { IfOk result (λ longer. longer ≡ grouped part row) }
{
    followed(row, &[Symbol::Want(Term::Close), Symbol::After(part)])
}

/// A base with what stands behind it.
pub fn based(alloc: Global, behind: &[Symbol], term: Term) -> Row
    ensures { IfOk result (λ row. row ≡ based behind.now term) }
{
    match term {
        Term::Int => row(alloc, behind),
        Term::Struct => followed(row(alloc, &[Symbol::Want(Term::Name)])?, behind),
        Term::Name => row(alloc, behind),
        _ => Ok(None),
    }
}

/// A name, with a star or without, with what stands behind it.
pub fn starred(alloc: Global, behind: &[Symbol], term: Term) -> Row
    ensures { IfOk result (λ row. row ≡ starred behind.now term) }
{
    match term {
        Term::Star => followed(row(alloc, &[Symbol::Want(Term::Name)])?, behind),
        Term::Name => row(alloc, behind),
        _ => Ok(None),
    }
}

pub fn operand(alloc: Global, part: Part, term: Term) -> Row
    ensures { IfOk result (λ row. row ≡ operand part term) }
{
    match term {
        Term::Number => row(alloc, &[Symbol::After(part)]),
        Term::Null => row(alloc, &[Symbol::After(part)]),
        Term::Eof => row(alloc, &[Symbol::After(part)]),
        Term::Name => row(alloc, &[Symbol::After(part)]),
        Term::Open => row(
            alloc,
            &[
                Symbol::Operand(Part::Whole),
                Symbol::Want(Term::Close),
                Symbol::After(part),
            ],
        ),
        Term::Minus => row(alloc, &[Symbol::Operand(part)]),
        Term::Not => row(alloc, &[Symbol::Operand(part)]),
        Term::Star => row(alloc, &[Symbol::Operand(part)]),
        _ => Ok(None),
    }
}

/// The binary operators behind an operand of an expr.
fn binary(alloc: Global, term: Term) -> Row
    ensures { IfOk result (λ row. row ≡ binary term) }
{
    match term {
        Term::Star => row(alloc, &[Symbol::Operand(Part::Whole)]),
        Term::Slash => row(alloc, &[Symbol::Operand(Part::Whole)]),
        Term::Percent => row(alloc, &[Symbol::Operand(Part::Whole)]),
        Term::Plus => row(alloc, &[Symbol::Operand(Part::Whole)]),
        Term::Minus => row(alloc, &[Symbol::Operand(Part::Whole)]),
        Term::Less => row(alloc, &[Symbol::Operand(Part::Whole)]),
        Term::AtMost => row(alloc, &[Symbol::Operand(Part::Whole)]),
        Term::Greater => row(alloc, &[Symbol::Operand(Part::Whole)]),
        Term::AtLeast => row(alloc, &[Symbol::Operand(Part::Whole)]),
        Term::Equals => row(alloc, &[Symbol::Operand(Part::Whole)]),
        Term::Differs => row(alloc, &[Symbol::Operand(Part::Whole)]),
        Term::AndAnd => row(alloc, &[Symbol::Operand(Part::Whole)]),
        Term::OrOr => row(alloc, &[Symbol::Operand(Part::Whole)]),
        _ => Ok(None),
    }
}

/// The operators of products behind an operand of a count.
fn counted(alloc: Global, term: Term) -> Row
    ensures { IfOk result (λ row. row ≡ counted term) }
{
    match term {
        Term::Star => row(alloc, &[Symbol::NextFactor]),
        Term::Slash => row(alloc, &[Symbol::Operand(Part::Count)]),
        Term::Percent => row(alloc, &[Symbol::Operand(Part::Count)]),
        _ => Ok(None),
    }
}

/// What changes a place.
fn changed(alloc: Global, term: Term) -> Row
    ensures { IfOk result (λ row. row ≡ changed term) }
{
    match term {
        Term::Put => row(alloc, &[Symbol::Right]),
        Term::PlusPut => row(alloc, &[Symbol::Operand(Part::Whole)]),
        Term::MinusPut => row(alloc, &[Symbol::Operand(Part::Whole)]),
        Term::StarPut => row(alloc, &[Symbol::Operand(Part::Whole)]),
        _ => Ok(None),
    }
}

/// And a post besides.
fn stepped(alloc: Global, term: Term) -> Row
    ensures { IfOk result (λ row. row ≡ stepped term) }
{
    match term {
        Term::PlusPlus => row(alloc, &[]),
        Term::MinusMinus => row(alloc, &[]),
        _ => changed(alloc, term),
    }
}

fn operator(alloc: Global, part: Part, term: Term) -> Row
    ensures { IfOk result (λ row. row ≡ operator part term) }
{
    match part {
        Part::Whole => binary(alloc, term),
        Part::Factor => Ok(None),
        Part::Count => counted(alloc, term),
        Part::Target => stepped(alloc, term),
        Part::Pointed => changed(alloc, term),
    }
}

pub fn after(alloc: Global, part: Part, term: Term) -> Row
    ensures { IfOk result (λ row. row ≡ after part term) }
{
    match term {
        Term::Arrow => row(alloc, &[Symbol::Want(Term::Name), Symbol::After(part)]),
        Term::OpenIndex => row(
            alloc,
            &[
                Symbol::Operand(Part::Whole),
                Symbol::Want(Term::CloseIndex),
                Symbol::After(part),
            ],
        ),
        _ => operator(alloc, part, term),
    }
}

/// Calls that begin with a word.
fn called(alloc: Global, term: Term) -> Row
    ensures { IfOk result (λ row. row ≡ called term) }
{
    match term {
        Term::Getchar => row(
            alloc,
            &[Symbol::Want(Term::Open), Symbol::Want(Term::Close)],
        ),
        Term::Putchar => row(
            alloc,
            &[
                Symbol::Want(Term::Open),
                Symbol::Operand(Part::Whole),
                Symbol::Want(Term::Close),
            ],
        ),
        Term::Printf => row(
            alloc,
            &[
                Symbol::Want(Term::Open),
                Symbol::Want(Term::Text),
                Symbol::MoreArguments,
            ],
        ),
        Term::Malloc => row(
            alloc,
            &[
                Symbol::Want(Term::Open),
                Symbol::Size,
                Symbol::Want(Term::Close),
            ],
        ),
        _ => Ok(None),
    }
}

pub fn right(alloc: Global, term: Term) -> Row
    ensures { IfOk result (λ row. row ≡ right term) }
{
    match term {
        Term::Name => row(alloc, &[Symbol::Named]),
        Term::Open => row(alloc, &[Symbol::Opened(Part::Whole)]),
        Term::Getchar => called(alloc, Term::Getchar),
        Term::Putchar => called(alloc, Term::Putchar),
        Term::Printf => called(alloc, Term::Printf),
        Term::Malloc => called(alloc, Term::Malloc),
        _ => operand(alloc, Part::Whole, term),
    }
}

pub fn named(alloc: Global, term: Term) -> Row
    ensures { IfOk result (λ row. row ≡ named term) }
{
    match term {
        Term::Open => row(alloc, &[Symbol::Arguments]),
        _ => after(alloc, Part::Whole, term),
    }
}

pub fn opened(alloc: Global, part: Part, term: Term) -> Row
    ensures { IfOk result (λ row. row ≡ opened part term) }
{
    match term {
        Term::Int => row(
            alloc,
            &[
                Symbol::Want(Term::Star),
                Symbol::Want(Term::Close),
                Symbol::Want(Term::Malloc),
                Symbol::Want(Term::Open),
                Symbol::Size,
                Symbol::Want(Term::Close),
            ],
        ),
        Term::Struct => row(
            alloc,
            &[
                Symbol::Want(Term::Name),
                Symbol::Want(Term::Star),
                Symbol::Want(Term::Close),
                Symbol::Want(Term::Malloc),
                Symbol::Want(Term::Open),
                Symbol::Size,
                Symbol::Want(Term::Close),
            ],
        ),
        Term::Name => row(alloc, &[Symbol::OpenedName(part)]),
        _ => grouped(part, operand(alloc, Part::Whole, term)?),
    }
}

pub fn opened_name(alloc: Global, part: Part, term: Term) -> Row
    ensures { IfOk result (λ row. row ≡ opened_name part term) }
{
    match term {
        Term::Star => row(alloc, &[Symbol::OpenedStar(part)]),
        Term::Close => row(alloc, &[Symbol::After(part)]),
        _ => grouped(part, after(alloc, Part::Whole, term)?),
    }
}

pub fn opened_star(alloc: Global, part: Part, term: Term) -> Row
    ensures { IfOk result (λ row. row ≡ opened_star part term) }
{
    match term {
        Term::Close => row(
            alloc,
            &[
                Symbol::Want(Term::Malloc),
                Symbol::Want(Term::Open),
                Symbol::Size,
                Symbol::Want(Term::Close),
            ],
        ),
        _ => grouped(part, operand(alloc, Part::Whole, term)?),
    }
}

pub fn arguments(alloc: Global, term: Term) -> Row
    ensures { IfOk result (λ row. row ≡ arguments term) }
{
    match term {
        Term::Close => row(alloc, &[]),
        _ => followed(operand(alloc, Part::Whole, term)?, &[Symbol::MoreArguments]),
    }
}

pub fn more_arguments(alloc: Global, term: Term) -> Row
    ensures { IfOk result (λ row. row ≡ more_arguments term) }
{
    match term {
        Term::Close => row(alloc, &[]),
        Term::Comma => row(
            alloc,
            &[Symbol::Operand(Part::Whole), Symbol::MoreArguments],
        ),
        _ => Ok(None),
    }
}

pub fn size(alloc: Global, term: Term) -> Row
    ensures { IfOk result (λ row. row ≡ size term) }
{
    match term {
        Term::Sizeof => row(alloc, &[Symbol::Unit, Symbol::AfterUnit]),
        _ => operand(alloc, Part::Count, term),
    }
}

pub fn next_factor(alloc: Global, term: Term) -> Row
    ensures { IfOk result (λ row. row ≡ next_factor term) }
{
    match term {
        Term::Sizeof => row(alloc, &[Symbol::Unit]),
        _ => operand(alloc, Part::Count, term),
    }
}

pub fn unit(alloc: Global, term: Term) -> Row
    ensures { IfOk result (λ row. row ≡ unit term) }
{
    match term {
        Term::Open => row(alloc, &[Symbol::UnitWithin]),
        Term::Star => row(alloc, &[Symbol::Want(Term::Name)]),
        _ => Ok(None),
    }
}

pub fn unit_within(alloc: Global, term: Term) -> Row
    ensures { IfOk result (λ row. row ≡ unit_within term) }
{
    match term {
        Term::Int => row(alloc, &[Symbol::Want(Term::Close)]),
        Term::Name => row(alloc, &[Symbol::Want(Term::Close)]),
        Term::Struct => row(
            alloc,
            &[Symbol::Want(Term::Name), Symbol::Want(Term::Close)],
        ),
        Term::Star => row(
            alloc,
            &[Symbol::Want(Term::Name), Symbol::Want(Term::Close)],
        ),
        _ => Ok(None),
    }
}

pub fn after_unit(alloc: Global, term: Term) -> Row
    ensures { IfOk result (λ row. row ≡ after_unit term) }
{
    match term {
        Term::Star => row(alloc, &[Symbol::Operand(Part::Factor)]),
        _ => Ok(None),
    }
}

pub fn more_locals(alloc: Global, term: Term) -> Row
    ensures { IfOk result (λ row. row ≡ more_locals term) }
{
    match term {
        Term::Comma => row(alloc, &[Symbol::Local]),
        Term::Semicolon => row(alloc, &[]),
        _ => Ok(None),
    }
}

pub fn after_local(alloc: Global, term: Term) -> Row
    ensures { IfOk result (λ row. row ≡ after_local term) }
{
    match term {
        Term::Put => row(alloc, &[Symbol::Right, Symbol::MoreLocals]),
        _ => more_locals(alloc, term),
    }
}

/// An assignment that doesn't begin with a name or `(`.
fn simple(alloc: Global, term: Term) -> Row
    ensures { IfOk result (λ row. row ≡ simple term) }
{
    match term {
        Term::Number => row(alloc, &[Symbol::After(Part::Target)]),
        Term::Null => row(alloc, &[Symbol::After(Part::Target)]),
        Term::Eof => row(alloc, &[Symbol::After(Part::Target)]),
        Term::Star => row(alloc, &[Symbol::Operand(Part::Pointed)]),
        Term::PlusPlus => row(alloc, &[Symbol::Operand(Part::Factor)]),
        Term::MinusMinus => row(alloc, &[Symbol::Operand(Part::Factor)]),
        _ => Ok(None),
    }
}

pub fn piece(alloc: Global, term: Term) -> Row
    ensures { IfOk result (λ row. row ≡ piece term) }
{
    match term {
        Term::Semicolon => row(alloc, &[]),
        Term::Free => row(
            alloc,
            &[
                Symbol::Want(Term::Open),
                Symbol::Operand(Part::Whole),
                Symbol::Want(Term::Close),
                Symbol::Want(Term::Semicolon),
            ],
        ),
        Term::OpenBrace => row(alloc, &[Symbol::Pieces]),
        Term::If => row(
            alloc,
            &[
                Symbol::Want(Term::Open),
                Symbol::Operand(Part::Whole),
                Symbol::Want(Term::Close),
                Symbol::Piece,
                Symbol::Otherwise,
            ],
        ),
        Term::While => row(
            alloc,
            &[
                Symbol::Want(Term::Open),
                Symbol::Operand(Part::Whole),
                Symbol::Want(Term::Close),
                Symbol::Piece,
            ],
        ),
        Term::For => row(
            alloc,
            &[
                Symbol::Want(Term::Open),
                Symbol::ForStart,
                Symbol::ForTest,
                Symbol::ForStep,
                Symbol::Piece,
            ],
        ),
        Term::Break => row(alloc, &[Symbol::Want(Term::Semicolon)]),
        Term::Continue => row(alloc, &[Symbol::Want(Term::Semicolon)]),
        Term::Return => row(alloc, &[Symbol::Returned]),
        Term::Int => row(alloc, &[Symbol::Local]),
        Term::Struct => row(alloc, &[Symbol::Want(Term::Name), Symbol::Local]),
        Term::Name => row(alloc, &[Symbol::Begun]),
        Term::Open => row(
            alloc,
            &[Symbol::Opened(Part::Target), Symbol::Want(Term::Semicolon)],
        ),
        Term::Getchar => followed(
            called(alloc, Term::Getchar)?,
            &[Symbol::Want(Term::Semicolon)],
        ),
        Term::Putchar => followed(
            called(alloc, Term::Putchar)?,
            &[Symbol::Want(Term::Semicolon)],
        ),
        Term::Printf => followed(
            called(alloc, Term::Printf)?,
            &[Symbol::Want(Term::Semicolon)],
        ),
        Term::Malloc => followed(
            called(alloc, Term::Malloc)?,
            &[Symbol::Want(Term::Semicolon)],
        ),
        _ => followed(simple(alloc, term)?, &[Symbol::Want(Term::Semicolon)]),
    }
}

pub fn for_begun(alloc: Global, term: Term) -> Row
    ensures { IfOk result (λ row. row ≡ for_begun term) }
{
    match term {
        Term::Name => row(alloc, &[Symbol::AfterLocal]),
        Term::Star => row(alloc, &[Symbol::Want(Term::Name), Symbol::AfterLocal]),
        _ => followed(
            after(alloc, Part::Target, term)?,
            &[Symbol::Want(Term::Semicolon)],
        ),
    }
}

pub fn begun(alloc: Global, term: Term) -> Row
    ensures { IfOk result (λ row. row ≡ begun term) }
{
    match term {
        Term::Open => row(alloc, &[Symbol::Arguments, Symbol::Want(Term::Semicolon)]),
        _ => for_begun(alloc, term),
    }
}

pub fn pieces(alloc: Global, term: Term) -> Row
    ensures { IfOk result (λ row. row ≡ pieces term) }
{
    match term {
        Term::CloseBrace => row(alloc, &[]),
        _ => followed(piece(alloc, term)?, &[Symbol::Pieces]),
    }
}

pub fn otherwise(alloc: Global, term: Term) -> Row
    ensures { IfOk result (λ row. row ≡ otherwise term) }
{
    match term {
        Term::Else => row(alloc, &[Symbol::Piece]),
        _ => Ok(None),
    }
}

pub fn returned(alloc: Global, term: Term) -> Row
    ensures { IfOk result (λ row. row ≡ returned term) }
{
    match term {
        Term::Semicolon => row(alloc, &[]),
        _ => followed(right(alloc, term)?, &[Symbol::Want(Term::Semicolon)]),
    }
}

pub fn for_start(alloc: Global, term: Term) -> Row
    ensures { IfOk result (λ row. row ≡ for_start term) }
{
    match term {
        Term::Semicolon => row(alloc, &[]),
        Term::Int => row(alloc, &[Symbol::Local]),
        Term::Struct => row(alloc, &[Symbol::Want(Term::Name), Symbol::Local]),
        Term::Name => row(alloc, &[Symbol::ForBegun]),
        Term::Open => row(
            alloc,
            &[
                Symbol::Operand(Part::Whole),
                Symbol::Want(Term::Close),
                Symbol::After(Part::Target),
                Symbol::Want(Term::Semicolon),
            ],
        ),
        _ => followed(simple(alloc, term)?, &[Symbol::Want(Term::Semicolon)]),
    }
}

pub fn for_test(alloc: Global, term: Term) -> Row
    ensures { IfOk result (λ row. row ≡ for_test term) }
{
    match term {
        Term::Semicolon => row(alloc, &[]),
        _ => followed(
            operand(alloc, Part::Whole, term)?,
            &[Symbol::Want(Term::Semicolon)],
        ),
    }
}

pub fn for_step(alloc: Global, term: Term) -> Row
    ensures { IfOk result (λ row. row ≡ for_step term) }
{
    match term {
        Term::Close => row(alloc, &[]),
        Term::Name => row(
            alloc,
            &[Symbol::After(Part::Target), Symbol::Want(Term::Close)],
        ),
        Term::Open => row(
            alloc,
            &[
                Symbol::Operand(Part::Whole),
                Symbol::Want(Term::Close),
                Symbol::After(Part::Target),
                Symbol::Want(Term::Close),
            ],
        ),
        _ => followed(simple(alloc, term)?, &[Symbol::Want(Term::Close)]),
    }
}

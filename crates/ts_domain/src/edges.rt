// What goes over an edge does to pointers: tests, calls, and the actions of all nodes.
ghost use Rattle.std.specs.Prelude.{◌≡◌, ◌++◌, [], ◌∷◌, slice_get, IfOk, OnOk};
ghost use Rattle.ts_domain.specs.Deeds.{action_deeds, bound, bound_argument, bound_arguments, call_deeds, comparison_said, equal_said, equality_said, null_said, pair_said, said, test_deeds, tested};
ghost use Rattle.ts_domain.specs.Looks.{pointer_of};

use crate::deed::{Deed, Looked, Saying, Source};
use crate::deeds::{
    is_null, looked_at, malloc_deeds, notes, place_deeds, print_deeds, return_deeds, sets,
    simple_deeds, valued,
};
use crate::looks::{itself, pointer_of, value_deeds, within};
use crate::names::{Names, Read};
use crate::pointers::{Pointer, place_of};
use c_graph::{Action, Way};
use c_tree::{Expr, Oper};
use mf_list::{Memory, Seq};
use std::alloc::Global;

/// The pointer of a test is the null pointer, or isn't.
fn null_said(list: &mut Seq<Deed>, is_null: bool, pointer: Option<Pointer>) -> Result<(), Memory>
    ensures { OnOk result (list.new ≡ list.old ++ null_said is_null pointer) }
{
    match pointer {
        None => Ok(()),
        Some(pointer) => match pointer.read {
            Read::Deep(_, _) => Ok(()),
            Read::Name(place) => {
                if is_null {
                    list.push(Deed::Says(Saying::IsNull(place)))
                } else {
                    list.push(Deed::Says(Saying::IsntNull(place)))
                }
            }
        },
    }
}

fn equal_said(list: &mut Seq<Deed>, equal: bool, left: Looked, right: Looked) -> Result<(), Memory>
    ensures { OnOk result (list.new ≡ list.old ++ equal_said equal left right ∷ []) }
{
    if equal {
        list.push(Deed::Says(Saying::AreEqual(left, right)))
    } else {
        list.push(Deed::Says(Saying::Differ(left, right)))
    }
}

/// The two pointers of a comparison, the second behind the reads of the first.
fn pair_said(
    alloc: Global,
    list: &mut Seq<Deed>,
    names: &Names,
    equal: bool,
    left: &Expr,
    right: &Expr,
) -> Result<(), Memory>
    ensures { OnOk result (list.new ≡ list.old ++ pair_said names.now equal left.now right.now (pointer_of names.now left.now) (pointer_of names.now right.now)) }
{
    let Some(first) = pointer_of(names, left) else {
        return Ok(());
    };
    let Some(second) = pointer_of(names, right) else {
        return Ok(());
    };
    let mut reads = Seq::new(alloc);
    within(&mut reads, names, left)?;
    let found = looked_at(notes(reads.as_slice()), first.read);
    itself(&mut reads, true, Some(first))?;
    within(&mut reads, names, right)?;
    let against = looked_at(notes(reads.as_slice()), second.read);
    equal_said(list, equal, found, against)
}

fn equality_said(
    alloc: Global,
    list: &mut Seq<Deed>,
    names: &Names,
    equal: bool,
    left: &Expr,
    right: &Expr,
) -> Result<(), Memory>
    ensures { OnOk result (list.new ≡ list.old ++ equality_said names.now equal left.now right.now) }
{
    if is_null(right) {
        return null_said(list, equal, pointer_of(names, left));
    }
    if is_null(left) {
        return null_said(list, equal, pointer_of(names, right));
    }
    pair_said(alloc, list, names, equal, left, right)
}

fn comparison_said(
    alloc: Global,
    list: &mut Seq<Deed>,
    names: &Names,
    says: bool,
    oper: Oper,
    left: &Expr,
    right: &Expr,
) -> Result<(), Memory>
    ensures { OnOk result (list.new ≡ list.old ++ comparison_said names.now says oper left.now right.now) }
{
    match oper {
        Oper::Eq => equality_said(alloc, list, names, says, left, right),
        Oper::Ne => equality_said(alloc, list, names, !says, left, right),
        Oper::Mul
        | Oper::Div
        | Oper::Rem
        | Oper::Add
        | Oper::Sub
        | Oper::Lt
        | Oper::Le
        | Oper::Gt
        | Oper::Ge
        | Oper::And
        | Oper::Or => Ok(()),
    }
}

/// What a test says of pointers where it says `says` (C99 6.8.4.1p2).
fn tested(
    alloc: Global,
    list: &mut Seq<Deed>,
    names: &Names,
    says: bool,
    test: &Expr,
) -> Result<(), Memory>
    ensures { OnOk result (list.new ≡ list.old ++ tested names.now says test.now) }
{
    match test {
        Expr::Binary(oper, left, right, _) => {
            comparison_said(alloc, list, names, says, *oper, left.get(), right.get())
        }
        Expr::Var(_, _) => null_said(list, !says, pointer_of(names, test)),
        Expr::Field(_, _, _) => null_said(list, !says, pointer_of(names, test)),
        Expr::Const(_, _) => Ok(()),
        Expr::Null(_) => Ok(()),
        Expr::Deref(_, _) => Ok(()),
        Expr::Index(_, _, _) => Ok(()),
        Expr::Unary(_, _, _) => Ok(()),
    }
}

fn said(
    alloc: Global,
    list: &mut Seq<Deed>,
    names: &Names,
    way: Way,
    test: &Expr,
) -> Result<(), Memory>
    ensures { OnOk result (list.new ≡ list.old ++ said names.now way test.now) }
{
    match way {
        Way::True => tested(alloc, list, names, true, test),
        Way::False => tested(alloc, list, names, false, test),
        Way::On => Ok(()),
        Way::Made => Ok(()),
        Way::NotMade => Ok(()),
        Way::Enter => Ok(()),
        Way::Leave(_) => Ok(()),
    }
}

fn test_deeds(alloc: Global, names: &Names, way: Way, test: &Expr) -> Result<Seq<Deed>, Memory>
    ensures { IfOk result (λ list. list ≡ test_deeds names.now way test.now) }
{
    let mut list = Seq::new(alloc);
    value_deeds(&mut list, names, false, test)?;
    said(alloc, &mut list, names, way, test)?;
    Ok(list)
}

fn bound(list: &mut Seq<Deed>, place: Option<usize>, source: Option<Source>) -> Result<(), Memory>
    ensures { OnOk result (list.new ≡ list.old ++ bound place source) }
{
    match source {
        None => Ok(()),
        Some(source) => sets(list, place, source),
    }
}

fn parameter_at(parameters: &[usize], place: usize) -> Option<usize>
    ensures { result ≡ slice_get parameters.now place }
{
    parameters.get(place).copied()
}

/// The reads of the arguments so far, and the writes of their parameters.
#[derive(Debug, Drop)]
pub struct Binding {
    pub reads: Seq<Deed>,
    pub writes: Seq<Deed>,
}

impl Binding {
    fn argument(&mut self, names: &Names, parameter: usize, argument: &Expr) -> Result<(), Memory>
        ensures { OnOk result (self.new ≡ bound_argument names.now self.old (parameter, argument.now)) }
    {
        let place = place_of(names, parameter);
        let source = valued(&mut self.reads, names, place.is_some(), argument)?;
        bound(&mut self.writes, place, source)
    }

    fn arguments(
        &mut self,
        names: &Names,
        parameters: &[usize],
        arguments: &Seq<Expr>,
    ) -> Result<(), Memory>
        ensures { OnOk result (self.new ≡ bound_arguments names.now self.old parameters.now arguments.now) }
    {
        for place in 0..arguments.len() {
            match parameter_at(parameters, place) {
                None => return Ok(()),
                Some(parameter) => self.argument(names, parameter, arguments.at(place))?,
            }
        }
        Ok(())
    }
}

/// Into a function with these parameters: the arguments in order, and then the parameters in order.
fn call_deeds(
    alloc: Global,
    names: &Names,
    parameters: &[usize],
    arguments: &Seq<Expr>,
) -> Result<Seq<Deed>, Memory>
    ensures { IfOk result (λ list. list ≡ call_deeds names.now parameters.now arguments.now) }
{
    let mut binding = Binding {
        reads: Seq::new(alloc),
        writes: Seq::new(alloc),
    };
    binding.arguments(names, parameters, arguments)?;
    let Binding { mut reads, writes } = binding;
    reads.append(writes)?;
    Ok(reads)
}

/// What an action does to pointers over an edge of that way: with the node's site, if it makes objects, the parameters of
/// the callee, if it is a call, and the places of the pointer variables of its own function.
pub fn action_deeds(
    alloc: Global,
    names: &Names,
    site: Option<usize>,
    parameters: &[usize],
    owned: &[usize],
    way: Way,
    action: &Action,
) -> Result<Seq<Deed>, Memory>
    ensures { IfOk result (λ list. list ≡ action_deeds names.now site parameters.now owned.now way action.now) }
{
    let mut list = Seq::new(alloc);
    match action {
        Action::Unset(variable) => {
            sets(&mut list, place_of(names, *variable), Source::Undef)?;
            Ok(list)
        }
        Action::Assign(simple) => simple_deeds(alloc, names, simple),
        Action::Malloc(place, size, _) => { malloc_deeds(alloc, names, place, size, site, way) }
        Action::Getchar(place) => {
            place_deeds(&mut list, names, place)?;
            Ok(list)
        }
        Action::Putchar(value) => {
            value_deeds(&mut list, names, false, value)?;
            Ok(list)
        }
        Action::Printf(_, values) => print_deeds(alloc, names, values.as_slice()),
        Action::Test(test) => test_deeds(alloc, names, way, test),
        Action::Call(_, arguments) => { call_deeds(alloc, names, parameters, arguments) }
        Action::Return(value) => return_deeds(alloc, names, owned, value, way),
        Action::Close => return_deeds(alloc, names, owned, &None, way),
    }
}

// The rules of names and types that a text may break, and the fault that is answered.
ghost use Rattle.std.specs.Prelude.{◌≡◌, [], MatchOption};
ghost use Rattle.c_types.specs.Faults.{IsLeast, earlier, is_before, rank, refusal_of};

use crate::refusal::TypeRefusal;

/// What a text may break, in the order that decides at one offset.
#[derive(Clone, Copy, Debug, PartialEq, Eq)]
pub enum Rule {
    /// A name that isn't visible or isn't of the kind that is wanted there.
    Unknown,
    /// A name declared again in its scope.
    Twice,
    /// A declaration of a name that is visible from an outer scope.
    Hidden,
    /// 1: a type without values: a struct itself.
    NoValues,
    /// 2: a left side that is no place.
    NoPlace,
    /// 3: two types that differ.
    TypesDiffer,
    /// 4: an operator on operands that it doesn't take.
    Operands,
    /// 5: `&&` or `||` outside a condition.
    LooseLogic,
    /// 6: another number of arguments.
    ArgumentCount,
    /// 7: a text of `printf` with an unknown directive.
    Directive,
    /// 8: a request that doesn't fit its target.
    Request,
    /// 9: a value where none is, or none where one is.
    VoidValue,
    /// 10: declarations of one function that differ.
    DeclarationsDiffer,
    /// 11: a user's call assigned to what is no variable.
    CallTarget,
    /// 12: another `main`, or a call of it.
    Main,
    /// 13: a declaration without a name.
    Nameless,
    /// 14: a struct without a body so far.
    NoBody,
    /// A function with a result whose end may be reached.
    NoValue,
    /// `break` or `continue` outside a loop.
    Jump,
}

/// A broken rule and the offset at which it is broken.
#[derive(Clone, Copy, Debug, PartialEq, Eq)]
pub struct Fault {
    pub at: usize,
    pub rule: Rule,
}

impl Rule {
    fn rank(self) -> usize
        ensures { result ≡ rank self }
    {
        match self {
            Rule::Unknown => 0,
            Rule::Twice => 1,
            Rule::Hidden => 2,
            Rule::NoValues => 3,
            Rule::NoPlace => 4,
            Rule::TypesDiffer => 5,
            Rule::Operands => 6,
            Rule::LooseLogic => 7,
            Rule::ArgumentCount => 8,
            Rule::Directive => 9,
            Rule::Request => 10,
            Rule::VoidValue => 11,
            Rule::DeclarationsDiffer => 12,
            Rule::CallTarget => 13,
            Rule::Main => 14,
            Rule::Nameless => 15,
            Rule::NoBody => 16,
            Rule::NoValue => 17,
            Rule::Jump => 18,
        }
    }
}

impl Fault {
    fn is_before(self, other: Fault) -> bool
        ensures { result ≡ is_before self other }
    {
        self.at < other.at || (self.at == other.at && self.rule.rank() < other.rule.rank())
    }

    pub fn refusal(self) -> TypeRefusal
        ensures { result ≡ refusal_of self }
    {
        let at = self.at;
        match self.rule {
            Rule::Unknown => TypeRefusal::Unknown(at),
            Rule::Twice => TypeRefusal::Twice(at),
            Rule::Hidden => TypeRefusal::Hidden(at),
            Rule::NoValues => TypeRefusal::Wrong(1, at),
            Rule::NoPlace => TypeRefusal::Wrong(2, at),
            Rule::TypesDiffer => TypeRefusal::Wrong(3, at),
            Rule::Operands => TypeRefusal::Wrong(4, at),
            Rule::LooseLogic => TypeRefusal::Wrong(5, at),
            Rule::ArgumentCount => TypeRefusal::Wrong(6, at),
            Rule::Directive => TypeRefusal::Wrong(7, at),
            Rule::Request => TypeRefusal::Wrong(8, at),
            Rule::VoidValue => TypeRefusal::Wrong(9, at),
            Rule::DeclarationsDiffer => TypeRefusal::Wrong(10, at),
            Rule::CallTarget => TypeRefusal::Wrong(11, at),
            Rule::Main => TypeRefusal::Wrong(12, at),
            Rule::Nameless => TypeRefusal::Wrong(13, at),
            Rule::NoBody => TypeRefusal::Wrong(14, at),
            Rule::NoValue => TypeRefusal::NoValue(at),
            Rule::Jump => TypeRefusal::Jump(at),
        }
    }
}

fn earlier(found: Option<Fault>, fault: Fault) -> Fault
    ensures { result ≡ earlier found fault }
{
    match found {
        Some(first) if !fault.is_before(first) => first,
        _ => fault,
    }
}

/// The fault with the least offset, and at one offset the one of the rule that comes first.
pub fn least(faults: &[Fault]) -> Option<Fault>
    ensures { MatchOption result (faults.now ≡ []) (IsLeast faults.now) }
{
    let mut found = None;
    for fault in faults {
        found = Some(earlier(found, *fault));
    }
    found
}

//! Literals, clauses over them and logs.
ghost use Rattle.std.specs.Prelude.{◌≡◌, ◌<◌, ◌↔◌, IsTrue, Contains};
ghost use Rattle.sat_log.specs.Clauses.{opposite, AreBelow};
ghost use Rattle.sat_log.specs.declared.problem.Lit.{Lit};

use mf_list::Seq;

/// A variable, or where `yes` is false its negation.
#[derive(Clone, Copy, Debug, PartialEq, Eq)]
pub struct Lit {
    pub var: usize,
    pub yes: bool,
}

impl Lit {
    /// The literal that is true where this one is false.
    pub fn opposite(self) -> Lit
        ensures { result ≡ opposite self }
    {
        Lit {
            var: self.var,
            yes: !self.yes,
        }
    }
}

/// Clauses over the variables below `vars`. Bits satisfy them that make a literal of each clause true.
#[derive(Debug, Drop)]
pub struct Clauses {
    pub vars: usize,
    pub list: Seq<Seq<Lit>>,
}

/// Clauses that follow one after the other from others, up to the empty one.
#[derive(Debug, Drop)]
pub struct Log {
    pub list: Seq<Seq<Lit>>,
}

/// Whether each variable of the clause is below `vars`.
fn is_below(vars: usize, clause: &[Lit]) -> bool
    ensures { IsTrue result ↔ ((l : Lit) → Contains clause.now l → l.var < vars) }
{
    for lit in clause {
        if lit.var >= vars {
            return false;
        }
    }
    true
}

/// Whether each variable of the clauses is below `vars`.
pub fn are_below(vars: usize, list: &[Seq<Lit>]) -> bool
    ensures { IsTrue result ↔ AreBelow vars list.now }
{
    for clause in list {
        if !is_below(vars, clause.as_slice()) {
            return false;
        }
    }
    true
}

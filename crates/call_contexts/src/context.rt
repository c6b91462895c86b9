// Call strings, and their look-up.
ghost use Rattle.std.specs.Prelude.{◌≡◌, ◌<◌, ◌↔◌, None, length};
ghost use Rattle.c_tree.specs.WellFormed.{IsWellFormed};
ghost use Rattle.c_tree.specs.declared.program.Program.{Program};
ghost use Rattle.call_contexts.specs.Contexts.{HasNoneWithout, callee_of, contexts, home_of};

use mf_list::Seq;

/// A call string: the function that it leads to, and the context and the call that lead there, which `main` has not.
#[derive(Clone, Copy, Debug, PartialEq, Eq)]
pub struct Ctx {
    pub fun: usize,
    pub home: Option<(usize, usize)>,
}

/// The call strings of a program; that of `main` is 0, and each stands behind the one that calls it.
#[derive(Debug, Drop)]
pub struct Contexts {
    pub list: Seq<Ctx>,
}

/// The first context that was called from a context by a call.
fn callee_of(list: &[Ctx], ctx: usize, call: usize) -> Option<usize>
    ensures { result ≡ callee_of list.now ctx call }
{
    list.iter().position(|context| match context.home {
        None => false,
        Some((from, by)) => from == ctx && by == call,
    })
}

impl Contexts {
    /// The context that a call in context `ctx` leads to.
    pub fn callee(&self, ctx: usize, call: usize) -> Option<usize>
        ensures first { result ≡ callee_of self.now.list ctx call }
        ensures none { (p : Program) → IsWellFormed p → self.now.list ≡ contexts p → HasNoneWithout p ctx call result }
    {
        callee_of(self.list.as_slice(), ctx, call)
    }

    /// The context and the call that lead to context `ctx`.
    pub fn home(&self, ctx: usize) -> Option<(usize, usize)>
        ensures home { result ≡ home_of self.now.list ctx }
        ensures none { (p : Program) → IsWellFormed p → self.now.list ≡ contexts p → ctx < length (contexts p) → (result ≡ None ↔ ctx ≡ 0) }
    {
        match self.list.get(ctx) {
            None => None,
            Some(context) => context.home,
        }
    }
}

// Gaps, items and blocks (C99 6.8).
ghost use Rattle.std.specs.Prelude.{◌≡◌, IfOk, OnOk, length};
ghost use Rattle.c_types.specs.Blocks.{freed, in_loop, inner, looped, next_gap, scoped, test_of, walked_arm, walked_block, walked_for, walked_free, walked_gap, walked_head, walked_item, walked_piece, walked_start, walked_test, within};
ghost use Rattle.c_types.specs.Fits.{unless};
ghost use Rattle.c_types.specs.InTurn.{each, optional};
ghost use Rattle.c_types.specs.Scopes.{noted};
ghost use Rattle.c_types.specs.declared.faults.Rule.TheVariants.{Jump};
ghost use Rattle.c_types.specs.Statements.{walked_declr, walked_simple};

use crate::faults::Rule;
use crate::fits::{as_pointer, is_zero, unless};
use crate::judged::{Checked, Judged, Value};
use crate::scope::{Nesting, Walk};
use c_tree::{Arm, Block, Declr, Expr, ForHead, Free, Gap, Item, Piece, Simple, Start, tree};
use mf_list::{Memory, Seq};
use sqlite_items::Items;
use std::alloc::{AllocError, Global};

impl Nesting {
    fn within(self) -> Result<Nesting, Memory>
        ensures { IfOk result (λ n. n ≡ within self) }
    {
        match self.depth.checked_add(1) {
            Some(depth) => Ok(Nesting { depth, ..self }),
            None => Err(AllocError),
        }
    }

    fn in_loop(self) -> Result<Nesting, Memory>
        ensures { IfOk result (λ n. n ≡ in_loop self) }
    {
        match self.depth.checked_add(1) {
            Some(depth) => Ok(Nesting {
                depth,
                in_loop: true,
                ..self
            }),
            None => Err(AllocError),
        }
    }
}

/// What a `free` statement frees.
fn freed(alloc: Global, at: usize, value: Judged<Value>) -> Result<Checked<Expr>, Memory>
    ensures { IfOk result (λ c. c ≡ freed at value) }
{
    match value {
        Judged::Typed(value) => {
            let is_pointer = value.sort.points() || is_zero(&value.expr);
            let faults = unless(alloc, is_pointer, Rule::Operands, at)?;
            Ok(Checked {
                made: as_pointer(value.expr),
                faults,
            })
        }
        Judged::Broken(faults) => Ok(Checked {
            made: Expr::Null(0),
            faults,
        }),
    }
}

fn test_of(alloc: Global, value: Judged<Value>) -> Checked<Expr>
    ensures { result ≡ test_of value }
{
    match value {
        Judged::Typed(value) => Checked {
            made: value.expr,
            faults: Seq::new(alloc),
        },
        Judged::Broken(faults) => Checked {
            made: Expr::Null(0),
            faults,
        },
    }
}

impl Walk {
    fn free(&mut self, alloc: Global, free: &tree::Free) -> Result<Free, Memory>
        ensures { IfOk result (λ f. (self.new, f) ≡ walked_free free.now self.old) }
    {
        let value = self.scope.judged(alloc, &free.expr.expr, false)?;
        let Checked { made, faults } = freed(alloc, free.start, value)?;
        self.note(faults)?;
        Ok(Free {
            expr: made,
            start: free.start,
            end: free.end,
        })
    }

    fn test(&mut self, alloc: Global, test: &tree::Expr) -> Result<Expr, Memory>
        ensures { IfOk result (λ e. (self.new, e) ≡ walked_test test.now self.old) }
    {
        let value = self.scope.judged(alloc, test, true)?;
        let Checked { made, faults } = test_of(alloc, value);
        self.note(faults)?;
        Ok(made)
    }

    fn frees(&mut self, alloc: Global, frees: &[tree::Free]) -> Result<Seq<Free>, Memory>
        ensures { IfOk result (λ made. (self.new, made) ≡ each walked_free frees.now self.old) }
    {
        let mut made = Seq::new(alloc);
        for free in frees {
            made.push(self.free(alloc, free)?)?;
        }
        Ok(made)
    }

    fn next_gap(&mut self) -> Result<usize, Memory>
        ensures { IfOk result (λ n. (self.new, n) ≡ next_gap self.old) }
    {
        let number = self.gaps;
        match number.checked_add(1) {
            Some(next) => {
                self.gaps = next;
                Ok(number)
            }
            None => Err(AllocError),
        }
    }

    fn gap(&mut self, alloc: Global, gap: &tree::Gap) -> Result<Gap, Memory>
        ensures { IfOk result (λ g. (self.new, g) ≡ walked_gap gap.now self.old) }
    {
        let number = self.next_gap()?;
        let frees = self.frees(alloc, gap.frees.as_slice())?;
        Ok(Gap { number, frees })
    }

    fn declrs(
        &mut self,
        alloc: Global,
        nesting: Nesting,
        declrs: &[tree::Declr],
    ) -> Result<Seq<Declr>, Memory>
        ensures { IfOk result (λ made. (self.new, made) ≡ each (walked_declr nesting) declrs.now self.old) }
    {
        let mut made = Seq::new(alloc);
        for declr in declrs {
            made.push(self.declr(alloc, nesting, declr)?)?;
        }
        Ok(made)
    }

    fn start(
        &mut self,
        alloc: Global,
        nesting: Nesting,
        start: &tree::Start,
    ) -> Result<Start, Memory>
        ensures { IfOk result (λ s. (self.new, s) ≡ walked_start nesting start.now self.old) }
    {
        match start {
            tree::Start::Declare(declr) => Ok(Start::Declare(self.declr(alloc, nesting, declr)?)),
            tree::Start::Assign(simple) => Ok(Start::Assign(self.simple(alloc, simple)?)),
        }
    }

    fn starts(
        &mut self,
        alloc: Global,
        nesting: Nesting,
        starts: &[tree::Start],
    ) -> Result<Seq<Start>, Memory>
        ensures { IfOk result (λ made. (self.new, made) ≡ each (walked_start nesting) starts.now self.old) }
    {
        let mut made = Seq::new(alloc);
        for start in starts {
            made.push(self.start(alloc, nesting, start)?)?;
        }
        Ok(made)
    }

    fn any_test(&mut self, alloc: Global, test: &Option<tree::Expr>) -> Result<Option<Expr>, Memory>
        ensures { IfOk result (λ made. (self.new, made) ≡ optional walked_test test.now self.old) }
    {
        match test {
            None => Ok(None),
            Some(test) => Ok(Some(self.test(alloc, test)?)),
        }
    }

    fn any_simple(
        &mut self,
        alloc: Global,
        simple: &Option<tree::Simple>,
    ) -> Result<Option<Simple>, Memory>
        ensures { IfOk result (λ made. (self.new, made) ≡ optional walked_simple simple.now self.old) }
    {
        match simple {
            None => Ok(None),
            Some(simple) => Ok(Some(self.simple(alloc, simple)?)),
        }
    }

    fn head(
        &mut self,
        alloc: Global,
        nesting: Nesting,
        head: &tree::ForHead,
    ) -> Result<ForHead, Memory>
        ensures { IfOk result (λ made. (self.new, made) ≡ walked_head nesting head.now self.old) }
    {
        let start = self.starts(alloc, nesting, head.start.as_slice())?;
        let test = self.any_test(alloc, &head.test)?;
        let step = self.any_simple(alloc, &head.step)?;
        Ok(ForHead { start, test, step })
    }

    /// A `break` or `continue`.
    fn jump(&mut self, alloc: Global, at: usize, in_loop: bool) -> Result<(), Memory>
        ensures { OnOk result (self.new ≡ noted (unless in_loop Jump at) self.old) }
    {
        let faults = unless(alloc, in_loop, Rule::Jump, at)?;
        self.note(faults)
    }

    #[cycle(walks)]
    pub(crate) fn block(
        &mut self,
        alloc: Global,
        nesting: Nesting,
        block: &tree::Block,
    ) -> Result<Block, Memory>
        ensures { IfOk result (λ b. (self.new, b) ≡ walked_block block.now nesting self.old) }
    {
        let mut items = Items::new(alloc);
        let pieces = block.items.as_slice();
        for piece in pieces {
            items.push(self.piece(alloc, nesting, piece)?)?;
        }
        let last_gap = self.gap(alloc, &block.last_gap)?;
        Ok(Block {
            items,
            last_gap,
            braced: block.braced,
            start: block.start,
            end: block.end,
        })
    }

    #[cycle(walks)]
    fn piece(
        &mut self,
        alloc: Global,
        nesting: Nesting,
        piece: &tree::Piece,
    ) -> Result<Piece, Memory>
        ensures { IfOk result (λ p. (self.new, p) ≡ walked_piece piece.now nesting self.old) }
    {
        let gap = self.gap(alloc, &piece.gap)?;
        let item = self.item(alloc, piece.start, nesting, &piece.item)?;
        Ok(Piece {
            gap,
            item,
            start: piece.start,
            end: piece.end,
        })
    }

    #[cycle(walks)]
    fn item(
        &mut self,
        alloc: Global,
        at: usize,
        nesting: Nesting,
        item: &tree::Item,
    ) -> Result<Item, Memory>
        ensures { IfOk result (λ i. (self.new, i) ≡ walked_item item.now at nesting self.old) }
    {
        match item {
            tree::Item::Declare(declrs) => {
                Ok(Item::Declare(self.declrs(alloc, nesting, declrs.as_slice())?))
            }
            tree::Item::Assign(simple) => Ok(Item::Assign(self.simple(alloc, simple)?)),
            tree::Item::Do(call) => self.called(alloc, call),
            tree::Item::Nest(block) => Ok(Item::Nest(self.inner(alloc, nesting, block)?)),
            tree::Item::If(arms, last) => {
                let arms = self.arms(alloc, nesting, arms)?;
                Ok(Item::If(arms, self.last(alloc, nesting, last)?))
            }
            tree::Item::While(test, body) => {
                let test = self.test(alloc, test)?;
                Ok(Item::While(test, self.looped(alloc, nesting, body)?))
            }
            tree::Item::For(head, body) => self.for_loop(alloc, nesting, head, body),
            tree::Item::Break => {
                self.jump(alloc, at, nesting.in_loop)?;
                Ok(Item::Break)
            }
            tree::Item::Continue => {
                self.jump(alloc, at, nesting.in_loop)?;
                Ok(Item::Continue)
            }
            tree::Item::Return(right, word) => self.returned(alloc, nesting.returns, *word, right),
        }
    }

    #[cycle(walks)]
    fn inner(
        &mut self,
        alloc: Global,
        nesting: Nesting,
        block: &tree::Block,
    ) -> Result<Block, Memory>
        ensures { IfOk result (λ b. (self.new, b) ≡ inner nesting (walked_block block.now) self.old) }
    {
        let names = self.scope.names.len();
        let nesting = nesting.within()?;
        let block = self.block(alloc, nesting, block)?;
        self.close(names);
        Ok(block)
    }

    /// The body of a loop.
    #[cycle(walks)]
    fn looped(
        &mut self,
        alloc: Global,
        nesting: Nesting,
        body: &tree::Block,
    ) -> Result<Block, Memory>
        ensures { IfOk result (λ b. (self.new, b) ≡ looped nesting (walked_block body.now) self.old) }
    {
        let names = self.scope.names.len();
        let nesting = nesting.in_loop()?;
        let block = self.block(alloc, nesting, body)?;
        self.close(names);
        Ok(block)
    }

    #[cycle(walks)]
    fn for_parts(
        &mut self,
        alloc: Global,
        nesting: Nesting,
        head: &tree::ForHead,
        body: &tree::Block,
    ) -> Result<Item, Memory>
        ensures { IfOk result (λ i. (self.new, i) ≡ walked_for nesting head.now (walked_block body.now) self.old) }
    {
        let nesting = nesting.within()?;
        let head = self.head(alloc, nesting, head)?;
        let body = self.looped(alloc, nesting, body)?;
        Ok(Item::For(head, body))
    }

    #[cycle(walks)]
    fn for_loop(
        &mut self,
        alloc: Global,
        nesting: Nesting,
        head: &tree::ForHead,
        body: &tree::Block,
    ) -> Result<Item, Memory>
        ensures { IfOk result (λ i. (self.new, i) ≡ scoped (walked_for nesting head.now (walked_block body.now)) self.old) }
    {
        let names = self.scope.names.len();
        let item = self.for_parts(alloc, nesting, head, body)?;
        self.close(names);
        Ok(item)
    }

    #[cycle(walks)]
    fn arm(&mut self, alloc: Global, nesting: Nesting, arm: &tree::Arm) -> Result<Arm, Memory>
        ensures { IfOk result (λ a. (self.new, a) ≡ walked_arm arm.now nesting self.old) }
    {
        let test = self.test(alloc, &arm.test)?;
        let body = self.inner(alloc, nesting, &arm.body)?;
        Ok(Arm { test, body })
    }

    #[cycle(walks)]
    fn arms(
        &mut self,
        alloc: Global,
        nesting: Nesting,
        arms: &Items<tree::Arm>,
    ) -> Result<Items<Arm>, Memory>
        ensures { IfOk result (λ made. (self.new, made) ≡ each (λ a. walked_arm a nesting) arms.now self.old) }
    {
        let mut made = Items::new(alloc);
        let slice = arms.as_slice();
        for arm in slice {
            made.push(self.arm(alloc, nesting, arm)?)?;
        }
        Ok(made)
    }

    #[cycle(walks)]
    fn last(
        &mut self,
        alloc: Global,
        nesting: Nesting,
        last: &Option<tree::Block>,
    ) -> Result<Option<Block>, Memory>
        ensures { IfOk result (λ made. (self.new, made) ≡ optional (λ b. inner nesting (walked_block b)) last.now self.old) }
    {
        match last {
            None => Ok(None),
            Some(block) => Ok(Some(self.inner(alloc, nesting, block)?)),
        }
    }
}

// Whether two programs are alike when their gaps are emptied.
ghost use Rattle.std.specs.Prelude.{◌≡◌, ◌↔◌, IsTrue};
ghost use Rattle.c_tree.specs.Alike.{IsAlike};
ghost use Rattle.c_tree.specs.Fill.{skeleton};
ghost use Rattle.std.specs.Cmp.Lexicographic.{pointwise};
ghost use Rattle.c_tree.specs.AlikeTest.{
  alike_arm,
  alike_block,
  alike_call,
  alike_declr,
  alike_expr,
  alike_field,
  alike_fun,
  alike_head,
  alike_item,
  alike_piece,
  alike_program,
  alike_right,
  alike_simple,
  alike_size,
  alike_start,
  alike_struct,
  alike_var,
  option_alike as option_passes,
  same_home,
  same_op,
  same_oper,
  same_sign,
  same_ty,
};

use crate::expr::{Expr, Op, Oper, Sign};
use crate::program::{
    Arm, Block, Call, Declr, FieldDef, ForHead, FunDef, Home, Item, Piece, Program, Right, Simple,
    Size, Start, StructDef, Ty, VarDef,
};
use sqlite_items::Boxed;

fn is_same_op(a: Op, b: Op) -> bool
    ensures { result ≡ same_op a b }
{
    a == b
}

fn is_same_oper(a: Oper, b: Oper) -> bool
    ensures { result ≡ same_oper a b }
{
    a == b
}

fn is_same_sign(a: Sign, b: Sign) -> bool
    ensures { result ≡ same_sign a b }
{
    a == b
}

fn is_same_ty(a: Ty, b: Ty) -> bool
    ensures { result ≡ same_ty a b }
{
    a == b
}

fn is_same_home(a: Home, b: Home) -> bool
    ensures { result ≡ same_home a b }
{
    a == b
}

/// A test of whether two values are alike.
trait Alike {
    ghost use Rattle.std.specs.Prelude.{Bool};

    ghost alike: { Self → Self → Bool };

    fn is_alike(&self, other: &Self) -> bool
        ensures { result ≡ alike self.now other.now };
}

fn all_alike<T: Alike>(a: &[T], b: &[T]) -> bool
    ensures { result ≡ pointwise T.alike a.now b.now }
{
    if a.len() != b.len() {
        return false;
    }
    for i in 0..a.len() {
        if !a[i].is_alike(&b[i]) {
            return false;
        }
    }
    true
}

fn option_alike<T: Alike>(a: &Option<T>, b: &Option<T>) -> bool
    ensures { result ≡ option_passes T.alike a.now b.now }
{
    match (a, b) {
        (None, None) => true,
        (Some(x), Some(y)) => x.is_alike(y),
        _ => false,
    }
}

impl Alike for Expr {
    ghost alike = { alike_expr };

    fn is_alike(&self, other: &Expr) -> bool {
        match (self, other) {
            (Expr::Const(m, _), Expr::Const(n, _)) => *m == *n,
            (Expr::Null(_), Expr::Null(_)) => true,
            (Expr::Var(x, _), Expr::Var(y, _)) => *x == *y,
            (Expr::Field(a, f, _), Expr::Field(b, g, _)) => a.get().is_alike(b.get()) && *f == *g,
            (Expr::Deref(a, _), Expr::Deref(b, _)) => a.get().is_alike(b.get()),
            (Expr::Index(a, i, _), Expr::Index(b, j, _)) => {
                a.get().is_alike(b.get()) && i.get().is_alike(j.get())
            }
            (Expr::Unary(s, a, _), Expr::Unary(t, b, _)) => {
                is_same_sign(*s, *t) && a.get().is_alike(b.get())
            }
            (Expr::Binary(o, a, c, _), Expr::Binary(p, b, d, _)) => {
                is_same_oper(*o, *p) && a.get().is_alike(b.get()) && c.get().is_alike(d.get())
            }
            _ => false,
        }
    }
}

impl Alike for Size {
    ghost alike = { alike_size };

    fn is_alike(&self, other: &Size) -> bool {
        match (self, other) {
            (Size::Fields(s), Size::Fields(t)) => *s == *t,
            (Size::Ints(a), Size::Ints(b)) => counts_alike(a, b),
            _ => false,
        }
    }
}

fn counts_alike(a: &Option<Boxed<Expr>>, b: &Option<Boxed<Expr>>) -> bool
    ensures { result ≡ option_passes alike_expr a.now b.now }
{
    match (a, b) {
        (None, None) => true,
        (Some(x), Some(y)) => x.get().is_alike(y.get()),
        _ => false,
    }
}

impl Alike for Call {
    ghost alike = { alike_call };

    fn is_alike(&self, other: &Call) -> bool {
        match (self, other) {
            (Call::User(m, f, xs, _), Call::User(n, g, ys, _)) => {
                *m == *n && *f == *g && all_alike(xs.as_slice(), ys.as_slice())
            }
            (Call::Malloc(a, _), Call::Malloc(b, _)) => a.is_alike(b),
            (Call::Getchar(_), Call::Getchar(_)) => true,
            (Call::Putchar(a, _), Call::Putchar(b, _)) => a.is_alike(b),
            (Call::Printf(s, xs, _), Call::Printf(t, ys, _)) => {
                s.as_slice() == t.as_slice() && all_alike(xs.as_slice(), ys.as_slice())
            }
            _ => false,
        }
    }
}

impl Alike for Right {
    ghost alike = { alike_right };

    fn is_alike(&self, other: &Right) -> bool {
        match (self, other) {
            (Right::Plain(a), Right::Plain(b)) => a.is_alike(b),
            (Right::Call(a), Right::Call(b)) => a.is_alike(b),
            _ => false,
        }
    }
}

impl Alike for Declr {
    ghost alike = { alike_declr };

    fn is_alike(&self, other: &Declr) -> bool {
        self.var == other.var && option_alike(&self.right, &other.right)
    }
}

impl Alike for Simple {
    ghost alike = { alike_simple };

    fn is_alike(&self, other: &Simple) -> bool {
        self.place.is_alike(&other.place)
            && is_same_op(self.op, other.op)
            && self.right.is_alike(&other.right)
    }
}

impl Alike for Start {
    ghost alike = { alike_start };

    fn is_alike(&self, other: &Start) -> bool {
        match (self, other) {
            (Start::Declare(a), Start::Declare(b)) => a.is_alike(b),
            (Start::Assign(a), Start::Assign(b)) => a.is_alike(b),
            _ => false,
        }
    }
}

impl Alike for ForHead {
    ghost alike = { alike_head };

    fn is_alike(&self, other: &ForHead) -> bool {
        all_alike(self.start.as_slice(), other.start.as_slice())
            && option_alike(&self.test, &other.test)
            && option_alike(&self.step, &other.step)
    }
}

impl Alike for Ty {
    ghost alike = { same_ty };

    fn is_alike(&self, other: &Ty) -> bool {
        is_same_ty(*self, *other)
    }
}

impl Alike for FieldDef {
    ghost alike = { alike_field };

    fn is_alike(&self, other: &FieldDef) -> bool {
        self.name.as_slice() == other.name.as_slice() && is_same_ty(self.ty, other.ty)
    }
}

impl Alike for StructDef {
    ghost alike = { alike_struct };

    fn is_alike(&self, other: &StructDef) -> bool {
        all_alike(self.fields.as_slice(), other.fields.as_slice())
            && self.body.is_some() == other.body.is_some()
    }
}

impl Alike for VarDef {
    ghost alike = { alike_var };

    fn is_alike(&self, other: &VarDef) -> bool {
        self.name.as_slice() == other.name.as_slice()
            && is_same_ty(self.ty, other.ty)
            && is_same_home(self.home, other.home)
    }
}

#[cycle(tests)]
#[tactic(auto, using(crate::proofs::Opens::block_opens))]
fn blocks_alike(a: &Block, b: &Block) -> bool
    ensures { result ≡ alike_block a.now b.now }
{
    pieces_alike(a.items.as_slice(), b.items.as_slice()) && a.last_gap.number == b.last_gap.number
}

#[cycle(tests)]
fn pieces_alike(a: &[Piece], b: &[Piece]) -> bool
    ensures { result ≡ pointwise alike_piece a.now b.now }
{
    if a.len() != b.len() {
        return false;
    }
    for i in 0..a.len() {
        if !is_piece_alike(&a[i], &b[i]) {
            return false;
        }
    }
    true
}

#[cycle(tests)]
fn is_piece_alike(a: &Piece, b: &Piece) -> bool
    ensures { result ≡ alike_piece a.now b.now }
{
    a.gap.number == b.gap.number && items_alike(&a.item, &b.item)
}

#[cycle(tests)]
#[tactic(auto, using(crate::proofs::Opens::if_opens))]
fn items_alike(a: &Item, b: &Item) -> bool
    ensures { result ≡ alike_item a.now b.now }
{
    match (a, b) {
        (Item::Declare(ds), Item::Declare(es)) => all_alike(ds.as_slice(), es.as_slice()),
        (Item::Assign(a), Item::Assign(b)) => a.is_alike(b),
        (Item::Do(a), Item::Do(b)) => a.is_alike(b),
        (Item::Nest(a), Item::Nest(b)) => blocks_alike(a, b),
        (Item::If(arms, last), Item::If(others, final_block)) => {
            arms_alike(arms.as_slice(), others.as_slice()) && lasts_alike(last, final_block)
        }
        (Item::While(t, a), Item::While(s, b)) => t.is_alike(s) && blocks_alike(a, b),
        (Item::For(h, a), Item::For(k, b)) => h.is_alike(k) && blocks_alike(a, b),
        (Item::Break, Item::Break) => true,
        (Item::Continue, Item::Continue) => true,
        (Item::Return(a, _), Item::Return(b, _)) => option_alike(a, b),
        _ => false,
    }
}

#[cycle(tests)]
fn lasts_alike(a: &Option<Block>, b: &Option<Block>) -> bool
    ensures { result ≡ option_passes alike_block a.now b.now }
{
    match (a, b) {
        (None, None) => true,
        (Some(x), Some(y)) => blocks_alike(x, y),
        _ => false,
    }
}

#[cycle(tests)]
fn arms_alike(a: &[Arm], b: &[Arm]) -> bool
    ensures { result ≡ pointwise alike_arm a.now b.now }
{
    if a.len() != b.len() {
        return false;
    }
    for i in 0..a.len() {
        if !is_arm_alike(&a[i], &b[i]) {
            return false;
        }
    }
    true
}

#[cycle(tests)]
fn is_arm_alike(a: &Arm, b: &Arm) -> bool
    ensures { result ≡ alike_arm a.now b.now }
{
    a.test.is_alike(&b.test) && blocks_alike(&a.body, &b.body)
}

impl Alike for FunDef {
    ghost alike = { alike_fun };

    fn is_alike(&self, other: &FunDef) -> bool {
        self.name.as_slice() == other.name.as_slice()
            && option_alike(&self.result, &other.result)
            && self.params.as_slice() == other.params.as_slice()
            && blocks_alike(&self.body, &other.body)
    }
}

fn programs_alike(a: &Program, b: &Program) -> bool
    ensures { result ≡ alike_program a.now b.now }
{
    a.main == b.main
        && a.gaps == b.gaps
        && a.calls == b.calls
        && all_alike(a.structs.as_slice(), b.structs.as_slice())
        && all_alike(a.vars.as_slice(), b.vars.as_slice())
        && all_alike(a.funs.as_slice(), b.funs.as_slice())
}

/// Whether two programs are alike once the `free` statements in their gaps are taken out: equal
/// but for offsets and for whether a body has braces.
pub fn same_skeleton(a: &Program, b: &Program) -> bool
    ensures { IsTrue result ↔ IsAlike (skeleton a.now) (skeleton b.now) }
{
    programs_alike(a, b)
}

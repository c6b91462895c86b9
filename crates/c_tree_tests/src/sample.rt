// A program with each kind of item.
use c_tree::{
    Arm, Block, Call, Declr, Expr, FieldDef, ForHead, Free, FunDef, Gap, Home, Item, Op, Oper,
    Piece, Program, Right, Sign, Simple, Size, Start, StructDef, Ty, VarDef,
};
use mf_list::{Memory, Seq};
use sqlite_items::{Boxed, Items};
use std::alloc::Global;

/// `-*a[b] + (p->f == NULL)`
fn expression(alloc: Global, at: usize) -> Result<Expr, Memory> {
    let place = Boxed::new(alloc, Expr::Var(0, at))?;
    let element = Expr::Index(place, Boxed::new(alloc, Expr::Const(-1, at))?, at);
    let target = Expr::Deref(Boxed::new(alloc, element)?, at);
    let left = Boxed::new(
        alloc,
        Expr::Unary(Sign::Minus, Boxed::new(alloc, target)?, at),
    )?;
    let field = Boxed::new(alloc, field_of(alloc, 2, 0, at)?)?;
    let right = Expr::Binary(Oper::Eq, field, Boxed::new(alloc, Expr::Null(at))?, at);
    Ok(Expr::Binary(Oper::Add, left, Boxed::new(alloc, right)?, at))
}

fn field_of(alloc: Global, var: usize, field: usize, at: usize) -> Result<Expr, Memory> {
    Ok(Expr::Field(Boxed::new(alloc, Expr::Var(var, at))?, field, at))
}

fn arguments(alloc: Global, at: usize) -> Result<Seq<Expr>, Memory> {
    let mut list = Seq::new(alloc);
    list.push(expression(alloc, at)?)?;
    Ok(list)
}

/// A call of each kind, by its number.
fn call(alloc: Global, kind: usize, at: usize) -> Result<Call, Memory> {
    match kind {
        0 => Ok(Call::User(0, 0, arguments(alloc, at)?, at)),
        1 => Ok(Call::Malloc(Size::Fields(0), at)),
        2 => Ok(Call::Malloc(Size::Ints(None), at)),
        3 => {
            let count = Boxed::new(alloc, Expr::Const(3, at))?;
            Ok(Call::Malloc(Size::Ints(Some(count)), at))
        }
        4 => Ok(Call::Getchar(at)),
        5 => Ok(Call::Putchar(expression(alloc, at)?, at)),
        _ => {
            let text = Seq::from_slice(alloc, b"%d")?;
            Ok(Call::Printf(text, arguments(alloc, at)?, at))
        }
    }
}

fn declarators(alloc: Global, at: usize) -> Result<Seq<Declr>, Memory> {
    let right = Right::Plain(expression(alloc, at)?);
    let mut list = Seq::new(alloc);
    list.push(Declr {
        var: 0,
        right: None,
        at,
    })?;
    list.push(Declr {
        var: 1,
        right: Some(right),
        at,
    })?;
    Ok(list)
}

fn assignment(alloc: Global, at: usize) -> Result<Simple, Memory> {
    let place = expression(alloc, at)?;
    Ok(Simple {
        place,
        op: Op::Add,
        right: Right::Call(Call::Getchar(at)),
        at,
    })
}

fn head(alloc: Global, at: usize) -> Result<ForHead, Memory> {
    let mut start = Seq::new(alloc);
    start.push(Start::Declare(Declr {
        var: 1,
        right: None,
        at,
    }))?;
    start.push(Start::Assign(assignment(alloc, at)?))?;
    let test = Some(expression(alloc, at)?);
    Ok(ForHead {
        start,
        test,
        step: Some(assignment(alloc, at)?),
    })
}

fn gap(alloc: Global, number: usize, var: usize) -> Result<Gap, Memory> {
    let mut frees = Seq::new(alloc);
    frees.push(Free {
        expr: Expr::Var(var, 0),
        start: 0,
        end: 0,
    })?;
    Ok(Gap { number, frees })
}

pub fn empty_block(alloc: Global, number: usize, at: usize) -> Block {
    let last_gap = Gap {
        number,
        frees: Seq::new(alloc),
    };
    Block {
        items: Items::new(alloc),
        last_gap,
        braced: true,
        start: at,
        end: at,
    }
}

fn arms(alloc: Global, number: usize, at: usize) -> Result<Items<Arm>, Memory> {
    let mut list = Items::new(alloc);
    list.push(Arm {
        test: expression(alloc, at)?,
        body: empty_block(alloc, number, at),
    })?;
    Ok(list)
}

/// An item of each kind, by its number, the calls aside.
fn item(alloc: Global, kind: usize, at: usize) -> Result<Item, Memory> {
    match kind {
        0 => Ok(Item::Declare(declarators(alloc, at)?)),
        1 => Ok(Item::Assign(assignment(alloc, at)?)),
        2 => Ok(Item::Nest(empty_block(alloc, 50, at))),
        3 => Ok(Item::If(arms(alloc, 51, at)?, None)),
        4 => Ok(Item::If(arms(alloc, 52, at)?, Some(empty_block(alloc, 53, at)))),
        5 => Ok(Item::While(expression(alloc, at)?, empty_block(alloc, 54, at))),
        6 => Ok(Item::For(head(alloc, at)?, empty_block(alloc, 55, at))),
        7 => Ok(Item::Break),
        8 => Ok(Item::Continue),
        9 => Ok(Item::Return(Some(Right::Plain(expression(alloc, at)?)), at)),
        _ => Ok(Item::Return(None, at)),
    }
}

fn items(alloc: Global, at: usize) -> Result<Vec<Item>, Memory> {
    let mut list = Vec::new(alloc);
    for kind in 0..11 {
        list.push(item(alloc, kind, at)?)?;
    }
    for kind in 0..7 {
        list.push(Item::Do(call(alloc, kind, at)?))?;
    }
    Ok(list)
}

fn block(alloc: Global, items: Vec<Item>, last_gap: Gap, at: usize) -> Result<Block, Memory> {
    let mut pieces = Items::new(alloc);
    for item in items {
        pieces.push(Piece {
            gap: gap(alloc, pieces.len(), 0)?,
            item,
            start: at,
            end: at,
        })?;
    }
    Ok(Block {
        items: pieces,
        last_gap,
        braced: true,
        start: at,
        end: at,
    })
}

fn structs(alloc: Global, at: usize) -> Result<Seq<StructDef>, Memory> {
    let name = Seq::from_slice(alloc, b"f")?;
    let mut fields = Seq::new(alloc);
    fields.push(FieldDef {
        name,
        ty: Ty::IntPtr,
    })?;
    let mut list = Seq::new(alloc);
    list.push(StructDef {
        fields,
        body: Some(at),
    })?;
    Ok(list)
}

fn variables(alloc: Global, at: usize) -> Result<Seq<VarDef>, Memory> {
    let name = Seq::from_slice(alloc, b"p")?;
    let mut list = Seq::new(alloc);
    list.push(VarDef {
        name,
        ty: Ty::StructPtr(0),
        home: Home::Global(-1),
        at,
    })?;
    Ok(list)
}

fn functions(alloc: Global, body: Block, at: usize) -> Result<Seq<FunDef>, Memory> {
    let name = Seq::from_slice(alloc, b"main")?;
    let params = Seq::from_slice(alloc, &[0])?;
    let mut list = Seq::new(alloc);
    list.push(FunDef {
        name,
        result: Some(Ty::Int),
        params,
        body,
        at,
    })?;
    Ok(list)
}

pub fn program(alloc: Global, body: Block, at: usize) -> Result<Program, Memory> {
    let structs = structs(alloc, at)?;
    let vars = variables(alloc, at)?;
    Ok(Program {
        structs,
        vars,
        funs: functions(alloc, body, at)?,
        main: 0,
        gaps: 60,
        calls: 1,
    })
}

/// A program with each kind of item, and a free in each gap of its outermost block.
pub fn sample(alloc: Global, at: usize) -> Result<Program, Memory> {
    let body = block(alloc, items(alloc, at)?, gap(alloc, 40, 0)?, at)?;
    program(alloc, body, at)
}

// A graph as lines: a node, and how control goes on.
use c_graph::{Action, Edge, Node, NodeKind, Way};
use c_tree::{Expr, Free, Op, Right, Simple, Size};
use mf_list::Memory;
use std::alloc::Global;

fn show_expr(line: &mut String, expr: &Expr) -> Result<(), Memory> {
    match expr {
        Expr::Const(value, at) => write!(line, "{value}@{at}"),
        Expr::Null(at) => write!(line, "NULL@{at}"),
        Expr::Var(variable, at) => write!(line, "v{variable}@{at}"),
        Expr::Field(base, field, at) => {
            write!(line, "(field {field} of ")?;
            show_expr(line, base.get())?;
            write!(line, ")@{at}")
        }
        Expr::Deref(base, at) => {
            line.push_str("(* ")?;
            show_expr(line, base.get())?;
            write!(line, ")@{at}")
        }
        Expr::Index(base, index, at) => {
            line.push_str("(")?;
            show_expr(line, base.get())?;
            line.push_str(" [ ")?;
            show_expr(line, index.get())?;
            write!(line, " ])@{at}")
        }
        Expr::Unary(sign, operand, at) => {
            write!(line, "({sign:?} ")?;
            show_expr(line, operand.get())?;
            write!(line, ")@{at}")
        }
        Expr::Binary(oper, left, right, at) => {
            write!(line, "({oper:?} ")?;
            show_expr(line, left.get())?;
            line.push_str(" ")?;
            show_expr(line, right.get())?;
            write!(line, ")@{at}")
        }
    }
}

fn show_exprs(line: &mut String, exprs: &[Expr]) -> Result<(), Memory> {
    for (k, expr) in exprs.iter().enumerate() {
        line.push_str(if k == 0 { " " } else { ", " })?;
        show_expr(line, expr)?;
    }
    Ok(())
}

fn show_frees(line: &mut String, frees: &[Free]) -> Result<(), Memory> {
    for (k, free) in frees.iter().enumerate() {
        line.push_str(if k == 0 { " frees " } else { ", " })?;
        show_expr(line, &free.expr)?;
    }
    Ok(())
}

fn show_into(line: &mut String, place: &Option<Expr>) -> Result<(), Memory> {
    match place {
        None => Ok(()),
        Some(place) => {
            line.push_str(" into ")?;
            show_expr(line, place)
        }
    }
}

fn show_assign(line: &mut String, simple: &Simple) -> Result<(), Memory> {
    write!(line, "{:?} ", simple.op)?;
    show_expr(line, &simple.place)?;
    line.push_str(" from ")?;
    match &simple.right {
        Right::Plain(value) => show_expr(line, value)?,
        Right::Call(_) => line.push_str("a call")?,
    }
    write!(line, " @{}", simple.at)
}

fn show_size(line: &mut String, size: &Size) -> Result<(), Memory> {
    match size {
        Size::Fields(number) => write!(line, "struct {number}"),
        Size::Ints(None) => line.push_str("int"),
        Size::Ints(Some(count)) => {
            line.push_str("int times ")?;
            show_expr(line, count.get())
        }
    }
}

fn show_bytes(line: &mut String, bytes: &[u8]) -> Result<(), Memory> {
    for byte in bytes {
        line.push(char::from(*byte))?;
    }
    Ok(())
}

fn show_return(line: &mut String, value: &Option<Expr>) -> Result<(), Memory> {
    match value {
        None => line.push_str("return nothing"),
        Some(value) => {
            line.push_str("return ")?;
            show_expr(line, value)
        }
    }
}

fn show_action(line: &mut String, action: &Action) -> Result<(), Memory> {
    match action {
        Action::Unset(variable) => write!(line, "unset v{variable}"),
        Action::Assign(simple) => show_assign(line, simple),
        Action::Malloc(place, size, at) => {
            line.push_str("malloc ")?;
            show_size(line, size)?;
            show_into(line, place)?;
            write!(line, " @{at}")
        }
        Action::Getchar(place) => {
            line.push_str("getchar")?;
            show_into(line, place)
        }
        Action::Putchar(value) => {
            line.push_str("putchar ")?;
            show_expr(line, value)
        }
        Action::Printf(format, values) => {
            line.push_str("printf \"")?;
            show_bytes(line, format.as_slice())?;
            line.push_str("\" of")?;
            show_exprs(line, values.as_slice())
        }
        Action::Test(test) => {
            line.push_str("test ")?;
            show_expr(line, test)
        }
        Action::Call(callee, values) => {
            write!(line, "call f{callee} with")?;
            show_exprs(line, values.as_slice())
        }
        Action::Return(value) => show_return(line, value),
        Action::Close => line.push_str("close"),
    }
}

fn show_way(line: &mut String, way: Way) -> Result<(), Memory> {
    match way {
        Way::Leave(None) => line.push_str("Leave"),
        Way::Leave(Some(variable)) => write!(line, "Leave v{variable}"),
        Way::On | Way::True | Way::False | Way::Made | Way::NotMade | Way::Enter => {
            write!(line, "{way:?}")
        }
    }
}

/// The context of a node, what stands there, and the edges from it.
pub fn shown(alloc: Global, at: usize, node: &Node, edges: &[Edge]) -> Result<String, Memory> {
    let mut line = String::new(alloc);
    write!(line, "{} ", node.ctx)?;
    match &node.kind {
        NodeKind::Gap(gap, frees) => {
            write!(line, "gap {gap}")?;
            show_frees(&mut line, frees.as_slice())?;
        }
        NodeKind::Act(action) => show_action(&mut line, action)?,
        NodeKind::Exit(offset) => write!(line, "exit @{offset}")?,
    }
    line.push_str(" |")?;
    for edge in edges {
        if edge.from == at {
            line.push_str(" ")?;
            show_way(&mut line, edge.way)?;
            write!(line, " {}", edge.to)?;
        }
    }
    Ok(line)
}

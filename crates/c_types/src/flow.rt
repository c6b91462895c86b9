// Where control may go in a block.
ghost use Rattle.std.specs.Prelude.{◌≡◌, map};
ghost use Rattle.c_tree.specs.Flow.{along, arm_flow_of, arms_flow, both, combined_edges, edges_of, edges_or_hold, either, flow_of, flow_or, followed, item_flow_of, loop, piece_flow_of, sequence, signed_edges};

use c_tree::{Arm, Block, Edges, Expr, Flow, Item, Oper, Piece, Sign};
use sqlite_items::Items;

fn both() -> Edges
    ensures { result ≡ both }
{
    Edges {
        holds: true,
        fails: true,
    }
}

fn signed_edges(sign: Sign, of: Edges) -> Edges
    ensures { result ≡ signed_edges sign of }
{
    match sign {
        Sign::Minus => both(),
        Sign::Not => Edges {
            holds: of.fails,
            fails: of.holds,
        },
    }
}

fn combined_edges(oper: Oper, left: Edges, right: Edges) -> Edges
    ensures { result ≡ combined_edges oper left right }
{
    match oper {
        Oper::And => Edges {
            holds: left.holds && right.holds,
            fails: left.fails || (left.holds && right.fails),
        },
        Oper::Or => Edges {
            holds: left.holds || (left.fails && right.holds),
            fails: left.fails && right.fails,
        },
        _ => both(),
    }
}

fn edges_of(expr: &Expr) -> Edges
    ensures { result ≡ edges_of expr.now }
{
    match expr {
        Expr::Const(n, _) => Edges {
            holds: *n != 0,
            fails: *n == 0,
        },
        Expr::Unary(sign, of, _) => signed_edges(*sign, edges_of(of.get())),
        Expr::Binary(oper, left, right, _) => {
            combined_edges(*oper, edges_of(left.get()), edges_of(right.get()))
        }
        Expr::Null(_) => both(),
        Expr::Var(_, _) => both(),
        Expr::Field(_, _, _) => both(),
        Expr::Deref(_, _) => both(),
        Expr::Index(_, _, _) => both(),
    }
}

fn edges_or_hold(test: &Option<Expr>) -> Edges
    ensures { result ≡ edges_or_hold test.now }
{
    match test {
        None => Edges {
            holds: true,
            fails: false,
        },
        Some(test) => edges_of(test),
    }
}

/// What stands behind a part is reached where the part's end is.
fn followed(first: Flow, next: Flow) -> Flow
    ensures { result ≡ followed first next }
{
    if first.ends {
        Flow {
            ends: next.ends,
            breaks: first.breaks || next.breaks,
        }
    } else {
        first
    }
}

fn along(taken: bool, part: Flow) -> Flow
    ensures { result ≡ along taken part }
{
    if taken {
        part
    } else {
        Flow {
            ends: false,
            breaks: false,
        }
    }
}

fn either(part: Flow, other: Flow) -> Flow
    ensures { result ≡ either part other }
{
    Flow {
        ends: part.ends || other.ends,
        breaks: part.breaks || other.breaks,
    }
}

fn loop_flow(test: Edges, body: Flow) -> Flow
    ensures { result ≡ loop test body }
{
    Flow {
        ends: test.fails || (test.holds && body.breaks),
        breaks: false,
    }
}

#[cycle(flows)]
pub fn flow_of(block: &Block) -> Flow
    ensures { result ≡ flow_of block.now }
{
    let mut flow = Flow {
        ends: true,
        breaks: false,
    };
    let pieces = block.items.as_slice();
    for piece in pieces {
        flow = followed(flow, piece_flow(piece));
    }
    flow
}

#[cycle(flows)]
fn piece_flow(piece: &Piece) -> Flow
    ensures { result ≡ piece_flow_of piece.now }
{
    item_flow(&piece.item)
}

#[cycle(flows)]
fn item_flow(item: &Item) -> Flow
    ensures { result ≡ item_flow_of item.now }
{
    match item {
        Item::Nest(block) => flow_of(block),
        Item::If(arms, None) => arms_flow(
            arms,
            Flow {
                ends: true,
                breaks: false,
            },
        ),
        Item::If(arms, Some(last)) => arms_flow(arms, flow_of(last)),
        Item::While(test, body) => loop_flow(edges_of(test), flow_of(body)),
        Item::For(head, body) => loop_flow(edges_or_hold(&head.test), flow_of(body)),
        Item::Break => Flow {
            ends: false,
            breaks: true,
        },
        Item::Continue | Item::Return(_, _) => Flow {
            ends: false,
            breaks: false,
        },
        Item::Declare(_) | Item::Assign(_) | Item::Do(_) => Flow {
            ends: true,
            breaks: false,
        },
    }
}

#[cycle(flows)]
fn arms_flow(arms: &Items<Arm>, last: Flow) -> Flow
    ensures { result ≡ arms_flow (map arm_flow_of arms.now) last }
{
    let mut flow = last;
    let arms = arms.as_slice();
    for arm in arms.iter().rev() {
        let test = edges_of(&arm.test);
        let body = flow_of(&arm.body);
        flow = either(along(test.holds, body), along(test.fails, flow));
    }
    flow
}

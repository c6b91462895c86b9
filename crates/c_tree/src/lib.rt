//! A C program as a tree: its types, its gaps, and the choices of `free` statements that fill them.
#![tactic(auto)]

mod alike;
mod choice;
mod control;
mod copy;
mod duplicate;
mod expr;
mod limits;
mod program;
pub mod tree;

pub use alike::same_skeleton;
pub use choice::{Choice, Put};
pub use control::{Edges, Flow, UserCall};
pub use copy::{fill, puts_of, skeleton};
pub use duplicate::Duplicate;
pub use expr::{Expr, Op, Oper, Sign};
pub use limits::{Limit, Refusal};
pub use program::{
    Arm, Block, Call, Declr, FieldDef, ForHead, Free, FunDef, Gap, Home, Item, Piece, Program,
    Right, Simple, Size, Start, StructDef, Ty, VarDef,
};

//! Names and types: `resolve` makes the program of a tree, or finds the first rule that the tree breaks. What it stands
//! on: faults and the one that comes first, tables of names, where control may go in a block, and the calls of functions
//! with the first one that closes a cycle.
#![tactic(auto)]

mod answer;
mod arguments;
mod blocks;
mod calls;
mod cycles;
mod declaring;
mod expressions;
mod faults;
mod fits;
mod flow;
mod functions;
mod functions_called;
mod judged;
mod names;
mod refusal;
mod requests;
mod scope;
mod statements;
mod structs;
mod untyped;

pub use answer::resolve;
pub use c_scopes::scope_at;
pub use cycles::first_cycle;
pub use faults::{Fault, Rule, least};
pub use flow::flow_of;
pub use functions_called::user_calls;
pub use judged::{
    Called, Callee, Checked, Gives, Judged, Measured, Request, RightValue, Sort, Value,
};
pub use names::NameTable;
pub use refusal::TypeRefusal;
pub use scope::{
    BaseType, Entry, Heading, Meaning, Nesting, Returned, Scope, Signature, StructRow, Walk,
    Written,
};

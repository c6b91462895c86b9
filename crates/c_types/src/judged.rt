// What parts of a text come to: with a type, or with the rules that they break.
use crate::faults::Fault;
use c_tree::{Call, Expr, Ty};
use mf_list::Seq;

/// A part with its type, or the faults for which it has none.
#[derive(Drop)]
pub enum Judged<T> {
    Typed(T),
    Broken(Seq<Fault>),
}

/// What a part becomes, and the rules that it breaks. A part of it without a type has a null pointer in its place.
#[derive(Drop)]
pub struct Checked<T> {
    pub made: T,
    pub faults: Seq<Fault>,
}

/// The type of a value; `NULL` has that of every pointer.
#[derive(Clone, Copy)]
pub enum Sort {
    Of(Ty),
    AnyPointer,
}

#[derive(Drop)]
pub struct Value {
    pub expr: Expr,
    pub sort: Sort,
}

/// A request: the type of the pointers that fit its unit, the type of its cast, and the offset of the word `malloc`.
#[derive(Clone, Copy)]
pub struct Request {
    pub points: Ty,
    pub cast: Option<Ty>,
    pub at: usize,
}

/// What a call has for a value.
#[derive(Clone, Copy)]
pub enum Gives {
    Nothing,
    Result(Ty),
    Requested(Request),
}

/// A call, what it has for a value, and the offset of its callee's name or word.
#[derive(Drop)]
pub struct Called {
    pub call: Call,
    pub gives: Gives,
    pub at: usize,
}

/// The value of a right side.
#[derive(Drop)]
pub enum RightValue {
    Plain(Value),
    Result(Call, Ty),
    Requested(Call, Request),
}

/// What `sizeof` is asked of.
#[derive(Clone, Copy)]
pub enum Measured {
    Int,
    Struct(usize),
}

/// What a call calls: a function by its number and by its place among the declared ones, or nothing that can be called.
#[derive(Clone, Copy)]
pub enum Callee {
    Defined(usize, usize),
    Refused(Fault),
}

/// What the text of a `printf` asks for so far: so many values, behind a `%` or not, or something else.
#[derive(Clone, Copy)]
pub enum Directives {
    Plain(usize),
    Open(usize),
    Other,
}

//! The tokens of a C text.
#![tactic(auto)]

mod answer;
mod bytes;
mod element;
mod front;
mod nest;
mod numbers;
mod punctuators;
mod quotes;
mod reading;
mod recent;
mod refusal;
mod role;
mod spans;
mod token;
mod words;

pub use answer::lex;
pub use refusal::LexRefusal;
pub use token::{Kind, Token, Tokens};

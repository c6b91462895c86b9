//! The grammar of the language: tokens are read as a tree, and a tree is written as tokens.
#![tactic(auto)]

mod blocks;
mod calls;
mod expressions;
mod file;
mod front;
mod gaps;
mod globals;
mod heads;
mod params;
mod parser;
mod parts;
mod print_blocks;
mod print_expressions;
mod print_file;
mod print_statements;
mod printer;
mod reading;
mod recogniser;
mod refusal;
mod rows;
mod sizes;
mod statements;
mod structs;
mod symbol;
mod table;
mod term;
mod turn;
mod words;
mod work;
mod written;

pub use parser::parse;
pub use printer::print;
pub use refusal::ParseRefusal;

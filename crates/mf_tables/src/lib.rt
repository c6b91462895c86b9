//! Tables of words and numbers, sought by a binary search.
#![tactic(auto)]

mod table;

pub use table::{Row, Table};

/// A whole table as a literal: `rows![b"int" => 0, b"return" => 1]`.
#[macro_export]
macro_rules! rows {
    ($($word:expr => $number:expr),* $(,)?) => {
        $crate::Table { rows: &[$($crate::Row { word: $word, number: $number }),*] }
    };
}

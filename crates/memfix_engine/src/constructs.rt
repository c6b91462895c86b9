//! The texts of the constructs that the lexer refuses.
ghost use Rattle.std.specs.Prelude.{◌≡◌, map};
ghost use Rattle.memfix_engine.specs.Notes.{numbered, row_text, row_texts};

use mf_tables::{Table, rows};

/// The texts by the numbers of their rows in the lexer's tables.
fn texts() -> Table<59>
    ensures { map (λ r. (r.word.now, r.number)) result.rows.now ≡ numbered 0 row_texts }
{
    rows![
        b"_Bool" => 0,
        b"_Complex" => 1,
        b"_Imaginary" => 2,
        b"abort" => 3,
        b"assert" => 4,
        b"atexit" => 5,
        b"auto" => 6,
        b"calloc" => 7,
        b"case" => 8,
        b"char" => 9,
        b"const" => 10,
        b"default" => 11,
        b"do" => 12,
        b"double" => 13,
        b"enum" => 14,
        b"exit" => 15,
        b"extern" => 16,
        b"float" => 17,
        b"goto" => 18,
        b"inline" => 19,
        b"long" => 20,
        b"longjmp" => 21,
        b"realloc" => 22,
        b"register" => 23,
        b"restrict" => 24,
        b"setjmp" => 25,
        b"short" => 26,
        b"signed" => 27,
        b"static" => 28,
        b"switch" => 29,
        b"union" => 30,
        b"unsigned" => 31,
        b"volatile" => 32,
        b"directive" => 33,
        b"directive" => 34,
        b"digraph" => 35,
        b"digraph" => 36,
        b"remainder assignment" => 37,
        b"digraph" => 38,
        b"address-of or bit-and" => 39,
        b"bit assignment" => 40,
        b"member of a struct value" => 41,
        b"variable arguments" => 42,
        b"quotient assignment" => 43,
        b"label or conditional" => 44,
        b"digraph" => 45,
        b"digraph" => 46,
        b"digraph" => 47,
        b"left shift" => 48,
        b"left shift" => 49,
        b"right shift" => 50,
        b"right shift" => 51,
        b"conditional operator" => 52,
        b"bit-xor" => 53,
        b"bit-xor" => 54,
        b"bit-or" => 55,
        b"bit-or" => 56,
        b"bit-not" => 57,
        b"number form" => 58,
    ]
}

pub(crate) fn row_text(row: u16) -> &'static [u8]
    ensures { result.now ≡ row_text row }
{
    match texts().word_of(row) {
        Some(text) => text,
        None => b"",
    }
}

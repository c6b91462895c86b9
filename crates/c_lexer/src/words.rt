// The kinds of words, by the tables of key words and of refused words.
ghost use Rattle.std.specs.Prelude.{◌≡◌, IfOk};
ghost use Rattle.c_lexer.specs.Words.{key_word, refused_word, kind_of_word};

use crate::Kind;
use crate::recent::Recent;
use mf_list::Memory;
use mf_tables::{Table, rows};
use std::alloc::Global;

/// The place of a key word.
fn key_word(word: &[u8]) -> Option<u16>
    ensures { result ≡ key_word word.now }
{
    let table: Table<19> = rows![
        b"EOF" => 0,
        b"NULL" => 1,
        b"break" => 2,
        b"continue" => 3,
        b"else" => 4,
        b"for" => 5,
        b"free" => 6,
        b"getchar" => 7,
        b"if" => 8,
        b"int" => 9,
        b"malloc" => 10,
        b"printf" => 11,
        b"putchar" => 12,
        b"return" => 13,
        b"sizeof" => 14,
        b"struct" => 15,
        b"typedef" => 16,
        b"void" => 17,
        b"while" => 18,
    ];
    table.find(word)
}

/// The row of a refused word.
fn refused_word(word: &[u8]) -> Option<u16>
    ensures { result ≡ refused_word word.now }
{
    let table: Table<33> = rows![
        b"_Bool" => 0,
        b"_Complex" => 1,
        b"_Imaginary" => 2,
        b"abort" => 3,
        b"assert" => 4,
        b"atexit" => 5,
        b"auto" => 6,
        b"calloc" => 7,
        b"case" => 8,
        b"char" => 9,
        b"const" => 10,
        b"default" => 11,
        b"do" => 12,
        b"double" => 13,
        b"enum" => 14,
        b"exit" => 15,
        b"extern" => 16,
        b"float" => 17,
        b"goto" => 18,
        b"inline" => 19,
        b"long" => 20,
        b"longjmp" => 21,
        b"realloc" => 22,
        b"register" => 23,
        b"restrict" => 24,
        b"setjmp" => 25,
        b"short" => 26,
        b"signed" => 27,
        b"static" => 28,
        b"switch" => 29,
        b"union" => 30,
        b"unsigned" => 31,
        b"volatile" => 32,
    ];
    table.find(word)
}

/// The kind of a word: a key word, refused, or a name.
pub fn kind_of_word(alloc: Global, recent: &mut Recent, word: &[u8]) -> Result<Kind, Memory>
    ensures { IfOk result (λ kind. kind ≡ kind_of_word word.now) }
{
    if let Some(number) = key_word(word) {
        return Ok(Kind::Key(number));
    }
    if let Some(row) = refused_word(word) {
        return Ok(Kind::Refused(row));
    }
    let name = recent.name(alloc, word)?;
    Ok(Kind::Name(name))
}

// Texts with the answers of the lexer: each refused row, key word and punctuator, values, faults and what is passed.
use c_lexer::LexRefusal;

/// What the lexer answers: a refusal, the kind of the only token, which is the whole text, or the number of tokens and
/// the place of the last comment.
#[derive(Clone, Copy, Debug)]
pub enum Answer {
    Refusal(LexRefusal),
    Name(&'static [u8]),
    Key(u16),
    Punct(u16),
    Number(i32),
    Text(&'static [u8]),
    Passes(usize, Option<(usize, usize)>),
}

/// A text and its answer.
#[derive(Clone, Copy, Debug)]
pub struct Case {
    pub text: &'static [u8],
    pub answer: Answer,
}

macro_rules! cases {
    ($($text:expr => $answer:expr),* $(,)?) => {
        [$(Case { text: $text, answer: $answer }),*]
    };
}

/// What is refused, by rows.
pub const REFUSED: [&[u8]; 59] = [
    b"_Bool",
    b"_Complex",
    b"_Imaginary",
    b"abort",
    b"assert",
    b"atexit",
    b"auto",
    b"calloc",
    b"case",
    b"char",
    b"const",
    b"default",
    b"do",
    b"double",
    b"enum",
    b"exit",
    b"extern",
    b"float",
    b"goto",
    b"inline",
    b"long",
    b"longjmp",
    b"realloc",
    b"register",
    b"restrict",
    b"setjmp",
    b"short",
    b"signed",
    b"static",
    b"switch",
    b"union",
    b"unsigned",
    b"volatile",
    b"#",
    b"##",
    b"%:",
    b"%:%:",
    b"%=",
    b"%>",
    b"&",
    b"&=",
    b".",
    b"...",
    b"/=",
    b":",
    b":>",
    b"<%",
    b"<:",
    b"<<",
    b"<<=",
    b">>",
    b">>=",
    b"?",
    b"^",
    b"^=",
    b"|",
    b"|=",
    b"~",
    b"010",
];

/// The key words, by places.
pub const KEY_WORDS: [&[u8]; 19] = [
    b"EOF",
    b"NULL",
    b"break",
    b"continue",
    b"else",
    b"for",
    b"free",
    b"getchar",
    b"if",
    b"int",
    b"malloc",
    b"printf",
    b"putchar",
    b"return",
    b"sizeof",
    b"struct",
    b"typedef",
    b"void",
    b"while",
];

/// The punctuators, by places.
pub const PUNCTUATORS: [&[u8]; 29] = [
    b"!", b"!=", b"%", b"&&", b"(", b")", b"*", b"*=", b"+", b"++", b"+=", b",", b"-", b"--",
    b"-=", b"->", b"/", b";", b"<", b"<=", b"=", b"==", b">", b">=", b"[", b"]", b"{", b"||", b"}",
];

/// Names, values of numbers, character constants and strings, and numbers of another form.
pub const VALUES: [Case; 26] = cases![
    b"x" => Answer::Name(b"x"),
    b"_Z" => Answer::Name(b"_Z"),
    b"int_0123456789" => Answer::Name(b"int_0123456789"),
    b"0" => Answer::Number(0),
    b"9" => Answer::Number(9),
    b"2147483647" => Answer::Number(2147483647),
    b"'a'" => Answer::Number(97),
    b"' '" => Answer::Number(32),
    b"'\"'" => Answer::Number(34),
    b"'\\0'" => Answer::Number(0),
    b"'\\n'" => Answer::Number(10),
    b"'\\''" => Answer::Number(39),
    b"'\\\\'" => Answer::Number(92),
    b"'\\a'" => Answer::Number(7),
    b"'\\v'" => Answer::Number(11),
    b"\"\"" => Answer::Text(b""),
    b"\"a\tb\"" => Answer::Text(b"a\tb"),
    b"\"// /* '\"" => Answer::Text(b"// /* '"),
    b"\"\xC3\xA9\"" => Answer::Text(b"\xC3\xA9"),
    b"\"\\a\\b\\t\\n\\v\\f\\r\\\"\\'\\\\\"" => Answer::Text(&[7, 8, 9, 10, 11, 12, 13, 34, 39, 92]),
    b"00" => Answer::Refusal(LexRefusal::Construct(58, 0)),
    b"0x1F" => Answer::Refusal(LexRefusal::Construct(58, 0)),
    b"5u" => Answer::Refusal(LexRefusal::Construct(58, 0)),
    b"1.5" => Answer::Refusal(LexRefusal::Construct(58, 0)),
    b"1e" => Answer::Refusal(LexRefusal::Construct(58, 0)),
    b"4294967296u" => Answer::Refusal(LexRefusal::Construct(58, 0)),
];

/// The first lexical fault.
pub const FAULTS: [Case; 21] = cases![
    b"a @ b" => Answer::Refusal(LexRefusal::BadByte(2)),
    b"int \x80" => Answer::Refusal(LexRefusal::BadByte(4)),
    b"int x /* open" => Answer::Refusal(LexRefusal::OpenComment(6)),
    b"/*/" => Answer::Refusal(LexRefusal::OpenComment(0)),
    b"x = \"a" => Answer::Refusal(LexRefusal::OpenText(4)),
    b"\"a\n\"" => Answer::Refusal(LexRefusal::OpenText(0)),
    b"\"a\x01\n" => Answer::Refusal(LexRefusal::BadByte(2)),
    b"\"a\r\n" => Answer::Refusal(LexRefusal::BadByte(2)),
    b"''" => Answer::Refusal(LexRefusal::OpenText(0)),
    b"'ab'" => Answer::Refusal(LexRefusal::OpenText(0)),
    b"'\t'" => Answer::Refusal(LexRefusal::BadByte(1)),
    b"'ab\\q'" => Answer::Refusal(LexRefusal::BadEscape(3)),
    b"'a\\0'" => Answer::Refusal(LexRefusal::OpenText(0)),
    b"'\\0" => Answer::Refusal(LexRefusal::BadEscape(1)),
    b"'\\01'" => Answer::Refusal(LexRefusal::BadEscape(1)),
    b"\"a\\0\"" => Answer::Refusal(LexRefusal::BadEscape(2)),
    b"\"a\\\n\"" => Answer::Refusal(LexRefusal::BadEscape(2)),
    b"\"a\\" => Answer::Refusal(LexRefusal::BadEscape(2)),
    b"x 2147483648" => Answer::Refusal(LexRefusal::WideNumber(2)),
    b"99999999999999999999999999" => Answer::Refusal(LexRefusal::WideNumber(0)),
    b"_Bool @" => Answer::Refusal(LexRefusal::BadByte(6)),
];

/// Line continuations, which are faults.
pub const CONTINUED: [Case; 12] = cases![
    b"int \\\n x" => Answer::Refusal(LexRefusal::BadByte(4)),
    b"int \\" => Answer::Refusal(LexRefusal::BadByte(4)),
    b"// a\\\nb" => Answer::Refusal(LexRefusal::BadByte(4)),
    b"// a\\\r\nb" => Answer::Refusal(LexRefusal::BadByte(4)),
    b"// a\\" => Answer::Refusal(LexRefusal::BadByte(4)),
    b"// a\\\r" => Answer::Refusal(LexRefusal::BadByte(4)),
    b"/*\\\n" => Answer::Refusal(LexRefusal::BadByte(2)),
    b"/* a *\\\r\n/" => Answer::Refusal(LexRefusal::BadByte(6)),
    b"/* a *\\" => Answer::Refusal(LexRefusal::OpenComment(0)),
    b"#include <a>\\\n" => Answer::Refusal(LexRefusal::BadByte(12)),
    b"#include <a>\\" => Answer::Refusal(LexRefusal::BadByte(12)),
    b"#include <a>\\\r\n" => Answer::Refusal(LexRefusal::BadByte(12)),
];

/// Comments and include lines, which are passed, and the first refused token.
pub const PASSED: [Case; 15] = cases![
    b"" => Answer::Passes(0, None),
    b" \t\x0B\x0C\r\n" => Answer::Passes(0, None),
    b"/**/x" => Answer::Passes(1, Some((0, 4))),
    b"/* a /* b */ x // c\ny" => Answer::Passes(2, Some((15, 19))),
    b"// \\ a \x00\n/***/" => Answer::Passes(0, Some((9, 14))),
    b"/* \\\n */" => Answer::Passes(0, Some((0, 8))),
    b" # \tinclude \"a.h\" @ // b" => Answer::Passes(0, Some((20, 24))),
    b"#include_next 'x\n;" => Answer::Passes(1, None),
    b"#include <a>/* b */;\n#include <c>\n" => Answer::Passes(1, Some((12, 19))),
    b"/* \n */\n #include a\\b" => Answer::Passes(0, Some((0, 7))),
    b"int main(void) { int x = 1; int *q = &x; return *q; }" => Answer::Refusal(LexRefusal::Construct(39, 37)),
    b"int main(void) { /* open" => Answer::Refusal(LexRefusal::OpenComment(17)),
    b"/* */ #include <a>" => Answer::Refusal(LexRefusal::Construct(33, 6)),
    b"x #include <a>" => Answer::Refusal(LexRefusal::Construct(33, 2)),
    b".. auto" => Answer::Refusal(LexRefusal::Construct(41, 0)),
];

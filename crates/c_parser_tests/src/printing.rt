// What is printed of the tree of a text, beside a text of the same tokens.
use crate::prefixes::FILE;
use c_lexer::{Kind, Token, Tokens, lex};
use c_parser::{parse, print};
use std::test::Fail;

/// A text, and what is printed of its tree.
#[derive(Clone, Copy, Debug)]
struct Case {
    text: &'static [u8],
    printed: &'static [u8],
}

macro_rules! cases {
    ($($text:expr => $printed:expr;)*) => {
        [$(Case { text: $text, printed: $printed }),*]
    };
}

const CASES: [Case; 11] = cases![
    b"void f() { x = a - (b - c); }" => b"void f() { x = a - (b - c); }";
    b"void f() { x = ((a) - b) - (c); }" => b"void f() { x = a - b - c; }";
    b"void f() { x = (*p)->q[(-(a + b)) * (!c)]; }" => b"void f() { x = (*p)->q[-(a + b) * !c]; }";
    b"void f() { x = a || (b && c) || EOF == 'a'; }" => b"void f() { x = a || b && c || EOF == 97; }";
    b"void f() { if (x) y = 1; else if (z) ; else free(w); }" => b"void f() { if (x) { y = 1; } else if (z) { } else { free(w); } }";
    b"void f() { while (x) if (y) break; else continue; ; }" => b"void f() { while (x) { if (y) { break; } else { continue; } } }";
    b"void f() { x += 1; (*y)--; z -= 2; (*w) = 1; }" => b"void f() { ++x; --*y; z -= 2; *w = 1; }";
    b"void f() { for (int i = 0, *p; i < 9; i++) g(i, p); }" => b"void f() { for (int i = 0, *p; i < 9; ++i) { g(i, p); } }";
    b"void f() { x = (a *) malloc(sizeof(*x) * (n + 1)); }" => b"void f() { x = (a *) malloc((n + 1) * sizeof *x); }";
    b"typedef struct { int x, *y; } a; int z = -1, *w = NULL;" => b"typedef struct { int x; int *y; } a; int z = -1, *w = NULL;";
    b"struct a; struct a *f(int, struct a *x); void g(void);" => b"struct a; struct a *f(int, struct a *x); void g();";
];

/// What is printed of the file, line by line.
const PRINTED: [&[u8]; 18] = [
    b"struct buf { int len; int *data; };",
    b"struct buf *make(int n) {",
    b"  struct buf *b = malloc(sizeof(struct buf));",
    b"  if (b == NULL) { return NULL; }",
    b"  b->data = malloc(n * sizeof(int));",
    b"  if (b->data == NULL) { return NULL; }",
    b"  b->len = n;",
    b"  return b;",
    b"}",
    b"int main() {",
    b"  int i;",
    b"  struct buf *b = make(4);",
    b"  if (b == NULL) { return 1; }",
    b"  for (i = 0; i < b->len; ++i) { b->data[i] = i * i; }",
    b"  printf(\"%d\\n\", b->data[3]);",
    b"  free(b);",
    b"  return 0;",
    b"}",
];

fn is_same(one: &Kind, other: &Kind) -> bool {
    match (one, other) {
        (Kind::Name(one), Kind::Name(other)) => one.as_slice() == other.as_slice(),
        (Kind::Key(one), Kind::Key(other)) => one == other,
        (Kind::Number(one), Kind::Number(other)) => one == other,
        (Kind::Text(one), Kind::Text(other)) => one.as_slice() == other.as_slice(),
        (Kind::Punct(one), Kind::Punct(other)) => one == other,
        _ => false,
    }
}

/// Whether the two have the same tokens, each token of the first one byte long.
fn is_printed(printed: &Tokens, wanted: &[Token]) -> bool {
    let tokens = printed.list.as_slice();
    printed.size == wanted.len()
        && tokens.len() == wanted.len()
        && tokens
            .iter()
            .zip(wanted)
            .all(|(token, other)| is_same(&token.kind, &other.kind))
}

/// What is printed of the tree of these tokens.
fn printed(rt: &impl Alloc<A = std::alloc::Global>, tokens: &Tokens) -> Result<Tokens, Fail> {
    let tree = parse(rt.alloc(), tokens)?;
    Ok(print(rt.alloc(), &tree)?)
}

/// Whether the one text is printed as the other, and that as itself.
fn prints(
    rt: &impl Alloc<A = std::alloc::Global>,
    text: &[u8],
    wanted: &[u8],
) -> Result<bool, Fail> {
    let wanted = lex(rt.alloc(), wanted)?;
    let once = printed(rt, &lex(rt.alloc(), text)?)?;
    let twice = printed(rt, &once)?;
    let wanted = wanted.list.as_slice();
    Ok(is_printed(&once, wanted) && is_printed(&twice, wanted))
}

/// The lines as a text.
fn text_of(rt: &impl Alloc<A = std::alloc::Global>, lines: &[&[u8]]) -> Result<Vec<u8>, Fail> {
    let mut text = Vec::new(rt.alloc());
    for line in lines {
        text.extend_from_slice(line)?;
        text.push(b'\n')?;
    }
    Ok(text)
}

#[test]
fn trees_are_printed_plainly(rt: HostRuntime) -> Result<(), Fail> {
    for case in CASES {
        assert!(rt; prints(&rt, case.text, case.printed)?);
    }
    let file = text_of(&rt, &FILE)?;
    let printed = text_of(&rt, &PRINTED)?;
    assert!(rt; prints(&rt, file.as_slice(), printed.as_slice())?);
    Ok(())
}

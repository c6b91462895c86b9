// The parser against each list of tokens that begins a file.
use crate::tests::refusal_of;
use c_lexer::lex;
use c_parser::ParseRefusal;
use std::test::Fail;

/// A file, line by line; a line that begins with `}` or holds a whole struct ends a declaration.
pub const FILE: [&[u8]; 20] = [
    b"#include <stdio.h>",
    b"#include <stdlib.h>",
    b"struct buf { int len; int *data; };",
    b"struct buf *make(int n) {",
    b"  struct buf *b = malloc(sizeof(struct buf));",
    b"  if (b == NULL) return NULL;",
    b"  b->data = malloc(n * sizeof(int));",
    b"  if (b->data == NULL) return NULL;",
    b"  b->len = n;",
    b"  return b;",
    b"}",
    b"int main(void) {",
    b"  int i;",
    b"  struct buf *b = make(4);",
    b"  if (b == NULL) return 1;",
    b"  for (i = 0; i < b->len; i++) { b->data[i] = i * i; }",
    b"  printf(\"%d\\n\", b->data[3]);",
    b"  free(b);",
    b"  return 0;",
    b"}",
];

/// Whether the line ends a declaration.
fn is_last(line: &[u8]) -> bool {
    line.first() == Some(&b'}') || line.starts_with(b"struct buf {")
}

#[test]
fn what_begins_a_file_stops_at_its_end(rt: HostRuntime) -> Result<(), Fail> {
    let mut file = Vec::new(rt.alloc());
    let mut ends = Vec::new(rt.alloc());
    for line in FILE {
        file.extend_from_slice(line)?;
        if is_last(line) {
            ends.push(file.len())?;
        }
        file.push(b'\n')?;
    }
    let tokens = lex(rt.alloc(), file.as_slice())?;
    for token in tokens.list.as_slice() {
        let front = file.as_slice().get(..token.end).unwrap_or(b"");
        let stops = if ends.as_slice().contains(&token.end) {
            None
        } else {
            Some(ParseRefusal::Syntax(token.end))
        };
        assert_eq!(rt; refusal_of(&rt, front)?, stops);
    }
    Ok(())
}

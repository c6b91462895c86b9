// The lexer against its cases, a whole file, and the limit of the nest.
use crate::cases::{
    Answer, CONTINUED, Case, FAULTS, KEY_WORDS, PASSED, PUNCTUATORS, REFUSED, VALUES,
};
use c_lexer::{Kind, LexRefusal, Tokens, lex};
use std::test::Fail;

/// A whole file, line by line.
const FILE: [&[u8]; 20] = [
    b"#include <stdio.h>\n",
    b"#include <stdlib.h>\n",
    b"struct buf { int len; int *data; };\n",
    b"struct buf *make(int n) {\n",
    b"  struct buf *b = malloc(sizeof(struct buf));\n",
    b"  if (b == NULL) return NULL;\n",
    b"  b->data = malloc(n * sizeof(int));\n",
    b"  if (b->data == NULL) return NULL;\n",
    b"  b->len = n;\n",
    b"  return b;\n",
    b"}\n",
    b"int main(void) {\n",
    b"  int i;\n",
    b"  struct buf *b = make(4);\n",
    b"  if (b == NULL) return 1;\n",
    b"  for (i = 0; i < b->len; i++) { b->data[i] = i * i; }\n",
    b"  printf(\"%d\\n\", b->data[3]);\n",
    b"  free(b);\n",
    b"  return 0;\n",
    b"}\n",
];

/// Its tokens, line by line, each with a blank behind it.
const LISTED: [&[u8]; 18] = [
    b"struct buf { int len ; int * data ; } ; ",
    b"struct buf * make ( int n ) { ",
    b"struct buf * b = malloc ( sizeof ( struct buf ) ) ; ",
    b"if ( b == NULL ) return NULL ; ",
    b"b -> data = malloc ( n * sizeof ( int ) ) ; ",
    b"if ( b -> data == NULL ) return NULL ; ",
    b"b -> len = n ; ",
    b"return b ; ",
    b"} ",
    b"int main ( void ) { ",
    b"int i ; ",
    b"struct buf * b = make ( 4 ) ; ",
    b"if ( b == NULL ) return 1 ; ",
    b"for ( i = 0 ; i < b -> len ; i ++ ) { b -> data [ i ] = i * i ; } ",
    b"printf ( \"%d\\n\" , b -> data [ 3 ] ) ; ",
    b"free ( b ) ; ",
    b"return 0 ; ",
    b"} ",
];

/// Their kinds: key word, name, punctuator, number or text.
const KINDS: [&[u8]; 18] = [
    b"knpknpkpnppp",
    b"knpnpknpp",
    b"knpnpkpkpknppp",
    b"kpnpkpkkp",
    b"npnpkpnpkpkppp",
    b"kpnpnpkpkkp",
    b"npnpnp",
    b"knp",
    b"p",
    b"knpkpp",
    b"knp",
    b"knpnpnpdpp",
    b"kpnpkpkdp",
    b"kpnpdpnpnpnpnpppnpnpnppnpnpp",
    b"kptpnpnpdppp",
    b"kpnpp",
    b"kdp",
    b"p",
];

/// The kind of the only token of a text, where it is the whole of it.
fn only(tokens: &Tokens) -> Option<&Kind> {
    match tokens.list.as_slice() {
        [token] if token.start == 0 && token.end == tokens.size => Some(&token.kind),
        _ => None,
    }
}

fn is_kind(kind: &Kind, answer: Answer) -> bool {
    match (kind, answer) {
        (Kind::Name(bytes), Answer::Name(wanted)) => bytes.as_slice() == wanted,
        (Kind::Key(number), Answer::Key(wanted)) => *number == wanted,
        (Kind::Punct(number), Answer::Punct(wanted)) => *number == wanted,
        (Kind::Number(value), Answer::Number(wanted)) => *value == wanted,
        (Kind::Text(bytes), Answer::Text(wanted)) => bytes.as_slice() == wanted,
        _ => false,
    }
}

fn are_tokens(text: &[u8], tokens: &Tokens, answer: Answer) -> bool {
    match answer {
        Answer::Passes(count, last_comment) => {
            tokens.list.len() == count
                && tokens.last_comment == last_comment
                && tokens.size == text.len()
        }
        answer => match only(tokens) {
            Some(kind) => is_kind(kind, answer),
            None => false,
        },
    }
}

fn is_answer(text: &[u8], answered: Result<Tokens, LexRefusal>, answer: Answer) -> bool {
    match (answered, answer) {
        (Err(refusal), Answer::Refusal(wanted)) => refusal == wanted,
        (Err(_), _) => false,
        (Ok(tokens), answer) => are_tokens(text, &tokens, answer),
    }
}

#[test]
fn each_refused_row_has_its_number(rt: HostRuntime) {
    for (row, word) in REFUSED.iter().enumerate() {
        let wanted = Answer::Refusal(LexRefusal::Construct(row as u16, 0));
        assert!(rt; is_answer(word, lex(rt.alloc(), word), wanted), "{row}");
    }
}

#[test]
fn each_key_word_has_its_place(rt: HostRuntime) {
    for (place, word) in KEY_WORDS.iter().enumerate() {
        let wanted = Answer::Key(place as u16);
        assert!(rt; is_answer(word, lex(rt.alloc(), word), wanted), "{place}");
    }
}

#[test]
fn each_punctuator_has_its_place(rt: HostRuntime) {
    for (place, word) in PUNCTUATORS.iter().enumerate() {
        let wanted = Answer::Punct(place as u16);
        assert!(rt; is_answer(word, lex(rt.alloc(), word), wanted), "{place}");
    }
}

#[test]
fn values_are_those_of_their_texts(rt: HostRuntime) {
    for case in VALUES {
        assert!(rt; is_answer(case.text, lex(rt.alloc(), case.text), case.answer));
    }
}

#[test]
fn the_first_fault_is_answered(rt: HostRuntime) {
    for case in FAULTS {
        assert!(rt; is_answer(case.text, lex(rt.alloc(), case.text), case.answer));
    }
}

#[test]
fn a_line_continuation_is_a_fault(rt: HostRuntime) {
    for case in CONTINUED {
        assert!(rt; is_answer(case.text, lex(rt.alloc(), case.text), case.answer));
    }
}

#[test]
fn comments_and_include_lines_are_passed(rt: HostRuntime) {
    for case in PASSED {
        assert!(rt; is_answer(case.text, lex(rt.alloc(), case.text), case.answer));
    }
}

/// A return of 0 in so many parentheses, and what follows it.
fn in_parentheses(
    rt: &impl Alloc<A = std::alloc::Global>,
    count: usize,
    more: &[u8],
) -> Result<Vec<u8>, Fail> {
    let mut text = Vec::from_slice(rt.alloc(), b"int main(void) { return ")?;
    for _ in 0..count {
        text.push(b'(')?;
    }
    text.push(b'0')?;
    for _ in 0..count {
        text.push(b')')?;
    }
    text.extend_from_slice(b"; }")?;
    text.extend_from_slice(more)?;
    Ok(text)
}

#[test]
fn a_nest_above_256_is_refused_where_nothing_else_is(rt: HostRuntime) -> Result<(), Fail> {
    let wanted: [(usize, &[u8], Option<LexRefusal>); 4] = [
        (255, b"", None),
        (256, b"", Some(LexRefusal::Depth(279))),
        (256, b" auto", Some(LexRefusal::Construct(6, 541))),
        (256, b" auto @", Some(LexRefusal::BadByte(546))),
    ];
    for (count, more, refusal) in wanted {
        let text = in_parentheses(&rt, count, more)?;
        assert_eq!(rt; lex(rt.alloc(), text.as_slice()).err(), refusal);
    }
    Ok(())
}

fn letter(kind: &Kind) -> u8 {
    match kind {
        Kind::Name(_) => b'n',
        Kind::Key(_) => b'k',
        Kind::Number(_) => b'd',
        Kind::Text(_) => b't',
        Kind::Punct(_) => b'p',
        Kind::Refused(_) => b'r',
    }
}

#[test]
fn a_whole_file_has_its_tokens(rt: HostRuntime) -> Result<(), Fail> {
    let mut file = Vec::new(rt.alloc());
    for line in FILE {
        file.extend_from_slice(line)?;
    }
    let tokens = lex(rt.alloc(), file.as_slice())?;
    let mut spelled = Vec::new(rt.alloc());
    let mut kinds = Vec::new(rt.alloc());
    for token in tokens.list.as_slice() {
        let bytes = file.as_slice().get(token.start..token.end).unwrap_or(b"");
        spelled.extend_from_slice(bytes)?;
        spelled.push(b' ')?;
        kinds.push(letter(&token.kind))?;
    }
    let mut wanted = Vec::new(rt.alloc());
    for line in LISTED {
        wanted.extend_from_slice(line)?;
    }
    let mut wanted_kinds = Vec::new(rt.alloc());
    for line in KINDS {
        wanted_kinds.extend_from_slice(line)?;
    }
    assert!(rt; spelled.as_slice() == wanted.as_slice());
    assert!(rt; kinds.as_slice() == wanted_kinds.as_slice());
    assert_eq!(rt; tokens.size, file.len());
    assert_eq!(rt; tokens.last_comment, None);
    Ok(())
}

// What the command writes and answers, and what a repair gives.
use memfix_engine::{SOURCE_LIMIT, memfix, read_source, repair};
use mf_io::{MemSink, MemSource};
use std::alloc::{AllocError, Global};
use std::test::Fail;

const USAGE: &str =
    "memfix: usage: repair [--cert], verify, replay --steps N [--fails BITS] [--input TEXT], selfrun N\n";

const ONE: &str =
    "int main(void) { int *p = malloc(sizeof(int)); *p = 7; printf(\"%d\\n\", *p); return 0; }";

const ONE_REPAIRED: &str =
    "int main(void) { int *p = malloc(sizeof(int)); *p = 7; printf(\"%d\\n\", *p);  free(p); return 0; }";

const GUARDED: &str =
    "int main(void) { int *p = malloc(sizeof(int)); if (p == NULL) { return 1; } *p = 7; printf(\"%d\\n\", *p); return 0; }";

const GUARDED_REPAIRED: &str =
    "int main(void) { int *p = malloc(sizeof(int)); if (p == NULL) { return 1; } *p = 7; printf(\"%d\\n\", *p);  free(p); return 0; }";

// No gap follows the last read.
const STUCK: &str =
    "int main(void) { int *p = malloc(sizeof(int)); if (p == NULL) { return 1; } *p = 7; return *p; }";

// One exit needs a free in `eat`, one needs a free before `return r`, and an object meets both.
const TANGLED: &str =
    "int eat(int *p) { return 0; } int main(void) { int r = 0; int c = getchar(); int *a = malloc(sizeof(int)); if (c == 2) return eat(a); if (c == 1) r = eat(a); return r; }";

const EMPTY: &str = "int main(void) {\n}";

const ECHO: &str =
    "int main(void) { int c = getchar(); putchar(c); c = getchar(); putchar(c); c = getchar(); return c; }";

// A free before a store.
const EARLY: &str = "int main(void) { int *a = malloc(sizeof(int)); free(a); *a = 1; return 0; }";

const EARLY_REPAIRED: &str =
    "int main(void) { int *a = malloc(sizeof(int));        ; *a = 1;  free(a); return 0; }";

// Its own frees fit. An include line and comments stand between the tokens.
const OWN: &str =
    "#include <stdio.h>\nint main(void) { int *p = malloc(sizeof(int)); free(p); /* p */ int *q = malloc(sizeof(int)); free(q); return 0; } // end";

// Freed twice in one gap.
const TWICE: &str =
    "int main(void) { int *p = malloc(sizeof(int)); if (p == NULL) { return 1; } *p = 7; free(p); free(p); return 0; }";

const TWICE_REPAIRED: &str =
    "int main(void) { int *p = malloc(sizeof(int)); if (p == NULL) { return 1; } *p = 7;        ;        ;  free(p); return 0; }";

// The words and the source of a call, and the calls of source, output and notes that fail: from 1,
// or 0 for none.
#[derive(Drop)]
struct Call<'a> {
    words: &'a str,
    source: &'a str,
    fails: (u64, u64, u64),
}

// What it answers, and how often it read.
#[derive(Drop)]
struct Answer {
    status: u8,
    output: Vec<u8>,
    notes: Vec<u8>,
    reads: u64,
}

fn words_of(alloc: Global, text: &str) -> Result<Vec<String>, AllocError> {
    let mut words = Vec::new(alloc);
    for word in text.split_whitespace() {
        words.push(String::from_str(alloc, word)?)?;
    }
    Ok(words)
}

fn answer_of(alloc: Global, call: &Call) -> Result<Answer, AllocError> {
    let words = words_of(alloc, call.words)?;
    let mut bytes = Vec::new(alloc);
    bytes.extend_from_slice(call.source.as_bytes())?;
    let (read, write, note) = call.fails;
    let mut source = MemSource::new(bytes, 7, vec![in alloc; read]?);
    let mut output = MemSink::new(alloc, 200, 9, vec![in alloc; write]?)?;
    let mut notes = MemSink::new(alloc, 200, 9, vec![in alloc; note]?)?;
    let status = memfix(
        alloc,
        words.as_slice(),
        &mut source,
        &mut output,
        &mut notes,
    );
    let MemSink { taken: output, .. } = output;
    let MemSink { taken: notes, .. } = notes;
    Ok(Answer {
        status,
        output,
        notes,
        reads: source.calls,
    })
}

#[test]
fn each_call_has_its_status_and_its_bytes(rt: HostRuntime) -> Result<(), Fail> {
    for (words, source, fails, status, output, notes) in [
        ("repair", ONE, (0, 0, 0), 0, ONE_REPAIRED, ""),
        ("repair", EARLY, (0, 0, 0), 0, EARLY_REPAIRED, ""),
        ("repair", OWN, (0, 0, 0), 0, OWN, ""),
        ("repair", TWICE, (0, 0, 0), 0, TWICE_REPAIRED, ""),
        ("repair", EMPTY, (0, 0, 0), 0, EMPTY, ""),
        ("repair", GUARDED, (0, 0, 0), 0, GUARDED_REPAIRED, ""),
        (
            "repair",
            GUARDED_REPAIRED,
            (0, 0, 0),
            0,
            GUARDED_REPAIRED,
            "",
        ),
        (
            "repair",
            STUCK,
            (0, 0, 0),
            3,
            "",
            "memfix: line 1, column 27: no free fits this object on the way to the exit at line 1\n",
        ),
        (
            "repair",
            TANGLED,
            (0, 0, 0),
            3,
            "",
            "memfix: no choice of frees covers every object exactly once\n",
        ),
        (
            "replay --steps 9",
            GUARDED,
            (0, 0, 0),
            0,
            "7\n",
            "memfix: 5 steps, returned 0, 1 live\n",
        ),
        (
            "replay --steps 9 --fails 1",
            GUARDED,
            (0, 0, 0),
            0,
            "",
            "memfix: 3 steps, returned 1, 0 live\n",
        ),
        // What getchar reads is the input, and then its end.
        (
            "replay --steps 9 --input ab",
            ECHO,
            (0, 0, 0),
            0,
            "ab",
            "memfix: 6 steps, returned -1, 0 live\n",
        ),
        ("replay --steps", ONE, (0, 0, 0), 2, "", USAGE),
        ("replay --steps 10000001", ONE, (0, 0, 0), 2, "", USAGE),
        ("replay --steps 1 --fails 2", ONE, (0, 0, 0), 2, "", USAGE),
        ("replay --steps 1 --input -1", ONE, (0, 0, 0), 2, "", USAGE),
        // The output fails, and then notes.
        ("replay --steps 9", GUARDED, (0, 1, 0), 6, "", ""),
        ("replay --steps 9", GUARDED, (0, 0, 1), 6, "7\n", ""),
        ("repair --loud", ONE, (0, 0, 0), 2, "", USAGE),
        ("", ONE, (0, 0, 0), 2, "", USAGE),
        // A fault in mid-stream.
        ("repair", ONE, (2, 0, 0), 5, "", "memfix: read fault\n"),
        ("repair", ONE, (0, 2, 0), 6, "int main(", ""),
        ("repair", STUCK, (0, 0, 2), 6, "", "memfix: l"),
    ] {
        let call = Call {
            words,
            source,
            fails,
        };
        let answer = answer_of(rt.alloc(), &call)?;
        assert_eq!(rt; answer.status, status, "{words} {source}");
        assert_eq!(rt; answer.output.as_slice(), output.as_bytes());
        assert_eq!(rt; answer.notes.as_slice(), notes.as_bytes());
        assert_eq!(rt; answer.reads == 0, status == 2);
    }
    Ok(())
}

#[test]
fn each_refused_text_has_its_line(rt: HostRuntime) -> Result<(), Fail> {
    for (source, line) in [
        (
            "int main(void) {\n  @",
            "line 2, column 3: byte not allowed here",
        ),
        ("x = 1; /* y", "line 1, column 8: comment without an end"),
        ("\n\n'ab'", "line 3, column 1: text without an end"),
        ("\"a\\q\"", "line 1, column 3: escape not in the profile"),
        ("x 2147483648", "line 1, column 3: number too large"),
        ("x =\nauto", "line 2, column 1: not in the profile: auto"),
        (
            "a >>= b",
            "line 1, column 3: not in the profile: right shift",
        ),
        (
            "x = 010;",
            "line 1, column 5: not in the profile: number form",
        ),
        // A lexical fault comes before a refused token that stands before it.
        ("auto @", "line 1, column 6: byte not allowed here"),
        // A lexical fault comes before a missing semicolon, and that before an unknown name.
        (
            "int main(void) { x = 1; return 0 } @",
            "line 1, column 36: byte not allowed here",
        ),
        (
            "int main(void) { x = 1; return 0 }",
            "line 1, column 34: syntax",
        ),
        (
            "int main(void) { x = 1; return 0; }",
            "line 1, column 18: unknown name",
        ),
        ("int main(void) { return 0;\n", "line 2, column 1: syntax"),
        (
            "int main(void) { int x; int x; return 0; }",
            "line 1, column 29: declared twice",
        ),
        (
            "int x; int main(void) { int x; return 0; }",
            "line 1, column 29: hides an outer name",
        ),
        (
            "int f(int a) { return a; } int main(void) { int r; r = f(); return r; }",
            "line 1, column 58: type rule 6",
        ),
        (
            "int f(void) { } int main(void) { return 0; }",
            "line 1, column 15: a path ends without a value",
        ),
        (
            "int main(void) { break; return 0; }",
            "line 1, column 18: jump outside a loop",
        ),
        (
            "void f(void) { f(); } int main(void) { return 0; }",
            "line 1, column 16: recursion",
        ),
        ("int x;\n", "line 2, column 1: no definition of main"),
    ] {
        let call = Call {
            words: "repair",
            source,
            fails: (0, 0, 0),
        };
        let answer = answer_of(rt.alloc(), &call)?;
        let notes = format!(in rt.alloc(); "memfix: {line}\n")?;
        assert_eq!(rt; answer.status, 1, "{source}");
        assert_eq!(rt; answer.notes.as_slice(), notes.as_bytes(), "{source}");
        assert!(rt; answer.output.is_empty());
    }
    Ok(())
}

// The status and the notes of `repair` on these bytes.
fn answer_of_bytes(alloc: Global, bytes: Vec<u8>) -> Result<(u8, Vec<u8>), AllocError> {
    let words = words_of(alloc, "repair")?;
    let mut source = MemSource::new(bytes, 4096, Vec::new(alloc));
    let mut output = MemSink::new(alloc, 8192, 4096, Vec::new(alloc))?;
    let mut notes = MemSink::new(alloc, 200, 200, Vec::new(alloc))?;
    let status = memfix(
        alloc,
        words.as_slice(),
        &mut source,
        &mut output,
        &mut notes,
    );
    let MemSink { taken: notes, .. } = notes;
    Ok((status, notes))
}

// So many bytes of one kind.
fn many(alloc: Global, byte: u8, count: usize) -> Result<Vec<u8>, AllocError> {
    let mut bytes = Vec::new(alloc);
    bytes.resize(count, byte)?;
    Ok(bytes)
}

#[test]
fn each_limit_has_its_line(rt: HostRuntime) -> Result<(), Fail> {
    for (byte, count, wanted, line) in [
        (b' ', SOURCE_LIMIT + 1, 4, "limit: more than 1048576 bytes"),
        (
            b' ',
            SOURCE_LIMIT,
            1,
            "line 1, column 1048577: no definition of main",
        ),
        (
            b'(',
            257,
            4,
            "line 1, column 257: limit: more than 256 levels",
        ),
        (b'(', 256, 1, "line 1, column 1: syntax"),
    ] {
        let (status, notes) = answer_of_bytes(rt.alloc(), many(rt.alloc(), byte, count)?)?;
        let said = format!(in rt.alloc(); "memfix: {line}\n")?;
        assert_eq!(rt; status, wanted, "{line}");
        assert_eq!(rt; notes.as_slice(), said.as_bytes());
    }
    Ok(())
}

// A text with so many calls, and one context more.
fn calls(alloc: Global, count: usize) -> Result<Vec<u8>, AllocError> {
    let mut bytes = Vec::new(alloc);
    bytes.extend_from_slice(b"void f(void) { } int main(void) { ")?;
    for _ in 0..count {
        bytes.extend_from_slice(b"f(); ")?;
    }
    bytes.extend_from_slice(b"return 0; }")?;
    Ok(bytes)
}

#[test]
fn a_count_that_passes_its_limit_has_its_line(rt: HostRuntime) -> Result<(), Fail> {
    for (count, wanted, said) in [
        (1023, 0, ""),
        (1024, 4, "memfix: limit: more than 1024 contexts\n"),
    ] {
        let (status, notes) = answer_of_bytes(rt.alloc(), calls(rt.alloc(), count)?)?;
        assert_eq!(rt; status, wanted, "{said}");
        assert_eq!(rt; notes.as_slice(), said.as_bytes());
    }
    Ok(())
}

#[test]
fn a_text_is_read_and_repaired(rt: HostRuntime) -> Result<(), Fail> {
    let alloc = rt.alloc();
    let program = read_source(alloc, ONE.as_bytes())?;
    assert_eq!(rt; program.vars.len(), 2);
    assert_eq!(rt; program.gaps, 5);
    let text = repair(alloc, ONE.as_bytes(), false)?;
    assert_eq!(rt; text.as_slice(), ONE_REPAIRED.as_bytes());
    Ok(())
}

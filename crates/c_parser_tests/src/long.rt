// Texts as deep as the lexer passes them, and long chains, which have no depth.
use crate::tests::refusal_of;
use std::test::Fail;

/// The body of a function: a part that is repeated, what stands behind these, and what is repeated as often behind that.
#[derive(Clone, Copy, Debug)]
struct Repeated {
    times: usize,
    front: &'static [u8],
    opens: &'static [u8],
    middle: &'static [u8],
    closes: &'static [u8],
}

macro_rules! repeated {
    ($($times:expr => $front:expr, $opens:expr, $middle:expr, $closes:expr;)*) => {
        [$(Repeated { times: $times, front: $front, opens: $opens, middle: $middle, closes: $closes }),*]
    };
}

const LONG: [Repeated; 11] = repeated![
    250 => b"", b"{ ", b"", b"} ";
    120 => b"", b"while (x) ", b"", b"";
    120 => b"", b"if (x) ", b";", b" else ;";
    250 => b"x = ", b"(", b"y", b")";
    250 => b"x = ", b"!", b"y", b"";
    250 => b"x = y", b" + y", b"", b"";
    250 => b"x = y", b"->y", b"", b"";
    2000 => b"if (x) ; ", b"else if (y) { } ", b"else ", b"";
    2000 => b"int x", b", y", b"", b"";
    2000 => b"f(x", b", x", b")", b"";
    2000 => b"", b"free(x); x = x + 1; ", b"", b"";
];

/// A function with that body.
fn function(rt: &impl Alloc<A = std::alloc::Global>, repeated: &Repeated) -> Result<Vec<u8>, Fail> {
    let mut text = Vec::from_slice(rt.alloc(), b"void f() { ")?;
    text.extend_from_slice(repeated.front)?;
    for _ in 0..repeated.times {
        text.extend_from_slice(repeated.opens)?;
    }
    text.extend_from_slice(repeated.middle)?;
    for _ in 0..repeated.times {
        text.extend_from_slice(repeated.closes)?;
    }
    text.extend_from_slice(b"; }")?;
    Ok(text)
}

#[test]
fn deep_and_long_texts_are_read(rt: HostRuntime) -> Result<(), Fail> {
    for repeated in LONG {
        let text = function(&rt, &repeated)?;
        assert_eq!(rt; refusal_of(&rt, text.as_slice())?, None);
    }
    Ok(())
}

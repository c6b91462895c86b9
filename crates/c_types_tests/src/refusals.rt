// Each refusal, at its offset, beside a near miss that breaks no rule.
use c_lexer::lex;
use c_parser::parse;
use c_tree::Program;
use c_types::{TypeRefusal, resolve};
use std::test::Fail;

/// A text that is refused, and one next to it that isn't.
#[derive(Clone, Copy, Debug)]
struct Case {
    refusal: TypeRefusal,
    text: &'static [u8],
    miss: &'static [u8],
}

macro_rules! cases {
    ($($refusal:expr, $text:expr => $miss:expr;)*) => {
        [$(Case { refusal: $refusal, text: $text, miss: $miss }),*]
    };
}

const CASES: [Case; 21] = cases![
    TypeRefusal::Unknown(24), b"int main(void) { return x; }" => b"int x; int main(void) { return x; }";
    TypeRefusal::Twice(28), b"int main(void) { int x; int x; return 0; }" => b"int main(void) { int x; int y; return 0; }";
    TypeRefusal::Hidden(28), b"int x; int main(void) { int x; return 0; }" => b"int main(void) { int x; return 0; } int x;";
    TypeRefusal::Wrong(1, 47), b"struct s { int a; }; int main(void) { struct s x; return 0; }" => b"struct s { int a; }; int main(void) { struct s *x; return 0; }";
    TypeRefusal::Wrong(2, 17), b"int main(void) { 5 = 5; return 0; }" => b"int main(void) { int x; x = 5; return 0; }";
    TypeRefusal::Wrong(3, 27), b"int main(void) { int *p; p = 5; return 0; }" => b"int main(void) { int *p; p = 0; return 0; }";
    TypeRefusal::Wrong(4, 38), b"int main(void) { int *p = NULL; p = p + 1; return 0; }" => b"int main(void) { int p = 0; p = p + 1; return 0; }";
    TypeRefusal::Wrong(5, 30), b"int main(void) { int x; x = 1 && 2; return 0; }" => b"int main(void) { if (!(1 && 2)) return 1; return 0; }";
    TypeRefusal::Wrong(6, 57), b"int f(int a) { return a; } int main(void) { int x; x = f(); return x; }" => b"int f(int a) { return a; } int main(void) { int x; x = f(1); return x; }";
    TypeRefusal::Wrong(7, 24), b"int main(void) { printf(\"%x\", 1); return 0; }" => b"int main(void) { printf(\"%d%%\", 1); return 0; }";
    TypeRefusal::Wrong(8, 52), b"struct s { int a; }; int main(void) { struct s *p = malloc(2 * sizeof(struct s)); return 0; }" => b"int main(void) { int *p = malloc(2 * sizeof(int)); return 0; }";
    TypeRefusal::Wrong(9, 17), b"int main(void) { return; }" => b"void f(void) { return; } int main(void) { return 0; }";
    TypeRefusal::Wrong(10, 18), b"int f(int a); int f(int *a) { return 0; } int main(void) { return 0; }" => b"int f(int *b); int f(int *a) { return 0; } int main(void) { return 0; }";
    TypeRefusal::Wrong(11, 62), b"int f(int a) { return a; } int main(void) { int *p = NULL; *p = f(1); return 0; }" => b"int f(int a) { return a; } int main(void) { int p; p = f(1); return 0; }";
    TypeRefusal::Wrong(12, 4), b"int main(int x) { return 0; }" => b"int main() { return 0; }";
    TypeRefusal::Wrong(13, 6), b"int f(int) { return 0; } int main(void) { return 0; }" => b"int f(int); int f(int a) { return 0; } int main(void) { return 0; }";
    TypeRefusal::Wrong(14, 55), b"struct s; int main(void) { struct s *p = NULL; return p->a; }" => b"struct s { int a; }; int main(void) { struct s *p = NULL; return p->a; }";
    TypeRefusal::Recursion(84), b"int g(int a); int f(int a) { int r; r = g(a); return r; } int g(int a) { int r; r = f(a); return r; } int main(void) { int r; r = f(1); return r; }" => b"int g(int a); int f(int a) { int r; r = g(a); return r; } int g(int a) { return a; } int main(void) { int r; r = f(1); return r; }";
    TypeRefusal::NoMain, b"int main;" => b"int x; int main(void) { return 0; }";
    TypeRefusal::NoValue(32), b"int f(int a) { if (a) return 1; } int main(void) { return 0; }" => b"int f(int a) { while (1) { } } int main(void) { return 0; }";
    TypeRefusal::Jump(17), b"int main(void) { break; return 0; }" => b"int main(void) { while (1) { if (1) break; } return 0; }";
];

/// The program of a text that the parser passes.
pub fn program_of(
    rt: &impl Alloc<A = std::alloc::Global>,
    text: &[u8],
) -> Result<Result<Program, TypeRefusal>, Fail> {
    let tokens = lex(rt.alloc(), text)?;
    let tree = parse(rt.alloc(), &tokens)?;
    Ok(resolve(rt.alloc(), &tree))
}

#[test]
fn each_refusal_is_told_from_a_near_miss(rt: HostRuntime) -> Result<(), Fail> {
    for case in &CASES {
        assert_eq!(rt; program_of(&rt, case.text)?.err(), Some(case.refusal));
        assert_eq!(rt; program_of(&rt, case.miss)?.err(), None);
    }
    Ok(())
}

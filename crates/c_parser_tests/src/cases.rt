// Texts for the productions of the grammar: each beside a near miss, with the offset of the token that can't come there.

/// A text of the grammar, and one whose tokens stop at an offset to begin one.
#[derive(Clone, Copy, Debug)]
pub struct Pair {
    pub text: &'static [u8],
    pub miss: &'static [u8],
    pub at: usize,
}

macro_rules! pairs {
    ($($text:expr => $miss:expr, $at:expr;)*) => {
        [$(Pair { text: $text, miss: $miss, at: $at }),*]
    };
}

/// What stands in a file: structs, globals, functions and their parameters.
pub const FILE: [Pair; 18] = pairs![
    b"typedef struct a b;" => b"typedef struct a ;", 17;
    b"typedef struct a { int x; } b;" => b"typedef struct a { int x; } ;", 28;
    b"typedef struct { int x; } b;" => b"typedef struct b  ", 18;
    b"struct a;" => b"struct a = 1;", 9;
    b"struct a { int x; struct a *y, *z; };" => b"struct a { };", 11;
    b"struct a { b *x, y; int z; };" => b"struct a { int x, int y; };", 18;
    b"int x, *y = NULL, z = -1;" => b"int x y;", 6;
    b"struct a *x = NULL;" => b"struct *x;", 7;
    b"a b = EOF;" => b"a = EOF;", 2;
    b"int x = 0;" => b"int x = y;", 8;
    b"int x = -7;" => b"int x = -EOF;", 9;
    b"void f();" => b"void *f();", 5;
    b"int *f(void);" => b"int **f();", 5;
    b"a *f(int, b *y, struct c *);" => b"int f(int,);", 10;
    b"int f(void) { }" => b"int f(void x) { }", 11;
    b"struct a *f(int x) { }" => b"int f(int x)", 12;
    b"int f(int *x);" => b"int f(int *x *y);", 13;
    b"int f(int a) { return a; } int main(void) { int r; r = f(); return r; }" => b"int f(int a) { return a; } int main(void) { int r; r = f(; return r; }", 57;
];

/// Statements, each in a function.
pub const STATEMENTS: [Pair; 18] = pairs![
    b"int main(void) { free(x); }" => b"int main(void) { free(x; }", 23;
    b"int main(void) { ;; }" => b"int main(void) { , }", 17;
    b"int main(void) { int x, *y = x; a *b; struct c *d; }" => b"int main(void) { int x y; }", 23;
    b"int main(void) { a * b; }" => b"int main(void) { a * 1; }", 21;
    b"int main(void) { x = 1; }" => b"int main(void) { x y * 2; }", 21;
    b"int main(void) { f(x, y); }" => b"int main(void) { f(x,); }", 21;
    b"int main(void) { { { } } }" => b"int main(void) { { { } }", 24;
    b"int main(void) { if (x) y = 1; }" => b"int main(void) { if x y = 1; }", 20;
    b"int main(void) { if (x) { } else if (y) ; else free(z); }" => b"int main(void) { if (x) else }", 24;
    b"int main(void) { if (x) if (y) ; else ; else ; }" => b"int main(void) { if (x) ; else ; else ; }", 33;
    b"int main(void) { if (x) int y = 1; }" => b"int main(void) { if (x) }", 24;
    b"int main(void) { while (x) while (y) ; }" => b"int main(void) { while () ; }", 24;
    b"int main(void) { for (;;) ; }" => b"int main(void) { for (;) ; }", 23;
    b"int main(void) { for (int i = 0, j; i < j; i++) { } }" => b"int main(void) { for (int i = 0; i; i++;) ; }", 39;
    b"int main(void) { for (x = y; ; x = f()) break; }" => b"int main(void) { for (f(); ;) ; }", 23;
    b"int main(void) { break; continue; }" => b"int main(void) { break continue; }", 23;
    b"int main(void) { return; }" => b"int main(void) { return 0 }", 26;
    b"int main(void) { return malloc(sizeof(int)); }" => b"int main(void) { return return; }", 24;
];

/// Assignments and what they are of.
pub const CHANGES: [Pair; 6] = pairs![
    b"int main(void) { x->y[z] = w; }" => b"int main(void) { x->1 = w; }", 20;
    b"int main(void) { *x = y; **x = *y; }" => b"int main(void) { *x++; }", 19;
    b"int main(void) { x += y; x -= y; x *= y; }" => b"int main(void) { x += malloc(1); }", 22;
    b"int main(void) { x++; x--; ++x; --*x; }" => b"int main(void) { ++x = 1; }", 21;
    b"int main(void) { (x) = 1; (x)++; }" => b"int main(void) { -x = 1; }", 17;
    b"int main(void) { 1 = 2; }" => b"int main(void) { x + 1; }", 19;
];

/// Calls and the sizes of requests.
pub const CALLS: [Pair; 11] = pairs![
    b"int main(void) { getchar(); }" => b"int main(void) { getchar(x); }", 25;
    b"int main(void) { putchar(x); }" => b"int main(void) { putchar(); }", 25;
    b"int main(void) { printf(\"%d\", x, y); }" => b"int main(void) { printf(x); }", 24;
    b"int main(void) { x = malloc(sizeof(struct a)); }" => b"int main(void) { x = malloc(); }", 28;
    b"int main(void) { x = (int *) malloc(sizeof(int)); }" => b"int main(void) { x = (int *) f(); }", 29;
    b"int main(void) { x = (a *) malloc(sizeof(a) * (n + 1)); }" => b"int main(void) { x = (a *) malloc; }", 33;
    b"int main(void) { x = (a * b); }" => b"int main(void) { x = (a *) y; }", 27;
    b"int main(void) { x = malloc(n * 2 * sizeof *x); }" => b"int main(void) { x = malloc(n + 1 * sizeof(int)); }", 30;
    b"int main(void) { x = malloc(sizeof(*x) * -n); }" => b"int main(void) { x = malloc(sizeof(int) * n + 1); }", 44;
    b"int main(void) { x = malloc((n + 1) * sizeof(int)); }" => b"int main(void) { x = malloc(sizeof int); }", 35;
    b"int main(void) { malloc(n * b * sizeof(int)); }" => b"int main(void) { malloc(n * b); }", 29;
];

/// Expressions, level by level.
pub const EXPRESSIONS: [Pair; 11] = pairs![
    b"int main(void) { x = a || b || c; }" => b"int main(void) { x = a || || c; }", 26;
    b"int main(void) { x = a && b; }" => b"int main(void) { x = a && ; }", 26;
    b"int main(void) { x = a == b != c; }" => b"int main(void) { x = a == = c; }", 26;
    b"int main(void) { x = a < b <= c > d >= e; }" => b"int main(void) { x = a < > b; }", 25;
    b"int main(void) { x = a + b - c; }" => b"int main(void) { x = a + / b; }", 25;
    b"int main(void) { x = a * b / c % d; }" => b"int main(void) { x = a b; }", 23;
    b"int main(void) { x = -!*a; }" => b"int main(void) { x = ++a; }", 21;
    b"int main(void) { x = a->b[c]->d; }" => b"int main(void) { x = a->(b); }", 24;
    b"int main(void) { x = f(a[b->c]); }" => b"int main(void) { x = a[]; }", 23;
    b"int main(void) { x = 1 + NULL + EOF + a + (b); }" => b"int main(void) { x = (); }", 22;
    b"int main(void) { x = g(1); }" => b"int main(void) { x = 1 + g(1); }", 26;
];

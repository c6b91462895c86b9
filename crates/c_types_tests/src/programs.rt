// Worked programs with the numbers of their variables, gaps and calls.
use c_tree::{Home, Ty};

/// A variable as its declaration has it.
#[derive(Clone, Copy, Debug)]
pub struct Variable {
    pub name: &'static [u8],
    pub ty: Ty,
    pub home: Home,
    pub at: usize,
}

macro_rules! variables {
    ($($name:expr, $ty:expr, $home:expr, $at:expr;)*) => {
        [$(Variable { name: $name, ty: $ty, home: $home, at: $at }),*]
    };
}

/// Each form of a `for`.
pub const FORS: &[u8] =
    b"int main(void) {\n  int n = 0;\n  int k;\n  for (int i = 0; i < 3; i += 2) { if (i == 2) continue; n += i + 1; }\n  for (k = 4; ; k--) { if (k < 2) break; n *= k; }\n  for (;;) { break; }\n  for (k = 0; 0; k++) n = 99;\n  printf(\"%d %%\\n\", n);\n  return n;\n}\n";

pub const FORS_VARIABLES: [Variable; 4] = variables![
    b"n", Ty::Int, Home::Local(0), 23;
    b"k", Ty::Int, Home::Local(0), 36;
    b"i", Ty::Int, Home::Local(0), 50;
    b"", Ty::Int, Home::Result(0), 249;
];

/// Functions that return what a call gives.
pub const RETURNS: &[u8] =
    b"int *fresh(void) { return malloc(sizeof(int)); }\nint *again(int c) { if (c < 0) return NULL; return fresh(); }\nint next(void) { return getchar(); }\nint main(void) {\n  int c = next();\n  int *p = again(c);\n  if (p == 0) return 3;\n  *p = c;\n  putchar(*p);\n  return next();\n}\n";

pub const RETURNS_VARIABLES: [Variable; 7] = variables![
    b"", Ty::IntPtr, Home::Result(0), 47;
    b"c", Ty::Int, Home::Param(1), 64;
    b"", Ty::IntPtr, Home::Result(1), 109;
    b"", Ty::Int, Home::Result(2), 146;
    b"c", Ty::Int, Home::Local(3), 171;
    b"p", Ty::IntPtr, Home::Local(3), 190;
    b"", Ty::Int, Home::Result(3), 270;
];

/// Globals, and a function that nobody calls.
pub const GLOBALS: &[u8] =
    b"int *kept;\nint count = -2;\nvoid put_away(int *p) { if (kept == NULL) { kept = p; } count += 1; }\nvoid never(void) { int *q = malloc(sizeof(int)); free(q); }\nint main(void) {\n  int *p = malloc(sizeof(int));\n  if (p == NULL) return 1;\n  *p = 1;\n  put_away(p);\n  printf(\"%d %d\\n\", *kept, count);\n  return 0;\n}\n";

pub const GLOBALS_VARIABLES: [Variable; 6] = variables![
    b"kept", Ty::IntPtr, Home::Global(0), 5;
    b"count", Ty::Int, Home::Global(-2), 15;
    b"p", Ty::IntPtr, Home::Param(0), 46;
    b"q", Ty::IntPtr, Home::Local(1), 121;
    b"p", Ty::IntPtr, Home::Local(2), 181;
    b"", Ty::Int, Home::Result(2), 305;
];

/// A struct that points to its own kind.
pub const CHAIN: &[u8] =
    b"struct node { int v; struct node *next; };\nint main(void) {\n  struct node *a = malloc(sizeof(struct node));\n  struct node *b;\n  struct node *c;\n  if (a == NULL) return 1;\n  a->v = 1; a->next = NULL;\n  b = malloc(sizeof(struct node));\n  if (b == NULL) return 2;\n  b->v = 2; b->next = a;\n  c = b->next->next;\n  if (c == NULL) printf(\"%d\\n\", b->next->v);\n  if (b->next == a) a->v = 7;\n  return b->next->v;\n}\n";

pub const CHAIN_VARIABLES: [Variable; 4] = variables![
    b"a", Ty::StructPtr(0), Home::Local(0), 75;
    b"b", Ty::StructPtr(0), Home::Local(0), 123;
    b"c", Ty::StructPtr(0), Home::Local(0), 141;
    b"", Ty::Int, Home::Result(0), 403;
];

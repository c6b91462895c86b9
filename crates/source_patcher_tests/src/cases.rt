// Texts, the frees of their gaps, and the edited texts.
use c_tree::Put;

/// A text, what its gaps are filled with, and the edited text.
#[derive(Clone, Copy, Debug)]
pub struct Case {
    pub text: &'static [u8],
    pub puts: &'static [Put],
    pub edited: &'static [u8],
}

macro_rules! cases {
    ($($text:expr, [$(($gap:expr, $var:expr, $field:expr)),*] => $edited:expr;)*) => {
        [$(Case { text: $text, puts: &[$(Put { gap: $gap, var: $var, field: $field }),*], edited: $edited }),*]
    };
}

pub const CASES: [Case; 18] = cases![
    // Two frees in one gap.
    b"int main(void) { int *p = malloc(sizeof(int)); if (p == NULL) { return 1; } *p = 7; free(p); free(p); return 0; }", [(5, 0, None)] => b"int main(void) { int *p = malloc(sizeof(int)); if (p == NULL) { return 1; } *p = 7;        ;        ;  free(p); return 0; }";
    // A free moves past a read.
    b"int main(void) { int x; int *p = malloc(sizeof(int)); if (p == NULL) { return 1; } *p = 3; free(p); x = *p; return x; }", [(7, 1, None)] => b"int main(void) { int x; int *p = malloc(sizeof(int)); if (p == NULL) { return 1; } *p = 3;        ; x = *p;  free(p); return x; }";
    // A body gets braces.
    b"int main(void) { int *q = malloc(sizeof(int)); int *p; if (q == NULL) return 2; p = malloc(sizeof(int)); if (p == NULL) return 1; *p = 2; *q = 3; printf(\"%d\\n\", *p + *q); return 0; }", [(7, 0, None), (12, 0, None), (12, 1, None)] => b"int main(void) { int *q = malloc(sizeof(int)); int *p; if (q == NULL) return 2; p = malloc(sizeof(int)); if (p == NULL)  {  free(q); return 1; }  *p = 2; *q = 3; printf(\"%d\\n\", *p + *q);  free(q);  free(p); return 0; }";
    // A new object in each turn of a loop.
    b"int main(void) { int i = 0; while (i < 3) { int *p = malloc(sizeof(int)); if (p == NULL) return 1; *p = 1; i += *p; } printf(\"%d\\n\", i); return 0; }", [(8, 1, None)] => b"int main(void) { int i = 0; while (i < 3) { int *p = malloc(sizeof(int)); if (p == NULL) return 1; *p = 1; i += *p;  free(p); } printf(\"%d\\n\", i); return 0; }";
    // A file with a struct.
    b"#include <stdio.h>\n#include <stdlib.h>\nstruct buf { int len; int *data; };\nstruct buf *make(int n) {\n  struct buf *b = malloc(sizeof(struct buf));\n  if (b == NULL) return NULL;\n  b->data = malloc(n * sizeof(int));\n  if (b->data == NULL) return NULL;\n  b->len = n;\n  return b;\n}\nint main(void) {\n  int i;\n  struct buf *b = make(4);\n  if (b == NULL) return 1;\n  for (i = 0; i < b->len; i++) { b->data[i] = i * i; }\n  printf(\"%d\\n\", b->data[3]);\n  free(b);\n  return 0;\n}\n", [(6, 1, None), (20, 4, Some(1)), (20, 4, None)] => b"#include <stdio.h>\n#include <stdlib.h>\nstruct buf { int len; int *data; };\nstruct buf *make(int n) {\n  struct buf *b = malloc(sizeof(struct buf));\n  if (b == NULL) return NULL;\n  b->data = malloc(n * sizeof(int));\n  if (b->data == NULL)  {  free(b); return NULL; } \n  b->len = n;\n  return b;\n}\nint main(void) {\n  int i;\n  struct buf *b = make(4);\n  if (b == NULL) return 1;\n  for (i = 0; i < b->len; i++) { b->data[i] = i * i; }\n  printf(\"%d\\n\", b->data[3]);\n         ;\n   free(b->data);  free(b); return 0;\n}\n";
    // A free inside a branch.
    b"int main(void) { int c = getchar(); int *p; if (c == 'a') { p = malloc(sizeof(int)); if (p == NULL) return 1; *p = c; } return 0; }", [(8, 1, None)] => b"int main(void) { int c = getchar(); int *p; if (c == 'a') { p = malloc(sizeof(int)); if (p == NULL) return 1; *p = c;  free(p); } return 0; }";
    // A free goes from a function to its callers.
    b"void drop(int *p, int n) { printf(\"%d\\n\", n); free(p); } int main(void) { int *a = malloc(sizeof(int)); int *b; if (a == NULL) return 1; b = malloc(sizeof(int)); if (b == NULL) { drop(a, 0); return 2; } *a = 1; *b = 2; drop(a, *b); drop(b, *a); return 0; }", [(10, 2, None), (16, 2, None), (16, 3, None)] => b"void drop(int *p, int n) { printf(\"%d\\n\", n);        ; } int main(void) { int *a = malloc(sizeof(int)); int *b; if (a == NULL) return 1; b = malloc(sizeof(int)); if (b == NULL) { drop(a, 0);  free(a); return 2; } *a = 1; *b = 2; drop(a, *b); drop(b, *a);  free(a);  free(b); return 0; }";
    // A gap with equal lists keeps its bytes.
    b"int main(void) { int *p = NULL; int *q = NULL; free ( p ) ; p = q; return 0; }", [(2, 0, None)] => b"int main(void) { int *p = NULL; int *q = NULL; free ( p ) ; p = q; return 0; }";
    // The order of a list counts.
    b"int main(void) { int *p = NULL; int *q = NULL; free(q); free(p); return 0; }", [(2, 0, None), (2, 1, None)] => b"int main(void) { int *p = NULL; int *q = NULL;        ;        ;  free(p);  free(q); return 0; }";
    // An old free over several lines keeps its comments and its `;`.
    b"int main(void) { int *p = NULL; int *q = NULL; free /* a\n b */ (\n\tp // c\n ) /* d */ ; return 0; }", [] => b"int main(void) { int *p = NULL; int *q = NULL;      /* a\n b */  \n\t  // c\n   /* d */ ; return 0; }";
    // A lone `;` stays.
    b"int main(void) { int *p = NULL; int *q = NULL; ; free((p)); ; return 0; }", [(2, 1, None)] => b"int main(void) { int *p = NULL; int *q = NULL; ;          ; ;  free(q); return 0; }";
    // New frees stand before the next item, or before the closing brace.
    b"struct s { int *a; struct s *b; }; int main(void) { struct s *x = malloc(sizeof(struct s)); { x = NULL; } return 0; }", [(1, 0, Some(0)), (1, 0, Some(1)), (2, 0, None), (3, 0, Some(1)), (5, 0, None)] => b"struct s { int *a; struct s *b; }; int main(void) { struct s *x = malloc(sizeof(struct s));  free(x->a);  free(x->b); {  free(x); x = NULL;  free(x->b); } return 0;  free(x); }";
    // Bodies get braces where a free is written into a gap of their own.
    b"int main(void) { int *p = NULL; int *q = NULL; if (p) q = p; else q = NULL; return 0; }", [(3, 0, None), (6, 1, None)] => b"int main(void) { int *p = NULL; int *q = NULL; if (p)  {  free(p); q = p; }  else  { q = NULL; free(q);  }  return 0; }";
    // A free that goes gives no braces.
    b"int main(void) { int *p = NULL; int *q = NULL; while (p) free(p); return 0; }", [] => b"int main(void) { int *p = NULL; int *q = NULL; while (p)        ; return 0; }";
    // A body that is a free gets braces where another one comes.
    b"int main(void) { int *p = NULL; int *q = NULL; while (p) free(p); return 0; }", [(3, 1, None)] => b"int main(void) { int *p = NULL; int *q = NULL; while (p)  {        ; free(q);  }  return 0; }";
    // Three bodies end at one place, and a free stands in each gap there.
    b"int main(void) { int *p = NULL; int *q = NULL; if (p) while (q) for (;;) p = q;q = p; return 0; }", [(2, 0, None), (3, 0, None), (4, 0, None), (5, 0, None), (6, 0, None), (7, 0, None), (8, 0, None), (9, 0, None)] => b"int main(void) { int *p = NULL; int *q = NULL;  free(p); if (p)  {  free(p); while (q)  {  free(p); for (;;)  {  free(p); p = q; free(p);  }  free(p);  }  free(p);  }  free(p); q = p; return 0; }";
    // All other bytes stay.
    b"// a\n#include <stdio.h>\nvoid f ( void )\t{ }\n/* b */ int main(void)\r\n{ int *p = NULL ; /* c */ return '}' ; // }\n}", [(2, 0, None)] => b"// a\n#include <stdio.h>\nvoid f ( void )\t{ }\n/* b */ int main(void)\r\n{ int *p = NULL ; /* c */  free(p); return '}' ; // }\n}";
    // The last `else` stays with the inner `if`.
    b"int main(void) { int *p = NULL; int *q = NULL; if (p) if (q) ; else ; return 0; }", [(4, 0, None), (5, 1, None), (6, 0, None)] => b"int main(void) { int *p = NULL; int *q = NULL; if (p)  { if (q)  { ; free(p);  }  else  { ; free(q);  }  free(p);  }  return 0; }";
];

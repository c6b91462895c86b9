// Programs, and the names of their graphs: expressions, sites, and the puts gap by gap.

/// A program and its names: `v2` is variable 2, `v2.1` is field 1 of its struct.
#[derive(Clone, Copy, Debug)]
pub struct Course {
    pub text: &'static [u8],
    pub expressions: &'static str,
    pub sites: &'static str,
    pub puts: &'static [&'static str],
}

pub const BRANCH: Course = Course {
    text: b"int main(void) { int *p = malloc(sizeof(int)); if (p == NULL) { return 1; } *p = 7; printf(\"%d\\n\", *p); return 0; }",
    expressions: "v0",
    sites: "1",
    puts: &[
        "1: v0", "2: v0", "3: v0", "4: v0", "5: v0", "6: v0", "7: v0",
    ],
};

pub const CALLS_IN_TWO_CONTEXTS: Course = Course {
    text: b"int *make(int v) {
  int *p = malloc(sizeof(int));
  if (p == NULL) return NULL;
  *p = v;
  return p;
}
int sum(int *a, int *b) { return *a + *b; }
int main(void) {
  int s;
  int *x = make(3);
  int *y;
  if (x == NULL) return 1;
  y = make(4);
  if (y == NULL) return 2;
  s = sum(x, y);
  printf(\"%d\\n\", s);
  return 0;
}",
    expressions: "v1 v2 v3 v4 v7 v8",
    sites: "27 40",
    puts: &[
        "1: v1",
        "2: v1",
        "3: v1",
        "4: v1",
        "5: v1",
        "6: v1",
        "7: v3 v4",
        "8: v3 v4",
        "11: v7",
        "12: v7 v8",
        "13: v7 v8",
        "14: v7 v8",
        "15: v7 v8",
        "16: v7 v8",
        "17: v7 v8",
        "18: v7 v8",
        "19: v7 v8",
        "20: v7 v8",
        "21: v7 v8",
        "22: v7 v8",
    ],
};

pub const FIELDS_AND_ALIASES: Course = Course {
    text: b"struct pair { int *left; int *right; int n; };
int main(void) {
  struct pair *a = malloc(sizeof(struct pair));
  struct pair *b = a;
  int *v = malloc(sizeof(int));
  if (a == NULL) return 1;
  a->left = NULL; a->right = NULL; a->n = 2;
  if (v == NULL) return 2;
  *v = 5;
  b->left = v;
  v = NULL;
  if (a->left == b->left) printf(\"%d\\n\", *a->left);
  a->right = a->left;
  a->left = NULL;
  return 0;
}",
    expressions: "v0 v1 v2 v0.0 v0.1 v1.0 v1.1",
    sites: "1 5",
    puts: &[
        "1: v0.0 v0.1 v0",
        "2: v0.0 v0.1 v1.0 v1.1 v0 v1",
        "3: v0.0 v0.1 v1.0 v1.1 v0 v1 v2",
        "4: v0.0 v0.1 v1.0 v1.1 v0 v1 v2",
        "5: v0.0 v0.1 v1.0 v1.1 v0 v1 v2",
        "6: v0.0 v0.1 v1.0 v1.1 v0 v1 v2",
        "7: v0.0 v0.1 v1.0 v1.1 v0 v1 v2",
        "8: v0.0 v0.1 v1.0 v1.1 v0 v1 v2",
        "9: v0.0 v0.1 v1.0 v1.1 v0 v1 v2",
        "10: v0.0 v0.1 v1.0 v1.1 v0 v1 v2",
        "11: v0.0 v0.1 v1.0 v1.1 v0 v1 v2",
        "12: v0.0 v0.1 v1.0 v1.1 v0 v1 v2",
        "13: v0.0 v0.1 v1.0 v1.1 v0 v1 v2",
        "14: v0.0 v0.1 v1.0 v1.1 v0 v1 v2",
        "15: v0.0 v0.1 v1.0 v1.1 v0 v1 v2",
        "16: v0.0 v0.1 v1.0 v1.1 v0 v1 v2",
        "17: v0.0 v0.1 v1.0 v1.1 v0 v1 v2",
        "18: v0.0 v0.1 v1.0 v1.1 v0 v1 v2",
        "19: v0.0 v0.1 v1.0 v1.1 v0 v1 v2",
        "20: v0.0 v0.1 v1.0 v1.1 v0 v1 v2",
        "21: v0.0 v0.1 v1.0 v1.1 v0 v1 v2",
    ],
};

pub const AN_UNREACHED_FUNCTION: Course = Course {
    text: b"int *kept;
int count = -2;
void put_away(int *p) { if (kept == NULL) { kept = p; } count += 1; }
void never(void) { int *q = malloc(sizeof(int)); free(q); }
int main(void) {
  int *p = malloc(sizeof(int));
  if (p == NULL) return 1;
  *p = 1;
  put_away(p);
  printf(\"%d %d\\n\", *kept, count);
  return 0;
}",
    expressions: "v0 v2 v3 v4",
    sites: "1",
    puts: &[
        "0: v0 v2",
        "1: v0 v2",
        "2: v0 v2",
        "3: v0 v2",
        "4: v0 v2",
        "7: v0",
        "8: v0 v4",
        "9: v0 v4",
        "10: v0 v4",
        "11: v0 v4",
        "12: v0 v4",
        "13: v0 v4",
        "14: v0 v4",
        "15: v0 v4",
    ],
};

pub const A_BODY_BEHIND_A_FUNCTION: Course = Course {
    text: b"struct s; void f(struct s *p) { } struct s { int *a; }; int main(void) { f(NULL); return 0; }",
    expressions: "v0 v0.0",
    sites: "",
    puts: &["0: v0"],
};

pub const A_BODY_BEFORE_A_FUNCTION: Course = Course {
    text: b"struct s; struct s { int *a; }; void f(struct s *p) { } int main(void) { f(NULL); return 0; }",
    expressions: "v0 v0.0",
    sites: "",
    puts: &["0: v0.0 v0"],
};

pub const A_BODY_BETWEEN_FUNCTIONS: Course = Course {
    text: b"struct s; struct s *kept; void f(void) { } struct s { int *a; }; void g(void) { f(); } int main(void) { g(); return 0; }",
    expressions: "v0 v0.0",
    sites: "",
    puts: &[
        "0: v0",
        "1: v0.0 v0",
        "2: v0.0 v0",
        "3: v0.0 v0",
        "4: v0.0 v0",
        "5: v0.0 v0",
    ],
};

pub const COURSES: [Course; 7] = [
    BRANCH,
    CALLS_IN_TWO_CONTEXTS,
    FIELDS_AND_ALIASES,
    AN_UNREACHED_FUNCTION,
    A_BODY_BEHIND_A_FUNCTION,
    A_BODY_BEFORE_A_FUNCTION,
    A_BODY_BETWEEN_FUNCTIONS,
];

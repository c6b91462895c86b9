// Programs, and the states of their runs after so many steps.

/// A run: its input, which requests fail, and its state after so many steps.
#[derive(Clone, Copy, Debug)]
pub struct Run {
    pub input: &'static [u8],
    pub fails: &'static [bool],
    pub states: &'static [(u64, &'static str)],
}

/// A program and runs of it.
#[derive(Clone, Copy, Debug)]
pub struct Course {
    pub text: &'static [u8],
    pub runs: &'static [Run],
}

macro_rules! runs {
    ($($input:expr, $fails:expr => [$($steps:expr => $line:expr),* $(,)?];)*) => {
        &[$(Run { input: $input, fails: &$fails, states: &[$(($steps, $line)),*] }),*]
    };
}

/// A loop with `break` and `continue`.
pub const WHILE: Course = Course {
    text: b"int main(void) {
  int i = 0;
  int *last = NULL;
  while (i < 5) {
    int *p = malloc(sizeof(int));
    i++;
    if (p == NULL) continue;
    *p = i;
    if (*p == 3) { last = p; break; }
    printf(\"%d\\n\", *p);
  }
  if (last != NULL) printf(\"%d\\n\", *last);
  return i;
}",
    runs: runs![
        b"ab", [false] => [
            4 => "0 null ->0 ? | [?] |  | 2 | Running",
            16 => "2 null ->1 ? | [1] [2] | 1\n2\n | 2 | Running",
            24 => "3 ->2 ->2 ? | [1] [2] [3] | 1\n2\n | 2 | Running",
            26 => "3 ->2 ->2 ? | [1] [2] [3] | 1\n2\n3\n | 2 | Returned(3)",
        ];
        b"a", [true] => [
            8 => "1 null ->0 ? | [?] |  | 1 | Running",
            23 => "3 ->1 ->1 ? | [2] [3] | 2\n3\n | 1 | Returned(3)",
        ];
        b"", [false, true] => [
            23 => "3 ->1 ->1 ? | [1] [3] | 1\n3\n | 0 | Returned(3)",
        ];
    ],
};

/// The forms of `for`.
pub const FOR: Course = Course {
    text: b"int main(void) {
  int n = 0;
  int k;
  for (int i = 0; i < 3; i += 2) { if (i == 2) continue; n += i + 1; }
  for (k = 4; ; k--) { if (k < 2) break; n *= k; }
  for (;;) { break; }
  for (k = 0; 0; k++) n = 99;
  printf(\"%d %%\\n\", n);
  return n;
}",
    runs: runs![
        b"ab", [false] => [
            1 => "0 ? ? ? | |  | 2 | Running",
            7 => "1 ? 2 ? | |  | 2 | Running",
            15 => "4 4 4 ? | |  | 2 | Running",
            24 => "24 1 4 ? | |  | 2 | Running",
            31 => "24 0 4 ? | | 24 %\n | 2 | Returned(24)",
        ];
    ],
};

/// Conditions, `getchar` and `putchar`.
pub const CONDITIONS: Course = Course {
    text: b"int main(void) {
  int a = getchar();
  int b = getchar();
  int *p = malloc(2 * sizeof(int));
  if (!(a == 97 && b != 98) || !p) { putchar(110); return 1; }
  p[0] = a; p[1] = b;
  while (p[0] > 95 && (p[1] > 97 || 0) && 1) { p[0]--; p[1] -= 1; }
  if (p) putchar(p[0]);
  else putchar(63);
  return p[1];
}",
    runs: runs![
        b"ab", [false] => [
            7 => "97 98 ->0 ? | [? ?] | n | 0 | Returned(1)",
        ];
        b"a", [true] => [
            2 => "97 -1 ? ? | |  | 0 | Running",
            8 => "97 -1 null ? | | n | 0 | Returned(1)",
        ];
        b"", [false, true] => [
            6 => "-1 -1 ->0 ? | [? ?] | n | 0 | Returned(1)",
        ];
        b"az", [] => [
            8 => "97 122 ->0 ? | [97 122] |  | 0 | Running",
            12 => "97 122 ->0 ? | [96 122] |  | 0 | Running",
            22 => "97 122 ->0 ? | [95 120] | _ | 0 | Returned(120)",
        ];
    ],
};

/// One function called from two places.
pub const CALLS: Course = Course {
    text: b"int *make(int v) {
  int *p = malloc(sizeof(int));
  if (p == NULL) return NULL;
  *p = v;
  return p;
}
int sum(int *a, int *b) { return *a + *b; }
int main(void) {
  int s;
  int *x = make(3);
  int *y;
  if (x == NULL) return 1;
  y = make(4);
  if (y == NULL) return 2;
  s = sum(x, y);
  printf(\"%d\\n\", s);
  return 0;
}",
    runs: runs![
        b"ab", [false] => [
            3 => "3 ->0 ? ? ? ? ? ? ? ? | [?] |  | 2 | Running",
            6 => "? ? ? ? ? ? ? ->0 ? ? | [3] |  | 2 | Running",
            15 => "? ? ? ->0 ->1 ? ? ->0 ->1 ? | [3] [4] |  | 2 | Running",
            18 => "? ? ? ? ? ? 7 ->0 ->1 ? | [3] [4] | 7\n | 2 | Returned(0)",
        ];
        b"a", [true] => [
            8 => "? ? ? ? ? ? ? null ? ? | |  | 1 | Returned(1)",
        ];
        b"", [false, true] => [
            14 => "? ? ? ? ? ? ? ->0 null ? | [3] |  | 0 | Returned(2)",
        ];
    ],
};

/// Calls whose results are returned at once.
pub const RETURNED_CALLS: Course = Course {
    text: b"int *fresh(void) { return malloc(sizeof(int)); }
int *again(int c) { if (c < 0) return NULL; return fresh(); }
int next(void) { return getchar(); }
int main(void) {
  int c = next();
  int *p = again(c);
  if (p == 0) return 3;
  *p = c;
  putchar(*p);
  return next();
}",
    runs: runs![
        b"ab", [false] => [
            4 => "? 97 ? ? 97 ? ? | |  | 1 | Running",
            7 => "->0 97 ? ? 97 ? ? | [?] |  | 1 | Running",
            8 => "? 97 ->0 ? 97 ? ? | [?] |  | 1 | Running",
            9 => "? ? ? ? 97 ->0 ? | [?] |  | 1 | Running",
            16 => "? ? ? ? 97 ->0 98 | [97] | a | 0 | Returned(98)",
        ];
        b"a", [true] => [
            11 => "? ? ? ? 97 null ? | |  | 0 | Returned(3)",
        ];
        b"", [false, true] => [
            8 => "? ? ? ? -1 null ? | |  | 0 | Returned(3)",
        ];
    ],
};

/// Fields by two pointers to one object.
pub const FIELDS: Course = Course {
    text: b"struct pair { int *left; int *right; int n; };
int main(void) {
  struct pair *a = malloc(sizeof(struct pair));
  struct pair *b = a;
  int *v = malloc(sizeof(int));
  if (a == NULL) return 1;
  a->left = NULL; a->right = NULL; a->n = 2;
  if (v == NULL) return 2;
  *v = 5;
  b->left = v;
  v = NULL;
  if (a->left == b->left) printf(\"%d\\n\", *a->left);
  a->right = a->left;
  a->left = NULL;
  return 0;
}",
    runs: runs![
        b"ab", [false] => [
            3 => "->0 ->0 ->1 ? | [? ? ?] [?] |  | 2 | Running",
            10 => "->0 ->0 ->1 ? | [->1 null 2] [5] |  | 2 | Running",
            14 => "->0 ->0 null ? | [->1 ->1 2] [5] | 5\n | 2 | Running",
            16 => "->0 ->0 null ? | [null ->1 2] [5] | 5\n | 2 | Returned(0)",
        ];
        b"a", [true] => [
            5 => "null null ->0 ? | [?] |  | 1 | Returned(1)",
        ];
        b"", [false, true] => [
            9 => "->0 ->0 null ? | [null null 2] |  | 0 | Returned(2)",
        ];
    ],
};

/// A chain of `else if`, and arms without braces.
pub const ELSE_IF: Course = Course {
    text: b"int main(void) {
  int c = getchar();
  int *p = NULL;
  if (c == 97) p = malloc(sizeof(int));
  else if (c == 98) { p = malloc(3 * sizeof(int)); if (p != NULL) p[2] = 1; }
  else if (c < 0) return 1;
  else ;
  if (p == NULL) return 2;
  *p = c;
  if (*p > 97) if (*p > 120) putchar(90); else putchar(89);
  return 0;
}",
    runs: runs![
        b"ab", [false] => [
            8 => "97 ->0 ? | [97] |  | 1 | Returned(0)",
        ];
        b"a", [true] => [
            6 => "97 null ? | |  | 0 | Returned(2)",
        ];
        b"", [false, true] => [
            6 => "-1 null ? | |  | 0 | Returned(1)",
        ];
        b"z", [false] => [
            7 => "122 null ? | |  | 0 | Returned(2)",
        ];
        b"b", [false] => [
            13 => "98 ->0 ? | [98 ? 1] | Y | 0 | Returned(0)",
        ];
    ],
};

/// Functions without a result, and a `main` without `return`.
pub const CLOSING_BRACES: Course = Course {
    text: b"int total;
void add(int n) { if (n > 1) { total += n; return; } total -= n; }
void twice(int n) { add(n); add(n - 1); }
int main(void) { twice(2); add(0 - 3); printf(\"%d\\n\", total); }",
    runs: runs![
        b"ab", [false] => [
            2 => "0 2 2 ? | |  | 2 | Running",
            5 => "2 ? 2 ? | |  | 2 | Running",
            8 => "1 1 2 ? | |  | 2 | Running",
            10 => "1 ? ? ? | |  | 2 | Running",
            13 => "4 -3 ? ? | |  | 2 | Running",
            16 => "4 ? ? ? | | 4\n | 2 | Returned(0)",
        ];
    ],
};

/// Each fault, at its offset.
pub const FAULTS: Course = Course {
    text: b"int main(void) {
  int c = getchar();
  int *p = malloc(3 * sizeof(int));
  int big = 2147483647;
  int x;
  if (c == 48) return *p;
  if (c == 49) { p = NULL; return *p; }
  if (c == 50) { p[3] = 1; }
  if (c == 51) big = big + 1;
  if (c == 52) big = 7 / (c - 52);
  if (c == 53) return x;
  if (c == 54) { free(p); return p == NULL; }
  if (c == 55) { free(p); free(p); }
  if (c == 56) { big = -big - 1; return big % -1; }
  if (c == 57) { int *z; free(z); }
  return -7 / 2 + -7 % 2;
}",
    runs: runs![
        b"x", [false] => [
            15 => "120 ->0 2147483647 ? ? ? | [? ? ?] |  | 0 | Returned(-4)",
        ];
        b"a", [true] => [
            15 => "97 null 2147483647 ? ? ? | |  | 0 | Returned(-4)",
        ];
        b"0", [false] => [
            6 => "48 ->0 2147483647 ? ? ? | [? ? ?] |  | 0 | Fault(Uninit, 129, false)",
        ];
        b"1", [false] => [
            8 => "49 null 2147483647 ? ? ? | [? ? ?] |  | 0 | Fault(NullDeref, 167, false)",
        ];
        b"2", [false] => [
            8 => "50 ->0 2147483647 ? ? ? | [? ? ?] |  | 0 | Fault(Bounds, 191, false)",
        ];
        b"3", [false] => [
            9 => "51 ->0 2147483647 ? ? ? | [? ? ?] |  | 0 | Fault(Overflow, 227, false)",
        ];
        b"4", [false] => [
            10 => "52 ->0 2147483647 ? ? ? | [? ? ?] |  | 0 | Fault(DivZero, 255, false)",
        ];
        b"5", [false] => [
            11 => "53 ->0 2147483647 ? ? ? | [? ? ?] |  | 0 | Fault(Uninit, 289, false)",
        ];
        b"6", [false] => [
            12 => "54 ->0 2147483647 ? ? ? | freed [? ? ?] |  | 0 | Fault(UseAfterFree, 325, false)",
        ];
        b"7", [false] => [
            13 => "55 ->0 2147483647 ? ? ? | freed [? ? ?] |  | 0 | Fault(DoubleFree, 364, true)",
        ];
        b"8", [false] => [
            15 => "56 ->0 -2147483648 ? ? ? | [? ? ?] |  | 0 | Fault(Overflow, 419, false)",
        ];
        b"9", [false] => [
            16 => "57 ->0 2147483647 ? ? ? | [? ? ?] |  | 0 | Fault(Uninit, 457, true)",
        ];
    ],
};

/// A request of no cells.
pub const NO_CELLS: Course = Course {
    text: b"int main(void) { int *p = malloc(0 * sizeof(int)); p[0] = 5; return p[0]; }",
    runs: runs![
        b"", [] => [
            1 => "->0 ? | [] |  | 0 | Running",
            2 => "->0 ? | [] |  | 0 | Fault(Bounds, 52, false)",
        ];
    ],
};

/// A request of a negative count takes its entry of the failures.
pub const NEGATIVE: Course = Course {
    text: b"int main(void) { int *p = malloc((0 - 1) * sizeof(int)); int *q = malloc(sizeof(int)); return *p; }",
    runs: runs![
        b"", [false, true] => [
            2 => "null null ? | |  | 0 | Running",
            3 => "null null ? | |  | 0 | Fault(NullDeref, 94, false)",
        ];
        b"", [true] => [
            2 => "null ->0 ? | [?] |  | 0 | Running",
        ];
    ],
};

/// A request of as many cells as `int` counts.
pub const MANY_CELLS: Course = Course {
    text: b"int main(void) { int *p = malloc(2147483647 * sizeof(int)); p[2147483646] = 5; if (p[2147483646] == 5) p[2147483647] = 1; return 0; }",
    runs: runs![
        b"", [false] => [
            3 => "->0 ? | [? ? ? .. 2147483647] |  | 0 | Running",
            4 => "->0 ? | [? ? ? .. 2147483647] |  | 0 | Fault(Bounds, 104, false)",
        ];
    ],
};

pub const COURSES: [Course; 12] = [
    WHILE,
    FOR,
    CONDITIONS,
    CALLS,
    RETURNED_CALLS,
    FIELDS,
    ELSE_IF,
    CLOSING_BRACES,
    FAULTS,
    NO_CELLS,
    NEGATIVE,
    MANY_CELLS,
];

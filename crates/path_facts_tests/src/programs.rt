// Programs, and which facts hold at their nodes, worked out apart from the code.

/// A program, how many nodes its graph has, and a line of facts, by their numbers, for each node whose facts are other than
/// those at the node before it.
#[derive(Clone, Copy, Debug)]
pub struct Held {
    pub text: &'static [u8],
    pub nodes: usize,
    pub facts: &'static str,
}

const BRANCH: Held = Held {
    text: b"int main(void) { int *p = malloc(sizeof(int)); if (p == NULL) { return 1; } *p = 7; printf(\"%d\\n\", *p); return 0; }",
    nodes: 18,
    facts: "0: -
2: 0
6: 0-1
15: 0
16: 0-1",
};

const CALLS_TWO_CONTEXTS: Held = Held {
    text: b"int *make(int v) {
  int *p = malloc(sizeof(int));
  if (p == NULL) return NULL;
  *p = v;
  return p;
}
int sum(int *a, int *b) { return *a + *b; }
int main(void) {
  int s;
  int *x = make(3);
  int *y;
  if (x == NULL) return 1;
  y = make(4);
  if (y == NULL) return 2;
  s = sum(x, y);
  printf(\"%d\\n\", s);
  return 0;
}",
    nodes: 60,
    facts: "0: 12-41
4: 4 21 23 25 27-41
6: 4 21 27-41
10: 0-41
11: 4 10 21 27-41
13: 4-5 10 21 27-41
17: 0-41
18: 4-5 10-11 21 27-41
20: 4-5 10-11 27-41
24: 0-41
26: 12-41
28: 0 17-41
32: 0-41
33: 0 6 17-41
37: 0-41
39: 4 10 21 27-41
41: 0 4 10 21 27-41
45: 0-41
46: 0 4 6 10 21 27-41
50: 0-41
52: 2-5 8-11 22 25 27-36 38-39 41
54: 0-41
56: 4 21 27-41
57: 4-5 10 21 27-41
58: 4-5 10-11 27-41
59: 0-41",
};

const RETURN_OF_A_CALL: Held = Held {
    text: b"int *fresh(void) { return malloc(sizeof(int)); }
int *again(int c) { if (c < 0) return NULL; return fresh(); }
int next(void) { return getchar(); }
int main(void) {
  int c = next();
  int *p = again(c);
  if (p == 0) return 3;
  *p = c;
  putchar(*p);
  return next();
}",
    nodes: 46,
    facts: "0: 6-11
4: 2 9-11
8: 0-11
9: 2 5 9-11
16: 0-11
18: 6-11
21: 0-11
23: 6-11
27: 0-11
28: 6-11
30: 1 9-11
31: 0-11
33: 6-11
35: 0 8-11
36: 0-11
38: 2 5 9-11
41: 0-11
43: 2 9-11
44: 2 5 9-11
45: 0-11",
};

const FIELDS_AND_ALIASES: Held = Held {
    text: b"struct pair { int *left; int *right; int n; };
int main(void) {
  struct pair *a = malloc(sizeof(struct pair));
  struct pair *b = a;
  int *v = malloc(sizeof(int));
  if (a == NULL) return 1;
  a->left = NULL; a->right = NULL; a->n = 2;
  if (v == NULL) return 2;
  *v = 5;
  b->left = v;
  v = NULL;
  if (a->left == b->left) printf(\"%d\\n\", *a->left);
  a->right = a->left;
  a->left = NULL;
  return 0;
}",
    nodes: 45,
    facts: "0: 6-15
2: 0 8-9 12-15
4: 0-1 10 14-15
6: 0-2 10 14-15
8: 0-2 6-7 10 13-15
10: 0-15
11: 0-3 10 14-15
13: 0-3 6 10 14-15
15: 0-3 6-7 10 14-15
21: 0-15
22: 0-3 5-7 10 14-15
26: 0-8 10 14-15
28: 0-4 6-8 10 14-15
39: 0-15
41: 0-2 6-7 10 13-15
42: 0-3 6-7 10 14-15
43: 0-4 6-8 10 14-15
44: 0-15",
};

const GLOBALS_AND_AN_UNREACHED_FUNCTION: Held = Held {
    text: b"int *kept;
int count = -2;
void put_away(int *p) { if (kept == NULL) { kept = p; } count += 1; }
void never(void) { int *q = malloc(sizeof(int)); free(q); }
int main(void) {
  int *p = malloc(sizeof(int));
  if (p == NULL) return 1;
  *p = 1;
  put_away(p);
  printf(\"%d %d\\n\", *kept, count);
  return 0;
}",
    nodes: 29,
    facts: "0: 0 11-19
2: 0 3 11 14-19
6: 0-19
7: 0 3 7 11 14-19
11: 0 3-4 7 14-15 17-19
15: 0-19
17: 0-1 3 5 7 12 14-17 19
21: 0-1 3-5 7-8 10 12 15 17 19
22: 0-1 3-5 7 12 15 17 19
26: 0 3 11 14-19
27: 0 3-4 7 14-15 17-19
28: 0-19",
};

const STRUCT_CHAIN: Held = Held {
    text: b"struct node { int v; struct node *next; };
int main(void) {
  struct node *a = malloc(sizeof(struct node));
  struct node *b;
  struct node *c;
  if (a == NULL) return 1;
  a->v = 1; a->next = NULL;
  b = malloc(sizeof(struct node));
  if (b == NULL) return 2;
  b->v = 2; b->next = a;
  c = b->next->next;
  if (c == NULL) printf(\"%d\\n\", b->next->v);
  if (b->next == a) a->v = 7;
  return b->next->v;
}",
    nodes: 46,
    facts: "0: 6-14
2: 0 7-8 11-14
4: 0 7-8 12-14
8: 0 6-8 12-14
10: 0-14
11: 0 3 7-8 12-14
15: 0 3 6-8 12-14
17: 0-1 3 6 8 12-14
19: 0-1 3 6-8 12-14
21: 0-14
22: 0-1 3-4 6 8 12-14
26: 0-1 3-4 6-8 12-14
28: 0-4 6-7 12
30: 0-4 6-8 12-14
33: 0-4 6-7 12
40: 0-14
42: 0 6-8 12-14
43: 0-1 3 6-8 12-14
44: 0-4 6-7 12
45: 0-14",
};

const LIST: Held = Held {
    text: b"struct node { int v; struct node *next; };
int main(void) {
  struct node *head = NULL;
  struct node *c;
  int i = 0;
  while (i < 2) {
    struct node *n = malloc(sizeof(struct node));
    if (n == NULL) return 1;
    n->v = i; n->next = head; head = n; i++;
  }
  c = head;
  while (c != NULL) { printf(\"%d\\n\", c->v); c = c->next; }
  return 0;
}",
    nodes: 40,
    facts: "0: 6-14
2: 0 6-8 11-14
4: 0 6-8 12-14
7: 0 6-8 12 14
10: 0 2 6-7 12-14
12: 0 2 6-8 12-14
14: 0-14
15: 0 2 5-7 12-14
19: 0 2 5-8 12-14
21: 0 2-3 5-8 10 12 14
24: 0 6-8 12 14
26: 0-1 6-9
27: 0-1 6 8
28: 0-1 4 6 8
32: 0-1 6 8
33: 0-1 6-8 12 14
35: 0-14
37: 0 2 6-8 12-14
38: 0-1 6-8 12 14
39: 0-14",
};

const SWAP_AND_COMPARE: Held = Held {
    text: b"int main(void) {
  int *a = malloc(sizeof(int));
  int *b = malloc(sizeof(int));
  int *t;
  if (a == NULL || b == NULL) return 1;
  *a = 2; *b = 1;
  if (*a > *b) { t = a; a = b; b = t; }
  if (a != b) printf(\"%d %d\\n\", *a, *b);
  return 0;
}",
    nodes: 37,
    facts: "0: 6-11
2: 0 8-11
4: 0-1 9-11
8: 0-1 3 9-11
9: 0-1 9-11
11: 0-11
12: 0-1 3-4 9-11
20: 0-5 7 9 11
22: 0-6 10-11
24: 0-5 8-10
25: 0-1 3-4 9-10
32: 0-11
34: 0-1 9-11
35: 0-1 3-4 9-10
36: 0-11",
};

pub const HELD: &[Held] = &[
    BRANCH,
    CALLS_TWO_CONTEXTS,
    RETURN_OF_A_CALL,
    FIELDS_AND_ALIASES,
    GLOBALS_AND_AN_UNREACHED_FUNCTION,
    STRUCT_CHAIN,
    LIST,
    SWAP_AND_COMPARE,
];

// Programs, and which sites flow to their pointer variables and to the fields of their sites.

/// A program, and what flows where: the sites by variable, and by field and site.
#[derive(Clone, Copy, Debug)]
pub struct Flow {
    pub text: &'static [u8],
    pub flows: &'static str,
}

const BRANCH: Flow = Flow {
    text: b"int main(void) { int *p = malloc(sizeof(int)); if (p == NULL) { return 1; } *p = 7; printf(\"%d\\n\", *p); return 0; }",
    flows: "0: 0",
};

const CALLS_TWO_CONTEXTS: Flow = Flow {
    text: b"int *make(int v) {
  int *p = malloc(sizeof(int));
  if (p == NULL) return NULL;
  *p = v;
  return p;
}
int sum(int *a, int *b) { return *a + *b; }
int main(void) {
  int s;
  int *x = make(3);
  int *y;
  if (x == NULL) return 1;
  y = make(4);
  if (y == NULL) return 2;
  s = sum(x, y);
  printf(\"%d\\n\", s);
  return 0;
}",
    flows: "0: 0 1; 2: 0 1; 3: 0 1; 4: 0 1; 5: 0 1",
};

const RETURN_OF_A_CALL: Flow = Flow {
    text: b"int *fresh(void) { return malloc(sizeof(int)); }
int *again(int c) { if (c < 0) return NULL; return fresh(); }
int next(void) { return getchar(); }
int main(void) {
  int c = next();
  int *p = again(c);
  if (p == 0) return 3;
  *p = c;
  putchar(*p);
  return next();
}",
    flows: "0: 0; 1: 0; 2: 0",
};

const FIELDS_AND_ALIASES: Flow = Flow {
    text: b"struct pair { int *left; int *right; int n; };
int main(void) {
  struct pair *a = malloc(sizeof(struct pair));
  struct pair *b = a;
  int *v = malloc(sizeof(int));
  if (a == NULL) return 1;
  a->left = NULL; a->right = NULL; a->n = 2;
  if (v == NULL) return 2;
  *v = 5;
  b->left = v;
  v = NULL;
  if (a->left == b->left) printf(\"%d\\n\", *a->left);
  a->right = a->left;
  a->left = NULL;
  return 0;
}",
    flows: "0: 0; 1: 0; 2: 1; field 0 of site 0: 1; field 1 of site 0: 1",
};

const GLOBALS_AND_AN_UNREACHED_FUNCTION: Flow = Flow {
    text: b"int *kept;
int count = -2;
void put_away(int *p) { if (kept == NULL) { kept = p; } count += 1; }
void never(void) { int *q = malloc(sizeof(int)); free(q); }
int main(void) {
  int *p = malloc(sizeof(int));
  if (p == NULL) return 1;
  *p = 1;
  put_away(p);
  printf(\"%d %d\\n\", *kept, count);
  return 0;
}",
    flows: "0: 0; 1: 0; 3: 0",
};

const LIST: Flow = Flow {
    text: b"struct node { int v; struct node *next; };
int main(void) {
  struct node *head = NULL;
  struct node *c;
  int i = 0;
  while (i < 2) {
    struct node *n = malloc(sizeof(struct node));
    if (n == NULL) return 1;
    n->v = i; n->next = head; head = n; i++;
  }
  c = head;
  while (c != NULL) { printf(\"%d\\n\", c->v); c = c->next; }
  return 0;
}",
    flows: "0: 0; 1: 0; 2: 0; field 1 of site 0: 0",
};

const SWAP_AND_COMPARE: Flow = Flow {
    text: b"int main(void) {
  int *a = malloc(sizeof(int));
  int *b = malloc(sizeof(int));
  int *t;
  if (a == NULL || b == NULL) return 1;
  *a = 2; *b = 1;
  if (*a > *b) { t = a; a = b; b = t; }
  if (a != b) printf(\"%d %d\\n\", *a, *b);
  return 0;
}",
    flows: "0: 0 1; 1: 0 1; 2: 0 1",
};

pub const FLOWS: &[Flow] = &[
    BRANCH,
    CALLS_TWO_CONTEXTS,
    RETURN_OF_A_CALL,
    FIELDS_AND_ALIASES,
    GLOBALS_AND_AN_UNREACHED_FUNCTION,
    LIST,
    SWAP_AND_COMPARE,
];

//! Texts of programs.

pub const BRANCH: &[u8] =
    b"int main(void) { int *p = malloc(sizeof(int)); if (p == NULL) { return 1; } *p = 7; printf(\"%d\\n\", *p); return 0; }";

pub const BREAK_AND_CONTINUE: &[u8] = b"int main(void) {
  int i = 0;
  int *last = NULL;
  while (i < 5) {
    int *p = malloc(sizeof(int));
    i++;
    if (p == NULL) continue;
    *p = i;
    if (*p == 3) { last = p; break; }
    printf(\"%d\\n\", *p);
  }
  if (last != NULL) printf(\"%d\\n\", *last);
  return i;
}";

pub const FOR_FORMS: &[u8] = b"int main(void) {
  int n = 0;
  int k;
  for (int i = 0; i < 3; i += 2) { if (i == 2) continue; n += i + 1; }
  for (k = 4; ; k--) { if (k < 2) break; n *= k; }
  for (;;) { break; }
  for (k = 0; 0; k++) n = 99;
  printf(\"%d %%\\n\", n);
  return n;
}";

pub const CONDITIONS: &[u8] = b"int main(void) {
  int a = getchar();
  int b = getchar();
  int *p = malloc(2 * sizeof(int));
  if (!(a == 97 && b != 98) || !p) { putchar(110); return 1; }
  p[0] = a; p[1] = b;
  while (p[0] > 95 && (p[1] > 97 || 0) && 1) { p[0]--; p[1] -= 1; }
  if (p) putchar(p[0]);
  else putchar(63);
  return p[1];
}";

pub const CALLS_IN_TWO_CONTEXTS: &[u8] = b"int *make(int v) {
  int *p = malloc(sizeof(int));
  if (p == NULL) return NULL;
  *p = v;
  return p;
}
int sum(int *a, int *b) { return *a + *b; }
int main(void) {
  int s;
  int *x = make(3);
  int *y;
  if (x == NULL) return 1;
  y = make(4);
  if (y == NULL) return 2;
  s = sum(x, y);
  printf(\"%d\\n\", s);
  return 0;
}";

pub const RETURN_OF_A_CALL: &[u8] = b"int *fresh(void) { return malloc(sizeof(int)); }
int *again(int c) { if (c < 0) return NULL; return fresh(); }
int next(void) { return getchar(); }
int main(void) {
  int c = next();
  int *p = again(c);
  if (p == 0) return 3;
  *p = c;
  putchar(*p);
  return next();
}";

pub const FIELDS_AND_ALIASES: &[u8] = b"struct pair { int *left; int *right; int n; };
int main(void) {
  struct pair *a = malloc(sizeof(struct pair));
  struct pair *b = a;
  int *v = malloc(sizeof(int));
  if (a == NULL) return 1;
  a->left = NULL; a->right = NULL; a->n = 2;
  if (v == NULL) return 2;
  *v = 5;
  b->left = v;
  v = NULL;
  if (a->left == b->left) printf(\"%d\\n\", *a->left);
  a->right = a->left;
  a->left = NULL;
  return 0;
}";

pub const AN_UNREACHED_FUNCTION: &[u8] = b"int *kept;
int count = -2;
void put_away(int *p) { if (kept == NULL) { kept = p; } count += 1; }
void never(void) { int *q = malloc(sizeof(int)); free(q); }
int main(void) {
  int *p = malloc(sizeof(int));
  if (p == NULL) return 1;
  *p = 1;
  put_away(p);
  printf(\"%d %d\\n\", *kept, count);
  return 0;
}";

pub const ELSE_IF: &[u8] = b"int main(void) {
  int c = getchar();
  int *p = NULL;
  if (c == 97) p = malloc(sizeof(int));
  else if (c == 98) { p = malloc(3 * sizeof(int)); if (p != NULL) p[2] = 1; }
  else if (c < 0) return 1;
  else ;
  if (p == NULL) return 2;
  *p = c;
  if (*p > 97) if (*p > 120) putchar(90); else putchar(89);
  return 0;
}";

pub const OWN_FREES_AND_BLOCKS: &[u8] = b"int main(void) {
  int *p = malloc(sizeof(int));
  int *q;
  if (p == NULL) return 1;
  { int *r = p; *r = 2; ; }
  q = malloc(sizeof(int));
  if (q == NULL) { free(p); return 1; }
  *q = *p;
  free(q);
  { free(p); }
  return 0;
}";

pub const STRUCT_CHAIN: &[u8] = b"struct node { int v; struct node *next; };
int main(void) {
  struct node *a = malloc(sizeof(struct node));
  struct node *b;
  struct node *c;
  if (a == NULL) return 1;
  a->v = 1; a->next = NULL;
  b = malloc(sizeof(struct node));
  if (b == NULL) return 2;
  b->v = 2; b->next = a;
  c = b->next->next;
  if (c == NULL) printf(\"%d\\n\", b->next->v);
  if (b->next == a) a->v = 7;
  return b->next->v;
}";

pub const LIST: &[u8] = b"struct node { int v; struct node *next; };
int main(void) {
  struct node *head = NULL;
  struct node *c;
  int i = 0;
  while (i < 2) {
    struct node *n = malloc(sizeof(struct node));
    if (n == NULL) return 1;
    n->v = i; n->next = head; head = n; i++;
  }
  c = head;
  while (c != NULL) { printf(\"%d\\n\", c->v); c = c->next; }
  return 0;
}";

pub const WRAPPER: &[u8] = b"void drop(int *p, int n) { printf(\"%d\\n\", n); free(p); }
int main(void) {
  int *a = malloc(sizeof(int));
  int *b;
  if (a == NULL) return 1;
  b = malloc(sizeof(int));
  if (b == NULL) { drop(a, 0); return 2; }
  *a = 1; *b = 2;
  drop(a, *b);
  drop(b, *a);
  return 0;
}";

pub const NO_CHOICE: &[u8] = b"int eat(int *p) { return 0; }
int main(void) {
  int r = 0;
  int c = getchar();
  int *a = malloc(sizeof(int));
  if (c == 2) return eat(a);
  if (c == 1) r = eat(a);
  return r;
}";

pub const SWAP_AND_COMPARE: &[u8] = b"int main(void) {
  int *a = malloc(sizeof(int));
  int *b = malloc(sizeof(int));
  int *t;
  if (a == NULL || b == NULL) return 1;
  *a = 2; *b = 1;
  if (*a > *b) { t = a; a = b; b = t; }
  if (a != b) printf(\"%d %d\\n\", *a, *b);
  return 0;
}";

pub const CLOSING_BRACE: &[u8] = b"int total;
void add(int n) { if (n > 1) { total += n; return; } total -= n; }
void twice(int n) { add(n); add(n - 1); }
int main(void) { twice(2); add(0 - 3); printf(\"%d\\n\", total); }";

pub const FAULTS: &[u8] = b"int main(void) {
  int c = getchar();
  int *p = malloc(3 * sizeof(int));
  int big = 2147483647;
  int x;
  if (c == 48) return *p;
  if (c == 49) { p = NULL; return *p; }
  if (c == 50) { p[3] = 1; }
  if (c == 51) big = big + 1;
  if (c == 52) big = 7 / (c - 52);
  if (c == 53) return x;
  if (c == 54) { free(p); return p == NULL; }
  if (c == 55) { free(p); free(p); }
  if (c == 56) { big = -big - 1; return big % -1; }
  if (c == 57) { int *z; free(z); }
  return -7 / 2 + -7 % 2;
}";

/// Two frees in one gap.
pub const TWO_FREES: &[u8] =
    b"int main(void) { int *p = malloc(sizeof(int)); if (p == NULL) { return 1; } *p = 7; free(p); free(p); return 0; }";

/// A free before a read.
pub const FREE_BEFORE_A_READ: &[u8] =
    b"int main(void) { int x; int *p = malloc(sizeof(int)); if (p == NULL) { return 1; } *p = 3; free(p); x = *p; return x; }";

/// Two objects, of which the first leaks where the second is not there.
pub const TWO_LEAKS: &[u8] =
    b"int main(void) { int *q = malloc(sizeof(int)); int *p; if (q == NULL) return 2; p = malloc(sizeof(int)); if (p == NULL) return 1; *p = 2; *q = 3; printf(\"%d\\n\", *p + *q); return 0; }";

/// A new object in each turn of a loop.
pub const NEW_IN_EACH_TURN: &[u8] =
    b"int main(void) { int i = 0; while (i < 3) { int *p = malloc(sizeof(int)); if (p == NULL) return 1; *p = 1; i += *p; } printf(\"%d\\n\", i); return 0; }";

/// A file with a struct.
pub const BUFFER: &[u8] = b"#include <stdio.h>
#include <stdlib.h>
struct buf { int len; int *data; };
struct buf *make(int n) {
  struct buf *b = malloc(sizeof(struct buf));
  if (b == NULL) return NULL;
  b->data = malloc(n * sizeof(int));
  if (b->data == NULL) return NULL;
  b->len = n;
  return b;
}
int main(void) {
  int i;
  struct buf *b = make(4);
  if (b == NULL) return 1;
  for (i = 0; i < b->len; i++) { b->data[i] = i * i; }
  printf(\"%d\\n\", b->data[3]);
  free(b);
  return 0;
}
";

/// A variable that is unset on the other path.
pub const UNSET_ELSEWHERE: &[u8] =
    b"int main(void) { int c = getchar(); int *p; if (c == 'a') { p = malloc(sizeof(int)); if (p == NULL) return 1; *p = c; } return 0; }";

/// No exit is reached.
pub const ENDLESS: &[u8] = b"int main(void) { int *p = malloc(sizeof(int)); while (1) { } }";

/// Two names for one object.
pub const TWO_NAMES: &[u8] =
    b"int main(void) { int *p = malloc(sizeof(int)); int *q; if (p == NULL) return 1; q = p; free(p); *q = 1; return 0; }";

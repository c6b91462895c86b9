// Programs, and their graphs: of each node its context, what stands there, and where control goes on.

/// A program, the nodes of its graph and how many edges it has.
#[derive(Clone, Copy, Debug)]
pub struct Course {
    pub text: &'static [u8],
    pub lines: &'static [&'static str],
    pub edges: usize,
}

pub const BRANCH: Course = Course {
    text: b"int main(void) { int *p = malloc(sizeof(int)); if (p == NULL) { return 1; } *p = 7; printf(\"%d\\n\", *p); return 0; }",
    lines: &[
        "0 gap 0 | On 1",
        "0 malloc int into v0@24 @26 | Made 2 NotMade 2",
        "0 gap 1 | On 3",
        "0 test (Eq v0@51 NULL@56)@53 | True 4 False 7",
        "0 gap 2 | On 5",
        "0 return 1@71 | On 15",
        "0 gap 3 | On 7",
        "0 gap 4 | On 8",
        "0 Put (* v0@77)@76 from 7@81 @79 | On 9",
        "0 gap 5 | On 10",
        "0 printf \"%d\n\" of (* v0@100)@99 | On 11",
        "0 gap 6 | On 12",
        "0 return 0@111 | On 16",
        "0 gap 7 | On 14",
        "0 close | On 17",
        "0 exit @64 |",
        "0 exit @104 |",
        "0 exit @114 |",
    ],
    edges: 17,
};

pub const WHILE_BREAK_CONTINUE: Course = Course {
    text: b"int main(void) {
  int i = 0;
  int *last = NULL;
  while (i < 5) {
    int *p = malloc(sizeof(int));
    i++;
    if (p == NULL) continue;
    *p = i;
    if (*p == 3) { last = p; break; }
    printf(\"%d\\n\", *p);
  }
  if (last != NULL) printf(\"%d\\n\", *last);
  return i;
}",
    lines: &[
        "0 gap 0 | On 1",
        "0 Put v0@25 from 0@27 @25 | On 2",
        "0 gap 1 | On 3",
        "0 Put v1@42 from NULL@44 @42 | On 4",
        "0 gap 2 | On 5",
        "0 test (Lt v0@59 5@63)@61 | True 6 False 25",
        "0 gap 3 | On 7",
        "0 malloc int into v2@79 @81 | Made 8 NotMade 8",
        "0 gap 4 | On 9",
        "0 Add v0@106 from 1@107 @107 | On 10",
        "0 gap 5 | On 11",
        "0 test (Eq v2@119 NULL@124)@121 | True 12 False 14",
        "0 gap 6 | On 5",
        "0 gap 7 | On 14",
        "0 gap 8 | On 15",
        "0 Put (* v2@145)@144 from v0@149 @147 | On 16",
        "0 gap 9 | On 17",
        "0 test (Eq (* v2@161)@160 3@166)@163 | True 18 False 22",
        "0 gap 10 | On 19",
        "0 Put v1@171 from v2@178 @176 | On 20",
        "0 gap 11 | On 25",
        "0 gap 12 | On 22",
        "0 gap 13 | On 23",
        "0 printf \"%d\n\" of (* v2@210)@209 | On 24",
        "0 gap 14 | On 5",
        "0 gap 15 | On 26",
        "0 test (Ne v1@224 NULL@232)@229 | True 27 False 30",
        "0 gap 16 | On 28",
        "0 printf \"%d\n\" of (* v1@254)@253 | On 29",
        "0 gap 17 | On 30",
        "0 gap 18 | On 31",
        "0 return v0@270 | On 34",
        "0 gap 19 | On 33",
        "0 close | On 35",
        "0 exit @263 |",
        "0 exit @273 |",
    ],
    edges: 39,
};

pub const FOR_FORMS: Course = Course {
    text: b"int main(void) {
  int n = 0;
  int k;
  for (int i = 0; i < 3; i += 2) { if (i == 2) continue; n += i + 1; }
  for (k = 4; ; k--) { if (k < 2) break; n *= k; }
  for (;;) { break; }
  for (k = 0; 0; k++) n = 99;
  printf(\"%d %%\\n\", n);
  return n;
}",
    lines: &[
        "0 gap 0 | On 1",
        "0 Put v0@25 from 0@27 @25 | On 2",
        "0 gap 1 | On 3",
        "0 unset v1 | On 4",
        "0 gap 2 | On 5",
        "0 Put v2@52 from 0@54 @52 | On 6",
        "0 test (Lt v2@57 3@61)@59 | True 8 False 15",
        "0 Add v2@64 from 2@69 @66 | On 6",
        "0 gap 3 | On 9",
        "0 test (Eq v2@78 2@83)@80 | True 10 False 12",
        "0 gap 4 | On 7",
        "0 gap 5 | On 12",
        "0 gap 6 | On 13",
        "0 Add v0@96 from (Add v2@101 1@105)@103 @98 | On 14",
        "0 gap 7 | On 7",
        "0 gap 8 | On 16",
        "0 Put v1@117 from 4@121 @119 | On 17",
        "0 test 1@0 | True 19",
        "0 Sub v1@126 from 1@127 @127 | On 17",
        "0 gap 9 | On 20",
        "0 test (Lt v1@137 2@141)@139 | True 21 False 23",
        "0 gap 10 | On 26",
        "0 gap 11 | On 23",
        "0 gap 12 | On 24",
        "0 Mul v0@151 from v1@156 @153 | On 25",
        "0 gap 13 | On 18",
        "0 gap 14 | On 27",
        "0 test 1@0 | True 28",
        "0 gap 15 | On 30",
        "0 gap 16 | On 27",
        "0 gap 17 | On 31",
        "0 Put v1@190 from 0@194 @192 | On 32",
        "0 test 0@197 | False 37",
        "0 Add v1@200 from 1@201 @201 | On 32",
        "0 gap 18 | On 35",
        "0 Put v0@205 from 99@209 @207 | On 36",
        "0 gap 19 | On 33",
        "0 gap 20 | On 38",
        "0 printf \"%d %%\n\" of v0@233 | On 39",
        "0 gap 21 | On 40",
        "0 return v0@246 | On 43",
        "0 gap 22 | On 42",
        "0 close | On 44",
        "0 exit @239 |",
        "0 exit @249 |",
    ],
    edges: 46,
};

pub const CONDITIONS: Course = Course {
    text: b"int main(void) {
  int a = getchar();
  int b = getchar();
  int *p = malloc(2 * sizeof(int));
  if (!(a == 97 && b != 98) || !p) { putchar(110); return 1; }
  p[0] = a; p[1] = b;
  while (p[0] > 95 && (p[1] > 97 || 0) && 1) { p[0]--; p[1] -= 1; }
  if (p) putchar(p[0]);
  else putchar(63);
  return p[1];
}",
    lines: &[
        "0 gap 0 | On 1",
        "0 getchar into v0@25 | On 2",
        "0 gap 1 | On 3",
        "0 getchar into v1@46 | On 4",
        "0 gap 2 | On 5",
        "0 malloc int times 2@77 into v2@68 @70 | Made 6 NotMade 6",
        "0 gap 3 | On 7",
        "0 test (Eq v0@103 97@108)@105 | True 8 False 10",
        "0 test (Ne v1@114 98@119)@116 | True 9 False 10",
        "0 test v2@127 | True 15 False 10",
        "0 gap 4 | On 11",
        "0 putchar 110@140 | On 12",
        "0 gap 5 | On 13",
        "0 return 1@153 | On 41",
        "0 gap 6 | On 15",
        "0 gap 7 | On 16",
        "0 Put (v2@160 [ 0@162 ])@161 from v0@167 @165 | On 17",
        "0 gap 8 | On 18",
        "0 Put (v2@170 [ 1@172 ])@171 from v1@177 @175 | On 19",
        "0 gap 9 | On 20",
        "0 test (Gt (v2@189 [ 0@191 ])@190 95@196)@194 | True 21 False 29",
        "0 test (Gt (v2@203 [ 1@205 ])@204 97@210)@208 | True 23 False 22",
        "0 test 0@216 | False 29",
        "0 test 1@222 | True 24",
        "0 gap 10 | On 25",
        "0 Sub (v2@227 [ 0@229 ])@228 from 1@231 @231 | On 26",
        "0 gap 11 | On 27",
        "0 Sub (v2@235 [ 1@237 ])@236 from 1@243 @240 | On 28",
        "0 gap 12 | On 20",
        "0 gap 13 | On 30",
        "0 test v2@254 | True 31 False 34",
        "0 gap 14 | On 32",
        "0 putchar (v2@265 [ 0@267 ])@266 | On 33",
        "0 gap 15 | On 37",
        "0 gap 16 | On 35",
        "0 putchar 63@287 | On 36",
        "0 gap 17 | On 37",
        "0 gap 18 | On 38",
        "0 return (v2@301 [ 1@303 ])@302 | On 42",
        "0 gap 19 | On 40",
        "0 close | On 43",
        "0 exit @146 |",
        "0 exit @294 |",
        "0 exit @307 |",
    ],
    edges: 48,
};

pub const CALLS_TWO_CONTEXTS: Course = Course {
    text: b"int *make(int v) {
  int *p = malloc(sizeof(int));
  if (p == NULL) return NULL;
  *p = v;
  return p;
}
int sum(int *a, int *b) { return *a + *b; }
int main(void) {
  int s;
  int *x = make(3);
  int *y;
  if (x == NULL) return 1;
  y = make(4);
  if (y == NULL) return 2;
  s = sum(x, y);
  printf(\"%d\\n\", s);
  return 0;
}",
    lines: &[
        "0 gap 9 | On 1",
        "0 unset v6 | On 2",
        "0 gap 10 | On 3",
        "0 call f0 with 3@191 | Enter 26",
        "0 gap 11 | On 5",
        "0 unset v8 | On 6",
        "0 gap 12 | On 7",
        "0 test (Eq v7@211 NULL@216)@213 | True 8 False 11",
        "0 gap 13 | On 9",
        "0 return 1@229 | On 56",
        "0 gap 14 | On 11",
        "0 gap 15 | On 12",
        "0 call f0 with 4@243 | Enter 39",
        "0 gap 16 | On 14",
        "0 test (Eq v8@253 NULL@258)@255 | True 15 False 18",
        "0 gap 17 | On 16",
        "0 return 2@271 | On 57",
        "0 gap 18 | On 18",
        "0 gap 19 | On 19",
        "0 call f1 with v7@284, v8@287 | Enter 52",
        "0 gap 20 | On 21",
        "0 printf \"%d\n\" of v6@308 | On 22",
        "0 gap 21 | On 23",
        "0 return 0@321 | On 58",
        "0 gap 22 | On 25",
        "0 close | On 59",
        "1 gap 0 | On 27",
        "1 malloc int into v1@28 @30 | Made 28 NotMade 28",
        "1 gap 1 | On 29",
        "1 test (Eq v1@57 NULL@62)@59 | True 30 False 33",
        "1 gap 2 | On 31",
        "1 return NULL@75 | Leave v7 4",
        "1 gap 3 | On 33",
        "1 gap 4 | On 34",
        "1 Put (* v1@84)@83 from v0@88 @86 | On 35",
        "1 gap 5 | On 36",
        "1 return v1@100 | Leave v7 4",
        "1 gap 6 | On 38",
        "1 close |",
        "2 gap 0 | On 40",
        "2 malloc int into v1@28 @30 | Made 41 NotMade 41",
        "2 gap 1 | On 42",
        "2 test (Eq v1@57 NULL@62)@59 | True 43 False 46",
        "2 gap 2 | On 44",
        "2 return NULL@75 | Leave v8 13",
        "2 gap 3 | On 46",
        "2 gap 4 | On 47",
        "2 Put (* v1@84)@83 from v0@88 @86 | On 48",
        "2 gap 5 | On 49",
        "2 return v1@100 | Leave v8 13",
        "2 gap 6 | On 51",
        "2 close |",
        "3 gap 7 | On 53",
        "3 return (Add (* v3@139)@138 (* v4@144)@143)@141 | Leave v6 20",
        "3 gap 8 | On 55",
        "3 close |",
        "0 exit @222 |",
        "0 exit @264 |",
        "0 exit @314 |",
        "0 exit @324 |",
    ],
    edges: 59,
};

pub const RETURN_OF_A_CALL: Course = Course {
    text: b"int *fresh(void) { return malloc(sizeof(int)); }
int *again(int c) { if (c < 0) return NULL; return fresh(); }
int next(void) { return getchar(); }
int main(void) {
  int c = next();
  int *p = again(c);
  if (p == 0) return 3;
  *p = c;
  putchar(*p);
  return next();
}",
    lines: &[
        "0 gap 9 | On 1",
        "0 call f2 with | Enter 18",
        "0 gap 10 | On 3",
        "0 call f1 with v4@200 | Enter 23",
        "0 gap 11 | On 5",
        "0 test (Eq v5@210 NULL@215)@212 | True 6 False 9",
        "0 gap 12 | On 7",
        "0 return 3@225 | On 43",
        "0 gap 13 | On 9",
        "0 gap 14 | On 10",
        "0 Put (* v5@231)@230 from v4@235 @233 | On 11",
        "0 gap 15 | On 12",
        "0 putchar (* v5@249)@248 | On 13",
        "0 gap 16 | On 14",
        "0 call f2 with | Enter 38",
        "0 return v6@255 | On 44",
        "0 gap 17 | On 17",
        "0 close | On 45",
        "1 gap 7 | On 19",
        "1 getchar into v3@128 | On 20",
        "1 return v3@128 | Leave v4 2",
        "1 gap 8 | On 22",
        "1 close |",
        "2 gap 2 | On 24",
        "2 test (Lt v1@73 0@77)@75 | True 25 False 28",
        "2 gap 3 | On 26",
        "2 return NULL@87 | Leave v5 4",
        "2 gap 4 | On 28",
        "2 gap 5 | On 29",
        "2 call f0 with | Enter 33",
        "2 return v2@93 | Leave v5 4",
        "2 gap 6 | On 32",
        "2 close |",
        "3 gap 0 | On 34",
        "3 malloc int into v0@19 @26 | Made 35 NotMade 35",
        "3 return v0@19 | Leave v2 30",
        "3 gap 1 | On 37",
        "3 close |",
        "4 gap 7 | On 39",
        "4 getchar into v3@128 | On 40",
        "4 return v3@128 | Leave v6 15",
        "4 gap 8 | On 42",
        "4 close |",
        "0 exit @218 |",
        "0 exit @255 |",
        "0 exit @270 |",
    ],
    edges: 42,
};

pub const ELSE_IF_UNBRACED: Course = Course {
    text: b"int main(void) {
  int c = getchar();
  int *p = NULL;
  if (c == 97) p = malloc(sizeof(int));
  else if (c == 98) { p = malloc(3 * sizeof(int)); if (p != NULL) p[2] = 1; }
  else if (c < 0) return 1;
  else ;
  if (p == NULL) return 2;
  *p = c;
  if (*p > 97) if (*p > 120) putchar(90); else putchar(89);
  return 0;
}",
    lines: &[
        "0 gap 0 | On 1",
        "0 getchar into v0@25 | On 2",
        "0 gap 1 | On 3",
        "0 Put v1@47 from NULL@49 @47 | On 4",
        "0 gap 2 | On 5",
        "0 test (Eq v0@61 97@66)@63 | True 6 False 9",
        "0 gap 3 | On 7",
        "0 malloc int into v1@70 @74 | Made 8 NotMade 8",
        "0 gap 4 | On 23",
        "0 test (Eq v0@106 98@111)@108 | True 10 False 18",
        "0 gap 5 | On 11",
        "0 malloc int times 3@128 into v1@117 @121 | Made 12 NotMade 12",
        "0 gap 6 | On 13",
        "0 test (Ne v1@150 NULL@155)@152 | True 14 False 17",
        "0 gap 7 | On 15",
        "0 Put (v1@161 [ 2@163 ])@162 from 1@168 @166 | On 16",
        "0 gap 8 | On 17",
        "0 gap 9 | On 23",
        "0 test (Lt v0@184 0@188)@186 | True 19 False 22",
        "0 gap 10 | On 20",
        "0 return 1@198 | On 45",
        "0 gap 11 | On 23",
        "0 gap 12 | On 23",
        "0 gap 13 | On 24",
        "0 test (Eq v1@216 NULL@221)@218 | True 25 False 28",
        "0 gap 14 | On 26",
        "0 return 2@234 | On 46",
        "0 gap 15 | On 28",
        "0 gap 16 | On 29",
        "0 Put (* v1@240)@239 from v0@244 @242 | On 30",
        "0 gap 17 | On 31",
        "0 test (Gt (* v1@254)@253 97@258)@256 | True 32 False 41",
        "0 gap 18 | On 33",
        "0 test (Gt (* v1@267)@266 120@271)@269 | True 34 False 37",
        "0 gap 19 | On 35",
        "0 putchar 90@284 | On 36",
        "0 gap 20 | On 40",
        "0 gap 21 | On 38",
        "0 putchar 89@302 | On 39",
        "0 gap 22 | On 40",
        "0 gap 23 | On 41",
        "0 gap 24 | On 42",
        "0 return 0@316 | On 47",
        "0 gap 25 | On 44",
        "0 close | On 48",
        "0 exit @191 |",
        "0 exit @227 |",
        "0 exit @309 |",
        "0 exit @319 |",
    ],
    edges: 54,
};

pub const OWN_FREES_AND_BLOCKS: Course = Course {
    text: b"int main(void) {
  int *p = malloc(sizeof(int));
  int *q;
  if (p == NULL) return 1;
  { int *r = p; *r = 2; ; }
  q = malloc(sizeof(int));
  if (q == NULL) { free(p); return 1; }
  *q = *p;
  free(q);
  { free(p); }
  return 0;
}",
    lines: &[
        "0 gap 0 | On 1",
        "0 malloc int into v0@26 @28 | Made 2 NotMade 2",
        "0 gap 1 | On 3",
        "0 unset v1 | On 4",
        "0 gap 2 | On 5",
        "0 test (Eq v0@65 NULL@70)@67 | True 6 False 9",
        "0 gap 3 | On 7",
        "0 return 1@83 | On 30",
        "0 gap 4 | On 9",
        "0 gap 5 | On 10",
        "0 gap 6 | On 11",
        "0 Put v2@97 from v0@99 @97 | On 12",
        "0 gap 7 | On 13",
        "0 Put (* v2@103)@102 from 2@107 @105 | On 14",
        "0 gap 8 | On 15",
        "0 gap 9 | On 16",
        "0 malloc int into v1@116 @120 | Made 17 NotMade 17",
        "0 gap 10 | On 18",
        "0 test (Eq v1@147 NULL@152)@149 | True 19 False 22",
        "0 gap 11 frees v0@165 | On 20",
        "0 return 1@176 | On 31",
        "0 gap 12 | On 22",
        "0 gap 13 | On 23",
        "0 Put (* v1@184)@183 from (* v0@189)@188 @186 | On 24",
        "0 gap 14 frees v1@199 | On 25",
        "0 gap 15 frees v0@212 | On 26",
        "0 gap 16 | On 27",
        "0 return 0@227 | On 32",
        "0 gap 17 | On 29",
        "0 close | On 33",
        "0 exit @76 |",
        "0 exit @169 |",
        "0 exit @220 |",
        "0 exit @230 |",
    ],
    edges: 34,
};

pub const VOID_CLOSING_BRACE: Course = Course {
    text: b"int total;
void add(int n) { if (n > 1) { total += n; return; } total -= n; }
void twice(int n) { add(n); add(n - 1); }
int main(void) { twice(2); add(0 - 3); printf(\"%d\\n\", total); }",
    lines: &[
        "0 gap 9 | On 1",
        "0 call f1 with 2@143 | Enter 8",
        "0 gap 10 | On 3",
        "0 call f0 with (Sub 0@151 3@155)@153 | Enter 36",
        "0 gap 11 | On 5",
        "0 printf \"%d\n\" of v0@174 | On 6",
        "0 gap 12 | On 7",
        "0 close | On 47",
        "1 gap 6 | On 9",
        "1 call f0 with v2@102 | Enter 14",
        "1 gap 7 | On 11",
        "1 call f0 with (Sub v2@110 1@114)@112 | Enter 25",
        "1 gap 8 | On 13",
        "1 close | Leave 2",
        "2 gap 0 | On 15",
        "2 test (Gt v1@33 1@37)@35 | True 16 False 21",
        "2 gap 1 | On 17",
        "2 Add v0@42 from v1@51 @48 | On 18",
        "2 gap 2 | On 19",
        "2 return nothing | Leave 10",
        "2 gap 3 | On 21",
        "2 gap 4 | On 22",
        "2 Sub v0@64 from v1@73 @70 | On 23",
        "2 gap 5 | On 24",
        "2 close | Leave 10",
        "3 gap 0 | On 26",
        "3 test (Gt v1@33 1@37)@35 | True 27 False 32",
        "3 gap 1 | On 28",
        "3 Add v0@42 from v1@51 @48 | On 29",
        "3 gap 2 | On 30",
        "3 return nothing | Leave 12",
        "3 gap 3 | On 32",
        "3 gap 4 | On 33",
        "3 Sub v0@64 from v1@73 @70 | On 34",
        "3 gap 5 | On 35",
        "3 close | Leave 12",
        "4 gap 0 | On 37",
        "4 test (Gt v1@33 1@37)@35 | True 38 False 43",
        "4 gap 1 | On 39",
        "4 Add v0@42 from v1@51 @48 | On 40",
        "4 gap 2 | On 41",
        "4 return nothing | Leave 4",
        "4 gap 3 | On 43",
        "4 gap 4 | On 44",
        "4 Sub v0@64 from v1@73 @70 | On 45",
        "4 gap 5 | On 46",
        "4 close | Leave 4",
        "0 exit @182 |",
    ],
    edges: 50,
};

pub const COURSES: [Course; 9] = [
    BRANCH,
    WHILE_BREAK_CONTINUE,
    FOR_FORMS,
    CONDITIONS,
    CALLS_TWO_CONTEXTS,
    RETURN_OF_A_CALL,
    ELSE_IF_UNBRACED,
    OWN_FREES_AND_BLOCKS,
    VOID_CLOSING_BRACE,
];

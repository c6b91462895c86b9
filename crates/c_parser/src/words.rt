// The key words and punctuators that are printed, by their places in the lexer's tables.

// key words

pub const EOF: u16 = 0;

pub const NULL: u16 = 1;

pub const BREAK: u16 = 2;

pub const CONTINUE: u16 = 3;

pub const ELSE: u16 = 4;

pub const FOR: u16 = 5;

pub const FREE: u16 = 6;

pub const GETCHAR: u16 = 7;

pub const IF: u16 = 8;

pub const INT: u16 = 9;

pub const MALLOC: u16 = 10;

pub const PRINTF: u16 = 11;

pub const PUTCHAR: u16 = 12;

pub const RETURN: u16 = 13;

pub const SIZEOF: u16 = 14;

pub const STRUCT: u16 = 15;

pub const TYPEDEF: u16 = 16;

pub const VOID: u16 = 17;

pub const WHILE: u16 = 18;

// punctuators

pub const NOT: u16 = 0;

pub const DIFFERS: u16 = 1;

pub const PERCENT: u16 = 2;

pub const AND_AND: u16 = 3;

pub const OPEN: u16 = 4;

pub const CLOSE: u16 = 5;

pub const STAR: u16 = 6;

pub const STAR_PUT: u16 = 7;

pub const PLUS: u16 = 8;

pub const PLUS_PLUS: u16 = 9;

pub const PLUS_PUT: u16 = 10;

pub const COMMA: u16 = 11;

pub const MINUS: u16 = 12;

pub const MINUS_MINUS: u16 = 13;

pub const MINUS_PUT: u16 = 14;

pub const ARROW: u16 = 15;

pub const SLASH: u16 = 16;

pub const SEMICOLON: u16 = 17;

pub const LESS: u16 = 18;

pub const AT_MOST: u16 = 19;

pub const PUT: u16 = 20;

pub const EQUALS: u16 = 21;

pub const GREATER: u16 = 22;

pub const AT_LEAST: u16 = 23;

pub const OPEN_INDEX: u16 = 24;

pub const CLOSE_INDEX: u16 = 25;

pub const OPEN_BRACE: u16 = 26;

pub const OR_OR: u16 = 27;

pub const CLOSE_BRACE: u16 = 28;

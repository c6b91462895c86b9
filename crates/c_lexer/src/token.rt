// Tokens and their places.
use mf_bytes::SharedBytes;
use mf_list::Seq;

/// A token and its place: `start` is the offset of its first byte, `end` the one after its last.
#[derive(Debug, Drop)]
pub struct Token {
    pub kind: Kind,
    pub start: usize,
    pub end: usize,
}

/// What a token is. The numbers of key words, punctuators and refused rows are places in their tables, from 0.
#[derive(Debug, Drop)]
pub enum Kind {
    Name(SharedBytes),
    Key(u16),
    Number(i32),
    /// A string, as its bytes after escapes.
    Text(SharedBytes),
    Punct(u16),
    Refused(u16),
}

/// The tokens of a text of `size` bytes, and the place of its last comment.
#[derive(Debug, Drop)]
pub struct Tokens {
    pub list: Seq<Token>,
    pub last_comment: Option<(usize, usize)>,
    pub size: usize,
}

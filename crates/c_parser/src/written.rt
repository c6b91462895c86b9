// Tokens that are written one behind another.
ghost use Rattle.std.specs.Prelude.{◌≡◌, [], ◌∷◌, ◌++◌, OnOk};
ghost use Rattle.c_lexer.specs.declared.token.Kind.TheVariants as kind;
ghost use Rattle.c_parser.specs.Printed.{tokens_of};

use c_lexer::{Kind, Token, Tokens};
use c_tree::tree::Word;
use mf_list::{Memory, Seq};
use std::alloc::Global;
use std::marker::Model;

/// Tokens one behind another, each one byte long, that contracts see as the list of their kinds.
#[derive(Debug, Drop)]
pub struct Written {
    list: Seq<Token>,
}

impl Model for Written {
    ghost use Rattle.std.specs.Prelude.{List, ◌≡◌, map};
    ghost use Rattle.c_lexer.specs.declared.token.Kind.{Kind};
    ghost use Rattle.c_parser.specs.Printed.{numbered};
    ghost use Rattle.c_parser.specs.PrintWork.{kinds};

    ghost Value = { List Kind };

    ghost view = { λ w. kinds w.list };

    ghost invariant = { λ w. w.list ≡ numbered 0 (kinds w.list) };
}

impl Written {
    pub fn new(alloc: Global) -> Written
        ensures { result ≡ [] }
    {
        Written {
            list: Seq::new(alloc),
        }
    }

    pub fn push(&mut self, kind: Kind) -> Result<(), Memory>
        ensures { OnOk result (self.new ≡ self.old ++ kind ∷ []) }
    {
        let start = self.list.as_slice().len();
        let end = start + 1;
        self.list.push(Token { kind, start, end })
    }

    /// The key word of this number.
    pub fn key(&mut self, number: u16) -> Result<(), Memory>
        ensures { OnOk result (self.new ≡ self.old ++ kind.Key number ∷ []) }
    {
        self.push(Kind::Key(number))
    }

    /// The punctuator of this number.
    pub fn mark(&mut self, number: u16) -> Result<(), Memory>
        ensures { OnOk result (self.new ≡ self.old ++ kind.Punct number ∷ []) }
    {
        self.push(Kind::Punct(number))
    }

    /// A name, which shares its bytes with the word.
    pub fn name(&mut self, word: &Word) -> Result<(), Memory>
        ensures { OnOk result (self.new ≡ self.old ++ kind.Name word.now.text ∷ []) }
    {
        let text = word.text.share()?;
        self.push(Kind::Name(text))
    }

    pub fn into_tokens(self) -> Tokens
        ensures { result ≡ tokens_of self }
    {
        let Written { list } = self;
        let size = list.len();
        Tokens {
            list,
            last_comment: None,
            size,
        }
    }
}

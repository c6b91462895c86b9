// Copies of expressions and of the parts of items.
ghost use Rattle.std.specs.Prelude.{◌≡◌, IfOk};

use crate::choice::Choice;
use crate::expr::Expr;
use crate::program::{
    Call, Declr, FieldDef, ForHead, Free, Gap, Right, Simple, Size, Start, StructDef, VarDef,
};
use crate::tree::{Base, Spec, Word};
use mf_bytes::SharedBytes;
use mf_list::{Memory, Seq};
use sqlite_items::Boxed;
use std::alloc::Global;

/// A copy, as of `Clone`, of a value that owns memory.
pub trait Duplicate: Drop {
    fn duplicate(&self, alloc: Global) -> Result<Self, Memory>
        ensures { IfOk result (λ copy. copy ≡ self.now) };
}

impl<T: Duplicate> Duplicate for Option<T> {
    fn duplicate(&self, alloc: Global) -> Result<Option<T>, Memory> {
        match self {
            None => Ok(None),
            Some(value) => Ok(Some(value.duplicate(alloc)?)),
        }
    }
}

impl<T: Duplicate> Duplicate for Seq<T> {
    fn duplicate(&self, alloc: Global) -> Result<Seq<T>, Memory> {
        let mut copy = Seq::new(alloc);
        let items = self.as_slice();
        for item in items {
            copy.push(item.duplicate(alloc)?)?;
        }
        Ok(copy)
    }
}

impl Duplicate for Choice {
    fn duplicate(&self, alloc: Global) -> Result<Choice, Memory> {
        Ok(Choice {
            puts: Seq::from_slice(alloc, self.puts.as_slice())?,
        })
    }
}

impl Duplicate for Expr {
    fn duplicate(&self, alloc: Global) -> Result<Expr, Memory> {
        match self {
            Expr::Const(number, at) => Ok(Expr::Const(*number, *at)),
            Expr::Null(at) => Ok(Expr::Null(*at)),
            Expr::Var(var, at) => Ok(Expr::Var(*var, *at)),
            Expr::Field(of, field, at) => {
                let of = Boxed::new(alloc, of.get().duplicate(alloc)?)?;
                Ok(Expr::Field(of, *field, *at))
            }
            Expr::Deref(of, at) => {
                let of = Boxed::new(alloc, of.get().duplicate(alloc)?)?;
                Ok(Expr::Deref(of, *at))
            }
            Expr::Index(of, index, at) => {
                let of = Boxed::new(alloc, of.get().duplicate(alloc)?)?;
                let index = Boxed::new(alloc, index.get().duplicate(alloc)?)?;
                Ok(Expr::Index(of, index, *at))
            }
            Expr::Unary(sign, of, at) => {
                let of = Boxed::new(alloc, of.get().duplicate(alloc)?)?;
                Ok(Expr::Unary(*sign, of, *at))
            }
            Expr::Binary(oper, left, right, at) => {
                let left = Boxed::new(alloc, left.get().duplicate(alloc)?)?;
                let right = Boxed::new(alloc, right.get().duplicate(alloc)?)?;
                Ok(Expr::Binary(*oper, left, right, *at))
            }
        }
    }
}

impl Duplicate for Size {
    fn duplicate(&self, alloc: Global) -> Result<Size, Memory> {
        match self {
            Size::Fields(of) => Ok(Size::Fields(*of)),
            Size::Ints(None) => Ok(Size::Ints(None)),
            Size::Ints(Some(count)) => {
                let count = Boxed::new(alloc, count.get().duplicate(alloc)?)?;
                Ok(Size::Ints(Some(count)))
            }
        }
    }
}

impl Duplicate for Call {
    fn duplicate(&self, alloc: Global) -> Result<Call, Memory> {
        match self {
            Call::User(number, callee, arguments, at) => {
                Ok(Call::User(*number, *callee, arguments.duplicate(alloc)?, *at))
            }
            Call::Malloc(size, at) => Ok(Call::Malloc(size.duplicate(alloc)?, *at)),
            Call::Getchar(at) => Ok(Call::Getchar(*at)),
            Call::Putchar(value, at) => Ok(Call::Putchar(value.duplicate(alloc)?, *at)),
            Call::Printf(text, arguments, at) => {
                let text = Seq::from_slice(alloc, text.as_slice())?;
                Ok(Call::Printf(text, arguments.duplicate(alloc)?, *at))
            }
        }
    }
}

impl Duplicate for Right {
    fn duplicate(&self, alloc: Global) -> Result<Right, Memory> {
        match self {
            Right::Plain(value) => Ok(Right::Plain(value.duplicate(alloc)?)),
            Right::Call(call) => Ok(Right::Call(call.duplicate(alloc)?)),
        }
    }
}

impl Duplicate for Declr {
    fn duplicate(&self, alloc: Global) -> Result<Declr, Memory> {
        Ok(Declr {
            var: self.var,
            right: self.right.duplicate(alloc)?,
            at: self.at,
        })
    }
}

impl Duplicate for Simple {
    fn duplicate(&self, alloc: Global) -> Result<Simple, Memory> {
        Ok(Simple {
            place: self.place.duplicate(alloc)?,
            op: self.op,
            right: self.right.duplicate(alloc)?,
            at: self.at,
        })
    }
}

impl Duplicate for Start {
    fn duplicate(&self, alloc: Global) -> Result<Start, Memory> {
        match self {
            Start::Declare(declr) => Ok(Start::Declare(declr.duplicate(alloc)?)),
            Start::Assign(simple) => Ok(Start::Assign(simple.duplicate(alloc)?)),
        }
    }
}

impl Duplicate for ForHead {
    fn duplicate(&self, alloc: Global) -> Result<ForHead, Memory> {
        Ok(ForHead {
            start: self.start.duplicate(alloc)?,
            test: self.test.duplicate(alloc)?,
            step: self.step.duplicate(alloc)?,
        })
    }
}

impl Duplicate for Free {
    fn duplicate(&self, alloc: Global) -> Result<Free, Memory> {
        Ok(Free {
            expr: self.expr.duplicate(alloc)?,
            start: self.start,
            end: self.end,
        })
    }
}

impl Duplicate for Gap {
    fn duplicate(&self, alloc: Global) -> Result<Gap, Memory> {
        Ok(Gap {
            number: self.number,
            frees: self.frees.duplicate(alloc)?,
        })
    }
}

impl Duplicate for FieldDef {
    fn duplicate(&self, alloc: Global) -> Result<FieldDef, Memory> {
        Ok(FieldDef {
            name: Seq::from_slice(alloc, self.name.as_slice())?,
            ty: self.ty,
        })
    }
}

impl Duplicate for StructDef {
    fn duplicate(&self, alloc: Global) -> Result<StructDef, Memory> {
        Ok(StructDef {
            fields: self.fields.duplicate(alloc)?,
            body: self.body,
        })
    }
}

impl Duplicate for VarDef {
    fn duplicate(&self, alloc: Global) -> Result<VarDef, Memory> {
        Ok(VarDef {
            name: Seq::from_slice(alloc, self.name.as_slice())?,
            ty: self.ty,
            home: self.home,
            at: self.at,
        })
    }
}

impl Duplicate for SharedBytes {
    fn duplicate(&self, _alloc: Global) -> Result<SharedBytes, Memory> {
        self.share()
    }
}

impl Duplicate for Word {
    fn duplicate(&self, alloc: Global) -> Result<Word, Memory> {
        Ok(Word {
            text: self.text.duplicate(alloc)?,
            at: self.at,
        })
    }
}

impl Duplicate for Base {
    fn duplicate(&self, alloc: Global) -> Result<Base, Memory> {
        match self {
            Base::Void => Ok(Base::Void),
            Base::Int => Ok(Base::Int),
            Base::Tag(word) => Ok(Base::Tag(word.duplicate(alloc)?)),
            Base::Alias(word) => Ok(Base::Alias(word.duplicate(alloc)?)),
        }
    }
}

impl Duplicate for Spec {
    fn duplicate(&self, alloc: Global) -> Result<Spec, Memory> {
        Ok(Spec {
            base: self.base.duplicate(alloc)?,
            stars: self.stars,
            name: self.name.duplicate(alloc)?,
            at: self.at,
        })
    }
}

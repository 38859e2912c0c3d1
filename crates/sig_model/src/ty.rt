use crate::{Boxed, Many, Word};

/// A name of a type, a class, a module, an interface or a constant, as it is written: `::A::B` is rooted.
#[derive(Debug, Drop, PartialEq, Eq)]
pub struct TypeName {
    pub rooted: bool,
    pub path: Many<Word>,
}

/// A type that is a word of the language, after the RBS syntax reference.
#[derive(Clone, Copy, Debug, PartialEq, Eq)]
pub enum BaseTy {
    True,
    False,
    Nil,
    Bool,
    Void,
    Top,
    Bot,
    SelfTy,
    Instance,
    ClassTy,
    Untyped,
}

/// A type as it is written in a signature, after the RBS syntax reference.
#[cycle(ty)]
#[derive(Debug, Drop, PartialEq, Eq)]
pub enum Ty {
    /// A class, a module, an interface or an alias, with its arguments.
    Name { name: TypeName, args: Many<Ty> },
    /// `singleton(C)`, the type of the class itself.
    Single(TypeName),
    /// `T?`.
    Opt(Boxed<Ty>),
    Union(Many<Ty>),
    Inter(Many<Ty>),
    Tuple(Many<Ty>),
    Rec(Many<RecKey>),
    /// A proc type.
    Fun(Boxed<FunTy>),
    Int(i64),
    Str(Word),
    Sym(Word),
    Base(BaseTy),
}

/// A key of a record type, or a keyword of a method: `needed` where no `?` stands before it.
#[cycle(ty)]
#[derive(Debug, Drop, PartialEq, Eq)]
pub struct RecKey {
    pub key: Word,
    pub needed: bool,
    pub ty: Ty,
}

/// A positional parameter, whose name may be left out.
#[cycle(ty)]
#[derive(Debug, Drop, PartialEq, Eq)]
pub struct Arg {
    pub ty: Ty,
    pub name: Option<Word>,
}

/// The parameters, the block and the result of a method or a proc.
#[cycle(ty)]
#[derive(Debug, Drop, PartialEq, Eq)]
pub struct FunTy {
    pub required: Many<Arg>,
    pub optional: Many<Arg>,
    pub rest: Option<Arg>,
    pub trailing: Many<Arg>,
    pub keys: Many<RecKey>,
    pub key_rest: Option<Arg>,
    pub block: Option<Boxed<BlockTy>>,
    pub result: Ty,
}

/// The block of a method or a proc: `needed` where no `?` stands before it.
#[cycle(ty)]
#[derive(Debug, Drop, PartialEq, Eq)]
pub struct BlockTy {
    pub needed: bool,
    pub fun: FunTy,
}

use crate::place::Place;
use crate::ty::{FunTy, Ty, TypeName};
use crate::{Many, Word};

/// How a type parameter may be used: in any place, as `out` in results alone, or as `in` in parameters alone.
#[derive(Clone, Copy, Debug, PartialEq, Eq)]
pub enum Variance {
    Fixed,
    Out,
    In,
}

/// The visibility of a method.
#[derive(Clone, Copy, Debug, PartialEq, Eq)]
pub enum Vis {
    Public,
    Private,
}

/// Which accessors an attribute declares.
#[derive(Clone, Copy, Debug, PartialEq, Eq)]
pub enum AttrKind {
    Reader,
    Writer,
    Accessor,
}

/// How a module is mixed in.
#[derive(Clone, Copy, Debug, PartialEq, Eq)]
pub enum MixKind {
    Include,
    Extend,
    Prepend,
}

/// A type parameter of a declaration or a method.
#[derive(Debug, Drop, PartialEq, Eq)]
pub struct TyParam {
    pub name: Word,
    pub unchecked: bool,
    pub variance: Variance,
    pub bound: Option<Ty>,
}

/// One overload of a method.
#[derive(Debug, Drop, PartialEq, Eq)]
pub struct MethodTy {
    pub params: Many<TyParam>,
    pub fun: FunTy,
}

/// The comment lines and the annotations that stand directly before a declaration or a member.
#[derive(Debug, Drop, PartialEq, Eq)]
pub struct Notes {
    pub comments: Many<Word>,
    pub annotations: Many<Word>,
}

/// A member of a class, a module or an interface. `single` says that `self.` stands before the name.
#[derive(Debug, Drop, PartialEq, Eq)]
pub enum Member {
    Method {
        vis: Option<Vis>,
        single: bool,
        name: Word,
        overloads: Many<MethodTy>,
    },
    Attr {
        vis: Option<Vis>,
        kind: AttrKind,
        name: Word,
        ty: Ty,
    },
    Mixin {
        kind: MixKind,
        ty: Ty,
    },
    Alias {
        new: Word,
        old: Word,
    },
    Ivar {
        single: bool,
        name: Word,
        ty: Ty,
    },
    Section(Vis),
}

/// A declaration of a signature file. Its place runs from its first token to its last.
#[cycle(decl)]
#[derive(Debug, Drop, PartialEq, Eq)]
pub struct Decl {
    pub place: Place,
    pub notes: Notes,
    pub body: DeclBody,
}

/// What is declared.
#[cycle(decl)]
#[derive(Debug, Drop, PartialEq, Eq)]
pub enum DeclBody {
    Class {
        name: TypeName,
        params: Many<TyParam>,
        parent: Option<Ty>,
        parts: Many<Part>,
    },
    Module {
        name: TypeName,
        params: Many<TyParam>,
        selves: Many<Ty>,
        parts: Many<Part>,
    },
    Iface {
        name: TypeName,
        params: Many<TyParam>,
        parts: Many<Part>,
    },
    Alias {
        name: TypeName,
        params: Many<TyParam>,
        ty: Ty,
    },
    Const {
        name: TypeName,
        ty: Ty,
    },
}

/// A part of a declaration: one inside it, or a member.
#[cycle(decl)]
#[derive(Debug, Drop, PartialEq, Eq)]
pub enum Part {
    Inner(Decl),
    Member {
        place: Place,
        notes: Notes,
        member: Member,
    },
}

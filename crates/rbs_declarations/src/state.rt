//! What a reader of declarations knows between two tokens.

use crate::operators::Operator;
use crate::plain::{Decls, Methods, Params, Parts};
use plain_data::{Boxed, Word};
use rbs_types::{Stack, Tall, Talls};
use sig_model::decl::{AttrKind, MixKind, Notes, Variance, Vis};
use sig_model::ty::TypeName;

/// Where a declaration or a member began, with the notes before it.
#[derive(Drop)]
pub struct Begun {
    pub start: u32,
    pub notes: Boxed<Notes>,
}

/// What stands directly before the place inside a name.
#[derive(Clone, Copy, Drop)]
pub enum Step {
    /// Nothing of the name.
    Start,
    /// A `::`.
    Scope,
    /// A capital word, with which the name may end or which a `::` on its line may follow.
    Upper,
}

/// A name up to a place in it.
#[derive(Drop)]
pub struct Naming {
    pub name: TypeName,
    pub step: Step,
}

/// What a declaration declares.
#[derive(Clone, Copy, Drop)]
pub enum Sort {
    Class,
    Module,
    Interface,
    Alias,
    Constant,
}

/// A declaration that is open, up to its parts.
#[derive(Drop)]
pub enum Heading {
    Class {
        name: TypeName,
        params: Params,
        parent: Option<Tall>,
    },
    Module {
        name: TypeName,
        params: Params,
        selves: Talls,
    },
    Interface {
        name: TypeName,
        params: Params,
    },
}

/// A declaration that is open, with its parts so far.
#[derive(Drop)]
pub struct Frame {
    pub begun: Begun,
    pub heading: Heading,
    pub parts: Parts,
}

/// A method up to the colon behind its name.
#[derive(Drop)]
pub struct Signature {
    pub begun: Begun,
    pub vis: Option<Vis>,
    pub single: bool,
    pub name: Word,
}

/// Whose type parameters are read.
#[derive(Drop)]
pub enum Owner {
    Heading {
        begun: Begun,
        sort: Sort,
        name: TypeName,
    },
    Overload {
        signature: Signature,
        done: Methods,
    },
}

/// A type parameter up to its bound.
#[derive(Drop)]
pub struct Param {
    pub name: Word,
    pub unchecked: bool,
    pub variance: Variance,
}

/// What a type that is read is for.
#[derive(Drop)]
pub enum Purpose {
    Alias {
        begun: Begun,
        name: TypeName,
        params: Params,
    },
    Constant {
        begun: Begun,
        name: TypeName,
    },
    Attribute {
        begun: Begun,
        vis: Option<Vis>,
        kind: AttrKind,
        name: Word,
    },
    Variable {
        begun: Begun,
        single: bool,
        name: Word,
    },
    Overload {
        signature: Signature,
        done: Methods,
        params: Params,
    },
    /// The arguments of a superclass.
    Parent {
        begun: Begun,
        name: TypeName,
        params: Params,
    },
    /// The arguments of a self type.
    SelfType {
        begun: Begun,
        name: TypeName,
        params: Params,
        selves: Talls,
    },
    /// The arguments of a mixin.
    Mixin {
        begun: Begun,
        kind: MixKind,
    },
    /// The arguments of a bound.
    Bound {
        owner: Boxed<Owner>,
        done: Params,
        param: Param,
    },
}

/// What stands directly before the place.
#[derive(Drop)]
pub enum Focus {
    /// A declaration or a part may begin.
    Parts,
    /// Annotations.
    Noted {
        begun: Begun,
    },
    /// A visibility, which ends at this byte.
    Visible {
        begun: Begun,
        vis: Vis,
        end: u32,
    },
    /// The name of what is declared.
    Name {
        begun: Begun,
        sort: Sort,
        naming: Naming,
    },
    /// A name that is whole.
    Named {
        begun: Begun,
        sort: Sort,
        name: TypeName,
    },
    /// The bracket or the comma before a type parameter.
    Param {
        owner: Boxed<Owner>,
        done: Params,
    },
    /// `unchecked`
    Unchecked {
        owner: Boxed<Owner>,
        done: Params,
    },
    /// `out` or `in`
    Varied {
        owner: Boxed<Owner>,
        done: Params,
        unchecked: bool,
        variance: Variance,
    },
    /// The name of a type parameter.
    ParamName {
        owner: Boxed<Owner>,
        done: Params,
        param: Param,
    },
    /// The name of a bound.
    Bound {
        owner: Boxed<Owner>,
        done: Params,
        param: Param,
        naming: Naming,
    },
    /// The name of a bound, which is whole.
    BoundNamed {
        owner: Boxed<Owner>,
        done: Params,
        param: Param,
        name: TypeName,
    },
    /// `singleton`, as a bound
    BoundSingleton {
        owner: Boxed<Owner>,
        done: Params,
        param: Param,
    },
    /// `singleton(`, and the name
    BoundClass {
        owner: Boxed<Owner>,
        done: Params,
        param: Param,
        naming: Naming,
    },
    /// A type parameter that is whole, the last of these.
    Bounded {
        owner: Boxed<Owner>,
        params: Params,
    },
    /// The bracket that closes type parameters.
    Parameterized {
        owner: Boxed<Owner>,
        params: Params,
    },
    /// The name of a superclass.
    Parent {
        begun: Begun,
        name: TypeName,
        params: Params,
        naming: Naming,
    },
    /// The name of a self type.
    SelfType {
        begun: Begun,
        name: TypeName,
        params: Params,
        selves: Talls,
        naming: Naming,
    },
    /// The name of a self type, which is whole.
    SelfNamed {
        begun: Begun,
        name: TypeName,
        params: Params,
        selves: Talls,
        self_name: TypeName,
    },
    /// `def`
    Def {
        begun: Begun,
        vis: Option<Vis>,
    },
    /// `def self`
    DefSelf {
        begun: Begun,
        vis: Option<Vis>,
    },
    /// Where the name of a method must come.
    MethodStart {
        begun: Begun,
        vis: Option<Vis>,
        single: bool,
    },
    /// A word as the name of a method.
    MethodWord {
        signature: Signature,
    },
    /// The marks of an operator as the name of a method.
    MethodOperator {
        begun: Begun,
        vis: Option<Vis>,
        single: bool,
        operator: Operator,
    },
    /// The name of a method, which is whole.
    MethodName {
        signature: Signature,
    },
    /// The colon before an overload, or the `|`.
    Overload {
        signature: Signature,
        done: Methods,
    },
    /// `attr_reader`, `attr_writer` or `attr_accessor`
    Attribute {
        begun: Begun,
        vis: Option<Vis>,
        kind: AttrKind,
    },
    /// The name of an attribute.
    AttributeName {
        begun: Begun,
        vis: Option<Vis>,
        kind: AttrKind,
        name: Word,
    },
    /// The name of a mixin.
    Mixin {
        begun: Begun,
        kind: MixKind,
        naming: Naming,
    },
    /// The name of a mixin, which is whole.
    MixinNamed {
        begun: Begun,
        kind: MixKind,
        name: TypeName,
    },
    /// `alias`
    Alias {
        begun: Begun,
    },
    /// A word as the new name.
    NewWord {
        begun: Begun,
        word: Word,
    },
    /// A word and a `=` directly behind it, which ends the new name or begins the old one.
    NewEquals {
        begun: Begun,
        word: Word,
    },
    /// A word and two `=` directly behind it: the old name is `==`, or the second `=` begins it.
    NewEqualsEquals {
        begun: Begun,
        word: Word,
    },
    /// The marks of an operator as the new name.
    NewOperator {
        begun: Begun,
        operator: Operator,
    },
    /// The new name, which is whole.
    NewName {
        begun: Begun,
        new: Word,
    },
    /// A word as the old name, a capital one or not.
    OldWord {
        begun: Begun,
        new: Word,
        word: Word,
        capital: bool,
    },
    /// The marks of an operator as the old name.
    OldOperator {
        begun: Begun,
        new: Word,
        operator: Operator,
    },
    /// The old name, which is whole.
    OldName {
        begun: Begun,
        new: Word,
        old: Word,
    },
    /// `self`, before the dot of a variable
    SelfWord {
        begun: Begun,
    },
    /// `self.`
    SelfDot {
        begun: Begun,
    },
    /// An instance variable.
    Variable {
        begun: Begun,
        single: bool,
        name: Word,
    },
    /// Inside of a type.
    Typed {
        purpose: Boxed<Purpose>,
        inner: Boxed<rbs_types::State>,
    },
}

/// What was declared so far, the open declarations, and what stands directly before the place.
#[derive(Drop)]
pub struct State {
    pub decls: Decls,
    pub frames: Stack<Frame>,
    pub focus: Focus,
}

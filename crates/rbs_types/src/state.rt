//! What a reader of types knows between two tokens.

use crate::stack::Stack;
use crate::tall::{Args, Block, Keys, Rest, Tall, Talls};
use plain_data::{Boxed, Word};
use sig_model::ty::{BaseTy, TypeName};

/// What stands before a type at its place.
#[derive(Drop)]
pub enum Members {
    /// The members of a union that a `|` follows, and since the last `|` the members of an intersection that an `&` follows.
    Operands { unions: Talls, inters: Talls },
    /// The arrow of a block: no union or intersection may stand here without parentheses.
    Result,
    /// The phrase that is read ends by itself.
    Closed,
}

/// Parameters so far, without the rest of the keywords.
#[derive(Drop)]
pub struct Parameters {
    pub required: Args,
    pub optional: Args,
    pub rest: Rest,
    pub trailing: Args,
    pub keys: Keys,
}

/// All parameters of a function.
#[derive(Drop)]
pub struct Listed {
    pub parameters: Boxed<Parameters>,
    pub key_rest: Rest,
}

/// A function up to its arrow, put together in one place.
#[derive(Drop)]
pub struct FunctionHead {
    pub parameters: Parameters,
    pub key_rest: Rest,
    pub block: Block,
}

/// A function up to its arrow.
#[derive(Drop)]
pub struct Head {
    pub listed: Listed,
    pub block: Block,
}

/// A place for a type: what stands before it, and the functions whose results it ends, from the innermost on.
#[derive(Drop)]
pub struct Level {
    pub members: Members,
    pub heads: Stack<Head>,
}

/// Whose parameters stand in a pair of parentheses.
#[derive(Drop)]
pub enum Owner {
    /// A function's.
    Function(Level),
    /// Those of the block of a function, which has these parameters.
    Block {
        needed: bool,
        outer: Listed,
        level: Level,
    },
}

/// What a parameter is, by what stands before its type.
#[derive(Drop)]
pub enum Slot {
    Positional,
    /// `?`
    Optional,
    /// `*`
    Rest,
    /// `**`
    KeyRest,
    Key { key: Word, needed: bool },
}

/// An open bracket around a type, and what stands in it before the type.
#[derive(Drop)]
pub enum Frame {
    Paren {
        outer: Level,
    },
    Arguments {
        name: TypeName,
        done: Talls,
        outer: Level,
    },
    Tuple {
        done: Talls,
        outer: Level,
    },
    Record {
        done: Keys,
        key: Word,
        needed: bool,
        outer: Level,
    },
    Parameter {
        before: Boxed<Parameters>,
        slot: Slot,
        owner: Owner,
    },
    /// The braces of a block, whose result is read.
    Block {
        needed: bool,
        inner: Listed,
        outer: Listed,
        level: Level,
    },
}

/// The type that a word begins which may be a keyword's name too.
#[derive(Drop)]
pub enum Opening {
    /// The name of an alias.
    Alias,
    /// A word of the language.
    Base(BaseTy),
    Singleton,
}

/// What stands directly before the place.
#[derive(Drop)]
pub enum Focus {
    /// A type must begin.
    Type {
        level: Level,
    },
    /// A `::`, and the name up to it.
    Scope {
        name: TypeName,
        level: Level,
    },
    /// A name that a `::` may follow.
    Upper {
        name: TypeName,
        level: Level,
    },
    /// A name that is whole.
    Bare {
        name: TypeName,
        level: Level,
    },
    /// `singleton`
    Singleton {
        level: Level,
    },
    /// `singleton(`
    SingletonOpen {
        level: Level,
    },
    /// `singleton(`, and a name up to a `::`
    SingletonScope {
        name: TypeName,
        level: Level,
    },
    /// `singleton(`, and a name
    SingletonUpper {
        name: TypeName,
        level: Level,
    },
    /// `(`, for a type
    Paren {
        level: Level,
    },
    /// `[`, for a tuple
    Tuple {
        level: Level,
    },
    /// `{`, for a record
    Record {
        level: Level,
    },
    /// The comma behind these keys.
    Key {
        done: Keys,
        level: Level,
    },
    /// The question mark of a key.
    KeyQuestion {
        done: Keys,
        level: Level,
    },
    /// The name of a key.
    KeyName {
        done: Keys,
        key: Word,
        needed: bool,
        level: Level,
    },
    /// A type that a question mark may follow.
    Simple {
        ty: Tall,
        level: Level,
    },
    /// A type with a question mark, and what stands before it.
    Optional {
        ty: Tall,
        members: Members,
    },
    /// `^`, or where a method type begins behind its parameters of types.
    Function {
        level: Level,
    },
    /// `(`, for parameters
    Parameters {
        owner: Owner,
    },
    /// The comma behind these parameters.
    Parameter {
        before: Boxed<Parameters>,
        owner: Owner,
    },
    /// The question mark of a parameter.
    ParameterQuestion {
        before: Boxed<Parameters>,
        owner: Owner,
    },
    /// A word that may be the name of a keyword, or begin a type.
    ParameterWord {
        before: Boxed<Parameters>,
        needed: bool,
        word: Word,
        opening: Opening,
        owner: Owner,
    },
    /// The name of a keyword.
    ParameterKey {
        before: Boxed<Parameters>,
        needed: bool,
        key: Word,
        owner: Owner,
    },
    /// The name of a positional parameter, which is the last of these.
    ParameterNamed {
        parameters: Boxed<Parameters>,
        owner: Owner,
    },
    /// The name of the rest of the keywords.
    KeyRestNamed {
        listed: Listed,
        owner: Owner,
    },
    /// The parenthesis that closes these parameters.
    Listed {
        listed: Listed,
        owner: Owner,
    },
    /// The question mark of a block.
    BlockQuestion {
        outer: Listed,
        level: Level,
    },
    /// `{`, for a block
    Block {
        needed: bool,
        outer: Listed,
        level: Level,
    },
    /// The brace that closes a block.
    Headed {
        head: Head,
        level: Level,
    },
}

/// The open brackets, and what stands directly before the place.
#[derive(Drop)]
pub struct State {
    pub frames: Stack<Frame>,
    pub focus: Focus,
}

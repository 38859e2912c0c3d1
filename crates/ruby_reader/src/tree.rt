//! What a Ruby text of the profile says: classes with their methods, and the statements behind them.

use plain_data::{Boxed, Many, Word};

/// A value that a text writes out.
#[derive(Debug, Drop)]
pub enum Literal {
    Int(i64),
    Str(Word),
    Sym(Word),
    Nil,
}

/// What has a value.
#[cycle(expression)]
#[derive(Debug, Drop)]
pub enum Expression {
    Literal(Literal),
    /// A read of a local or a parameter, by its name.
    Local(Word),
    /// A call of the method with this name. Its token runs from the byte `start` to the byte before `end`.
    Call {
        receiver: Boxed<Expression>,
        name: Word,
        start: u32,
        end: u32,
        arguments: Many<Expression>,
    },
    /// A new object of the class with this name. Its token `new` runs from the byte `start` to the byte before `end`.
    New {
        class: Word,
        start: u32,
        end: u32,
        arguments: Many<Expression>,
    },
}

/// A local's name, and the value that it gets.
#[derive(Debug, Drop)]
pub struct Assignment {
    pub name: Word,
    pub value: Expression,
}

/// An item of a method's body or of the main part.
#[derive(Debug, Drop)]
pub enum Statement {
    Assignment(Assignment),
    Expression(Expression),
}

/// A method: `start` is the first byte of its `def`.
#[derive(Debug, Drop)]
pub struct Definition {
    pub name: Word,
    pub start: u32,
    pub parameters: Many<Word>,
    pub body: Many<Statement>,
}

/// A class that a text opens: `start` is the first byte of its `class`.
#[derive(Debug, Drop)]
pub struct Opening {
    pub name: Word,
    pub start: u32,
    pub definitions: Many<Definition>,
}

/// A whole text: the classes that it opens, and the statements of its main part.
#[derive(Debug, Drop)]
pub struct Program {
    pub openings: Many<Opening>,
    pub statements: Many<Statement>,
}

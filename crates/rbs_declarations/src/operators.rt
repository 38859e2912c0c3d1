//! Operators that may be defined.

ghost use Rattle.std.specs.Prelude.{◌≡◌};
ghost use Rattle.rbs_declarations.specs.Operators as operators;

use rbs_terminals::Mark;

/// An operator, or the first marks of one.
#[derive(Clone, Copy, Debug, PartialEq, Eq, Drop)]
pub enum Operator {
    Plus,
    Minus,
    /// `-@`
    UnaryMinus,
    Times,
    Divide,
    Modulo,
    /// `=`, which is no operator yet
    Assign,
    /// `==`
    Equal,
    Less,
    LessEqual,
    /// `<=>`
    Compare,
    /// `<<`
    Append,
    Greater,
    GreaterEqual,
    /// `[`, which is no operator yet
    Open,
    /// `[]`
    Index,
    /// `[]=`
    IndexAssign,
}

/// The marks of an operator.
pub fn operator_text(operator: Operator) -> &'static str
    ensures { result.now ≡ operators.operator_text operator }
{
    match operator {
        Operator::Plus => "+",
        Operator::Minus => "-",
        Operator::UnaryMinus => "-@",
        Operator::Times => "*",
        Operator::Divide => "/",
        Operator::Modulo => "%",
        Operator::Assign => "=",
        Operator::Equal => "==",
        Operator::Less => "<",
        Operator::LessEqual => "<=",
        Operator::Compare => "<=>",
        Operator::Append => "<<",
        Operator::Greater => ">",
        Operator::GreaterEqual => ">=",
        Operator::Open => "[",
        Operator::Index => "[]",
        Operator::IndexAssign => "[]=",
    }
}

/// It may be defined, and isn't the first marks of one alone.
pub fn is_operator(operator: Operator) -> bool
    ensures { result ≡ operators.is_operator operator }
{
    match operator {
        Operator::Assign | Operator::Open => false,
        _ => true,
    }
}

/// The operator that this mark begins, if it begins one.
pub fn begun_by(mark: Mark) -> Option<Operator>
    ensures { result ≡ operators.begun_by mark }
{
    match mark {
        Mark::Plus => Some(Operator::Plus),
        Mark::Minus => Some(Operator::Minus),
        Mark::Star => Some(Operator::Times),
        Mark::Slash => Some(Operator::Divide),
        Mark::Percent => Some(Operator::Modulo),
        Mark::Equals => Some(Operator::Assign),
        Mark::Less => Some(Operator::Less),
        Mark::Greater => Some(Operator::Greater),
        Mark::OpenSquare => Some(Operator::Open),
        _ => None,
    }
}

/// The operator with one more mark, if it goes on with this one.
pub fn extended(operator: Operator, mark: Mark) -> Option<Operator>
    ensures { result ≡ operators.extended operator mark }
{
    match (operator, mark) {
        (Operator::Minus, Mark::At) => Some(Operator::UnaryMinus),
        (Operator::Assign, Mark::Equals) => Some(Operator::Equal),
        (Operator::Less, Mark::Equals) => Some(Operator::LessEqual),
        (Operator::Less, Mark::Less) => Some(Operator::Append),
        (Operator::LessEqual, Mark::Greater) => Some(Operator::Compare),
        (Operator::Greater, Mark::Equals) => Some(Operator::GreaterEqual),
        (Operator::Open, Mark::CloseSquare) => Some(Operator::Index),
        (Operator::Index, Mark::Equals) => Some(Operator::IndexAssign),
        _ => None,
    }
}

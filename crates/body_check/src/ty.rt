//! The types of the profile.

ghost use Rattle.std.specs.Prelude.{◌≡◌, IfOk};
ghost use Rattle.body_check.specs.Types.{fits, type_text, literal_type};

use plain_data::{NoMemory, Word};
use ruby_reader::Literal;
use std::alloc::Global;

/// What a method is declared to give, or what an expression has.
#[derive(Debug, Drop)]
pub enum ValueType {
    Nil,
    /// The result of a method whose value nobody is to use.
    Void,
    /// The instances of a class.
    Class(Word),
}

impl ValueType {
    /// The same type again.
    pub fn copy(&self) -> Result<ValueType, NoMemory>
        ensures { IfOk result (λ ty. ty ≡ self.now) }
    {
        match self {
            ValueType::Nil => Ok(ValueType::Nil),
            ValueType::Void => Ok(ValueType::Void),
            ValueType::Class(name) => Ok(ValueType::Class(name.clone()?)),
        }
    }
}

/// The type of a literal.
pub fn literal_type(alloc: Global, literal: &Literal) -> Result<ValueType, NoMemory>
    ensures { IfOk result (λ ty. ty ≡ literal_type literal.now) }
{
    match literal {
        Literal::Int(_) => Ok(ValueType::Class(Word::of(alloc, "Integer")?)),
        Literal::Str(_) => Ok(ValueType::Class(Word::of(alloc, "String")?)),
        Literal::Sym(_) => Ok(ValueType::Class(Word::of(alloc, "Symbol")?)),
        Literal::Nil => Ok(ValueType::Nil),
    }
}

/// Whether a value of the one type may stand where the other is wanted.
pub fn fits(given: &ValueType, wanted: &ValueType) -> bool
    ensures { result ≡ fits given.now wanted.now }
{
    match (given, wanted) {
        (_, ValueType::Void) => true,
        (ValueType::Nil, ValueType::Nil) => true,
        (ValueType::Class(a), ValueType::Class(b)) => a == b,
        _ => false,
    }
}

/// The text of a type: a class by its rooted name.
pub fn type_text(alloc: Global, ty: &ValueType) -> Result<Word, NoMemory>
    ensures { IfOk result (λ text. text ≡ type_text ty.now) }
{
    match ty {
        ValueType::Nil => Word::of(alloc, "nil"),
        ValueType::Void => Word::of(alloc, "top"),
        ValueType::Class(name) => {
            let mut text = Word::of(alloc, "::")?;
            text.push_str(name.as_str())?;
            Ok(text)
        }
    }
}

//! Expressions whose heights are known.
#![tactic(auto, using(crate::proofs::Heights::heights))]

ghost use Rattle.std.specs.Prelude.{◌≡◌, ◌+◌, ◌≤◌, ◌↔◌, [], ◌∷◌, ◌++◌, max, IfOk};
ghost use Rattle.ruby_reader.specs.PlainLaws.{plain_expression, plain_expressions};
ghost use Rattle.ruby_reader.specs.Heights.{height, tallest};
ghost use Rattle.ruby_reader.specs.ExpressionMachine.{within};

use crate::tree::{Expression, Literal};
use plain_data::{Boxed, Many, NoMemory, Word};
use std::alloc::Global;
use std::marker::Model;

/// The greatest height of an expression.
pub const LIMIT: u32 = 200;

/// An expression with its height, which is at most the limit. Contracts see it as the expression.
#[derive(Drop)]
pub struct Tall {
    expression: Expression,
    levels: u32,
}

impl Model for Tall {
    ghost use Rattle.std.specs.Prelude.{◌≡◌, ◌≤◌};
    ghost use Rattle.std.specs.Coded.{codes};
    ghost use Rattle.ruby_reader.specs.declared.tree.Expression.{Expression};
    ghost use Rattle.ruby_reader.specs.contracts.tree.Expression as e;

    ghost Value = { Expression };

    ghost coded = { Prim.hlevel (codes, e.the_row.coded) };

    ghost use Rattle.ruby_reader.specs.PlainLaws.{plain_expression};
    ghost use Rattle.ruby_reader.specs.Heights.{height};

    ghost view = { λ t. t.expression };

    ghost invariant = { λ t. (t.levels ≡ height (plain_expression t.expression)) × (t.levels ≤ 200) };
}

/// Expressions with the height of the tallest, which is at most the limit. Contracts see them as the list of the expressions.
#[derive(Drop)]
pub struct Row {
    items: Many<Expression>,
    levels: u32,
}

impl Model for Row {
    ghost use Rattle.std.specs.Prelude.{◌≡◌, ◌≤◌, List};
    ghost use Rattle.std.specs.Coded.{codes};
    ghost use Rattle.ruby_reader.specs.declared.tree.Expression.{Expression};
    ghost use Rattle.ruby_reader.specs.contracts.tree.Expression as e;

    ghost Value = { List Expression };

    ghost coded = { Prim.hlevel (codes, e.the_row.coded) };

    ghost use Rattle.ruby_reader.specs.PlainLaws.{plain_expressions};
    ghost use Rattle.ruby_reader.specs.Heights.{tallest};

    ghost view = { λ r. r.items };

    ghost invariant = { λ r. (r.levels ≡ tallest (plain_expressions r.items)) × (r.levels ≤ 200) };
}

impl Row {
    /// No expression.
    pub fn new(alloc: Global) -> Row
        ensures { result ≡ [] }
    {
        Row {
            items: Many::new(alloc),
            levels: 0,
        }
    }

    /// The expressions, and one more.
    pub fn with(self, more: Tall) -> Result<Row, NoMemory>
        ensures { IfOk result (λ r. r ≡ self ++ more ∷ []) }
    {
        let Row { mut items, levels } = self;
        let Tall {
            expression,
            levels: more,
        } = more;
        items.push(expression)?;
        Ok(Row {
            items,
            levels: levels.max(more),
        })
    }
}

impl Tall {
    /// A literal.
    pub fn literal(literal: Literal) -> Tall
        ensures { result ≡ Expression.Literal literal }
    {
        Tall {
            expression: Expression::Literal(literal),
            levels: 1,
        }
    }

    /// A read of a local.
    pub fn local(name: Word) -> Tall
        ensures { result ≡ Expression.Local name }
    {
        Tall {
            expression: Expression::Local(name),
            levels: 1,
        }
    }

    /// A call, or none where it would be too high.
    pub fn call(
        alloc: Global,
        receiver: Tall,
        name: Word,
        start: u32,
        end: u32,
        arguments: Row,
    ) -> Result<Option<Tall>, NoMemory>
        ensures { IfOk result (λ o. o ≡ within (Expression.Call receiver name start end arguments)) }
    {
        let Tall { expression, levels } = receiver;
        let Row {
            items,
            levels: most,
        } = arguments;
        let levels = levels.max(most) + 1;
        let receiver = Boxed::new(alloc, expression)?;
        let expression = Expression::Call {
            receiver,
            name,
            start,
            end,
            arguments: items,
        };
        Ok(if levels > LIMIT {
            None
        } else {
            Some(Tall { expression, levels })
        })
    }

    /// A new object, or none where it would be too high.
    pub fn new_object(class: Word, start: u32, end: u32, arguments: Row) -> Option<Tall>
        ensures { result ≡ within (Expression.New class start end arguments) }
    {
        let Row { items, levels } = arguments;
        let levels = levels.max(1) + 1;
        let expression = Expression::New {
            class,
            start,
            end,
            arguments: items,
        };
        if levels > LIMIT {
            None
        } else {
            Some(Tall { expression, levels })
        }
    }

    /// The height.
    pub fn height(&self) -> u32
        ensures is { result ≡ height (plain_expression self.now) }
        ensures low { result ≤ 200 }
    {
        self.levels
    }

    /// The expression.
    pub fn into_expression(self) -> Expression
        ensures is { result ≡ self }
        ensures low { height (plain_expression result) ≤ 200 }
    {
        let Tall { expression, .. } = self;
        expression
    }
}

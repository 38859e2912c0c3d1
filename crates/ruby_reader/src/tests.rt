use crate::open::keeps_open;
use crate::{Definition, Expression, Literal, Program, Statement, read};
use ruby_tokens::{Kind, Token};
use std::alloc::Global;
use std::test::Fail;

/// An expression: of a call the receiver or the class, the name, where its token stands, and the arguments.
#[cycle(shown)]
fn shown_expression(alloc: Global, expression: &Expression) -> Result<String, Fail> {
    Ok(match expression {
        Expression::Literal(Literal::Int(value)) => format!(in alloc; "{value}")?,
        Expression::Literal(Literal::Str(value)) => format!(in alloc; "'{}'", value.as_str())?,
        Expression::Literal(Literal::Sym(name)) => format!(in alloc; ":{}", name.as_str())?,
        Expression::Literal(Literal::Nil) => format!(in alloc; "nil")?,
        Expression::Local(name) => format!(in alloc; "{}", name.as_str())?,
        Expression::Call {
            receiver,
            name,
            start,
            end,
            arguments,
        } => {
            let receiver = shown_expression(alloc, receiver.get())?;
            let arguments = shown_arguments(alloc, arguments.as_slice())?;
            format!(in alloc;
                "{}.{}@{start}-{end}({})",
                receiver.as_str(),
                name.as_str(),
                arguments.as_str()
            )?
        }
        Expression::New {
            class,
            start,
            end,
            arguments,
        } => {
            let arguments = shown_arguments(alloc, arguments.as_slice())?;
            format!(in alloc;
                "{}.new@{start}-{end}({})",
                class.as_str(),
                arguments.as_str()
            )?
        }
    })
}

/// Arguments, with commas between them.
#[cycle(shown)]
fn shown_arguments(alloc: Global, arguments: &[Expression]) -> Result<String, Fail> {
    let mut text = String::new(alloc);
    for argument in arguments {
        if !text.is_empty() {
            text.push(',')?;
        }
        text.push_str(shown_expression(alloc, argument)?.as_str())?;
    }
    Ok(text)
}

/// The statements, each behind a blank.
fn shown_statements(alloc: Global, statements: &[Statement]) -> Result<String, Fail> {
    let mut text = String::new(alloc);
    for statement in statements {
        text.push(' ')?;
        let value = match statement {
            Statement::Assignment(assignment) => {
                text.push_str(assignment.name.as_str())?;
                text.push('=')?;
                &assignment.value
            }
            Statement::Expression(expression) => expression,
        };
        text.push_str(shown_expression(alloc, value)?.as_str())?;
    }
    Ok(text)
}

/// A method's name and place, its parameters and its body.
fn shown_definition(alloc: Global, definition: &Definition) -> Result<String, Fail> {
    let name = definition.name.as_str();
    let mut text = format!(in alloc; " {name}@{}", definition.start)?;
    for parameter in definition.parameters.as_slice() {
        text.push(' ')?;
        text.push_str(parameter.as_str())?;
    }
    let body = shown_statements(alloc, definition.body.as_slice())?;
    text.push_str(format!(in alloc; " {{{} }}", body.as_str())?.as_str())?;
    Ok(text)
}

/// A line for each class, and one for the main part.
fn shown(alloc: Global, program: &Program) -> Result<String, Fail> {
    let mut text = String::new(alloc);
    for opening in program.openings.as_slice() {
        let name = opening.name.as_str();
        text.push_str(format!(in alloc; "{name}@{}", opening.start)?.as_str())?;
        for definition in opening.definitions.as_slice() {
            text.push_str(shown_definition(alloc, definition)?.as_str())?;
        }
        text.push('\n')?;
    }
    let main = shown_statements(alloc, program.statements.as_slice())?;
    text.push_str(format!(in alloc; "main{}\n", main.as_str())?.as_str())?;
    Ok(text)
}

const WHOLE: &[u8] =
    b"# Two classes and more.\nclass A end\n\nclass B; # the rest of a line\n  # @type var x: Integer\n  def f() 1 end;;\n  def minus(\n    # nothing is taken\n    # @type var y: Integer\n  )\n    -12\n  end\n  ; def text;'a b';;end\n\n  def sign() ; :ok\n  end\n  def none\n    # nothing is given\n    nil\n  end end\n;;class C\nend\n# And the rest.\nx = 1 # a number\nx";

const SHOWN: &str =
    "A@24\nB@37 f@94 { 1 } minus@112 { -12 } text@195 { 'a b' } sign@218 { :ok } none@243 { nil }\nC@295\nmain x=1 x\n";

#[test]
fn reads_a_whole_text(rt: HostRuntime) -> Result<(), Fail> {
    let program = read(rt.alloc(), WHOLE)?.ok_or("no text")?;
    let text = shown(rt.alloc(), &program)?;
    assert_eq!(rt; text.as_str(), SHOWN);
    Ok(())
}

const READ: [(&str, &str); 19] = [
    ("", "main\n"),
    ("\n# nothing\n;;", "main\n"),
    ("nil", "main nil\n"),
    ("class A\nend\n1\n", "A@0\nmain 1\n"),
    ("class A end;x = :a;x", "A@0\nmain x=:a x\n"),
    (";;1;;\n'a';:b\n;nil; ;", "main 1 'a' :b nil\n"),
    ("x=1\ny=x;y", "main x=1 y=x y\n"),
    ("x =\n\n # no value yet\n 1\nx", "main x=1 x\n"),
    (
        "x = # none\n# @type var y: A\n'b'\ny = x",
        "main x='b' y=x\n",
    ),
    ("class A; def f end; end", "A@0 f@9 { }\nmain\n"),
    ("class A\ndef f() end\nend", "A@0 f@8 { }\nmain\n"),
    ("class A\ndef f(\n)\n:a\nend\nend", "A@0 f@8 { :a }\nmain\n"),
    (
        "class A\ndef f(a,b) b\nend end",
        "A@0 f@8 a b { b }\nmain\n",
    ),
    (
        "class A\ndef f(\n a,\n\n b\n)\nend\nend",
        "A@0 f@8 a b { }\nmain\n",
    ),
    (
        "class A\ndef f( # all\n a, # one\n # @type var b: X\n b\n # @type var c: X\n)b end end",
        "A@0 f@8 a b { b }\nmain\n",
    ),
    (
        "class A\ndef f(a) x = a; y = x\n y;; end end",
        "A@0 f@8 a { x=a y=x y }\nmain\n",
    ),
    ("class A\ndef f() 1; 2 end\nend", "A@0 f@8 { 1 2 }\nmain\n"),
    (
        "class A\ndef f(f) f end\ndef g(f) f end\nend",
        "A@0 f@8 f { f } g@23 f { f }\nmain\n",
    ),
    (
        "class A\ndef f\nx = 1\nend\nend\nx = 2",
        "A@0 f@8 { x=1 }\nmain x=2\n",
    ),
];

#[test]
fn reads_small_texts(rt: HostRuntime) -> Result<(), Fail> {
    for (text, expected) in READ {
        assert!(rt; text.len() < 100);
        let program = read(rt.alloc(), text.as_bytes())?.ok_or("no text")?;
        assert_eq!(rt; shown(rt.alloc(), &program)?.as_str(), expected);
    }
    Ok(())
}

const REFUSED: [(&str, &str); 66] = [
    ("a missing end of a class", "class A\ndef f() 1 end\n"),
    ("a missing end of a method", "class A\ndef f() 1\nend\n"),
    ("an end too many", "class A\nend\nend\n"),
    ("two classes on a line", "class A end class B end"),
    ("a class named by a name", "class a\nend"),
    ("a class in a class", "class A\nclass B\nend\nend"),
    ("a method outside of a class", "def f() 1 end"),
    ("a method named by a class", "class A\ndef F() 1 end\nend"),
    (
        "a method on the line of its class",
        "class A def f() 1 end end",
    ),
    (
        "two methods on a line",
        "class A; def f() 1 end def g() 2 end end",
    ),
    ("a statement in a class", "class A\n1\nend"),
    ("a note at the top", "# @type var x: Integer\nclass A\nend"),
    (
        "parentheses on a line of their own",
        "class A\ndef f\n()\n1\nend\nend",
    ),
    ("a `;` in the parentheses", "class A\ndef f(;) 1 end\nend"),
    ("a `;` behind a comma", "class A\ndef f(a,;b) 1 end\nend"),
    ("a comma and no parameter", "class A\ndef f(,) 1 end\nend"),
    (
        "a comma before the parameters",
        "class A\ndef f(, a) 1 end\nend",
    ),
    (
        "a comma behind the parameters",
        "class A\ndef f(a,) 1 end\nend",
    ),
    ("two commas", "class A\ndef f(a,, b) 1 end\nend"),
    ("no comma", "class A\ndef f(a b) 1 end\nend"),
    ("a newline for a comma", "class A\ndef f(a\nb) 1 end\nend"),
    (
        "a newline before a comma",
        "class A\ndef f(a\n, b) 1 end\nend",
    ),
    ("a literal as a parameter", "class A\ndef f(1) 1 end\nend"),
    ("a class as a parameter", "class A\ndef f(B) 1 end\nend"),
    ("a keyword as a parameter", "class A\ndef f(if) 1 end\nend"),
    (
        "a value for a parameter",
        "class A\ndef f(a = 1) 1 end\nend",
    ),
    (
        "a parameter in two parentheses",
        "class A\ndef f((a)) 1 end\nend",
    ),
    (
        "a parameter without parentheses",
        "class A\ndef f a\n1 end\nend",
    ),
    (
        "parentheses that are not closed",
        "class A\ndef f(a\n1 end\nend",
    ),
    (
        "a body on the line of a bare head",
        "class A\ndef f 1 end\nend",
    ),
    (
        "two literals, nothing between",
        "class A\ndef f() 1 2 end\nend",
    ),
    (
        "a note in a body",
        "class A\ndef f\n# @type var x: Integer\n1\nend\nend",
    ),
    (
        "a note behind a literal",
        "class A\ndef f\n1\n# @type var x: Integer\nend\nend",
    ),
    ("a keyword in a body", "class A\ndef f() self end\nend"),
    ("a class as a value", "class A\ndef f() A end\nend"),
    ("an `=` and no value", "class A\ndef f() x = end\nend"),
    ("a statement before the classes", "nil\nclass A\nend\n"),
    ("a class behind a `;`", "1; class A end"),
    ("a statement on the line of a class", "class A end 1"),
    ("a method in the main part", "1\ndef f() 1 end"),
    ("an end in the main part", "1\nend"),
    ("an end behind a name", "x = 1\nx end"),
    ("a note in the main part", "x = 1\n# @type var y: A\nx"),
    ("two statements on a line", "x = 1 x"),
    ("two names on a line", "x = 1\nx x"),
    ("a chain of assignments", "x = y = 1"),
    ("a chain with a name that is known", "y = 1; x = y = 2"),
    ("an `=` at the end", "x =\n"),
    ("a `;` for a value", "x = ;1"),
    ("an `=` on the next line", "x = 1\nx\n= 2"),
    ("an `=` and no name", "= 1"),
    ("two `=`", "x == 1"),
    ("an assignment to a literal", "1 = 2"),
    ("an assignment to a class", "A = 1"),
    ("an assignment to a keyword", "self = 1"),
    ("a keyword as a value", "x = true"),
    ("an operand in parentheses", "(1)"),
    ("a comma between statements", "1, 2"),
    ("a local that nothing names", "x"),
    ("a local read before its name", "x\nx = 1"),
    ("a local as its own value", "x = x"),
    ("a local named twice", "x = 1\nx = 2"),
    ("a parameter named twice", "class A\ndef f(a, a) 1 end\nend"),
    (
        "a parameter assigned to",
        "class A\ndef f(a) a = 1 end\nend",
    ),
    (
        "a local of another method",
        "class A\ndef f(a) 1 end\ndef g() a end\nend",
    ),
    ("a local of a method", "class A\ndef f() x = 1 end\nend\nx"),
];

#[test]
fn refuses_other_texts(rt: HostRuntime) -> Result<(), Fail> {
    for (what, text) in REFUSED {
        assert!(rt; text.len() < 100);
        assert!(rt; read(rt.alloc(), text.as_bytes())?.is_none(), "{what}");
    }
    Ok(())
}

const READ_CALLS: [(&str, &str); 18] = [
    ("1.a", "main 1.a@2-3()\n"),
    ("1.a()", "main 1.a@2-3()\n"),
    ("1.a.b", "main 1.a@2-3().b@4-5()\n"),
    ("1.new", "main 1.new@2-5()\n"),
    ("1.a(2, 'b').c(:d)", "main 1.a@2-3(2,'b').c@12-13(:d)\n"),
    ("1.a(2.b(3), 4)", "main 1.a@2-3(2.b@6-7(3),4)\n"),
    ("x = 1; x.a(x)", "main x=1 x.a@9-10(x)\n"),
    ("x = nil.a; x", "main x=nil.a@8-9() x\n"),
    ("class A end\nA.new", "A@0\nmain A.new@14-17()\n"),
    (
        "class A end\nx = A.new(1).f",
        "A@0\nmain x=A.new@18-21(1).f@25-26()\n",
    ),
    (
        "class A\ndef f(a) a.g(A.new) end\nend",
        "A@0 f@8 a { a.g@19-20(A.new@23-26()) }\nmain\n",
    ),
    ("1\n.a\n  # why\n  .b\n2", "main 1.a@3-4().b@16-17() 2\n"),
    ("1\n# @type var x: A\n.a", "main 1.a@20-21()\n"),
    ("1.a(\n 2, # two\n 3\n)", "main 1.a@2-3(2,3)\n"),
    ("1.a(2\n.b)", "main 1.a@2-3(2.b@7-8())\n"),
    ("1.a(\n\n)\n2", "main 1.a@2-3() 2\n"),
    ("1.\n\n a", "main 1.a@5-6()\n"),
    ("class A end; A\n.\nnew", "A@0\nmain A.new@17-20()\n"),
];

#[test]
fn reads_calls(rt: HostRuntime) -> Result<(), Fail> {
    for (text, expected) in READ_CALLS {
        assert!(rt; text.len() < 100);
        let program = read(rt.alloc(), text.as_bytes())?.ok_or("no text")?;
        assert_eq!(rt; shown(rt.alloc(), &program)?.as_str(), expected);
    }
    Ok(())
}

const REFUSED_CALLS: [(&str, &str); 36] = [
    ("a dot and no receiver", ".a"),
    ("a dot and no name", "1."),
    ("two dots", "1..a"),
    ("a blank before the parentheses", "1.a (2)"),
    ("a newline before the parentheses", "1.a\n(2)"),
    (
        "a blank before those of an object",
        "class A end\nA.new (1)",
    ),
    ("an empty line before a dot", "1\n\n.a"),
    ("an empty line before a dot in parentheses", "1.a(2\n\n.b)"),
    ("a dot behind a `;`", "1;\n.a"),
    ("a class as a receiver", "class A end\nA.f"),
    ("a class as an argument", "class A end\n1.f(A)"),
    ("a name of a class as a call", "class A end\n1.A"),
    ("a comma at the end of arguments", "1.a(2,)"),
    ("a comma before the arguments", "1.a(,2)"),
    ("two commas between arguments", "1.a(2,,3)"),
    ("no comma between arguments", "1.a(2 3)"),
    ("a newline before the comma of arguments", "1.a(2\n,3)"),
    ("a `;` in arguments", "1.a(2;)"),
    ("an assignment as an argument", "1.a(x = 2)"),
    ("arguments that are not closed", "1.a(2"),
    ("a parenthesis too many", "1.a(2))"),
    ("parentheses behind parentheses", "1.a()()"),
    ("a statement behind a call", "1.a 2"),
    ("a note behind a call", "1.a\n# @type var x: A\n2"),
    ("an assignment to a call", "1.a = 2"),
    ("a name with arguments", "x = 1\nx(2)"),
    ("a receiver in parentheses", "(1).a"),
    ("a call of a name of the core", "1.to_s"),
    ("a call of a name that is kept", "1.send"),
    ("a call of initialize", "1.initialize"),
    ("a call of a keyword", "1.class"),
    ("an object of a class that is not opened", "A.new"),
    ("such an object as an argument", "1.a(A.new)"),
    ("an unknown receiver", "x.a"),
    ("an unknown argument", "1.a(x)"),
    ("a local that its own value reads", "x = 1.a(x)"),
];

#[test]
fn refuses_other_calls(rt: HostRuntime) -> Result<(), Fail> {
    for (what, text) in REFUSED_CALLS {
        assert!(rt; text.len() < 100);
        assert!(rt; read(rt.alloc(), text.as_bytes())?.is_none(), "{what}");
    }
    Ok(())
}

/// An expression and calls on it, one behind the other.
fn chain(alloc: Global, first: &str, calls: usize) -> Result<String, Fail> {
    let mut text = String::new(alloc);
    text.push_str(first)?;
    for _ in 0..calls {
        text.push_str(".a")?;
    }
    Ok(text)
}

/// Calls whose arguments are calls.
fn nest(alloc: Global, calls: usize) -> Result<String, Fail> {
    let mut text = String::new(alloc);
    for _ in 0..calls {
        text.push_str("1.a(")?;
    }
    text.push('1')?;
    for _ in 0..calls {
        text.push(')')?;
    }
    Ok(text)
}

/// Whether a text of less than 2,000 bytes is read.
fn is_read(alloc: Global, text: &str) -> Result<bool, Fail> {
    if text.len() >= 2000 {
        return Ok(false);
    }
    Ok(read(alloc, text.as_bytes())?.is_some())
}

#[test]
fn reads_statements_of_at_most_200_levels(rt: HostRuntime) -> Result<(), Fail> {
    let alloc = rt.alloc();
    assert!(rt; is_read(alloc, chain(alloc, "nil", 199)?.as_str())?);
    assert!(rt; !is_read(alloc, chain(alloc, "nil", 200)?.as_str())?);
    assert!(rt; is_read(alloc, chain(alloc, "x = nil", 198)?.as_str())?);
    assert!(rt; !is_read(alloc, chain(alloc, "x = nil", 199)?.as_str())?);
    assert!(rt; is_read(alloc, nest(alloc, 199)?.as_str())?);
    assert!(rt; !is_read(alloc, nest(alloc, 200)?.as_str())?);
    Ok(())
}

/// So many parentheses that open, one behind the other.
fn opened(alloc: Global, count: u32) -> Result<Vec<Token>, Fail> {
    let mut tokens = Vec::new(alloc);
    for start in 0..count {
        tokens.push(Token {
            kind: Kind::Open,
            start,
            end: start + 1,
        })?;
    }
    Ok(tokens)
}

#[test]
fn at_most_400_are_open(rt: HostRuntime) -> Result<(), Fail> {
    let alloc = rt.alloc();
    assert!(rt; keeps_open(&opened(alloc, 400)?));
    assert!(rt; !keeps_open(&opened(alloc, 401)?));
    Ok(())
}

use crate::read_classes;
use plain_data::NoMemory;
use sig_model::decl::{Decl, DeclBody, Member, Part};
use sig_model::ty::{Arg, BaseTy, Ty};
use std::alloc::Global;
use std::test::Fail;

const MAX_TEXT: usize = 1000;

/// How many classes a text declares, if it is a signature file.
fn count(alloc: Global, bytes: &[u8]) -> Result<Option<usize>, NoMemory> {
    if bytes.len() > MAX_TEXT {
        return Err(NoMemory);
    }
    Ok(read_classes(alloc, 3, bytes)?.map(|decls| decls.len()))
}

/// Adds the places of a class and of its methods, in order.
fn add_places(decl: &Decl, places: &mut Vec<(u32, u32)>) -> Result<(), NoMemory> {
    places.push((decl.place.start, decl.place.end))?;
    if let DeclBody::Class { parts, .. } = &decl.body {
        for part in parts.as_slice() {
            if let Part::Member { place, .. } = part {
                places.push((place.start, place.end))?;
            }
        }
    }
    Ok(())
}

fn places_of(alloc: Global, text: &str) -> Result<Vec<(u32, u32)>, NoMemory> {
    let mut places = Vec::new(alloc);
    if text.len() <= MAX_TEXT
        && let Some(decls) = read_classes(alloc, 0, text.as_bytes())?
    {
        for decl in decls.as_slice() {
            add_places(decl, &mut places)?;
        }
    }
    Ok(places)
}

/// Adds the types of parameters, each with a space behind it.
fn add_types(required: &[Arg], shown: &mut String) -> Result<(), NoMemory> {
    for arg in required {
        match &arg.ty {
            Ty::Name { name, .. } => {
                if let [word] = name.path.as_slice() {
                    shown.push_str(word.as_str())?;
                }
            }
            Ty::Base(BaseTy::Nil) => shown.push_str("nil")?,
            _ => {}
        }
        shown.push(' ')?;
    }
    Ok(())
}

/// Adds the parameters of a class's methods, each method's with a bar behind them.
fn add_parameters(decl: &Decl, shown: &mut String) -> Result<(), NoMemory> {
    if let DeclBody::Class { parts, .. } = &decl.body {
        for part in parts.as_slice() {
            if let Part::Member {
                member: Member::Method { overloads, .. },
                ..
            } = part
                && let [overload] = overloads.as_slice()
            {
                add_types(overload.fun.required.as_slice(), shown)?;
                shown.push('|')?;
            }
        }
    }
    Ok(())
}

fn parameters_of(alloc: Global, text: &str) -> Result<String, NoMemory> {
    let mut shown = String::new(alloc);
    if text.len() <= MAX_TEXT
        && let Some(decls) = read_classes(alloc, 0, text.as_bytes())?
    {
        for decl in decls.as_slice() {
            add_parameters(decl, &mut shown)?;
        }
    }
    Ok(shown)
}

#[test]
fn places_are_in_bytes(rt: HostRuntime) -> Result<(), Fail> {
    let text =
        "# é\nclass Aé\t# of two\r\n  def one: () -> String\n\tdef _two2: ()->Aé end\nclass B\nend # B";
    let places = places_of(rt.alloc(), text)?;
    assert_eq!(rt;
        places.as_slice(),
        [(5, 72), (27, 48), (50, 68), (73, 84)].as_slice()
    );
    Ok(())
}

#[test]
fn reads_good_texts(rt: HostRuntime) -> Result<(), Fail> {
    let good: [(&str, usize); 9] = [
        ("", 0),
        ("# only a comment", 0),
        ("\r\n\t # class A\n", 0),
        ("class A end", 1),
        ("class A end class B end # end", 2),
        ("class A def initialize: () -> void end", 1),
        (
            "class A def a: () -> B def b: () -> Symbol end class B def a: () -> A end",
            2,
        ),
        (
            "class A def _foo: () -> nil def classes: () -> void def ende: () -> nil end",
            1,
        ),
        ("class Nil def new_é: () -> Integer end", 1),
    ];
    for (text, classes) in good {
        assert_eq!(rt;
            count(rt.alloc(), text.as_bytes()),
            Ok(Some(classes)),
            "{text}"
        );
    }
    Ok(())
}

#[test]
fn refuses_other_texts(rt: HostRuntime) -> Result<(), Fail> {
    let bad: [&str; 28] = [
        "class A",
        "class A def a: () -> nil",
        "class A end end",
        "class A # end",
        "class a end",
        "class A::B end",
        "class",
        "end",
        "-",
        "class A - end",
        "class A def a: () - > nil end",
        "class A def a: () -> ::Integer end",
        "class A def a: () -> (Integer) end",
        "class A def a: () -> bool end",
        "class A def a?: () -> nil end",
        "class A def a: -> Integer end",
        "class A end class A end",
        "class A def a: () -> nil def a: () -> nil end",
        "class A def a: () -> Missing end",
        "class String end",
        "class A def to_s: () -> String end",
        "class A def send: () -> nil end",
        "class A def __a: () -> nil end",
        "class A def unless: () -> nil end",
        "class A def initialize: () -> Integer end",
        "class A def _Foo: () -> nil end",
        "class A def Foo: () -> nil end",
        "class \u{e9} end",
    ];
    for text in bad {
        assert_eq!(rt; count(rt.alloc(), text.as_bytes()), Ok(None), "{text}");
    }
    Ok(())
}

#[test]
fn refuses_what_is_no_text(rt: HostRuntime) -> Result<(), Fail> {
    assert_eq!(rt; count(rt.alloc(), b"\xff"), Ok(None));
    assert_eq!(rt; count(rt.alloc(), b"# \xff\n"), Ok(None));
    Ok(())
}

#[test]
fn reads_parameters_in_order(rt: HostRuntime) -> Result<(), Fail> {
    let good: [(&str, &str); 7] = [
        ("class A def a: () -> nil end", "|"),
        ("class A def a: (Integer) -> void end", "Integer |"),
        ("class A def initialize: (nil) -> void end", "nil |"),
        (
            "class A def a: (Integer, String , Symbol,nil,A,Integer) -> A end",
            "Integer String Symbol nil A Integer |",
        ),
        (
            "class A def a: (B) -> nil def b: () -> nil def c: (B, A) -> B end class B def a: (A, B) -> A end",
            "B ||B A |A B |",
        ),
        (
            "class A def # )\n a # (\n : # (\n ( # nil\n Integer # String,\n\r\n,\tnil\n\n) # ,\n -> nil end",
            "Integer nil |",
        ),
        ("class A\ndef a\n:(Integer\n,\nA)->nil\nend", "Integer A |"),
    ];
    for (text, shown) in good {
        let parameters = parameters_of(rt.alloc(), text)?;
        assert_eq!(rt; parameters.as_str(), shown, "{text}");
    }
    Ok(())
}

#[test]
fn refuses_other_parameters(rt: HostRuntime) -> Result<(), Fail> {
    let bad: [&str; 22] = [
        "class A def a: (,) -> nil end",
        "class A def a: (Integer,) -> nil end",
        "class A def a: (,Integer) -> nil end",
        "class A def a: (Integer,,String) -> nil end",
        "class A def a: (Integer String) -> nil end",
        "class A def a: (Integer, # String) -> nil\n end",
        "class A def a: (void) -> nil end",
        "class A def a: (Integer, void) -> void end",
        "class A def a: (Missing) -> nil end",
        "class A def a: (Integer, Missing, A) -> nil end",
        "class A def a: (Object) -> nil end",
        "class A def a: (bool) -> nil end",
        "class A def a: (integer) -> nil end",
        "class A def a: (::Integer) -> nil end",
        "class A def a: ((Integer)) -> nil end",
        "class A def a: (Integer one) -> nil end",
        "class A def a: (Integer -> nil end",
        "class A def a: Integer -> nil end",
        "class A def a: Integer) -> nil end",
        "class A def a: (Integer) (String) -> nil end",
        "class A def initialize: (Integer) -> nil end",
        "class A def a: (Integer) -> nil def a: (String) -> nil end",
    ];
    for text in bad {
        assert_eq!(rt; count(rt.alloc(), text.as_bytes()), Ok(None), "{text}");
    }
    Ok(())
}

#[test]
fn refuses_the_rest_of_the_language(rt: HostRuntime) -> Result<(), Fail> {
    let bad: [&str; 38] = [
        "module A end",
        "interface _A end",
        "type a = nil",
        "A: nil",
        "class A class B end end",
        "class A[T] end",
        "class A < B end class B end",
        "class ::A end",
        "%a{pure} class A end",
        "class A %a{pure} def a: () -> nil end",
        "class A private def a: () -> nil end",
        "class A private\ndef a: () -> nil end",
        "class A public def a: () -> nil end",
        "class A def self.a: () -> nil end",
        "class A attr_reader a: nil end",
        "class A include B end",
        "class A alias a b end",
        "class A @a: nil end",
        "class A def a: () -> nil | () -> nil end",
        "class A def a: [T] () -> nil end",
        "class A def a: (?Integer) -> nil end",
        "class A def a: (*Integer) -> nil end",
        "class A def a: (?Integer, Integer) -> nil end",
        "class A def a: (b: Integer) -> nil end",
        "class A def a: (?b: Integer) -> nil end",
        "class A def a: (**Integer) -> nil end",
        "class A def a: () { () -> nil } -> nil end",
        "class A def a: () ?{ -> nil } -> nil end",
        "class A def a: { () -> nil } -> nil end",
        "class A def a: () -> Integer? end",
        "class A def a: () -> A[Integer] end",
        "class A def a: () -> [] end",
        "class A def a!: () -> nil end",
        "class A def a=: (Integer) -> nil end",
        "class A def +: (Integer) -> nil end",
        "class A def []: (Integer) -> nil end",
        "class A def type: () -> nil end",
        "class A def if: () -> nil end",
    ];
    for text in bad {
        assert_eq!(rt; count(rt.alloc(), text.as_bytes()), Ok(None), "{text}");
    }
    Ok(())
}

//! The words that signatures, or every class, are kept from, and the classes whose values are read.

ghost use Rattle.std.specs.Prelude.{◌≡◌};
ghost use Rattle.std.specs.List.{list_any};
ghost use Rattle.names.specs.Places.{same_name, is_among};
ghost use Rattle.profile_words.specs.Words.{begins_upper, core_classes, core_names, is_callable, is_interface_name, is_reserved, keywords, value_classes};

use plain_data::Word;

/// The words that are never a name of a signature: those of the signature language, and those of Ruby.
const KEYWORDS: [&str; 54] = [
    "class",
    "module",
    "interface",
    "def",
    "end",
    "include",
    "extend",
    "prepend",
    "attr_reader",
    "attr_writer",
    "attr_accessor",
    "alias",
    "type",
    "private",
    "public",
    "unchecked",
    "out",
    "in",
    "singleton",
    "true",
    "false",
    "nil",
    "bool",
    "void",
    "top",
    "bot",
    "self",
    "instance",
    "untyped",
    "if",
    "unless",
    "elsif",
    "else",
    "then",
    "while",
    "do",
    "return",
    "break",
    "next",
    "yield",
    "super",
    "case",
    "for",
    "until",
    "begin",
    "rescue",
    "ensure",
    "retry",
    "redo",
    "undef",
    "and",
    "or",
    "not",
    "__method__",
];

/// The classes and modules of the core signature.
const CORE_CLASSES: [&str; 25] = [
    "BasicObject",
    "Kernel",
    "Object",
    "Module",
    "Class",
    "NilClass",
    "TrueClass",
    "FalseClass",
    "Proc",
    "Symbol",
    "Integer",
    "String",
    "Array",
    "Hash",
    "Exception",
    "StandardError",
    "TestError",
    "ArgumentError",
    "NameError",
    "IndexError",
    "RangeError",
    "ZeroDivisionError",
    "LocalJumpError",
    "NoMethodError",
    "KeyError",
];

/// The names that the core signature declares, as far as a method of a signature could have them.
const CORE_NAMES: [&str; 21] = [
    "boolish", "to_s", "itself", "puts", "length", "times", "upto", "to_sym", "fetch", "push",
    "pop", "shift", "each", "map", "select", "find", "inject", "delete", "keys", "values",
    "message",
];

/// The names that are kept from every class, beside those that begin with two underscores.
const RESERVED_NAMES: [&str; 13] = [
    "hash",
    "to_ary",
    "to_proc",
    "method_missing",
    "send",
    "eval",
    "instance_eval",
    "define_method",
    "inherited",
    "included",
    "extended",
    "prepended",
    "method_added",
];

/// The classes of the core signature whose values a parameter or a result may be.
const VALUE_CLASSES: [&str; 3] = ["Integer", "String", "Symbol"];

/// Whether a text is one of these.
fn is_one_of(text: &str, words: &[&str]) -> bool
    ensures { result ≡ list_any (λ word. same_name text.now word.now) words.now }
{
    words.iter().any(|word| text == *word)
}

/// Whether a word is a keyword of signatures or of Ruby.
pub fn is_keyword(text: &str) -> bool
    ensures { result ≡ is_among text.now keywords }
{
    is_one_of(text, &KEYWORDS)
}

/// Whether a class of the core signature has this name.
pub fn is_core_class(text: &str) -> bool
    ensures { result ≡ is_among text.now core_classes }
{
    is_one_of(text, &CORE_CLASSES)
}

/// Whether the core signature declares this name.
pub fn is_core_name(text: &str) -> bool
    ensures { result ≡ is_among text.now core_names }
{
    is_one_of(text, &CORE_NAMES)
}

/// Whether this name is kept from every class.
pub fn is_reserved(text: &str) -> bool
    ensures { result ≡ is_reserved text.now }
{
    is_one_of(text, &RESERVED_NAMES) || text.as_bytes().starts_with(b"__")
}

/// Whether a parameter or a result may be of the class of the core signature with this name.
pub fn is_value_class(text: &str) -> bool
    ensures { result ≡ is_among text.now value_classes }
{
    is_one_of(text, &VALUE_CLASSES)
}

/// Whether a text begins with an ASCII capital.
pub fn begins_upper(text: &[u8]) -> bool
    ensures { result ≡ begins_upper text.now }
{
    match text {
        [] => false,
        [first, ..] => first.is_ascii_uppercase(),
    }
}

/// Whether a word is the name of an interface: an underscore, and then a capital.
pub fn is_interface_name(text: &[u8]) -> bool
    ensures { result ≡ is_interface_name text.now }
{
    match text {
        [] => false,
        [first, rest @ ..] => *first == b'_' && begins_upper(rest),
    }
}

/// Whether a class may declare a method with this name, other than `initialize`; the name is a word.
pub fn is_callable(word: &Word) -> bool
    ensures { result ≡ is_callable word.now }
{
    let text = word.as_str();
    let name = text.as_bytes();
    !(begins_upper(name)
        || is_interface_name(name)
        || is_keyword(text)
        || is_core_name(text)
        || is_reserved(text)
        || text == "initialize")
}

use crate::{
    begins_upper, is_callable, is_core_class, is_core_name, is_interface_name, is_keyword,
    is_reserved, is_value_class,
};
use plain_data::Word;
use std::test::Fail;

#[test]
fn callable(rt: HostRuntime) -> Result<(), Fail> {
    let alloc = rt.alloc();
    let words: [(&str, bool); 14] = [
        ("fly", true),
        ("_fly", true),
        ("initialized", true),
        ("hashes", true),
        ("initialize", false),
        ("type", false),
        ("void", false),
        ("to_s", false),
        ("length", false),
        ("hash", false),
        ("__fly", false),
        ("_Fly", false),
        ("Fly", false),
        ("String", false),
    ];
    for (text, expected) in words {
        let callable = is_callable(&Word::of(alloc, text)?);
        assert_eq!(rt; callable, expected, "{text}");
    }
    Ok(())
}

#[test]
fn each_list(rt: HostRuntime) -> Result<(), Fail> {
    assert!(rt; is_keyword("class") && is_keyword("__method__") && !is_keyword("initialize"));
    assert!(rt;
        is_core_class("BasicObject") && is_core_class("KeyError") && !is_core_class("Float")
    );
    assert!(rt; is_core_name("boolish") && is_core_name("message") && !is_core_name("hash"));
    assert!(rt; is_reserved("hash") && is_reserved("method_added") && is_reserved("__"));
    assert!(rt; !is_reserved("_hash"));
    assert!(rt; is_value_class("Integer") && is_value_class("Symbol") && !is_value_class("Proc"));
    assert!(rt; begins_upper(b"Cat") && !begins_upper(b"_Cat") && !begins_upper(b""));
    assert!(rt;
        is_interface_name(b"_Cat") && !is_interface_name(b"_cat") && !is_interface_name(b"_")
    );
    Ok(())
}

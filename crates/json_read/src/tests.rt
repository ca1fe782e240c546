use crate::reader::read;
use json_value::{Json, JsonFault};
use std::alloc::Global;

fn fault_of(alloc: Global, text: &[u8]) -> Option<JsonFault> {
    match read(alloc, text) {
        Ok(_) => None,
        Err(fault) => Some(fault),
    }
}

fn spells(alloc: Global, text: &[u8], spelled: &[u8]) -> bool {
    match read(alloc, text) {
        Ok(Json::Str(read)) => read.as_str().as_bytes() == spelled,
        Ok(Json::Number(read)) => read.as_str().as_bytes() == spelled,
        _ => false,
    }
}

/// Lists and objects (RFC 8259, sections 4 and 5), words and numbers (3 and 6), and this project's rules.
#[test]
fn first_faults_of_texts(rt: HostRuntime) {
    let deep = "[[[[[[[[[[[[[[[[[[[[[[[[[[[[[[[[[[[[[[[[[[[[[[[[[[[[[[[[[[[[[[[[";
    let closed =
        "[[[[[[[[[[[[[[[[[[[[[[[[[[[[[[[[[[[[[[[[[[[[[[[[[[[[[[[[[[[[[[[[]]]]]]]]]]]]]]]]]]]]]]]]]]]]]]]]]]]]]]]]]]]]]]]]]]]]]]]]]]]]]]]]";
    let deeper = "[[[[[[[[[[[[[[[[[[[[[[[[[[[[[[[[[[[[[[[[[[[[[[[[[[[[[[[[[[[[[[[[[";
    let cases = [
        (deep, Some(JsonFault::Ended)),
        (closed, None),
        (deeper, Some(JsonFault::Deep(64))),
        ("{\"a\":1,\"a\":2}", Some(JsonFault::Twice(7))),
        ("{\"a\":1,\"\\u0061\":2}", Some(JsonFault::Twice(7))),
        ("{\"a\\\"\":1,\"a\\\"\":2}", Some(JsonFault::Twice(9))),
        ("[1,", Some(JsonFault::Ended)),
        ("[1 2]", Some(JsonFault::Syntax(3))),
        ("{\"a\":1}x", Some(JsonFault::Syntax(7))),
        ("", Some(JsonFault::Ended)),
        (" \t\n\r1 ", None),
        ("[,1]", Some(JsonFault::Syntax(1))),
        ("[1,]", Some(JsonFault::Syntax(3))),
        ("{\"a\":1,}", Some(JsonFault::Syntax(7))),
        ("{a:1}", Some(JsonFault::Syntax(1))),
        ("nul", Some(JsonFault::Ended)),
        ("nulx", Some(JsonFault::Syntax(3))),
        ("0", None),
        ("-0.0e-10", None),
        ("1E+5", None),
        ("01", Some(JsonFault::Syntax(1))),
        ("-", Some(JsonFault::Ended)),
        ("+1", Some(JsonFault::Syntax(0))),
        ("1.", Some(JsonFault::Ended)),
        ("1.e", Some(JsonFault::Syntax(2))),
        (".5", Some(JsonFault::Syntax(0))),
        ("1e+", Some(JsonFault::Ended)),
        ("1e5.", Some(JsonFault::Syntax(3))),
        ("\"\\ud800\"", Some(JsonFault::Surrogate(1))),
        ("\"\\ud800\\u0041\"", Some(JsonFault::Surrogate(1))),
        ("\"\\ud800\\udc0", Some(JsonFault::Ended)),
        ("\"\\udc00\"", Some(JsonFault::Surrogate(1))),
        ("\"\\udc0", Some(JsonFault::Ended)),
        ("\"\\udc0g\"", Some(JsonFault::Syntax(6))),
        ("\"\\x\"", Some(JsonFault::Syntax(2))),
        ("\"\\u12g4\"", Some(JsonFault::Syntax(5))),
        ("\"a\nb\"", Some(JsonFault::Syntax(2))),
        ("\u{feff}1", Some(JsonFault::Syntax(0))),
    ];
    for (text, fault) in cases {
        assert!(rt; fault_of(rt.alloc(), text.as_bytes()) == fault, "at {text}");
    }
}

/// Each length of a sequence of UTF-8, its first and its last, and their neighbours (RFC 3629, section 4).
#[test]
fn first_faults_of_bytes(rt: HostRuntime) {
    let cases: [(&[u8], Option<JsonFault>); 20] = [
        (b"\"\x7f\"", None),
        (b"\"\xc2\x80\"", None),
        (b"\"\xdf\xbf\"", None),
        (b"\"\xe0\xa0\x80\"", None),
        (b"\"\xed\x9f\xbf\"", None),
        (b"\"\xee\x80\x80\"", None),
        (b"\"\xef\xbf\xbf\"", None),
        (b"\"\xf0\x90\x80\x80\"", None),
        (b"\"\xf4\x8f\xbf\xbf\"", None),
        (b"\"\x80\"", Some(JsonFault::Syntax(1))),
        (b"\"\xc1\xbf\"", Some(JsonFault::Syntax(1))),
        (b"\"\xc2\x7f\"", Some(JsonFault::Syntax(1))),
        (b"\"\xc2\xc0\"", Some(JsonFault::Syntax(1))),
        (b"\"\xe0\x9f\xbf\"", Some(JsonFault::Syntax(1))),
        (b"\"\xed\xa0\x80\"", Some(JsonFault::Syntax(1))),
        (b"\"\xf0\x8f\xbf\xbf\"", Some(JsonFault::Syntax(1))),
        (b"\"\xf4\x90\x80\x80\"", Some(JsonFault::Syntax(1))),
        (b"\"\xf5\x80\x80\x80\"", Some(JsonFault::Syntax(1))),
        (b"\"ab\xe2\x82\"", Some(JsonFault::Syntax(3))),
        (b"\"ab\xe2\x82", Some(JsonFault::Ended)),
    ];
    for (text, fault) in cases {
        assert!(rt; fault_of(rt.alloc(), text) == fault);
    }
}

/// Each escape (RFC 8259, section 7), and a number's own text.
#[test]
fn texts_that_are_spelled(rt: HostRuntime) {
    let cases = [
        ("\"a\"", "a"),
        ("\"\\\"\\\\\\/\"", "\"\\/"),
        ("\"\\b\\f\\n\\r\\t\"", "\u{8}\u{c}\n\r\t"),
        ("\"\\u0041\\u00e9\\u20AC\"", "A\u{e9}\u{20ac}"),
        ("\"\\ud83d\\ude00\"", "\u{1f600}"),
        ("-19.90e+1", "-19.90e+1"),
    ];
    for (text, spelled) in cases {
        assert!(rt;
            spells(rt.alloc(), text.as_bytes(), spelled.as_bytes()),
            "at {text}"
        );
    }
}

/// The fault of an object that begins with twenty names.
fn fault_after(alloc: Global, rest: &str) -> Option<JsonFault> {
    let front =
        "{\"a\":1,\"b\":1,\"c\":1,\"d\":1,\"e\":1,\"f\":1,\"g\":1,\"h\":1,\"i\":1,\"j\":1,\"k\":1,\"l\":1,\"m\":1,\"n\":1,\"o\":1,\"p\":1,\"q\":1,\"r\":1,\"s\":1,\"t\":1,";
    match format!(in alloc; "{front}{rest}") {
        Ok(text) => read(alloc, text.as_bytes()).err(),
        Err(_) => Some(JsonFault::Memory),
    }
}

/// The digests of the members' names tell neither two of these apart, nor that the third is new.
#[test]
fn names_that_digests_do_not_tell(rt: HostRuntime) {
    let cases = [
        (
            "\"kjgqfmbuimeynkyqHTv1oXUTuyK4HY7P\":1,\"kjgqfmbuimeynkyqYZkjI4QudwVon53q\":2}",
            None,
        ),
        (
            "\"kjgqfmbuimeynkyqHTv1oXUTuyK4HY7P\":1,\"kjgqfmbuimeynkyqYZkjI4QudwVon53q\":2,\"u\":3}",
            None,
        ),
        (
            "\"kjgqfmbuimeynkyqHTv1oXUTuyK4HY7P\":1,\"kjgqfmbuimeynkyqYZkjI4QudwVon53q\":2,\"kjgqfmbuimeynkyqHTv1oXUTuyK4HY7P\":3}",
            Some(JsonFault::Twice(195)),
        ),
        (
            "\"kjgqfmbuimeynkyqHTv1oXUTuyK4HY7P\":1,\"kjgqfmbuimeynkyqYZkjI4QudwVon53q\":2,\"kjgqfmbuimeynkyqYZkjI4QudwVon53q\":3}",
            Some(JsonFault::Twice(195)),
        ),
        (
            "\"kjgqfmbuimeynkyqHTv1oXUTuyK4HY7P\":1,\"kjgqfmbuimeynkyqYZkjI4QudwVon53q\":2,\"a\":3}",
            Some(JsonFault::Twice(195)),
        ),
        (
            "\"kjgqfmbuimeynkyqHTv1oXUTuyK4HY7P\":1,\"kjgqfmbuimeynkyqHTv1oXUTuyK4HY7P\":2}",
            Some(JsonFault::Twice(158)),
        ),
        ("\"oboitxvtubhldxamGT8n|PFX12345678\":1,\"u\":2}", None),
        (
            "\"oboitxvtubhldxamGT8n|PFX12345678\":1,\"oboitxvtubhldxamGT8n|PFX12345678\":2}",
            Some(JsonFault::Twice(158)),
        ),
        ("\"t\":2}", Some(JsonFault::Twice(121))),
    ];
    for (rest, fault) in cases {
        assert!(rt; fault_after(rt.alloc(), rest) == fault, "at {rest}");
    }
}

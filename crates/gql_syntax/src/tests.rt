use crate::{GqlFault, parse};
use flow_base::Text;
use std::alloc::Global;

// The fault of a text, and None of a document.
fn fault(alloc: Global, text: &str) -> Option<GqlFault> {
    match Text::of(alloc, text) {
        Err(_) => Some(GqlFault::Memory),
        Ok(text) => match parse(alloc, &text) {
            Ok(_) => None,
            Err(fault) => Some(fault),
        },
    }
}

// Sections 2.1 and 2.9 of the standard: each kind of token, and the first that is none.
#[test]
fn tokens_are_those_of_the_standard(rt: HostRuntime) {
    let cases = [
        ("\u{FEFF}{a}", None),
        ("{a,,\t\r\n b}", None),
        ("{a#x,\n}", None),
        ("{a}#x", None),
        ("{a}\u{FEFF}", None),
        ("{_a1:B_2}", None),
        ("{é}", Some(GqlFault::Unexpected(1))),
        ("{a;b}", Some(GqlFault::Unexpected(2))),
        ("{a(b:0)}", None),
        ("{a(b:-0 c:-12)}", None),
        ("{a(b:-)}", Some(GqlFault::Unexpected(5))),
        ("{a(b:01)}", Some(GqlFault::Unexpected(5))),
        ("{a(b:1x)}", Some(GqlFault::Unexpected(5))),
        ("{a(b:1_)}", Some(GqlFault::Unexpected(5))),
        ("{a(b:+1)}", Some(GqlFault::Unexpected(5))),
        ("{a(b:1.5 c:1e9 d:1.5E-3 e:0e+0)}", None),
        ("{a(b:1.)}", Some(GqlFault::Unexpected(5))),
        ("{a(b:.5)}", Some(GqlFault::Unexpected(5))),
        ("{a(b:1e)}", Some(GqlFault::Unexpected(5))),
        ("{a(b:1.5.", Some(GqlFault::Unexpected(5))),
        ("{a(b:\"\" c:\"x\\n\\u00e9\\\"\")}", None),
        ("{a(b:\"é😀\t\")}", None),
        ("{a(b:\"\\q\")}", Some(GqlFault::Unexpected(5))),
        ("{a(b:\"\\u12g4\")}", Some(GqlFault::Unexpected(5))),
        ("{a(b:\"\n\")}", Some(GqlFault::Unexpected(5))),
        ("{a(b:\"\"\"x\n\"y\" \\\"\"\" \"\"\")}", None),
        ("{a(b:\"\"\"\u{1}\"\"\")}", Some(GqlFault::Unexpected(5))),
        ("{a#\u{1}", Some(GqlFault::Unexpected(3))),
        ("{a ..b}", Some(GqlFault::Unexpected(3))),
    ];
    for (text, wanted) in cases {
        assert!(rt; fault(rt.alloc(), text) == wanted, "at {text}");
    }
}

// Sections 2.2 to 2.12: each production, and the first token that it refuses.
#[test]
fn documents_are_those_of_the_standard(rt: HostRuntime) {
    let cases = [
        ("query Q($x:Int){a}", None),
        ("mutation{a} subscription S@d{a} {b}", None),
        ("query($x:[Int!]!=[1 2]@d $y:T){a}", None),
        ("query(){a}", Some(GqlFault::Unexpected(6))),
        ("query($x){a}", Some(GqlFault::Unexpected(8))),
        ("query($x:[Int){a}", Some(GqlFault::Unexpected(13))),
        ("query($x:Int!!){a}", Some(GqlFault::Unexpected(13))),
        ("query($a:Int=$b)", Some(GqlFault::Unexpected(13))),
        ("query($a:Int=\"\"\"", Some(GqlFault::Unexpected(13))),
        ("query($a:Int=1@d(x:$a)){b}", None),
        ("query($a:Int@d(x:\"\"\"b\"\"\")){c}", None),
        ("{a b:c(d:1) e@f@g(h:2){i}}", None),
        ("{}", Some(GqlFault::Unexpected(1))),
        ("{a{}}", Some(GqlFault::Unexpected(3))),
        ("{a()}", Some(GqlFault::Unexpected(3))),
        ("{a:b:c}", Some(GqlFault::Unexpected(4))),
        ("{a(b)}", Some(GqlFault::Unexpected(4))),
        ("{query mutation fragment on true}", None),
        ("{...F ...on T{a} ...@d{b} ...{c}}", None),
        ("{...on}", Some(GqlFault::Unexpected(6))),
        ("{...F{a}}", Some(GqlFault::Unexpected(5))),
        ("fragment F on T@d{a}", None),
        ("fragment on on T{a}", Some(GqlFault::Unexpected(9))),
        ("fragment F{a}", Some(GqlFault::Unexpected(10))),
        ("{a(b:$c d:true e:null f:G h:[] i:{} j:[1 {k:[$l]}])}", None),
        ("{a(b:{c})}", Some(GqlFault::Unexpected(7))),
        ("{a(b:$)}", Some(GqlFault::Unexpected(6))),
        ("{a@}", Some(GqlFault::Unexpected(3))),
        ("{a}}", Some(GqlFault::Unexpected(3))),
        ("{a}x", Some(GqlFault::Unexpected(3))),
        ("type T{a:Int}", Some(GqlFault::Unexpected(0))),
    ];
    for (text, wanted) in cases {
        assert!(rt; fault(rt.alloc(), text) == wanted, "at {text}");
    }
}

// A text that ends before a fault; its last token may still grow.
#[test]
fn texts_end_too_soon(rt: HostRuntime) {
    let ended = [
        "",
        " ",
        "{",
        "{a",
        "{a(b:\"x)}",
        "{a}q",
        "fragment on",
        "{a(b:1.",
        "{a(b:-",
        "query($a:Int=\"\"",
        "{a ..",
        "{...on",
        "{a(b:[{",
        "fragment F o",
    ];
    for text in ended {
        assert!(rt;
            fault(rt.alloc(), text) == Some(GqlFault::Ended),
            "at {text}"
        );
    }
    let over = [
        ("fragment on ", GqlFault::Unexpected(9)),
        ("{a(b:..", GqlFault::Unexpected(5)),
        ("{a} fragmen ", GqlFault::Unexpected(4)),
    ];
    for (text, wanted) in over {
        assert!(rt; fault(rt.alloc(), text) == Some(wanted), "at {text}");
    }
}

// The text so many times, between two others.
fn nested(alloc: Global, first: &str, each: &str, count: usize, last: &str) -> Option<GqlFault> {
    let Ok(mut text) = String::from_str(alloc, first) else {
        return Some(GqlFault::Memory);
    };
    for _ in 0..count {
        let Ok(()) = text.push_str(each) else {
            return Some(GqlFault::Memory);
        };
    }
    let Ok(()) = text.push_str(last) else {
        return Some(GqlFault::Memory);
    };
    fault(alloc, text.as_str())
}

// The 65th nested selection set, list value, object value and list type.
#[test]
fn depth_is_counted_by_kind(rt: HostRuntime) {
    let alloc = rt.alloc();
    assert!(rt; nested(alloc, "", "{a", 64, "") == Some(GqlFault::Ended));
    assert!(rt; nested(alloc, "", "{a", 65, "") == Some(GqlFault::Deep(128)));
    assert!(rt; nested(alloc, "{a(b:", "[", 64, "") == Some(GqlFault::Ended));
    assert!(rt; nested(alloc, "{a(b:", "[", 65, "") == Some(GqlFault::Deep(69)));
    assert!(rt; nested(alloc, "{a(b:", "{c:", 65, "") == Some(GqlFault::Deep(197)));
    assert!(rt; nested(alloc, "query($a:", "[", 64, "") == Some(GqlFault::Ended));
    assert!(rt; nested(alloc, "query($a:", "[", 65, "") == Some(GqlFault::Deep(73)));
    assert!(rt; nested(alloc, "{a", "{a(b:[[1]])", 63, "...on T") == Some(GqlFault::Ended));
    assert!(rt; nested(alloc, "{a", "{a", 63, " ...on T{") == Some(GqlFault::Deep(136)));
}

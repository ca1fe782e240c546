use crate::numbers::Digit;
use crate::{
    Class, Kind, Scan, State, Token, ignored_length, is_fragment_name, is_name, may_end, same_kind,
    token_at,
};

// Section 2.1.6: each kind of token with what follows it, and bytes that begin none.
#[test]
fn a_token_stands_at_the_front(rt: HostRuntime) {
    let cases = [
        ("{a", Scan::Found(Class::Mark(Kind::OpenBrace), 1)),
        ("...x", Scan::Found(Class::Mark(Kind::Dots), 3)),
        ("_b1-", Scan::Found(Class::Name, 3)),
        ("-12)", Scan::Found(Class::Number, 3)),
        ("0,1", Scan::Found(Class::Number, 1)),
        ("1.5e-3 ", Scan::Found(Class::Number, 6)),
        ("\"\" ", Scan::Found(Class::Empty, 2)),
        ("\"x\\\"y\"z", Scan::Found(Class::Str, 6)),
        ("\"\"\"x\\\"\"\"\"\"\"z", Scan::Found(Class::Block, 11)),
        ("01", Scan::Bad),
        ("1x", Scan::Bad),
        ("- ", Scan::Bad),
        (".a", Scan::Bad),
        ("?", Scan::Bad),
        ("\"\n\"", Scan::Bad),
        ("..", Scan::End(State::Dots)),
        ("query", Scan::End(State::Name)),
        ("\"\"", Scan::End(State::Quotes)),
    ];
    for (text, wanted) in cases {
        assert!(rt; token_at(text.as_bytes()) == wanted, "at {text}");
    }
}

// Sections 2.1.1 to 2.1.5 and 2.1.7.
#[test]
fn what_is_ignored_is_counted(rt: HostRuntime) {
    let cases = [
        (" a", 1),
        ("\t", 1),
        (",", 1),
        ("\r\n", 1),
        ("\u{FEFF}a", 3),
        ("#x\ty\n", 4),
        ("#", 1),
        ("a", 0),
    ];
    for (text, wanted) in cases {
        assert!(rt; ignored_length(text.as_bytes()) == wanted, "at {text}");
    }
}

#[test]
fn kinds_are_told_apart(rt: HostRuntime) {
    assert!(rt; is_name(Kind::On) && !is_name(Kind::Number));
    assert!(rt; is_fragment_name(Kind::Null) && !is_fragment_name(Kind::On));
    assert!(rt; same_kind(Kind::Str, Kind::Str) && !same_kind(Kind::Str, Kind::Block));
    assert!(rt; may_end(Digit::Zero) && !may_end(Digit::Dot));
    let token = Token::new(Kind::Name, "a").copy();
    assert!(rt; token.kind() == Kind::Name && token.text() == "a");
}

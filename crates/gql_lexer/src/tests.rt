use crate::lex;
use gql_tokens::{Kind, Last, Lexed};
use std::alloc::Global;

// How a text ends, and how many tokens and kinds that may come there are.
fn ending(alloc: Global, text: &str) -> (char, usize, usize) {
    match lex(alloc, text) {
        Err(_) => ('m', 0, 0),
        Ok(lexed) => {
            let Lexed { tokens, last, .. } = lexed;
            let count = tokens.len();
            match last {
                Last::Settled => ('s', count, 0),
                Last::Whole(kinds) => ('w', count, kinds.len()),
                Last::Cut(kinds) => ('c', count, kinds.len()),
            }
        }
    }
}

#[test]
fn texts_end_settled_whole_or_cut(rt: HostRuntime) {
    let cases = [
        ("", ('s', 0, 0)),
        ("{a}", ('s', 3, 0)),
        ("{a}#x", ('s', 3, 0)),
        ("{a ", ('s', 2, 0)),
        ("{a", ('w', 2, 1)),
        ("{f", ('w', 2, 3)),
        ("{1", ('w', 2, 1)),
        ("{\"\"", ('w', 2, 2)),
        ("{1.", ('c', 1, 1)),
        ("{\"x", ('c', 1, 1)),
        ("{..", ('c', 1, 1)),
        ("{\"", ('c', 1, 2)),
        ("{?", ('c', 1, 0)),
    ];
    for (text, wanted) in cases {
        assert!(rt; ending(rt.alloc(), text) == wanted, "at {text}");
    }
}

// Whether the token of this number is this one.
fn stands(lexed: &Lexed<'_>, index: usize, kind: Kind, text: &str, place: usize) -> bool {
    match (lexed.tokens.get(index), lexed.places.get(index)) {
        (Some(token), Some(found)) => {
            token.kind() == kind && token.text() == text && *found == place
        }
        _ => false,
    }
}

#[test]
fn tokens_have_kinds_texts_and_places(rt: HostRuntime) {
    let Ok(lexed) = lex(rt.alloc(), "\u{FEFF}query{on(a:\"\"\"x\"y\"\"\" b:\"é\")}") else {
        assert!(rt; false);
        return;
    };
    let table = [
        (0, Kind::Query, "query", 3),
        (1, Kind::OpenBrace, "{", 8),
        (2, Kind::On, "on", 9),
        (6, Kind::Block, "x\"y", 14),
        (7, Kind::Name, "b", 24),
        (9, Kind::Str, "é", 26),
        (11, Kind::CloseBrace, "}", 31),
    ];
    for (index, kind, text, place) in table {
        assert!(rt; stands(&lexed, index, kind, text, place), "at {text}");
    }
}

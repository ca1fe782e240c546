ghost use Rattle.std.specs.Prelude.{◌≡◌, true, codes, length, All};

use super::*;
use cache_seam::{Alone, Cache};
use cache_terms::{Key, Limits, Reply};
use flow_base::{Bytes, ListClock, Memory, Text};
use json_tree::{Json, print};
use line_base::{ScriptLine, Scripted};
use std::alloc::AllocGlobal;
use std::process::Abort;
use std::test::*;

const LIMITS: Limits = Limits {
    events: 64,
    bytes: 4096,
};

fn text<R: Abort + AllocGlobal>(rt: &R, s: &str) -> Text
    ensures { result ≡ s.now }
{
    match Text::of(rt.alloc(), s) {
        Ok(text) => text,
        Err(Memory) => Text::of(rt.alloc(), s).expect(rt, "memory"),
    }
}

fn key<R: Abort + AllocGlobal>(rt: &R, rep: &str) -> Key
    ensures { result.sub ≡ codes "shop" }
{
    Key {
        sub: text(rt, "shop"),
        type_name: text(rt, "Item"),
        rep: text(rt, rep),
        sel: text(rt, "{name}"),
    }
}

/// A key for each representation.
#[tactic(auto, using(crate::proofs::TestKeys::named_push, crate::proofs::TestKeys::named_none))]
fn keys<R: Abort + AllocGlobal>(rt: &R, reps: &[&str]) -> Vec<Key>
    ensures { All (λ key. key.sub ≡ codes "shop") result.items }
{
    let mut keys = Vec::new(rt.alloc());
    'keys: for rep in reps {
        let key = key(rt, rep);
        keys.push(key).expect(rt, "memory");
    }
    keys
}

/// The one key of an operation's data.
#[tactic(auto, using(crate::proofs::TestKeys::named_push, crate::proofs::TestKeys::named_none))]
fn one_key<R: Abort + AllocGlobal>(rt: &R) -> Vec<Key>
    ensures named { All (λ key. key.sub ≡ codes "shop") result.items }
    ensures one { length result.items ≡ 1 }
{
    let key = key(rt, "");
    let mut keys = Vec::new(rt.alloc());
    keys.push(key).expect(rt, "memory");
    keys
}

fn ask<R: Abort + AllocGlobal>(rt: &R, entities: bool) -> Ask
    ensures name { result.name ≡ codes "shop" }
    ensures entities { result.entities ≡ entities }
{
    Ask {
        sub: 7,
        name: text(rt, "shop"),
        front: text(rt, "["),
        back: text(rt, "]"),
        entities,
        mutation: false,
        uncached: false,
    }
}

fn scripted<R: Abort + AllocGlobal>(
    rt: &R,
    status: u16,
    cache_control: &str,
    body: &str,
) -> Scripted {
    let body = Bytes::of(rt.alloc(), body.as_bytes()).expect(rt, "memory");
    Scripted {
        sub: 7,
        reply: Some(Reply {
            status,
            cache_control: Some(text(rt, cache_control)),
            age: None,
            body,
        }),
    }
}

fn put<R: Abort + AllocGlobal>(rt: &R, out: &mut String, words: &str) {
    out.push_str(words).expect(rt, "memory");
}

fn put_pieces<R: Abort + AllocGlobal>(rt: &R, out: &mut String, pieces: &[Json]) {
    for piece in pieces {
        match print(rt.alloc(), piece) {
            Ok(text) => put(rt, out, text.as_str()),
            Err(Memory) => panic!(rt; "memory"),
        }
        put(rt, out, " ");
    }
}

fn put_origins<R: Abort + AllocGlobal>(rt: &R, out: &mut String, origins: &[Origin]) {
    for origin in origins {
        let words = match origin {
            Origin::Hit { lookup, stored } => format!(in rt.alloc(); "hit {lookup} {stored} "),
            Origin::Own { line, call } => format!(in rt.alloc(); "own {line} {call} "),
            Origin::Absent => format!(in rt.alloc(); "absent "),
        };
        put(rt, out, words.expect(rt, "memory").as_str());
    }
}

fn put_lasts<R: Abort + AllocGlobal>(rt: &R, out: &mut String, lasts: &[Option<Lasts>]) {
    for last in lasts {
        match last {
            Some(Lasts { left_ms, private }) => {
                let words = format!(in rt.alloc(); "{left_ms} {private} ").expect(rt, "memory");
                put(rt, out, words.as_str());
            }
            None => put(rt, out, "- "),
        }
    }
}

fn put_causes<R: Abort + AllocGlobal>(rt: &R, out: &mut String, causes: &[Cause]) {
    for cause in causes {
        match cause {
            Cause::Unreachable => put(rt, out, "unreachable "),
            Cause::TooLong(_) => put(rt, out, "too long "),
            Cause::Status(status) => {
                let words = format!(in rt.alloc(); "status {status} ").expect(rt, "memory");
                put(rt, out, words.as_str());
            }
            Cause::BadReply(_) => put(rt, out, "bad reply "),
            Cause::Subgraph(text) => put(rt, out, text.as_str()),
        }
    }
}

/// What a fetch gives, in words.
fn words<R: Abort + AllocGlobal>(rt: &R, fetched: &Fetched) -> String {
    let mut out = String::new(rt.alloc());
    put_pieces(rt, &mut out, &fetched.pieces);
    put(rt, &mut out, "| ");
    put_origins(rt, &mut out, &fetched.origins);
    put(rt, &mut out, "| ");
    put_lasts(rt, &mut out, &fetched.lasts);
    put(rt, &mut out, "| ");
    put_causes(rt, &mut out, &fetched.causes);
    match fetched.first_sent {
        Some(index) => {
            let words = format!(in rt.alloc(); "| first {index}").expect(rt, "memory");
            put(rt, &mut out, words.as_str());
        }
        None => put(rt, &mut out, "| none sent"),
    }
    out
}

/// One request with one fetch.
#[tactic(auto, using(cache_seam::proofs::TestObjects::begun_of))]
fn fetch<R: Abort + AllocGlobal>(
    rt: &R,
    cache: &mut Alone,
    line: &mut ScriptLine,
    clock: &mut ListClock,
    id: Option<&Text>,
    reps: &[&str],
) -> String {
    let ask = ask(rt, true);
    let keys = keys(rt, reps);
    cache.begin();
    match fetch_pieces(rt.alloc(), cache, line, 0, clock, id, &ask, keys) {
        Ok(fetched) => words(rt, &fetched),
        Err(Memory) => panic!(rt; "memory"),
    }
}

/// One request for the data of an operation, over line 3.
#[tactic(auto, using(cache_seam::proofs::TestObjects::begun_of))]
fn fetch_data<R: Abort + AllocGlobal>(
    rt: &R,
    cache: &mut Alone,
    line: &mut ScriptLine,
    clock: &mut ListClock,
) -> String {
    let ask = ask(rt, false);
    let keys = one_key(rt);
    cache.begin();
    match fetch_pieces(rt.alloc(), cache, line, 3, clock, None, &ask, keys) {
        Ok(fetched) => words(rt, &fetched),
        Err(Memory) => panic!(rt; "memory"),
    }
}

fn clock<R: Abort + AllocGlobal>(rt: &R, first: u64, second: u64) -> ListClock {
    let mut moments = Vec::new(rt.alloc());
    moments.push(first).expect(rt, "memory");
    moments.push(second).expect(rt, "memory");
    ListClock::of(moments)
}

#[test]
fn what_was_fetched_is_found(rt: HostRuntime) {
    let mut cache = Alone::open(rt.alloc(), LIMITS).expect(&rt, "memory");
    let mut replies = Vec::new(rt.alloc());
    let chair = scripted(
        &rt,
        200,
        "max-age=60",
        "{\"data\":{\"_entities\":[{\"name\":\"Chair\"}]}}",
    );
    replies.push(chair).expect(&rt, "memory");
    let desk = "{\"data\":{\"_entities\":[{\"name\":\"Desk\"},null]}}";
    replies
        .push(scripted(&rt, 200, "max-age=30, private", desk))
        .expect(&rt, "memory");
    let mut line = ScriptLine::of(rt.alloc(), replies);
    let mut clock = clock(&rt, 1000, 3500);
    let ann = text(&rt, "ann");

    let first = fetch(&rt, &mut cache, &mut line, &mut clock, None, &["1"]);
    assert_eq!(&rt;
        first.as_str(),
        "{\"name\":\"Chair\"} | own 0 0 | 60000 false | | first 0"
    );
    let second = fetch(
        &rt,
        &mut cache,
        &mut line,
        &mut clock,
        Some(&ann),
        &["2", "1", "3"],
    );
    let mixed =
        "{\"name\":\"Desk\"} {\"name\":\"Chair\"} null | own 0 1 hit 5 2 absent | 30000 true 57500 false - | | first 0";
    assert_eq!(&rt; second.as_str(), mixed);
    let told = line.log().get(1).expect(&rt, "a second call");
    assert_eq!(&rt; told.call.body.as_str(), "[2,3]");
    let third = fetch(
        &rt,
        &mut cache,
        &mut line,
        &mut clock,
        Some(&ann),
        &["1", "2"],
    );
    let found =
        "{\"name\":\"Chair\"} {\"name\":\"Desk\"} | hit 10 2 hit 11 8 | 57500 false 30000 true | | none sent";
    assert_eq!(&rt; third.as_str(), found);
    assert_eq!(&rt; line.log().len(), 2);
}

/// What one fetch of one piece gives over this reply, without an id.
fn fetch_once<R: Abort + AllocGlobal>(
    rt: &R,
    status: u16,
    cache_control: &str,
    body: &str,
) -> String {
    let mut cache = Alone::open(rt.alloc(), LIMITS).expect(rt, "memory");
    let mut replies = Vec::new(rt.alloc());
    let reply = scripted(rt, status, cache_control, body);
    replies.push(reply).expect(rt, "memory");
    let mut line = ScriptLine::of(rt.alloc(), replies);
    let mut clock = clock(rt, 1000, 1000);
    fetch(rt, &mut cache, &mut line, &mut clock, None, &["1"])
}

#[test]
fn each_reply_gives_its_piece_or_its_cause(rt: HostRuntime) {
    let chair = "{\"data\":{\"_entities\":[{\"name\":\"Chair\"}]}}";
    let beside =
        "{\"data\":{\"_entities\":[{\"name\":\"Chair\"}]},\"errors\":[{\"message\":\"slow \"}]}";
    let table = [
        (
            200,
            "max-age=60",
            chair,
            "{\"name\":\"Chair\"} | own 0 0 | 60000 false | | first 0",
        ),
        (
            200,
            "max-age=60, private",
            chair,
            "{\"name\":\"Chair\"} | own 0 0 | - | | first 0",
        ),
        (
            200,
            "max-age=60",
            beside,
            "{\"name\":\"Chair\"} | own 0 0 | - | slow | first 0",
        ),
        (
            200,
            "max-age=60",
            "{\"data\":{\"_entities\":[null]}}",
            "null | absent | - | | first 0",
        ),
        (
            200,
            "max-age=60",
            "{\"data\":{}",
            "null | absent | - | bad reply | first 0",
        ),
        (
            503,
            "max-age=60",
            chair,
            "null | absent | - | status 503 | first 0",
        ),
    ];
    for (status, cache_control, body, want) in table {
        let got = fetch_once(&rt, status, cache_control, body);
        assert_eq!(&rt; got.as_str(), want);
    }
}

#[test]
fn a_line_that_fails_gives_no_piece(rt: HostRuntime) {
    let mut cache = Alone::open(rt.alloc(), LIMITS).expect(&rt, "memory");
    let mut line = ScriptLine::of(rt.alloc(), Vec::new(rt.alloc()));
    let mut clock = clock(&rt, 1000, 1000);
    let got = fetch(&rt, &mut cache, &mut line, &mut clock, None, &["1", "2"]);
    assert_eq!(&rt;
        got.as_str(),
        "null null | absent absent | - - | unreachable | first 0"
    );
}

#[test]
fn the_data_of_an_operation_is_one_piece(rt: HostRuntime) {
    let mut cache = Alone::open(rt.alloc(), LIMITS).expect(&rt, "memory");
    let mut replies = Vec::new(rt.alloc());
    let shop = scripted(&rt, 200, "max-age=60", "{\"data\":{\"shop\":1}}");
    replies.push(shop).expect(&rt, "memory");
    let mut line = ScriptLine::of(rt.alloc(), replies);
    let mut clock = clock(&rt, 1000, 61000);
    let first = fetch_data(&rt, &mut cache, &mut line, &mut clock);
    assert_eq!(&rt;
        first.as_str(),
        "{\"shop\":1} | own 3 0 | 60000 false | | first 0"
    );
    let later = fetch_data(&rt, &mut cache, &mut line, &mut clock);
    assert_eq!(&rt; later.as_str(), "null | absent | - | unreachable | first 0");
}

use super::*;
use cache_terms::{Reply, Tags};
use flow_base::{Bytes, Memory, Text};
use json_tree::print;
use std::alloc::AllocGlobal;
use std::process::Abort;
use std::test::*;

fn reply<R: Abort + AllocGlobal>(rt: &R, status: u16, body: &str) -> Reply {
    let body = Bytes::of(rt.alloc(), body.as_bytes());
    Reply {
        status,
        cache_control: None,
        age: None,
        body: body.expect(rt, "memory"),
    }
}

fn put<R: Abort + AllocGlobal>(rt: &R, out: &mut String, words: &str) {
    out.push_str(words).expect(rt, "memory");
}

fn put_tags<R: Abort + AllocGlobal>(rt: &R, out: &mut String, tags: &Tags) {
    match tags {
        Tags::Known(list) => {
            put(rt, out, " known");
            for tag in list.as_slice() {
                put(rt, out, ":");
                put(rt, out, tag.as_str());
            }
        }
        Tags::Many(count) => {
            let words = format!(in rt.alloc(); " many:{count}").expect(rt, "memory");
            put(rt, out, words.as_str());
        }
        Tags::Malformed => put(rt, out, " malformed"),
    }
}

fn put_pieces<R: Abort + AllocGlobal>(rt: &R, out: &mut String, pieces: &Pieces) {
    for value in &pieces.values {
        let text = match print(rt.alloc(), value) {
            Ok(text) => text,
            Err(Memory) => panic!(rt; "memory"),
        };
        put(rt, out, text.as_str());
        put(rt, out, " ");
    }
    put(rt, out, "|");
    for tags in &pieces.tags {
        put_tags(rt, out, tags);
    }
    put(rt, out, " |");
    for error in &pieces.errors {
        put(rt, out, " ");
        put(rt, out, error.as_str());
    }
}

/// What a reply gives, in words: its pieces, their tags and the errors, or its fault.
fn told<R: Abort + AllocGlobal>(rt: &R, status: u16, body: &str, sent: Sent) -> String {
    let reply = reply(rt, status, body);
    let mut out = String::new(rt.alloc());
    match read_reply(rt.alloc(), &reply, &sent) {
        Ok(pieces) => put_pieces(rt, &mut out, &pieces),
        Err(ReplyFault::Status(status)) => {
            let words = format!(in rt.alloc(); "status {status}").expect(rt, "memory");
            put(rt, &mut out, words.as_str());
        }
        Err(ReplyFault::Json(at)) => {
            let words = format!(in rt.alloc(); "json {at}").expect(rt, "memory");
            put(rt, &mut out, words.as_str());
        }
        Err(ReplyFault::Shape(name)) => {
            put(rt, &mut out, "shape ");
            put(rt, &mut out, name.as_str());
        }
        Err(ReplyFault::Count { got, sent }) => {
            let words = format!(in rt.alloc(); "count {got} {sent}").expect(rt, "memory");
            put(rt, &mut out, words.as_str());
        }
        Err(ReplyFault::Memory) => panic!(rt; "memory"),
    }
    out
}

fn root<R: Abort + AllocGlobal>(rt: &R, body: &str, wanted: &str) {
    let found = told(rt, 200, body, Sent::Root);
    assert_eq!(rt; found.as_str(), wanted);
}

fn two<R: Abort + AllocGlobal>(rt: &R, body: &str, wanted: &str) {
    let found = told(rt, 200, body, Sent::Entities(2));
    assert_eq!(rt; found.as_str(), wanted);
}

#[test]
fn faults(rt: HostRuntime) {
    let found = told(&rt, 201, "{\"data\":{}}", Sent::Root);
    assert_eq!(&rt; found.as_str(), "status 201");
    root(&rt, "{", "json 1");
    root(&rt, "{x", "json 1");
    root(&rt, "[]", "shape ");
    root(&rt, "{\"errors\":1,\"data\":{}}", "shape errors");
    root(&rt, "{\"errors\":[1],\"data\":{}}", "shape errors");
    root(&rt, "{}", "shape data");
    root(&rt, "{\"errors\":null}", "shape data");
    root(&rt, "{\"errors\":[],\"data\":null}", "shape data");
    root(&rt, "{\"errors\":[{}],\"data\":1}", "shape data");
    two(&rt, "{\"data\":{}}", "shape _entities");
    two(&rt, "{\"data\":{\"_entities\":{}}}", "shape _entities");
    two(&rt, "{\"data\":{\"_entities\":[1]}}", "count 1 2");
    two(&rt, "{\"data\":{\"_entities\":[{},1]}}", "shape entity");
}

#[test]
fn pieces_and_errors(rt: HostRuntime) {
    root(&rt, " {\"data\": {\"a\": 1}} ", "{\"a\":1} | known |");
    root(&rt, "{\"errors\":[{}]}", "null | known | subgraph error");
    root(
        &rt,
        "{\"data\":{},\"errors\":[{\"message\":\"m\"},{\"message\":1}]}",
        "{} | known | m subgraph error",
    );
    two(
        &rt,
        "{\"errors\":[{}],\"data\":null}",
        "null null | known known | subgraph error",
    );
    two(
        &rt,
        "{\"data\":{\"_entities\":[{\"b\":[2]},null]}}",
        "{\"b\":[2]} null | known known |",
    );
}

#[test]
fn tags(rt: HostRuntime) {
    root(&rt, "{\"data\":{},\"extensions\":null}", "{} | malformed |");
    root(&rt, "{\"data\":{},\"extensions\":{}}", "{} | known |");
    root(
        &rt,
        "{\"data\":{},\"extensions\":{\"cacheTags\":[\"x\",\"y\",\"x\"]}}",
        "{} | known:x:y |",
    );
    root(
        &rt,
        "{\"data\":{},\"extensions\":{\"cacheTags\":[\"\"]}}",
        "{} | malformed |",
    );
    root(
        &rt,
        "{\"data\":{},\"extensions\":{\"cacheTags\":[1]}}",
        "{} | malformed |",
    );
    root(
        &rt,
        "{\"data\":{},\"extensions\":{\"cacheTags\":null}}",
        "{} | malformed |",
    );
    root(
        &rt,
        "{\"data\":{},\"extensions\":{\"entityCacheTags\":[]}}",
        "{} | malformed |",
    );
    root(
        &rt,
        "{\"data\":{},\"extensions\":{\"cacheTags\":[\"a\",\"b\",\"c\",\"d\",\"e\",\"f\",\"g\",\"h\",\"i\",\"j\",\"k\",\"l\",\"m\",\"n\",\"o\",\"p\"]}}",
        "{} | known:a:b:c:d:e:f:g:h:i:j:k:l:m:n:o:p |",
    );
    root(
        &rt,
        "{\"data\":{},\"extensions\":{\"cacheTags\":[\"a\",\"b\",\"c\",\"d\",\"e\",\"f\",\"g\",\"h\",\"i\",\"j\",\"k\",\"l\",\"m\",\"n\",\"o\",\"p\",\"q\",\"a\"]}}",
        "{} | many:17 |",
    );
    root(
        &rt,
        "{\"data\":{},\"extensions\":{\"cacheTags\":[\"\",\"a\",\"b\",\"c\",\"d\",\"e\",\"f\",\"g\",\"h\",\"i\",\"j\",\"k\",\"l\",\"m\",\"n\",\"o\",\"p\",\"q\"]}}",
        "{} | malformed |",
    );
    root(
        &rt,
        "{\"data\":{},\"extensions\":{\"cacheTags\":[\"ttttttttttttttttttttttttttttttttttttttttttttttttttttttttttttttttttttttttttttttttttttttttttttttttttttttttttttttttttttttttttttttttt\"]}}",
        "{} | malformed |",
    );
}

#[test]
fn tags_by_entity(rt: HostRuntime) {
    two(
        &rt,
        "{\"data\":{\"_entities\":[{},{}]},\"extensions\":{\"cacheTags\":[\"x\"],\"entityCacheTags\":[[\"y\"],[\"x\"]]}}",
        "{} {} | known:x:y known:x |",
    );
    two(
        &rt,
        "{\"data\":{\"_entities\":[{},{}]},\"extensions\":{\"entityCacheTags\":[[\"y\"]]}}",
        "{} {} | malformed malformed |",
    );
    two(
        &rt,
        "{\"data\":{\"_entities\":[{},{}]},\"extensions\":{\"entityCacheTags\":[[\"y\"],\"x\"]}}",
        "{} {} | malformed malformed |",
    );
    two(
        &rt,
        "{\"data\":{\"_entities\":[{},{}]},\"extensions\":{\"entityCacheTags\":[[\"y\"],[\"\"]]}}",
        "{} {} | malformed malformed |",
    );
    two(
        &rt,
        "{\"data\":{\"_entities\":[{},{}]},\"extensions\":{\"entityCacheTags\":null}}",
        "{} {} | malformed malformed |",
    );
}

use super::*;
use cache_terms::Reply;
use flow_base::{Bytes, MemSource, Memory, Text};
use std::alloc::Global;
use std::test::Fail;

const REQUESTS: [(&str, &str); 45] = [
    ("", "end"),
    (
        "GET /health HTTP/1.1\r\nhost: x\r\n\r\n",
        "GET /health 1 [] open, end",
    ),
    ("GET / HTTP/9.9\r\n\r\n", "bad 18"),
    ("GET / HTTP/9.9\r\n\r", "cut 17"),
    ("GET /health HTTP/1.1\r\nhost: x\r\n\r", "cut 32"),
    ("GET / HTTP/1.0\r\n\r\n", "GET / 0 [] close, end"),
    (
        "GET / HTTP/1.0\r\nconnection: keep-alive\r\n\r\n",
        "GET / 1 [] close, end",
    ),
    (
        "GET / HTTP/1.1\r\nconnection: Close\r\n\r\n",
        "GET / 1 [] close, end",
    ),
    (
        "GET / HTTP/1.1\r\nconnection: closed\r\n\r\n",
        "GET / 1 [] open, end",
    ),
    (
        "GET / HTTP/1.1\r\nconnection: keep-alive,\tclose ,x\r\n\r\n",
        "GET / 1 [] close, end",
    ),
    (
        "GET / HTTP/1.1\r\nconnection: x\r\nConnection: close\r\n\r\n",
        "GET / 2 [] close, end",
    ),
    (
        "POST /a HTTP/1.1\r\ncontent-length: 2\r\n\r\n{}",
        "POST /a 1 [{}] open, end",
    ),
    (
        "POST /a HTTP/1.1\r\nContent-Length:  000000000000002\t\r\n\r\n{}",
        "POST /a 1 [{}] open, end",
    ),
    (
        "POST / HTTP/1.1\r\ncontent-length: 4\r\n\r\n\r\n\r\n",
        "POST / 1 [\r\n\r\n] open, end",
    ),
    (
        "POST /a HTTP/1.1\r\ncontent-length: 2\r\n\r\n{}GET /b HTTP/1.1\r\n\r\n",
        "POST /a 1 [{}] open, GET /b 0 [] open, end",
    ),
    ("POST / HTTP/1.1\r\ncontent-length: +2\r\n\r\n", "bad 39"),
    ("POST / HTTP/1.1\r\ncontent-length: -2\r\n\r\n", "bad 39"),
    ("POST / HTTP/1.1\r\ncontent-length: 2, 2\r\n\r\n", "bad 41"),
    ("POST / HTTP/1.1\r\ncontent-length: 0x2\r\n\r\n", "bad 40"),
    ("POST / HTTP/1.1\r\ncontent-length: \r\n\r\n", "bad 37"),
    ("POST / HTTP/1.1\r\ncontent-length: 2 2\r\n\r\n", "bad 40"),
    (
        "POST / HTTP/1.1\r\ncontent-length: 1000000000000000\r\n\r\n",
        "bad 53",
    ),
    ("POST / HTTP/1.1\r\ncontent-length: 2;\r\n\r\n", "bad 39"),
    (
        "POST / HTTP/1.1\r\ncontent-length: 2\r\ncontent-length: 2\r\n\r\n",
        "bad 57",
    ),
    (
        "POST / HTTP/1.1\r\ncontent-length: 9999999\r\ncontent-length: 1\r\n\r\n",
        "bad 63",
    ),
    (
        "POST / HTTP/1.1\r\ncontent-length: 1048577\r\n\r\n",
        "long 1048577",
    ),
    (
        "POST / HTTP/1.1\r\ncontent-length: 100000000000000\r\n\r\n",
        "long 100000000000000",
    ),
    (
        "POST / HTTP/1.1\r\ncontent-length: 1048576\r\n\r\n",
        "cut 44",
    ),
    ("POST / HTTP/1.1\r\ncontent-length: 3\r\n\r\n{}", "cut 40"),
    (
        "POST / HTTP/1.1\r\ntransfer-encoding:chunked\r\n\r\n",
        "bad 46",
    ),
    (
        "POST / HTTP/1.1\r\ntransfer-encoding:\tchunked\r\n\r\n",
        "bad 47",
    ),
    (
        "POST / HTTP/1.1\r\ntransfer-encoding:CHUNKED\r\n\r\n",
        "bad 46",
    ),
    (
        "POST / HTTP/1.1\r\ntransfer-encoding:identity\r\n\r\n",
        "bad 47",
    ),
    ("POST / HTTP/1.1\r\ntransfer-encoding:\r\n\r\n", "bad 39"),
    (
        "POST / HTTP/1.1\r\ncontent-length: 2\r\nTRANSFER-ENCODING: x\r\n\r\n",
        "bad 60",
    ),
    ("GET / HTTP/1.1\nhost: x\n\n", "GET / 1 [] open, end"),
    ("GET / HTTP/1.1\r\nhost : x\r\n\r\n", "bad 28"),
    ("GET / HTTP/1.1\r\na: b\r\n c\r\n\r\n", "bad 28"),
    ("\r\n\r\nGET / HTTP/1.1\r\n\r\n", "bad 4"),
    ("\r\nGET / HTTP/1.1\r\n\r\n", "GET / 0 [] open, end"),
    ("GET /a b HTTP/1.1\r\n\r\n", "bad 21"),
    ("GET  / HTTP/1.1\r\n\r\n", "bad 19"),
    ("GET / HTTP/1.1\r\n: x\r\n\r\n", "bad 23"),
    ("GET / HTTP/1.1\r\nx\r\n\r\n", "bad 21"),
    ("GET / HTTP/1.1\r\na: \0\r\n\r\n", "bad 24"),
];

const REPLIES: [(&str, &str); 16] = [
    ("", "cut 0"),
    (
        "HTTP/1.1 200 OK\r\ncontent-length: 2\r\n\r\n{}",
        "200 - - [{}]",
    ),
    (
        "HTTP/1.1 200 OK\r\ntransfer-encoding: chunked\r\n\r\n2\r\n{}\r\n0\r\n\r\n",
        "200 - - [{}]",
    ),
    (
        "HTTP/1.1 200 OK\r\nTransfer-Encoding: Chunked\r\ncontent-length: 9\r\ncontent-length: x\r\n\r\n1;a=b\r\n{\r\n0a \r\n0123456789\r\n000\r\nt: u\r\n\r\n",
        "200 - - [{0123456789]",
    ),
    ("HTTP/1.0 503 x\r\n\r\n{}", "503 - - [{}]"),
    (
        "HTTP/1.1 200 OK\r\ncache-control: a\r\nage: 1\r\nCache-Control: b\r\nage: 2\r\ncontent-length: 0\r\n\r\n",
        "200 a, b 1 []",
    ),
    (
        "HTTP/1.1 200 OK\r\ntransfer-encoding: gzip, chunked\r\n\r\n",
        "bad 53",
    ),
    (
        "HTTP/1.1 200 OK\r\ntransfer-encoding: chunked\r\ntransfer-encoding: chunked\r\n\r\n",
        "bad 75",
    ),
    (
        "HTTP/1.1 200 OK\r\ncontent-length: 2\r\ncontent-length: 2\r\n\r\n",
        "bad 57",
    ),
    (
        "HTTP/1.1 200 OK\r\ncontent-length: 1000000000000000\r\n\r\n",
        "bad 53",
    ),
    ("HTTP/2.0 200 OK\r\n\r\n", "bad 19"),
    (
        "HTTP/1.1 200 OK\r\ncontent-length: 4194305\r\n\r\n",
        "long 4194305",
    ),
    ("HTTP/1.1 200 OK\r\ncontent-length: 3\r\n\r\n{}", "cut 40"),
    (
        "HTTP/1.1 200 OK\r\ntransfer-encoding: chunked\r\n\r\n2\r\n{}\r\n0\r\n",
        "cut 57",
    ),
    (
        "HTTP/1.1 200 OK\r\ntransfer-encoding: chunked\r\n\r\n2\r\n{}\r\n0\r\nt: u\r\n",
        "cut 63",
    ),
    (
        "HTTP/1.1 200 OK\r\ntransfer-encoding: chunked\r\n\r\n2",
        "cut 48",
    ),
];

// A source of the text whose first reads give `piece` bytes each.
fn source_of(alloc: Global, text: &str, piece: u64) -> Result<MemSource, Memory> {
    let mut pieces = Vec::new(alloc);
    for _ in 0..256 {
        pieces.push(piece)?;
    }
    Ok(MemSource::of(Bytes::of(alloc, text.as_bytes())?, pieces, Vec::new(alloc)))
}

// The fault in words.
fn fault_text(alloc: Global, fault: WireFault) -> Result<String, Memory> {
    match fault {
        WireFault::Failed => Ok(String::from_str(alloc, "failed")?),
        WireFault::Bad(count) => Ok(format!(in alloc; "bad {count}")?),
        WireFault::TooLong(count) => Ok(format!(in alloc; "long {count}")?),
        WireFault::Cut(count) => Ok(format!(in alloc; "cut {count}")?),
        WireFault::Memory => Ok(String::from_str(alloc, "memory")?),
    }
}

// Method, target, number of fields, body, and whether the connection closes.
fn message_text(alloc: Global, message: &Message) -> Result<String, Memory> {
    let method = message.method.as_str();
    let target = message.target.as_str();
    let fields = message.fields.len();
    let body = String::from_utf8_lossy(alloc, message.body.as_slice())?;
    let close = if message.close { "close" } else { "open" };
    Ok(format!(in alloc; "{method} {target} {fields} [{body}] {close}, ")?)
}

// What one call answers.
fn read_next(alloc: Global, source: &mut MemSource, kept: &mut Kept) -> Result<String, Memory> {
    match read_message(alloc, source, kept) {
        Ok(Some(message)) => message_text(alloc, &message),
        Ok(None) => Ok(String::from_str(alloc, "end")?),
        Err(fault) => fault_text(alloc, fault),
    }
}

// The messages of the source, and how it ended.
fn read_source(alloc: Global, source: &mut MemSource) -> Result<String, Memory> {
    let mut kept = Kept::empty(alloc);
    let mut shown = String::new(alloc);
    for _ in 0..4 {
        let next = read_next(alloc, source, &mut kept)?;
        shown.push_str(next.as_str())?;
        if !next.as_str().ends_with(", ") {
            return Ok(shown);
        }
    }
    Ok(shown)
}

// The messages of the text in pieces, and how it ended.
fn read_all(alloc: Global, text: &str, piece: u64) -> Result<String, Memory> {
    let mut source = source_of(alloc, text, piece)?;
    read_source(alloc, &mut source)
}

#[test]
fn requests_are_read_in_any_pieces(rt: HostRuntime) -> Result<(), Fail> {
    let alloc = rt.alloc();
    for (text, want) in REQUESTS {
        for piece in [1, 2, 3, 7, 1000] {
            let shown = read_all(alloc, text, piece)?;
            assert_eq!(rt; shown.as_str(), want, "at {text} in pieces of {piece}");
        }
    }
    Ok(())
}

#[test]
fn a_request_is_read_in_any_two_pieces(rt: HostRuntime) -> Result<(), Fail> {
    let alloc = rt.alloc();
    for first in 1..33 {
        let mut pieces = Vec::new(alloc);
        pieces.push(first)?;
        let bytes = Bytes::of(alloc, b"GET /health HTTP/1.1\r\nhost: x\r\n\r\n")?;
        let mut source = MemSource::of(bytes, pieces, Vec::new(alloc));
        let shown = read_source(alloc, &mut source)?;
        assert_eq!(rt;
            shown.as_str(),
            "GET /health 1 [] open, end",
            "cut after {first} bytes"
        );
    }
    Ok(())
}

#[test]
fn a_body_of_1048576_bytes_is_read(rt: HostRuntime) -> Result<(), Fail> {
    let alloc = rt.alloc();
    let body = "a".repeat(alloc, 1048576)?;
    let text = format!(in alloc; "POST / HTTP/1.1\r\ncontent-length: 1048576\r\n\r\n{body}")?;
    let mut source = source_of(alloc, text.as_str(), 4096)?;
    let mut kept = Kept::empty(alloc);
    let count = match read_message(alloc, &mut source, &mut kept) {
        Ok(Some(message)) => message.body.as_slice().len(),
        _ => 0,
    };
    assert_eq!(rt; count, 1048576);
    Ok(())
}

// A head of so many bytes, and the empty line.
fn long_head(alloc: Global, count: usize) -> Result<String, Memory> {
    let value = "a".repeat(alloc, count)?;
    Ok(format!(in alloc; "GET / HTTP/1.1\r\nx: {value}\r\n\r\n")?)
}

#[test]
fn a_head_has_at_most_16384_bytes_and_100_fields(rt: HostRuntime) -> Result<(), Fail> {
    let alloc = rt.alloc();
    let longest = read_all(alloc, long_head(alloc, 16361)?.as_str(), 5000)?;
    assert_eq!(rt; longest.as_str(), "GET / 1 [] open, end");
    let longer = read_all(alloc, long_head(alloc, 16362)?.as_str(), 5000)?;
    assert_eq!(rt; longer.as_str(), "long 16385");
    let lines = "a: b\r\n".repeat(alloc, 100)?;
    let most = format!(in alloc; "GET / HTTP/1.1\r\n{lines}\r\n")?;
    assert_eq!(rt;
        read_all(alloc, most.as_str(), 99)?.as_str(),
        "GET / 100 [] open, end"
    );
    let more = format!(in alloc; "GET / HTTP/1.1\r\n{lines}c: d\r\n\r\n")?;
    assert_eq!(rt; read_all(alloc, more.as_str(), 99)?.as_str(), "bad 624");
    Ok(())
}

#[test]
fn a_failed_read_loses_nothing(rt: HostRuntime) -> Result<(), Fail> {
    let alloc = rt.alloc();
    let mut pieces = Vec::new(alloc);
    pieces.push(7)?;
    let mut failing = Vec::new(alloc);
    failing.push(1)?;
    let bytes = Bytes::of(alloc, b"GET / HTTP/1.1\r\n\r\n")?;
    let mut source = MemSource::of(bytes, pieces, failing);
    let mut kept = Kept::empty(alloc);
    let first = read_next(alloc, &mut source, &mut kept)?;
    assert_eq!(rt; first.as_str(), "failed");
    let second = read_next(alloc, &mut source, &mut kept)?;
    assert_eq!(rt; second.as_str(), "GET / 0 [] open, ");
    Ok(())
}

#[test]
fn responses_are_written_in_order(rt: HostRuntime) -> Result<(), Fail> {
    let alloc = rt.alloc();
    let up = Response {
        status: 200,
        allow: None,
        cache_control: None,
        close: false,
        body: Text::of(alloc, "{\"status\":\"up\"}")?,
    };
    let bytes = write_message(alloc, &up)?;
    assert!(rt;
        bytes.as_slice()
            == "HTTP/1.1 200 OK\r\ncontent-type: application/json\r\ncontent-length: 15\r\n\r\n{\"status\":\"up\"}".as_bytes()
    );
    let shown = read_reply(alloc, bytes.as_slice(), 10)?;
    assert_eq!(rt; shown.as_str(), "200 - - [{\"status\":\"up\"}]");
    let last = Response {
        status: 405,
        allow: Some(Text::of(alloc, "POST")?),
        cache_control: Some(Text::of(alloc, "no-store")?),
        close: true,
        body: Text::of(alloc, "")?,
    };
    let bytes = write_message(alloc, &last)?;
    assert!(rt;
        bytes.as_slice()
            == "HTTP/1.1 405 Method Not Allowed\r\ncontent-type: application/json\r\ncontent-length: 0\r\nallow: POST\r\ncache-control: no-store\r\nconnection: close\r\n\r\n".as_bytes()
    );
    let shown = read_reply(alloc, bytes.as_slice(), 10)?;
    assert_eq!(rt; shown.as_str(), "405 no-store - []");
    Ok(())
}

#[test]
fn calls_are_written_and_read_back(rt: HostRuntime) -> Result<(), Fail> {
    let alloc = rt.alloc();
    let id = Field {
        name: Text::of(alloc, "X-User")?,
        value: Bytes::of(alloc, b"u1")?,
    };
    assert!(rt; can_be_sent(&id) && is_target(b"/graphql") && is_field_value(b"localhost:4001"));
    assert!(rt; !is_target(b"/a b") && !is_target(b"") && !is_field_value(b"a\r\nb: c"));
    let bytes = write_call(alloc, "/graphql", "localhost:4001", &Some(id), b"{}")?;
    assert!(rt;
        bytes.as_slice()
            == "POST /graphql HTTP/1.1\r\nhost: localhost:4001\r\ncontent-type: application/json\r\naccept: application/json\r\nX-User: u1\r\ncontent-length: 2\r\nconnection: close\r\n\r\n{}".as_bytes()
    );
    let text = String::from_utf8_lossy(alloc, bytes.as_slice())?;
    let shown = read_all(alloc, text.as_str(), 10)?;
    assert_eq!(rt; shown.as_str(), "POST /graphql 6 [{}] close, end");
    Ok(())
}

#[test]
fn fields_that_frame_a_body_are_not_sent(rt: HostRuntime) -> Result<(), Fail> {
    let alloc = rt.alloc();
    let table = [
        ("x-user", "u 1", true),
        ("X_User", "", true),
        ("Content-Length", "2", false),
        ("transfer-encodinG", "x", false),
        ("x user", "u", false),
        ("", "u", false),
        ("x-user", "u\r\nhost: y", false),
        ("x-user", "u\n", false),
    ];
    for (name, value, want) in table {
        let field = Field {
            name: Text::of(alloc, name)?,
            value: Bytes::of(alloc, value.as_bytes())?,
        };
        assert_eq!(rt; can_be_sent(&field), want, "at {name}: {value}");
    }
    Ok(())
}

// Status, Cache-Control, Age and body of a reply; a text that is not there is a dash.
fn reply_text(alloc: Global, reply: &Reply) -> Result<String, Memory> {
    let status = reply.status;
    let cache_control = match &reply.cache_control {
        Some(text) => text.as_str(),
        None => "-",
    };
    let age = match &reply.age {
        Some(text) => text.as_str(),
        None => "-",
    };
    let body = String::from_utf8_lossy(alloc, reply.body.as_slice())?;
    Ok(format!(in alloc; "{status} {cache_control} {age} [{body}]")?)
}

// The reply that the bytes are, in pieces, or the fault.
fn read_reply(alloc: Global, text: &[u8], piece: u64) -> Result<String, Memory> {
    let mut pieces = Vec::new(alloc);
    for _ in 0..256 {
        pieces.push(piece)?;
    }
    let mut source = MemSource::of(Bytes::of(alloc, text)?, pieces, Vec::new(alloc));
    match read_reply_message(alloc, &mut source) {
        Ok(reply) => reply_text(alloc, &reply),
        Err(fault) => fault_text(alloc, fault),
    }
}

#[test]
fn replies_are_read_in_any_pieces(rt: HostRuntime) -> Result<(), Fail> {
    let alloc = rt.alloc();
    for (text, want) in REPLIES {
        for piece in [1, 2, 3, 7, 1000] {
            let shown = read_reply(alloc, text.as_bytes(), piece)?;
            assert_eq!(rt; shown.as_str(), want, "at {text} in pieces of {piece}");
        }
    }
    let other = b"HTTP/1.1 200 OK\r\ncache-control: \xff\r\nage: 7\r\ncache-control: a\r\n\r\n{}";
    let shown = read_reply(alloc, other.as_slice(), 1000)?;
    assert_eq!(rt; shown.as_str(), "200 ?, a 7 [{}]");
    Ok(())
}

#[test]
fn what_no_chunk_can_be_is_bad(rt: HostRuntime) -> Result<(), Fail> {
    let alloc = rt.alloc();
    for chunks in [
        "x",
        "2\n{}",
        "2\r\n{}x",
        "2\r\n{}\rx",
        "\r\n",
        "-1\r\n",
        "11111111111111111\r\n",
    ] {
        let text = format!(in alloc;
            "HTTP/1.1 200 OK\r\ntransfer-encoding: chunked\r\n\r\n{chunks}"
        )?;
        let count = text.len();
        let want = format!(in alloc; "bad {count}")?;
        let shown = read_reply(alloc, text.as_str().as_bytes(), 1000)?;
        assert_eq!(rt; shown.as_str(), want.as_str(), "at {chunks}");
    }
    Ok(())
}

// Whether a reply of this head and 4194305 bytes is too long.
fn is_too_long(alloc: Global, head: &str) -> Result<bool, Memory> {
    let body = "a".repeat(alloc, 4194305)?;
    let text = format!(in alloc; "{head}{body}")?;
    let mut source = source_of(alloc, text.as_str(), 4096)?;
    match read_reply_message(alloc, &mut source) {
        Err(WireFault::TooLong(count)) => Ok(count > 4194304),
        _ => Ok(false),
    }
}

#[test]
fn a_body_of_no_declared_length_has_a_limit(rt: HostRuntime) -> Result<(), Fail> {
    let alloc = rt.alloc();
    assert!(rt; is_too_long(alloc, "HTTP/1.1 200 OK\r\n\r\n")?);
    let chunked = "HTTP/1.1 200 OK\r\ntransfer-encoding: chunked\r\n\r\n400001\r\n";
    assert!(rt; is_too_long(alloc, chunked)?);
    Ok(())
}

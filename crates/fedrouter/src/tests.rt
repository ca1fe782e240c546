use crate::run::run;
use flow_base::{Bytes, MemSink, MemSource, Memory};
use std::alloc::Global;
use std::io;
use std::io::ErrorKind;
use std::process::ExitCode;
use std::test::*;

// Whether the words after the program's name, with this input, give this output and status.
fn gives(alloc: Global, line: &str, input: &str, output: &str, status: u8) -> Result<bool, Memory> {
    let mut words = Vec::new(alloc);
    words.push(String::from_str(alloc, "fedrouter")?)?;
    for word in line.split_whitespace() {
        words.push(String::from_str(alloc, word)?)?;
    }
    let bytes = Bytes::of(alloc, input.as_bytes())?;
    let mut source = MemSource::of(bytes, Vec::new(alloc), Vec::new(alloc));
    let mut sink = MemSink::of(alloc, 4096, Vec::new(alloc), Vec::new(alloc))?;
    let got = run(alloc, Ok(words.into_iter()), &mut source, &mut sink);
    Ok(got == ExitCode::from(status) && sink.written() == output.as_bytes())
}

#[test]
fn words_pick_the_command(rt: HostRuntime) -> Result<(), Fail> {
    let alloc = rt.alloc();
    let script = "begin 1\nlook 1 - 0 a T r s\nsettle 0.0 60 0 public - v\nlook 1 - 0 a T r s\n";
    let replies = "epoch 0\n0 miss 0.0\n2 stored\n3 hit 2 v\n";
    let small = "steps 4 requests 4 voids 0 hits 3 misses 21 epoch 0 events 66\n";
    let table = [
        ("rehearse 64 4096", script, replies, 0),
        ("rehearse 64 4096", "", "", 0),
        ("rehearse 64 4096", "go\n", "line 1 refused word\n", 5),
        ("rehearse 7 4096", script, "words refused\n", 2),
        ("rehearse 08 16", script, "words refused\n", 2),
        ("rehearse 64 268435457", script, "words refused\n", 2),
        ("rehearse 64", script, "words refused\n", 2),
        ("", script, "words refused\n", 2),
        ("ask", "{}", "case refused member schema\n", 5),
        ("ask now", "{}", "words refused\n", 2),
        ("workload 4", "", small, 0),
        ("workload 0", "", "words refused\n", 2),
        ("workload 100001", "", "words refused\n", 2),
        ("workload", "", "words refused\n", 2),
        ("--version", script, "fedrouter 0.1.0\n", 0),
    ];
    for (line, input, output, status) in table {
        assert!(rt; gives(alloc, line, input, output, status)?);
    }
    Ok(())
}

// Whether words that the system does not give for this reason have this output and status.
fn refuses(alloc: Global, kind: ErrorKind, output: &str, status: u8) -> Result<bool, Memory> {
    let mut source = MemSource::of(
        Bytes::of(alloc, b"tally\n")?,
        Vec::new(alloc),
        Vec::new(alloc),
    );
    let mut sink = MemSink::of(alloc, 4096, Vec::new(alloc), Vec::new(alloc))?;
    let got = run(alloc, Err(io::Error::from(kind)), &mut source, &mut sink);
    Ok(got == ExitCode::from(status) && sink.written() == output.as_bytes())
}

#[test]
fn words_may_be_missing(rt: HostRuntime) -> Result<(), Fail> {
    let alloc = rt.alloc();
    assert!(rt; refuses(alloc, ErrorKind::InvalidData, "words refused\n", 2)?);
    assert!(rt; refuses(alloc, ErrorKind::OutOfMemory, "", 9)?);
    Ok(())
}

// So many of one letter.
fn letters(alloc: Global, count: usize) -> Result<String, Memory> {
    let mut text = String::new(alloc);
    for _ in 0..count {
        text.push('x')?;
    }
    Ok(text)
}

// Whether a piece with a selection of so many letters is asked with this reply.
fn asks(alloc: Global, count: usize, reply: &str) -> Result<bool, Memory> {
    let selection = letters(alloc, count)?;
    let script = format!(in alloc; "begin 1\nlook 1 - 0 a T r {selection}\n")?;
    let output = format!(in alloc; "epoch 0\n{reply}\n")?;
    gives(
        alloc,
        "rehearse 64 4096",
        script.as_str(),
        output.as_str(),
        0,
    )
}

// Whether a piece with these tags is settled with this reply.
fn settles(alloc: Global, tags: &str, reply: &str) -> Result<bool, Memory> {
    let script = format!(in alloc;
        "begin 1\nlook 1 - 0 a T r s\nsettle 0.0 60 0 public {tags} v\n"
    )?;
    let output = format!(in alloc; "epoch 0\n0 miss 0.0\n{reply}\n")?;
    gives(
        alloc,
        "rehearse 64 4096",
        script.as_str(),
        output.as_str(),
        0,
    )
}

#[test]
fn keys_and_tags_have_their_limits(rt: HostRuntime) -> Result<(), Fail> {
    let alloc = rt.alloc();
    assert!(rt; asks(alloc, 16381, "0 miss 0.0")?);
    assert!(rt; asks(alloc, 16382, "bypass wide 16385 16384")?);
    assert!(rt; settles(alloc, letters(alloc, 128)?.as_str(), "2 stored")?);
    assert!(rt; settles(alloc, letters(alloc, 129)?.as_str(), "2 unstorable tagform")?);
    assert!(rt; settles(alloc, "a,b,c,d,e,f,g,h,i,j,k,l,m,n,o,p,a", "2 stored")?);
    assert!(rt;
        settles(
            alloc,
            "a,b,c,d,e,f,g,h,i,j,k,l,m,n,o,p,q",
            "2 unstorable tagcount 17"
        )?
    );
    Ok(())
}

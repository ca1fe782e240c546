use crate::rehearse;
use cache_terms::Limits;
use flow_base::{Bytes, MemSink, MemSource, Memory};
use std::alloc::Global;
use std::test::*;

/// A script, what is written for it, and the status.
#[derive(Clone, Copy)]
struct Row {
    events: u64,
    bytes: u64,
    script: &'static str,
    output: &'static str,
    status: u8,
}

/// What was answered and written.
#[derive(Drop)]
struct Given {
    status: u8,
    written: Vec<u8>,
}

/// Rehearses a script of which each read gives at most `piece` bytes. The reads and writes of these numbers
/// fail.
fn play(
    alloc: Global,
    limits: Limits,
    script: Vec<u8>,
    piece: u64,
    failing_reads: Vec<u64>,
    failing_writes: Vec<u64>,
) -> Result<Given, Memory> {
    if limits.events < 8 || limits.events > 65536 || limits.bytes < 16 || limits.bytes > 268435456 {
        return Err(Memory);
    }
    let pieces = vec![in alloc; piece; 400]?;
    let mut source = MemSource::of(Bytes::from_vec(script), pieces, failing_reads);
    let mut sink = MemSink::of(alloc, 4096, Vec::new(alloc), failing_writes)?;
    let status = rehearse(alloc, limits, &mut source, &mut sink);
    let written = Vec::from_slice(alloc, sink.written())?;
    Ok(Given { status, written })
}

fn plays(alloc: Global, row: &Row, piece: u64) -> bool {
    let limits = Limits {
        events: row.events,
        bytes: row.bytes,
    };
    let Ok(script) = Vec::from_slice(alloc, row.script.as_bytes()) else {
        return false;
    };
    match play(
        alloc,
        limits,
        script,
        piece,
        Vec::new(alloc),
        Vec::new(alloc),
    ) {
        Err(_) => false,
        Ok(given) => {
            given.status == row.status && given.written.as_slice() == row.output.as_bytes()
        }
    }
}

#[test]
fn worked_examples(rt: HostRuntime) {
    let alloc = rt.alloc();
    let rows = [
        // An empty script.
        Row {
            events: 64,
            bytes: 4096,
            script: "",
            output: "",
            status: 0,
        },
        // A miss, a fill, a hit.
        Row {
            events: 64,
            bytes: 4096,
            script: "begin 1\nlook 1 - 0 a T r s\nsettle 0.0 60 0 public - v\nlook 1 - 0 a T r s\n",
            output: "epoch 0\n0 miss 0.0\n2 stored\n3 hit 2 v\n",
            status: 0,
        },
        // A tag learnt late.
        Row {
            events: 64,
            bytes: 4096,
            script: "begin 1\nlook 1 - 0 products Product p1 s\nvoid 2 tag products hot\nsettle 0.0 60 0 public hot,x v\nlook 1 - 0 products Product p1 s\nsettle 0.1 60 0 public hot,x v\n",
            output: "epoch 0\n0 miss 0.0\n2 voided 0\n3 void 2\n4 miss 0.1\n6 stored\n",
            status: 0,
        },
        // Two tickets on one key.
        Row {
            events: 64,
            bytes: 4096,
            script: "begin 1\nbegin 2\nlook 1 - 0 a T r s\nlook 2 - 0 a T r s\nsettle 0.1 60 0 public - y\nsettle 0.0 60 0 public - x\nlook 1 - 0 a T r s\n",
            output: "epoch 0\nepoch 0\n0 miss 0.0\n2 miss 0.1\n4 stored\n5 stored\n6 hit 5 x\n",
            status: 0,
        },
        // One type name in two subgraphs.
        Row {
            events: 64,
            bytes: 4096,
            script: "begin 1\nlook 1 - 0 a T r s\nsettle 0.0 60 0 public - x\nlook 1 - 0 b T r s\nsettle 0.1 60 0 public - y\nvoid 1 type a T\nlook 1 - 0 a T r s\nlook 1 - 0 b T r s\n",
            output: "epoch 0\n0 miss 0.0\n2 stored\n3 miss 0.1\n5 stored\n6 voided 1\n7 miss 0.2\n9 hit 5 y\n",
            status: 0,
        },
        // The boundary of freshness.
        Row {
            events: 64,
            bytes: 4096,
            script: "begin 1\nlook 1 - 1000 a T r s\nsettle 0.0 60 10 public - v\nlook 1 - 50999 a T r s\nlook 1 - 51000 a T r s\nlook 1 - 999 a T r s\n",
            output: "epoch 0\n0 miss 0.0\n2 stored\n3 hit 2 v\n4 miss 0.1\n6 miss 0.2\n",
            status: 0,
        },
        // Private records.
        Row {
            events: 64,
            bytes: 4096,
            script: "begin 1\nlook 1 A 0 a T r s\nsettle 0.0 60 0 private - pa\nlook 1 A 0 a T r s\nlook 1 B 0 a T r s\nlook 1 - 0 a T r s\nsettle 0.2 60 0 public - pub\nlook 1 A 0 a T r s\nlook 1 B 0 a T r s\n",
            output: "epoch 0\n0 miss 0.0\n2 stored\n3 hit 2 pa\n4 miss 0.1\n6 miss 0.2\n8 stored\n9 hit 2 pa\n10 hit 8 pub\n",
            status: 0,
        },
        // Verdicts.
        Row {
            events: 64,
            bytes: 4096,
            script: "begin 1\nlook 1 - 0 a T r s\nreply 0.0 200 - - v s-maxage=0, max-age=60\nlook 1 - 0 a T r s\nreply 0.1 200 - - v max-age=60, private\n",
            output: "epoch 0\n0 miss 0.0\n2 unstorable stale 0 0\n3 miss 0.1\n5 unstorable anonymous\n",
            status: 0,
        },
        // A ticket twice, and a last line without its line feed.
        Row {
            events: 64,
            bytes: 4096,
            script: "begin 1\nlook 1 - 0 a T r s\nsettle 0.0 60 0 public - v\nsettle 0.0 60 0 public - v",
            output: "epoch 0\n0 miss 0.0\n2 stored\nline 4 refused ticket\n",
            status: 5,
        },
        // A full journal turns.
        Row {
            events: 8,
            bytes: 4096,
            script: "begin 1\nlook 1 - 0 a T r1 s\nsettle 0.0 60 0 public - v\nlook 1 - 0 a T r2 s\nlook 1 - 0 a T r3 s\nbegin 2\nsettle 0.1 60 0 public - v\nlook 1 - 0 a T r1 s\nlook 2 - 0 a T r1 s\n",
            output: "epoch 0\n0 miss 0.0\n2 stored\n3 miss 0.1\nbypass full 5 1 3 8\nepoch 1\nover 0 1\nbypass over 0 1\n0 miss 1.0\n",
            status: 0,
        },
        // Invalidations turn the epoch.
        Row {
            events: 8,
            bytes: 4096,
            script: "void 1 sub a\nvoid 1 sub a\nvoid 1 sub a\nvoid 1 sub a\nvoid 1 sub a\nvoid 1 sub a\nvoid 1 sub a\nvoid 1 sub a\nvoid 1 sub a\n",
            output: "0 voided 0\n1 voided 0\n2 voided 0\n3 voided 0\n4 voided 0\n5 voided 0\n6 voided 0\n7 voided 0\nturned 1 0 voided 0\n",
            status: 0,
        },
        // Bytes that just fit.
        Row {
            events: 64,
            bytes: 16,
            script: "begin 1\nlook 1 - 0 a T r1 s\nsettle 0.0 60 0 public - 0123456789\nlook 1 - 0 a T r2 s\nsettle 0.1 60 0 public - abcdefghij\nlook 1 - 0 a T r3 s\nsettle 0.2 60 0 public - abcdef\nbegin 2\n",
            output: "epoch 0\n0 miss 0.0\n2 stored\n3 miss 0.1\n5 noroom 10 10 16\n6 miss 0.2\n8 stored\nepoch 1\n",
            status: 0,
        },
    ];
    for row in &rows {
        assert!(rt; plays(alloc, row, 4096));
        assert!(rt; plays(alloc, row, 1));
    }
}

#[test]
fn further_lines(rt: HostRuntime) {
    let alloc = rt.alloc();
    let rows = [
        // A failed fetch, and how much of the journal is used.
        Row {
            events: 64,
            bytes: 4096,
            script: "begin 1\nlook 1 - 0 a T r s\nfail 0.0\ntally\n",
            output: "epoch 0\n0 miss 0.0\n2 failed\nepoch 0 events 3 bytes 0 open 0\n",
            status: 0,
        },
        // A reply of another status than 200.
        Row {
            events: 64,
            bytes: 4096,
            script: "begin 1\nlook 1 - 0 a T r s\nreply 0.0 503 - - v max-age=60\n",
            output: "epoch 0\n0 miss 0.0\n2 unstorable status 503\n",
            status: 0,
        },
        // Of two invalidations that cover a fetch the later one counts.
        Row {
            events: 64,
            bytes: 4096,
            script: "begin 1\nlook 1 - 0 a T r s\nvoid 2 sub a\nvoid 2 type a T\nsettle 0.0 60 0 public - v\n",
            output: "epoch 0\n0 miss 0.0\n2 voided 0\n3 voided 0\n4 void 3\n",
            status: 0,
        },
        // A fetch that was covered is void, whether there is room for it or not.
        Row {
            events: 64,
            bytes: 16,
            script: "begin 1\nlook 1 - 0 a T r s\nvoid 2 sub a\nsettle 0.0 60 0 public - 0123456789abcdefg\n",
            output: "epoch 0\n0 miss 0.0\n2 voided 0\n3 void 2\n",
            status: 0,
        },
        // A public piece answers where the private one is stale.
        Row {
            events: 64,
            bytes: 4096,
            script: "begin 1\nlook 1 A 0 a T r s\nsettle 0.0 1 0 private - p\nlook 1 - 0 a T r s\nsettle 0.1 60 0 public - q\nlook 1 A 999 a T r s\nlook 1 A 1000 a T r s\n",
            output: "epoch 0\n0 miss 0.0\n2 stored\n3 miss 0.1\n5 stored\n6 hit 2 p\n7 hit 5 q\n",
            status: 0,
        },
        // A piece that was superseded is not counted.
        Row {
            events: 64,
            bytes: 4096,
            script: "begin 1\nlook 1 - 0 a T r s\nlook 1 - 0 a T r s\nsettle 0.0 60 0 public - x\nsettle 0.1 60 0 public - y\nvoid 1 sub a\n",
            output: "epoch 0\n0 miss 0.0\n2 miss 0.1\n4 stored\n5 stored\n6 voided 1\n",
            status: 0,
        },
        // Blank lines and comments are counted.
        Row {
            events: 64,
            bytes: 4096,
            script: "begin 1\n\n# a comment\nlook 2 - 0 a T r s\nbegin 2\n",
            output: "epoch 0\nline 4 refused who\n",
            status: 5,
        },
        // A carriage return belongs to the last word.
        Row {
            events: 64,
            bytes: 4096,
            script: "begin 1\nlook 1 - 0 a T r s\nsettle 0.0 60 0 public - v\r\nlook 1 - 0 a T r s\nbegin 1\r\n",
            output: "epoch 0\n0 miss 0.0\n2 stored\n3 hit 2 v\r\nline 5 refused word\n",
            status: 5,
        },
    ];
    for row in &rows {
        assert!(rt; plays(alloc, row, 4096));
    }
}

const SIX: &str =
    "begin 1\nlook 1 - 0 a T r s\nsettle 0.0 60 0 public - v\nlook 1 - 0 a T r s\nvoid 1 sub a\ntally\n";

const SIX_OUT: &[u8] =
    b"epoch 0\n0 miss 0.0\n2 stored\n3 hit 2 v\n4 voided 1\nepoch 0 events 5 bytes 1 open 0\n";

/// How the six lines are played where one read or one write fails. The script comes in pieces of 20 bytes.
fn fails(alloc: Global, failing_reads: Vec<u64>, failing_writes: Vec<u64>) -> Option<Given> {
    let limits = Limits {
        events: 64,
        bytes: 4096,
    };
    let Ok(script) = Vec::from_slice(alloc, SIX.as_bytes()) else {
        return None;
    };
    play(alloc, limits, script, 20, failing_reads, failing_writes).ok()
}

fn is_unread(alloc: Global, read: u64) -> bool {
    let Ok(failing) = vec![in alloc; read; 1] else {
        return false;
    };
    match fails(alloc, failing, Vec::new(alloc)) {
        None => false,
        Some(given) => given.status == 6 && given.written.is_empty(),
    }
}

/// Whether the sink's failure at the write of this number is answered, and the replies before it are written.
fn is_cut(alloc: Global, write: u64) -> bool {
    let Ok(failing) = vec![in alloc; write; 1] else {
        return false;
    };
    let Some(given) = fails(alloc, Vec::new(alloc), failing) else {
        return false;
    };
    let lines = given.written.iter().filter(|b| **b == b'\n').count();
    given.status == 7 && lines as u64 == write && SIX_OUT.starts_with(&given.written)
}

#[test]
fn each_read_and_each_write_fails(rt: HostRuntime) {
    let alloc = rt.alloc();
    for read in 0..6u64 {
        assert!(rt; is_unread(alloc, read));
    }
    for write in 0..6u64 {
        assert!(rt; is_cut(alloc, write));
    }
}

/// Whether a script of these bytes has this status, and this is written.
fn is_sized(alloc: Global, script: Vec<u8>, output: &[u8], status: u8) -> bool {
    let limits = Limits {
        events: 64,
        bytes: 4096,
    };
    match play(
        alloc,
        limits,
        script,
        4096,
        Vec::new(alloc),
        Vec::new(alloc),
    ) {
        Err(_) => false,
        Ok(given) => given.status == status && given.written.as_slice() == output,
    }
}

#[test]
fn the_longest_script_and_one_of_a_byte_more(rt: HostRuntime) {
    let alloc = rt.alloc();
    let longest = vec![in alloc; b'#'; 1_048_576].unwrap_or(Vec::new(alloc));
    assert!(rt; longest.len() == 1_048_576);
    assert!(rt; is_sized(alloc, longest, b"", 0));
    let longer = vec![in alloc; b'#'; 1_048_577].unwrap_or(Vec::new(alloc));
    assert!(rt; is_sized(alloc, longer, b"script refused\n", 5));
    let no_text = vec![in alloc; 0xffu8; 1].unwrap_or(Vec::new(alloc));
    assert!(rt; is_sized(alloc, no_text, b"script refused\n", 5));
}

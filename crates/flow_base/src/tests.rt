use super::*;
use std::alloc::Global;
use std::cmp::Ordering;
use std::collections::HashSet;
use std::test::Fail;

// A source of "input" whose reads give `piece` bytes each, and whose read `failing` fails.
fn source_of(alloc: Global, piece: u64, failing: u64) -> Result<MemSource, Memory> {
    let mut pieces = Vec::new(alloc);
    for _ in 0..8 {
        pieces.push(piece)?;
    }
    let mut failures = Vec::new(alloc);
    failures.push(failing)?;
    Ok(MemSource::of(Bytes::of(alloc, b"input")?, pieces, failures))
}

#[test]
fn input_comes_in_any_pieces(rt: HostRuntime) -> Result<(), Fail> {
    let alloc = rt.alloc();
    let table = [
        (1, 9, 5, Ok(5)),
        (2, 9, 5, Ok(5)),
        (9, 9, 5, Ok(5)),
        (0, 9, 9, Ok(5)),
        (1, 3, 5, Err(TakeFault::Failed)),
        (1, 5, 5, Err(TakeFault::Failed)),
        (1, 9, 4, Err(TakeFault::TooLong(5))),
        (9, 9, 0, Err(TakeFault::TooLong(5))),
    ];
    for (piece, failing, limit, want) in table {
        let mut source = source_of(alloc, piece, failing)?;
        let taken = take_all(alloc, &mut source, limit).map(|bytes| bytes.len());
        assert_eq!(rt; taken, want, "in pieces of {piece}");
    }
    Ok(())
}

// A sink for 8 bytes whose writes take one byte each, and whose write `failing` fails.
fn sink_of(alloc: Global, failing: u64) -> Result<MemSink, Memory> {
    let mut pieces = Vec::new(alloc);
    for _ in 0..8 {
        pieces.push(1)?;
    }
    let mut failures = Vec::new(alloc);
    failures.push(failing)?;
    MemSink::of(alloc, 8, pieces, failures)
}

#[test]
fn output_is_a_front_where_a_write_fails(rt: HostRuntime) -> Result<(), Fail> {
    let alloc = rt.alloc();
    let table = [
        ("output", 9, Ok(()), "output"),
        ("", 0, Ok(()), ""),
        ("output", 3, Err(Failed), "out"),
        ("longer output", 99, Err(Failed), "longer o"),
    ];
    for (text, failing, want, written) in table {
        let mut sink = sink_of(alloc, failing)?;
        assert_eq!(rt; put_all(&mut sink, text.as_bytes()), want, "at {text}");
        assert!(rt; sink.written() == written.as_bytes(), "at {text}");
    }
    Ok(())
}

#[test]
fn texts_are_seen_by_their_bytes(rt: HostRuntime) -> Result<(), Fail> {
    let alloc = rt.alloc();
    let text = Text::of(alloc, "é")?;
    let copy = text.copy()?;
    assert_eq!(rt; copy.len(), 2);
    assert_eq!(rt; copy.as_str(), "é");
    assert!(rt; copy == text);
    assert!(rt; Text::of(alloc, "ea")? < copy);
    assert_eq!(rt;
        Text::of(alloc, "e")?.cmp(&Text::of(alloc, "ea")?),
        Ordering::Less
    );
    let mut seen = HashSet::new(alloc);
    assert!(rt; seen.insert(text)?);
    assert!(rt; !seen.insert(copy)?);
    Ok(())
}

#[test]
fn a_clock_gives_its_moments_and_then_the_last(rt: HostRuntime) -> Result<(), Fail> {
    let alloc = rt.alloc();
    let mut moments = Vec::new(alloc);
    for moment in [5, 3, 9] {
        moments.push(moment)?;
    }
    let mut clock = ListClock::of(moments);
    for want in [5, 3, 9, 9, 9] {
        assert_eq!(rt; clock.now_ms(), want);
    }
    let mut stopped = ListClock::of(Vec::new(alloc));
    assert_eq!(rt; stopped.now_ms(), 0);
    assert_eq!(rt; stopped.now_ms(), 0);
    Ok(())
}

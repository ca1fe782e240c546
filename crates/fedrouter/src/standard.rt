ghost use Rattle.std.specs.Prelude.{◌≡◌, ◌≢◌, ◌<◌, ◌≤◌, take, length, IfSome, IfNone};
ghost use Rattle.std.specs.Io.KnownBytes.{Keeps, Consumes, Appends, IsAtEnd};

use flow_base::{Failed, Sink, Source};
use std::io;
use std::io::{ErrorKind, Print, Printer, Read, Write};

/// Standard input, or what stands in its place. It tells what bytes are left where its reader tells that, and
/// counts each read that fails. A read that a signal interrupts is tried again.
#[derive(Drop)]
pub struct StdSource<R: Drop> {
    reader: R,
    faults: u64,
}

/// Standard output, or what stands in its place. It tells what bytes were written where its writer tells that,
/// and counts each write that fails or takes nothing. A write that a signal interrupts is tried again.
#[derive(Drop)]
pub struct StdSink<W: Drop> {
    writer: W,
    faults: u64,
}

impl<R: Read + Drop> StdSource<R> {
    pub fn new<I: Input<Reader = R>>(rt: &I) -> StdSource<R>
        ensures { result.faults ≡ 0 }
    {
        let reader = rt.reader();
        StdSource { reader, faults: 0 }
    }
}

impl<'a, P: Print> StdSink<Printer<'a, P>> {
    pub fn new(rt: &'a P) -> StdSink<Printer<'a, P>>
        ensures { result.faults ≡ 0 }
    {
        let writer = io::writer(rt);
        StdSink { writer, faults: 0 }
    }
}

// One read, tried again where a signal interrupts it. None where it fails.
fn read_through<R: Read>(reader: &mut R, buf: &mut [u8]) -> Option<usize>
    ensures within { IfSome result (λ n. n ≤ length buf.new) }
    ensures bytes { IfSome result (λ n.
        Consumes (R.remaining reader.old) (R.remaining reader.new) (take n buf.new)) }
    ensures end { IfSome result (λ n.
        n ≡ 0 → 0 < length buf.new → IsAtEnd (R.remaining reader.new)) }
    ensures kept { IfNone result (Keeps (R.remaining reader.old) (R.remaining reader.new)) }
{
    for _ in 0..u64::MAX {
        match reader.read(buf) {
            Ok(count) => return Some(count),
            Err(error) => {
                if error.kind() != ErrorKind::Interrupted {
                    return None;
                }
            }
        }
    }
    None
}

// One write, tried again where a signal interrupts it. None where it fails or takes nothing.
fn write_through<W: Write>(writer: &mut W, bytes: &[u8]) -> Option<usize>
    ensures within { IfSome result (λ n. n ≤ length bytes.now) }
    ensures some { IfSome result (λ n. n ≢ 0) }
    ensures bytes { IfSome result (λ n.
        Appends (W.contents writer.old) (W.contents writer.new) (take n bytes.now)) }
    ensures kept { IfNone result (Keeps (W.contents writer.old) (W.contents writer.new)) }
{
    for _ in 0..u64::MAX {
        match writer.write(bytes) {
            Ok(0) => return None,
            Ok(count) => return Some(count),
            Err(error) => {
                if error.kind() != ErrorKind::Interrupted {
                    return None;
                }
            }
        }
    }
    None
}

impl<R: Read + Drop> Source for StdSource<R> {
    ghost left = { λ s. R.remaining s.reader };

    ghost faults = { λ s. s.faults };

    fn read(&mut self, buf: &mut [u8]) -> Result<usize, Failed> {
        match read_through(&mut self.reader, buf) {
            Some(count) => Ok(count),
            None => {
                self.faults = self.faults.saturating_add(1);
                Err(Failed)
            }
        }
    }
}

impl<W: Write + Drop> Sink for StdSink<W> {
    ghost written = { λ s. W.contents s.writer };

    ghost faults = { λ s. s.faults };

    fn write(&mut self, bytes: &[u8]) -> Result<usize, Failed> {
        if bytes.is_empty() {
            return Ok(0);
        }
        match write_through(&mut self.writer, bytes) {
            Some(count) => Ok(count),
            None => {
                self.faults = self.faults.saturating_add(1);
                Err(Failed)
            }
        }
    }
}

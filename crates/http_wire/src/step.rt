ghost use Rattle.std.specs.Prelude.{◌≢◌, ◌≤◌, length};
ghost use Rattle.httparse.specs.Grammar.{ChunkLine};
ghost use Rattle.httparse.specs.Spans.{IsChunkLineAt};
ghost use Rattle.http_wire.specs.Chunks.{BeginsChunks};

use crate::empty_line::empty_line_end;
use httparse::{Status, parse_chunk_size};

const LINE_FEED: u8 = 10;

const RETURN: u8 = 13;

// What has to come before another look at unfinished bytes can find a whole chunk.
#[derive(Clone, Copy)]
pub(crate) enum Want {
    // So many bytes in all.
    Bytes(usize),
    // The line feed that ends the chunk's line.
    LineFeed,
    // The empty line after the last chunk, which ends there or later.
    EmptyLine(usize),
}

// What stands first in the bytes of a chunked body.
#[derive(Clone, Copy)]
pub(crate) enum Step {
    // A chunk: where its data begins and ends, and where the next one begins.
    Chunk(usize, usize, usize),
    // The last chunk and the lines after it: where they end.
    Last(usize),
    // No chunk, whatever follows.
    Bad,
    // Not all of a chunk, nor before this has come.
    More(Want),
}

// Reads the chunk that stands first (RFC 9112, section 7.1).
pub(crate) fn step_of(bytes: &[u8]) -> Step
    ensures { BeginsChunks bytes.now result }
{
    match parse_chunk_size(bytes) {
        Err(_) => Step::Bad,
        Ok(Status::Partial) => Step::More(Want::LineFeed),
        Ok(Status::Complete((from, 0))) => last_step(bytes, from),
        Ok(Status::Complete((from, size))) => data_step(bytes, from, size),
    }
}

fn last_step(bytes: &[u8], from: usize) -> Step
    requires line { (l : ChunkLine) × IsChunkLineAt bytes.now from 0 l }
    ensures { BeginsChunks bytes.now result }
{
    match empty_line_end(bytes, from, bytes.len()) {
        None => Step::More(Want::EmptyLine(from)),
        Some(at) => Step::Last(at + 1),
    }
}

fn data_step(bytes: &[u8], from: usize, size: u64) -> Step
    requires line { (l : ChunkLine) × IsChunkLineAt bytes.now from size l }
    requires within { from ≤ length bytes.now }
    requires some { size ≢ 0 }
    ensures { BeginsChunks bytes.now result }
{
    let left = bytes.len() - from;
    if left as u64 <= size {
        return Step::More(Want::Bytes(from.saturating_add(size as usize).saturating_add(1)));
    }
    let to = from + size as usize;
    if bytes[to] != RETURN {
        return Step::Bad;
    }
    if to + 1 == bytes.len() {
        return Step::More(Want::Bytes(to + 2));
    }
    if bytes[to + 1] != LINE_FEED {
        return Step::Bad;
    }
    Step::Chunk(from, to, to + 2)
}

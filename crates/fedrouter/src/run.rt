ghost use Rattle.std.specs.Prelude.{◌≡◌, ℕ, List, Option, Some, None, IfOk, IsErr};
ghost use Rattle.std.specs.Vec.Iter.{into_iter_items};
ghost use Rattle.std.specs.Process.{exit_status};
ghost use Rattle.rehearsal.specs.Outside.{input, output, outside};
ghost use Rattle.fedrouter.specs.Words.{after_name, AreGiven};
ghost use Rattle.fedrouter.specs.Program.{ObeysGiven};

use crate::program::{NO_MEMORY, run_program};
use flow_base::{Memory, Sink, Source, Text};
use std::alloc::Global;
use std::env::Args;
use std::io;
use std::io::ErrorKind;
use std::process::ExitCode;

/// Runs the program on the words of the process, of which the first is its name, and answers the exit status.
///
/// The words after the name are those of the command line, all of them and in their order. Where one is not
/// UTF-8 they are the words of no command. Where memory runs out for them the status is 9, and nothing is
/// read or written.
pub fn run<S: Source, K: Sink>(
    alloc: Global,
    given: io::Result<Args>,
    source: &mut S,
    sink: &mut K,
) -> ExitCode
    ensures obeys { (words : Option (List (List ℕ))) × AreGiven given words × ObeysGiven words
        (outside (input (S.left source.old) (S.faults source.old))
        (output (K.written sink.old) (K.faults sink.old)))
        (exit_status result)
        (outside (input (S.left source.new) (S.faults source.new))
        (output (K.written sink.new) (K.faults sink.new))) }
{
    match words_of(alloc, given) {
        Ok(words) => ExitCode::from(run_program(alloc, &words, source, sink)),
        Err(Memory) => ExitCode::from(NO_MEMORY),
    }
}

// The words after the program's name, as texts. None at all stand for words that are not UTF-8.
fn words_of(alloc: Global, given: io::Result<Args>) -> Result<Vec<Text>, Memory>
    ensures words { IfOk result (λ words. AreGiven given (Some words.items)) }
    ensures short { IsErr result → AreGiven given None }
{
    match given {
        Ok(args) => texts_after_name(alloc, args),
        Err(error) => match error.kind() {
            ErrorKind::OutOfMemory => Err(Memory),
            _ => Ok(Vec::new(alloc)),
        },
    }
}

// All words but the first, as texts.
fn texts_after_name(alloc: Global, args: Args) -> Result<Vec<Text>, Memory>
    ensures { IfOk result (λ words. words.items ≡ after_name (into_iter_items args)) }
{
    let mut rest = args;
    let _name = rest.next();
    let mut words = Vec::new(alloc);
    while let Some(word) = rest.next() {
        words.push(Text::from_string(word)?)?;
    }
    Ok(words)
}

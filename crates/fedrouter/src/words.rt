ghost use Rattle.std.specs.Prelude.{ℕ, ◌≤◌, ◌↔◌, codes, IsTrue, MatchOption};
ghost use Rattle.script_lines.specs.Commands.{HasForm};
ghost use Rattle.fedrouter.specs.Words.{IsCommandOf, IsWithin};

use cache_terms::Limits;
use flow_base::Text;
use script_lines::number;

/// What the words of the command line ask for.
#[derive(Clone, Copy, Debug, PartialEq, Eq)]
pub enum Command {
    Rehearse(Limits),
    Ask,
    Workload(u64),
    Help,
    Version,
}

/// The command that the words ask for, if they ask for one.
pub fn read_words(words: &[Text]) -> Option<Command>
    ensures { IsCommandOf words.now result }
{
    if has_form(words, "rehearse", 3) {
        return read_rehearse(words);
    }
    if has_form(words, "ask", 1) {
        return Some(Command::Ask);
    }
    if has_form(words, "workload", 2) {
        return read_workload(words);
    }
    if has_form(words, "--help", 1) {
        return Some(Command::Help);
    }
    if has_form(words, "--version", 1) {
        return Some(Command::Version);
    }
    None
}

// Whether there are so many words, and the first is the verb.
fn has_form(words: &[Text], verb: &str, count: usize) -> bool
    requires { 1 ≤ count }
    ensures { IsTrue result ↔ HasForm words.now verb.now count }
{
    words.len() == count && words[0].as_str() == verb
}

fn read_rehearse(words: &[Text]) -> Option<Command>
    requires { HasForm words.now (codes "rehearse") 3 }
    ensures { IsCommandOf words.now result }
{
    let events = limit(words[1].as_str(), 8, 65536)?;
    let bytes = limit(words[2].as_str(), 16, 268435456)?;
    Some(Command::Rehearse(Limits { events, bytes }))
}

fn read_workload(words: &[Text]) -> Option<Command>
    requires { HasForm words.now (codes "workload") 2 }
    ensures { IsCommandOf words.now result }
{
    let steps = limit(words[1].as_str(), 1, 100000)?;
    Some(Command::Workload(steps))
}

// The number that the word is, where it lies from `least` to `most`.
fn limit(word: &str, least: u64, most: u64) -> Option<u64>
    ensures { MatchOption result
        ((n : ℕ) → IsWithin word.now least most n → ⊥)
        (λ n. IsWithin word.now least most n) }
{
    match number(word) {
        None => None,
        Some(count) => {
            if count < least {
                None
            } else if count > most {
                None
            } else {
                Some(count)
            }
        }
    }
}

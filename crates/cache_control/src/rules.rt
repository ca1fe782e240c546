ghost use Rattle.std.specs.Prelude.{◌≡◌, ◌≤◌, ◌==◌, [], ◌∷◌, length, not, reverse, unwrap_or};
ghost use Rattle.std.specs.Option.{option_map, option_or};
ghost use Rattle.std.specs.List.{before_first, take_while};
ghost use Rattle.cache_control.specs.Octets.{is_blank};
ghost use Rattle.cache_control.specs.Reading.{directives_of};
ghost use Rattle.cache_control.specs.Rules.{seconds_of, has_name, argument_seconds, first_seconds, trimmed};
ghost use Rattle.cache_control.specs.Seen.{seen_directive, seen_directives};
ghost use Rattle.cache_control.specs.Counting.{no_rules, with_directives, said};

use crate::read::{Directive, after_blanks, after_comma, is_blank, read_element};
use cache_terms::Verdict;

/// What the directives of a text say: the seconds of the first `s-maxage` and of the first `max-age`, and
/// whether there is a `private`, and a `no-store` or `no-cache`.
#[derive(Clone, Copy)]
pub(crate) struct Rules {
    shared: Option<u64>,
    max_age: Option<u64>,
    private: bool,
    no_store: bool,
}

/// What no directives say.
pub(crate) fn no_rules() -> Rules
    ensures { result ≡ no_rules }
{
    Rules {
        shared: None,
        max_age: None,
        private: false,
        no_store: false,
    }
}

/// What a text's directives say; None where it is no list of directives. Goes over its bytes once.
pub(crate) fn rules_of(text: &[u8]) -> Option<Rules>
    ensures { result ≡ option_map (with_directives no_rules) (directives_of text.now) }
{
    let mut rules = no_rules();
    let mut rest = text;
    loop {
        let element = read_element(rest)?;
        rules = noted(rules, &element.directive);
        if element.rest.is_empty() {
            return Some(rules);
        }
        rest = after_comma(element.rest)?;
    }
}

/// What the rules say of a reply of this age.
pub(crate) fn said(rules: Rules, age: u64) -> Verdict
    ensures { result ≡ said rules age }
{
    Verdict {
        lifetime: rules.shared.or(rules.max_age).unwrap_or(0),
        age,
        private: rules.private,
        no_store: rules.no_store,
    }
}

fn noted(rules: Rules, directive: &Option<Directive>) -> Rules
    ensures { result ≡ with_directives rules (seen_directives directive.now) }
{
    match directive {
        None => rules,
        Some(directive) => Rules {
            shared: first_seconds(rules.shared, b"s-maxage", directive),
            max_age: first_seconds(rules.max_age, b"max-age", directive),
            private: rules.private || has_name(directive, b"private"),
            no_store: rules.no_store
                || has_name(directive, b"no-store")
                || has_name(directive, b"no-cache"),
        },
    }
}

// The seconds known already, else those of the directive where it has the name.
fn first_seconds(known: Option<u64>, name: &[u8], directive: &Directive) -> Option<u64>
    ensures { result
        ≡ option_or known (first_seconds name.now (seen_directive directive.now ∷ [])) }
{
    if known.is_some() || !has_name(directive, name) {
        return known;
    }
    Some(argument_seconds(directive))
}

fn has_name(directive: &Directive, name: &[u8]) -> bool
    ensures { result ≡ has_name name.now (seen_directive directive.now) }
{
    directive.name.eq_ignore_ascii_case(name)
}

fn argument_seconds(directive: &Directive) -> u64
    ensures { result ≡ argument_seconds (seen_directive directive.now) }
{
    match directive.argument {
        None => 0,
        Some(digits) => seconds_of(digits).unwrap_or(0),
    }
}

/// The seconds that digits write, at most 2147483648; None where the text is not digits.
fn seconds_of(text: &[u8]) -> Option<u64>
    ensures { result ≡ seconds_of text.now }
{
    if text.is_empty() {
        return None;
    }
    let mut seconds = 0u64;
    for digit in text {
        if !digit.is_ascii_digit() {
            return None;
        }
        seconds = (seconds * 10 + (*digit - b'0') as u64).min(2147483648);
    }
    Some(seconds)
}

/// The seconds of an `Age`: those before the first comma, or 0 where there are none.
pub(crate) fn age_of(text: &[u8]) -> u64
    ensures { result
        ≡ unwrap_or (seconds_of (trimmed (before_first (λ byte. byte == 44) text.now))) 0 }
{
    seconds_of(trimmed(before_comma(text))).unwrap_or(0)
}

fn trimmed(text: &[u8]) -> &[u8]
    ensures { result.now ≡ trimmed text.now }
{
    let front = after_blanks(text);
    &front[..front.len() - end_blanks(front)]
}

fn end_blanks(text: &[u8]) -> usize
    ensures same { result ≡ length (take_while is_blank (reverse text.now)) }
    ensures within { result ≤ length text.now }
{
    text.iter()
        .rev()
        .take_while(|byte| is_blank(**byte))
        .count()
}

fn before_comma(text: &[u8]) -> &[u8]
    ensures { result.now ≡ before_first (λ byte. byte == 44) text.now }
{
    &text[..first_len(text)]
}

fn first_len(text: &[u8]) -> usize
    ensures same { result ≡ length (take_while (λ byte. not (byte == 44)) text.now) }
    ensures within { result ≤ length text.now }
{
    text.iter().take_while(|byte| **byte != b',').count()
}

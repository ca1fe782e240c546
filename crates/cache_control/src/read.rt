ghost use Rattle.std.specs.Prelude.{◌≡◌, ◌<◌, ◌≤◌, ◌+◌, false, length, IfSome};
ghost use Rattle.std.specs.Option.{option_map, option_copied};
ghost use Rattle.std.specs.List.{take_while};
ghost use Rattle.cache_control.specs.Octets.{is_blank, is_token_byte, is_quotable, after_blanks};
ghost use Rattle.cache_control.specs.Reading.{after_comma, token_len, quoted_len, take_argument, named, read_element};
ghost use Rattle.cache_control.specs.Seen.{seen_taken, seen_element};

/// A directive of a text, its argument with quotes taken off.
#[derive(Drop)]
pub(crate) struct Directive<'a> {
    pub(crate) name: &'a [u8],
    pub(crate) argument: Option<&'a [u8]>,
}

/// An argument with quotes taken off, and what follows it.
#[derive(Drop)]
pub(crate) struct Taken<'a> {
    value: &'a [u8],
    rest: &'a [u8],
}

/// The directive of an element, if it has one, and what follows it.
#[derive(Drop)]
pub(crate) struct Element<'a> {
    pub(crate) directive: Option<Directive<'a>>,
    pub(crate) rest: &'a [u8],
}

pub(crate) fn is_blank(byte: u8) -> bool
    ensures { result ≡ is_blank byte }
{
    byte == b' ' || byte == b'\t'
}

fn is_token_byte(byte: u8) -> bool
    ensures { result ≡ is_token_byte byte }
{
    byte.is_ascii_alphanumeric() || b"!#$%&'*+-.^_`|~".contains(&byte)
}

fn is_quotable(byte: u8) -> bool
    ensures { result ≡ is_quotable byte }
{
    byte == b'\t' || (b' ' <= byte && byte != 127)
}

fn blanks_len(text: &[u8]) -> usize
    ensures same { result ≡ length (take_while is_blank text.now) }
    ensures within { result ≤ length text.now }
{
    text.iter().take_while(|byte| is_blank(**byte)).count()
}

/// The text without the blanks at its front.
pub(crate) fn after_blanks(text: &[u8]) -> &[u8]
    ensures same { result.now ≡ after_blanks text.now }
    ensures shorter { length result.now ≤ length text.now }
{
    &text[blanks_len(text)..]
}

fn token_len(text: &[u8]) -> usize
    ensures same { result ≡ token_len text.now }
    ensures within { result ≤ length text.now }
{
    text.iter().take_while(|byte| is_token_byte(**byte)).count()
}

// How many bytes stand before the closing quote.
fn quoted_len(text: &[u8]) -> Option<usize>
    ensures same { result ≡ quoted_len false text.now }
    ensures within { IfSome result (λ n. n < length text.now) }
{
    let mut escaped = false;
    for (i, byte) in text.iter().enumerate() {
        if !escaped && *byte == b'"' {
            return Some(i);
        }
        if !is_quotable(*byte) {
            return None;
        }
        escaped = !escaped && *byte == b'\\';
    }
    None
}

fn take_argument(text: &[u8]) -> Option<Taken<'_>>
    ensures same { option_map seen_taken result ≡ take_argument text.now }
    ensures shorter { IfSome result (λ t. length t.rest.now ≤ length text.now) }
{
    match text {
        [] => None,
        [b'"', rest @ ..] => {
            let len = quoted_len(rest)?;
            Some(Taken {
                value: &rest[..len],
                rest: &rest[len + 1..],
            })
        }
        _ => {
            let len = token_len(text);
            if len == 0 {
                return None;
            }
            Some(Taken {
                value: &text[..len],
                rest: &text[len..],
            })
        }
    }
}

/// Reads an element up to the comma after it, or to the end. None where it is neither blank nor a
/// directive; what follows may still be no comma.
pub(crate) fn read_element(text: &[u8]) -> Option<Element<'_>>
    ensures same { option_map seen_element result ≡ read_element text.now }
    ensures shorter { IfSome result (λ e. length e.rest.now ≤ length text.now) }
{
    let text = after_blanks(text);
    let len = token_len(text);
    if len == 0 {
        return Some(Element {
            directive: None,
            rest: text,
        });
    }
    named(&text[..len], &text[len..])
}

fn named<'a>(name: &'a [u8], rest: &'a [u8]) -> Option<Element<'a>>
    ensures same { option_map seen_element result ≡ named name.now rest.now }
    ensures shorter { IfSome result (λ e. length e.rest.now ≤ length rest.now) }
{
    match rest {
        [b'=', rest @ ..] => {
            let argument = take_argument(rest)?;
            Some(Element {
                directive: Some(Directive {
                    name,
                    argument: Some(argument.value),
                }),
                rest: after_blanks(argument.rest),
            })
        }
        _ => Some(Element {
            directive: Some(Directive {
                name,
                argument: None,
            }),
            rest: after_blanks(rest),
        }),
    }
}

/// What follows a comma.
pub(crate) fn after_comma(text: &[u8]) -> Option<&[u8]>
    ensures same { option_copied result ≡ after_comma text.now }
    ensures shorter { IfSome result (λ rest. length rest.now < length text.now) }
{
    match text {
        [b',', rest @ ..] => Some(rest),
        _ => None,
    }
}

ghost use Rattle.std.specs.Prelude.{◌≡◌, ◌<◌, ◌≤◌, ◌==◌, true, length, slice_index, MatchOption, IfSome};
ghost use Rattle.http_wire.specs.EmptyLine.{ends_empty_line, NoEmptyLine};

const LINE_FEED: u8 = 10;

const RETURN: u8 = 13;

fn holds(bytes: &[u8], at: usize, byte: u8) -> bool
    requires { at < length bytes.now }
    ensures { result ≡ (slice_index bytes.now at == byte) }
{
    bytes[at] == byte
}

#[tactic(auto, unfolding(crate::specs::EmptyLine::ends_empty_line))]
fn ends_empty_line(bytes: &[u8], at: usize) -> bool
    requires { at < length bytes.now }
    ensures { result ≡ ends_empty_line bytes.now at }
{
    if !holds(bytes, at, LINE_FEED) || at == 0 {
        return false;
    }
    if holds(bytes, at - 1, LINE_FEED) {
        return true;
    }
    at != 1 && holds(bytes, at - 1, RETURN) && holds(bytes, at - 2, LINE_FEED)
}

// Where the first empty line from `from` on ends, below `to`.
pub(crate) fn empty_line_end(bytes: &[u8], from: usize, to: usize) -> Option<usize>
    requires { to ≤ length bytes.now }
    ensures found { MatchOption result (NoEmptyLine bytes.now from to)
        (λ at. (at < to) × (ends_empty_line bytes.now at ≡ true) × NoEmptyLine bytes.now from at) }
    ensures after { IfSome result (λ at. from ≤ at) }
{
    let mut at = from;
    while at < to {
        if ends_empty_line(bytes, at) {
            return Some(at);
        }
        at += 1;
    }
    None
}

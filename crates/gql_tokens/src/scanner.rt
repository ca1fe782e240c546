//! One token, byte by byte.

ghost use Rattle.std.specs.Prelude.{◌≡◌, ◌<◌, ◌≤◌, drop, take, length, slice_index, IsTrue, ◌↔◌};
ghost use Rattle.gql_tokens.specs.Lexical as grammar;
ghost use Rattle.gql_tokens.specs.Scanning as spec;
ghost use Rattle.gql_tokens.specs.Lexing.{NoneIgnored};

use crate::kinds::Kind;
use crate::numbers::{Digit, may_end, number_next, number_start};

/// What a token is as bytes.
#[derive(Clone, Copy, Debug, PartialEq, Eq)]
pub enum Class {
    Mark(Kind),
    Name,
    Number,
    /// Two quotes.
    Empty,
    Str,
    Block,
}

/// Where in a string: between characters, after a backslash, or before so many hexadecimal digits.
#[derive(Clone, Copy, Debug, PartialEq, Eq)]
pub enum Chars {
    Plain,
    Escape,
    Four,
    Three,
    Two,
    One,
}

/// Where in a block string: between characters, after one or two quotes, or after a backslash and up to two quotes.
#[derive(Clone, Copy, Debug, PartialEq, Eq)]
pub enum Marks {
    Plain,
    One,
    Two,
    Slash,
    SlashOne,
    SlashTwo,
}

/// What was read of a token.
#[derive(Clone, Copy, Debug, PartialEq, Eq)]
pub enum State {
    Dot,
    Dots,
    Name,
    Number(Digit),
    Quote,
    Quotes,
    Str(Chars),
    Block(Marks),
}

/// What a byte does to a token: it belongs to it, ends it, stands behind it, or breaks it.
#[derive(Clone, Copy, Debug, PartialEq, Eq)]
pub enum Move {
    Go(State),
    Done(Class),
    Stop(Class),
    Bad,
}

/// A whole token with its length, what was read of one up to the end of the bytes, or no token.
#[derive(Clone, Copy, Debug, PartialEq, Eq)]
pub enum Scan {
    Found(Class, usize),
    End(State),
    Bad,
}

fn is_hex(byte: u8) -> bool
    ensures { result ≡ grammar.is_hex byte }
{
    matches!(byte, b'0'..=b'9' | b'A'..=b'F' | b'a'..=b'f')
}

fn is_inline(byte: u8) -> bool
    ensures { result ≡ grammar.is_inline byte }
{
    byte >= b' ' || byte == b'\t'
}

fn is_block_char(byte: u8) -> bool
    ensures { result ≡ grammar.is_block_char byte }
{
    is_inline(byte) || byte == b'\n' || byte == b'\r'
}

pub fn is_name_start(byte: u8) -> bool
    ensures { result ≡ grammar.is_name_start byte }
{
    matches!(byte, b'A'..=b'Z' | b'a'..=b'z' | b'_')
}

fn is_name_continue(byte: u8) -> bool
    ensures { result ≡ grammar.is_name_continue byte }
{
    is_name_start(byte) || (byte >= b'0' && byte <= b'9')
}

fn is_escape(byte: u8) -> bool
    ensures { result ≡ grammar.is_escape byte }
{
    matches!(byte, b'"' | b'\\' | b'/' | b'b' | b'f' | b'n' | b'r' | b't')
}

fn lengthens_number(byte: u8) -> bool
    ensures { result ≡ grammar.lengthens_number byte }
{
    (byte >= b'0' && byte <= b'9') || byte == b'.' || is_name_start(byte)
}

fn digit_next(part: Digit, byte: u8) -> Move
    ensures { result ≡ spec.number_by part byte (spec.number_next part byte) }
{
    match number_next(part, byte) {
        Some(next) => Move::Go(State::Number(next)),
        None => {
            if may_end(part) && !lengthens_number(byte) {
                Move::Stop(Class::Number)
            } else {
                Move::Bad
            }
        }
    }
}

fn hex_next(byte: u8, then: Chars) -> Move
    ensures { result ≡ spec.hex_move byte then }
{
    if is_hex(byte) {
        Move::Go(State::Str(then))
    } else {
        Move::Bad
    }
}

fn plain_next(byte: u8) -> Move
    ensures { result ≡ spec.plain_move byte }
{
    if byte == b'"' {
        return Move::Done(Class::Str);
    }
    if byte == b'\\' {
        return Move::Go(State::Str(Chars::Escape));
    }
    if is_inline(byte) {
        return Move::Go(State::Str(Chars::Plain));
    }
    Move::Bad
}

fn escape_next(byte: u8) -> Move
    ensures { result ≡ spec.escape_move byte }
{
    if byte == b'u' {
        return Move::Go(State::Str(Chars::Four));
    }
    if is_escape(byte) {
        return Move::Go(State::Str(Chars::Plain));
    }
    Move::Bad
}

fn chars_next(chars: Chars, byte: u8) -> Move
    ensures { result ≡ spec.chars_next chars byte }
{
    match chars {
        Chars::Plain => plain_next(byte),
        Chars::Escape => escape_next(byte),
        Chars::Four => hex_next(byte, Chars::Three),
        Chars::Three => hex_next(byte, Chars::Two),
        Chars::Two => hex_next(byte, Chars::One),
        Chars::One => hex_next(byte, Chars::Plain),
    }
}

fn on_quote(marks: Marks) -> Move
    ensures { result ≡ spec.on_quote marks }
{
    match marks {
        Marks::Plain => Move::Go(State::Block(Marks::One)),
        Marks::One => Move::Go(State::Block(Marks::Two)),
        Marks::Two => Move::Done(Class::Block),
        Marks::Slash => Move::Go(State::Block(Marks::SlashOne)),
        Marks::SlashOne => Move::Go(State::Block(Marks::SlashTwo)),
        Marks::SlashTwo => Move::Go(State::Block(Marks::Plain)),
    }
}

fn block_next(marks: Marks, byte: u8) -> Move
    ensures { result ≡ spec.block_next marks byte }
{
    if byte == b'"' {
        return on_quote(marks);
    }
    if byte == b'\\' {
        return Move::Go(State::Block(Marks::Slash));
    }
    if is_block_char(byte) {
        return Move::Go(State::Block(Marks::Plain));
    }
    Move::Bad
}

fn name_next(byte: u8) -> Move
    ensures { result ≡ spec.name_move byte }
{
    if is_name_continue(byte) {
        Move::Go(State::Name)
    } else {
        Move::Stop(Class::Name)
    }
}

fn dot_next(byte: u8, then: Move) -> Move
    ensures { result ≡ spec.dot_move byte then }
{
    if byte == b'.' { then } else { Move::Bad }
}

#[tactic(auto, unfolding(crate::specs::Scanning::next))]
fn next(state: State, byte: u8) -> Move
    ensures { result ≡ spec.next state byte }
{
    match state {
        State::Dot => dot_next(byte, Move::Go(State::Dots)),
        State::Dots => dot_next(byte, Move::Done(Class::Mark(Kind::Dots))),
        State::Name => name_next(byte),
        State::Number(part) => digit_next(part, byte),
        State::Quote => {
            if byte == b'"' {
                Move::Go(State::Quotes)
            } else {
                plain_next(byte)
            }
        }
        State::Quotes => {
            if byte == b'"' {
                Move::Go(State::Block(Marks::Plain))
            } else {
                Move::Stop(Class::Empty)
            }
        }
        State::Str(chars) => chars_next(chars, byte),
        State::Block(marks) => block_next(marks, byte),
    }
}

fn mark_of(byte: u8) -> Option<Kind>
    ensures { result ≡ grammar.mark_of byte }
{
    match byte {
        b'!' => Some(Kind::Bang),
        b'$' => Some(Kind::Dollar),
        b'&' => Some(Kind::Amp),
        b'(' => Some(Kind::OpenParen),
        b')' => Some(Kind::CloseParen),
        b':' => Some(Kind::Colon),
        b'=' => Some(Kind::Equals),
        b'@' => Some(Kind::At),
        b'[' => Some(Kind::OpenBracket),
        b']' => Some(Kind::CloseBracket),
        b'{' => Some(Kind::OpenBrace),
        b'|' => Some(Kind::Bar),
        b'}' => Some(Kind::CloseBrace),
        _ => None,
    }
}

fn start_other(byte: u8) -> Move
    ensures { result ≡ spec.start_other byte }
{
    if byte == b'.' {
        return Move::Go(State::Dot);
    }
    if byte == b'"' {
        return Move::Go(State::Quote);
    }
    if is_name_start(byte) {
        return Move::Go(State::Name);
    }
    Move::Bad
}

#[tactic(auto, unfolding(crate::specs::Scanning::start))]
fn start(byte: u8) -> Move
    ensures { result ≡ spec.start byte }
{
    match mark_of(byte) {
        Some(kind) => Move::Done(Class::Mark(kind)),
        None => match number_start(byte) {
            Some(part) => Move::Go(State::Number(part)),
            None => start_other(byte),
        },
    }
}

fn scan_on(first: State, bytes: &[u8]) -> Scan
    ensures { result ≡ spec.scan first 1 bytes.now }
{
    let mut state = first;
    for i in 0..bytes.len() {
        match next(state, bytes[i]) {
            Move::Go(after) => state = after,
            Move::Done(class) => return Scan::Found(class, i + 2),
            Move::Stop(class) => return Scan::Found(class, i + 1),
            Move::Bad => return Scan::Bad,
        }
    }
    Scan::End(state)
}

/// The token at the front of the bytes.
#[tactic(auto, unfolding(crate::specs::Scanning::token_at))]
pub fn token_at(bytes: &[u8]) -> Scan
    requires { 0 < length bytes.now }
    ensures { result ≡ spec.token_at (slice_index bytes.now 0) (drop 1 bytes.now) }
{
    match start(bytes[0]) {
        Move::Go(state) => scan_on(state, &bytes[1..]),
        Move::Done(class) => Scan::Found(class, 1),
        Move::Stop(class) => Scan::Found(class, 0),
        Move::Bad => Scan::Bad,
    }
}

/// How many bytes stand before the end of the line, or before a control character.
fn inline_length(bytes: &[u8]) -> usize
    ensures bound { result ≤ length bytes.now }
    ensures every { grammar.Every grammar.is_inline (take result bytes.now) }
    ensures stops { grammar.Stops grammar.is_inline (drop result bytes.now) }
{
    for i in 0..bytes.len() {
        if !is_inline(bytes[i]) {
            return i;
        }
    }
    bytes.len()
}

fn is_blank(byte: u8) -> bool
    ensures { result ≡ grammar.is_blank byte }
{
    matches!(byte, b' ' | b'\t' | b'\n' | b'\r' | b',')
}

fn has_byte_order_mark(bytes: &[u8]) -> bool
    ensures { IsTrue result
        ↔ ((3 ≤ length bytes.now) × (slice_index bytes.now 0 ≡ 239)
        × (slice_index bytes.now 1 ≡ 187) × (slice_index bytes.now 2 ≡ 191)) }
{
    bytes.len() >= 3 && bytes[0] == 0xEF && bytes[1] == 0xBB && bytes[2] == 0xBF
}

/// How many bytes at the front are one thing that is ignored; 0 where there is none.
pub fn ignored_length(bytes: &[u8]) -> usize
    requires { 0 < length bytes.now }
    ensures bound { result ≤ length bytes.now }
    ensures is_ignored { 0 < result
        → grammar.IsIgnored (take result bytes.now) (drop result bytes.now) }
    ensures none { result ≡ 0 → NoneIgnored bytes.now }
{
    if is_blank(bytes[0]) {
        return 1;
    }
    if has_byte_order_mark(bytes) {
        return 3;
    }
    if bytes[0] == b'#' {
        return 1 + inline_length(&bytes[1..]);
    }
    0
}

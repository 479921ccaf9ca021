// Words that are names, numbers and choices.
ghost use Rattle.std.specs.Prelude.{◌≡◌, ◌<◌, ◌≤◌, ◌^◌, IfSome, length};
ghost use Rattle.std.specs.Result.{result_map_both};
ghost use Rattle.ev_lang.specs.Words.{words};
ghost use Rattle.ev_lang.specs.Classes.{digits_from, begins_zero, natural, negative, number, name_arg, number_arg, op_of, switch_of, op_arg, switch_arg};

use crate::words::next_word;
use ev_model::{BadLine, Name, Op};

/// A name among the words, and what follows it.
#[tactic(auto, unfolding(crate::specs::Classes::name_arg))]
pub fn name_arg(args: &[u8]) -> Result<(Name, &[u8]), BadLine>
    ensures { result_map_both (λ found. (found.0, words found.1.now)) (λ fault. fault) result ≡ name_arg (words args.now) }
{
    let Some((word, rest)) = next_word(args) else {
        return Err(BadLine::Count);
    };
    match Name::read(word) {
        Some(name) => Ok((name, rest)),
        None => Err(BadLine::Name),
    }
}

/// A number among the words, and what follows it.
#[tactic(auto, unfolding(crate::specs::Classes::number_arg))]
pub fn number_arg(args: &[u8]) -> Result<(i64, &[u8]), BadLine>
    ensures { result_map_both (λ found. (found.0, words found.1.now)) (λ fault. fault) result ≡ number_arg (words args.now) }
{
    let Some((word, rest)) = next_word(args) else {
        return Err(BadLine::Count);
    };
    match number(word) {
        Some(n) => Ok((n, rest)),
        None => Err(BadLine::Number),
    }
}

/// `blend` or `copy`, as the first of the words.
#[tactic(auto, unfolding(crate::specs::Classes::op_arg))]
pub fn op_arg(args: &[u8]) -> Result<Op, BadLine>
    ensures { result ≡ op_arg (words args.now) }
{
    match next_word(args) {
        None => Err(BadLine::Count),
        Some((word, _)) => op_of(word).ok_or(BadLine::Word),
    }
}

/// `on` or `off`, as the first of the words.
#[tactic(auto, unfolding(crate::specs::Classes::switch_arg))]
pub fn switch_arg(args: &[u8]) -> Result<bool, BadLine>
    ensures { result ≡ switch_arg (words args.now) }
{
    match next_word(args) {
        None => Err(BadLine::Count),
        Some((word, _)) => switch_of(word).ok_or(BadLine::Word),
    }
}

fn op_of(word: &[u8]) -> Option<Op>
    ensures { result ≡ op_of word.now }
{
    if word == b"blend".as_slice() {
        Some(Op::Blend)
    } else if word == b"copy".as_slice() {
        Some(Op::Copy)
    } else {
        None
    }
}

fn switch_of(word: &[u8]) -> Option<bool>
    ensures { result ≡ switch_of word.now }
{
    if word == b"on".as_slice() {
        Some(true)
    } else if word == b"off".as_slice() {
        Some(false)
    } else {
        None
    }
}

// A number of at most 10 digits, with its sign.
#[tactic(auto, unfolding(crate::specs::Classes::number))]
fn number(word: &[u8]) -> Option<i64>
    ensures { result ≡ number word.now }
{
    match word {
        [] => None,
        [b'-', digits @ ..] => negative(digits),
        _ => Some(natural(word)? as i64),
    }
}

// What stands behind a sign. 0 has none.
#[tactic(auto, unfolding(crate::specs::Classes::negative))]
fn negative(digits: &[u8]) -> Option<i64>
    ensures { result ≡ negative digits.now }
{
    if begins_zero(digits) {
        return None;
    }
    Some(-(natural(digits)? as i64))
}

/// The number of 1 to 10 digits, of which the first isn't 0 unless it is the only one. None exactly where
/// these bytes are something else (docs/SCRIPT.md, "Lines").
#[tactic(auto, unfolding(crate::specs::Classes::natural))]
pub fn natural(digits: &[u8]) -> Option<u64>
    ensures value { result ≡ natural digits.now }
    ensures small { IfSome result (λ n. n < 10 ^ 10) }
{
    if digits.len() > 10 || digits.is_empty() || begins_zero(digits) && digits.len() > 1 {
        return None;
    }
    value_of(digits)
}

fn begins_zero(digits: &[u8]) -> bool
    ensures { result ≡ begins_zero digits.now }
{
    match digits {
        [] => false,
        [c, ..] => *c == b'0',
    }
}

// The value of at most 10 digits.
fn value_of(digits: &[u8]) -> Option<u64>
    requires { length digits.now ≤ 10 }
    ensures value { result ≡ digits_from digits.now 0 }
    ensures small { IfSome result (λ n. n < 10 ^ 10) }
{
    let mut value = 0;
    for c in digits {
        if !c.is_ascii_digit() {
            return None;
        }
        value = value * 10 + u64::from(*c - b'0');
    }
    Some(value)
}

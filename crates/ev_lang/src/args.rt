// What follows the first word of a command. Too few or too many words are Count, whatever the words are;
// then the first of them from the left that isn't what it should be is Name, Number or Word.
ghost use Rattle.std.specs.Prelude.{◌≡◌, Ok, IfOk};
ghost use Rattle.std.specs.Result.{result_map_both};
ghost use Rattle.ev_model.specs.Glyphs.{IsText};
ghost use Rattle.ev_lang.specs.Words.{words};
ghost use Rattle.ev_lang.specs.Args.{counted, no_words, one_number, pair, quad, two_numbers, four_numbers, one_name, two_names, name_and_number, name_and_two, name_and_four, name_and_op, name_and_switch, named_text, name_and_text};

use crate::classes::{name_arg, number_arg, op_arg, switch_arg};
use crate::words::{has_words, skip_one, skip_spaces, split_word};
use ev_model::{BadLine, Name, Op};

// So many words.
fn counted(n: usize, args: &[u8]) -> Result<(), BadLine>
    ensures { result ≡ counted n (words args.now) (Ok tt) }
{
    if has_words(args, n) {
        Ok(())
    } else {
        Err(BadLine::Count)
    }
}

/// No words at all.
#[tactic(auto, unfolding(crate::specs::Args::no_words))]
pub fn no_words(args: &[u8]) -> Result<(), BadLine>
    ensures { result ≡ no_words (words args.now) }
{
    counted(0, args)
}

/// One number.
#[tactic(auto, unfolding(crate::specs::Args::one_number))]
pub fn one_number(args: &[u8]) -> Result<i64, BadLine>
    ensures { result ≡ one_number (words args.now) }
{
    counted(1, args)?;
    let (n, _) = number_arg(args)?;
    Ok(n)
}

// Two numbers, and maybe more words.
#[tactic(auto, unfolding(crate::specs::Args::pair))]
fn pair(args: &[u8]) -> Result<(i64, i64), BadLine>
    ensures { result ≡ pair (words args.now) }
{
    let (m, rest) = number_arg(args)?;
    let (n, _) = number_arg(rest)?;
    Ok((m, n))
}

// Four numbers, and maybe more words.
#[tactic(auto, unfolding(crate::specs::Args::quad))]
fn quad(args: &[u8]) -> Result<(i64, i64, i64, i64), BadLine>
    ensures { result ≡ quad (words args.now) }
{
    let (k, rest) = number_arg(args)?;
    let (l, rest) = number_arg(rest)?;
    let (m, n) = pair(rest)?;
    Ok((k, l, m, n))
}

/// Two numbers.
#[tactic(auto, unfolding(crate::specs::Args::two_numbers))]
pub fn two_numbers(args: &[u8]) -> Result<(i64, i64), BadLine>
    ensures { result ≡ two_numbers (words args.now) }
{
    counted(2, args)?;
    pair(args)
}

/// Four numbers.
#[tactic(auto, unfolding(crate::specs::Args::four_numbers))]
pub fn four_numbers(args: &[u8]) -> Result<(i64, i64, i64, i64), BadLine>
    ensures { result ≡ four_numbers (words args.now) }
{
    counted(4, args)?;
    quad(args)
}

/// One name.
#[tactic(auto, unfolding(crate::specs::Args::one_name))]
pub fn one_name(args: &[u8]) -> Result<Name, BadLine>
    ensures { result ≡ one_name (words args.now) }
{
    counted(1, args)?;
    match name_arg(args) {
        Ok((name, _)) => Ok(name),
        Err(fault) => Err(fault),
    }
}

/// Two names.
#[tactic(auto, unfolding(crate::specs::Args::two_names))]
pub fn two_names(args: &[u8]) -> Result<(Name, Name), BadLine>
    ensures { result ≡ two_names (words args.now) }
{
    counted(2, args)?;
    match name_arg(args) {
        Ok((name, rest)) => match name_arg(rest) {
            Ok((other, _)) => Ok((name, other)),
            Err(fault) => Err(fault),
        },
        Err(fault) => Err(fault),
    }
}

/// A name and a number.
#[tactic(auto, unfolding(crate::specs::Args::name_and_number))]
pub fn name_and_number(args: &[u8]) -> Result<(Name, i64), BadLine>
    ensures { result ≡ name_and_number (words args.now) }
{
    counted(2, args)?;
    match name_arg(args) {
        Ok((name, rest)) => {
            let (n, _) = number_arg(rest)?;
            Ok((name, n))
        }
        Err(fault) => Err(fault),
    }
}

/// A name and two numbers.
#[tactic(auto, unfolding(crate::specs::Args::name_and_two))]
pub fn name_and_two(args: &[u8]) -> Result<(Name, i64, i64), BadLine>
    ensures { result ≡ name_and_two (words args.now) }
{
    counted(3, args)?;
    match name_arg(args) {
        Ok((name, rest)) => {
            let (m, n) = pair(rest)?;
            Ok((name, m, n))
        }
        Err(fault) => Err(fault),
    }
}

/// A name and four numbers.
#[tactic(auto, unfolding(crate::specs::Args::name_and_four))]
pub fn name_and_four(args: &[u8]) -> Result<(Name, i64, i64, i64, i64), BadLine>
    ensures { result ≡ name_and_four (words args.now) }
{
    counted(5, args)?;
    match name_arg(args) {
        Ok((name, rest)) => {
            let (k, l, m, n) = quad(rest)?;
            Ok((name, k, l, m, n))
        }
        Err(fault) => Err(fault),
    }
}

/// A name, and `blend` or `copy`.
#[tactic(auto, unfolding(crate::specs::Args::name_and_op))]
pub fn name_and_op(args: &[u8]) -> Result<(Name, Op), BadLine>
    ensures { result ≡ name_and_op (words args.now) }
{
    counted(2, args)?;
    match name_arg(args) {
        Ok((name, rest)) => Ok((name, op_arg(rest)?)),
        Err(fault) => Err(fault),
    }
}

/// A name, and `on` or `off`.
#[tactic(auto, unfolding(crate::specs::Args::name_and_switch))]
pub fn name_and_switch(args: &[u8]) -> Result<(Name, bool), BadLine>
    ensures { result ≡ name_and_switch (words args.now) }
{
    counted(2, args)?;
    match name_arg(args) {
        Ok((name, rest)) => Ok((name, switch_arg(rest)?)),
        Err(fault) => Err(fault),
    }
}

/// A name, and all that stands behind one space.
#[tactic(auto, unfolding(crate::specs::Args::name_and_text))]
pub fn name_and_text(rest: &[u8]) -> Result<(Name, &[u8]), BadLine>
    requires { IsText rest.now }
    ensures read { result_map_both (λ found. (found.0, found.1.now)) (λ fault. fault) result ≡ name_and_text rest.now }
    ensures within { IfOk result (λ found. IsText found.1.now) }
{
    named_text(skip_spaces(rest))
}

// The same from the name on.
fn named_text(text: &[u8]) -> Result<(Name, &[u8]), BadLine>
    requires { IsText text.now }
    ensures read { result_map_both (λ found. (found.0, found.1.now)) (λ fault. fault) result ≡ named_text text.now }
    ensures within { IfOk result (λ found. IsText found.1.now) }
{
    if text.is_empty() {
        return Err(BadLine::Count);
    }
    let (word, rest) = split_word(text);
    match Name::read(word) {
        Some(name) => Ok((name, skip_one(rest))),
        None => Err(BadLine::Name),
    }
}

// Lines of a script, and what each says.
ghost use Rattle.std.specs.Prelude.{◌≡◌};
ghost use Rattle.std.specs.List.{list_all};
ghost use Rattle.ev_lang.specs.Words.{words};
ghost use Rattle.ev_model.specs.Glyphs.{IsText};
ghost use Rattle.ev_lang.specs.Value.{by_value, text, IsLine};
ghost use Rattle.ev_model.specs.declared.command.Command.TheVariants as order;
ghost use Rattle.ev_model.specs.declared.command.Edit.TheVariants as edit;
ghost use Rattle.ev_lang.specs.Args.{no_words, one_number, two_numbers, four_numbers, one_name, two_names, name_and_number, name_and_two, name_and_four, name_and_op, name_and_switch, name_and_text};
ghost use Rattle.ev_lang.specs.Verbs.{of_alone, of_name, of_names, of_two, of_four};
ghost use Rattle.ev_lang.specs.Lines.{is_text_byte, said, command_line, verb_line, word_line, line_of};

use crate::args::{
    four_numbers, name_and_four, name_and_number, name_and_op, name_and_switch, name_and_text,
    name_and_two, no_words, one_name, one_number, two_names, two_numbers,
};
use crate::verb::{Alone, NameAndFour, NameAndTwo, OneName, TwoNames, Verb, verb_of};
use crate::words::{skip_spaces, split_word};
use ev_model::{BadLine, Command, Edit};

/// The most bytes of a line.
pub const LONGEST_LINE: usize = 1024;

/// What a line says (docs/SCRIPT.md, "Lines").
#[derive(Drop)]
pub enum Line<'a> {
    /// A command, with all that it names.
    Command(Command<'a>),
    /// Nothing: a line of spaces, or a comment.
    Empty,
    /// No command, by the first rule that it breaks.
    Bad(BadLine),
}

/// What a line says (docs/SCRIPT.md, "Lines"). It may be any bytes.
#[tactic(auto, unfolding(crate::specs::Lines::line_of))]
pub fn read_line(line: &[u8]) -> Line<'_>
    ensures says { by_value result ≡ line_of line.now }
    ensures within { IsLine result }
{
    if line.len() > LONGEST_LINE {
        Line::Bad(BadLine::Long)
    } else if !is_text(line) {
        Line::Bad(BadLine::Byte)
    } else {
        word_line(skip_spaces(line))
    }
}

// Whether all bytes are characters.
#[tactic(auto, using(crate::proofs::Texts::are_characters))]
fn is_text(line: &[u8]) -> bool
    ensures test { result ≡ list_all is_text_byte line.now }
{
    line.iter().all(|byte| matches!(*byte, b' '..=b'~'))
}

// A line from its first word on.
fn word_line(line: &[u8]) -> Line<'_>
    requires { IsText line.now }
    ensures says { by_value result ≡ word_line line.now }
    ensures within { IsLine result }
{
    match line {
        [] => Line::Empty,
        [b'#', ..] => Line::Empty,
        _ => {
            let (word, rest) = split_word(line);
            verb_line(verb_of(word), rest)
        }
    }
}

// What stands behind a first word.
fn verb_line(verb: Option<Verb>, rest: &[u8]) -> Line<'_>
    requires { IsText rest.now }
    ensures says { by_value result ≡ verb_line verb rest.now }
    ensures within { IsLine result }
{
    match verb {
        None => Line::Bad(BadLine::Word),
        Some(verb) => command_line(verb, rest),
    }
}

#[tactic(auto, unfolding(crate::specs::Lines::command_line))]
fn command_line(verb: Verb, rest: &[u8]) -> Line<'_>
    requires { IsText rest.now }
    ensures says { by_value result ≡ command_line verb rest.now }
    ensures within { IsLine result }
{
    match verb {
        Verb::Alone(which) => alone_line(which, rest),
        Verb::OneName(which) => one_name_line(which, rest),
        Verb::TwoNames(which) => two_names_line(which, rest),
        Verb::NameAndTwo(which) => name_and_two_line(which, rest),
        Verb::NameAndFour(which) => name_and_four_line(which, rest),
        Verb::Op => op_line(rest),
        Verb::Center => center_line(rest),
        Verb::Layer => layer_line(rest),
        Verb::Say => say_line(rest),
        Verb::Size => size_line(rest),
        Verb::Damage => damage_line(rest),
        Verb::HideArea => hide_area_line(rest),
        Verb::Step => step_line(rest),
    }
}

fn alone_line(which: Alone, rest: &[u8]) -> Line<'_>
    ensures says { by_value result ≡ said (no_words (words rest.now)) (λ _. of_alone which) }
    ensures within { IsLine result }
{
    match no_words(rest) {
        Ok(()) => Line::Command(which.command()),
        Err(fault) => Line::Bad(fault),
    }
}

fn one_name_line(which: OneName, rest: &[u8]) -> Line<'_>
    ensures says { by_value result ≡ said (one_name (words rest.now)) (λ name. of_name which name) }
    ensures within { IsLine result }
{
    match one_name(rest) {
        Ok(name) => Line::Command(which.command(name)),
        Err(fault) => Line::Bad(fault),
    }
}

fn two_names_line(which: TwoNames, rest: &[u8]) -> Line<'_>
    ensures says { by_value result ≡ said (two_names (words rest.now)) (λ p. of_names which p.0 p.1) }
    ensures within { IsLine result }
{
    match two_names(rest) {
        Ok((name, other)) => Line::Command(which.command(name, other)),
        Err(fault) => Line::Bad(fault),
    }
}

fn name_and_two_line(which: NameAndTwo, rest: &[u8]) -> Line<'_>
    ensures says { by_value result ≡ said (name_and_two (words rest.now)) (λ p. of_two which p.0 p.1 p.2) }
    ensures within { IsLine result }
{
    match name_and_two(rest) {
        Ok((name, m, n)) => Line::Command(which.command(name, m, n)),
        Err(fault) => Line::Bad(fault),
    }
}

fn name_and_four_line(which: NameAndFour, rest: &[u8]) -> Line<'_>
    ensures says { by_value result ≡ said (name_and_four (words rest.now)) (λ p. of_four which p.0 p.1 p.2 p.3 p.4) }
    ensures within { IsLine result }
{
    match name_and_four(rest) {
        Ok((name, k, l, m, n)) => Line::Command(which.command(name, k, l, m, n)),
        Err(fault) => Line::Bad(fault),
    }
}

fn op_line(rest: &[u8]) -> Line<'_>
    ensures says { by_value result ≡ said (name_and_op (words rest.now)) (λ p. order.Edit (edit.SetOp p.0 p.1)) }
    ensures within { IsLine result }
{
    match name_and_op(rest) {
        Ok((name, op)) => Line::Command(Command::Edit(Edit::SetOp { name, op })),
        Err(fault) => Line::Bad(fault),
    }
}

fn center_line(rest: &[u8]) -> Line<'_>
    ensures says { by_value result ≡ said (name_and_switch (words rest.now)) (λ p. order.Edit (edit.Center p.0 p.1)) }
    ensures within { IsLine result }
{
    match name_and_switch(rest) {
        Ok((name, on)) => Line::Command(Command::Edit(Edit::Center { name, on })),
        Err(fault) => Line::Bad(fault),
    }
}

fn layer_line(rest: &[u8]) -> Line<'_>
    ensures says { by_value result ≡ said (name_and_number (words rest.now)) (λ p. order.Edit (edit.Layer p.0 p.1)) }
    ensures within { IsLine result }
{
    match name_and_number(rest) {
        Ok((name, layer)) => Line::Command(Command::Edit(Edit::Layer { name, layer })),
        Err(fault) => Line::Bad(fault),
    }
}

fn say_line(rest: &[u8]) -> Line<'_>
    requires { IsText rest.now }
    ensures says { by_value result ≡ said (name_and_text rest.now) (λ p. order.Edit (edit.Say p.0 (text p.1))) }
    ensures within { IsLine result }
{
    match name_and_text(rest) {
        Ok((name, text)) => Line::Command(Command::Edit(Edit::Say { name, text })),
        Err(fault) => Line::Bad(fault),
    }
}

fn size_line(rest: &[u8]) -> Line<'_>
    ensures says { by_value result ≡ said (two_numbers (words rest.now)) (λ p. order.Edit (edit.Size p.0 p.1)) }
    ensures within { IsLine result }
{
    match two_numbers(rest) {
        Ok((w, h)) => Line::Command(Command::Edit(Edit::Size { w, h })),
        Err(fault) => Line::Bad(fault),
    }
}

fn damage_line(rest: &[u8]) -> Line<'_>
    ensures says { by_value result ≡ said (four_numbers (words rest.now)) (λ p. order.Damage p.0 p.1 p.2 p.3) }
    ensures within { IsLine result }
{
    match four_numbers(rest) {
        Ok((x, y, w, h)) => Line::Command(Command::Damage { x, y, w, h }),
        Err(fault) => Line::Bad(fault),
    }
}

fn hide_area_line(rest: &[u8]) -> Line<'_>
    ensures says { by_value result ≡ said (four_numbers (words rest.now)) (λ p. order.HideArea p.0 p.1 p.2 p.3) }
    ensures within { IsLine result }
{
    match four_numbers(rest) {
        Ok((x, y, w, h)) => Line::Command(Command::HideArea { x, y, w, h }),
        Err(fault) => Line::Bad(fault),
    }
}

fn step_line(rest: &[u8]) -> Line<'_>
    ensures says { by_value result ≡ said (one_number (words rest.now)) (λ k. order.Step k) }
    ensures within { IsLine result }
{
    match one_number(rest) {
        Ok(k) => Line::Command(Command::Step { k }),
        Err(fault) => Line::Bad(fault),
    }
}

// The first words of commands.
ghost use Rattle.std.specs.Prelude.{◌≡◌};
ghost use Rattle.ev_lang.specs.Verbs.{object_verb, order_verb, content_verb, frame_verb, verb_of};

use ev_model::Kind;

/// The first word of a command, by what follows it.
#[derive(Clone, Copy)]
pub enum Verb {
    Alone(Alone),
    OneName(OneName),
    TwoNames(TwoNames),
    NameAndTwo(NameAndTwo),
    NameAndFour(NameAndFour),
    Op,
    Center,
    Layer,
    Say,
    Size,
    Damage,
    HideArea,
    Step,
}

/// No further words follow.
#[derive(Clone, Copy)]
pub enum Alone {
    Serve,
    Start,
    Poll,
    Wait,
    Render,
    Dump,
    Sum,
    Stats,
    ClearAreas,
}

/// A name follows.
#[derive(Clone, Copy)]
pub enum OneName {
    Make(Kind),
    Delete,
    Show,
    Hide,
    Raise,
    Lower,
    Unclip,
    Free,
    Filled,
    Preload,
    Load,
    Cancel,
}

/// Two names follow.
#[derive(Clone, Copy)]
pub enum TwoNames {
    Above,
    Below,
    Clip,
    Member,
    File,
    Font,
}

/// A name and two numbers follow.
#[derive(Clone, Copy)]
pub enum NameAndTwo {
    Move,
    Resize,
}

/// A name and four numbers follow.
#[derive(Clone, Copy)]
pub enum NameAndFour {
    Color,
    Fill,
    Border,
}

/// The command that this word begins.
#[tactic(auto, unfolding(crate::specs::Verbs::verb_of))]
pub fn verb_of(word: &[u8]) -> Option<Verb>
    ensures { result ≡ verb_of word.now }
{
    if let Some(verb) = object_verb(word) {
        return Some(verb);
    }
    if let Some(verb) = order_verb(word) {
        return Some(verb);
    }
    if let Some(verb) = content_verb(word) {
        return Some(verb);
    }
    frame_verb(word)
}

#[tactic(auto, unfolding(crate::specs::Verbs::object_verb))]
fn object_verb(word: &[u8]) -> Option<Verb>
    ensures { result ≡ object_verb word.now }
{
    if word == b"move".as_slice() {
        Some(Verb::NameAndTwo(NameAndTwo::Move))
    } else if word == b"resize".as_slice() {
        Some(Verb::NameAndTwo(NameAndTwo::Resize))
    } else if word == b"show".as_slice() {
        Some(Verb::OneName(OneName::Show))
    } else if word == b"hide".as_slice() {
        Some(Verb::OneName(OneName::Hide))
    } else if word == b"color".as_slice() {
        Some(Verb::NameAndFour(NameAndFour::Color))
    } else if word == b"op".as_slice() {
        Some(Verb::Op)
    } else if word == b"rect".as_slice() {
        Some(Verb::OneName(OneName::Make(Kind::Rect)))
    } else if word == b"image".as_slice() {
        Some(Verb::OneName(OneName::Make(Kind::Image)))
    } else if word == b"text".as_slice() {
        Some(Verb::OneName(OneName::Make(Kind::Text)))
    } else if word == b"smart".as_slice() {
        Some(Verb::OneName(OneName::Make(Kind::Smart)))
    } else if word == b"delete".as_slice() {
        Some(Verb::OneName(OneName::Delete))
    } else {
        None
    }
}

#[tactic(auto, unfolding(crate::specs::Verbs::order_verb))]
fn order_verb(word: &[u8]) -> Option<Verb>
    ensures { result ≡ order_verb word.now }
{
    if word == b"layer".as_slice() {
        Some(Verb::Layer)
    } else if word == b"raise".as_slice() {
        Some(Verb::OneName(OneName::Raise))
    } else if word == b"lower".as_slice() {
        Some(Verb::OneName(OneName::Lower))
    } else if word == b"above".as_slice() {
        Some(Verb::TwoNames(TwoNames::Above))
    } else if word == b"below".as_slice() {
        Some(Verb::TwoNames(TwoNames::Below))
    } else if word == b"clip".as_slice() {
        Some(Verb::TwoNames(TwoNames::Clip))
    } else if word == b"unclip".as_slice() {
        Some(Verb::OneName(OneName::Unclip))
    } else if word == b"member".as_slice() {
        Some(Verb::TwoNames(TwoNames::Member))
    } else if word == b"free".as_slice() {
        Some(Verb::OneName(OneName::Free))
    } else {
        None
    }
}

#[tactic(auto, unfolding(crate::specs::Verbs::content_verb))]
fn content_verb(word: &[u8]) -> Option<Verb>
    ensures { result ≡ content_verb word.now }
{
    if word == b"say".as_slice() {
        Some(Verb::Say)
    } else if word == b"file".as_slice() {
        Some(Verb::TwoNames(TwoNames::File))
    } else if word == b"font".as_slice() {
        Some(Verb::TwoNames(TwoNames::Font))
    } else if word == b"fill".as_slice() {
        Some(Verb::NameAndFour(NameAndFour::Fill))
    } else if word == b"filled".as_slice() {
        Some(Verb::OneName(OneName::Filled))
    } else if word == b"border".as_slice() {
        Some(Verb::NameAndFour(NameAndFour::Border))
    } else if word == b"center".as_slice() {
        Some(Verb::Center)
    } else if word == b"preload".as_slice() {
        Some(Verb::OneName(OneName::Preload))
    } else if word == b"load".as_slice() {
        Some(Verb::OneName(OneName::Load))
    } else if word == b"cancel".as_slice() {
        Some(Verb::OneName(OneName::Cancel))
    } else if word == b"serve".as_slice() {
        Some(Verb::Alone(Alone::Serve))
    } else {
        None
    }
}

#[tactic(auto, unfolding(crate::specs::Verbs::frame_verb))]
fn frame_verb(word: &[u8]) -> Option<Verb>
    ensures { result ≡ frame_verb word.now }
{
    if word == b"render".as_slice() {
        Some(Verb::Alone(Alone::Render))
    } else if word == b"start".as_slice() {
        Some(Verb::Alone(Alone::Start))
    } else if word == b"step".as_slice() {
        Some(Verb::Step)
    } else if word == b"poll".as_slice() {
        Some(Verb::Alone(Alone::Poll))
    } else if word == b"wait".as_slice() {
        Some(Verb::Alone(Alone::Wait))
    } else if word == b"dump".as_slice() {
        Some(Verb::Alone(Alone::Dump))
    } else if word == b"sum".as_slice() {
        Some(Verb::Alone(Alone::Sum))
    } else if word == b"stats".as_slice() {
        Some(Verb::Alone(Alone::Stats))
    } else if word == b"size".as_slice() {
        Some(Verb::Size)
    } else if word == b"damage".as_slice() {
        Some(Verb::Damage)
    } else if word == b"hide-area".as_slice() {
        Some(Verb::HideArea)
    } else if word == b"clear-areas".as_slice() {
        Some(Verb::Alone(Alone::ClearAreas))
    } else {
        None
    }
}

// Commands, by their first words and what follows these.
ghost use Rattle.std.specs.Prelude.{◌≡◌};
ghost use Rattle.ev_model.specs.Limits.{IsCommand};
ghost use Rattle.ev_lang.specs.Value.{command_by_value};
ghost use Rattle.ev_lang.specs.Verbs.{of_alone, of_name, of_names, of_two, of_four};

use crate::verb::{Alone, NameAndFour, NameAndTwo, OneName, TwoNames};
use ev_model::{Command, Edit, Name};

impl Alone {
    /// The whole command.
    #[tactic(auto, unfolding(crate::specs::Verbs::of_alone))]
    pub fn command<'a>(self) -> Command<'a>
        ensures command { command_by_value result ≡ of_alone self }
        ensures within { IsCommand result }
    {
        match self {
            Alone::Serve => Command::Serve,
            Alone::Start => Command::Start,
            Alone::Poll => Command::Poll,
            Alone::Wait => Command::Wait,
            Alone::Render => Command::Render,
            Alone::Dump => Command::Dump,
            Alone::Sum => Command::Sum,
            Alone::Stats => Command::Stats,
            Alone::ClearAreas => Command::ClearAreas,
        }
    }
}

impl OneName {
    /// The command with this name.
    #[tactic(auto, unfolding(crate::specs::Verbs::of_name))]
    pub fn command<'a>(self, name: Name) -> Command<'a>
        ensures command { command_by_value result ≡ of_name self name }
        ensures within { IsCommand result }
    {
        match self {
            OneName::Make(kind) => Command::Edit(Edit::Make { name, kind }),
            OneName::Delete => Command::Edit(Edit::Delete { name }),
            OneName::Show => Command::Edit(Edit::Show { name, on: true }),
            OneName::Hide => Command::Edit(Edit::Show { name, on: false }),
            OneName::Raise => Command::Edit(Edit::Raise { name, up: true }),
            OneName::Lower => Command::Edit(Edit::Raise { name, up: false }),
            OneName::Unclip => Command::Edit(Edit::Unclip { name }),
            OneName::Free => Command::Edit(Edit::Free { name }),
            OneName::Filled => Command::Edit(Edit::Filled { name }),
            OneName::Preload => Command::Preload(name),
            OneName::Load => Command::Load(name),
            OneName::Cancel => Command::Cancel(name),
        }
    }
}

impl TwoNames {
    /// The command with these names.
    #[tactic(auto, unfolding(crate::specs::Verbs::of_names))]
    pub fn command<'a>(self, name: Name, other: Name) -> Command<'a>
        ensures command { command_by_value result ≡ of_names self name other }
        ensures within { IsCommand result }
    {
        Command::Edit(match self {
            TwoNames::Above => Edit::Place {
                name,
                other,
                above: true,
            },
            TwoNames::Below => Edit::Place {
                name,
                other,
                above: false,
            },
            TwoNames::Clip => Edit::Clip {
                name,
                clipper: other,
            },
            TwoNames::Member => Edit::Member { name, smart: other },
            TwoNames::File => Edit::File { name, key: other },
            TwoNames::Font => Edit::Font { name, key: other },
        })
    }
}

impl NameAndTwo {
    /// The command with this name and these numbers.
    #[tactic(auto, unfolding(crate::specs::Verbs::of_two))]
    pub fn command<'a>(self, name: Name, m: i64, n: i64) -> Command<'a>
        ensures command { command_by_value result ≡ of_two self name m n }
        ensures within { IsCommand result }
    {
        match self {
            NameAndTwo::Move => Command::Edit(Edit::Move { name, x: m, y: n }),
            NameAndTwo::Resize => Command::Edit(Edit::Resize { name, w: m, h: n }),
        }
    }
}

impl NameAndFour {
    /// The command with this name and these numbers.
    #[tactic(auto, unfolding(crate::specs::Verbs::of_four))]
    pub fn command<'a>(self, name: Name, k: i64, l: i64, m: i64, n: i64) -> Command<'a>
        ensures command { command_by_value result ≡ of_four self name k l m n }
        ensures within { IsCommand result }
    {
        match self {
            NameAndFour::Color => Command::Edit(Edit::Color {
                name,
                r: k,
                g: l,
                b: m,
                a: n,
            }),
            NameAndFour::Fill => Command::Edit(Edit::Fill {
                name,
                x: k,
                y: l,
                w: m,
                h: n,
            }),
            NameAndFour::Border => Command::Edit(Edit::Border {
                name,
                l: k,
                r: l,
                t: m,
                b: n,
            }),
        }
    }
}

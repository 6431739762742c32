// The calls by their names.
ghost use Rattle.std.specs.Prelude.{◌≡◌};
ghost use Rattle.replay.specs.way.Named.{call_named};

// A small class's call or a medium one's.
#[derive(Clone, Copy)]
pub enum Kind {
    Small,
    Medium,
}

pub enum Call {
    // A comment or an empty line makes none.
    Nothing,
    Open,
    Commit,
    Grow,
    Release,
    Contains,
    Report,
    TakeBlocks(Kind),
    ReleaseBlocks(Kind),
    ReleaseChunks,
}

impl Call {
    // The call of a name's number: its first letter's byte, then in two digits how many letters follow.
    #[tactic(auto, unfolding(crate::specs::way::Named::call_named))]
    pub fn named(name: u64) -> Option<Call>
        ensures { result ≡ call_named name }
    {
        match name {
            0 | 3_500 => Some(Call::Nothing),
            11_103 => Some(Call::Open),
            9_905 => Some(Call::Commit),
            10_312 => Some(Call::Grow),
            11_406 => Some(Call::Release),
            9_907 => Some(Call::Contains),
            11_405 => Some(Call::Report),
            11_610 => Some(Call::TakeBlocks(Kind::Small)),
            10_917 => Some(Call::TakeBlocks(Kind::Medium)),
            11_413 => Some(Call::ReleaseBlocks(Kind::Small)),
            10_920 => Some(Call::ReleaseBlocks(Kind::Medium)),
            11_417 => Some(Call::ReleaseChunks),
            _ => None,
        }
    }
}

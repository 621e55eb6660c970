// The flag byte: each flag that is set forbids what it names.
ghost use Rattle.std.specs.Prelude.{◌≡◌};
ghost use Rattle.rules.specs.Flags as rules;
ghost use Rattle.points.specs.Flag.{flag_of};

#[derive(Clone, Copy)]
pub enum Flag {
    Ko,
    Suicide,
    FillEye,
    SuperKo,
}

// The flag is set.
#[tactic(auto, unfolding(rules::specs::Flags::forbids))]
pub fn forbids(flags: u8, flag: Flag) -> bool
    ensures { result ≡ rules.forbids flags (flag_of flag) }
{
    match flag {
        Flag::Ko => flags % 2 == 1,
        Flag::Suicide => flags / 2 % 2 == 1,
        Flag::FillEye => flags / 4 % 2 == 1,
        Flag::SuperKo => flags / 8 % 2 == 1,
    }
}

// What a call can answer, under the names of 01's table: that it is accepted, or why it is refused. The numbers are what C gets.
ghost use Rattle.std.specs.Prelude.{◌≡◌};
ghost use Rattle.rules.specs.Answers as answers;
ghost use Rattle.points.specs.Reason.{reason, answer_of};

pub const ACCEPTED: u8 = 0;

pub const BAD_SIZE: u8 = 1;

pub const BAD_FLAGS: u8 = 2;

pub const DAMAGED: u8 = 3;

pub const GAME_PAUSED: u8 = 4;

pub const OFF_BOARD: u8 = 5;

pub const POINT_NOT_EMPTY: u8 = 6;

pub const SUICIDE: u8 = 7;

pub const KO: u8 = 8;

pub const SUPER_KO: u8 = 8;

pub const FILL_EYE: u8 = 9;

pub const MOVE_LIMIT: u8 = 10;

pub const HISTORY_FULL: u8 = 11;

pub const NOT_AT_START: u8 = 12;

pub const NO_LIBERTY: u8 = 13;

pub const BAD_LENGTH: u8 = 14;

pub const BAD_COLOUR: u8 = 15;

pub const BAD_KIND: u8 = 18;

// Why a call is refused. The KO step and the superko step are two reasons, with one number.
#[derive(Clone, Copy, PartialEq, Eq)]
pub enum Refusal {
    BadSize,
    BadFlags,
    Damaged,
    GamePaused,
    OffBoard,
    PointNotEmpty,
    Suicide,
    Ko,
    SuperKo,
    FillEye,
    MoveLimit,
    HistoryFull,
    NotAtStart,
    NoLiberty,
    BadLength,
    BadColour,
    BadKind,
}

impl Refusal {
    // The number that stands for it.
    #[tactic(auto, unfolding(rules::specs::Answers::number))]
    pub fn number(self) -> u8
        ensures { result ≡ answers.number (reason self) }
    {
        match self {
            Refusal::BadSize => BAD_SIZE,
            Refusal::BadFlags => BAD_FLAGS,
            Refusal::Damaged => DAMAGED,
            Refusal::GamePaused => GAME_PAUSED,
            Refusal::OffBoard => OFF_BOARD,
            Refusal::PointNotEmpty => POINT_NOT_EMPTY,
            Refusal::Suicide => SUICIDE,
            Refusal::Ko => KO,
            Refusal::SuperKo => SUPER_KO,
            Refusal::FillEye => FILL_EYE,
            Refusal::MoveLimit => MOVE_LIMIT,
            Refusal::HistoryFull => HISTORY_FULL,
            Refusal::NotAtStart => NOT_AT_START,
            Refusal::NoLiberty => NO_LIBERTY,
            Refusal::BadLength => BAD_LENGTH,
            Refusal::BadColour => BAD_COLOUR,
            Refusal::BadKind => BAD_KIND,
        }
    }
}

// The number of an answer: 0 where the call is accepted.
#[tactic(auto, unfolding(rules::specs::Answers::number))]
pub fn number(answer: Result<(), Refusal>) -> u8
    ensures { result ≡ answers.number (answer_of answer) }
{
    match answer {
        Ok(()) => ACCEPTED,
        Err(refusal) => refusal.number(),
    }
}

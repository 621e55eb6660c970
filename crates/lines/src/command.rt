// What a line can be read as. Numbers that no byte holds are read as the largest byte.

// What is wrong with a line.
#[derive(Clone, Copy)]
pub enum Fault {
    // more bytes than a line may have
    Long,
    // no word
    Blank,
    // the first word names no call
    Unknown,
    // the words behind the name are not those of the call
    New,
    Handicap,
    Stone,
    Resign,
    Check,
    Legals,
    // words behind the name of a call that takes none
    Alone,
    // more history than can be lent
    Bytes,
    // more spots than the lent buffer holds
    Room,
}

// The first word of a line, where it names a call.
#[derive(Clone, Copy)]
pub enum Name {
    New,
    Handicap,
    Stone,
    Pass,
    Resign,
    Resume,
    Check,
    Legals,
    State,
    Render,
}

// What a line asks for.
#[derive(Clone, Copy)]
pub enum Read {
    // the line is given back
    Echo,
    // height, width, flags, bytes of history
    New(u8, u8, u8, usize),
    // how many spots stand in the lent buffer
    Handicap(usize),
    // row, column
    Stone(u8, u8),
    Pass,
    // the player's colour
    Resign(u8),
    Resume,
    // row, column, flags
    Check(u8, u8, u8),
    // flags
    Legals(u8),
    State,
    Render,
}

// The longest line that is read, without its end.
pub const MAX_LINE: usize = 8192;
// How many bytes of history a game is lent where a line leaves them out.
pub const USUAL_LENT: usize = 655360;
// The most spots of a line: each takes four bytes at least.
pub const MAX_SPOTS: usize = MAX_LINE / 4;

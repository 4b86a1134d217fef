// What the station answers: a case for each number of document 01's table, with the place of an instruction where it has one.
#![tactic(auto)]

ghost use Rattle.std.specs.Prelude.{◌≡◌};
ghost use Rattle.answers.specs.Answers.{reason_number, number_of, in_table, place_of, issue_of};

// Why an instruction is not allowed: a case for each number that stands for a condition.
#[derive(Clone, Copy)]
pub enum Reason {
    // 20: nothing named
    NothingNamed,
    // 21: a gap
    Gap,
    // 22: not available; for a tilt: not all lowered, or none tilted there
    NotAvailable,
    // 23: end, next row or slot below not free or not there
    NotFree,
    // 24: odd count
    OddCount,
    // 25: half move in row 2 or 3
    HalfMove,
    // 26: same height
    SameHeight,
    // 27: not at rotation height
    NotAtRotation,
    // 28: cells not free for tilt or rotation
    CellsNotFree,
}

#[derive(Clone, Copy)]
pub enum Answer {
    // 0: taken
    Taken,
    // 0: a request is taken, its set outstanding under this issue
    Opened(u16),
    // 1: fewer bytes than the message says
    TooFewBytes,
    // 2: length below 2, above 43, or not the kind's
    BadLength,
    // 3: unknown kind
    UnknownKind,
    // 4: a field out of range, or a spare byte not zero
    BadField(u8),
    // 5: more than eight instructions
    TooMany,
    // 6: a set is outstanding
    SetOutstanding,
    // 7: empty set
    EmptySet,
    // 8: overlap
    Overlap(u8),
    // 20 to 28: not allowed, by the reason
    NotAllowed(Reason, u8),
    // 10: event impossible
    EventImpossible,
    // 11: result with no set outstanding
    NoSet,
    // 12: result's number not in the set
    NotInSet,
    // 13: already answered
    AlreadyAnswered,
    // 15: image not sound
    Unsound,
    // 16: station state unfit
    Unfit,
    // 17: lent output room too small
    NoRoom,
    // 29: a result of a set issued before the present one
    Late,
    // 30: a result of a set that was not issued
    NotIssued,
    // 31: a begin while a drive is under way, an end while none is, a set with the lift in an area while one is
    OutOfTurn,
    // 32: touches a part that is set apart: an instruction of a request, or an event, which has the place 255
    SetApart(u8),
    // 33: a drive-in begins while the record has 27 cars or more: the places that are left are kept open
    KeptOpen,
}

// The place that an answer gives where it names no instruction.
pub const NOWHERE: u8 = 255;

// Whether a number is one of the table's.
pub fn in_table(n: u8) -> bool
    ensures { result ≡ in_table n }
{
    (n <= 8) | ((10 <= n) & (n <= 13) | ((15 <= n) & (n <= 17) | (20 <= n) & (n <= 33)))
}

impl Reason {
    // Kept: a match, no discriminants: its wrong programs give two reasons one number (must-fail/), which no enum may have.
    // Its number in the table.
    pub fn number(self) -> u8
        ensures { result ≡ reason_number self }
    {
        match self {
            Reason::NothingNamed => 20,
            Reason::Gap => 21,
            Reason::NotAvailable => 22,
            Reason::NotFree => 23,
            Reason::OddCount => 24,
            Reason::HalfMove => 25,
            Reason::SameHeight => 26,
            Reason::NotAtRotation => 27,
            Reason::CellsNotFree => 28,
        }
    }
}

impl Answer {
    // Its number in the table.
    pub fn number(self) -> u8
        ensures { result ≡ number_of self }
    {
        match self {
            Answer::Taken | Answer::Opened(_) => 0,
            Answer::TooFewBytes => 1,
            Answer::BadLength => 2,
            Answer::UnknownKind => 3,
            Answer::BadField(_) => 4,
            Answer::TooMany => 5,
            Answer::SetOutstanding => 6,
            Answer::EmptySet => 7,
            Answer::Overlap(_) => 8,
            Answer::NotAllowed(why, _) => why.number(),
            Answer::EventImpossible => 10,
            Answer::NoSet => 11,
            Answer::NotInSet => 12,
            Answer::AlreadyAnswered => 13,
            Answer::Unsound => 15,
            Answer::Unfit => 16,
            Answer::NoRoom => 17,
            Answer::Late => 29,
            Answer::NotIssued => 30,
            Answer::OutOfTurn => 31,
            Answer::SetApart(_) => 32,
            Answer::KeptOpen => 33,
        }
    }

    // The instruction that it names, from 0, or 255.
    pub fn place(self) -> u8
        ensures { result ≡ place_of self }
    {
        match self {
            Answer::BadField(p)
            | Answer::Overlap(p)
            | Answer::NotAllowed(_, p)
            | Answer::SetApart(p) => p,
            _ => NOWHERE,
        }
    }

    // The issue of the set that it opens, or 0.
    pub fn issue(self) -> u16
        ensures { result ≡ issue_of self }
    {
        match self {
            Answer::Opened(issue) => issue,
            _ => 0,
        }
    }
}

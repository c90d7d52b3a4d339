// "Numbers given back": why a file does not read, why a derivation is refused, why a run sticks; and the sections that places name.

ghost use Rattle.std.specs.Prelude.{◌≡◌};
ghost use Rattle.kernel.specs.Named.{misread, misfit, reason, section};

// From reading.
#[derive(Clone, Copy, Debug, PartialEq, Eq)]
pub enum Misread {
    BadLength = 1,
    CountOutside = 2,
    FieldOutside = 3,
    BlocksUnmatched = 4,
    TooDeep = 5,
}

// From the check.
#[derive(Clone, Copy, Debug, PartialEq, Eq)]
pub enum Misfit {
    DoesNotFit = 10,
    PastCount = 11,
    NotNextIndex = 12,
    NotHeld = 13,
    UntrueAtEntry = 14,
    NotKept = 15,
    BranchesDiffer = 16,
    StatementsLeft = 17,
    BlockOpen = 18,
    NotCounted = 19,
}

// From runs that stick.
#[derive(Clone, Copy, Debug, PartialEq, Eq)]
pub enum Reason {
    Unset = 31,
    ZeroDivisor = 32,
    IndexOutside = 33,
    StreamEmpty = 34,
    StreamFull = 35,
}

// From runs, laying out and putting back: memory of a wrong length.
pub const WRONG_MEMORY: u16 = 21;

// The sections of a kernel file.
#[derive(Clone, Copy, Debug, PartialEq, Eq)]
pub enum Section {
    Registers = 1,
    Buffers = 2,
    Arrays = 3,
    ArrayProgram = 4,
    StreamProgram = 5,
    Derivation = 6,
}

// A refusal by reading: why, and where; one that is of no section's has none.
#[derive(Clone, Copy, Debug, PartialEq, Eq)]
pub struct Unread {
    pub why: Misread,
    pub section: Option<Section>,
    pub place: u16,
}

impl From<Misread> for u16 {
    ghost from_gives = { λ m n. n ≡ misread m };

    fn from(m: Misread) -> u16 {
        m as u16
    }
}

impl From<Misfit> for u16 {
    ghost from_gives = { λ f n. n ≡ misfit f };

    fn from(f: Misfit) -> u16 {
        f as u16
    }
}

impl From<Reason> for u16 {
    ghost from_gives = { λ r n. n ≡ reason r };

    fn from(r: Reason) -> u16 {
        r as u16
    }
}

impl From<Section> for u16 {
    ghost from_gives = { λ s n. n ≡ section s };

    fn from(s: Section) -> u16 {
        s as u16
    }
}

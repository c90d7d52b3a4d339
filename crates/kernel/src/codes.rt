// The codes of a kernel file's records.

ghost use Rattle.std.specs.Prelude.{◌≡◌};
ghost use Rattle.kernel.specs.Named.{side, sided, code, coded, rule_number, ruled, row};

// The two sides of arrays.
#[derive(Clone, Copy, Debug, PartialEq, Eq)]
pub enum Side {
    Input = 1,
    Output = 2,
}

// Statements.
#[derive(Clone, Copy, Debug, PartialEq, Eq)]
pub enum Code {
    Set = 1,
    Copy = 2,
    Work = 3,
    Load = 4,
    Store = 5,
    Read = 6,
    Write = 7,
    For = 8,
    If = 9,
    Else = 10,
    End = 11,
}

// Rules of a derivation.
#[derive(Clone, Copy, Debug, PartialEq, Eq)]
pub enum Rule {
    Same = 1,
    Read = 2,
    Fill = 3,
    Use = 4,
    Move = 5,
    Write = 6,
    For = 7,
    If = 8,
    Else = 9,
    End = 10,
}

// The hold rows after a for's.
#[derive(Clone, Copy, Debug, PartialEq, Eq)]
pub enum Row {
    Position = 11,
    Buffer = 12,
}

// −1 as a word: a buffer row that states nothing has it for q.
pub const MINUS_ONE: u32 = 4294967295;

// A number that is no code of the kind.
#[derive(Clone, Copy, Debug, PartialEq, Eq)]
pub struct NoCode;

impl TryFrom<u32> for Side {
    type Error = NoCode;

    ghost try_from_gives = { λ w s. s ≡ sided w };

    fn try_from(w: u32) -> Result<Side, NoCode> {
        match w {
            1 => Ok(Side::Input),
            2 => Ok(Side::Output),
            _ => Err(NoCode),
        }
    }
}

impl TryFrom<u32> for Code {
    type Error = NoCode;

    ghost try_from_gives = { λ w c. c ≡ coded w };

    fn try_from(w: u32) -> Result<Code, NoCode> {
        match w {
            1 => Ok(Code::Set),
            2 => Ok(Code::Copy),
            3 => Ok(Code::Work),
            4 => Ok(Code::Load),
            5 => Ok(Code::Store),
            6 => Ok(Code::Read),
            7 => Ok(Code::Write),
            8 => Ok(Code::For),
            9 => Ok(Code::If),
            10 => Ok(Code::Else),
            11 => Ok(Code::End),
            _ => Err(NoCode),
        }
    }
}

impl TryFrom<u32> for Rule {
    type Error = NoCode;

    ghost try_from_gives = { λ w r. r ≡ ruled w };

    fn try_from(w: u32) -> Result<Rule, NoCode> {
        match w {
            1 => Ok(Rule::Same),
            2 => Ok(Rule::Read),
            3 => Ok(Rule::Fill),
            4 => Ok(Rule::Use),
            5 => Ok(Rule::Move),
            6 => Ok(Rule::Write),
            7 => Ok(Rule::For),
            8 => Ok(Rule::If),
            9 => Ok(Rule::Else),
            10 => Ok(Rule::End),
            _ => Err(NoCode),
        }
    }
}

impl From<Side> for u32 {
    ghost from_gives = { λ s n. n ≡ side s };

    fn from(s: Side) -> u32 {
        s as u32
    }
}

impl From<Code> for u32 {
    ghost from_gives = { λ c n. n ≡ code c };

    fn from(c: Code) -> u32 {
        c as u32
    }
}

impl From<Rule> for u32 {
    ghost from_gives = { λ r n. n ≡ rule_number r };

    fn from(rule: Rule) -> u32 {
        rule as u32
    }
}

impl From<Row> for u32 {
    ghost from_gives = { λ r n. n ≡ row r };

    fn from(r: Row) -> u32 {
        r as u32
    }
}

// What a record says, as a statement.

ghost use Rattle.std.specs.Prelude.{◌≡◌};
ghost use Rattle.kernel.specs.File as File;
ghost use Rattle.parts.specs.Records.{rec};
ghost use Rattle.parts.specs.Statements.{operator, stated};

use crate::Rec;
use forms::{Form, Loop};
use kernel::codes::{Code, NoCode};

#[derive(Clone, Copy, Debug, PartialEq, Eq)]
pub enum Operator {
    Add,
    Subtract,
    Multiply,
    Divide,
}

// Statements that hold no block; registers are named by their numbers, arrays and streams by theirs.
#[derive(Clone, Copy)]
pub enum Op {
    Set(usize, Form),
    Copy(usize, usize),
    Work(Operator, usize, usize, usize),
    Load(usize, usize, Form),
    Store(usize, usize, Form),
    Read(usize, usize),
    Write(usize, usize),
}

#[derive(Clone, Copy)]
pub enum Statement {
    Does(Op),
    For(Loop),
    If(usize),
    Else,
    End,
}

// Reading leaves no other number than 1 to 4.
impl From<u32> for Operator {
    ghost from_gives = { λ w o. operator o ≡ File.operator w };

    fn from(w: u32) -> Operator {
        match w {
            1 => Operator::Add,
            2 => Operator::Subtract,
            3 => Operator::Multiply,
            _ => Operator::Divide,
        }
    }
}

impl TryFrom<Rec> for Statement {
    type Error = NoCode;

    ghost try_from_gives = { λ r s. stated s ≡ File.statement (rec r) };

    fn try_from(r: Rec) -> Result<Statement, NoCode> {
        let p = r.p as usize;
        let q = r.q as usize;
        Ok(match Code::try_from(r.code)? {
            Code::Set => Statement::Does(Op::Set(p, r.form())),
            Code::Copy => Statement::Does(Op::Copy(p, q)),
            Code::Work => Statement::Does(Op::Work(Operator::from(r.x[0]), p, q, r.k as usize)),
            Code::Load => Statement::Does(Op::Load(p, q, r.form())),
            Code::Store => Statement::Does(Op::Store(p, q, r.form())),
            Code::Read => Statement::Does(Op::Read(p, q)),
            Code::Write => Statement::Does(Op::Write(p, q)),
            Code::For => Statement::For(r.for_loop()),
            Code::If => Statement::If(p),
            Code::Else => Statement::Else,
            Code::End => Statement::End,
        })
    }
}

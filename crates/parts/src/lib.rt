// What stands where in a kernel file that reads: its counts, its sections, a record, and what a record says: an index form, a loop, a statement, an array.
#![tactic(auto)]

ghost use Rattle.std.specs.Prelude.{◌≡◌, ◌+◌, ◌*◌, ◌/◌, ◌<◌, ◌≤◌, length, get_or, drop, map, ◌-ℤ◌};
ghost use Rattle.numbers.specs.Words.{signed};
ghost use Rattle.forms.specs.Code.{form, loop};
ghost use Rattle.kernel.specs.File as File;
ghost use Rattle.kernel.specs.Answers as Answers;
ghost use Rattle.kernel.specs.Named.{sided};
ghost use Rattle.parts.specs.Records.{rec, record_at};
ghost use Rattle.parts.specs.Parts.{Few, Fills, Lies, ReadAs, arrays_part, array_part, stream_part, derivation_part, records_in};
ghost use Rattle.parts.specs.Statements.{stated};
ghost use Rattle.parts.specs.Arrays.{arrays_of, array_at, HasArray, side_there, Fitting, measure};

use forms::{Form, Loop};
use kernel::codes::{Code, NoCode, Side};
use statements::{Op, Operator, Statement};

pub mod statements;

// ---- the sections of a file

// The counts of a kernel file, by document 01's letters: registers, buffers, arrays, the two programs' statements, derivation.
#[derive(Clone, Copy, Debug, PartialEq, Eq)]
pub struct Counts {
    pub r: usize,
    pub b: usize,
    pub a: usize,
    pub s: usize,
    pub t: usize,
    pub d: usize,
}

// Where the first of a section's records begins, in numbers, and how many there are.
#[derive(Clone, Copy, Debug, PartialEq, Eq)]
pub struct Part {
    pub at: usize,
    pub count: usize,
}

// The records of a section in their file.
#[derive(Clone, Copy)]
pub struct RecordTable<'a> {
    pub file: &'a [u8],
    pub part: Part,
    pub ghost lies: { Lies 1024 file.now part },
}

impl<'a> RecordTable<'a> {
    // Record i; all zeros where there is none.
    pub fn record(self, i: usize) -> Rec
        ensures { rec result ≡ get_or (records_in self.entry.file.now self.entry.part) i File.nothing }
    {
        if i < self.part.count {
            return record_at(self.file, self.part.at + 8 * i);
        }
        Rec {
            code: 0,
            p: 0,
            q: 0,
            k: 0,
            x: [0; 4],
        }
    }

    // The code of record i.
    pub fn code(self, i: usize) -> u32
        requires { i < self.part.count }
        ensures { result ≡ (get_or (records_in self.entry.file.now self.entry.part) i File.nothing).code }
    {
        numbers::whole_word(self.file, self.part.at + 8 * i)
    }

    // A number of record i; the first is its code.
    fn number(self, i: usize, n: usize) -> u32
        requires { (i < self.part.count) × (n < 8) }
        ensures { result ≡ get_or (File.numbers (get_or (records_in self.entry.file.now self.entry.part) i File.nothing)) n 0 }
    {
        numbers::whole_word(self.file, self.part.at + 8 * i + n)
    }

    // Number n of record i, as the number of a register, an array or a stream.
    fn name(self, i: usize, n: usize) -> usize
        requires { (i < self.part.count) × (n < 8) }
        ensures { result ≡ get_or (File.numbers (get_or (records_in self.entry.file.now self.entry.part) i File.nothing)) n 0 }
    {
        self.number(i, n) as usize
    }

    // What record i says: of it no more is read than its code uses.
    pub fn statement(self, i: usize) -> Result<Statement, NoCode>
        ensures { stated result ≡ File.statement (get_or (records_in self.entry.file.now self.entry.part) i File.nothing) }
    {
        if i >= self.part.count {
            return Err(NoCode);
        }
        Ok(match Code::try_from(self.code(i))? {
            Code::Set => Statement::Does(Op::Set(self.name(i, 1), self.record(i).form())),
            Code::Copy => Statement::Does(Op::Copy(self.name(i, 1), self.name(i, 2))),
            Code::Work => {
                let o = Operator::from(self.number(i, 4));
                let q = self.name(i, 2);
                Statement::Does(Op::Work(o, self.name(i, 1), q, self.name(i, 3)))
            }
            Code::Load => {
                let f = self.record(i).form();
                Statement::Does(Op::Load(self.name(i, 1), self.name(i, 2), f))
            }
            Code::Store => {
                let f = self.record(i).form();
                Statement::Does(Op::Store(self.name(i, 1), self.name(i, 2), f))
            }
            Code::Read => Statement::Does(Op::Read(self.name(i, 1), self.name(i, 2))),
            Code::Write => Statement::Does(Op::Write(self.name(i, 1), self.name(i, 2))),
            Code::For => Statement::For(self.record(i).for_loop()),
            Code::If => Statement::If(self.name(i, 1)),
            Code::Else => Statement::Else,
            Code::End => Statement::End,
        })
    }
}

// A file whose counts and lengths are right.
#[derive(Clone, Copy)]
pub struct Sections<'a> {
    pub file: &'a [u8],
    pub counts: Counts,
    pub ghost fills: { Fills file.now counts },
}

impl<'a> Sections<'a> {
    pub fn arrays(self) -> RecordTable<'a>
        ensures { (result.file ≡ self.entry.file) × (result.part ≡ arrays_part self.entry.counts) }
    {
        let part = Part {
            at: 3,
            count: self.counts.a,
        };
        RecordTable {
            file: self.file,
            part,
        }
    }

    pub fn array_program(self) -> RecordTable<'a>
        ensures { (result.file ≡ self.entry.file) × (result.part ≡ array_part self.entry.counts) }
    {
        let part = Part {
            at: 4 + 8 * self.counts.a,
            count: self.counts.s,
        };
        RecordTable {
            file: self.file,
            part,
        }
    }

    pub fn stream_program(self) -> RecordTable<'a>
        ensures { (result.file ≡ self.entry.file) × (result.part ≡ stream_part self.entry.counts) }
    {
        let part = Part {
            at: 5 + 8 * (self.counts.a + self.counts.s),
            count: self.counts.t,
        };
        RecordTable {
            file: self.file,
            part,
        }
    }

    pub fn derivation(self) -> RecordTable<'a>
        ensures { (result.file ≡ self.entry.file) × (result.part ≡ derivation_part self.entry.counts) }
    {
        let part = Part {
            at: 6 + 8 * (self.counts.a + self.counts.s + self.counts.t),
            count: self.counts.d,
        };
        RecordTable {
            file: self.file,
            part,
        }
    }
}

// A kernel: a file that reads, with its counts.
#[derive(Clone, Copy)]
pub struct Kernel<'a> {
    pub file: &'a [u8],
    pub counts: Counts,
    pub ghost reads: { ReadAs file.now counts },
}

impl<'a> Kernel<'a> {
    pub fn sections(self) -> Sections<'a>
        ensures { (result.file ≡ self.entry.file) × (result.counts ≡ self.entry.counts) }
    {
        Sections {
            file: self.file,
            counts: self.counts,
        }
    }

    pub fn arrays(self) -> ArrayTable<'a>
        ensures { (result.file ≡ self.entry.file) × (result.count ≡ self.entry.counts.a) }
    {
        let count = self.counts.a;
        ArrayTable {
            file: self.file,
            count,
        }
    }
}

// ---- records

// A record as it stands in the file: eight numbers, which are tested before they are decoded.
#[derive(Clone, Copy, Debug, PartialEq, Eq)]
pub struct Rec {
    pub code: u32,
    pub p: u32,
    pub q: u32,
    pub k: u32,
    pub x: [u32; 4],
}

// The record that begins at a place.
pub fn record_at(file: &[u8], place: usize) -> Rec
    requires { place + 8 ≤ length file.now / 4 }
    ensures { rec result ≡ record_at file.now place }
{
    Rec {
        code: numbers::whole_word(file, place),
        p: numbers::whole_word(file, place + 1),
        q: numbers::whole_word(file, place + 2),
        k: numbers::whole_word(file, place + 3),
        x: [
            numbers::whole_word(file, place + 4),
            numbers::whole_word(file, place + 5),
            numbers::whole_word(file, place + 6),
            numbers::whole_word(file, place + 7),
        ],
    }
}

// The passes of a loop from p up to but not including q by k; 0 where there is no whole number of them.
fn passes(p: u32, q: u32, k: u32) -> usize
    ensures { result ≡ File.whole_steps (signed q -ℤ signed p) (signed k) }
{
    let d = numbers::signed(q) - numbers::signed(p);
    let s = numbers::signed(k);
    if s == 0 {
        return 0;
    }
    let n = d / s;
    if n < 0 {
        return 0;
    }
    if n * s != d {
        return 0;
    }
    n as usize
}

// The signed numbers of four words.
fn signed_row(x: &[u32; 4]) -> [i64; 4]
    ensures { result ≡ map signed x.now }
{
    x.map(|w| numbers::signed(w))
}

impl Rec {
    // Its index form.
    pub fn form(self) -> Form
        ensures { form result ≡ File.form (rec self) }
    {
        Form {
            k: numbers::signed(self.k),
            x: signed_row(&self.x),
        }
    }

    // The loop of a for.
    pub fn for_loop(self) -> Loop
        ensures { loop result ≡ File.loop_of (rec self) }
    {
        Loop {
            first: numbers::signed(self.p),
            step: numbers::signed(self.k),
            passes: passes(self.p, self.q, self.k),
        }
    }
}

// ---- arrays

// What an array is measured by: its cells in an array memory, its items in a stream memory.
#[derive(Clone, Copy, Debug, PartialEq, Eq)]
pub enum Measure {
    Cells,
    Items,
}

// The cells of array j of a file, whether or not reading has found it right.
pub fn length_of(file: &[u8], j: usize) -> u32
    requires { HasArray file.now j }
    ensures { result ≡ File.length_of (array_at file.now j) }
{
    record_at(file, 3 + 8 * j).p
}

// The side of array j of the first n of a file, as its number; 0 past the last.
pub fn side_in(file: &[u8], n: usize, j: usize) -> u32
    requires { (n ≤ 8) × (3 + 8 * n ≤ length file.now / 4) }
    ensures { result ≡ File.side_of (get_or (arrays_of file.now n) j File.nothing) }
{
    if j < n {
        return numbers::whole_word(file, 3 + 8 * j);
    }
    0
}

// The arrays that a file declares.
#[derive(Clone, Copy)]
pub struct ArrayTable<'a> {
    pub file: &'a [u8],
    pub count: usize,
    pub ghost few: { count ≤ 8 },
    pub ghost there: { 3 + 8 * count ≤ length file.now / 4 },
    pub ghost fit: { Fitting file.now count },
}

impl<'a> ArrayTable<'a> {
    // A number of array j.
    fn number(self, j: usize, field: usize) -> u32
        requires { (j < self.count) × (field < 8) }
        ensures { result ≡ get_or (File.numbers (array_at self.entry.file.now j)) field 0 }
    {
        numbers::whole_word(self.file, 3 + 8 * j + field)
    }

    // The side of array j; none past the last.
    pub fn side(self, j: usize) -> Option<Side>
        ensures { result ≡ side_there (sided (get_or (arrays_of self.entry.file.now self.entry.count) j File.nothing).code) }
    {
        Side::try_from(side_in(self.file, self.count, j)).ok()
    }

    pub fn length(self, j: usize) -> u32
        requires { j < self.count }
        ensures { result ≡ File.length_of (array_at self.entry.file.now j) }
    {
        self.number(j, 1)
    }

    pub fn first(self, j: usize) -> i64
        requires { j < self.count }
        ensures { result ≡ File.first_of (array_at self.entry.file.now j) }
    {
        i64::from(self.number(j, 2))
    }

    pub fn count_of(self, j: usize) -> u32
        requires { j < self.count }
        ensures { result ≡ File.count_of (array_at self.entry.file.now j) }
    {
        self.number(j, 3)
    }

    pub fn step(self, j: usize) -> i64
        requires { j < self.count }
        ensures { result ≡ File.step_of (array_at self.entry.file.now j) }
    {
        numbers::signed(self.number(j, 4))
    }

    // Its cells or its items.
    pub fn size(self, j: usize, m: Measure) -> u32
        requires { j < self.count }
        ensures { result ≡ measure m (array_at self.entry.file.now j) }
    {
        match m {
            Measure::Cells => self.length(j),
            Measure::Items => self.count_of(j),
        }
    }
}

// ---- showing

// The part of a program from a record on, an empty part when past its end.
fn from_record(program: &[u8], n: usize) -> &[u8]
    ensures { result.now ≡ drop (32 * n) program.now }
{
    if n <= program.len() / 32 {
        let at = n * 32;
        &program[at..]
    } else {
        let end = program.len();
        &program[end..]
    }
}

// The same of the array program, for choice 1, or of the stream program, for any other: document 01's own numbers.
pub fn shown<'a>(array: &'a [u8], stream: &'a [u8], choice: u32, n: usize) -> &'a [u8]
    ensures { result.now ≡ Answers.shown array.now stream.now choice n }
{
    if choice == 1 {
        from_record(array, n)
    } else {
        from_record(stream, n)
    }
}

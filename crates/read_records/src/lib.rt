// Whether one record is a statement, by document 01's table of what its fields may hold; an array; or a record of the derivation.
#![tactic(auto)]

ghost use Rattle.std.specs.Prelude.{◌≡◌, ◌<◌, ◌≤◌, ◌-◌, pos, ◌+ℤ◌, ◌*ℤ◌, length, get_or, drop, ◌&&◌, ◌||◌, [], ◌∷◌, eqb, ltb};
ghost use Rattle.numbers.specs.Words as Words;
ghost use Rattle.kernel.specs.Named as Named;
ghost use Rattle.kernel.specs.Reading as Reading;
ghost use Rattle.kernel.specs.File as File;
ghost use Rattle.read_records.specs.View.{kind_of, kind_at, IsTable, scope, row};
ghost use Rattle.parts.specs.Records.{rec};

use Kind::{
    AnInput, AnOperator, AnOutput, ArrayOnly, Bound, Either, Register, StreamOnly, Term, Unused,
};
use kernel::codes::{Code, MINUS_ONE, Row, Rule, Side};
use parts::{ArrayTable, Counts, Rec};

// What a field may hold, and, in a code's first place, which program has it.
#[derive(Clone, Copy, Debug, PartialEq, Eq)]
pub enum Kind {
    Unused,
    Either,
    ArrayOnly,
    StreamOnly,
    Register,
    AnInput,
    AnOutput,
    Term,
    Bound,
    AnOperator,
}

// A row for each code from 1: the program, then p, q, k, x0, x1, x2, x3.
const KINDS: [[Kind; 8]; 11] = [
    [Either, Register, Unused, Term, Term, Term, Term, Term],
    [
        Either, Register, Register, Unused, Unused, Unused, Unused, Unused,
    ],
    [
        Either, Register, Register, Register, AnOperator, Unused, Unused, Unused,
    ],
    [ArrayOnly, Register, AnInput, Term, Term, Term, Term, Term],
    [ArrayOnly, Register, AnOutput, Term, Term, Term, Term, Term],
    [
        StreamOnly, Register, AnInput, Unused, Unused, Unused, Unused, Unused,
    ],
    [
        StreamOnly, Register, AnOutput, Unused, Unused, Unused, Unused, Unused,
    ],
    [Either, Bound, Bound, Bound, Unused, Unused, Unused, Unused],
    [
        Either, Register, Unused, Unused, Unused, Unused, Unused, Unused,
    ],
    [
        Either, Unused, Unused, Unused, Unused, Unused, Unused, Unused,
    ],
    [
        Either, Unused, Unused, Unused, Unused, Unused, Unused, Unused,
    ],
];

// The table. Each use of the constant builds it anew: it is made once for a reading, and lent.
#[derive(Clone, Copy)]
pub struct KindTable {
    pub rows: [[Kind; 8]; 11],
    pub ghost table: { IsTable rows },
}

// The table as document 01 has it.
pub fn kinds() -> KindTable
    ensures { IsTable result.rows }
{
    KindTable { rows: KINDS }
}

impl KindTable {
    // What a field of a code's row may hold.
    fn kind(&self, code: Code, field: usize) -> Kind
        requires { field < 8 }
        ensures { kind_of result ≡ kind_at (Named.code code) field }
    {
        self.rows[u32::from(code) as usize - 1][field]
    }
}

// What a program's fields are held to: whether it is the stream program, its registers, and the file's arrays.
#[derive(Clone, Copy)]
pub struct Scope<'a> {
    pub streaming: bool,
    pub registers: u32,
    pub arrays: ArrayTable<'a>,
}

impl<'a> Scope<'a> {
    // Whether a number names an array of the side.
    fn on(self, side: Side, w: u32) -> bool
        ensures { result ≡ File.on (Named.side side) (get_or (scope self.entry).arrays w File.nothing) }
    {
        self.arrays.side(w as usize) == Some(side)
    }

    // Whether a field of this kind may hold a number.
    fn holds(self, kind: Kind, w: u32) -> bool
        ensures { result ≡ Reading.holds (scope self.entry) (kind_of kind) w }
    {
        // Most fields are unused and hold 0: these are told apart before all others.
        if w == 0 && kind == Unused {
            return true;
        }
        match kind {
            Either => true,
            ArrayOnly => !self.streaming,
            StreamOnly => self.streaming,
            Unused => w == 0,
            Register => w < self.registers,
            AnInput => self.on(Side::Input, w),
            AnOutput => self.on(Side::Output, w),
            Term => numbers::near(1048576, w),
            Bound => numbers::near(65536, w),
            AnOperator => numbers::between(1, 4, w),
        }
    }

    // Whether each of a record's eight numbers is what the code's row of the table says.
    fn row_fits(self, kinds: &KindTable, code: Code, r: Rec) -> bool
        ensures { result ≡ row (scope self.entry) (Named.code code) (rec r) }
    {
        let [x0, x1, x2, x3] = r.x;
        let numbers = [r.code, r.p, r.q, r.k, x0, x1, x2, x3];
        for field in 0..8 {
            if !self.holds(kinds.kind(code, field), numbers[field]) {
                return false;
            }
        }
        true
    }

    // Whether a record is a statement of the program.
    pub fn statement_fits(self, kinds: &KindTable, r: Rec) -> bool
        ensures { result ≡ Reading.statement_fits (scope self.entry) (rec r) }
    {
        let Ok(code) = Code::try_from(r.code) else {
            return false;
        };
        self.row_fits(kinds, code, r) && (code != Code::For || 1 <= r.for_loop().passes)
    }
}

// Whether all are 0.
fn zeros(ws: &[u32]) -> bool
    ensures { result ≡ Reading.zeros ws.now }
{
    ws.iter().all(|w| *w == 0)
}

// ---- arrays

// Whether a code is that of a side.
fn sided(code: u32) -> bool
    ensures { result ≡ (eqb code 1 || eqb code 2) }
{
    Side::try_from(code).is_ok()
}

// Whether the index of the order's last item is inside. Any first index, step and count of 32 bits leave it within 64.
fn last_inside(p: u32, q: u32, k: u32, step: u32) -> bool
    requires { 1 ≤ k }
    ensures { result ≡ Words.inside p (pos q +ℤ Words.signed step *ℤ pos (k - 1)) }
{
    let first = q as i64;
    let passed = (k - 1) as i64;
    numbers::inside(p, first + numbers::signed(step) * passed)
}

// Whether a record is an array.
pub fn array_fits(a: Rec) -> bool
    ensures { result ≡ Reading.array_fits (rec a) }
{
    sided(a.code)
        && numbers::between(1, 4096, a.p)
        && numbers::between(1, a.p, a.k)
        && a.x[0] != 0
        && numbers::near(4096, a.x[0])
        && zeros(&a.x[1..])
        && a.q < a.p
        && last_inside(a.p, a.q, a.k, a.x[0])
}

// ---- records of the derivation

// Whether a record's k and x0 to x3 are a form.
fn form_fits(d: Rec) -> bool
    ensures { result ≡ Reading.form_fits (rec d) }
{
    numbers::near(1048576, d.k) && d.x.iter().all(|w| numbers::near(1048576, *w))
}

// Rules 1 to 10.
fn bare_fits(d: Rec) -> bool
    ensures { result ≡ (Words.between 1 10 d.code && Reading.zeros (drop 1 (File.numbers (rec d)))) }
{
    let [x0, x1, x2, x3] = d.x;
    Rule::try_from(d.code).is_ok() && zeros(&[d.p, d.q, d.k, x0, x1, x2, x3])
}

// The row of code 11.
fn array_row_fits(arrays: usize, d: Rec) -> bool
    ensures { result ≡ (ltb d.p arrays && eqb d.q 0 && Reading.form_fits (rec d)) }
{
    (d.p as usize) < arrays && d.q == 0 && form_fits(d)
}

// Of a row of code 12: q is -1, for a buffer that holds nothing.
fn holds_nothing(d: Rec) -> bool
    ensures { result ≡ (eqb d.q Reading.minus_one && Reading.zeros (d.k ∷ (rec d).x)) }
{
    let [x0, x1, x2, x3] = d.x;
    d.q == MINUS_ONE && zeros(&[d.k, x0, x1, x2, x3])
}

// The row of code 12.
fn buffer_row_fits(counts: Counts, d: Rec) -> bool
    ensures { result ≡ (ltb d.p counts.b && (eqb d.q Reading.minus_one && Reading.zeros (d.k ∷ (rec d).x) || ltb d.q counts.a && Reading.form_fits (rec d))) }
{
    (d.p as usize) < counts.b && (holds_nothing(d) || (d.q as usize) < counts.a && form_fits(d))
}

// Whether a record stands in the derivation of a kernel of so many arrays and buffers.
pub fn rule_fits(counts: Counts, d: Rec) -> bool
    ensures { (K : File.Kernel) → length K.arrays ≡ counts.a → K.buffers ≡ counts.b → result ≡ Reading.rule_fits K (rec d) }
{
    if d.code == u32::from(Row::Position) {
        array_row_fits(counts.a, d)
    } else if d.code == u32::from(Row::Buffer) {
        buffer_row_fits(counts, d)
    } else {
        bare_fits(d)
    }
}

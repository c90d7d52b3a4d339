// A line of the table of rules: whether it fits the next statements of both programs, what it asks of the ledger, and what it makes of it.
#![tactic(auto)]

ghost use Rattle.std.specs.Prelude.{◌≡◌, ◌&&◌, ◌⊎◌, ℕ, ◌+◌, ◌^◌, ◌<◌, ◌≤◌, eqb, leb, Ok};
ghost use Rattle.numbers.specs.Words.{between};
ghost use Rattle.numbers.specs.Result.{need};
ghost use Rattle.forms.specs.Form as F;
ghost use Rattle.forms.specs.Code.{form, loops, Within, Turning};
ghost use Rattle.kernel.specs.File as File;
ghost use Rattle.kernel.specs.Ledger as L;
ghost use Rattle.kernel.specs.Derivation as Derivation;
ghost use Rattle.kernel.specs.Check as Check;
ghost use Rattle.kernel.specs.Named.{code, misfit};
ghost use Rattle.kernel.specs.Named as Names;
ghost use Rattle.kernel.specs.declared.codes.Rule.TheVariants as R;
ghost use Rattle.parts.specs.Records.{rec};
ghost use Rattle.parts.specs.Parts as Parts;
ghost use Rattle.parts.specs.Arrays.{arrays_of, array_at};
ghost use Rattle.check_ledger.specs.View.{content, held, Bounded};
ghost use Rattle.check_rules.specs.View as View;
ghost use Rattle.check_rules.specs.View.{Named, answered};

use check_ledger::{Held, Ledger};
use forms::{Form, Loops};
use kernel::codes::{Code, NoCode, Rule};
use kernel::refusals::Misfit;
use parts::{ArrayTable, Kernel, Rec};

// ---- the statements

// The next statement of each program.
#[derive(Clone, Copy)]
pub struct Pair {
    pub array: Rec,
    pub stream: Rec,
}

impl Pair {
    fn codes(self, c: Code, d: Code) -> bool
        ensures { result ≡ Check.codes (code c) (code d) (rec self.array) (rec self.stream) }
    {
        self.array.code == u32::from(c) && self.stream.code == u32::from(d)
    }

    fn same_pq(self) -> bool
        ensures { result ≡ Check.same_pq (rec self.array) (rec self.stream) }
    {
        self.array.p == self.stream.p && self.array.q == self.stream.q
    }

    fn same_pqk(self) -> bool
        ensures { result ≡ Check.same_pqk (rec self.array) (rec self.stream) }
    {
        self.same_pq() && self.array.k == self.stream.k
    }

    // Whether all eight numbers are the same.
    fn identical(self) -> bool
        ensures { result ≡ Check.identical (rec self.array) (rec self.stream) }
    {
        self.array == self.stream
    }

    // ---- the rules

    fn same_fits(self) -> bool
        ensures { result ≡ (between File.sets File.works (rec self.array).code && Check.identical (rec self.array) (rec self.stream)) }
    {
        numbers::between(u32::from(Code::Set), u32::from(Code::Work), self.array.code)
            && self.identical()
    }

    // A read by the codes of load and read, a write by those of store and write.
    fn item_fits(self, c: Code, d: Code) -> bool
        ensures { result ≡ (Check.codes (code c) (code d) (rec self.array) (rec self.stream) && Check.same_pq (rec self.array) (rec self.stream)) }
    {
        self.codes(c, d) && self.same_pq()
    }

    fn fill_fits(self, registers: usize) -> bool
        ensures { result ≡ (eqb (rec self.stream).code File.reads && leb registers (rec self.stream).p) }
    {
        self.stream.code == u32::from(Code::Read) && registers <= (self.stream.p as usize)
    }

    fn use_fits(self, registers: usize) -> bool
        ensures { result ≡ (Check.codes File.loads File.copies (rec self.array) (rec self.stream) && Check.same_p (rec self.array) (rec self.stream) && leb registers (rec self.stream).q) }
    {
        self.codes(Code::Load, Code::Copy)
            && self.array.p == self.stream.p
            && registers <= (self.stream.q as usize)
    }

    fn move_fits(self, registers: usize) -> bool
        ensures { result ≡ (eqb (rec self.stream).code File.copies && leb registers (rec self.stream).p && leb registers (rec self.stream).q) }
    {
        self.stream.code == u32::from(Code::Copy)
            && registers <= (self.stream.p as usize)
            && registers <= (self.stream.q as usize)
    }

    fn if_fits(self) -> bool
        ensures { result ≡ (Check.codes File.ifs File.ifs (rec self.array) (rec self.stream) && Check.same_p (rec self.array) (rec self.stream)) }
    {
        self.codes(Code::If, Code::If) && self.array.p == self.stream.p
    }

    // Every rule but a for; a code that is no rule's fits nothing.
    pub fn fits(self, rule: Result<Rule, NoCode>, registers: usize) -> bool
        requires { (rule ≡ Ok R.For → ⊥) × (registers ≤ 32) }
        ensures { (K : File.Kernel) (c : Derivation.Place) → K.registers ≡ registers → result ≡ Check.fits K c (View.meant rule) (rec self.array) (rec self.stream) }
    {
        match rule {
            Ok(Rule::Same) => self.same_fits(),
            Ok(Rule::Read) => self.item_fits(Code::Load, Code::Read),
            Ok(Rule::Fill) => self.fill_fits(registers),
            Ok(Rule::Use) => self.use_fits(registers),
            Ok(Rule::Move) => self.move_fits(registers),
            Ok(Rule::Write) => self.item_fits(Code::Store, Code::Write),
            Ok(Rule::For) => unreachable!(),
            Ok(Rule::If) => self.if_fits(),
            Ok(Rule::Else) => self.codes(Code::Else, Code::Else),
            Ok(Rule::End) => self.codes(Code::End, Code::End),
            Err(_) => false,
        }
    }

    // A for: its two statements, and the rows after it; `level` loops are around it.
    pub fn for_fits(self, kernel: Kernel, rule: usize, level: usize) -> bool
        requires { (rule ≤ 1024) × (level ≤ 4) }
        ensures { View.ForFits kernel.entry.file.now kernel.entry.counts rule level (rec self.array) (rec self.stream) result }
    {
        let c = kernel.counts;
        let records = kernel.sections().derivation();
        self.codes(Code::For, Code::For)
            && self.same_pqk()
            && check_rows::rows_fit(records, level + 1, rule + 1, c.a, c.b)
    }

    // ---- what a rule asks about

    // The stream whose position it asks about.
    pub fn stream_of(self, rule: Result<Rule, NoCode>) -> usize
        ensures { result ≡ View.stream_of (View.meant rule) (rec self.array) (rec self.stream) }
    {
        match rule {
            Ok(Rule::Read | Rule::Write) => self.array.q as usize,
            Ok(Rule::Fill) => self.stream.q as usize,
            _ => 0,
        }
    }

    // The buffer whose content it asks about.
    pub fn buffer_of(self, rule: Result<Rule, NoCode>, registers: usize) -> usize
        requires { (rule ≡ Ok R.Use) ⊎ (rule ≡ Ok R.Move) → registers ≤ self.stream.q }
        ensures { result ≡ View.buffer_of registers (View.meant rule) (rec self.stream) }
    {
        match rule {
            Ok(Rule::Use | Rule::Move) => (self.stream.q as usize) - registers,
            _ => 0,
        }
    }
}

// ---- what a rule asks

// Refused with this misfit unless a condition holds.
pub fn need(m: Misfit, holds: bool) -> Result<(), Misfit>
    ensures { answered result ≡ need (misfit m) holds }
{
    if holds { Ok(()) } else { Err(m) }
}

// Whether a position of stream q stays below its count for every choice of counter values.
fn below_count(arrays: ArrayTable, q: usize, position: Form, around: Loops) -> bool
    requires { (q < arrays.count) × Within (2 ^ 50) (2 ^ 33) position × Turning around }
    ensures { result ≡ F.below (loops around) (File.count_of (array_at arrays.entry.file.now q)) (form position) }
{
    position.below(around, arrays.count_of(q))
}

// Whether a record's index form is the next index at a position of its array's stream.
fn at_next(arrays: ArrayTable, a: Rec, position: Form, around: Loops) -> bool
    requires { (a.q < arrays.count) × Within (2 ^ 50) (2 ^ 33) position }
    ensures { result ≡ F.same (loops around) (File.form (rec a)) (View.next_at (array_at arrays.entry.file.now a.q) (form position)) }
{
    let q = a.q as usize;
    let next = position.along(arrays.first(q), arrays.step(q));
    a.form().same(next, around)
}

// Rules 2 and 6: the position below the count (11), the load or store at the next index (12).
fn item_asked(arrays: ArrayTable, a: Rec, position: Form, around: Loops) -> Result<(), Misfit>
    requires { (a.q < arrays.count) × Within (2 ^ 50) (2 ^ 33) position × Turning around }
    ensures { (K : File.Kernel) → K.arrays ≡ arrays_of arrays.entry.file.now arrays.entry.count → answered result ≡ View.next_item K (loops around) (rec a) (form position) }
{
    need(
        Misfit::PastCount,
        below_count(arrays, a.q as usize, position, around),
    )?;
    need(Misfit::NotNextIndex, at_next(arrays, a, position, around))
}

// Rule 3: the position below the count (11).
fn fill_asked(arrays: ArrayTable, s: Rec, position: Form, around: Loops) -> Result<(), Misfit>
    requires { (s.q < arrays.count) × Within (2 ^ 50) (2 ^ 33) position × Turning around }
    ensures { (K : File.Kernel) → K.arrays ≡ arrays_of arrays.entry.file.now arrays.entry.count → answered result ≡ View.room_left K (loops around) (rec s).q (form position) }
{
    need(
        Misfit::PastCount,
        below_count(arrays, s.q as usize, position, around),
    )
}

// Rule 4: the buffer holds the load's array and index (13).
fn use_asked(a: Rec, h: Option<Held>, around: Loops) -> Result<(), Misfit>
    ensures { answered result ≡ need 13 (L.holds_just (loops around) (L.held (rec a).q (File.form (rec a))) (held h)) }
{
    let wanted = Held {
        array: a.q as usize,
        index: a.form(),
    };
    need(Misfit::NotHeld, wanted.is_in(h, around))
}

// Rule 5: the buffer copied holds something (13).
fn move_asked(h: Option<Held>) -> Result<(), Misfit>
    ensures { answered result ≡ need 13 (Check.something (held h)) }
{
    need(Misfit::NotHeld, h.is_some())
}

// ---- rules 1 to 6

// A rule from 1 to 6 that fits the next statements of a kernel: the arrays and buffers that they name are there.
#[derive(Clone, Copy)]
pub struct Line<'a> {
    pub kernel: Kernel<'a>,
    pub rule: Rule,
    pub pair: Pair,
    pub ghost named: { Named kernel.counts (Names.rule rule) (rec pair.array) (rec pair.stream) } by { View.Named-prop kernel.counts (Names.rule rule) (rec pair.array) (rec pair.stream) },
}

impl Line<'_> {
    // The stream whose position it asks about.
    pub fn stream_of(self) -> usize
        ensures { result ≡ View.stream_of (Names.rule self.entry.rule) (rec self.entry.pair.array) (rec self.entry.pair.stream) }
    {
        self.pair.stream_of(Ok(self.rule))
    }

    // The buffer whose content it asks about.
    pub fn buffer_of(self) -> usize
        ensures { result ≡ View.buffer_of self.entry.kernel.counts.r (Names.rule self.entry.rule) (rec self.entry.pair.stream) }
    {
        self.pair.buffer_of(Ok(self.rule), self.kernel.counts.r)
    }

    // What it refuses, with this position of its stream and this content of its buffer: 11, 12 or 13.
    pub fn asked(self, position: Form, h: Option<Held>, around: Loops) -> Result<(), Misfit>
        requires { Within (2 ^ 50) (2 ^ 33) position × Turning around }
        ensures { answered result ≡ View.asked (Parts.kernel self.entry.kernel.file.now self.entry.kernel.counts) (loops around) (Names.rule self.entry.rule) (rec self.entry.pair.array) (rec self.entry.pair.stream) (form position) (held h) }
    {
        let arrays = self.kernel.arrays();
        match self.rule {
            Rule::Same => Ok(()),
            Rule::Read | Rule::Write => item_asked(arrays, self.pair.array, position, around),
            Rule::Fill => fill_asked(arrays, self.pair.stream, position, around),
            Rule::Use => use_asked(self.pair.array, h, around),
            Rule::Move => move_asked(h),
            _ => Err(Misfit::DoesNotFit),
        }
    }

    // What it makes of the ledger.
    fn stepped(self, l: Ledger) -> Ledger
        requires { (m : ℕ) × Bounded m l × (m ≤ 4096) }
        ensures { View.Steps self.entry.kernel.file.now self.entry.kernel.counts (Names.rule self.entry.rule) (rec self.entry.pair.array) (rec self.entry.pair.stream) l result }
    {
        let r = self.kernel.counts.r;
        let s = self.pair.stream;
        match self.rule {
            Rule::Read | Rule::Write => l.passed(self.pair.array.q as usize),
            Rule::Fill => filled(self.kernel, s, l),
            Rule::Move => l.moved((s.p as usize) - r, (s.q as usize) - r),
            _ => l,
        }
    }
}

// A fill: the buffer holds the next index of the stream, whose position is then one more.
fn filled(kernel: Kernel, s: Rec, l: Ledger) -> Ledger
    requires { Named kernel.counts Derivation.fill_rule (rec s) (rec s) × ((m : ℕ) × Bounded m l × (m ≤ 4096)) }
    ensures { View.Steps kernel.entry.file.now kernel.entry.counts Derivation.fill_rule (rec s) (rec s) l result }
{
    let arrays = kernel.arrays();
    let q = s.q as usize;
    let first = arrays.first(q);
    let step = arrays.step(q);
    l.fill((s.p as usize) - kernel.counts.r, q, first, step)
}

// Whether a rule changes the ledger: all but same and use.
pub fn steps(rule: Result<Rule, NoCode>) -> bool
    ensures { result ≡ View.steps (View.meant rule) }
{
    !matches!(rule, Ok(Rule::Same | Rule::Use))
}

// The lent ledger becomes what a rule from 1 to 6 makes of it.
pub fn step(line: Line, l: &mut Ledger)
    requires { (m : ℕ) × Bounded m l.old × (m ≤ 4096) }
    ensures { View.Steps line.entry.kernel.file.now line.entry.kernel.counts (Names.rule line.entry.rule) (rec line.entry.pair.array) (rec line.entry.pair.stream) l.old l.new }
{
    *l = line.stepped(*l);
}

// How many statements of the array program a rule takes.
pub fn arrays_taken(rule: Result<Rule, NoCode>) -> usize
    ensures { result ≡ View.arrays_taken (View.meant rule) }
{
    match rule {
        Ok(Rule::Fill | Rule::Move) => 0,
        _ => 1,
    }
}

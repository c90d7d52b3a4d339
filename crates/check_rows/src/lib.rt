// Hold rows: whether they fit, the ledger that they state, and, with a counter put or moved in them, whether they are true and what they leave.
#![tactic(auto)]

ghost use Rattle.std.specs.Prelude.{◌≡◌, ◌&&◌, map, ℕ, ◌+◌, ◌^◌, ◌≤◌, eqb, take, drop};
ghost use Rattle.numbers.specs.Lists.{alike};
ghost use Rattle.forms.specs.Form as F;
ghost use Rattle.forms.specs.Code.{loops};
ghost use Rattle.kernel.specs.File as File;
ghost use Rattle.kernel.specs.Ledger as L;
ghost use Rattle.kernel.specs.Derivation as Derivation;
ghost use Rattle.kernel.specs.Check as Check;
ghost use Rattle.kernel.specs.Named as Named;
ghost use Rattle.parts.specs.Records.{rec};
ghost use Rattle.parts.specs.Tables.{rows};
ghost use Rattle.check_ledger.specs.View as View;
ghost use Rattle.check_ledger.specs.View.{Bounded};
ghost use Rattle.check_rows.specs.View.{rows_fit_from, SmallForms, FromRows};
ghost use Rattle.check_rows.specs.Changes.{with_change, SmallHeld, Stated};

use check_ledger::{Held, Ledger};
use forms::{Form, Loops};
use kernel::codes::{MINUS_ONE, Row};
use parts::{Rec, RecordTable};

pub mod change;

pub use change::{Change, Counter};

// ---- do they fit

// Whether a row is of this kind, has this p, and names only the first `level` counters.
fn row_fits(r: Rec, kind: Row, p: u32, level: usize) -> bool
    ensures { result ≡ (eqb (rec r).code (Named.row kind) && eqb (rec r).p p && F.around level (File.form (rec r))) }
{
    r.code == u32::from(kind) && r.p == p && r.form().around(level)
}

// Whether n rows of a kind stand from record `from` on, by p from 0 up, that name only the first `level` counters.
fn in_order(records: RecordTable, kind: Row, level: usize, from: usize, n: usize) -> bool
    requires { (from ≤ 4096) × (n ≤ 16) }
    ensures { result ≡ Check.in_order (Named.row kind) level 0 n (drop from (rows records.entry)) }
{
    (0..n).all(|m| {
        from + m < records.part.count && row_fits(records.record(from + m), kind, m as u32, level)
    })
}

// Whether the rows of a for stand from record `from` on: its arrays', then its buffers'.
pub fn rows_fit(
    records: RecordTable,
    level: usize,
    from: usize,
    arrays: usize,
    buffers: usize,
) -> bool
    requires { (from ≤ 2048) × (arrays ≤ 8) × (buffers ≤ 16) }
    ensures { result ≡ rows_fit_from level from arrays buffers (rows records.entry) }
{
    in_order(records, Row::Position, level, from, arrays)
        && in_order(records, Row::Buffer, level, from + arrays, buffers)
}

// ---- what they state

// What a buffer row states: an input array and an index form, or nothing.
fn row_held(r: Rec) -> Option<Held>
    ensures { View.held result ≡ Derivation.row_held (rec r) }
{
    if r.q == MINUS_ONE {
        return None;
    }
    Some(Held {
        array: r.q as usize,
        index: r.form(),
    })
}

// The first n positions of a ledger become those that rows from record `from` on state.
fn positions(records: RecordTable, from: usize, n: usize, l: &mut Ledger)
    requires { (from + n ≤ records.part.count) × (n ≤ 8) × SmallForms (rows records) × Stated l.old }
    ensures { (View.positions_of n l.new ≡ map File.form (take n (drop from (rows records.entry)))) × (l.new.buffers ≡ l.old.buffers) × Stated l.new }
{
    for i in 0..n {
        l.positions[i] = records.record(from + i).form();
    }
}

// The first n buffers of a ledger come to hold what rows from record `from` on state.
fn buffers(records: RecordTable, from: usize, n: usize, l: &mut Ledger)
    requires { (from + n ≤ records.part.count) × (n ≤ 16) × SmallForms (rows records) × Stated l.old }
    ensures { (View.held_of n l.new ≡ map Derivation.row_held (take n (drop from (rows records.entry)))) × (l.new.positions ≡ l.old.positions) × Stated l.new }
{
    for i in 0..n {
        l.buffers[i] = row_held(records.record(from + i));
    }
}

// A ledger becomes what the rows after the for at record `rule` of the derivation state, of so many streams and buffers.
pub fn state(records: RecordTable, rule: usize, arrays: usize, buffers: usize, l: &mut Ledger)
    requires { (rule + 1 + arrays + buffers ≤ records.part.count) × (arrays ≤ 8) × (buffers ≤ 16) × SmallForms (rows records) × Stated l.old }
    ensures { FromRows (rows records.entry) rule arrays buffers l.new × Stated l.new }
{
    positions(records, rule + 1, arrays, l);
    self::buffers(records, rule + 1 + arrays, buffers, l);
}

// What the hold rows of a for state: a ledger, lent, of so many streams and buffers, its forms those of a file.
#[derive(Clone, Copy)]
pub struct HoldRows<'a> {
    pub ledger: &'a Ledger,
    pub arrays: usize,
    pub buffers: usize,
    pub ghost stated: { Stated ledger.now },
    pub ghost few_arrays: { arrays ≤ 8 },
    pub ghost few_buffers: { buffers ≤ 16 },
}

// Whether a buffer row is nothing or what the buffer holds; nothing is not changed.
fn row_true(row: Option<Held>, buffer: Option<Held>, change: Change, around: Loops) -> bool
    requires { SmallHeld row }
    ensures { result ≡ L.row_true (loops around) (L.each_held (with_change change) (View.held row)) (View.held buffer) }
{
    check_ledger::row_true(change.held(row), buffer, around)
}

impl HoldRows<'_> {
    // ---- are they true, so changed, with these loops around

    // Whether each position row equals the ledger.
    fn positions_true(self, l: &Ledger, change: Change, around: Loops) -> bool
        ensures { (b : ℕ) → result ≡ L.same_positions (loops around) (L.each (with_change change) (View.ledger self.entry.arrays b self.entry.ledger.now)) (View.ledger self.entry.arrays b l.now) }
    {
        self.ledger.positions[..self.arrays]
            .iter()
            .zip(&l.positions[..self.arrays])
            .all(|(f, g)| change.form(*f).same(*g, around))
    }

    // Whether each buffer row is nothing or what its buffer holds.
    fn buffers_true(self, l: &Ledger, change: Change, around: Loops) -> bool
        ensures { result ≡ alike (L.row_true (loops around)) (map (L.each_held (with_change change)) (View.held_of self.entry.buffers self.entry.ledger.now)) (View.held_of self.entry.buffers l.now) }
    {
        self.ledger.buffers[..self.buffers]
            .iter()
            .zip(&l.buffers[..self.buffers])
            .all(|(row, h)| row_true(*row, *h, change, around))
    }

    // Whether each position row equals the ledger and each buffer row is nothing or equals it.
    pub fn are_true(self, l: &Ledger, change: Change, around: Loops) -> bool
        ensures { result ≡ L.rows_true (loops around) (L.each (with_change change) (View.ledger self.entry.arrays self.entry.buffers self.entry.ledger.now)) (View.ledger self.entry.arrays self.entry.buffers l.now) }
    {
        self.positions_true(l, change, around) && self.buffers_true(l, change, around)
    }

    // ---- what they leave, so changed

    // The positions of a ledger become those of the rows.
    fn leave_positions(self, change: Change, l: &mut Ledger)
        ensures { (View.positions_of self.entry.arrays l.new ≡ map (with_change change) (View.positions_of self.entry.arrays self.entry.ledger.now)) × (l.new.buffers ≡ l.old.buffers) × ((n : ℕ) → Bounded n l.old → Bounded n l.new) }
    {
        for i in 0..self.arrays {
            l.positions[i] = change.form(self.ledger.positions[i]);
        }
    }

    // The buffers of a ledger come to hold what those of the rows hold.
    fn leave_buffers(self, change: Change, l: &mut Ledger)
        ensures { (View.held_of self.entry.buffers l.new ≡ map (L.each_held (with_change change)) (View.held_of self.entry.buffers self.entry.ledger.now)) × (l.new.positions ≡ l.old.positions) }
    {
        for i in 0..self.buffers {
            l.buffers[i] = change.held(self.ledger.buffers[i]);
        }
    }

    // A ledger becomes that of the rows.
    pub fn leave(self, change: Change, l: &mut Ledger)
        ensures { (View.ledger self.entry.arrays self.entry.buffers l.new ≡ L.each (with_change change) (View.ledger self.entry.arrays self.entry.buffers self.entry.ledger.now)) × ((n : ℕ) → Bounded n l.old → Bounded n l.new) }
    {
        self.leave_positions(change, l);
        self.leave_buffers(change, l);
    }
}

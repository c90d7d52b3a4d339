// The ledger: for each stream a position, for each buffer an input array and an index form, or nothing. It is kept in one place while rules are
// taken, and lent; a step takes it by value and hands back the new one.
#![tactic(auto)]

ghost use Rattle.std.specs.Prelude.{◌≡◌, ℕ, ◌+◌, ◌^◌, ◌<◌, ◌≤◌};
ghost use Rattle.numbers.specs.Bounds.{Small};
ghost use Rattle.forms.specs.Code.{loops};
ghost use Rattle.kernel.specs.Ledger as L;
ghost use Rattle.check_ledger.specs.View.{Bounded, Filled, Kept, Took, content, held, ledger, zeros};

use forms::{Form, Loops};

// ---- what a buffer holds

// An input array and an index form.
#[derive(Clone, Copy)]
pub struct Held {
    pub array: usize,
    pub index: Form,
}

impl Held {
    // Whether a buffer holds just this, with the loops around.
    pub fn is_in(self, buffer: Option<Held>, around: Loops) -> bool
        ensures { result ≡ L.holds_just (loops around) (content self) (held buffer) }
    {
        match buffer {
            Some(h) => self.array == h.array && self.index.same(h.index, around),
            None => false,
        }
    }
}

// Whether a buffer row is nothing or what the buffer holds.
pub fn row_true(row: Option<Held>, buffer: Option<Held>, around: Loops) -> bool
    ensures { result ≡ L.row_true (loops around) (held row) (held buffer) }
{
    row.is_none_or(|h| h.is_in(buffer, around))
}

// What both branches have equal, else nothing.
fn kept(first: Option<Held>, second: Option<Held>, around: Loops) -> Option<Held>
    ensures { held result ≡ L.kept (loops around) (held first) (held second) }
{
    first.filter(|h| h.is_in(second, around))
}

// ---- the ledger

// The positions of eight streams, and what sixteen buffers hold.
#[derive(Clone, Copy)]
pub struct Ledger {
    pub positions: [Form; 8],
    pub buffers: [Option<Held>; 16],
}

impl Ledger {
    // At the start positions are 0 and buffers hold nothing.
    pub fn fresh() -> Ledger
        ensures { result ≡ zeros }
    {
        Ledger {
            positions: [Form::constant(0); 8],
            buffers: [None; 16],
        }
    }

    // ---- steps: each takes the ledger and hands back the new one

    // The position of stream q is one more.
    pub fn passed(mut self, q: usize) -> Ledger
        requires { (q < 8) × ((n : ℕ) × Bounded n self × (n ≤ 4096)) }
        ensures { ((a b : ℕ) → q < a → ledger a b result ≡ L.passed q (ledger a b self)) × ((n : ℕ) → Bounded n self → Bounded (n + 1) result) }
    {
        self.positions[q] = self.positions[q].plus_one();
        self
    }

    // Buffer b holds the next index of stream q, whose order has this first index and step; then the position is one more.
    pub fn fill(mut self, b: usize, q: usize, first: i64, step: i64) -> Ledger
        requires { (b < 16) × (q < 8) × ((n : ℕ) × Bounded n self × (n ≤ 4096)) × Small (2 ^ 12) first × Small (2 ^ 12) step }
        ensures { Filled b q first step self result × ((n : ℕ) → Bounded n self → Bounded (n + 1) result) }
    {
        let index = self.positions[q].along(first, step);
        self.buffers[b] = Some(Held { array: q, index });
        self.passed(q)
    }

    // Buffer `to` then holds the same as buffer `from`.
    pub fn moved(mut self, to: usize, from: usize) -> Ledger
        requires { (to < 16) × (from < 16) }
        ensures { ((a d : ℕ) → from < d → ledger a d result ≡ L.move_step to from (ledger a d self)) × ((n : ℕ) → Bounded n self → Bounded n result) }
    {
        self.buffers[to] = self.buffers[from];
        self
    }

    // ---- two ledgers, with the loops around; of each, the first a positions and the first b buffers count

    // Whether the positions are those of another ledger.
    pub fn same_positions(&self, other: &Ledger, a: usize, around: Loops) -> bool
        requires { a ≤ 8 }
        ensures { (b : ℕ) → result ≡ L.same_positions (loops around) (ledger a b self.now) (ledger a b other.now) }
    {
        self.positions[..a]
            .iter()
            .zip(&other.positions[..a])
            .all(|(f, g)| f.same(*g, around))
    }

    // The first a positions become those of another ledger.
    fn take_positions(&mut self, from: &Ledger, a: usize)
        requires { a ≤ 8 }
        ensures { Took a from.now self.old self.new }
    {
        self.positions[..a].copy_from_slice(&from.positions[..a]);
    }

    // Of the first b buffers those stay that another ledger has equal, and the others hold nothing.
    fn keep_buffers(&mut self, first: &Ledger, b: usize, around: Loops)
        requires { b ≤ 16 }
        ensures { Kept b (loops around) first.now self.old self.new }
    {
        for i in 0..b {
            self.buffers[i] = kept(first.buffers[i], self.buffers[i], around);
        }
    }

    // After an if the ledger of its second branch takes the positions of the first, and of each buffer what both branches have equal, else nothing.
    // In line, as `check_take::leave_if` is.
    #[inline(always)]
    pub fn merge(&mut self, first: &Ledger, a: usize, b: usize, around: Loops)
        requires { (a ≤ 8) × (b ≤ 16) }
        ensures { (ledger a b self.new ≡ L.merged (loops around) (ledger a b first.now) (ledger a b self.old)) × ((n : ℕ) → Bounded n first.now → Bounded n self.old → Bounded n self.new) }
    {
        self.take_positions(first, a);
        self.keep_buffers(first, b, around);
    }
}

// What is made of a form when the counter of a loop level is changed.

ghost use Rattle.std.specs.Prelude.{◌^◌};
ghost use Rattle.numbers.specs.Bounds.{Small};
ghost use Rattle.check_rows.specs.Counters.{amount};

use check_ledger::Held;
use forms::Form;

// A counter is put at a value, or goes a step on.
#[derive(Clone, Copy, Debug, PartialEq, Eq)]
pub enum Counter {
    At(i64),
    By(i64),
}

// What is done to the counter of a level, by a number as a record has it or a loop comes to.
#[derive(Clone, Copy)]
pub struct Change {
    pub level: usize,
    pub counter: Counter,
    pub ghost small: { Small (2 ^ 16) (amount counter) },
}

impl Change {
    ghost use Rattle.std.specs.Prelude.{◌≡◌};
    ghost use Rattle.forms.specs.Code.{form, Within};
    ghost use Rattle.kernel.specs.Ledger as L;
    ghost use Rattle.check_ledger.specs.View.{held};
    ghost use Rattle.check_rows.specs.Changes.{with_change, SmallHeld};

    // A form with the counter changed.
    pub fn form(self, f: Form) -> Form
        requires { Within (2 ^ 20) (2 ^ 20) f }
        ensures { (form result ≡ with_change self (form f)) × Within (2 ^ 37) (2 ^ 20) result }
    {
        match self.counter {
            Counter::At(c) => f.put_at(self.level, c),
            Counter::By(step) => f.moved_by(self.level, step),
        }
    }

    // What a buffer holds, its index changed.
    pub fn held(self, buffer: Option<Held>) -> Option<Held>
        requires { SmallHeld buffer }
        ensures { held result ≡ L.each_held (with_change self) (held buffer) }
    {
        let h = buffer?;
        let index = self.form(h.index);
        Some(Held {
            array: h.array,
            index,
        })
    }
}

// The counters of the loops around a statement, and how they change at a for and at an if.
#![tactic(auto)]

ghost use Rattle.std.specs.Prelude.{◌≡◌, ◌-◌, ◌^◌, ◌≤◌, ◌<◌, set};
ghost use Rattle.numbers.specs.Bounds.{Small};
ghost use Rattle.forms.specs.Form as F;
ghost use Rattle.forms.specs.Code.{loop};
ghost use Rattle.kernel.specs.Machine as Machine;
ghost use Rattle.kernel.specs.Guarantees.{LoopFits};
ghost use Rattle.run_loops.specs.View.{counters, CountersSmall};

use forms::Loop;

// How many more blocks may be opened; how many loops there are; and the counters of the four levels, 0 where no loop runs.
#[derive(Clone, Copy)]
pub struct Counters {
    pub left: usize,
    pub level: usize,
    pub values: [i64; 4],
}

// The counter in pass m.
fn counter(l: Loop, m: usize) -> i64
    requires { LoopFits (loop l) × (m < l.passes) }
    ensures { (result ≡ F.counter (loop l) m) × Small (2 ^ 17) (F.counter (loop l) m) }
{
    l.first + l.step * (m as i64)
}

impl Counters {
    // The four levels' counters, with c for that of the next level.
    fn counting(self, c: i64) -> [i64; 4]
        requires { self.level < 4 }
        ensures { result ≡ set self.values self.level c }
    {
        let [c0, c1, c2, c3] = self.values;
        match self.level {
            0 => [c, c1, c2, c3],
            1 => [c0, c, c2, c3],
            2 => [c0, c1, c, c3],
            _ => [c0, c1, c2, c],
        }
    }

    // The counters in the body of a loop, in pass m.
    pub fn in_pass(mut self, l: Loop, m: usize) -> Self
        requires { CountersSmall self × LoopFits (loop l) × (m < l.passes) × (1 ≤ self.left) × (self.level < 4) }
        ensures { (counters result ≡ Machine.in_pass (loop l) (counters self) m) × (result.left ≡ self.left - 1) × CountersSmall result }
    {
        self.values = self.counting(counter(l, m));
        self.left -= 1;
        self.level += 1;
        self
    }

    // The counters in a block of an if.
    pub fn in_if(self) -> Self
        requires { 1 ≤ self.left }
        ensures { result ≡ record self { left = self.left - 1 } }
    {
        Counters {
            left: self.left - 1,
            ..self
        }
    }
}

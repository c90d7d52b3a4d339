// Statements that hold no block: registers, cells of arrays and items of streams.
#![tactic(auto)]

ghost use Rattle.std.specs.Prelude.{◌≡◌, List, ℕ, ◌+◌, ◌<◌, ◌^◌, nat_abs, Ok, OnOk};
ghost use Rattle.numbers.specs.Words.{words};
ghost use Rattle.forms.specs.Code.{form, Within};
ghost use Rattle.kernel.specs.File as File;
ghost use Rattle.kernel.specs.Machine as Machine;
ghost use Rattle.kernel.specs.Named.{reason};
ghost use Rattle.parts.specs.Statements.{operator, op};
ghost use Rattle.run_loops.specs.View.{counters, CountersSmall};
ghost use Rattle.run_ops.specs.States.{state, worked};
ghost use Rattle.run_ops.specs.Layout.{layout, cell_at, Whole};
ghost use Rattle.run_ops.specs.Statements.{Performs, Steps};

use forms::Form;
use kernel::refusals::Reason;
use parts::statements::{Op, Operator};
use run_loops::Counters;

// Of each array its size and where it begins in its side's memory; and the input memory.
#[derive(Clone, Copy)]
pub struct Layout<'a> {
    pub sizes: [u32; 8],
    pub bases: [u32; 8],
    pub input: &'a [u8],
}

// The registers, unset or a word, and of each stream how many items were read or written.
#[derive(Clone, Copy)]
pub struct State {
    pub registers: [Option<u32>; 48],
    pub places: [u32; 8],
}

impl<'a> Layout<'a> {
    // Where the cell of array q that a number names is in its side's memory, or the reason to stick.
    fn cell(&self, q: usize, z: i64, why: Reason) -> Result<usize, Reason>
        requires { q < 8 }
        ensures { (worked result ≡ cell_at (layout self.now) q (reason why) z) × OnOk result (nat_abs z + 1 < 2 ^ 32) }
    {
        if !numbers::inside(self.sizes[q], z) {
            return Err(why);
        }
        Ok((self.bases[q] as usize) + (z as usize))
    }
}

impl State {
    // The word of register p.
    pub fn word(&self, p: usize) -> Result<u32, Reason>
        requires { p < 48 }
        ensures { (ws : List ℕ) → worked result ≡ Machine.get p (state self.now ws) }
    {
        self.registers[p].ok_or(Reason::Unset)
    }
}

// What an operator gives.
fn result(o: Operator, a: u32, b: u32) -> Result<u32, Reason>
    ensures { worked result ≡ Machine.result (operator o) a b }
{
    match o {
        Operator::Add => Ok(numbers::plus(a, b)),
        Operator::Subtract => Ok(numbers::minus(a, b)),
        Operator::Multiply => Ok(numbers::times(a, b)),
        Operator::Divide if b == 0 => Err(Reason::ZeroDivisor),
        Operator::Divide => Ok(numbers::over(a, b)),
    }
}

// Set register p to the form's low 32 bits.
pub fn set(p: usize, f: Form, a: &Counters, machine: &mut State)
    requires { (p < 48) × Within (2 ^ 50) (2 ^ 33) f × CountersSmall a.now }
    ensures { (e : Machine.Layout) (ws : List ℕ) →
        Steps e (counters a.now) (File.set p (form f)) (Ok tt) (state machine.old ws) (state machine.new ws) }
{
    machine.registers[p] = Some(numbers::low32(f.value(a.values)));
}

// Copy register q into p.
pub fn copy(p: usize, q: usize, machine: &mut State) -> Result<(), Reason>
    requires { (p < 48) × (q < 48) }
    ensures { (e : Machine.Layout) (c : Machine.Counters) (ws : List ℕ) →
        Steps e c (File.copy p q) result (state machine.old ws) (state machine.new ws) }
{
    machine.registers[p] = Some(machine.word(q)?);
    Ok(())
}

// p := q operator k.
pub fn work(o: Operator, p: usize, q: usize, k: usize, machine: &mut State) -> Result<(), Reason>
    requires { (p < 48) × (q < 48) × (k < 48) }
    ensures { (e : Machine.Layout) (c : Machine.Counters) (ws : List ℕ) →
        Steps e c (File.work (operator o) p q k) result (state machine.old ws) (state machine.new ws) }
{
    machine.registers[p] = Some(result(o, machine.word(q)?, machine.word(k)?)?);
    Ok(())
}

// Load p from array q at the form.
pub fn load(
    p: usize,
    q: usize,
    f: Form,
    a: &Counters,
    arrays: &Layout,
    machine: &mut State,
) -> Result<(), Reason>
    requires { (p < 48) × (q < 8) × Within (2 ^ 50) (2 ^ 33) f × CountersSmall a.now }
    ensures { (ws : List ℕ) →
        Steps (layout arrays.now) (counters a.now) (File.load p q (form f)) result (state machine.old ws) (state machine.new ws) }
{
    let from = arrays.cell(q, f.value(a.values), Reason::IndexOutside)?;
    machine.registers[p] = Some(numbers::word(arrays.input, from));
    Ok(())
}

// Store p into array q at the form.
pub fn store(
    p: usize,
    q: usize,
    f: Form,
    a: &Counters,
    arrays: &Layout,
    machine: &State,
    output: &mut [u8],
) -> Result<(), Reason>
    requires { (p < 48) × (q < 8) × Within (2 ^ 50) (2 ^ 33) f × CountersSmall a.now × Whole output.old }
    ensures { ((m : List ℕ) → Steps (record (layout arrays.now) { input = m }) (counters a.now) (File.store p q (form f)) result
        (state machine.now (words output.old)) (state machine.now (words output.new)))
        × Whole output.new }
{
    let v = machine.word(p)?;
    let to = arrays.cell(q, f.value(a.values), Reason::IndexOutside)?;
    numbers::put_word(output, to, v);
    Ok(())
}

// Read the next item of stream q into p.
pub fn read(p: usize, q: usize, arrays: &Layout, machine: &mut State) -> Result<(), Reason>
    requires { (p < 48) × (q < 8) }
    ensures { (c : Machine.Counters) (ws : List ℕ) →
        Steps (layout arrays.now) c (File.read p q) result (state machine.old ws) (state machine.new ws) }
{
    let next = machine.places[q];
    let from = arrays.cell(q, i64::from(next), Reason::StreamEmpty)?;
    machine.registers[p] = Some(numbers::word(arrays.input, from));
    machine.places[q] = next + 1;
    Ok(())
}

// Write p to stream q.
pub fn write(
    p: usize,
    q: usize,
    arrays: &Layout,
    machine: &mut State,
    output: &mut [u8],
) -> Result<(), Reason>
    requires { (p < 48) × (q < 8) × Whole output.old }
    ensures { ((c : Machine.Counters) (m : List ℕ) → Steps (record (layout arrays.now) { input = m }) c (File.write p q) result
        (state machine.old (words output.old)) (state machine.new (words output.new)))
        × Whole output.new }
{
    let w = machine.word(p)?;
    let place = machine.places[q];
    let to = arrays.cell(q, i64::from(place), Reason::StreamFull)?;
    numbers::put_word(output, to, w);
    machine.places[q] = place + 1;
    Ok(())
}

// A statement that holds no block.
pub fn perform(
    o: &Op,
    a: &Counters,
    arrays: &Layout,
    machine: &mut State,
    output: &mut [u8],
) -> Result<(), Reason>
    requires { Performs (op o.now) × CountersSmall a.now × Whole output.old }
    ensures { Steps (layout arrays.now) (counters a.now) (op o.now) result
        (state machine.old (words output.old)) (state machine.new (words output.new))
        × Whole output.new }
{
    match *o {
        Op::Set(p, f) => {
            set(p, f, a, machine);
            Ok(())
        }
        Op::Copy(p, q) => copy(p, q, machine),
        Op::Work(operator, p, q, k) => work(operator, p, q, k, machine),
        Op::Load(p, q, f) => load(p, q, f, a, arrays, machine),
        Op::Store(p, q, f) => store(p, q, f, a, arrays, machine, output),
        Op::Read(p, q) => read(p, q, arrays, machine),
        Op::Write(p, q) => write(p, q, arrays, machine, output),
    }
}

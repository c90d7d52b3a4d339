// The array run, the stream run, laying out and putting back: by a kernel that was read and the lent memory, and by the bytes of any file.
#![tactic(auto)]

ghost use Rattle.std.specs.Prelude.{◌≡◌, ◌&&◌, ◌*◌, cond, length, Ok, Err};
ghost use Rattle.numbers.specs.Result.{ok};
ghost use Rattle.numbers.specs.Words.{bytes};
ghost use Rattle.kernel.specs.File as File;
ghost use Rattle.parts.specs.Tables.{rows};
ghost use Rattle.memory.specs.Sizes.{declared, total};
ghost use Rattle.run_calls.specs.View.{kernel_of, answer_of, answer, right_length, program, ran, run_of};
ghost use Rattle.run_calls.specs.declared.NotRun.{NotRun};
ghost use Rattle.run_calls.specs.Promises.{Runs, ArrayRun, StreamRun, LayOut, PutBack};

use kernel::codes::Side;
use kernel::refusals::Unread;
use parts::{ArrayTable, Kernel, Measure, RecordTable};
use run_blocks::Stuck;
use run_loops::Counters;
use run_ops::{Layout, State};

// A run that was made: how it ended, and how many items were read and written.
#[derive(Clone, Copy, Debug, PartialEq, Eq)]
pub struct Ran {
    pub ending: Result<(), Stuck>,
    pub read: u16,
    pub written: u16,
}

// Why nothing was made: the file does not read, or a lent area has a wrong length.
#[derive(Clone, Copy, Debug, PartialEq, Eq)]
pub enum NotRun {
    Unread(Unread),
    WrongMemory,
}

impl From<Unread> for NotRun {
    ghost from_gives = { λ u n. n ≡ NotRun.Unread u };

    fn from(u: Unread) -> NotRun {
        NotRun::Unread(u)
    }
}

// A lent area: how long it is, and the side whose cells or items it must be as long as.
#[derive(Clone, Copy)]
struct Area {
    bytes: usize,
    measure: Measure,
    side: Side,
}

impl Area {
    fn of(bytes: usize, measure: Measure, side: Side) -> Self
        ensures { result ≡ record { bytes = bytes; measure = measure; side = side } }
    {
        Area {
            bytes,
            measure,
            side,
        }
    }

    // Whether it has its right length.
    fn right_length(self, arrays: ArrayTable) -> bool
        ensures { result ≡ right_length (declared arrays.entry) self }
    {
        let words = memory::total(arrays, arrays.count, self.measure, self.side);
        self.bytes == 4 * (words as usize)
    }
}

// Refuses a call whose areas do not both have theirs.
fn right_lengths(k: Kernel, first: Area, second: Area) -> Result<(), NotRun>
    ensures { result ≡ cond (right_length (kernel_of k.entry).arrays first && right_length (kernel_of k.entry).arrays second)
        (Ok tt) (Err NotRun.WrongMemory) }
{
    let arrays = k.arrays();
    if first.right_length(arrays) && second.right_length(arrays) {
        Ok(())
    } else {
        Err(NotRun::WrongMemory)
    }
}

// ---- runs

// Outside all loops.
const OUTSIDE: Counters = Counters {
    left: 8,
    level: 0,
    values: [0; 4],
};

// The program over cells, or over items.
fn program<'a>(k: Kernel<'a>, m: Measure) -> RecordTable<'a>
    ensures { rows result ≡ program m (kernel_of k.entry) }
{
    let sections = k.sections();
    match m {
        Measure::Cells => sections.array_program(),
        Measure::Items => sections.stream_program(),
    }
}

// A run that starts: the output is cleared, the registers are unset and every stream is at its first item, whatever the last run wrote.
fn started(k: Kernel, m: Measure, input: &[u8], output: &mut [u8]) -> Ran
    requires { length output.old ≡ 4 * total File.output m (kernel_of k).arrays }
    ensures { (answer (Ok result) ≡ answer_of (ok (ran m (kernel_of k.entry) input.now)))
        × (output.new ≡ bytes (ran m (kernel_of k.entry) input.now).memory) }
{
    memory::clear(output);
    let arrays = k.arrays();
    let layout = Layout {
        sizes: memory::sizes(arrays, m),
        bases: memory::bases(arrays, m),
        input,
    };
    let mut machine = State {
        registers: [None; 48],
        places: [0; 8],
    };
    let ending = run_blocks::run_block(program(k, m), 0, &OUTSIDE, &layout, &mut machine, output);
    let read = memory::moved(arrays, Side::Input, &machine.places) as u16;
    let written = memory::moved(arrays, Side::Output, &machine.places) as u16;
    Ran {
        ending,
        read,
        written,
    }
}

// The same, where both areas are as long as they must be.
fn run(k: Kernel, m: Measure, input: &[u8], output: &mut [u8]) -> Result<Ran, NotRun>
    ensures { Runs (run_of m (kernel_of k.entry) input.now output.old) output.old result output.new }
{
    let first = Area::of(input.len(), m, Side::Input);
    let second = Area::of(output.len(), m, Side::Output);
    right_lengths(k, first, second)?;
    Ok(started(k, m, input, output))
}

// The calls below are the names that the C boundary, the demands and document 01 have for them: each two of a kind share all their work, and differ in what
// they hand to it.

// The array run of a kernel.
pub fn array_run_of(k: Kernel, input: &[u8], output: &mut [u8]) -> Result<Ran, NotRun>
    ensures { ArrayRun k.entry.file.now input.now output.old result output.new }
{
    run(k, Measure::Cells, input, output)
}

// The stream run of a kernel.
pub fn stream_run_of(k: Kernel, input: &[u8], output: &mut [u8]) -> Result<Ran, NotRun>
    ensures { StreamRun k.entry.file.now input.now output.old result output.new }
{
    run(k, Measure::Items, input, output)
}

// The array run of any file.
pub fn array_run(file: &[u8], input: &[u8], output: &mut [u8]) -> Result<Ran, NotRun>
    ensures { ArrayRun file.now input.now output.old result output.new }
{
    array_run_of(read_file::read(file)?, input, output)
}

// The stream run of any file.
pub fn stream_run(file: &[u8], input: &[u8], output: &mut [u8]) -> Result<Ran, NotRun>
    ensures { StreamRun file.now input.now output.old result output.new }
{
    stream_run_of(read_file::read(file)?, input, output)
}

// ---- laying out and putting back

// Laying out by a kernel.
pub fn lay_out_of(k: Kernel, arrays: &[u8], streams: &mut [u8]) -> Result<(), NotRun>
    ensures { LayOut k.entry.file.now arrays.now streams.old result streams.new }
{
    let first = Area::of(arrays.len(), Measure::Cells, Side::Input);
    let second = Area::of(streams.len(), Measure::Items, Side::Input);
    right_lengths(k, first, second)?;
    memory::lay_out(k.arrays(), arrays, streams);
    Ok(())
}

// Putting back by a kernel.
pub fn put_back_of(k: Kernel, streams: &[u8], arrays: &mut [u8]) -> Result<(), NotRun>
    ensures { PutBack k.entry.file.now streams.now arrays.old result arrays.new }
{
    let first = Area::of(streams.len(), Measure::Items, Side::Output);
    let second = Area::of(arrays.len(), Measure::Cells, Side::Output);
    right_lengths(k, first, second)?;
    memory::put_back(k.arrays(), streams, arrays);
    Ok(())
}

// Laying out by any file.
pub fn lay_out(file: &[u8], arrays: &[u8], streams: &mut [u8]) -> Result<(), NotRun>
    ensures { LayOut file.now arrays.now streams.old result streams.new }
{
    lay_out_of(read_file::read(file)?, arrays, streams)
}

// Putting back by any file.
pub fn put_back(file: &[u8], streams: &[u8], arrays: &mut [u8]) -> Result<(), NotRun>
    ensures { PutBack file.now streams.now arrays.old result arrays.new }
{
    put_back_of(read_file::read(file)?, streams, arrays)
}

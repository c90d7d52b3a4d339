// The machine: run of a block and run of a statement call each other, nesting and passes left falling. A statement runs a block in the passes of a for and in
// the branch of an if.
#![tactic(auto)]

ghost use Rattle.std.specs.Prelude.{◌≡◌, ◌+◌, ◌<◌};
ghost use Rattle.numbers.specs.Words.{words};
ghost use Rattle.forms.specs.Code.{loop};
ghost use Rattle.kernel.specs.File as File;
ghost use Rattle.kernel.specs.Machine as Machine;
ghost use Rattle.kernel.specs.Guarantees.{InBlock};
ghost use Rattle.kernel.specs.Trees.{tree_at};
ghost use Rattle.parts.specs.Statements.{statement};
ghost use Rattle.parts.specs.Tables.{rows};
ghost use Rattle.run_loops.specs.View.{counters, CountersSmall};
ghost use Rattle.run_ops.specs.States.{state};
ghost use Rattle.run_ops.specs.Layout.{layout, Whole};
ghost use Rattle.run_blocks.specs.View.{Stands, Due, placed, ran, head, taken};

use forms::Loop;
use kernel::refusals::Reason;
use parts::RecordTable;
use parts::statements::Statement;
use run_loops::Counters;
use run_ops::{Layout, State};

// Where a run is stuck: why, and at which statement.
#[derive(Clone, Copy, Debug, PartialEq, Eq)]
pub struct Stuck {
    pub reason: Reason,
    pub at: u16,
}

// An answer, with the statement where it is a reason to stick.
fn stuck_at<T>(answer: Result<T, Reason>, i: usize) -> Result<T, Stuck>
    requires { i < 1024 }
    ensures { result ≡ placed i answer }
{
    let at = i as u16;
    answer.map_err(|reason| Stuck { reason, at })
}

// The record at which the block begins that the if at record i takes, by its register's word.
fn chosen(records: RecordTable, i: usize, w: u32) -> usize
    requires { InBlock (rows records) (i + 1) }
    ensures { result ≡ taken (rows records.entry) i w }
{
    if w == 0 {
        return run_ends::end_of(records, i + 1) + 1;
    }
    i + 1
}

// Runs the block that begins at record `from`, up to its else, its end or the program's.
#[cycle(run_block_run_statement)]
pub fn run_block(
    records: RecordTable,
    from: usize,
    a: &Counters,
    arrays: &Layout,
    machine: &mut State,
    output: &mut [u8],
) -> Result<(), Stuck>
    requires { Stands (rows records) from a.now × CountersSmall a.now × Whole output.old }
    ensures { (ran result (state machine.new (words output.new))
        ≡ Machine.run (layout arrays.now) (tree_at (rows records.entry) from) (counters a.now) (state machine.old (words output.old)))
        × Whole output.new }
{
    let mut i = from;
    // A `while`: which record comes next is found by `next_of`.
    while let Ok(s) = records.statement(i) {
        if matches!(s, Statement::Else | Statement::End) {
            break;
        }
        run_statement(records, i, &s, a, arrays, machine, output)?;
        i = run_ends::next_of(records, i, &s);
    }
    Ok(())
}

// Runs the statement at record i.
#[cycle(run_block_run_statement)]
fn run_statement(
    records: RecordTable,
    i: usize,
    s: &Statement,
    a: &Counters,
    arrays: &Layout,
    machine: &mut State,
    output: &mut [u8],
) -> Result<(), Stuck>
    requires { Due (rows records) i (statement s.now) a.now × CountersSmall a.now × Whole output.old }
    ensures { (ran result (state machine.new (words output.new))
        ≡ head (layout arrays.now) (tree_at (rows records.entry) i) (counters a.now) (state machine.old (words output.old)))
        × Whole output.new }
{
    match s {
        // Nearly every statement goes on: a place is made only for a reason to stick.
        Statement::Does(o) => match run_ops::perform(o, a, arrays, machine, output) {
            Ok(()) => Ok(()),
            stuck => stuck_at(stuck, i),
        },
        Statement::For(l) => run_loop(records, i, *l, a, arrays, machine, output),
        Statement::If(p) => run_branch(records, i, *p, a, arrays, machine, output),
        Statement::Else | Statement::End => Ok(()),
    }
}

// Runs the passes of the for at record i.
#[cycle(run_block_run_statement)]
fn run_loop(
    records: RecordTable,
    i: usize,
    l: Loop,
    a: &Counters,
    arrays: &Layout,
    machine: &mut State,
    output: &mut [u8],
) -> Result<(), Stuck>
    requires { Due (rows records) i (File.for (loop l)) a.now × CountersSmall a.now × Whole output.old }
    ensures { (ran result (state machine.new (words output.new))
        ≡ head (layout arrays.now) (tree_at (rows records.entry) i) (counters a.now) (state machine.old (words output.old)))
        × Whole output.new }
{
    for m in 0..l.passes {
        let b = a.in_pass(l, m);
        run_block(records, i + 1, &b, arrays, machine, output)?;
    }
    Ok(())
}

// Runs the block that the if at record i takes by register p.
#[cycle(run_block_run_statement)]
fn run_branch(
    records: RecordTable,
    i: usize,
    p: usize,
    a: &Counters,
    arrays: &Layout,
    machine: &mut State,
    output: &mut [u8],
) -> Result<(), Stuck>
    requires { Due (rows records) i (File.if p) a.now × CountersSmall a.now × Whole output.old }
    ensures { (ran result (state machine.new (words output.new))
        ≡ head (layout arrays.now) (tree_at (rows records.entry) i) (counters a.now) (state machine.old (words output.old)))
        × Whole output.new }
{
    let w = stuck_at(machine.word(p), i)?;
    let b = a.in_if();
    run_block(records, chosen(records, i, w), &b, arrays, machine, output)
}

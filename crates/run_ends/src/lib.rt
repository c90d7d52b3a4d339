// Where a block of a program ends, and the record after a statement: found by looking through the records.
#![tactic(auto)]

ghost use Rattle.std.specs.Prelude.{◌≡◌, ◌≤◌, ◌<◌, length};
ghost use Rattle.kernel.specs.Blocks.{said};
ghost use Rattle.parts.specs.Statements.{statement};
ghost use Rattle.parts.specs.Tables.{rows};
ghost use Rattle.run_ends.specs.View as View;
ghost use Rattle.kernel.specs.Guarantees.{Begins, InBlock};
ghost use Rattle.kernel.specs.Trees.{tree_at, stop_of, after_first};

use kernel::codes::Code;
use parts::RecordTable;
use parts::statements::Statement;

// The elses and ends to pass over after a record of this code.
fn depth_after(depth: usize, code: u32) -> usize
    requires { (depth ≤ 2048) × (10 ≤ code → 1 ≤ depth) }
    ensures { result ≡ View.depth_after depth code }
{
    if code == u32::from(Code::For) {
        return depth + 1;
    }
    if code == u32::from(Code::If) {
        return depth + 2;
    }
    if code >= u32::from(Code::Else) {
        return depth - 1;
    }
    depth
}

// The else or end at which the block stops that begins at record i.
pub fn end_of(records: RecordTable, i: usize) -> usize
    requires { InBlock (rows records) i }
    ensures { result ≡ stop_of (tree_at (rows records.entry) i) }
{
    let mut depth = 0;
    // Codes are compared as numbers: a run may pass over more records than it runs.
    for j in i..records.part.count {
        let code = records.code(j);
        if code >= u32::from(Code::Else) && depth == 0 {
            return j;
        }
        depth = depth_after(depth, code);
    }
    records.part.count
}

// The record after the statement at record i.
pub fn next_of(records: RecordTable, i: usize, s: &Statement) -> usize
    requires { (statement s.now ≡ said (rows records) i) × (i < length (rows records)) × Begins (rows records) i }
    ensures { result ≡ after_first (tree_at (rows records.entry) i) }
{
    match s {
        Statement::For(_) => end_of(records, i + 1) + 1,
        Statement::If(_) => {
            let other = end_of(records, i + 1) + 1;
            end_of(records, other) + 1
        }
        _ => i + 1,
    }
}

// The blocks that are open where a program is read, and what each statement makes of them.
#![tactic(auto)]

ghost use Rattle.std.specs.Prelude.{◌≡◌, [], ◌∷◌, ◌≤◌, IsErr};
ghost use Rattle.forms.specs.Code.{form};
ghost use Rattle.kernel.specs.File as File;
ghost use Rattle.kernel.specs.Reading as Reading;
ghost use Rattle.parts.specs.Records.{rec};
ghost use Rattle.parts.specs.Statements.{op};
ghost use Rattle.read_blocks.specs.Blocks.{block};
ghost use Rattle.read_blocks.specs.View.{opens, nested};

use forms::{Form, Loop};
use kernel::refusals::Misread;
use open::{Open, OpenBlocks};
use parts::Rec;
use parts::statements::{Op, Statement};

pub mod open;

// No block is open.
pub fn none() -> OpenBlocks
    ensures { opens result ≡ [] }
{
    OpenBlocks {
        depth: 0,
        loops: 0,
        product: 1,
        blocks: [Open::If; 8],
    }
}

// One more block.
fn opened(n: &mut OpenBlocks, b: Open) -> Result<(), Misread>
    requires { (1 ≤ Reading.all_passes (block b ∷ [])) × (Reading.all_passes (block b ∷ []) ≤ 131072) }
    ensures { (nested result n.new ≡ Reading.opened (block b ∷ opens n.old)) × (IsErr result → n.new ≡ n.old) }
{
    let depth = n.depth;
    let loops = n.loops + b.loops();
    let product = n.product * b.passes();
    if 8 <= depth || 4 < loops || 65536 < product {
        return Err(Misread::TooDeep);
    }
    n.depth = depth + 1;
    n.loops = loops;
    n.product = product;
    n.blocks[depth] = b;
    Ok(())
}

// An if's block begins its else.
fn at_else(n: &mut OpenBlocks) -> Result<(), Misread>
    ensures { (nested result n.new ≡ Reading.after_else (opens n.old)) × (IsErr result → n.new ≡ n.old) }
{
    if n.depth == 0 {
        return Err(Misread::BlocksUnmatched);
    }
    let top = n.depth - 1;
    let Open::If = n.blocks[top] else {
        return Err(Misread::BlocksUnmatched);
    };
    n.blocks[top] = Open::Else;
    Ok(())
}

// The innermost block ends.
fn at_end(n: &mut OpenBlocks) -> Result<(), Misread>
    ensures { (nested result n.new ≡ Reading.after_end (opens n.old)) × (IsErr result → n.new ≡ n.old) }
{
    if n.depth == 0 {
        return Err(Misread::BlocksUnmatched);
    }
    let depth = n.depth - 1;
    match n.blocks[depth] {
        Open::For(passes) => {
            n.depth = depth;
            n.loops -= 1;
            n.product /= passes;
            Ok(())
        }
        Open::If => Err(Misread::BlocksUnmatched),
        Open::Else => {
            n.depth = depth;
            Ok(())
        }
    }
}

// An index form has terms only for the loops around it.
fn named(n: &OpenBlocks, f: Form) -> Result<(), Misread>
    ensures { nested result n.now ≡ Reading.names (form f) (opens n.now) }
{
    if f.around(n.loops) {
        Ok(())
    } else {
        Err(Misread::TooDeep)
    }
}

// One more block, that of a for.
fn for_opened(n: &mut OpenBlocks, l: Loop) -> Result<(), Misread>
    requires { (1 ≤ l.passes) × (l.passes ≤ 131072) }
    ensures { (nested result n.new ≡ Reading.opened (Reading.open_for l.passes ∷ opens n.old)) × (IsErr result → n.new ≡ n.old) }
{
    opened(n, Open::For(l.passes))
}

// A statement that holds no block leaves them as they are, if its form may stand there.
fn after_op(n: &OpenBlocks, o: Op) -> Result<(), Misread>
    ensures { nested result n.now ≡ Reading.after_op (op o) (opens n.now) }
{
    match o {
        Op::Set(_, f) | Op::Load(_, _, f) | Op::Store(_, _, f) => named(n, f),
        Op::Copy(_, _) | Op::Work(_, _, _, _) | Op::Read(_, _) | Op::Write(_, _) => Ok(()),
    }
}

// Of the open blocks, those that are open after a statement; its code and fields are known to be right. One that is refused leaves them.
pub fn after(n: &mut OpenBlocks, r: Rec) -> Result<(), Misread>
    requires { r.code ≡ 8 → (1 ≤ (File.loop_of (rec r)).passes) × ((File.loop_of (rec r)).passes ≤ 131072) }
    ensures { (nested result n.new ≡ Reading.after (File.statement (rec r)) (opens n.old)) × (IsErr result → n.new ≡ n.old) }
{
    match Statement::try_from(r) {
        Ok(Statement::Does(o)) => after_op(n, o),
        Ok(Statement::For(l)) => for_opened(n, l),
        Ok(Statement::If(_)) => opened(n, Open::If),
        Ok(Statement::Else) => at_else(n),
        Ok(Statement::End) => at_end(n),
        Err(_) => Ok(()),
    }
}

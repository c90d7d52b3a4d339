// Where the walk stands, and the rules taken from there with the lent ledger; a for and an if in parts: entered, turned at the else, left.
#![tactic(auto)]

ghost use Rattle.std.specs.Prelude.{◌≡◌, ℕ, ◌≤◌, ◌<◌, Ok};
ghost use Rattle.forms.specs.Code.{loop, loops, Turning};
ghost use Rattle.kernel.specs.Guarantees.{LoopFits};
ghost use Rattle.kernel.specs.declared.codes.Rule.TheVariants as R;
ghost use Rattle.parts.specs.Records.{rec};
ghost use Rattle.check_ledger.specs.View.{Bounded};
ghost use Rattle.check_ledger.specs.declared.Ledger as Code;
ghost use Rattle.check_take.specs.View as View;
ghost use Rattle.check_take.specs.View.{due, array_there, stream_there, with_ledger, AtRule, RuleThere, Closing, Plain, PlainOrNone};

use check_ledger::Ledger;
use check_rows::{Change, Counter, HoldRows};
use check_rules::{Line, Pair};
use forms::{Loop, Loops};
use kernel::codes::Rule;
use kernel::refusals::Misfit;
use parts::{Kernel, Rec};

// The next record of each section that no rule has taken.
#[derive(Clone, Copy, Debug, PartialEq, Eq)]
pub struct Place {
    pub rule: usize,
    pub array: usize,
    pub stream: usize,
}

// A rule that does not follow: why, and where it stands.
#[derive(Clone, Copy, Debug, PartialEq, Eq)]
pub struct Refused {
    pub misfit: Misfit,
    pub at: Place,
}

impl Place {
    pub fn refused(self, misfit: Misfit) -> Refused
        ensures { result ≡ View.refused self misfit }
    {
        Refused { misfit, at: self }
    }

    // Refused there with this misfit unless a condition holds.
    pub fn need(self, misfit: Misfit, holds: bool) -> Result<(), Refused>
        ensures { result ≡ View.needed self misfit holds }
    {
        if holds {
            Ok(())
        } else {
            Err(self.refused(misfit))
        }
    }

    // Past one rule, so many statements of the array program and one of the stream program.
    fn further(self, arrays: usize) -> Place
        requires { (self.rule ≤ 4096) × (self.array ≤ 4096) × (self.stream ≤ 4096) × (arrays ≤ 1) }
        ensures { result ≡ View.further self arrays }
    {
        Place {
            rule: self.rule + 1,
            array: self.array + arrays,
            stream: self.stream + 1,
        }
    }
}

// ---- the next rule and the next statements

// The rule, by its code; a code that is no rule's is refused (10).
pub fn rule_next(kernel: Kernel, at: Place) -> Result<Rule, Refused>
    requires { at.rule < kernel.counts.d }
    ensures { result ≡ due kernel.entry at }
{
    let code = kernel.sections().derivation().code(at.rule);
    Rule::try_from(code).map_err(|_| at.refused(Misfit::DoesNotFit))
}

pub fn array_next(kernel: Kernel, at: Place) -> Rec
    ensures { rec result ≡ array_there kernel.entry at }
{
    kernel.sections().array_program().record(at.array)
}

fn stream_next(kernel: Kernel, at: Place) -> Rec
    ensures { rec result ≡ stream_there kernel.entry at }
{
    kernel.sections().stream_program().record(at.stream)
}

fn pair_next(kernel: Kernel, at: Place) -> Pair
    ensures { View.Next kernel.entry at result }
{
    Pair {
        array: array_next(kernel, at),
        stream: stream_next(kernel, at),
    }
}

// ---- rules that open and close no block

// What the rule that fits refuses, of the ledger's entries that it asks about.
fn asked(line: Line, l: &Ledger, around: Loops) -> Result<(), Misfit>
    requires { Turning around × ((m : ℕ) × Bounded m l.now × (m ≤ 4096)) }
    ensures { View.Answers line.entry.kernel l.now (loops around) line.entry.rule line.entry.pair result }
{
    let q = line.stream_of();
    let b = line.buffer_of();
    line.asked(l.positions[q], l.buffers[b], around)
}

// What refuses a rule that opens and closes no block, with these statements next.
fn refuses(kernel: Kernel, rule: Rule, pair: Pair, l: &Ledger, around: Loops) -> Result<(), Misfit>
    requires { Turning around × Plain rule × View.NextSomewhere kernel pair × ((m : ℕ) × Bounded m l.now × (m ≤ 4096)) }
    ensures { View.Refuses kernel.entry l.now (loops around) rule pair result }
{
    check_rules::need(Misfit::DoesNotFit, pair.fits(Ok(rule), kernel.counts.r))?;
    let line = Line { kernel, rule, pair };
    asked(line, l, around)
}

// Any rule that opens and closes no block; a code that is no rule's is refused with 10.
pub fn plain(
    kernel: Kernel,
    at: Place,
    next: Result<Rule, Refused>,
    l: &mut Ledger,
    around: Loops,
) -> Result<Place, Refused>
    requires { AtRule kernel.counts at l.old × Turning around × (due kernel at ≡ next) × PlainOrNone next }
    ensures { View.TakenPlain kernel.entry at l.old (loops around) (with_ledger result l.new) }
{
    let rule = next?;
    let pair = pair_next(kernel, at);
    refuses(kernel, rule, pair, l, around).map_err(|m| at.refused(m))?;
    if check_rules::steps(Ok(rule)) {
        check_rules::step(Line { kernel, rule, pair }, l);
    }
    Ok(at.further(check_rules::arrays_taken(Ok(rule))))
}

// ---- a for

// The statements and rows fit (10), and the rows are true at first (14); the ledger that they state is the ledger inside.
// Out of line: no block inside keeps room for the ledger that is read here.
#[inline(never)]
pub fn enter_for(kernel: Kernel, at: Place, l: &mut Ledger, around: Loops) -> Result<Place, Refused>
    requires { AtRule kernel.counts at l.old × (around.count ≤ 4) × (due kernel at ≡ Ok R.For) }
    ensures { View.EnteredFor kernel.entry at l.old (loops around) (with_ledger result l.new) }
{
    let c = kernel.counts;
    let pair = pair_next(kernel, at);
    at.need(
        Misfit::DoesNotFit,
        pair.for_fits(kernel, at.rule, around.count),
    )?;
    let records = kernel.sections().derivation();
    let mut stated = Ledger::fresh();
    check_rows::state(records, at.rule, c.a, c.b, &mut stated);
    let rows = HoldRows {
        ledger: &stated,
        arrays: c.a,
        buffers: c.b,
    };
    let first = pair.array.for_loop().first;
    let change = Change {
        level: around.count,
        counter: Counter::At(first),
    };
    at.need(Misfit::UntrueAtEntry, rows.are_true(l, change, around))?;
    *l = stated;
    Ok(Place {
        rule: at.rule + 1 + c.a + c.b,
        array: at.array + 1,
        stream: at.stream + 1,
    })
}

// Whether the rule is this one, no for, and fits.
fn closes(kernel: Kernel, at: Place, rule: Rule) -> bool
    requires { (at.rule < kernel.counts.d) × (rule ≡ R.For → ⊥) }
    ensures { View.Closes kernel.entry at rule result }
{
    rule_next(kernel, at) == Ok(rule) && pair_next(kernel, at).fits(Ok(rule), kernel.counts.r)
}

// At the end of a body: the rows hold after a step (15), and after the loop they hold at its limit. `inside` are the loops around the body, the for's
// own the last.
pub fn leave_for(
    kernel: Kernel,
    at: Place,
    l: &mut Ledger,
    rows: HoldRows,
    own: Loop,
    inside: Loops,
) -> Result<Place, Refused>
    requires { AtRule kernel.counts at l.old × Closing kernel at × (rows.arrays ≡ kernel.counts.a) × (rows.buffers ≡ kernel.counts.b) × LoopFits (loop own) × (1 ≤ inside.count) × (inside.count ≤ 4) }
    ensures { View.LeftFor kernel.entry at l.old rows.entry.ledger.now (loop own) (loops inside) (with_ledger result l.new) }
{
    at.need(Misfit::DoesNotFit, closes(kernel, at, Rule::End))?;
    let level = inside.count - 1;
    let step = Change {
        level,
        counter: Counter::By(own.step),
    };
    at.need(Misfit::NotKept, rows.are_true(l, step, inside))?;
    let limit = Change {
        level,
        counter: Counter::At(own.first + own.step * (own.passes as i64)),
    };
    rows.leave(limit, l);
    Ok(at.further(1))
}

// ---- an if

pub fn enter_if(kernel: Kernel, at: Place) -> Result<Place, Refused>
    requires { RuleThere kernel.counts at × (due kernel at ≡ Ok R.If) }
    ensures { (l : Code.Ledger) → AtRule kernel.entry.counts at l → View.EnteredIf kernel.entry at l (with_ledger result l) }
{
    let fits = pair_next(kernel, at).fits(Ok(Rule::If), kernel.counts.r);
    at.need(Misfit::DoesNotFit, fits)?;
    Ok(at.further(1))
}

// At the end of the first branch; the else starts again from the ledger at the if.
pub fn turn(kernel: Kernel, at: Place) -> Result<Place, Refused>
    requires { RuleThere kernel.counts at × Closing kernel at }
    ensures { (l start : Code.Ledger) → AtRule kernel.entry.counts at l → Bounded at.rule start → View.Turned kernel.entry at l start (with_ledger result start) }
{
    at.need(Misfit::DoesNotFit, closes(kernel, at, Rule::Else))?;
    Ok(at.further(1))
}

// At the end of the second branch: positions equal those of the first (16), and buffers keep what both have.
// In line: there the two ledgers are known to lie apart, and the archive asks a C library for no more than before.
#[inline(always)]
pub fn leave_if(
    kernel: Kernel,
    at: Place,
    l: &mut Ledger,
    first: &Ledger,
    around: Loops,
) -> Result<Place, Refused>
    requires { AtRule kernel.counts at l.old × Closing kernel at × Bounded at.rule first.now }
    ensures { View.LeftIf kernel.entry at l.old first.now (loops around) (with_ledger result l.new) }
{
    let c = kernel.counts;
    at.need(Misfit::DoesNotFit, closes(kernel, at, Rule::End))?;
    at.need(Misfit::BranchesDiffer, first.same_positions(l, c.a, around))?;
    l.merge(first, c.a, c.b, around);
    Ok(at.further(1))
}

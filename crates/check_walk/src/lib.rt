// The walk over the derivation: check of a block and check of a rule call each other, derivation records left falling. A rule checks a block inside a for and in
// each branch of an if.
#![tactic(auto)]

ghost use Rattle.std.specs.Prelude.{◌≡◌, ◌≤◌, ◌<◌, Ok};
ghost use Rattle.forms.specs.Code.{loops, Turning};
ghost use Rattle.kernel.specs.declared.codes.Rule.TheVariants as R;
ghost use Rattle.parts.specs.declared.Kernel as Code;
ghost use Rattle.check_ledger.specs.declared.Ledger.{Ledger};
ghost use Rattle.check_take.specs.View.{standing, with_ledger, Stood, EnteredFor, AtRule, due, Closing, PlainOrNone};
ghost use Rattle.check_walk.specs.View.{Opens, Stops, BlockWalked, RuleDue, RuleWalked, ForEntered};

use check_ledger::Ledger;
use check_rows::HoldRows;
use check_take::{Place, Refused};
use forms::Loops;
use kernel::codes::Rule;
use kernel::refusals::Misfit;
use parts::Kernel;

// ---- where a block stops

// The derivation is over: 17 where a statement is left, 18 where a block is open.
fn over(kernel: Kernel, at: Place, inside: bool) -> Result<Place, Refused>
    requires { kernel.counts.d ≤ at.rule }
    ensures { (l : Ledger) → Stops kernel.entry inside at l result }
{
    let c = kernel.counts;
    let done = at.array >= c.s && at.stream >= c.t;
    at.need(Misfit::StatementsLeft, done)?;
    at.need(Misfit::BlockOpen, !inside)?;
    Ok(at)
}

// An else or an end: 10 where no block is open.
fn closing(at: Place, inside: bool) -> Result<Place, Refused>
    ensures { (k : Code.Kernel) (l : Ledger) → at.rule < k.counts.d → Closing k at → Stops k inside at l result }
{
    at.need(Misfit::DoesNotFit, inside)?;
    Ok(at)
}

// ---- the walk, with the lent ledger

// Takes plain rules one after another, up to one that opens or closes a block.
// Out of line, as are a for and an if: a block's own frame has no room for a ledger.
#[inline(never)]
fn check_plain(kernel: Kernel, from: Place, l: &mut Ledger, ls: Loops) -> Result<Place, Refused>
    requires { AtRule kernel.counts from l.old × Turning ls × PlainOrNone (due kernel from) }
    ensures { RuleWalked kernel.entry (loops ls) from l.old (with_ledger result l.new) }
{
    let mut at = from;
    // A `while`: where the next rule stands is what a rule comes to.
    while at.rule < kernel.counts.d {
        let next = check_take::rule_next(kernel, at);
        if let Ok(Rule::If | Rule::For | Rule::Else | Rule::End) = next {
            return Ok(at);
        }
        at = check_take::plain(kernel, at, next, l, ls)?;
    }
    Ok(at)
}

// Takes the rules of a block one after another, up to its else or end; outside all blocks up to the end of the derivation.
#[cycle(check_block_check_rule)]
pub fn check_block(
    kernel: Kernel,
    from: Place,
    l: &mut Ledger,
    ls: Loops,
    inside: bool,
) -> Result<Place, Refused>
    requires { Stood kernel.counts from l.old × Turning ls × (ls.count ≤ 4) × Opens kernel from ls }
    ensures { BlockWalked kernel.entry (loops ls) inside from l.old (with_ledger result l.new) }
{
    let mut at = from;
    // A `while`: where the next rule stands is what a rule comes to.
    while at.rule < kernel.counts.d {
        match check_take::rule_next(kernel, at)? {
            Rule::Else | Rule::End => return closing(at, inside),
            rule => at = check_rule(kernel, at, rule, l, ls)?,
        }
    }
    over(kernel, at, inside)
}

// Takes a rule: a for or an if with all inside it, a plain one with those after it.
#[cycle(check_block_check_rule)]
fn check_rule(
    kernel: Kernel,
    at: Place,
    rule: Rule,
    l: &mut Ledger,
    ls: Loops,
) -> Result<Place, Refused>
    requires { RuleDue kernel at l.old ls rule }
    ensures { RuleWalked kernel.entry (loops ls) at l.old (with_ledger result l.new) }
{
    match rule {
        Rule::For => {
            let body = check_take::enter_for(kernel, at, l, ls)?;
            check_for(kernel, at, body, l, ls)
        }
        Rule::If => check_if(kernel, at, l, ls),
        _ => check_plain(kernel, at, l, ls),
    }
}

// Takes all inside a for that has been entered, and its end; what its rows state, the ledger inside, is kept for the end.
#[inline(never)]
#[cycle(check_block_check_rule)]
fn check_for(
    kernel: Kernel,
    at: Place,
    body: Place,
    l: &mut Ledger,
    ls: Loops,
) -> Result<Place, Refused>
    requires { ForEntered kernel at body l.old ls × Turning ls × (ls.count ≤ 4) × Opens kernel at ls }
    ensures { (start : Ledger) → AtRule kernel.entry.counts at start → EnteredFor kernel.entry at start (loops ls) (standing body l.old) → RuleWalked kernel.entry (loops ls) at start (with_ledger result l.new) }
{
    let stated = *l;
    let own = check_take::array_next(kernel, at).for_loop();
    let inner = ls.deeper(own);
    let end = check_block(kernel, body, l, inner, true)?;
    let rows = HoldRows {
        ledger: &stated,
        arrays: kernel.counts.a,
        buffers: kernel.counts.b,
    };
    check_take::leave_for(kernel, end, l, rows, own, inner)
}

// Takes an if with all inside it; the ledger at the if is kept for its else.
#[inline(never)]
#[cycle(check_block_check_rule)]
fn check_if(kernel: Kernel, at: Place, l: &mut Ledger, ls: Loops) -> Result<Place, Refused>
    requires { RuleDue kernel at l.old ls R.If }
    ensures { RuleWalked kernel.entry (loops ls) at l.old (with_ledger result l.new) }
{
    let start = *l;
    let branch = check_take::enter_if(kernel, at)?;
    let middle = check_block(kernel, branch, l, ls, true)?;
    let other = check_take::turn(kernel, middle)?;
    let first = *l;
    *l = start;
    let last = check_block(kernel, other, l, ls, true)?;
    check_take::leave_if(kernel, last, l, &first, ls)
}

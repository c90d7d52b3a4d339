// The check of a file: reading, the walk over the derivation, and the counts.
#![tactic(auto)]

ghost use Rattle.std.specs.Prelude.{◌≡◌, ◌^◌, ◌<◌};
ghost use Rattle.kernel.specs.File as File;
ghost use Rattle.kernel.specs.Ledger as L;
ghost use Rattle.kernel.specs.Check as Check;
ghost use Rattle.kernel.specs.Answers as Answers;
ghost use Rattle.parts.specs.Arrays.{arrays_of};
ghost use Rattle.check_ledger.specs.View.{positions_of};
ghost use Rattle.check_take.specs.View as Take;
ghost use Rattle.check_take.specs.View.{held_by};
ghost use Rattle.check_file.specs.declared.NotAccepted.TheVariants as N;
ghost use Rattle.check_file.specs.View.{refusal, verdict, ended};
ghost use Rattle.check_file.specs.Promises.{Checks};

use check_ledger::Ledger;
use check_take::{Place, Refused};
use forms::Form;
use kernel::refusals::{Misfit, Unread};
use parts::{ArrayTable, Kernel};

// A refusal by the check: why, at the next records of derivation, array program and stream program.
#[derive(Clone, Copy, Debug, PartialEq, Eq)]
pub struct Refusal {
    pub why: Misfit,
    pub rule: u16,
    pub array: u16,
    pub stream: u16,
}

// Why a file is not accepted.
#[derive(Clone, Copy, Debug, PartialEq, Eq)]
pub enum NotAccepted {
    Unread(Unread),
    Refused(Refusal),
}

impl From<Unread> for NotAccepted {
    ghost from_gives = { λ u e. e ≡ N.Unread u };

    fn from(u: Unread) -> NotAccepted {
        NotAccepted::Unread(u)
    }
}

impl From<Refusal> for NotAccepted {
    ghost from_gives = { λ r e. e ≡ N.Refused r };

    fn from(r: Refusal) -> NotAccepted {
        NotAccepted::Refused(r)
    }
}

// The refusal of what stands at a place.
fn refused_at(r: Refused) -> Refusal
    requires { (r.at.rule < 2 ^ 16) × (r.at.array < 2 ^ 16) × (r.at.stream < 2 ^ 16) }
    ensures { refusal result ≡ Take.refusal r }
{
    Refusal {
        why: r.misfit,
        rule: r.at.rule as u16,
        array: r.at.array as u16,
        stream: r.at.stream as u16,
    }
}

// Whether each array's position is its count.
fn all_counted(arrays: ArrayTable, l: &Ledger) -> bool
    ensures { (K : File.Kernel) (M : L.Ledger) → K.arrays ≡ arrays_of arrays.entry.file.now arrays.entry.count → M.positions ≡ positions_of arrays.entry.count l.now → result ≡ Check.all_counted K M }
{
    let around = forms::outside();
    for j in 0..arrays.count {
        let count = Form::constant(i64::from(arrays.count_of(j)));
        if !count.same(l.positions[j], around) {
            return false;
        }
    }
    true
}

// Before the first rule.
const BEGINNING: Place = Place {
    rule: 0,
    array: 0,
    stream: 0,
};

// The walk from the first rule to the end of the derivation, then 19.
fn walked(kernel: Kernel) -> Result<(), Refused>
    ensures { ended result ≡ Check.check_kernel (held_by kernel.entry) }
{
    let mut l = Ledger::fresh();
    let at = check_walk::check_block(kernel, BEGINNING, &mut l, forms::outside(), false)?;
    at.need(Misfit::NotCounted, all_counted(kernel.arrays(), &l))
}

// The check of a kernel that was read.
pub fn judged(kernel: Kernel) -> Result<(), Refusal>
    ensures { verdict result ≡ Answers.checked (Check.check_kernel (held_by kernel.entry)) }
{
    match walked(kernel) {
        Ok(()) => Ok(()),
        Err(r) => Err(refused_at(r)),
    }
}

pub fn check(file: &[u8]) -> Result<(), NotAccepted>
    ensures { Checks file.now result }
{
    let kernel = read_file::read(file)?;
    judged(kernel)?;
    Ok(())
}

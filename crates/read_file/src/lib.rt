// Reading a kernel file: from the lent bytes to its kernel, or the first refusal.
#![tactic(auto)]

ghost use Rattle.std.specs.Prelude.{◌≡◌, [], ◌+◌, ◌%◌, ◌≤◌, length, IfOk};
ghost use Rattle.numbers.specs.Result.{ok};
ghost use Rattle.numbers.specs.Words.{words};
ghost use Rattle.kernel.specs.File as File;
ghost use Rattle.kernel.specs.Named as Named;
ghost use Rattle.kernel.specs.Reading as Reading;
ghost use Rattle.parts.specs.Records.{rec};
ghost use Rattle.parts.specs.Parts.{kernel};
ghost use Rattle.parts.specs.Tables.{rows};
ghost use Rattle.read_records.specs.View.{scope};
ghost use Rattle.read_file.specs.View.{checked, answer};

use kernel::codes::Side;
use kernel::refusals::{Misread, Section, Unread};
use parts::{ArrayTable, Counts, Kernel, Rec, RecordTable, Sections};
use read_records::{KindTable, Scope};

// A refusal of a section's record.
fn refused(why: Misread, section: Section, n: usize) -> Unread
    requires { n ≤ 1024 }
    ensures { Named.unread result ≡ Reading.fault (Named.misread why) (Named.section section) n }
{
    Unread {
        why,
        section: Some(section),
        place: n as u16,
    }
}

// ---- arrays

// The lengths of one side so far, and of an array if it is of that side.
fn added(sum: usize, side: Side, a: Rec) -> usize
    requires { sum ≤ 8192 }
    ensures { result ≡ sum + File.only (Named.side side) File.length_of (rec a) }
{
    if a.code == u32::from(side) {
        sum + (a.p as usize)
    } else {
        sum
    }
}

// The arrays, and the lengths of each side together.
fn arrays_fit(arrays: RecordTable<'_>) -> Result<(), Unread>
    ensures { checked result ≡ Reading.arrays_fit 0 0 0 (rows arrays.entry) }
{
    let mut inputs = 0;
    let mut outputs = 0;
    for i in 0..arrays.part.count {
        let a = arrays.record(i);
        inputs = added(inputs, Side::Input, a);
        outputs = added(outputs, Side::Output, a);
        if !read_records::array_fits(a) || 8192 < inputs || 8192 < outputs {
            return Err(refused(Misread::FieldOutside, Section::Arrays, i));
        }
    }
    Ok(())
}

// ---- statements

// The statements of a program.
fn statements_fit(
    program: RecordTable<'_>,
    kinds: &KindTable,
    held: Scope<'_>,
    section: Section,
) -> Result<(), Unread>
    ensures { checked result ≡ Reading.statements_fit (scope held.entry) (Named.section section) 0 [] (rows program.entry) }
{
    let mut open = read_blocks::none();
    for i in 0..program.part.count {
        let r = program.record(i);
        if !held.statement_fits(kinds, r) {
            return Err(refused(Misread::FieldOutside, section, i));
        }
        match read_blocks::after(&mut open, r) {
            Ok(()) => {}
            Err(why) => return Err(refused(why, section, i)),
        }
    }
    if open.depth != 0 {
        return Err(refused(Misread::BlocksUnmatched, section, program.part.count));
    }
    Ok(())
}

// ---- the derivation

// Its records, in a kernel of these counts.
fn rules_fit(rules: RecordTable<'_>, counts: Counts) -> Result<(), Unread>
    ensures { (K : File.Kernel) → length K.arrays ≡ counts.a → K.buffers ≡ counts.b → checked result ≡ Reading.rules_fit K 0 (rows rules.entry) }
{
    for i in 0..rules.part.count {
        if !read_records::rule_fits(counts, rules.record(i)) {
            return Err(refused(Misread::FieldOutside, Section::Derivation, i));
        }
    }
    Ok(())
}

// ---- the whole

// The records of a file whose counts and lengths are right.
fn records_fit<'a>(s: Sections<'a>) -> Result<Kernel<'a>, Unread>
    requires { (length s.file.now % 4 ≡ 0) × (Reading.sections (words s.file.now) ≡ ok (kernel s.file.now s.counts)) }
    ensures { (answer s.entry.file.now result ≡ Reading.read_file s.entry.file.now) × IfOk result (λ k. k.file ≡ s.entry.file) }
{
    let c = s.counts;
    arrays_fit(s.arrays())?;
    let arrays = ArrayTable {
        file: s.file,
        count: c.a,
    };
    let kinds = read_records::kinds();
    let one = Scope {
        streaming: false,
        registers: c.r as u32,
        arrays,
    };
    statements_fit(s.array_program(), &kinds, one, Section::ArrayProgram)?;
    let two = Scope {
        streaming: true,
        registers: (c.r + c.b) as u32,
        arrays,
    };
    statements_fit(s.stream_program(), &kinds, two, Section::StreamProgram)?;
    rules_fit(s.derivation(), c)?;
    Ok(Kernel {
        file: s.file,
        counts: c,
    })
}

// Every list of bytes has its answer.
pub fn read(file: &[u8]) -> Result<Kernel<'_>, Unread>
    ensures { (answer file.now result ≡ Reading.read_file file.now) × IfOk result (λ k. k.file ≡ file.entry) }
{
    if file.len() % 4 != 0 {
        return Err(read_counts::BAD_LENGTH);
    }
    records_fit(read_counts::sections(file)?)
}

// The counts of a kernel file: one reader over the lent bytes, and each section's count and length as met.
#![tactic(auto)]

ghost use Rattle.std.specs.Prelude.{◌≡◌, ◌+◌, ◌*◌, ◌/◌, ◌≤◌, length, drop, IfOk};
ghost use Rattle.numbers.specs.Words.{words};
ghost use Rattle.kernel.specs.Named as Named;
ghost use Rattle.kernel.specs.Reading as Reading;
ghost use Rattle.read_counts.specs.View.{number, counted, listed, answer};

use kernel::refusals::{Misread, Section, Unread};
use parts::{Counts, Sections};

// A file that ends too early or too late, or between two numbers.
pub const BAD_LENGTH: Unread = Unread {
    why: Misread::BadLength,
    section: None,
    place: 0,
};

// ---- the reader

#[derive(Clone, Copy)]
pub struct Reader<'a> {
    pub file: &'a [u8],
    pub place: usize,
}

// A count and the place after what it counts.
#[derive(Clone, Copy, Debug, PartialEq, Eq)]
pub struct Counted {
    pub count: usize,
    pub next: usize,
}

impl<'a> Reader<'a> {
    // A reader of the lent bytes, at a place.
    fn lent(file: &'a [u8], place: usize) -> Reader<'a>
        ensures { (result.file ≡ file.entry) × (result.place ≡ place) }
    {
        Reader { file, place }
    }

    // The number at its place, none at the file's end.
    fn next(self) -> Option<u32>
        ensures { result ≡ number self.entry.file.now self.entry.place }
    {
        if self.place < self.file.len() / 4 {
            Some(numbers::word(self.file, self.place))
        } else {
            None
        }
    }

    // The count of a section, from low to high.
    fn count(self, of: Section, low: u32, high: u32) -> Result<Counted, Unread>
        requires { self.place ≤ 65536 }
        ensures { (counted (words self.entry.file.now) result ≡ Reading.count (Named.section of) low high (drop self.entry.place (words self.entry.file.now))) × IfOk result (λ f. (f.count ≤ high) × (f.next ≡ self.entry.place + 1)) }
    {
        let next = self.place + 1;
        let Some(n) = self.next() else {
            return Err(BAD_LENGTH);
        };
        if n < low || high < n {
            return Err(Unread {
                why: Misread::CountOutside,
                section: Some(of),
                place: 0,
            });
        }
        let count = n as usize;
        Ok(Counted { count, next })
    }

    // The count of a section, with as many records after it.
    fn section(self, of: Section, low: u32, high: u32) -> Result<Counted, Unread>
        requires { (self.place ≤ 65536) × (high ≤ 1024) }
        ensures { (listed (words self.entry.file.now) result ≡ Reading.section (Named.section of) low high (drop self.entry.place (words self.entry.file.now))) × IfOk result (λ f. (f.count ≤ high) × (f.next ≡ self.entry.place + 1 + 8 * f.count) × (f.next ≤ length self.entry.file.now / 4)) }
    {
        let f = self.count(of, low, high)?;
        let next = f.next + 8 * f.count;
        if self.file.len() / 4 < next {
            return Err(BAD_LENGTH);
        }
        let count = f.count;
        Ok(Counted { count, next })
    }
}

// The number at a place of the file, none where it has ended.
pub fn number_at(file: &[u8], place: usize) -> Option<u32>
    ensures { result ≡ number file.now place }
{
    Reader::lent(file, place).next()
}

// ---- counts, as met

// The counts of a file, or the first refusal of a count or a length.
pub fn sections(file: &[u8]) -> Result<Sections<'_>, Unread>
    ensures { (answer file.now result ≡ Reading.sections (words file.now)) × IfOk result (λ s. s.file ≡ file.entry) }
{
    let r = Reader::lent(file, 0).count(Section::Registers, 1, 32)?;
    let b = Reader::lent(file, r.next).count(Section::Buffers, 0, 16)?;
    let a = Reader::lent(file, b.next).section(Section::Arrays, 1, 8)?;
    let s = Reader::lent(file, a.next).section(Section::ArrayProgram, 0, 256)?;
    let t = Reader::lent(file, s.next).section(Section::StreamProgram, 0, 256)?;
    let d = Reader::lent(file, t.next).section(Section::Derivation, 0, 1024)?;
    if d.next < file.len() / 4 {
        return Err(BAD_LENGTH);
    }
    let counts = Counts {
        r: r.count,
        b: b.count,
        a: a.count,
        s: s.count,
        t: t.count,
        d: d.count,
    };
    Ok(Sections { file, counts })
}

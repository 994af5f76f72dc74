// A section of a file: its head, and what is left of the file after it.
#![tactic(auto)]

ghost use Rattle.std.specs.Prelude.{◌≡◌, ◌+◌, ◌*◌, ◌≤◌, ◌<◌, length, take, drop};
ghost use Rattle.stages.specs.Number.{number};
ghost use Rattle.stages.specs.Stage.{first_fault};
ghost use Rattle.sections.specs.Section.{onward, ended};
ghost use Rattle.sections.specs.Answer.{head_of, reading_of, numbers_of};

use stages::{Broken, Place, Refusal};

// Why a section cannot be read.
#[derive(Clone, Copy, Debug, PartialEq, Eq)]
pub enum SectionFault {
    // The file ends inside its count or its rows.
    CutOff,
    // Its count is beyond its limits.
    Beyond,
    // The first row that breaks its rule, and in it the first field that does.
    BadRow(usize, usize),
}

// What is broken where a section of a file cannot be read.
#[derive(Clone, Copy, Debug, PartialEq, Eq)]
pub struct Faults {
    pub cut: Broken,
    pub beyond: Broken,
    pub bad: Broken,
}

// The answer of a section with this number, as the section's file gives it.
pub fn named(
    answer: Result<usize, SectionFault>,
    number: usize,
    faults: Faults,
) -> Result<usize, Refusal>
    ensures { result ≡ reading_of (numbers_of faults) number answer }
{
    answer.map_err(|fault| match fault {
        SectionFault::CutOff => Refusal::new(faults.cut, Place::new(number, 0)),
        SectionFault::Beyond => Refusal::new(faults.beyond, Place::new(number, 0)),
        SectionFault::BadRow(i, f) => Refusal::new(faults.bad, Place::of_field(number, i, f)),
    })
}

// The count, its limit, and room for all rows.
pub fn read_head(part: &[u8], least: usize, most: usize, size: usize) -> Result<usize, SectionFault>
    requires { size < 65536 }
    ensures { result ≡ head_of least most size part.now }
{
    if part.len() < 2 {
        return Err(SectionFault::CutOff);
    }
    let n = wire::u16_at(part, 0);
    if n < least || most < n {
        return Err(SectionFault::Beyond);
    }
    if part.len() - 2 < size * n {
        return Err(SectionFault::CutOff);
    }
    Ok(n)
}

// Nothing may come after the last section.
pub fn read_end(part: &[u8], broken: Broken) -> Result<(), Refusal>
    ensures { result ≡ first_fault (ended (number broken) part.now) }
{
    if part.is_empty() {
        Ok(())
    } else {
        Err(Refusal::new(broken, Place::new(0, 0)))
    }
}

// What is left of a file after a section of n rows.
pub fn after<'a>(part: &'a [u8], n: usize, size: usize) -> &'a [u8]
    requires { 2 + size * n ≤ length part.now }
    ensures { (result.now ≡ drop (2 + size * n) part.now) × (result.ref_ptr ≡ onward (2 + size * n) part.entry.ref_ptr) }
{
    let at = 2 + size * n;
    &part[at..]
}

// The n rows of a section, without its count.
pub fn rows<'a>(part: &'a [u8], n: usize, size: usize) -> &'a [u8]
    requires { 2 + size * n ≤ length part.now }
    ensures { (result.now ≡ take (size * n) (drop 2 part.now)) × (result.ref_ptr ≡ onward 2 part.entry.ref_ptr) }
{
    let end = 2 + size * n;
    &part[2..end]
}

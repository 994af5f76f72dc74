// The clearing file: four sections, with the counts that the day file asks, and nothing after them.
#![tactic(auto)]

ghost use Rattle.std.specs.Prelude.{◌≡◌};
ghost use Rattle.stages.specs.Stage.{first_fault, fault_of, judged};
ghost use Rattle.sections.specs.Section.{ended};
ghost use Rattle.reader.specs.Reader.{reading_at};
ghost use Rattle.day.specs.Day.{day_file};
ghost use Rattle.day.specs.Good.{InLimits};
ghost use Rattle.clearing.specs.Clearing.{clearing_numbers, clearing_stages, file_stages, files};

use day::Counts;
use rows::Form;
use sections::Faults;
use stages::{Broken, Refusal};

const CLEARING: Faults = Faults {
    cut: Broken::ClearingCutOff,
    beyond: Broken::ClearingCount,
    bad: Broken::ClearingRow,
};

fn read_section(number: usize, form: Form, asked: usize, part: &[u8]) -> Result<usize, Refusal>
    ensures { result ≡ reading_at clearing_numbers number form.kind asked asked form.periods 0 part.now }
{
    sections::named(
        reader::read_rows(form, asked, asked, 0, part),
        number,
        CLEARING,
    )
}

fn read_end(part: &[u8]) -> Result<(), Refusal>
    ensures { result ≡ first_fault (ended 8 part.now) }
{
    sections::read_end(part, Broken::ClearingGoesOn)
}

// The sections one after the other, each from its count on: a clearing file of a day with these counts.
fn read_clearing(clearing: &[u8], counts: Counts) -> Result<Counts, Refusal>
    requires { InLimits counts }
    ensures { result ≡ judged counts (clearing_stages counts clearing.now) }
{
    let prices = read_section(1, Form::PRICES, counts.zones * counts.periods, clearing)?;
    let flows_part = reader::rest(Form::PRICES, clearing, prices);
    let flows = read_section(2, Form::FLOWS, counts.lines * counts.periods, flows_part)?;
    let volumes_part = reader::rest(Form::FLOWS, flows_part, flows);
    let volumes = read_section(3, Form::VOLUMES, counts.steps, volumes_part)?;
    let ratios_part = reader::rest(Form::VOLUMES, volumes_part, volumes);
    let ratios = read_section(4, Form::RATIOS, counts.blocks, ratios_part)?;
    let end = reader::rest(Form::RATIOS, ratios_part, ratios);
    read_end(end)?;
    Ok(counts)
}

// The day file is read first: where it has a fault, that is the answer as it is.
fn read_first(day: &[u8]) -> Result<Counts, Refusal>
    ensures { result ≡ day_file day.now }
{
    day::read_day(day)
}

// Reads any two byte strings as a day file and its clearing file: how many rows the day file's sections have, or the first fault.
pub fn read_files(day: &[u8], clearing: &[u8]) -> Result<Counts, Refusal>
    ensures answer { result ≡ files day.now clearing.now }
    ensures numbered { fault_of result ≡ first_fault (file_stages day.now clearing.now) }
{
    let counts = read_first(day)?;
    read_clearing(clearing, counts)
}

// The day file: five sections, and nothing after them.
#![tactic(auto)]

ghost use Rattle.std.specs.Prelude.{◌≡◌};
ghost use Rattle.stages.specs.Stage.{first_fault, fault_of};
ghost use Rattle.sections.specs.Section.{ended};
ghost use Rattle.reader.specs.Reader.{reading_at};
ghost use Rattle.day.specs.Day.{day_numbers, day_stages, day_file};

use rows::{Form, Kind};
use sections::Faults;
use stages::{Broken, Refusal};

// How many rows each section has.
#[derive(Clone, Copy, Debug, PartialEq, Eq)]
pub struct Counts {
    pub periods: usize,
    pub zones: usize,
    pub lines: usize,
    pub steps: usize,
    pub blocks: usize,
}

const DAY: Faults = Faults {
    cut: Broken::DayCutOff,
    beyond: Broken::DayCount,
    bad: Broken::DayRow,
};

// Inlined, for the reason that `reader::read_rows` is.
#[inline(always)]
fn read_section(
    number: usize,
    form: Form,
    least: usize,
    most: usize,
    zones: usize,
    part: &[u8],
) -> Result<usize, Refusal>
    ensures { result ≡ reading_at day_numbers number form.kind least most form.periods zones part.now }
{
    sections::named(
        reader::read_rows(form, least, most, zones, part),
        number,
        DAY,
    )
}

fn read_end(part: &[u8]) -> Result<(), Refusal>
    ensures { result ≡ first_fault (ended 4 part.now) }
{
    sections::read_end(part, Broken::DayGoesOn)
}

// The sections one after the other, each from its count on.
fn read_sections(file: &[u8]) -> Result<Counts, Refusal>
    ensures { result ≡ day_file file.now }
{
    let periods = read_section(1, Form::PERIODS, 1, limits::MOST_PERIODS, 0, file)?;
    let zones_part = reader::rest(Form::PERIODS, file, periods);
    let of_zones = Form {
        kind: Kind::Zones,
        periods,
    };
    let zones = read_section(2, of_zones, 1, limits::MOST_ZONES, 0, zones_part)?;
    let lines_part = reader::rest(of_zones, zones_part, zones);
    let of_lines = Form {
        kind: Kind::Lines,
        periods,
    };
    let lines = read_section(3, of_lines, 0, limits::MOST_LINES, zones, lines_part)?;
    let steps_part = reader::rest(of_lines, lines_part, lines);
    let of_steps = Form {
        kind: Kind::Steps,
        periods,
    };
    let steps = read_section(4, of_steps, 0, limits::MOST_STEPS, zones, steps_part)?;
    let blocks_part = reader::rest(of_steps, steps_part, steps);
    let of_blocks = Form {
        kind: Kind::Blocks,
        periods,
    };
    let blocks = read_section(5, of_blocks, 0, limits::MOST_BLOCKS, zones, blocks_part)?;
    let end = reader::rest(of_blocks, blocks_part, blocks);
    read_end(end)?;
    Ok(Counts {
        periods,
        zones,
        lines,
        steps,
        blocks,
    })
}

// Reads any bytes as a day file: how many rows its sections have, or its first fault.
pub fn read_day(file: &[u8]) -> Result<Counts, Refusal>
    ensures answer { result ≡ day_file file.now }
    ensures numbered { fault_of result ≡ first_fault (day_stages file.now) }
{
    read_sections(file)
}

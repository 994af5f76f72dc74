// The look-up: the rows of a named section, as that part of the caller's file.
#![tactic(auto)]

ghost use Rattle.std.specs.Prelude.{◌≡◌, ◌+◌, ◌*◌, ◌≤◌, length};
ghost use Rattle.stages.specs.Stage.{first_fault};
ghost use Rattle.sections.specs.Section.{between, count, rows, onward};
ghost use Rattle.rows.specs.Rows.{row_size};
ghost use Rattle.parts.specs.Of.{OfDay};
ghost use Rattle.lookup.specs.LookUp.{rows_of, rows_at, look_up_stages, look_up, look_up_at};
ghost use Rattle.lookup.specs.Reading.{day_file_for};

use day::Counts;
use rows::{Form, Kind};
use stages::{Broken, Place, Refusal};

// The n rows of a section.
fn rows_of<'a>(form: Form, part: &'a [u8], n: usize) -> &'a [u8]
    requires { (count part.now ≡ n) × (2 + row_size form.kind form.periods * n ≤ length part.now) }
    ensures { (result.now ≡ rows (row_size form.kind form.periods) part.now) × (result.ref_ptr ≡ onward 2 part.entry.ref_ptr) }
{
    sections::rows(part, n, form.size())
}

// By number, as callers ask for it: 19 is the answer to one that names no section.
fn named_rows<'a>(day: &'a [u8], section: usize, counts: Counts) -> &'a [u8]
    requires { OfDay day.now counts }
    ensures { (result.now ≡ rows_of section day.now) × (result.ref_ptr ≡ onward (rows_at section day.now) day.entry.ref_ptr) }
{
    match section {
        1 => rows_of(Form::PERIODS, day, counts.periods),
        2 => rows_of(
            Form {
                kind: Kind::Zones,
                periods: counts.periods,
            },
            parts::zones_part(day, counts),
            counts.zones,
        ),
        3 => rows_of(
            Form {
                kind: Kind::Lines,
                periods: counts.periods,
            },
            parts::lines_part(day, counts),
            counts.lines,
        ),
        4 => rows_of(
            Form {
                kind: Kind::Steps,
                periods: counts.periods,
            },
            parts::steps_part(day, counts),
            counts.steps,
        ),
        5 => rows_of(
            Form {
                kind: Kind::Blocks,
                periods: counts.periods,
            },
            parts::blocks_part(day, counts),
            counts.blocks,
        ),
        _ => &day[..0],
    }
}

fn is_section(section: usize) -> bool
    ensures { result ≡ between 1 5 section }
{
    (1..=5).contains(&section)
}

// 19 first, then the day file's own refusals.
fn read_for(day: &[u8], section: usize) -> Result<Counts, Refusal>
    ensures { result ≡ day_file_for section day.now }
{
    if !is_section(section) {
        return Err(Refusal::new(Broken::Section, Place::new(0, 0)));
    }
    day::read_day(day)
}

// The rows of a section of any bytes, as that part of them; empty where the look-up is refused.
pub fn look_up<'a>(day: &'a [u8], section: usize) -> &'a [u8]
    ensures bytes { result.now ≡ look_up section day.now }
    ensures stands { result.ref_ptr ≡ onward (look_up_at section day.now) day.entry.ref_ptr }
{
    match read_for(day, section) {
        Ok(counts) => named_rows(day, section, counts),
        Err(_) => &day[..0],
    }
}

// Whether the look-up of a section of any bytes is refused, and with which number and place.
pub fn look_up_fault(day: &[u8], section: usize) -> Result<(), Refusal>
    ensures { result ≡ first_fault (look_up_stages section day.now) }
{
    read_for(day, section)?;
    Ok(())
}

// Where the rows of a section start in the file. A choice of its own beside `named_rows`: a place is asked of no rows.
fn rows_start(day: &[u8], section: usize, counts: Counts) -> usize
    requires { OfDay day.now counts }
    ensures { result ≡ rows_at section day.now }
{
    match section {
        1 => 2,
        2 => 2 + (day.len() - parts::zones_part(day, counts).len()),
        3 => 2 + (day.len() - parts::lines_part(day, counts).len()),
        4 => 2 + (day.len() - parts::steps_part(day, counts).len()),
        5 => 2 + (day.len() - parts::blocks_part(day, counts).len()),
        _ => 0,
    }
}

// Where the look-up's part of any bytes starts in them; 0 where it is refused.
pub fn look_up_start(day: &[u8], section: usize) -> usize
    ensures { result ≡ look_up_at section day.now }
{
    match read_for(day, section) {
        Ok(counts) => rows_start(day, section, counts),
        Err(_) => 0,
    }
}

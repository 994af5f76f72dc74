// The sections of a day file whose frame is without fault, each from its count on, as parts of the caller's file.
#![tactic(auto)]

ghost use Rattle.std.specs.Prelude.{◌≡◌};
ghost use Rattle.day.specs.Day.{zones_part, lines_part, steps_part, blocks_part};
ghost use Rattle.sections.specs.Section.{onward};
ghost use Rattle.parts.specs.Of.{OfDay, zones_at, lines_at, steps_at, blocks_at};

use day::Counts;
use rows::{Form, Kind};

// A function for each section, since each part is what the one before it leaves.
pub fn zones_part<'a>(day: &'a [u8], counts: Counts) -> &'a [u8]
    requires { OfDay day.now counts }
    ensures { (result.now ≡ zones_part day.now) × (result.ref_ptr ≡ onward (zones_at day.now) day.entry.ref_ptr) }
{
    reader::rest(Form::PERIODS, day, counts.periods)
}

pub fn lines_part<'a>(day: &'a [u8], counts: Counts) -> &'a [u8]
    requires { OfDay day.now counts }
    ensures { (result.now ≡ lines_part day.now) × (result.ref_ptr ≡ onward (lines_at day.now) day.entry.ref_ptr) }
{
    let of_zones = Form {
        kind: Kind::Zones,
        periods: counts.periods,
    };
    reader::rest(of_zones, zones_part(day, counts), counts.zones)
}

pub fn steps_part<'a>(day: &'a [u8], counts: Counts) -> &'a [u8]
    requires { OfDay day.now counts }
    ensures { (result.now ≡ steps_part day.now) × (result.ref_ptr ≡ onward (steps_at day.now) day.entry.ref_ptr) }
{
    let of_lines = Form {
        kind: Kind::Lines,
        periods: counts.periods,
    };
    reader::rest(of_lines, lines_part(day, counts), counts.lines)
}

pub fn blocks_part<'a>(day: &'a [u8], counts: Counts) -> &'a [u8]
    requires { OfDay day.now counts }
    ensures { (result.now ≡ blocks_part day.now) × (result.ref_ptr ≡ onward (blocks_at day.now) day.entry.ref_ptr) }
{
    let of_steps = Form {
        kind: Kind::Steps,
        periods: counts.periods,
    };
    reader::rest(of_steps, steps_part(day, counts), counts.steps)
}

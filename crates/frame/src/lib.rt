// Both files' frames: the sections opened one after the other by their heads, and nothing after them. Only the periods and the zones are
// read whole.
#![tactic(auto)]

ghost use Rattle.std.specs.Prelude.{◌≡◌, IfSome};
ghost use Rattle.rows.specs.Rows.{row_size};
ghost use Rattle.reader.specs.Reader.{GoodRows, HeadRows};
ghost use Rattle.day.specs.Good.{InLimits};
ghost use Rattle.frame.specs.Opened.{Opened};
ghost use Rattle.frame.specs.Chain.{Counted, FromPeriods, FromPrices};

use day::Counts;
use rows::{Form, Kind};

// How many rows a section has by its head: the count, its limit, and room for all rows.
fn head(form: Form, least: usize, most: usize, part: &[u8]) -> Option<usize>
    ensures { Counted (HeadRows form.kind least most form.periods part.now) (row_size form.kind form.periods) part.now result }
{
    sections::read_head(part, least, most, form.size()).ok()
}

// The same by its head and its rows.
fn whole(form: Form, least: usize, most: usize, part: &[u8]) -> Option<usize>
    ensures { Counted (GoodRows form.kind least most form.periods 0 part.now) (row_size form.kind form.periods) part.now result }
{
    reader::read_rows(form, least, most, 0, part).ok()
}

// Not the day file's own reader, nor below the clearing file's: those judge each row and name a fault, and these doubt.
fn open_day(day: &[u8]) -> Option<Counts>
    ensures { IfSome result (FromPeriods day.now) }
{
    let periods = whole(Form::PERIODS, 1, limits::MOST_PERIODS, day)?;
    let zones_part = reader::rest(Form::PERIODS, day, periods);
    let of_zones = Form {
        kind: Kind::Zones,
        periods,
    };
    let zones = whole(of_zones, 1, limits::MOST_ZONES, zones_part)?;
    let lines_part = reader::rest(of_zones, zones_part, zones);
    let of_lines = Form {
        kind: Kind::Lines,
        periods,
    };
    let lines = head(of_lines, 0, limits::MOST_LINES, lines_part)?;
    let steps_part = reader::rest(of_lines, lines_part, lines);
    let of_steps = Form {
        kind: Kind::Steps,
        periods,
    };
    let steps = head(of_steps, 0, limits::MOST_STEPS, steps_part)?;
    let blocks_part = reader::rest(of_steps, steps_part, steps);
    let of_blocks = Form {
        kind: Kind::Blocks,
        periods,
    };
    let blocks = head(of_blocks, 0, limits::MOST_BLOCKS, blocks_part)?;
    let after_blocks = reader::rest(of_blocks, blocks_part, blocks);
    if !after_blocks.is_empty() {
        return None;
    }
    Some(Counts {
        periods,
        zones,
        lines,
        steps,
        blocks,
    })
}

// How many rows a section of the clearing file has, where it has as many as the day file asks.
fn asked_head(form: Form, asked: usize, part: &[u8]) -> Option<usize>
    ensures { Counted (HeadRows form.kind asked asked form.periods part.now) (row_size form.kind form.periods) part.now result }
{
    head(form, asked, asked, part)
}

fn open_clearing(clearing: &[u8], counts: Counts) -> Option<Counts>
    requires { InLimits counts }
    ensures { IfSome result (FromPrices counts clearing.now) }
{
    let prices = asked_head(Form::PRICES, counts.zones * counts.periods, clearing)?;
    let flows_part = reader::rest(Form::PRICES, clearing, prices);
    let flows = asked_head(Form::FLOWS, counts.lines * counts.periods, flows_part)?;
    let volumes_part = reader::rest(Form::FLOWS, flows_part, flows);
    let volumes = asked_head(Form::VOLUMES, counts.steps, volumes_part)?;
    let ratios_part = reader::rest(Form::VOLUMES, volumes_part, volumes);
    let ratios = asked_head(Form::RATIOS, counts.blocks, ratios_part)?;
    let after_ratios = reader::rest(Form::RATIOS, ratios_part, ratios);
    if !after_ratios.is_empty() {
        return None;
    }
    Some(counts)
}

// Opens the sections of both files. Counts are given where both frames are good; none is a doubt, and says nothing.
pub fn open_files(day: &[u8], clearing: &[u8]) -> Option<Counts>
    ensures { IfSome result (Opened day.now clearing.now) }
{
    let counts = open_day(day)?;
    open_clearing(clearing, counts)
}

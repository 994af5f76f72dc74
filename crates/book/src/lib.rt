// Two files whose frames are without fault, row by row, as the market's day, prices and choice.
#![tactic(auto)]

ghost use Rattle.std.specs.Prelude.{◌≡◌, ◌+◌, ◌*◌, ◌≤◌, ◌<◌, pos, neg_ℤ, length};
ghost use Rattle.wire.specs.Bytes.{u32_at};
ghost use Rattle.rows.specs.Rows.{row_start};
ghost use Rattle.rows.specs.declared.Kind.TheVariants.{Lines};
ghost use Rattle.day.specs.Day.{lines_part, steps_part, blocks_part};
ghost use Rattle.clearing.specs.Clearing.{flows_part, volumes_part, ratios_part};
ghost use Rattle.parts.specs.Of.{OfDay};
ghost use Rattle.book.specs.Of.{OfClearing, OfFiles};
ghost use Rattle.book.specs.Framed.{Framed};
ghost use Rattle.book.specs.Book.{side_of, least_of, step_at, block_at, line_at, floor_of, ceiling_of, line_of, forward_of, back_of, step_of, block_of, quantity_of};
ghost use Rattle.book.specs.Book.{prices_of, flow_of, volume_of, ratio_of};

use day::Counts;
use market::{Block, Line, Side, Step};
use rows::{Form, Kind};

// Two files whose frames are without fault, with the day file's counts in hand.
#[derive(Clone, Copy)]
pub struct Framed<'a> {
    pub day: &'a [u8],
    pub clearing: &'a [u8],
    pub counts: Counts,
    pub ghost framed: { Framed day.now clearing.now counts },
}

// Two files that read without fault.
#[derive(Clone, Copy)]
pub struct Book<'a> {
    pub framed: Framed<'a>,
    pub ghost reads: { OfFiles framed.day.now framed.clearing.now framed.counts },
}

// ---- a capacity, as the least flow that it allows

fn minus(n: u32) -> i64
    ensures { result ≡ neg_ℤ (pos n) }
{
    -i64::from(n)
}

// ---- the rows of a part: `at` is the place at which the row starts

// Where a row starts: behind the count and the rows before it.
pub fn row_start(form: Form, row: usize) -> usize
    requires { row < 65536 }
    ensures { (result ≡ row_start form.kind form.periods row) × (result < 4294967296) }
{
    form.start(row)
}

// No `From`: neither type is this crate's.
fn side_of(n: usize) -> Side
    ensures { result ≡ side_of n }
{
    if n == 0 { Side::Sell } else { Side::Buy }
}

// A number of two bytes, by `as`, which is proved to fit: `TryFrom` would give an error that never comes.
fn narrow(n: usize) -> u32
    requires { n < 65536 }
    ensures { result ≡ n }
{
    n as u32
}

fn least_of(n: u32) -> u32
    ensures { result ≡ least_of n }
{
    if n == 0 { market::WHOLE } else { n }
}

pub fn step_at(part: &[u8], at: usize) -> Step
    requires { at + 12 ≤ length part.now }
    ensures { result ≡ step_at part.now at }
{
    Step {
        zone: wire::u8_at(part, at),
        period: wire::u8_at(part, at + 1),
        side: side_of(wire::u8_at(part, at + 2)),
        limit: wire::i32_at(part, at + 4),
        quantity: wire::u32_at(part, at + 8),
    }
}

pub fn block_at(part: &[u8], at: usize) -> Block
    requires { at + 8 ≤ length part.now }
    ensures { result ≡ block_at part.now at }
{
    Block {
        zone: wire::u8_at(part, at),
        side: side_of(wire::u8_at(part, at + 1)),
        limit: wire::i32_at(part, at + 4),
        least: least_of(narrow(wire::u16_at(part, at + 2))),
    }
}

pub fn line_at(part: &[u8], at: usize) -> Line
    requires { at + 2 ≤ length part.now }
    ensures { result ≡ line_at part.now at }
{
    Line {
        from: wire::u8_at(part, at),
        to: wire::u8_at(part, at + 1),
    }
}

// ---- the rows of a day file: that file's frame alone has to be without fault

pub fn floor_of(day: &[u8], counts: Counts, period: usize) -> i64
    requires { (OfDay day.now counts) × (period < counts.periods) }
    ensures { result ≡ floor_of day.now period }
{
    wire::i32_at(day, 2 + 8 * period)
}

pub fn ceiling_of(day: &[u8], counts: Counts, period: usize) -> i64
    requires { (OfDay day.now counts) × (period < counts.periods) }
    ensures { result ≡ ceiling_of day.now period }
{
    wire::i32_at(day, 2 + 8 * period + 4)
}

pub fn line_of(day: &[u8], counts: Counts, line: usize) -> Line
    requires { (OfDay day.now counts) × (line < counts.lines) }
    ensures { result ≡ line_of counts day.now line }
{
    let of_lines = Form {
        kind: Kind::Lines,
        periods: counts.periods,
    };
    line_at(parts::lines_part(day, counts), row_start(of_lines, line))
}

// A capacity of a line: the forward capacities start 2 bytes into its row, the back capacities 6.
pub fn capacity_of(day: &[u8], counts: Counts, line: usize, first: usize, period: usize) -> u32
    requires { (OfDay day.now counts) × ((line < counts.lines) × ((period < counts.periods) × (first ≤ 6))) }
    ensures { result ≡ u32_at (lines_part day.now) (row_start Lines counts.periods line + first + 8 * period) }
{
    let of_lines = Form {
        kind: Kind::Lines,
        periods: counts.periods,
    };
    wire::u32_at(
        parts::lines_part(day, counts),
        row_start(of_lines, line) + first + 8 * period,
    )
}

pub fn forward_of(day: &[u8], counts: Counts, line: usize, period: usize) -> i64
    requires { (OfDay day.now counts) × ((line < counts.lines) × (period < counts.periods)) }
    ensures { result ≡ forward_of counts day.now line period }
{
    market::wide(capacity_of(day, counts, line, 2, period))
}

// Minus the back capacity: the least flow.
pub fn least_flow_of(day: &[u8], counts: Counts, line: usize, period: usize) -> i64
    requires { (OfDay day.now counts) × ((line < counts.lines) × (period < counts.periods)) }
    ensures { result ≡ neg_ℤ (back_of counts day.now line period) }
{
    minus(capacity_of(day, counts, line, 6, period))
}

pub fn step_of(day: &[u8], counts: Counts, row: usize) -> Step
    requires { (OfDay day.now counts) × (row < counts.steps) }
    ensures { result ≡ step_of day.now row }
{
    step_at(parts::steps_part(day, counts), 2 + 12 * row)
}

pub fn block_of(day: &[u8], counts: Counts, row: usize) -> Block
    requires { (OfDay day.now counts) × (row < counts.blocks) }
    ensures { result ≡ block_of counts day.now row }
{
    let of_blocks = Form {
        kind: Kind::Blocks,
        periods: counts.periods,
    };
    block_at(parts::blocks_part(day, counts), row_start(of_blocks, row))
}

pub fn quantity_of(day: &[u8], counts: Counts, row: usize, period: usize) -> u32
    requires { (OfDay day.now counts) × ((row < counts.blocks) × (period < counts.periods)) }
    ensures { result ≡ quantity_of counts day.now row period }
{
    let of_blocks = Form {
        kind: Kind::Blocks,
        periods: counts.periods,
    };
    wire::u32_at(
        parts::blocks_part(day, counts),
        row_start(of_blocks, row) + 8 + 4 * period,
    )
}

// ---- the rows of a clearing file: that file's frame alone has to be without fault

fn flows_part<'a>(clearing: &'a [u8], counts: Counts) -> &'a [u8]
    requires { OfClearing clearing.now counts }
    ensures { result.now ≡ flows_part clearing.now }
{
    reader::rest(Form::PRICES, clearing, counts.zones * counts.periods)
}

fn volumes_part<'a>(clearing: &'a [u8], counts: Counts) -> &'a [u8]
    requires { OfClearing clearing.now counts }
    ensures { result.now ≡ volumes_part clearing.now }
{
    reader::rest(
        Form::FLOWS,
        flows_part(clearing, counts),
        counts.lines * counts.periods,
    )
}

fn ratios_part<'a>(clearing: &'a [u8], counts: Counts) -> &'a [u8]
    requires { OfClearing clearing.now counts }
    ensures { result.now ≡ ratios_part clearing.now }
{
    reader::rest(Form::VOLUMES, volumes_part(clearing, counts), counts.steps)
}

pub fn price_of(clearing: &[u8], counts: Counts, zone: usize, period: usize) -> i64
    requires { (OfClearing clearing.now counts) × ((zone < counts.zones) × (period < counts.periods)) }
    ensures { result ≡ prices_of counts clearing.now zone period }
{
    wire::i32_at(clearing, 2 + 4 * (zone * counts.periods + period))
}

pub fn flow_of(clearing: &[u8], counts: Counts, line: usize, period: usize) -> i64
    requires { (OfClearing clearing.now counts) × ((line < counts.lines) × (period < counts.periods)) }
    ensures { result ≡ flow_of counts clearing.now line period }
{
    wire::i32_at(
        flows_part(clearing, counts),
        2 + 4 * (line * counts.periods + period),
    )
}

pub fn volume_of(clearing: &[u8], counts: Counts, row: usize) -> u32
    requires { (OfClearing clearing.now counts) × (row < counts.steps) }
    ensures { result ≡ volume_of clearing.now row }
{
    wire::u32_at(volumes_part(clearing, counts), 2 + 4 * row)
}

pub fn ratio_of(clearing: &[u8], counts: Counts, row: usize) -> u32
    requires { (OfClearing clearing.now counts) × (row < counts.blocks) }
    ensures { result ≡ ratio_of clearing.now row }
{
    narrow(wire::u16_at(ratios_part(clearing, counts), 2 + 2 * row))
}

// ---- two files row by row: the same, with nothing to ask but the row

impl<'a> Framed<'a> {
    // ---- the sections that hold the rows, each from its count on, as parts of the caller's files

    pub fn lines_part(self) -> &'a [u8]
        ensures { result.now ≡ lines_part self.entry.day.now }
    {
        parts::lines_part(self.day, self.counts)
    }

    pub fn steps_part(self) -> &'a [u8]
        ensures { result.now ≡ steps_part self.entry.day.now }
    {
        parts::steps_part(self.day, self.counts)
    }

    pub fn blocks_part(self) -> &'a [u8]
        ensures { result.now ≡ blocks_part self.entry.day.now }
    {
        parts::blocks_part(self.day, self.counts)
    }

    // ---- the day file

    pub fn floor(self, period: usize) -> i64
        requires { period < self.counts.periods }
        ensures { result ≡ floor_of self.entry.day.now period }
    {
        floor_of(self.day, self.counts, period)
    }

    pub fn ceiling(self, period: usize) -> i64
        requires { period < self.counts.periods }
        ensures { result ≡ ceiling_of self.entry.day.now period }
    {
        ceiling_of(self.day, self.counts, period)
    }

    pub fn line(self, line: usize) -> Line
        requires { line < self.counts.lines }
        ensures { result ≡ line_of self.entry.counts self.entry.day.now line }
    {
        line_of(self.day, self.counts, line)
    }

    pub fn capacity(self, line: usize, first: usize, period: usize) -> u32
        requires { (line < self.counts.lines) × ((period < self.counts.periods) × (first ≤ 6)) }
        ensures { result ≡ u32_at (lines_part self.entry.day.now) (row_start Lines self.entry.counts.periods line + first + 8 * period) }
    {
        capacity_of(self.day, self.counts, line, first, period)
    }

    pub fn forward(self, line: usize, period: usize) -> i64
        requires { (line < self.counts.lines) × (period < self.counts.periods) }
        ensures { result ≡ forward_of self.entry.counts self.entry.day.now line period }
    {
        forward_of(self.day, self.counts, line, period)
    }

    pub fn least_flow(self, line: usize, period: usize) -> i64
        requires { (line < self.counts.lines) × (period < self.counts.periods) }
        ensures { result ≡ neg_ℤ (back_of self.entry.counts self.entry.day.now line period) }
    {
        least_flow_of(self.day, self.counts, line, period)
    }

    pub fn step(self, row: usize) -> Step
        requires { row < self.counts.steps }
        ensures { result ≡ step_of self.entry.day.now row }
    {
        step_of(self.day, self.counts, row)
    }

    pub fn block(self, row: usize) -> Block
        requires { row < self.counts.blocks }
        ensures { result ≡ block_of self.entry.counts self.entry.day.now row }
    {
        block_of(self.day, self.counts, row)
    }

    pub fn quantity(self, row: usize, period: usize) -> u32
        requires { (row < self.counts.blocks) × (period < self.counts.periods) }
        ensures { result ≡ quantity_of self.entry.counts self.entry.day.now row period }
    {
        quantity_of(self.day, self.counts, row, period)
    }

    // ---- the clearing file

    pub fn price(self, zone: usize, period: usize) -> i64
        requires { (zone < self.counts.zones) × (period < self.counts.periods) }
        ensures { result ≡ prices_of self.entry.counts self.entry.clearing.now zone period }
    {
        price_of(self.clearing, self.counts, zone, period)
    }

    pub fn flow(self, line: usize, period: usize) -> i64
        requires { (line < self.counts.lines) × (period < self.counts.periods) }
        ensures { result ≡ flow_of self.entry.counts self.entry.clearing.now line period }
    {
        flow_of(self.clearing, self.counts, line, period)
    }

    pub fn volume(self, row: usize) -> u32
        requires { row < self.counts.steps }
        ensures { result ≡ volume_of self.entry.clearing.now row }
    {
        volume_of(self.clearing, self.counts, row)
    }

    pub fn ratio(self, row: usize) -> u32
        requires { row < self.counts.blocks }
        ensures { result ≡ ratio_of self.entry.clearing.now row }
    {
        ratio_of(self.clearing, self.counts, row)
    }
}

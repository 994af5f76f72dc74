// The walk over prices, lines and flows: each row once, tested and counted. `true` only where nothing is broken; `false` is doubt, and
// promises nothing.
#![tactic(auto)]

ghost use Rattle.std.specs.Prelude.{◌≡◌, true, ℕ, ◌<◌, ◌≤◌, pos, length, get_or};
ghost use Rattle.cells.specs.Cells.{Gained, Within};
ghost use Rattle.cells.specs.Gains.{SumsWithin};
ghost use Rattle.market.specs.Rules.{line_ok};
ghost use Rattle.rows.specs.Sentences.{IsPrice};
ghost use Rattle.book.specs.Book.{floor_of, ceiling_of, prices_of};
ghost use Rattle.book.specs.Framed.{PricesSmall};
ghost use Rattle.lines.specs.Sure.{SurePrice, LinesCounted};
ghost use Rattle.lines.specs.Counted.{Below, Between, FlowSure, Carries, carried, FlowAsks, FlowCounted, LineAsks, LineCounted};

use book::Framed;
use cells::Sums;
use day::Counts;
use market::Line;
use rows::{Form, Kind};

// ---- the prices

// A period's prices in all zones, from its floor to its ceiling.
fn period_sure(framed: Framed<'_>, period: usize, floor: i64, ceiling: i64) -> bool
    requires { period < framed.counts.periods }
    ensures { let f = framed.entry in result ≡ true → Below f.counts.zones (λ zone. Between floor ceiling (prices_of f.counts f.clearing.now zone period)) }
{
    for zone in 0..framed.counts.zones {
        if !limits::between(framed.price(zone, period), floor, ceiling) {
            return false;
        }
    }
    true
}

pub fn prices_sure(framed: Framed<'_>) -> bool
    requires { (h : ℕ) → h < framed.counts.periods → IsPrice (floor_of framed.day.now h) × IsPrice (ceiling_of framed.day.now h) }
    ensures { let f = framed.entry in result ≡ true → (z h : ℕ) → z < f.counts.zones → h < f.counts.periods → SurePrice f.counts f.day.now f.clearing.now z h }
{
    for period in 0..framed.counts.periods {
        if !period_sure(framed, period, framed.floor(period), framed.ceiling(period)) {
            return false;
        }
    }
    true
}

// ---- the lines

// A line is full towards the dearer end; at equal prices any flow goes.
fn full(least: i64, most: i64, from: i64, to: i64, flow: i64) -> bool
    ensures { result ≡ true → line_ok most least from to flow ≡ true }
{
    if from < to {
        return flow == most;
    }
    if to < from {
        return flow == least;
    }
    true
}

// A flow between capacities that are within their limits, full towards the dearer end.
fn flow_sure(forward: u32, back: u32, from: i64, to: i64, flow: i64) -> bool
    ensures { result ≡ true → FlowSure forward back from to flow }
{
    if !((forward <= limits::VOLUME_MOST) & (back <= limits::VOLUME_MOST)) {
        return false;
    }
    let most = market::wide(forward);
    let least = market::negative(market::wide(back));
    if !limits::between(flow, least, most) {
        return false;
    }
    full(least, most, from, to, flow)
}

// The flow leaves "from" and enters "to".
fn carry(flows: &mut [i64; 200], counts: Counts, ends: Line, period: usize, flow: i64)
    requires { Carries counts ends period flow flows.old }
    ensures { Gained counts.zones counts.periods (carried ends period flow) flows.old flows.new }
{
    let leaving = cells::cell(counts.periods, ends.from, period);
    let entering = cells::cell(counts.periods, ends.to, period);
    let opposite = market::negative(flow);
    cells::add_at(flows, leaving, flow);
    cells::add_at(flows, entering, opposite);
}

// A line in one period.
fn count_flow(
    framed: Framed<'_>,
    line: usize,
    period: usize,
    ends: Line,
    forward: u32,
    back: u32,
    flows: &mut [i64; 200],
    sums: &mut Sums,
) -> bool
    requires { FlowAsks framed.counts framed.clearing.now line period ends flows.old sums.old }
    ensures { result ≡ true → FlowCounted framed.entry.counts framed.entry.clearing.now line period ends forward back
        flows.old flows.new sums.old sums.new }
{
    let flow = framed.flow(line, period);
    let from = framed.price(ends.from, period);
    let to = framed.price(ends.to, period);
    if !flow_sure(forward, back, from, to, flow) {
        return false;
    }
    sums.rent += market::rent(flow, from, to);
    carry(flows, framed.counts, ends, period, flow);
    true
}

// A line in all its periods: its row starts at `at`.
fn count_line(
    part: &[u8],
    at: usize,
    framed: Framed<'_>,
    line: usize,
    flows: &mut [i64; 200],
    sums: &mut Sums,
) -> bool
    requires { LineAsks framed.counts framed.clearing.now part.now at line flows.old sums.old }
    ensures { result ≡ true → LineCounted framed.entry.counts framed.entry.clearing.now part.now at line
        flows.old flows.new sums.old sums.new }
{
    let ends = book::line_at(part, at);
    if !((ends.from < framed.counts.zones)
        & (ends.to < framed.counts.zones)
        & (ends.to != ends.from))
    {
        return false;
    }
    for period in 0..framed.counts.periods {
        if !count_flow(
            framed,
            line,
            period,
            ends,
            wire::u32_at(part, at + 2 + 8 * period),
            wire::u32_at(part, at + 6 + 8 * period),
            flows,
            sums,
        ) {
            return false;
        }
    }
    true
}

pub fn count_lines(framed: Framed<'_>, flows: &mut [i64; 200], sums: &mut Sums) -> bool
    requires prices { PricesSmall framed.counts framed.clearing.now }
    requires within { (Within framed.counts.zones framed.counts.periods 1000000000000000000 flows.old) × (SumsWithin 1000000000000000000 sums.old) }
    ensures { result ≡ true → LinesCounted framed.entry.counts framed.entry.day.now framed.entry.clearing.now
        flows.old flows.new sums.old sums.new }
{
    let part = framed.lines_part();
    for line in 0..framed.counts.lines {
        if !count_line(
            part,
            book::row_start(
                Form {
                    kind: Kind::Lines,
                    periods: framed.counts.periods,
                },
                line,
            ),
            framed,
            line,
            flows,
            sums,
        ) {
            return false;
        }
    }
    true
}

// ---- two tables

// The first n cells of both are the same.
pub fn balanced(nets: &[i64], flows: &[i64], n: usize) -> bool
    requires { (n ≤ length nets.now) × (n ≤ length flows.now) }
    ensures { result ≡ true → (k : ℕ) → k < n → get_or nets.now k (pos 0) ≡ get_or flows.now k (pos 0) }
{
    nets[..n] == flows[..n]
}

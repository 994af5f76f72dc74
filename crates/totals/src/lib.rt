// The sums over the rows of two files that read without fault: the six totals, and the tables of the net positions and the flows.
#![tactic(auto)]

ghost use Rattle.std.specs.Prelude.{◌≡◌, ◌+◌, ◌*◌, ◌≤◌, ◌<◌, ℕ, ℤ, pos, neg_ℤ, nat_abs, ◌+ℤ◌, length, get_or};
ghost use Rattle.std.specs.Int.{w64};
ghost use Rattle.std.proofs.Common.{SFits};
ghost use Rattle.whole.specs.Whole.{sum, above_zero};
ghost use Rattle.cells.specs.Cells.{added, Tabled};
ghost use Rattle.limits.specs.Limits.{most_flow, most_ratio};
ghost use Rattle.market.specs.Market.{block_trade};
ghost use Rattle.totals.specs.Sums as sums;
ghost use Rattle.totals.specs.Loops.{Gives, PartsFit};
ghost use Rattle.totals.specs.Gather.{signed, brings, after_steps, after_blocks, after_lines};

use book::{Book, Framed};
use market::{Block, Line, Measure, Side, Totals, Trade};

// ---- a sum

// What `of` gives at each number below n, added up.
fn sum_of<F: Fn(usize) -> i64>(n: usize, of: F) -> i64
    requires callable { (i : ℕ) → i < n → F.pre of i }
    requires parts_fit { (f : ℕ → ℤ) × (Gives n (F.post of) f × PartsFit n f) }
    ensures { (f : ℕ → ℤ) → Gives n (F.post of) f → result ≡ sum n f }
{
    let mut all: i64 = 0;
    for i in 0..n {
        all = market::add(all, of(i));
    }
    all
}

// ---- the steps

fn step_trade(book: Book<'_>, row: usize) -> Trade
    requires { row < book.framed.counts.steps }
    ensures { let f = book.entry.framed in result ≡ sums.step_trade f.day.now f.clearing.now row }
{
    let step = book.framed.step(row);
    let side = step.side;
    Trade {
        zone: step.zone,
        period: step.period,
        side,
        limit: step.limit,
        volume: book.framed.volume(row),
    }
}

// What a trade counts at the price of its zone and period.
fn priced(measure: Measure, trade: Trade, framed: Framed<'_>) -> i64
    requires { sums.Priceable framed.clearing.now framed.counts trade }
    ensures { result ≡ sums.priced_in framed.entry.clearing.now framed.entry.counts measure trade }
{
    market::measured(measure, trade, framed.price(trade.zone, trade.period))
}

fn one_step(measure: Measure, book: Book<'_>, row: usize) -> i64
    requires { row < book.framed.counts.steps }
    ensures { let f = book.entry.framed in result ≡ sums.one_step f.counts f.day.now f.clearing.now measure row }
{
    priced(measure, step_trade(book, row), book.framed)
}

fn over_steps(measure: Measure, book: Book<'_>) -> i64
    ensures { let f = book.entry.framed in result ≡ sum f.counts.steps (sums.one_step f.counts f.day.now f.clearing.now measure) }
{
    sum_of(book.framed.counts.steps, |row| one_step(measure, book, row))
}

// ---- the blocks

fn block_trade(block: Block, period: usize, volume: u32) -> Trade
    ensures { result ≡ block_trade block period volume }
{
    let side = block.side;
    Trade {
        zone: block.zone,
        period,
        side,
        limit: block.limit,
        volume,
    }
}

fn one_period(measure: Measure, book: Book<'_>, row: usize, ratio: u32, period: usize) -> i64
    requires { (row < book.framed.counts.blocks) × ((period < book.framed.counts.periods) × (ratio ≤ most_ratio)) }
    ensures { let f = book.entry.framed in result ≡ sums.one_period f.counts f.day.now f.clearing.now measure row ratio period }
{
    priced(
        measure,
        block_trade(
            book.framed.block(row),
            period,
            market::block_volume(ratio, book.framed.quantity(row, period)),
        ),
        book.framed,
    )
}

// A block in all its periods, at a ratio.
fn over_periods(measure: Measure, book: Book<'_>, row: usize, ratio: u32) -> i64
    requires { (row < book.framed.counts.blocks) × (ratio ≤ most_ratio) }
    ensures { let f = book.entry.framed in result ≡ sums.over_periods f.counts f.day.now f.clearing.now measure row ratio }
{
    sum_of(
        book.framed.counts.periods,
        |period| one_period(measure, book, row, ratio, period),
    )
}

fn one_block(measure: Measure, book: Book<'_>, row: usize) -> i64
    requires { row < book.framed.counts.blocks }
    ensures { let f = book.entry.framed in result ≡ sums.one_block f.counts f.day.now f.clearing.now measure row }
{
    over_periods(measure, book, row, book.framed.ratio(row))
}

fn over_blocks(measure: Measure, book: Book<'_>) -> i64
    ensures { let f = book.entry.framed in result ≡ sum f.counts.blocks (sums.one_block f.counts f.day.now f.clearing.now measure) }
{
    sum_of(
        book.framed.counts.blocks,
        |row| one_block(measure, book, row),
    )
}

// ---- over all that is accepted

fn everything(measure: Measure, book: Book<'_>) -> i64
    ensures { let f = book.entry.framed in result ≡ sums.everything f.counts f.day.now f.clearing.now measure }
{
    market::add(over_steps(measure, book), over_blocks(measure, book))
}

// ---- the shortfall

pub fn whole_surplus(book: Book<'_>, row: usize) -> i64
    requires { row < book.framed.counts.blocks }
    ensures { let f = book.entry.framed in result ≡ sums.whole_surplus f.counts f.day.now f.clearing.now row }
{
    over_periods(Measure::Surplus, book, row, market::WHOLE)
}

// What is left unaccepted of a block, in all its periods: the whole less what is accepted.
fn left_surplus(book: Book<'_>, row: usize) -> i64
    requires { row < book.framed.counts.blocks }
    ensures { let f = book.entry.framed in result ≡ sums.left_surplus f.counts f.day.now f.clearing.now row }
{
    let whole = whole_surplus(book, row);
    let accepted = one_block(Measure::Surplus, book, row);
    market::less(whole, accepted)
}

fn above_zero(surplus: i64) -> i64
    ensures { result ≡ above_zero surplus }
{
    surplus.max(0)
}

fn missed(book: Book<'_>, row: usize) -> i64
    requires { row < book.framed.counts.blocks }
    ensures { let f = book.entry.framed in result ≡ sums.missed f.counts f.day.now f.clearing.now row }
{
    above_zero(left_surplus(book, row))
}

fn shortfall(book: Book<'_>) -> i64
    ensures { let f = book.entry.framed in result ≡ sum f.counts.blocks (sums.missed f.counts f.day.now f.clearing.now) }
{
    sum_of(book.framed.counts.blocks, |row| missed(book, row))
}

// ---- the lines

// The flow of a line and period, times how much dearer "to" is than "from".
fn rent_at(book: Book<'_>, line: usize, period: usize) -> i64
    requires { (line < book.framed.counts.lines) × (period < book.framed.counts.periods) }
    ensures { let f = book.entry.framed in result ≡ sums.rent_at f.counts f.day.now f.clearing.now line period }
{
    let ends = book.framed.line(line);
    market::rent(
        book.framed.flow(line, period),
        book.framed.price(ends.from, period),
        book.framed.price(ends.to, period),
    )
}

fn line_rent(book: Book<'_>, line: usize) -> i64
    requires { line < book.framed.counts.lines }
    ensures { let f = book.entry.framed in result ≡ sums.line_rent f.counts f.day.now f.clearing.now line }
{
    sum_of(
        book.framed.counts.periods,
        |period| rent_at(book, line, period),
    )
}

fn rent(book: Book<'_>) -> i64
    ensures { let f = book.entry.framed in result ≡ sum f.counts.lines (sums.line_rent f.counts f.day.now f.clearing.now) }
{
    sum_of(book.framed.counts.lines, |line| line_rent(book, line))
}

// ---- the net positions and the flows, gathered by zone and period: each row is read once

// A sell brings its volume, a buy takes it away.
fn signed(side: Side, volume: u32) -> i64
    ensures { result ≡ signed side volume }
{
    match side {
        Side::Sell => market::wide(volume),
        Side::Buy => market::less(0, market::wide(volume)),
    }
}

// A trade, added at its zone and period.
fn add_trade(trade: Trade, periods: usize, nets: &mut [i64])
    requires nets_len { (length nets.old ≡ 200) × (trade.zone * periods + trade.period < 200) }
    requires sfits { SFits w64 (get_or nets.old (trade.zone * periods + trade.period) (pos 0) +ℤ brings trade) }
    ensures { nets.new ≡ added nets.old (trade.zone * periods + trade.period) (brings trade) }
{
    let side = trade.side;
    cells::add_at(
        nets,
        cells::cell(periods, trade.zone, trade.period),
        signed(side, trade.volume),
    );
}

fn gather_steps(book: Book<'_>, nets: &mut [i64])
    requires { let f = book.framed in Tabled f.counts.zones f.counts.periods (λ _ _. pos 0) nets.old }
    ensures { let f = book.entry.framed in Tabled f.counts.zones f.counts.periods (after_steps f.counts f.day.now f.clearing.now f.counts.steps) nets.new }
{
    for row in 0..book.framed.counts.steps {
        add_trade(step_trade(book, row), book.framed.counts.periods, nets);
    }
}

// A block in each of its periods.
fn gather_block(book: Book<'_>, row: usize, nets: &mut [i64])
    requires row_in { row < book.framed.counts.blocks }
    requires tabled { let f = book.framed in Tabled f.counts.zones f.counts.periods (after_blocks f.counts f.day.now f.clearing.now row) nets.old }
    ensures { let f = book.entry.framed in Tabled f.counts.zones f.counts.periods (after_blocks f.counts f.day.now f.clearing.now (row + 1)) nets.new }
{
    let block = book.framed.block(row);
    let ratio = book.framed.ratio(row);
    for period in 0..book.framed.counts.periods {
        let volume = market::block_volume(ratio, book.framed.quantity(row, period));
        add_trade(
            block_trade(block, period, volume),
            book.framed.counts.periods,
            nets,
        );
    }
}

fn gather_blocks(book: Book<'_>, nets: &mut [i64])
    requires { let f = book.framed in Tabled f.counts.zones f.counts.periods (after_steps f.counts f.day.now f.clearing.now f.counts.steps) nets.old }
    ensures { let f = book.entry.framed in Tabled f.counts.zones f.counts.periods (after_blocks f.counts f.day.now f.clearing.now f.counts.blocks) nets.new }
{
    for row in 0..book.framed.counts.blocks {
        gather_block(book, row, nets);
    }
}

pub fn gather_nets(book: Book<'_>, nets: &mut [i64])
    requires { let f = book.framed in Tabled f.counts.zones f.counts.periods (λ _ _. pos 0) nets.old }
    ensures { let f = book.entry.framed in Tabled f.counts.zones f.counts.periods (sums.net_position f.counts f.day.now f.clearing.now) nets.new }
{
    gather_steps(book, nets);
    gather_blocks(book, nets);
}

// A flow leaves "from" and enters "to".
fn add_flow(line: Line, flow: i64, periods: usize, period: usize, flows: &mut [i64])
    requires flows_len { (length flows.old ≡ 200) × ((line.from * periods + period < 200) × (line.to * periods + period < 200)) }
    requires flow_bound { nat_abs flow ≤ most_flow }
    requires sfits { SFits w64 (get_or flows.old (line.from * periods + period) (pos 0) +ℤ flow) }
    requires sfits_2 { SFits w64 (get_or (added flows.old (line.from * periods + period) flow) (line.to * periods + period) (pos 0) +ℤ neg_ℤ flow) }
    ensures { flows.new ≡ added (added flows.old (line.from * periods + period) flow) (line.to * periods + period) (neg_ℤ flow) }
{
    cells::add_at(flows, cells::cell(periods, line.from, period), flow);
    cells::add_at(
        flows,
        cells::cell(periods, line.to, period),
        market::less(0, flow),
    );
}

// A line in each period.
fn gather_line(book: Book<'_>, line: usize, flows: &mut [i64])
    requires line_in { line < book.framed.counts.lines }
    requires tabled { let f = book.framed in Tabled f.counts.zones f.counts.periods (after_lines f.counts f.day.now f.clearing.now line) flows.old }
    ensures { let f = book.entry.framed in Tabled f.counts.zones f.counts.periods (after_lines f.counts f.day.now f.clearing.now (line + 1)) flows.new }
{
    let ends = book.framed.line(line);
    for period in 0..book.framed.counts.periods {
        add_flow(
            ends,
            book.framed.flow(line, period),
            book.framed.counts.periods,
            period,
            flows,
        );
    }
}

pub fn gather_flows(book: Book<'_>, flows: &mut [i64])
    requires { let f = book.framed in Tabled f.counts.zones f.counts.periods (λ _ _. pos 0) flows.old }
    ensures { let f = book.entry.framed in Tabled f.counts.zones f.counts.periods (sums.net_flow f.counts f.day.now f.clearing.now) flows.new }
{
    for line in 0..book.framed.counts.lines {
        gather_line(book, line, flows);
    }
}

// ---- the totals

pub fn totals_of(book: Book<'_>) -> Totals
    ensures { let f = book.entry.framed in result ≡ sums.totals f.counts f.day.now f.clearing.now }
{
    Totals {
        value: everything(Measure::Value, book),
        buyers: everything(Measure::Buyers, book),
        sellers: everything(Measure::Sellers, book),
        rent: rent(book),
        traded: everything(Measure::Traded, book),
        shortfall: shortfall(book),
    }
}

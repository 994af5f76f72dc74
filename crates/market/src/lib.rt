// The trade with no bytes: orders and lines, what is accepted of them, the rules' tests at one place, and what a trade counts.
#![tactic(auto)]

ghost use Rattle.std.specs.Prelude.{◌≡◌, ◌≤◌, pos, neg_ℤ, nat_abs, ◌+ℤ◌, ◌-ℤ◌, ◌*ℤ◌};
ghost use Rattle.std.specs.Int.{w64};
ghost use Rattle.std.proofs.Common.{SFits};
ghost use Rattle.limits.specs.Limits.{most_price, most_flow, most_volume, most_ratio};
ghost use Rattle.market.specs.Market.{block_volume, volume_at};
ghost use Rattle.market.specs.Rules.{equal, full_or_none, step_ok, line_ok, ratio_ok, whole_ok, block_ok};
ghost use Rattle.market.specs.Measures.{Small, gain, sold, bought, measured};

use stages::Broken;

// The ratio that is all of a block, in thousandths.
pub const WHOLE: u32 = 1000;

#[derive(Clone, Copy)]
pub enum Side {
    Sell,
    Buy,
}

#[derive(Clone, Copy)]
pub struct Step {
    pub zone: usize,
    pub period: usize,
    pub side: Side,
    pub limit: i64,
    pub quantity: u32,
}

// A block's quantities stand beside it, one for each period.
#[derive(Clone, Copy)]
pub struct Block {
    pub zone: usize,
    pub side: Side,
    pub limit: i64,
    // In thousandths, from 1 to 1,000.
    pub least: u32,
}

// A line's capacities stand beside it, two for each period.
#[derive(Clone, Copy)]
pub struct Line {
    pub from: usize,
    pub to: usize,
}

// What is accepted of an order in one period.
#[derive(Clone, Copy)]
pub struct Trade {
    pub zone: usize,
    pub period: usize,
    pub side: Side,
    pub limit: i64,
    pub volume: u32,
}

// The six totals of an accepted clearing.
#[derive(Clone, Copy, Debug, Default, PartialEq, Eq)]
pub struct Totals {
    pub value: i64,
    pub buyers: i64,
    pub sellers: i64,
    pub rent: i64,
    pub traded: i64,
    pub shortfall: i64,
}

// The rules of a clearing, 11 to 13, 20 and 21, 14 to 17.
#[derive(Clone, Copy)]
pub enum Rule {
    Price,
    Capacity,
    Quantity,
    Ratio,
    Whole,
    Balance,
    Step,
    Line,
    Block,
}

// What a refusal calls broken where a rule is.
impl From<Rule> for Broken {
    ghost use Rattle.std.specs.Prelude.{◌≡◌};
    ghost use Rattle.stages.specs.Number.{number as code};
    ghost use Rattle.market.specs.Rules.{number};

    ghost from_gives = { λ rule broken. code broken ≡ number rule };

    fn from(rule: Rule) -> Broken {
        match rule {
            Rule::Price => Broken::Price,
            Rule::Capacity => Broken::Capacity,
            Rule::Quantity => Broken::Quantity,
            Rule::Ratio => Broken::Ratio,
            Rule::Whole => Broken::Whole,
            Rule::Balance => Broken::Balance,
            Rule::Step => Broken::Step,
            Rule::Line => Broken::Line,
            Rule::Block => Broken::Block,
        }
    }
}

// What is counted of a trade.
#[derive(Clone, Copy)]
pub enum Measure {
    // Its part of the order value.
    Value,
    // Its part of the buyers' surplus, and of the sellers'.
    Buyers,
    Sellers,
    // Its part of the traded volume.
    Traded,
    // Its surplus, whichever its side.
    Surplus,
    // What it brings to a zone and period.
    Net(usize, usize),
}

// ---- the rules' tests at one place

pub fn equal(a: i64, b: i64) -> bool
    ensures { result ≡ equal a b }
{
    a == b
}

fn full_or_none(ask: i64, get: i64, quantity: u32, volume: u32) -> bool
    ensures { result ≡ full_or_none ask get quantity volume }
{
    ((get <= ask) | (volume == quantity)) & ((ask <= get) | (volume == 0))
}

pub fn step_ok(side: Side, limit: i64, quantity: u32, price: i64, volume: u32) -> bool
    ensures { result ≡ step_ok side limit quantity price volume }
{
    match side {
        Side::Sell => full_or_none(limit, price, quantity, volume),
        Side::Buy => full_or_none(price, limit, quantity, volume),
    }
}

pub fn line_ok(forward: i64, least: i64, from: i64, to: i64, flow: i64) -> bool
    ensures { result ≡ line_ok forward least from to flow }
{
    ((to <= from) | equal(flow, forward)) & ((from <= to) | equal(flow, least))
}

pub fn ratio_ok(least: u32, ratio: u32) -> bool
    ensures { result ≡ ratio_ok least ratio }
{
    (ratio == 0) | (least <= ratio)
}

pub fn whole_ok(ratio: u32, quantity: u32) -> bool
    requires { (ratio ≤ most_ratio) × (quantity ≤ most_volume) }
    ensures { result ≡ whole_ok ratio quantity }
{
    quantity * ratio % WHOLE == 0
}

pub fn block_ok(ratio: u32, surplus: i64) -> bool
    ensures { result ≡ block_ok ratio surplus }
{
    (ratio == 0) | (0 <= surplus)
}

// ---- what is accepted of a block in a period

pub fn block_volume(ratio: u32, quantity: u32) -> u32
    requires { (ratio ≤ most_ratio) × (quantity ≤ most_volume) }
    ensures { result ≡ block_volume ratio quantity }
{
    quantity * ratio / WHOLE
}

// ---- what a trade counts

// What is got less what is asked, for each unit of a volume.
pub fn gain(get: i64, ask: i64, volume: u32) -> i64
    requires { (nat_abs get ≤ most_price) × ((nat_abs ask ≤ most_price) × (volume ≤ most_volume)) }
    ensures { result ≡ gain get ask volume }
{
    (get - ask) * i64::from(volume)
}

pub fn wide(n: u32) -> i64
    ensures { result ≡ pos n }
{
    i64::from(n)
}

pub fn negative(volume: i64) -> i64
    requires { nat_abs volume ≤ most_volume }
    ensures { result ≡ neg_ℤ volume }
{
    -volume
}

fn volume_at(trade: Trade, zone: usize, period: usize) -> i64
    requires { trade.volume ≤ most_volume }
    ensures { (result ≡ volume_at zone period trade) × (nat_abs result ≤ most_volume) }
{
    if (zone == trade.zone) & (period == trade.period) {
        wide(trade.volume)
    } else {
        0
    }
}

fn sold(measure: Measure, trade: Trade, price: i64) -> i64
    requires { Small trade price }
    ensures { result ≡ sold measure price trade }
{
    match measure {
        Measure::Value => gain(0, trade.limit, trade.volume),
        Measure::Buyers => 0,
        Measure::Sellers => gain(price, trade.limit, trade.volume),
        Measure::Traded => 0,
        Measure::Surplus => gain(price, trade.limit, trade.volume),
        Measure::Net(zone, period) => volume_at(trade, zone, period),
    }
}

fn bought(measure: Measure, trade: Trade, price: i64) -> i64
    requires { Small trade price }
    ensures { result ≡ bought measure price trade }
{
    match measure {
        Measure::Value => gain(trade.limit, 0, trade.volume),
        Measure::Buyers => gain(trade.limit, price, trade.volume),
        Measure::Sellers => 0,
        Measure::Traded => wide(trade.volume),
        Measure::Surplus => gain(trade.limit, price, trade.volume),
        Measure::Net(zone, period) => negative(volume_at(trade, zone, period)),
    }
}

pub fn measured(measure: Measure, trade: Trade, price: i64) -> i64
    requires { Small trade price }
    ensures { result ≡ measured measure price trade }
{
    let side = trade.side;
    match side {
        Side::Sell => sold(measure, trade, price),
        Side::Buy => bought(measure, trade, price),
    }
}

// ---- sums

pub fn add(a: i64, b: i64) -> i64
    requires { SFits w64 (a +ℤ b) }
    ensures { result ≡ a +ℤ b }
{
    a + b
}

// A line's flow times how much dearer "to" is than "from".
pub fn rent(flow: i64, from: i64, to: i64) -> i64
    requires { (nat_abs flow ≤ most_flow) × ((nat_abs from ≤ most_price) × (nat_abs to ≤ most_price)) }
    ensures { result ≡ flow *ℤ (to -ℤ from) }
{
    flow * (to - from)
}

pub fn less(a: i64, b: i64) -> i64
    requires { SFits w64 (a -ℤ b) }
    ensures { result ≡ a -ℤ b }
{
    a - b
}

// The walk over the blocks: each row once, tested and counted. An answer of `true` is sure; `false` is a doubt, and says nothing.
#![tactic(auto)]

ghost use Rattle.std.specs.Prelude.{◌≡◌, true, ◌&&◌, ◌+◌, ◌*◌, ◌≤◌, ◌<◌, leb, ltb, pos, nat_abs, ◌+ℤ◌, length, get_or};
ghost use Rattle.whole.specs.Whole.{◌≼◌, sum, above_zero};
ghost use Rattle.cells.specs.Cells.{added, Within};
ghost use Rattle.cells.specs.Gains.{nothing, SumsWithin, SumsGained};
ghost use Rattle.limits.specs.Limits.{most_price, most_volume, most_ratio, is_price};
ghost use Rattle.market.specs.Market.{block_volume};
ghost use Rattle.rows.specs.Rows.{block_quantity};
ghost use Rattle.book.specs.Book.{prices_of};
ghost use Rattle.book.specs.Framed.{PricesSmall};
ghost use Rattle.blocks.specs.Block.{HeadRow, WalkedTo, surplus_by, signed_volume, Ready, BroughtTo, shared, part_of, Accepted};
ghost use Rattle.blocks.specs.Sure.{BlockCounted, BlocksCounted};

use book::Framed;
use cells::Sums;
use day::Counts;
use market::Side;
use rows::{Form, Kind};

// ---- the head of a row

fn fields_ok(zones: usize, zone: usize, side: usize, least: usize, limit: i64) -> bool
    ensures { result ≡ (((ltb zone zones && leb side 1) && leb least most_ratio) && is_price limit) }
{
    (zone < zones)
        & (side <= 1)
        & (least <= limits::RATIO_MOST)
        & ((limits::PRICE_LEAST <= limit) & (limit <= limits::PRICE_MOST))
}

fn head_ok(part: &[u8], at: usize, zones: usize) -> bool
    requires { at + 8 ≤ length part.now }
    ensures { result ≡ true → HeadRow zones part.now at }
{
    fields_ok(
        zones,
        wire::u8_at(part, at),
        wire::u8_at(part, at + 1),
        wire::u16_at(part, at + 2),
        wire::i32_at(part, at + 4),
    )
}

// ---- the first walk: the whole block

// What is summed over the periods: the quantities, and the quantities at their raised prices. No quantity is above the bits that any of them
// has.
#[derive(Clone, Copy)]
pub struct Walked {
    pub all: u64,
    pub worth: u64,
    pub bits: u32,
}

fn plus(all: u64, n: u32) -> u64
    requires { all ≤ 1000000000000 }
    ensures { result ≡ all + n }
{
    all + u64::from(n)
}

// A price raised by the highest, so that none is below 0. By `as`, which is proved to fit: `TryFrom` would give an error that never comes.
fn raised(price: i64) -> u32
    requires { nat_abs price ≤ most_price }
    ensures { (pos result ≡ price +ℤ pos most_price) × (result ≤ 2000000) }
{
    (price + limits::PRICE_MOST) as u32
}

fn plus_worth(worth: u64, price: u32, quantity: u32) -> u64
    requires { (worth ≤ 1000000000000000000) × (price ≤ 2000000) }
    ensures { result ≡ worth + price * quantity }
{
    worth + u64::from(price) * u64::from(quantity)
}

fn either(a: u32, b: u32) -> u32
    ensures { (a ≤ result) × (b ≤ result) }
{
    a | b
}

// A block whose row starts at `at`, at the prices of its zone.
fn over_periods(part: &[u8], at: usize, framed: Framed<'_>, zone: usize) -> Walked
    requires periods_in_bounds { at + (8 + 4 * framed.counts.periods) ≤ length part.now }
    requires prices { (PricesSmall framed.counts framed.clearing.now) × (zone < framed.counts.zones) }
    ensures { WalkedTo (block_quantity part.now at) (prices_of framed.entry.counts framed.entry.clearing.now zone)
        framed.entry.counts.periods result.all result.worth result.bits }
{
    let mut all: u64 = 0;
    let mut worth: u64 = 0;
    let mut bits: u32 = 0;
    for period in 0..framed.counts.periods {
        let quantity = wire::u32_at(part, at + 8 + 4 * period);
        let price = raised(framed.price(zone, period));
        all = plus(all, quantity);
        worth = plus_worth(worth, price, quantity);
        bits = either(bits, quantity);
    }
    Walked { all, worth, bits }
}

// By `as` here and below, as above.
fn surplus_of(side: Side, limit: i64, all: u64, worth: u64) -> i64
    requires { (nat_abs limit ≤ most_price) × ((all ≤ 1000000000000) × (worth ≤ 1000000000000000000)) }
    ensures { result ≡ surplus_by side limit all worth }
{
    let asked = (limit + limits::PRICE_MOST) * all as i64;
    let got = worth as i64;
    match side {
        Side::Sell => got - asked,
        Side::Buy => asked - got,
    }
}

// ---- the second walk: what is accepted

// The volume in a period. That the whole of a quantity is that quantity spares the division.
fn volume_of(ratio: u32, quantity: u32) -> u32
    requires { (ratio ≤ most_ratio) × (quantity ≤ most_volume) }
    ensures { result ≡ block_volume ratio quantity }
{
    if ratio == market::WHOLE {
        quantity
    } else {
        market::block_volume(ratio, quantity)
    }
}

fn add_volume(side: Side, volume: u32, cell: usize, nets: &mut [i64; 200])
    requires volume_le_most_volume { (volume ≤ most_volume) × (cell < length nets.old) }
    requires pos_bound { nat_abs (get_or nets.old cell (pos 0)) ≤ 3000000000000000000 }
    ensures { nets.new ≡ added nets.old cell (signed_volume side volume) }
{
    match side {
        Side::Sell => cells::add_at(nets, cell, market::wide(volume)),
        Side::Buy => cells::add_at(nets, cell, market::negative(market::wide(volume))),
    }
}

// The volumes of all periods, each into the net position of the block's zone there; and their sum.
fn add_volumes(
    part: &[u8],
    at: usize,
    counts: Counts,
    zone: usize,
    side: Side,
    ratio: u32,
    nets: &mut [i64; 200],
) -> u64
    requires ready { Ready counts part.now at zone ratio }
    requires nets_within { Within counts.zones counts.periods 2000000000000000000 nets.old }
    ensures { BroughtTo counts.zones counts.periods zone side (λ h. block_volume ratio (block_quantity part.now at h))
        counts.periods result nets.old nets.new }
{
    let mut volumes: u64 = 0;
    for period in 0..counts.periods {
        let volume = volume_of(ratio, wire::u32_at(part, at + 8 + 4 * period));
        add_volume(
            side,
            volume,
            cells::cell(counts.periods, zone, period),
            nets,
        );
        volumes = plus(volumes, volume);
    }
    volumes
}

// ---- what is given to the sums

// The surplus of what is accepted, of a whole that does not lose.
fn part_of(surplus: i64, ratio: u32) -> i64
    requires { (pos 0 ≼ surplus) × ((nat_abs surplus ≤ 50000000000000) × (ratio ≤ most_ratio)) }
    ensures { result ≡ part_of surplus ratio }
{
    (surplus as u64 * u64::from(ratio) / 1000) as i64
}

fn share(side: Side, accepted: i64, volumes: u64, sums: &mut Sums)
    requires accepted_bound { (nat_abs accepted ≤ 50000000000000) × (volumes ≤ 1000000000000) }
    requires sums_within { SumsWithin 2000000000000000000 sums.old }
    ensures { SumsGained (shared side accepted (pos volumes)) sums.old sums.new }
{
    match side {
        Side::Sell => sums.sellers += accepted,
        Side::Buy => {
            sums.buyers += accepted;
            sums.traded += volumes as i64;
        }
    }
}

// The surplus of what is left, where it is above 0.
fn miss(left: i64, sums: &mut Sums)
    requires left_bound { nat_abs left ≤ 100000000000000 }
    requires sums_within { SumsWithin 3000000000000000000 sums.old }
    ensures { SumsGained (record nothing { shortfall = above_zero left }) sums.old sums.new }
{
    if 0 < left {
        sums.shortfall += left;
    }
}

// ---- one block

// A block with a ratio above 0. That a thousand times all its volumes is its ratio of all its quantities makes every volume whole: none is
// above its part.
fn accept(
    part: &[u8],
    at: usize,
    counts: Counts,
    zone: usize,
    side: Side,
    ratio: u32,
    all: u64,
    surplus: i64,
    nets: &mut [i64; 200],
    sums: &mut Sums,
) -> bool
    requires ready { Ready counts part.now at zone ratio }
    requires all_value { (pos all ≡ sum counts.periods (λ h. pos (block_quantity part.now at h))) × (nat_abs surplus ≤ 50000000000000) }
    requires nets_within { Within counts.zones counts.periods 2000000000000000000 nets.old }
    requires sums_within { SumsWithin 2000000000000000000 sums.old }
    ensures { result ≡ true → Accepted counts.zones counts.periods zone side ratio (block_quantity part.now at) surplus
        nets.old nets.new sums.old sums.new }
{
    if surplus < 0 {
        return false;
    }
    let volumes = add_volumes(part, at, counts, zone, side, ratio, nets);
    if volumes * 1000 != all * u64::from(ratio) {
        return false;
    }
    let accepted = part_of(surplus, ratio);
    share(side, accepted, volumes, sums);
    miss(market::less(surplus, accepted), sums);
    true
}

fn count_block(framed: Framed<'_>, row: usize, nets: &mut [i64; 200], sums: &mut Sums) -> bool
    requires prices { (PricesSmall framed.counts framed.clearing.now) × (row < framed.counts.blocks) }
    requires nets_within { Within framed.counts.zones framed.counts.periods 2000000000000000000 nets.old }
    requires sums_within { SumsWithin 2000000000000000000 sums.old }
    ensures { result ≡ true → BlockCounted framed.entry.counts framed.entry.day.now framed.entry.clearing.now row
        nets.old nets.new sums.old sums.new }
{
    let part = framed.blocks_part();
    let at = book::row_start(
        Form {
            kind: Kind::Blocks,
            periods: framed.counts.periods,
        },
        row,
    );
    if !head_ok(part, at, framed.counts.zones) {
        return false;
    }
    let block = book::block_at(part, at);
    let ratio = framed.ratio(row);
    if market::WHOLE < ratio {
        return false;
    }
    if !market::ratio_ok(block.least, ratio) {
        return false;
    }
    let whole = over_periods(part, at, framed, block.zone);
    if limits::VOLUME_MOST < whole.bits {
        return false;
    }
    if whole.all == 0 {
        return false;
    }
    let side = block.side;
    let surplus = surplus_of(side, block.limit, whole.all, whole.worth);
    if ratio == 0 {
        miss(surplus, sums);
        return true;
    }
    accept(
        part,
        at,
        framed.counts,
        block.zone,
        side,
        ratio,
        whole.all,
        surplus,
        nets,
        sums,
    )
}

// ---- all blocks

pub fn count_blocks(framed: Framed<'_>, nets: &mut [i64; 200], sums: &mut Sums) -> bool
    requires prices { PricesSmall framed.counts framed.clearing.now }
    requires within { (Within framed.counts.zones framed.counts.periods 1000000000000000000 nets.old) × (SumsWithin 1000000000000000000 sums.old) }
    ensures { result ≡ true → BlocksCounted framed.entry.counts framed.entry.day.now framed.entry.clearing.now
        nets.old nets.new sums.old sums.new }
{
    for row in 0..framed.counts.blocks {
        if !count_block(framed, row, nets, sums) {
            return false;
        }
    }
    true
}

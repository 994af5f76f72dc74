// The walk over the steps: each row is read once, tested and counted. It ends at the first doubt.
#![tactic(auto)]

ghost use Rattle.std.specs.Prelude.{◌≡◌, true, ◌&&◌, ◌+◌, ◌≤◌, ◌<◌, leb, eqb, pos, length, get_or, set};
ghost use Rattle.limits.specs.Limits.{is_price, is_quantity};
ghost use Rattle.wire.specs.Bytes.{u32_at};
ghost use Rattle.market.specs.Rules.{full_or_none};
ghost use Rattle.steps.specs.Sure.{StepCounted, StepsCounted};
ghost use Rattle.steps.specs.Count.{Near, Room, SoldAt, BoughtAt, CountedAt, Ready, most, full};
ghost use Rattle.steps.specs.Known.{Known, FourBytes};

use book::Framed;
use cells::Sums;

// ---- the heads of the rows: zone, period, side and spare byte, as one number

// Where a head stands in the tables: of a zone below 8, a period below 32, a side of 0 or 1 and a spare byte of 0 it is
// period + 32 * zone + 256 * side; any other head comes to a slot that holds another one, or none.
fn slot_of(head: usize) -> usize
    requires { head < 4294967296 }
    ensures { result < 512 }
{
    head * 268468225 % 4294967296 / 8388608
}

fn head_at(part: &[u8], at: usize) -> usize
    requires { at + 4 ≤ length part.now }
    ensures { (result ≡ u32_at part.now at) × (FourBytes part.now at) }
{
    wire::u8_at(part, at)
        + wire::u8_at(part, at + 1) * 256
        + wire::u8_at(part, at + 2) * 65536
        + wire::u8_at(part, at + 3) * 16777216
}

// One head more.
fn put(
    heads: &mut [usize],
    prices: &mut [i64],
    places: &mut [u8],
    slot: usize,
    head: usize,
    price: i64,
    place: u8,
)
    requires { (slot < length heads.old) × ((slot < length prices.old) × (slot < length places.old)) }
    ensures heads_after { heads.new ≡ set heads.old slot head }
    ensures prices_after { prices.new ≡ set prices.old slot price }
    ensures places_after { places.new ≡ set places.old slot place }
{
    heads[slot] = head;
    prices[slot] = price;
    places[slot] = place;
}

// A cell is below 200. By `as`, which is proved to fit.
fn small(cell: usize) -> u8
    requires { cell < 200 }
    ensures { result ≡ cell }
{
    cell as u8
}

// The heads of a zone and period: of a sell step, and of a buy step. The three tables are lent one by one: owned by a struct they took 2.9 in
// a hundred instructions more, and 8 in a hundred time.
fn know(
    framed: Framed<'_>,
    zone: usize,
    period: usize,
    heads: &mut [usize],
    prices: &mut [i64],
    places: &mut [u8],
)
    requires here { (zone < framed.counts.zones) × (period < framed.counts.periods) }
    requires known { Known framed.counts framed.clearing.now heads.old prices.old places.old }
    ensures { Known framed.entry.counts framed.entry.clearing.now heads.new prices.new places.new }
{
    let price = framed.price(zone, period);
    let place = small(cells::cell(framed.counts.periods, zone, period));
    let slot = period + 32 * zone;
    let head = zone + 256 * period;
    put(heads, prices, places, slot, head, price, place);
    put(
        heads,
        prices,
        places,
        slot + 256,
        head + 65536,
        price,
        place,
    );
}

fn know_zone(
    framed: Framed<'_>,
    zone: usize,
    heads: &mut [usize],
    prices: &mut [i64],
    places: &mut [u8],
)
    requires here { zone < framed.counts.zones }
    requires known { Known framed.counts framed.clearing.now heads.old prices.old places.old }
    ensures { Known framed.entry.counts framed.entry.clearing.now heads.new prices.new places.new }
{
    for period in 0..framed.counts.periods {
        know(framed, zone, period, heads, prices, places);
    }
}

fn know_all(framed: Framed<'_>, heads: &mut [usize], prices: &mut [i64], places: &mut [u8])
    requires { Known framed.counts framed.clearing.now heads.old prices.old places.old }
    ensures { Known framed.entry.counts framed.entry.clearing.now heads.new prices.new places.new }
{
    for zone in 0..framed.counts.zones {
        know_zone(framed, zone, heads, prices, places);
    }
}

// ---- one step

fn numbers_ok(limit: i64, quantity: u32) -> bool
    ensures { result ≡ (is_price limit && is_quantity quantity) }
{
    ((limits::PRICE_LEAST <= limit) & (limit <= limits::PRICE_MOST))
        & ((1 <= quantity) & (quantity <= limits::VOLUME_MOST))
}

// In full where it gets more than it asks, not at all where it gets less, and never more than its quantity.
fn taken_ok(ask: i64, get: i64, quantity: u32, volume: u32) -> bool
    ensures { result ≡ (full_or_none ask get quantity volume && leb volume quantity) }
{
    if ask < get {
        return volume == quantity;
    }
    if get < ask {
        return volume == 0;
    }
    volume <= quantity
}

// A function for each side: they add to other sums.

// A sell step is counted: its surplus to the sellers', its volume to its zone and period. One that gets less than it asks counts nothing.
fn count_sold(
    limit: i64,
    price: i64,
    quantity: u32,
    volume: u32,
    cell: usize,
    nets: &mut [i64; 200],
    sums: &mut Sums,
) -> bool
    requires { (Near limit price quantity) × (Room cell nets.old sums.old) }
    ensures { result ≡ true → SoldAt limit price quantity volume cell nets.old nets.new sums.old sums.new }
{
    if price < limit {
        return volume == 0;
    }
    if !taken_ok(limit, price, quantity, volume) {
        return false;
    }
    sums.sellers += market::gain(price, limit, volume);
    cells::add_at(nets, cell, market::wide(volume));
    true
}

// A buy step: its surplus to the buyers', its volume to the traded volume and away from its zone and period. One that would pay more than
// its limit counts nothing.
fn count_bought(
    limit: i64,
    price: i64,
    quantity: u32,
    volume: u32,
    cell: usize,
    nets: &mut [i64; 200],
    sums: &mut Sums,
) -> bool
    requires { (Near limit price quantity) × (Room cell nets.old sums.old) }
    ensures { result ≡ true → BoughtAt limit price quantity volume cell nets.old nets.new sums.old sums.new }
{
    if limit < price {
        return volume == 0;
    }
    if !taken_ok(price, limit, quantity, volume) {
        return false;
    }
    sums.buyers += market::gain(limit, price, volume);
    sums.traded += market::wide(volume);
    cells::add_at(nets, cell, market::negative(market::wide(volume)));
    true
}

// By the slot of its head: the sells stand first. No kind is made of it, since it is asked here alone.
fn count_at(
    slot: usize,
    limit: i64,
    price: i64,
    quantity: u32,
    volume: u32,
    cell: usize,
    nets: &mut [i64; 200],
    sums: &mut Sums,
) -> bool
    requires { (Near limit price quantity) × (Room cell nets.old sums.old) }
    ensures { result ≡ true → CountedAt slot limit price quantity volume cell
        nets.old nets.new sums.old sums.new }
{
    if slot < 256 {
        return count_sold(limit, price, quantity, volume, cell, nets, sums);
    }
    count_bought(limit, price, quantity, volume, cell, nets, sums)
}

// ---- the steps, by the slots of their heads

// 512 slots: each head that the day allows stands in one of its own, with the price and the cell of its zone and period.
#[derive(Clone, Copy)]
struct Slots<'a> {
    framed: Framed<'a>,
    heads: &'a [usize; 512],
    prices: &'a [i64; 512],
    places: &'a [u8; 512],
    ghost known: { ∥ Known framed.counts framed.clearing.now heads.now prices.now places.now ∥₁ },
}

impl<'a> Slots<'a> {
    // Whether a row's head stands in its slot, so that it is one that the day allows.
    fn holds(self, slot: usize, head: usize) -> bool
        requires { slot < 512 }
        ensures { result ≡ eqb (get_or self.entry.heads.now slot 0) head }
    {
        self.heads[slot] == head
    }

    fn price(self, slot: usize) -> i64
        requires { slot < 512 }
        ensures { result ≡ get_or self.entry.prices.now slot (pos 0) }
    {
        self.prices[slot]
    }

    fn place(self, slot: usize) -> usize
        requires { slot < 512 }
        ensures { result ≡ get_or self.entry.places.now slot 0 }
    {
        let places = self.places;
        wire::u8_at(places, slot)
    }

    fn count_step(self, row: usize, nets: &mut [i64; 200], sums: &mut Sums) -> bool
        requires { let f = self.framed in Ready f.counts f.day.now f.clearing.now full nets.old sums.old × (row < f.counts.steps) }
        ensures { let f = self.entry.framed in result ≡ true → StepCounted f.counts f.day.now f.clearing.now row nets.old nets.new sums.old sums.new }
    {
        let part = self.framed.steps_part();
        let at = 2 + 12 * row;
        let head = head_at(part, at);
        let slot = slot_of(head);
        if !self.holds(slot, head) {
            return false;
        }
        let limit = wire::i32_at(part, at + 4);
        let quantity = wire::u32_at(part, at + 8);
        if !numbers_ok(limit, quantity) {
            return false;
        }
        let price = self.price(slot);
        let cell = self.place(slot);
        let volume = self.framed.volume(row);
        count_at(slot, limit, price, quantity, volume, cell, nets, sums)
    }

    fn count_all(self, nets: &mut [i64; 200], sums: &mut Sums) -> bool
        requires { let f = self.framed in Ready f.counts f.day.now f.clearing.now most nets.old sums.old }
        ensures { let f = self.entry.framed in result ≡ true → StepsCounted f.counts f.day.now f.clearing.now f.counts.steps nets.old nets.new sums.old sums.new }
    {
        for i in 0..self.framed.counts.steps {
            if !self.count_step(i, nets, sums) {
                return false;
            }
        }
        true
    }
}

pub fn count_steps(framed: Framed<'_>, nets: &mut [i64; 200], sums: &mut Sums) -> bool
    requires { Ready framed.counts framed.day.now framed.clearing.now most nets.old sums.old }
    ensures { let f = framed.entry in result ≡ true → StepsCounted f.counts f.day.now f.clearing.now f.counts.steps nets.old nets.new sums.old sums.new }
{
    // No four bytes make this number. Where it stands, the other two tables are not read: any number may stand there.
    let mut heads = [4294967296usize; 512];
    let mut prices = [4294967296i64; 512];
    let mut places = [0u8; 512];
    know_all(framed, &mut heads, &mut prices, &mut places);
    let slots = Slots {
        framed,
        heads: &heads,
        prices: &prices,
        places: &places,
    };
    slots.count_all(nets, sums)
}

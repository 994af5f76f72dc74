// The rows of both files' sections: how long they are, and which field of a row is the first to fail its test.
#![tactic(auto)]

ghost use Rattle.std.specs.Prelude.{◌≡◌, ◌&&◌, not, [], ◌∷◌, ◌+◌, ◌*◌, ◌≤◌, ◌<◌, leb, length};
ghost use Rattle.std.specs.Int.Signed.{le_z};
ghost use Rattle.wire.specs.Bytes.{u32_at, i32_at};
ghost use Rattle.stages.specs.First.{bad_at, first_bad};
ghost use Rattle.limits.specs.Limits.{most_periods};
ghost use Rattle.limits.specs.Fields.{only, counted_on};
ghost use Rattle.rows.specs.Rows.{row_size, row_start, field_count, field_ok, code_before, period_fields, zone_fields, line_fields, step_fields};
ghost use Rattle.rows.specs.Rows.{empty, block_by_itself, block_fields, volume_fields, ratio_fields};

// The sections of a day file, and those of a clearing file.
#[derive(Clone, Copy)]
pub enum Kind {
    Periods,
    Zones,
    Lines,
    Steps,
    Blocks,
    Prices,
    Flows,
    Volumes,
    Ratios,
}

// The form of a section's rows: what they are of, in a day of so many periods. (The number of the periods counts only where a row has
// numbers for each.)
#[derive(Clone, Copy)]
pub struct Form {
    pub kind: Kind,
    pub periods: usize,
    pub ghost most: { periods ≤ most_periods },
}

impl Form {
    // The sections that are read as of a day of no periods: the first of a day file, which counts them, and those of a clearing file.
    pub const PERIODS: Self = Self {
        kind: Kind::Periods,
        periods: 0,
    };

    pub const PRICES: Self = Self {
        kind: Kind::Prices,
        periods: 0,
    };

    pub const FLOWS: Self = Self {
        kind: Kind::Flows,
        periods: 0,
    };

    pub const VOLUMES: Self = Self {
        kind: Kind::Volumes,
        periods: 0,
    };

    pub const RATIOS: Self = Self {
        kind: Kind::Ratios,
        periods: 0,
    };

    // How many bytes a row has.
    pub fn size(self) -> usize
        ensures { (result ≡ row_size self.kind self.periods) × (result < 65536) }
    {
        match self.kind {
            Kind::Periods => 8,
            Kind::Zones => 2,
            Kind::Lines => 2 + 8 * self.periods,
            Kind::Steps => 12,
            Kind::Blocks => 8 + 4 * self.periods,
            Kind::Prices => 4,
            Kind::Flows => 4,
            Kind::Volumes => 4,
            Kind::Ratios => 2,
        }
    }

    // Where the row i starts: behind the count and the rows before it.
    pub fn start(self, i: usize) -> usize
        requires { row_start self.kind self.periods i < 18446744073709551616 }
        ensures { result ≡ row_start self.kind self.periods i }
    {
        2 + self.size() * i
    }
}

// ---- the first field that fails its test, in a row that starts at `at`

fn period_field(part: &[u8], at: usize) -> Option<usize>
    requires { at + 8 ≤ length part.now }
    ensures { result ≡ first_bad 2 (period_fields part.now at) }
{
    limits::period_field(wire::i32_at(part, at), wire::i32_at(part, at + 4))
}

fn code_before(part: &[u8], i: usize, at: usize) -> usize
    requires { (2 ≤ at) × (at ≤ length part.now) }
    ensures { result ≡ code_before part.now i at }
{
    if i == 0 {
        0
    } else {
        wire::u16_at(part, at - 2)
    }
}

fn zone_field(part: &[u8], i: usize, at: usize) -> Option<usize>
    requires { (2 ≤ at) × (at + 2 ≤ length part.now) }
    ensures { result ≡ first_bad 1 (zone_fields part.now i at) }
{
    limits::zone_field(code_before(part, i, at), wire::u16_at(part, at))
}

// The first of n volumes, one after the other from `at` on, that is above `most`, counted on from `first`.
fn first_above(part: &[u8], at: usize, n: usize, most: u32, first: usize) -> Option<usize>
    requires { (at + 4 * n ≤ length part.now) × (first + n < 65536) }
    ensures { result ≡ counted_on first (first_bad n (λ k. leb (u32_at part.now (at + 4 * k)) most)) }
{
    for k in 0..n {
        if most < wire::u32_at(part, at + 4 * k) {
            return Some(first + k);
        }
    }
    None
}

// A row of one i32, from least to most.
fn signed_field(part: &[u8], at: usize, least: i64, most: i64) -> Option<usize>
    requires { at + 4 ≤ length part.now }
    ensures { result ≡ first_bad 1 (only ((le_z least (i32_at part.now at) && le_z (i32_at part.now at) most) ∷ [])) }
{
    limits::one_field(limits::between(wire::i32_at(part, at), least, most))
}

fn volume_field(part: &[u8], at: usize) -> Option<usize>
    requires { at + 4 ≤ length part.now }
    ensures { result ≡ first_bad 1 (volume_fields part.now at) }
{
    limits::one_field(wire::u32_at(part, at) <= limits::VOLUME_MOST)
}

fn ratio_field(part: &[u8], at: usize) -> Option<usize>
    requires { at + 2 ≤ length part.now }
    ensures { result ≡ first_bad 1 (ratio_fields part.now at) }
{
    limits::one_field(wire::u16_at(part, at) <= limits::RATIO_MOST)
}

impl Form {
    // The capacities count on behind the ends.
    fn line_field(self, part: &[u8], zones: usize, at: usize) -> Option<usize>
        requires { at + (2 + 8 * self.periods) ≤ length part.now }
        ensures { result ≡ first_bad (2 + 2 * self.periods) (line_fields zones part.now at) }
    {
        limits::ends_field(zones, wire::u8_at(part, at), wire::u8_at(part, at + 1)).or_else(
            || first_above(part, at + 2, 2 * self.periods, limits::VOLUME_MOST, 2),
        )
    }

    fn step_field(self, part: &[u8], zones: usize, at: usize) -> Option<usize>
        requires { at + 12 ≤ length part.now }
        ensures { result ≡ first_bad 6 (step_fields self.periods zones part.now at) }
    {
        limits::step_field(
            zones,
            self.periods,
            wire::u8_at(part, at),
            wire::u8_at(part, at + 1),
            wire::u8_at(part, at + 2),
            wire::u8_at(part, at + 3),
            wire::i32_at(part, at + 4),
            wire::u32_at(part, at + 8),
        )
    }

    // The quantities count on behind the first four fields.
    fn block_by_itself(self, part: &[u8], zones: usize, at: usize) -> Option<usize>
        requires { at + (8 + 4 * self.periods) ≤ length part.now }
        ensures { result ≡ first_bad (4 + self.periods) (block_by_itself zones part.now at) }
    {
        limits::block_field(
            zones,
            wire::u8_at(part, at),
            wire::u8_at(part, at + 1),
            wire::u16_at(part, at + 2),
            wire::i32_at(part, at + 4),
        )
        .or_else(|| first_above(part, at + 8, self.periods, limits::VOLUME_MOST, 4))
    }

    // A block with no quantity names its last field.
    fn no_quantity(self, part: &[u8], at: usize) -> Option<usize>
        requires { at + (8 + 4 * self.periods) ≤ length part.now }
        ensures { result ≡ bad_at (not (empty self.periods part.now at)) (3 + self.periods) }
    {
        match first_above(part, at + 8, self.periods, 0, 0) {
            Some(_) => None,
            None => Some(3 + self.periods),
        }
    }

    fn block_field(self, part: &[u8], zones: usize, at: usize) -> Option<usize>
        requires { at + (8 + 4 * self.periods) ≤ length part.now }
        ensures { result ≡ first_bad (4 + self.periods) (block_fields self.periods zones part.now at) }
    {
        self.block_by_itself(part, zones, at)
            .or_else(|| self.no_quantity(part, at))
    }

    // The first field of the row i of a section that fails its test; none where the row obeys its rule.
    pub fn field(self, zones: usize, part: &[u8], i: usize) -> Option<usize>
        requires { 2 + row_size self.kind self.periods * (i + 1) ≤ length part.now }
        ensures { result ≡ first_bad (field_count self.kind self.periods) (field_ok self.kind self.periods zones part.now i) }
    {
        let at = self.start(i);
        match self.kind {
            Kind::Periods => period_field(part, at),
            Kind::Zones => zone_field(part, i, at),
            Kind::Lines => self.line_field(part, zones, at),
            Kind::Steps => self.step_field(part, zones, at),
            Kind::Blocks => self.block_field(part, zones, at),
            Kind::Prices => signed_field(part, at, limits::PRICE_LEAST, limits::PRICE_MOST),
            Kind::Flows => signed_field(part, at, limits::FLOW_LEAST, limits::FLOW_MOST),
            Kind::Volumes => volume_field(part, at),
            Kind::Ratios => ratio_field(part, at),
        }
    }
}

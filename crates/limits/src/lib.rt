// The limits, and the rules of the day file's rows over the values of their fields: which field is the first to fail its test.
#![tactic(auto)]

ghost use Rattle.std.specs.Prelude.{◌≡◌, ◌&&◌, [], ◌∷◌, length, not, position};
ghost use Rattle.std.specs.Int.Signed.{le_z};
ghost use Rattle.stages.specs.First.{first_bad};
ghost use Rattle.limits.specs.Fields.{only};
ghost use Rattle.limits.specs.Rules.{period_rule, zone_rule, ends_rule, step_rule, block_rule};

pub const PRICE_LEAST: i64 = -1000000;

pub const PRICE_MOST: i64 = 1000000;

pub const FLOW_LEAST: i64 = -1000000;

pub const FLOW_MOST: i64 = 1000000;

pub const VOLUME_MOST: u32 = 1000000;

pub const RATIO_MOST: usize = 1000;

pub const MOST_PERIODS: usize = 25;

pub const MOST_ZONES: usize = 8;

pub const MOST_LINES: usize = 16;

pub const MOST_STEPS: usize = 2000;

pub const MOST_BLOCKS: usize = 100;

pub fn between(x: i64, least: i64, most: i64) -> bool
    ensures { result ≡ (le_z least x && le_z x most) }
{
    (least <= x) & (x <= most)
}

// ---- the first field that fails its test

fn first_false(tests: &[bool]) -> Option<usize>
    ensures { result ≡ position not tests.now }
{
    tests.iter().position(|ok| !ok)
}

fn first_failing(tests: &[bool]) -> Option<usize>
    ensures { result ≡ first_bad (length tests.now) (only tests.now) }
{
    first_false(tests)
}

pub fn one_field(ok: bool) -> Option<usize>
    ensures { result ≡ first_bad 1 (only (ok ∷ [])) }
{
    first_failing(&[ok])
}

pub fn period_field(floor: i64, ceiling: i64) -> Option<usize>
    ensures { result ≡ first_bad 2 (only (period_rule floor ceiling)) }
{
    first_failing(&[
        (PRICE_LEAST <= floor) & (floor <= PRICE_MOST),
        ((PRICE_LEAST <= ceiling) & (ceiling <= PRICE_MOST)) & (floor <= ceiling),
    ])
}

pub fn zone_field(before: usize, code: usize) -> Option<usize>
    ensures { result ≡ first_bad 1 (only (zone_rule before code)) }
{
    first_failing(&[(1 <= code) & (before < code)])
}

pub fn ends_field(zones: usize, from: usize, to: usize) -> Option<usize>
    ensures { result ≡ first_bad 2 (only (ends_rule zones from to)) }
{
    first_failing(&[from < zones, (to < zones) & (to != from)])
}

pub fn step_field(
    zones: usize,
    periods: usize,
    zone: usize,
    period: usize,
    side: usize,
    spare: usize,
    price: i64,
    quantity: u32,
) -> Option<usize>
    ensures { result ≡ first_bad 6 (only (step_rule zones periods zone period side spare price quantity)) }
{
    first_failing(&[
        zone < zones,
        period < periods,
        side <= 1,
        spare == 0,
        (PRICE_LEAST <= price) & (price <= PRICE_MOST),
        (1 <= quantity) & (quantity <= VOLUME_MOST),
    ])
}

pub fn block_field(
    zones: usize,
    zone: usize,
    side: usize,
    least: usize,
    price: i64,
) -> Option<usize>
    ensures { result ≡ first_bad 4 (only (block_rule zones zone side least price)) }
{
    first_failing(&[
        zone < zones,
        side <= 1,
        least <= RATIO_MOST,
        (PRICE_LEAST <= price) & (price <= PRICE_MOST),
    ])
}

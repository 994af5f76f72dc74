// Both files in one walk: each row is read once, tested and counted. The walk ends at the first doubt; what is broken then, and where, is for
// the rules in their order to say.
#![tactic(auto)]

ghost use Rattle.std.specs.Prelude.{◌≡◌, true, pos, ◌+ℤ◌, replicate};
ghost use Rattle.std.specs.Int.{w64};
ghost use Rattle.std.proofs.Common.{SFits};
ghost use Rattle.cells.specs.Gains.{nothing};
ghost use Rattle.book.specs.Framed.{PricesSmall};
ghost use Rattle.walk.specs.Walked.{Says};
ghost use Rattle.walk.specs.Gathered.{RowsCounted, totals_in};

use book::Framed;
use cells::Sums;
use day::Counts;
use market::Totals;

// The lines, the steps and the blocks, and the balance of what they brought to each zone and period.
fn count_rows(
    framed: Framed<'_>,
    nets: &mut [i64; 200],
    flows: &mut [i64; 200],
    sums: &mut Sums,
) -> bool
    requires prices { PricesSmall framed.counts framed.clearing.now }
    requires nets_value { (nets.old ≡ replicate 200 (pos 0)) × ((flows.old ≡ replicate 200 (pos 0)) × (sums.old ≡ nothing)) }
    ensures { let f = framed.entry in result ≡ true → RowsCounted f.counts f.day.now f.clearing.now nets.new sums.new }
{
    if !lines::count_lines(framed, flows, sums) {
        return false;
    }
    if !steps::count_steps(framed, nets, sums) {
        return false;
    }
    if !blocks::count_blocks(framed, nets, sums) {
        return false;
    }
    lines::balanced(nets, flows, framed.counts.zones * framed.counts.periods)
}

// In a balanced clearing the order value is what buyers, sellers and lines have.
fn totals_in(sums: Sums) -> Totals
    requires sfits { SFits w64 (sums.buyers +ℤ sums.sellers) }
    requires sfits_2 { SFits w64 (sums.buyers +ℤ sums.sellers +ℤ sums.rent) }
    ensures { result ≡ totals_in sums }
{
    Totals {
        value: sums.buyers + sums.sellers + sums.rent,
        buyers: sums.buyers,
        sellers: sums.sellers,
        rent: sums.rent,
        traded: sums.traded,
        shortfall: sums.shortfall,
    }
}

// From a table of zeros to the net positions. The files and the totals are given where nothing is broken; none is a doubt.
pub fn walk_files(day: &[u8], clearing: &[u8], nets: &mut [i64; 200]) -> Option<(Counts, Totals)>
    requires { nets.old ≡ replicate 200 (pos 0) }
    ensures { Says day.now clearing.now result nets.new }
{
    let counts = frame::open_files(day, clearing)?;
    let framed = Framed {
        day,
        clearing,
        counts,
    };
    if !lines::prices_sure(framed) {
        return None;
    }
    let mut flows = [0i64; 200];
    let mut sums = Sums::default();
    if !count_rows(framed, nets, &mut flows, &mut sums) {
        return None;
    }
    Some((counts, totals_in(sums)))
}

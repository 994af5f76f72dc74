// A table of zones and periods, all periods of zone 0 first, in which numbers are gathered; and the sums over all rows.
#![tactic(auto)]

ghost use Rattle.std.specs.Prelude.{◌≡◌, ◌+◌, ◌*◌, ◌<◌, pos, ◌+ℤ◌, length, get_or};
ghost use Rattle.std.specs.Int.{w64};
ghost use Rattle.std.proofs.Common.{SFits};
ghost use Rattle.cells.specs.Cells.{added};

// What is summed over the rows: the surpluses of buyers and sellers, the rent, the traded volume and the shortfall.
#[derive(Clone, Copy, Debug, Default, PartialEq, Eq)]
pub struct Sums {
    pub buyers: i64,
    pub sellers: i64,
    pub rent: i64,
    pub traded: i64,
    pub shortfall: i64,
}

// The cell of a zone and period.
pub fn cell(periods: usize, zone: usize, period: usize) -> usize
    requires { zone * periods + period < 200 }
    ensures { result ≡ zone * periods + period }
{
    zone * periods + period
}

pub fn add_at(table: &mut [i64], cell: usize, x: i64)
    requires cell_in_bounds { cell < length table.old }
    requires sfits { SFits w64 (get_or table.old cell (pos 0) +ℤ x) }
    ensures { table.new ≡ added table.old cell x }
{
    table[cell] = table[cell] + x;
}

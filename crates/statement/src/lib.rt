// The statement's bytes in a lent room.
#![tactic(auto)]

ghost use Rattle.std.specs.Prelude.{◌≡◌, ℕ, ◌+◌, ◌*◌, ◌≤◌, ◌<◌, pos, length, get_or};
ghost use Rattle.std.specs.Int.{w32};
ghost use Rattle.std.proofs.Common.{SFits};
ghost use Rattle.wire.specs.Bytes.{bits32, bytes32, put};
ghost use Rattle.day.specs.Good.{InLimits};
ghost use Rattle.statement.specs.Statement as bytes;
ghost use Rattle.statement.specs.Statement.{head, statement, statement_length};
ghost use Rattle.statement.specs.Of.{net_count};

use day::Counts;
use market::Totals;

fn put_head(room: &mut [u8], totals: Totals, count: u16)
    requires { 52 ≤ length room.old }
    ensures { room.new ≡ put room.old 0 (head totals count) }
{
    wire::put_u16(room, 0, 6);
    wire::put_i64(room, 2, totals.value);
    wire::put_i64(room, 10, totals.buyers);
    wire::put_i64(room, 18, totals.sellers);
    wire::put_i64(room, 26, totals.rent);
    wire::put_i64(room, 34, totals.traded);
    wire::put_i64(room, 42, totals.shortfall);
    wire::put_u16(room, 50, count);
}

// By `as`, which is proved to fit: `TryFrom` would give an error that never comes.
fn narrow(v: i64) -> i32
    requires { SFits w32 v }
    ensures { result ≡ v }
{
    v as i32
}

fn put_net(room: &mut [u8], at: usize, net: i64)
    requires { (at + 4 ≤ length room.old) × (SFits w32 net) }
    ensures { room.new ≡ put room.old at (bytes32 (bits32 net)) }
{
    wire::put_i32(room, at, narrow(net));
}

// How long the statement of a day is.
pub fn statement_length(counts: Counts) -> usize
    requires { InLimits counts }
    ensures { result ≡ statement_length (net_count counts) }
{
    52 + 4 * (counts.zones * counts.periods)
}

// The net positions, in the order of their table.
fn put_nets(room: &mut [u8], nets: &[i64], n: usize)
    requires n_in_bounds { (52 + 4 * n ≤ length room.old) × (n ≤ length nets.now) }
    requires by_index { (k : ℕ) → k < n → SFits w32 (get_or nets.now k (pos 0)) }
    ensures { room.new ≡ put room.old 52 (bytes.nets (λ k. get_or nets.now k (pos 0)) n) }
{
    for k in 0..n {
        put_net(room, 52 + 4 * k, nets[k]);
    }
}

// By `as`, as above.
fn count_of(counts: Counts) -> u16
    requires { InLimits counts }
    ensures { result ≡ net_count counts }
{
    (counts.zones * counts.periods) as u16
}

// With the table of the net positions.
pub fn put_statement(room: &mut [u8], counts: Counts, totals: Totals, nets: &[i64])
    requires in_limits { (InLimits counts) × (statement_length (net_count counts) ≤ length room.old) }
    requires nets_len { (length nets.now ≡ 200) × ((k : ℕ) → k < net_count counts → SFits w32 (get_or nets.now k (pos 0))) }
    ensures { room.new ≡ put room.old 0 (statement totals (λ k. get_or nets.now k (pos 0)) (net_count counts)) }
{
    put_head(room, totals, count_of(counts));
    put_nets(room, nets, counts.zones * counts.periods);
}

// The verdict on a day file and a clearing file: accepted with its totals, and a statement in the lent room; or refused with a number and
// a place.
#![tactic(auto)]

ghost use Rattle.std.specs.Prelude.{◌≡◌, length};
ghost use Rattle.cells.specs.Cells.{Tabled};
ghost use Rattle.market.specs.Rules.{Lawful};
ghost use Rattle.book.specs.Book.{day_of, prices_of, choice_of};
ghost use Rattle.totals.specs.Sums as sums;
ghost use Rattle.verdict.specs.Verdict.{Checked, leaves, given_totals};
ghost use Rattle.verdict.specs.Steps.{from_rules, from_room};

use book::{Book, Framed};
use market::Totals;
use rules::Tables;
use stages::{Broken, Place, Refusal};

// ---- one after the other: the files, the rules, the room

fn from_room(
    book: Book<'_>,
    totals: Totals,
    nets: &[i64],
    room: &mut [u8],
) -> Result<Totals, Refusal>
    requires lawful { let f = book.framed in Lawful (day_of f.counts f.day.now) (prices_of f.counts f.clearing.now) (choice_of f.counts f.clearing.now) }
    requires totals_value { let f = book.framed in totals ≡ sums.totals f.counts f.day.now f.clearing.now }
    requires tabled { let f = book.framed in Tabled f.counts.zones f.counts.periods (sums.net_position f.counts f.day.now f.clearing.now) nets.now }
    ensures said { let f = book.entry.framed in result ≡ from_room f.day.now f.clearing.now (length room.old) }
    ensures left { let f = book.entry.framed in room.new ≡ leaves f.day.now f.clearing.now result room.old }
{
    let counts = book.framed.counts;
    let n = statement::statement_length(counts);
    if room.len() < n {
        return Err(Refusal::new(Broken::Room, Place::new(0, 0)));
    }
    statement::put_statement(&mut room[0..n], counts, totals, nets);
    Ok(totals)
}

fn from_rules(book: Book<'_>, room: &mut [u8]) -> Result<Totals, Refusal>
    ensures said { let f = book.entry.framed in result ≡ from_rules f.day.now f.clearing.now (length room.old) }
    ensures left { let f = book.entry.framed in room.new ≡ leaves f.day.now f.clearing.now result room.old }
{
    let mut nets = [0i64; 200];
    let mut flows = [0i64; 200];
    totals::gather_nets(book, &mut nets);
    totals::gather_flows(book, &mut flows);
    let tables = Tables {
        book,
        nets: &nets,
        flows: &flows,
    };
    tables.first_fault()?;
    from_room(book, totals::totals_of(book), &nets, room)
}

// The first fault in the paper's order, where there is one.
fn in_order(day: &[u8], clearing: &[u8], room: &mut [u8]) -> Result<Totals, Refusal>
    ensures { Checked day.now clearing.now room.old result room.new }
{
    let counts = clearing::read_files(day, clearing)?;
    let framed = Framed {
        day,
        clearing,
        counts,
    };
    from_rules(Book { framed }, room)
}

// ---- the verdict

// Judges any two byte strings: in one walk where nothing is broken, and in order at any doubt.
pub fn check(day: &[u8], clearing: &[u8], room: &mut [u8]) -> Result<Totals, Refusal>
    ensures { Checked day.now clearing.now room.old result room.new }
{
    let mut nets = [0i64; 200];
    match walk::walk_files(day, clearing, &mut nets) {
        Some((counts, totals)) => {
            let framed = Framed {
                day,
                clearing,
                counts,
            };
            from_room(Book { framed }, totals, &nets, room)
        }
        None => in_order(day, clearing, room),
    }
}

// ---- the totals asked of an outcome: zeros where it is refused

pub fn given_totals<E: Drop>(outcome: Result<Totals, E>) -> Totals
    ensures { result ≡ given_totals outcome }
{
    outcome.unwrap_or_default()
}

// The checker for other languages: what include/ayinzhad.h declares. Nothing is asked of a caller but that each pointer leads to as many
// elements as the length beside it says. A buffer for the answer that has another length than the answer gets 255, and nothing else happens.
#![tactic(auto)]

ghost use Rattle.std.specs.Prelude.{◌≡◌, length};
ghost use Rattle.verdict.specs.Verdict.{number_of, place_of};
ghost use Rattle.embed.specs.Surface.{three, six, check_number, check_place, check_room, totals_number, totals_out, look_up_number, look_up_found};

use market::Totals;
use stages::{Place, Refusal};

// Numbers and lent buffers of a length, here and below, since that is what C takes.
const WRONG_LENGTH: u8 = 255;

// ---- what an outcome says, as numbers in lent buffers

fn number_of(outcome: &Result<Totals, Refusal>) -> u8
    ensures { result ≡ number_of outcome.now }
{
    match outcome {
        Ok(_) => 0,
        Err(refusal) => refusal.number(),
    }
}

fn place_of(outcome: &Result<Totals, Refusal>) -> Place
    ensures { result ≡ place_of outcome.now }
{
    match outcome {
        Ok(_) => Place::new(0, 0),
        Err(refusal) => refusal.place(),
    }
}

fn put_three(out: &mut [usize], first: usize, second: usize, third: usize)
    requires { length out.old ≡ 3 }
    ensures { out.new ≡ three first second third }
{
    out.copy_from_slice(&[first, second, third]);
}

fn put_totals(out: &mut [i64], t: Totals)
    requires { length out.old ≡ 6 }
    ensures { out.new ≡ six t }
{
    out.copy_from_slice(&[t.value, t.buyers, t.sellers, t.rent, t.traded, t.shortfall]);
}

// ---- the functions

// The verdict's number and place, and the statement in the room.
#[unsafe(no_mangle)]
pub extern "C" fn ayinzhad_check(
    day: &[u8],
    clearing: &[u8],
    room: &mut [u8],
    place: &mut [usize],
) -> u8
    ensures number { result ≡ check_number day.now clearing.now room.old place.old }
    ensures place { place.new ≡ check_place day.now clearing.now room.old place.old }
    ensures room { room.new ≡ check_room day.now clearing.now room.old place.old }
{
    if place.len() != 3 {
        return WRONG_LENGTH;
    }
    let outcome = verdict::check(day, clearing, room);
    let at = place_of(&outcome);
    put_three(place, at.first, at.second, at.third);
    number_of(&outcome)
}

// The six totals, zeros for a refusal, and the verdict's number, in a room that every statement fits.
#[unsafe(no_mangle)]
pub extern "C" fn ayinzhad_totals(day: &[u8], clearing: &[u8], totals: &mut [i64]) -> u8
    ensures number { result ≡ totals_number day.now clearing.now totals.old }
    ensures totals { totals.new ≡ totals_out day.now clearing.now totals.old }
{
    if totals.len() != 6 {
        return WRONG_LENGTH;
    }
    let mut room = [0u8; 852];
    let outcome = verdict::check(day, clearing, &mut room);
    let number = number_of(&outcome);
    put_totals(totals, verdict::given_totals(outcome));
    number
}

// Where the rows of a section start in the day file and how many bytes they are; or the number and the place of the refusal.
#[unsafe(no_mangle)]
pub extern "C" fn ayinzhad_look_up(day: &[u8], section: usize, found: &mut [usize]) -> u8
    ensures number { result ≡ look_up_number day.now section found.old }
    ensures found { found.new ≡ look_up_found day.now section found.old }
{
    if found.len() != 3 {
        return WRONG_LENGTH;
    }
    match lookup::look_up_fault(day, section) {
        Ok(()) => {
            put_three(
                found,
                lookup::look_up_start(day, section),
                lookup::look_up(day, section).len(),
                0,
            );
            0
        }
        Err(refusal) => {
            let place = refusal.place();
            put_three(found, place.first, place.second, place.third);
            refusal.number()
        }
    }
}

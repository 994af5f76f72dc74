// An outcome on a writer: the verdict's number and place; where it is accepted the six totals and the net positions too.
#![tactic(auto)]

ghost use Rattle.std.specs.Prelude.{◌≡◌, ◌<◌, IfOk, OnOk};
ghost use Rattle.std.specs.Io.KnownBytes.{Appends};
ghost use Rattle.verdict.specs.Verdict.{number_of};
ghost use Rattle.verdict.specs.Verdict as meaning;
ghost use Rattle.report.specs.Text.{verdict_line, totals_text, net_line};
ghost use Rattle.report.specs.Numbered.{Numbered};

use market::Totals;
use stages::Place;
use std::io;
use std::io::Write;

// ---- the verdict and the totals

fn say_verdict<W: Write>(out: &mut W, number: u8, place: Place) -> io::Result<()>
    ensures { OnOk result (Appends (W.contents out.old) (W.contents out.new) (verdict_line number place)) }
{
    writeln!(out, "verdict {number} {place}")
}

fn say_totals<W: Write>(out: &mut W, t: Totals) -> io::Result<()>
    ensures { OnOk result (Appends (W.contents out.old) (W.contents out.new) (totals_text t)) }
{
    writeln!(out, "order value {}", t.value)?;
    writeln!(out, "buyers {}", t.buyers)?;
    writeln!(out, "sellers {}", t.sellers)?;
    writeln!(out, "rent {}", t.rent)?;
    writeln!(out, "traded {}", t.traded)?;
    writeln!(out, "shortfall {}", t.shortfall)
}

// ---- the net positions, as the statement in the room has them

// What a slice holds from a place on; nothing where the place is past its end.
fn from<'a>(s: &'a [u8], at: usize) -> &'a [u8] {
    s.get(at..).unwrap_or(b"")
}

fn u16_or_zero(s: &[u8], at: usize) -> usize
    ensures { result < 65536 }
{
    let rest = from(s, at);
    if 2 <= rest.len() {
        wire::u16_at(rest, 0)
    } else {
        0
    }
}

fn i32_or_zero(s: &[u8], at: usize) -> i64 {
    let rest = from(s, at);
    if 4 <= rest.len() {
        wire::i32_at(rest, 0)
    } else {
        0
    }
}

fn say_net<W: Write>(out: &mut W, code: usize, period: usize, net: i64) -> io::Result<()>
    ensures { OnOk result (Appends (W.contents out.old) (W.contents out.new) (net_line code period net)) }
{
    writeln!(out, "net {code} {period} {net}")
}

fn say_nets<W: Write>(out: &mut W, codes: &[u8], room: &[u8], periods: usize) -> io::Result<()> {
    if 0 < periods {
        for k in 0..u16_or_zero(room, 50) {
            let code = u16_or_zero(codes, 2 * (k / periods));
            let net = i32_or_zero(room, 52 + 4 * k);
            say_net(out, code, k % periods, net)?;
        }
    }
    Ok(())
}

// ---- the outcome of a check of a day file, and the room that was lent to it

// Gives the number that it printed. A refusal may be of any type that says a number and a place, and the number any u8.
pub fn outcome<W: Write, E: Into<(u8, Place)>>(
    out: &mut W,
    outcome: Result<Totals, E>,
    day: &[u8],
    room: &[u8],
) -> io::Result<u8>
    ensures { IfOk result (λ n. Numbered E.converts outcome n) }
{
    match outcome {
        Err(refusal) => {
            let (number, place) = refusal.into();
            say_verdict(out, number, place)?;
            Ok(number)
        }
        Ok(totals) => {
            say_verdict(out, 0, Place::new(0, 0))?;
            say_totals(out, totals)?;
            say_nets(
                out,
                lookup::look_up(day, 2),
                room,
                lookup::look_up(day, 1).len() / 8,
            )?;
            Ok(0)
        }
    }
}

// Judges two files in a room that every statement fits. Gives the number that it printed.
pub fn judged<W: Write>(out: &mut W, day: &[u8], clearing: &[u8]) -> io::Result<u8>
    ensures { IfOk result (λ n. n ≡ number_of (meaning.verdict day.now clearing.now 852)) }
{
    let mut room = [0u8; 852];
    let judged = verdict::check(day, clearing, &mut room);
    outcome(out, judged, day, &room)
}

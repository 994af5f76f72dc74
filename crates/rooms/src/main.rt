// Judges stored pairs of files in rooms of given lengths, and writes for each what the program writes and then the bytes of the room.
//
// The file `pairs` holds records: the lengths of the day file, of the clearing file and of the room (u16 each), then the bytes of the day
// file and of the clearing file. A room is filled with the byte 170 before it is lent.
#![tactic(auto)]

use std::io::{Read, Write};
use std::{fs, io};

const MOST_PAIRS: usize = 2000;

const FILL: u8 = 170;

// ---- one pair

fn say_room<W: Write>(out: &mut W, room: &[u8]) -> io::Result<()> {
    print::text(out, b"room ")?;
    print::bytes(out, room)?;
    print::text(out, b"\n")?;
    Ok(())
}

fn judge<W: Write>(out: &mut W, day: &[u8], clearing: &[u8], room: &mut [u8]) -> io::Result<()> {
    let outcome = verdict::check(day, clearing, room);
    report::outcome(out, outcome, day, room)?;
    say_room(out, room)
}

fn judge_next<R: Read, W: Write>(
    out: &mut W,
    file: &mut R,
    day_length: usize,
    clearing_length: usize,
    room_length: usize,
) -> io::Result<()> {
    let mut day = [0u8; 65536];
    let mut clearing = [0u8; 65536];
    let mut room = [FILL; 65536];
    input::read_full(file, input::front_mut(&mut day, day_length));
    input::read_full(file, input::front_mut(&mut clearing, clearing_length));
    judge(
        out,
        input::front(&day, day_length),
        input::front(&clearing, clearing_length),
        input::front_mut(&mut room, room_length),
    )
}

// ---- all pairs

fn judge_one<R: Read, W: Write>(out: &mut W, file: &mut R) -> io::Result<bool> {
    let mut head = [0u8; 6];
    if input::read_full(file, &mut head) < 6 {
        return Ok(false);
    }
    judge_next(
        out,
        file,
        wire::u16_at(&head, 0),
        wire::u16_at(&head, 2),
        wire::u16_at(&head, 4),
    )?;
    Ok(true)
}

fn judge_all<R: Read, W: Write>(out: &mut W, file: &mut R) -> io::Result<()> {
    for _ in 0..MOST_PAIRS {
        if !judge_one(out, file)? {
            break;
        }
    }
    Ok(())
}

fn main(rt: HostRuntime) -> io::Result<()> {
    let mut out = io::writer(&rt);
    let Ok(mut file) = fs::open(&rt, "pairs") else {
        print::text(&mut out, b"no pairs\n")?;
        return Ok(());
    };
    judge_all(&mut out, &mut file)
}

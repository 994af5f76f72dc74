// Judges an archive: pairs of files from standard input, one after the other.
//
// A pair is the lengths of its day file and of its clearing file (u32 each, little-endian), then the bytes of the day file, then those of
// the clearing file. Of a file longer than 65,536 bytes the first 65,536 are judged. For each pair it writes what the program writes for
// those two files. Where the input ends inside a pair, or can't be read on, it writes "cut short" and stops.
#![tactic(auto)]

ghost use Rattle.std.specs.Prelude.{◌≤◌};

use std::io;
use std::io::{Read, Write};

// ---- a file of so many bytes

// Passes over some of the bytes that are left. Gives how many came.
fn skip_some<R: Read>(file: &mut R, left: usize) -> usize
    ensures { result ≤ left }
{
    let mut passed = [0u8; 65536];
    input::read_full(file, input::front_mut(&mut passed, left))
}

// Passes over n bytes. Whether they were all there.
fn skip<R: Read>(file: &mut R, n: usize) -> bool {
    let mut left = n;
    // No `for`: it goes on by as many as came.
    while left > 0 {
        let came = skip_some(file, left);
        if came == 0 {
            return false;
        }
        left -= came;
    }
    true
}

// Reads n bytes, of which the buffer takes as many as it can. Whether they were all there.
fn take<R: Read>(file: &mut R, buf: &mut [u8], n: usize) -> bool {
    let part = input::front_mut(buf, n);
    let kept = part.len();
    input::read_full(file, part) == kept && skip(file, n - kept)
}

// ---- a pair, and all pairs

// Judges a pair of files of these lengths. Whether it was all there.
fn judge_pair<R: Read, W: Write>(
    out: &mut W,
    file: &mut R,
    day_length: usize,
    clearing_length: usize,
) -> io::Result<bool> {
    let mut day = [0u8; 65536];
    let mut clearing = [0u8; 65536];
    if !take(file, &mut day, day_length) || !take(file, &mut clearing, clearing_length) {
        return Ok(false);
    }
    report::judged(
        out,
        input::front(&day, day_length),
        input::front(&clearing, clearing_length),
    )?;
    Ok(true)
}

// Judges the next pair. Whether to go on.
fn judge_next<R: Read, W: Write>(out: &mut W, file: &mut R) -> io::Result<bool> {
    let mut head = [0u8; 8];
    let whole = match input::read(file, &mut head) {
        Ok(0) => return Ok(false),
        // By `as`, which is proved to fit: there is no `From<u32>` for `usize`.
        Ok(8) => judge_pair(
            out,
            file,
            wire::u32_at(&head, 0) as usize,
            wire::u32_at(&head, 4) as usize,
        )?,
        _ => false,
    };
    if !whole {
        print::text(out, b"cut short\n")?;
    }
    Ok(whole)
}

// A loop has to end, and nothing says that the input does: it goes as far as a number of pairs that no archive has.
fn main(rt: HostRuntime) -> io::Result<()> {
    let mut out = io::writer(&rt);
    let mut file = rt.stdin();
    for _ in 0..u64::MAX {
        if !judge_next(&mut out, &mut file)? {
            break;
        }
    }
    Ok(())
}

// Runs both readers and the look-up on day A and clearing A, whole, cut at every length, and with each byte altered, and writes the
// number and the place that each gets.
#![tactic(auto)]

ghost use Rattle.std.specs.Prelude.{◌≡◌, OnOk, length};
ghost use Rattle.std.specs.Io.KnownBytes.{Appends};
ghost use Rattle.input.specs.Within.{IsPrefixLen};
ghost use Rattle.readings.specs.Text.{fault_text, cut_text, altered_text, asked_text, size_text};

use stages::Refusal;
use std::io::Write;
use std::{fmt, fs, io};

fn say_fault<W: Write>(out: &mut W, fault: Result<(), Refusal>) -> io::Result<()>
    ensures { OnOk result (Appends (W.contents out.old) (W.contents out.new) (fault_text fault)) }
{
    match fault {
        Ok(()) => write!(out, " 0 0 0 0"),
        Err(refusal) => write!(out, " {refusal}"),
    }
}

// ---- the readers on two files

fn say_reading<W: Write>(out: &mut W, day: &[u8], clearing: &[u8]) -> io::Result<()> {
    say_fault(out, clearing::read_files(day, clearing).map(|_| ()))?;
    writeln!(out)
}

fn say_name<W: Write>(out: &mut W, name: &str) -> io::Result<()>
    ensures { OnOk result (Appends (W.contents out.old) (W.contents out.new) name.now) }
{
    write!(out, "{name}")
}

fn say_named<W: Write>(out: &mut W, name: &str, day: &[u8], clearing: &[u8]) -> io::Result<()> {
    say_name(out, name)?;
    say_reading(out, day, clearing)
}

// ---- the readers with one of the files changed

#[derive(Clone, Copy)]
enum File {
    Day,
    Clearing,
}

// The edits have the day file as 0.
impl From<u8> for File {
    fn from(number: u8) -> File {
        if number == 0 {
            File::Day
        } else {
            File::Clearing
        }
    }
}

impl fmt::Display for File {
    ghost use Rattle.std.specs.Prelude.{Some};
    ghost use Rattle.readings.specs.Text.{file_text};

    ghost output = { λ file. Some (file_text file) };

    fn fmt<W: fmt::Write>(&self, f: &mut fmt::Formatter<W>) -> fmt::Result {
        match self {
            File::Day => write!(f, "day"),
            File::Clearing => write!(f, "clearing"),
        }
    }
}

fn chosen<'a>(file: File, day: &'a [u8], clearing: &'a [u8]) -> &'a [u8] {
    match file {
        File::Day => day,
        File::Clearing => clearing,
    }
}

fn say_changed<W: Write>(
    out: &mut W,
    file: File,
    changed: &[u8],
    day: &[u8],
    clearing: &[u8],
) -> io::Result<()> {
    match file {
        File::Day => say_reading(out, changed, clearing),
        File::Clearing => say_reading(out, day, changed),
    }
}

fn say_cut<W: Write>(out: &mut W, file: File, n: usize) -> io::Result<()>
    ensures { OnOk result (Appends (W.contents out.old) (W.contents out.new) (cut_text file n)) }
{
    write!(out, "{file} cut to {n}")
}

fn say_cuts<'a, W: Write>(
    out: &mut W,
    file: File,
    day: &'a [u8],
    clearing: &'a [u8],
) -> io::Result<()> {
    let whole = chosen(file, day, clearing);
    for n in 0..whole.len() {
        say_cut(out, file, n)?;
        say_changed(out, file, input::front(whole, n), day, clearing)?;
    }
    Ok(())
}

// A file of at most 128 bytes with one of them altered.
fn altered(s: &[u8], at: usize, value: u8) -> [u8; 128]
    ensures { 128 ≡ length result }
{
    let mut room = [0u8; 128];
    let n = s.len().min(128);
    room[..n].copy_from_slice(&s[..n]);
    if at < 128 {
        room[at] = value;
    }
    room
}

fn say_altered<W: Write>(out: &mut W, file: File, at: u8, value: u8) -> io::Result<()>
    ensures { OnOk result (Appends (W.contents out.old) (W.contents out.new) (altered_text file at value)) }
{
    write!(out, "{file} byte {at} is {value}")
}

fn say_edit<'a, W: Write>(
    out: &mut W,
    file: File,
    at: u8,
    value: u8,
    day: &'a [u8],
    clearing: &'a [u8],
) -> io::Result<()> {
    say_altered(out, file, at, value)?;
    let whole = chosen(file, day, clearing);
    let room = altered(whole, usize::from(at), value);
    say_changed(out, file, input::front(&room, whole.len()), day, clearing)
}

// Each edit is three bytes: the file's number, the place, and the byte to put there.
fn say_edits<'a, W: Write>(
    out: &mut W,
    edits: &[u8],
    day: &'a [u8],
    clearing: &'a [u8],
) -> io::Result<()> {
    for edit in edits.chunks_exact(3) {
        say_edit(out, edit[0].into(), edit[1], edit[2], day, clearing)?;
    }
    Ok(())
}

// ---- the look-up

fn say_size<W: Write>(out: &mut W, n: usize) -> io::Result<()>
    ensures { OnOk result (Appends (W.contents out.old) (W.contents out.new) (size_text n)) }
{
    write!(out, " part of {n}")
}

fn say_part<W: Write>(out: &mut W, part: &[u8]) -> io::Result<()> {
    say_size(out, part.len())?;
    if !part.is_empty() {
        write!(out, " ")?;
    }
    print::bytes(out, part)?;
    writeln!(out)
}

fn say_asked<W: Write>(out: &mut W, name: &str, section: usize) -> io::Result<()>
    ensures { OnOk result (Appends (W.contents out.old) (W.contents out.new) (asked_text name.now section)) }
{
    write!(out, "{name} section {section} refused")
}

fn say_look_up<W: Write>(out: &mut W, name: &str, day: &[u8], section: usize) -> io::Result<()> {
    say_asked(out, name, section)?;
    say_fault(out, lookup::look_up_fault(day, section))?;
    say_part(out, lookup::look_up(day, section))
}

fn say_look_ups<W: Write>(out: &mut W, name: &str, day: &[u8]) -> io::Result<()> {
    for section in 0..7 {
        say_look_up(out, name, day, section)?;
    }
    Ok(())
}

// ---- the run

fn loaded<R: fs::Files>(rt: &R, path: &str, room: &mut [u8]) -> usize
    ensures { IsPrefixLen result room.new }
{
    let Ok(mut file) = fs::open(rt, path) else {
        return 0;
    };
    input::read_full(&mut file, room)
}

fn without_last<'a>(s: &'a [u8]) -> &'a [u8] {
    s.split_last().map_or(s, |(_, rest)| rest)
}

// Each of the two files is lent with one byte more, which stands behind it in its room.
fn say_all<'a, W: Write>(
    out: &mut W,
    longer_day: &'a [u8],
    longer_clearing: &'a [u8],
    edits: &[u8],
) -> io::Result<()> {
    let day = without_last(longer_day);
    let shorter_day = without_last(day);
    let clearing = without_last(longer_clearing);
    say_named(out, "day A and clearing A", day, clearing)?;
    say_named(out, "day A without its last byte", shorter_day, clearing)?;
    say_named(out, "two empty files", b"", b"")?;
    say_named(out, "day A with one byte more", longer_day, clearing)?;
    say_named(out, "clearing A with one byte more", day, longer_clearing)?;
    say_named(
        out,
        "clearing A with one byte a block",
        day,
        without_last(clearing),
    )?;
    say_cuts(out, File::Day, day, clearing)?;
    say_cuts(out, File::Clearing, day, clearing)?;
    say_edits(out, edits, day, clearing)?;
    say_look_ups(out, "day A", day)?;
    say_look_ups(out, "day A without its last byte", shorter_day)
}

fn main(rt: HostRuntime) -> io::Result<()> {
    let mut day = [0u8; 128];
    let d = loaded(&rt, "day_a", &mut day);
    let mut clearing = [0u8; 128];
    let c = loaded(&rt, "clearing_a", &mut clearing);
    let mut edits = [0u8; 4096];
    let e = loaded(&rt, "edits", &mut edits);
    say_all(
        &mut io::writer(&rt),
        input::front(&day, d + 1),
        input::front(&clearing, c + 1),
        input::front(&edits, e),
    )
}

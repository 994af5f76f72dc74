// The program: judges the files day.bin and clearing.bin of its working directory. It reads at most 65,536 bytes of each, which is longer
// than any file that reads without fault.
#![tactic(auto)]

use std::fs::Files;
use std::{fs, io};

fn read_named<R: Files>(rt: &R, name: &str, buf: &mut [u8]) -> io::Result<usize> {
    let mut file = fs::open(rt, name)?;
    input::read(&mut file, buf)
}

fn main(rt: HostRuntime) -> io::Result<()> {
    let mut out = io::writer(&rt);
    let mut day = [0u8; 65536];
    let mut clearing = [0u8; 65536];
    let Ok(day_length) = read_named(&rt, "day.bin", &mut day) else {
        print::text(&mut out, b"missing day\n")?;
        return Ok(());
    };
    let Ok(clearing_length) = read_named(&rt, "clearing.bin", &mut clearing) else {
        print::text(&mut out, b"missing clearing\n")?;
        return Ok(());
    };
    report::judged(
        &mut out,
        input::front(&day, day_length),
        input::front(&clearing, clearing_length),
    )?;
    Ok(())
}

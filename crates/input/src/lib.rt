// Files read to their end, or as far as a buffer goes.
#![tactic(auto)]

ghost use Rattle.std.specs.Prelude.{◌≡◌, ◌<◌, length, take, OnOk};
ghost use Rattle.std.specs.Io.KnownBytes.{Consumes, IsAtEnd};
ghost use Rattle.input.specs.Within.{IsPrefixLen, Takes, Within};

use std::io;
use std::io::Read;

// Reads until the buffer is full, the file has ended or a read fails. Gives how many bytes came, and whether a read failed.
fn fill<R: Read>(file: &mut R, buf: &mut [u8]) -> (usize, io::Result<()>)
    ensures within { IsPrefixLen result.0 buf.new }
    ensures bytes { Consumes (R.remaining file.old) (R.remaining file.new) (take result.0 buf.new) }
    ensures end { OnOk result.1 (result.0 < length buf.new → IsAtEnd (R.remaining file.new)) }
{
    let mut held = 0;
    // No `for`: it goes on by as many as came.
    while held < buf.len() {
        match file.read(&mut buf[held..]) {
            Ok(0) => return (held, Ok(())),
            Ok(more) => held += more,
            Err(e) => return (held, Err(e)),
        }
    }
    (held, Ok(()))
}

// Reads until the buffer is full or the file has ended. Gives how many bytes came.
pub fn read<R: Read>(file: &mut R, buf: &mut [u8]) -> io::Result<usize>
    ensures within { Within result (length buf.old) }
    ensures bytes { Takes result (R.remaining file.old) (R.remaining file.new) buf.new }
{
    let (held, end) = fill(file, buf);
    end?;
    Ok(held)
}

// Reads as far too, and stops where a read fails. Gives how many bytes came.
pub fn read_full<R: Read>(file: &mut R, buf: &mut [u8]) -> usize
    ensures within { IsPrefixLen result buf.new }
    ensures bytes { Consumes (R.remaining file.old) (R.remaining file.new) (take result buf.new) }
{
    fill(file, buf).0
}

// ---- the front of a buffer: n bytes, or all where there are fewer; one for each kind of borrow, which have no form in common

pub fn front(buf: &[u8], n: usize) -> &[u8]
    ensures { result.now ≡ take n buf.now }
{
    &buf[..n.min(buf.len())]
}

pub fn front_mut(buf: &mut [u8], n: usize) -> &mut [u8]
    ensures { result.now ≡ take n buf.old }
{
    let end = n.min(buf.len());
    &mut buf[..end]
}

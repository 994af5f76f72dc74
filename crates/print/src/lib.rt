// Bytes on a writer, for the programs: as they are, and in hexadecimal.
#![tactic(auto)]

ghost use Rattle.std.specs.Prelude.{◌≡◌, IfOk, OnOk, length};
ghost use Rattle.std.specs.Io.KnownBytes.{Appends};
ghost use Rattle.print.specs.Hex.{hex, two_digits};

use std::io;
use std::io::Write;

// Prints bytes as they are. Gives how many they are.
pub fn text<W: Write>(out: &mut W, s: &[u8]) -> io::Result<usize>
    ensures count { IfOk result (λ n. n ≡ length s.now) }
    ensures bytes { OnOk result (Appends (W.contents out.old) (W.contents out.new) s.now) }
{
    out.write_all(s)?;
    Ok(s.len())
}

// By itself: with `write!` in the loop over the bytes a goal stayed open.
#[tactic(auto, using(std::proofs::lemmas::Fmt::hex_byte))]
fn byte<W: Write>(out: &mut W, x: u8) -> io::Result<()>
    ensures { OnOk result (Appends (W.contents out.old) (W.contents out.new) (two_digits x)) }
{
    write!(out, "{x:02x}")
}

// Prints each byte as two hexadecimal digits. Gives how many it printed.
pub fn bytes<W: Write>(out: &mut W, s: &[u8]) -> io::Result<usize>
    ensures count { IfOk result (λ n. n ≡ length s.now) }
    ensures bytes { OnOk result (Appends (W.contents out.old) (W.contents out.new) (hex s.now)) }
{
    for b in s {
        byte(out, *b)?;
    }
    Ok(s.len())
}

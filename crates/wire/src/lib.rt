// Numbers in a lent slice of bytes, lowest byte first: read and written.
#![tactic(auto)]

ghost use Rattle.std.specs.Prelude.{◌≡◌, ◌+◌, ◌≤◌, ◌<◌, length};
ghost use Rattle.wire.specs.Bytes.{u8_at, u16_at, u32_at, i32_at, bits32, bits64, bytes16, bytes32, bytes64, put};

// ---- read: a function for each width, since std's methods are of each type, and one line each is plainer than a trait with its impls

pub fn u8_at(s: &[u8], at: usize) -> usize
    requires { at + 1 ≤ length s.now }
    ensures { (result ≡ u8_at s.now at) × (result < 256) }
{
    usize::from(s[at])
}

pub fn u16_at(s: &[u8], at: usize) -> usize
    requires { at + 2 ≤ length s.now }
    ensures { (result ≡ u16_at s.now at) × (result < 65536) }
{
    usize::from(u16::from_le_bytes([s[at], s[at + 1]]))
}

pub fn u32_at(s: &[u8], at: usize) -> u32
    requires { at + 4 ≤ length s.now }
    ensures { result ≡ u32_at s.now at }
{
    u32::from_le_bytes([s[at], s[at + 1], s[at + 2], s[at + 3]])
}

// The value of an i32, in an i64, so that sums and products of it have room.
pub fn i32_at(s: &[u8], at: usize) -> i64
    requires { at + 4 ≤ length s.now }
    ensures { result ≡ i32_at s.now at }
{
    i64::from(u32_at(s, at).cast_signed())
}

// ---- written: a function for each width, as above

pub fn put_u16(room: &mut [u8], at: usize, n: u16)
    requires { at + 2 ≤ length room.old }
    ensures { room.new ≡ put room.old at (bytes16 n) }
{
    room[at..at + 2].copy_from_slice(&n.to_le_bytes());
}

pub fn put_u32(room: &mut [u8], at: usize, n: u32)
    requires { at + 4 ≤ length room.old }
    ensures { room.new ≡ put room.old at (bytes32 n) }
{
    room[at..at + 4].copy_from_slice(&n.to_le_bytes());
}

pub fn put_i32(room: &mut [u8], at: usize, v: i32)
    requires { at + 4 ≤ length room.old }
    ensures { room.new ≡ put room.old at (bytes32 (bits32 v)) }
{
    room[at..at + 4].copy_from_slice(&v.to_le_bytes());
}

pub fn put_i64(room: &mut [u8], at: usize, v: i64)
    requires { at + 8 ≤ length room.old }
    ensures { room.new ≡ put room.old at (bytes64 (bits64 v)) }
{
    room[at..at + 8].copy_from_slice(&v.to_le_bytes());
}

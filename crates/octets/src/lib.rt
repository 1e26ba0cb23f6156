// Numbers in octets, high octet first, and runs of octets written into a lent buffer.
#![tactic(auto)]

ghost use Rattle.std.specs.Prelude.{◌≡◌, [], ◌∷◌, ◌+◌, ◌≤◌, drop, length, take};
ghost use Rattle.lists.specs.Row.{laid_row};
ghost use Rattle.octets.specs.Octets.{at16, at32, octets16, octets32, Wrote};

// The number of two octets at a place.
pub fn read_u16(s: &[u8], at: usize) -> u16
    requires { at + 2 ≤ length s.now }
    ensures { result ≡ at16 s.now at }
{
    u16::from_be_bytes([s[at], s[at + 1]])
}

// The number of four octets at a place.
pub fn read_u32(s: &[u8], at: usize) -> u32
    requires { at + 4 ≤ length s.now }
    ensures { result ≡ at32 s.now at }
{
    u32::from_be_bytes([s[at], s[at + 1], s[at + 2], s[at + 3]])
}

// The n octets from a place on, and zeros after them.
pub fn read_run(s: &[u8], at: usize, n: usize) -> [u8; 32]
    requires { (n ≤ 32) × (at + n ≤ length s.now) }
    ensures { result ≡ laid_row 0 32 (take n (drop at s.now)) }
{
    let mut out = [0u8; 32];
    out[..n].copy_from_slice(&s[at..at + n]);
    out
}

// Writes octets at a place and returns the place after them, as each `put` below does.
pub fn put(buffer: &mut [u8], at: usize, s: &[u8]) -> usize
    requires { at + length s.now ≤ length buffer.old }
    ensures { Wrote buffer.old at s.now buffer.new result }
{
    let end = at + s.len();
    buffer[at..end].copy_from_slice(s);
    end
}

pub fn put_u8(buffer: &mut [u8], at: usize, v: u8) -> usize
    requires { at + 1 ≤ length buffer.old }
    ensures { Wrote buffer.old at (v ∷ []) buffer.new result }
{
    put(buffer, at, &[v])
}

pub fn put_u16(buffer: &mut [u8], at: usize, v: u16) -> usize
    requires { at + 2 ≤ length buffer.old }
    ensures { Wrote buffer.old at (octets16 v) buffer.new result }
{
    put(buffer, at, &v.to_be_bytes())
}

// The low 32 bits of a number: an address is a sum that a u64 always holds.
pub fn put_u32(buffer: &mut [u8], at: usize, v: u64) -> usize
    requires { at + 4 ≤ length buffer.old }
    ensures { Wrote buffer.old at (octets32 v) buffer.new result }
{
    put(buffer, at, &v.to_be_bytes()[4..])
}

// The first n octets of a slice.
pub fn put_run(buffer: &mut [u8], at: usize, s: &[u8], n: usize) -> usize
    requires { (at + n ≤ length buffer.old) × (n ≤ length s.now) }
    ensures { Wrote buffer.old at (take n s.now) buffer.new result }
{
    put(buffer, at, &s[..n])
}

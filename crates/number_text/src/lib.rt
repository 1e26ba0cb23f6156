// Numbers and addresses as text, written into a lent buffer. Each `put` writes at a place and returns the place after what it wrote.
#![tactic(auto)]

ghost use Rattle.std.specs.Prelude.{[], ◌++◌, ◌∷◌, ◌+◌, ◌≤◌, length};
ghost use Rattle.octets.specs.Octets.{Wrote};
ghost use Rattle.number_text.specs.Text.{Line, dotted, field, numeral};

pub fn put_char(buffer: &mut [u8], at: usize, x: u8) -> usize
    requires { at + 1 ≤ length buffer.old }
    ensures { Line buffer.old at (x ∷ []) buffer.new result 1 }
{
    octets::put_u8(buffer, at, x)
}

// The digits of a number: those above the last one, and the last one.
// Stays: what may not change is `Line`, which tells which octets of a lent buffer change and where the text ends; a `Display` writes into a `Formatter`, which has no such place.
fn put_digits(buffer: &mut [u8], at: usize, n: u64) -> usize
    requires { at + length (numeral n) ≤ length buffer.old }
    ensures { Wrote buffer.old at (numeral n) buffer.new result }
{
    if n < 10 {
        return octets::put_u8(buffer, at, b'0' + (n % 10) as u8);
    }
    let a = put_digits(buffer, at, n / 10);
    octets::put_u8(buffer, a, b'0' + (n % 10) as u8)
}

// Any number: at most twenty digits.
pub fn put_number(buffer: &mut [u8], at: usize, n: u64) -> usize
    requires { at + 20 ≤ length buffer.old }
    ensures { Line buffer.old at (numeral n) buffer.new result 20 }
{
    put_digits(buffer, at, n)
}

// An octet's: at most three.
pub fn put_octet(buffer: &mut [u8], at: usize, n: u8) -> usize
    requires { at + 3 ≤ length buffer.old }
    ensures { Line buffer.old at (numeral n) buffer.new result 3 }
{
    put_digits(buffer, at, u64::from(n))
}

// An octet and a point.
fn put_part(buffer: &mut [u8], at: usize, n: u8) -> usize
    requires { at + 4 ≤ length buffer.old }
    ensures { Line buffer.old at (numeral n ++ 46 ∷ []) buffer.new result 4 }
{
    let a = put_octet(buffer, at, n);
    put_char(buffer, a, b'.')
}

// An address.
pub fn put_dotted(buffer: &mut [u8], at: usize, a: u32) -> usize
    requires { at + 15 ≤ length buffer.old }
    ensures { Line buffer.old at (dotted a) buffer.new result 15 }
{
    let [p, q, r, s] = a.to_be_bytes();
    let w = put_part(buffer, at, p);
    let x = put_part(buffer, w, q);
    let y = put_part(buffer, x, r);
    put_octet(buffer, y, s)
}

// A blank and a number.
pub fn put_field(buffer: &mut [u8], at: usize, n: u64) -> usize
    requires { at + 21 ≤ length buffer.old }
    ensures { Line buffer.old at (field n) buffer.new result 21 }
{
    let a = put_char(buffer, at, b' ');
    put_number(buffer, a, n)
}

// The same of an octet.
// Stays: one function for both would ask for 21 octets of room here, where the contract asks for 4.
pub fn put_octet_field(buffer: &mut [u8], at: usize, n: u8) -> usize
    requires { at + 4 ≤ length buffer.old }
    ensures { Line buffer.old at (field n) buffer.new result 4 }
{
    let a = put_char(buffer, at, b' ');
    put_octet(buffer, a, n)
}

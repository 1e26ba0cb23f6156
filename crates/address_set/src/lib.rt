// A set of up to 64 addresses of a scope, as offsets from its lowest address: the bits of a u64.
#![tactic(auto)]

ghost use Rattle.std.specs.Prelude.{◌≡◌, min, length};
ghost use Rattle.address_set.specs.AddressSet.{offsets, set_of, difference_of, lowest_of, up_to, read_offsets, with_offset, fewest_ranges, first_range, behind};

// A range of offsets, all of one set: the first and how many.
#[derive(Clone, Copy)]
pub struct Range {
    pub first: u32,
    pub count: u32,
}

// The offsets of a scope of a size: those below it.
pub fn first_n(n: u8) -> u64
    ensures { result ≡ set_of (up_to (min n 64)) }
{
    if n < 64 { (1u64 << n) - 1 } else { u64::MAX }
}

// The offsets of m that are not in n.
pub fn difference(m: u64, n: u64) -> u64
    ensures { result ≡ difference_of m n }
{
    m & !n
}

pub fn count(set: u64) -> u32
    ensures { result ≡ length (offsets set) }
{
    set.count_ones()
}

// The lowest n offsets of a set; all of them where it has fewer. Nothing is walked where there is none to find or none to take.
pub fn lowest(set: u64, n: u64) -> u64
    ensures { result ≡ lowest_of set n }
{
    if set == 0 || n == 0 {
        return 0;
    }
    let mut out = 0;
    let mut left = n;
    for at in 0..64u64 {
        if (set >> at) % 2 == 1 && left > 0 {
            out |= 1u64 << at;
            left -= 1;
        }
    }
    out
}

fn with_offset(set: u64, at: u8) -> u64
    ensures { result ≡ with_offset set at }
{
    if at < 64 { set | (1u64 << at) } else { set }
}

// The set of a list of offsets; an octet from 64 on adds nothing.
pub fn from_offsets(s: &[u8]) -> u64
    ensures { result ≡ read_offsets s.now }
{
    s.iter().fold(0, |set, at| with_offset(set, *at))
}

// The first of the fewest ranges of a set; one of no offset where the set is empty.
pub fn first_range(set: u64) -> Range
    ensures { result ≡ first_range (fewest_ranges (offsets set)) }
{
    if set == 0 {
        return Range { first: 0, count: 0 };
    }
    let first = set.trailing_zeros();
    let count = (set >> first).trailing_ones();
    Range { first, count }
}

// The offsets of a set behind a range: with its first range, those of the other ranges.
pub fn rest(set: u64, r: Range) -> u64
    ensures { result ≡ behind set r }
{
    let end = u64::from(r.first) + u64::from(r.count);
    if end < 64 { (set >> end) << end } else { 0 }
}

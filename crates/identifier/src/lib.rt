// Document 01's Lease Identifiers: 2 to 32 opaque octets, here in an array with their number.
#![tactic(auto)]

ghost use Rattle.std.specs.Prelude.{◌≡◌, ◌+◌, ◌≤◌, take, drop};
ghost use Rattle.std.specs.Ordering.{ordering_index};
ghost use Rattle.identifier.specs.Order.{order_of, same_of, number_from, Octets};

use std::cmp::Ordering;

// Eight octets from a place on as one number, high octet first: it orders them, and is 0 where they all are.
pub fn word(a: [u8; 32], i: usize) -> u64
    requires { i + 8 ≤ 32 }
    ensures { (result ≡ number_from 0 (take 8 (drop i a))) × Octets (take 8 (drop i a)) }
{
    u64::from_be_bytes([
        a[i],
        a[i + 1],
        a[i + 2],
        a[i + 3],
        a[i + 4],
        a[i + 5],
        a[i + 6],
        a[i + 7],
    ])
}

// Two identifiers in the order of the campus file. A length above 32 stands for 32. Most differ in their first eight octets, which are compared as one number.
pub fn order(a: [u8; 32], a_len: u8, b: [u8; 32], b_len: u8) -> Ordering
    ensures { ordering_index result ≡ order_of (take a_len a) (take b_len b) }
{
    let m = usize::from(a_len).min(32);
    let n = usize::from(b_len).min(32);
    if 8 <= m && 8 <= n {
        let x = word(a, 0);
        let y = word(b, 0);
        if x != y {
            return x.cmp(&y);
        }
    }
    a[..m].cmp(&b[..n])
}

// Whether two identifiers are the same octets.
pub fn same(a: [u8; 32], a_len: u8, b: [u8; 32], b_len: u8) -> bool
    ensures { result ≡ same_of (take a_len a) (take b_len b) }
{
    order(a, a_len, b, b_len).is_eq()
}

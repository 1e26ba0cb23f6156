// Whether the records of a book can hold what well-formed sections have: entries of the right type, identifiers, offsets, and so many of each tenant.
ghost use Rattle.std.specs.Prelude.{not, ◌≡◌, ◌+◌, ◌-◌, ◌<◌, eqb, leb, get_or};
ghost use Rattle.format.specs.Section.{Inside};
ghost use Rattle.format.specs.Tenants.{tally_by};
ghost use Rattle.lists.specs.All.{all_by, all_to};
ghost use Rattle.lists.specs.Pick.{pick};
ghost use Rattle.lease_file.specs.Place.{EntriesFit, EntriesIn, StorableAt, after_entry, after_lease, entries_in, entry_at, file_lease_at};
ghost use Rattle.lease_file.specs.Records.{entry_fit_b, is_offset, storable_b};
ghost use Rattle.lease_file.specs.Section.{entry_tenant};

use crate::form::tail;
use message::MessageType;

// Whether they can hold each entry of the section that starts at `at`.
pub fn all_fit(s: &[u8], at: usize, holds: bool) -> bool
    requires { EntriesIn holds s.now at }
    ensures { result ≡ all_by (entry_fit_b holds) (entries_in holds s.now at) }
{
    let mut here = at + 1;
    for _ in 0..usize::from(s[at]) {
        if !fits_at(s, here, holds) {
            return false;
        }
        here = entry_next(s, here, holds);
    }
    true
}

// Whether a record can hold the entry that starts at `at`, and belongs there.
fn fits_at(s: &[u8], at: usize, holds: bool) -> bool
    requires { Inside (after_entry holds) s.now at }
    ensures { result ≡ entry_fit_b holds (entry_at holds s.now at) }
{
    let n = usize::from(s[at + 2]);
    of_kind(s[at + (n + 3)], holds) && storable_at(s, at)
}

// Whether the section has entries of a type: that of holds has those of a DISCOVER's alone.
pub fn of_kind(kind: u8, holds: bool) -> bool
    ensures { result ≡ pick holds (eqb kind 1) (not (eqb kind 1)) }
{
    (kind == MessageType::DISCOVER) == holds
}

// Whether a record can hold the lease that starts at `at`.
fn storable_at(s: &[u8], at: usize) -> bool
    requires { Inside after_lease s.now at }
    ensures { result ≡ storable_b (file_lease_at s.now at) }
{
    let t = s[at];
    if t < 1 || 8 < t {
        return false;
    }
    let n = usize::from(s[at + 2]);
    if 32 < n {
        return false;
    }
    let k = usize::from(s[at + (n + 16)]);
    low(&s[at + (n + 17)..at + (n + 17) + k])
}

// Whether all octets are below 64: gathered by or to the end, with no way out on the way, so that several are looked at together.
fn low(offsets: &[u8]) -> bool
    ensures { result ≡ all_by is_offset offsets.now }
{
    let mut any: u8 = 0;
    for x in offsets {
        any |= *x;
    }
    any < 64
}

// Whether no tenant has more leases and holds together than records.
pub fn all_few(leases: [usize; 8], holds: [usize; 8]) -> bool
    ensures { result ≡ all_to (λ i. leb (get_or leases i 0 + get_or holds i 0) 16) 8 }
{
    for i in 0..8 {
        if 16 < leases[i].saturating_add(holds[i]) {
            return false;
        }
    }
    true
}

// How many entries of the section that starts at `at` each tenant has.
pub fn tally(s: &[u8], at: usize, holds: bool) -> [usize; 8]
    requires { EntriesFit holds s.now at }
    ensures { result ≡ tally_by (entry_tenant holds) (entries_in holds s.now at) }
{
    let mut n = [0usize; 8];
    let mut here = at + 1;
    for _ in 0..usize::from(s[at]) {
        n[tenant_place(s, here, holds)] += 1;
        here = entry_next(s, here, holds);
    }
    n
}

// Where the entry that starts at `at` ends.
pub fn entry_next(s: &[u8], at: usize, holds: bool) -> usize
    requires { Inside (after_entry holds) s.now at }
    ensures { result ≡ after_entry holds s.now at }
{
    let n = usize::from(s[at + 2]);
    let k = usize::from(s[at + (n + 16)]);
    at + (n + 17 + k) + tail(holds)
}

// The place among the tenants of the one whose entry starts at `at`.
pub fn tenant_place(s: &[u8], at: usize, holds: bool) -> usize
    requires { StorableAt holds s.now at }
    ensures { (result ≡ get_or s.now at 0 - 1) × (result < 8) }
{
    usize::from(s[at]) - 1
}

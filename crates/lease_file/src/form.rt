// The form of a section, judged over its octets with nothing stored: where each entry ends, offsets that rise, and the order.
ghost use Rattle.std.specs.Prelude.{◌≡◌, ◌+◌, ◌≤◌, drop, get_or, length, take};
ghost use Rattle.address_set.specs.AddressSet.{rises};
ghost use Rattle.lease_file.specs.Place.{EntryEndsAt, after_lease, tail_of};
ghost use Rattle.lease_file.specs.Section.{is_after};

// Where the entry that starts at `at` ends.
pub fn entry_end(s: &[u8], at: usize, holds: bool) -> Option<usize>
    requires { at ≤ length s.now }
    ensures { EntryEndsAt holds s.now at result }
{
    let left = s.len() - at;
    if left < 3 {
        return None;
    }
    let n = usize::from(s[at + 2]);
    if left < n + 17 {
        return None;
    }
    let k = usize::from(s[at + (n + 16)]);
    let size = n + 17 + k + tail(holds);
    if left < size {
        return None;
    }
    if rising(&s[at + (n + 17)..at + (n + 17) + k]) {
        return Some(at + size);
    }
    None
}

// How many octets stand behind the rest of an entry: those of a hold's lapse.
pub fn tail(holds: bool) -> usize
    ensures { (result ≡ tail_of holds) × (result ≤ 4) }
{
    if holds { 4 } else { 0 }
}

// Whether offsets rise: gathered to the end, with no way out on the way, so that several are looked at together.
fn rising(offsets: &[u8]) -> bool
    ensures { result ≡ rises offsets.now }
{
    let mut all = true;
    for i in 1..offsets.len() {
        all &= offsets[i - 1] < offsets[i];
    }
    all
}

// Whether a tenant and an identifier are after those of the entry at `here`.
pub fn is_after(s: &[u8], tenant: u8, id: &[u8], here: usize) -> bool
    requires { after_lease s.now here ≤ length s.now }
    ensures { result ≡ is_after tenant id.now (get_or s.now here 0) (take (get_or s.now (here + 2) 0) (drop (here + 3) s.now)) }
{
    let t = s[here];
    t < tenant || t == tenant && id_at(s, here) < id
}

// The identifier of the entry at `here`.
pub fn id_at(s: &[u8], here: usize) -> &[u8]
    requires { after_lease s.now here ≤ length s.now }
    ensures { result.now ≡ take (get_or s.now (here + 2) 0) (drop (here + 3) s.now) }
{
    let n = usize::from(s[here + 2]);
    &s[here + 3..here + 3 + n]
}

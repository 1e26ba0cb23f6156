// The rules on one tenant's leases: 8, 10 and the order.
ghost use Rattle.std.specs.Prelude.{◌≡◌, true, map, take};
ghost use Rattle.lists.specs.All.{pairs_by};
ghost use Rattle.state.specs.Book.{differ, in_use, ordered};
ghost use Rattle.soundness.specs.Sound.{compatible};
ghost use Rattle.soundness.specs.Parts.{pools_of, empty_sets, fresh_all, checked_of, both_tenants, unlike, word_of};

use crate::gather::pass;
use crate::numbers::sets_apart;
use crate::{Checked, TenantRules};
use lists::{every_next, every_pair};
use state::{Lease, State, TenantLeases};

#[tactic(auto, unfolding(state::specs::Book::differ))]
fn names_differ(a: Lease, b: Lease) -> bool
    ensures { result ≡ differ a b }
{
    !identifier::same(a.id, a.id_len, b.id, b.id_len)
}

#[tactic(auto, unfolding(lists::specs::Pick::pick, crate::specs::Sound::compatible))]
fn are_compatible(a: Lease, b: Lease) -> bool
    ensures { result ≡ compatible a b }
{
    a.scope != b.scope
        || !state::overlapping(a, b.start, u64::from(b.end))
        || sets_apart(a.addresses, b.addresses)
}

// Records rise where each comes before the next.
fn all_rise(t: TenantLeases) -> bool
    ensures { result ≡ pairs_by ordered (in_use t) }
{
    let n = t.count.min(16);
    every_next(&t.leases[..n], |a, b| state::is_before(*a, *b))
}

fn all_differ(t: TenantLeases) -> bool
    ensures { result ≡ pairs_by differ (in_use t) }
{
    let n = t.count.min(16);
    every_pair(&t.leases[..n], |a, b| names_differ(*a, *b))
}

// The first eight octets of an identifier as one number; 0 of a shorter one.
fn word_of(l: Lease) -> u64
    ensures { result ≡ word_of l }
{
    if l.id_len < 8 {
        0
    } else {
        identifier::word(l.id, 0)
    }
}

fn words_of(t: TenantLeases) -> [u64; 16]
    ensures { result ≡ map word_of t.leases }
{
    let mut words = [0; 16];
    for (i, l) in t.leases.iter().enumerate() {
        words[i] = word_of(*l);
    }
    words
}

fn words_differ(words: [u64; 16], count: usize) -> bool
    ensures { result ≡ pairs_by unlike (take count words) }
{
    let n = count.min(16);
    every_pair(&words[..n], |a, b| is_unlike(*a, *b))
}

#[tactic(auto, unfolding(crate::specs::Parts::unlike))]
fn is_unlike(a: u64, b: u64) -> bool
    ensures { result ≡ unlike a b }
{
    a != b
}

// Identifiers differ where their first octets do, so that only others are compared whole, pair by pair.
fn ids_differ(t: TenantLeases) -> bool
    ensures { result ≡ pairs_by differ (in_use t) }
{
    words_differ(words_of(t), t.count) || all_differ(t)
}

fn all_compatible(t: TenantLeases) -> bool
    ensures { result ≡ pairs_by compatible (in_use t) }
{
    let n = t.count.min(16);
    every_pair(&t.leases[..n], |a, b| are_compatible(*a, *b))
}

// Only where ends are the same are identifiers compared.
fn rises(t: TenantLeases, swift: bool) -> bool
    requires { swift ≡ true → true ≡ pairs_by ordered (in_use t) }
    ensures { result ≡ pairs_by ordered (in_use t) }
{
    swift || all_rise(t)
}

// Leases on addresses of their own are compatible, so that only others are compared pair by pair.
fn periods_ok(t: TenantLeases, apart: bool) -> bool
    requires { apart ≡ fresh_all (empty_sets t.count) (in_use t) }
    ensures { result ≡ pairs_by compatible (in_use t) }
{
    apart || all_compatible(t)
}

pub fn check_tenant(s: State, pools: [u64; 4], t: TenantLeases) -> Checked
    requires { pools ≡ pools_of s }
    ensures { result ≡ checked_of s t }
{
    let p = pass(s, pools, t);
    let g = p.gathered;
    Checked {
        rules: TenantRules {
            records: (t.count <= 16) & g.ids,
            offsets: g.offsets,
            leases: g.leases,
            holds: g.holds,
            identifiers: ids_differ(t),
            periods: periods_ok(t, g.apart),
            layout: rises(t, p.swift) & (g.padded & p.unused),
        },
        held: g.held,
    }
}

impl TenantRules {
    #[tactic(auto, unfolding(crate::specs::Parts::both_tenants))]
    pub fn and(self, x: TenantRules) -> TenantRules
        ensures { result ≡ both_tenants self x }
    {
        TenantRules {
            records: self.records & x.records,
            offsets: self.offsets & x.offsets,
            leases: self.leases & x.leases,
            holds: self.holds & x.holds,
            identifiers: self.identifiers & x.identifiers,
            periods: self.periods & x.periods,
            layout: self.layout & x.layout,
        }
    }
}

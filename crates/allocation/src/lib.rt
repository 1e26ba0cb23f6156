// Document 01's grant rule: how many addresses a tenant gets for a period, and which. It goes by the tenant's own leases and by what every
// tenant holds, and answers whatever they are; in a sound book no other tenant's lease is on an address of the tenant's, so that these are enough.
#![tactic(auto)]

ghost use Rattle.std.specs.Prelude.{◌≡◌, ◌*◌, ◌<◌, ◌≤◌, max, eqb, length};
ghost use Rattle.lists.specs.Down.{largest};
ghost use Rattle.lists.specs.Pick.{pick};
ghost use Rattle.lists.specs.Sums.{sum_to, except};
ghost use Rattle.address_set.specs.AddressSet.{offsets, set_of, difference_of, lowest_of, chosen};
ghost use Rattle.state.specs.Book.{in_use, union_all, committed};
ghost use Rattle.allocation.specs.Rule.{pool_of, suffices};
ghost use Rattle.allocation.specs.Closed.{allowed_of, Small};
ghost use Rattle.allocation.specs.Loops.{set_in, sets_in, count_at, free_in, Numbered};
ghost use Rattle.allocation.specs.Own.{grant_known, grant_in};

use soundness::{Held, HeldTable};
use state::{Scope, TenantLeases};

// What is asked for: a scope's number, a tenant counted from 0, a period, and the desired number.
#[derive(Clone, Copy)]
pub struct Ask {
    pub scope: u8,
    pub tenant: usize,
    pub from: u32,
    pub to: u64,
    pub desired: u16,
}

// How many addresses are given, and which.
#[derive(Clone, Copy)]
pub struct Grant {
    pub number: u32,
    pub addresses: u64,
}

// The numbers that the rule goes by: document 01's D and f, the tenant's reserve and limit, what the others hold or have in reserve,
// and the scope's size.
#[derive(Clone, Copy)]
pub struct GrantNumbers {
    pub held: u32,
    pub free: u32,
    pub reserve: u32,
    pub limit: u32,
    pub others: u32,
    pub size: u32,
}

// The largest number that the rule allows, up to the desired one.
fn most(l: GrantNumbers, desired: u32) -> u32
    requires { Small l }
    ensures { result ≡ largest (allowed_of l) desired }
{
    let own = l.held.max(l.reserve);
    if l.limit < l.held {
        return 0;
    }
    if l.size < l.others + own {
        return 0;
    }
    let a = l.limit - l.held;
    let b = l.size - (l.others + l.held);
    let room = a.min(b);
    desired.min(l.free + room)
}

// What a tenant holds in a scope: nothing in one that there cannot be.
fn set_in(h: Held, scope: u8) -> u64
    ensures { result ≡ set_in scope h }
{
    if scope == 0 {
        return 0;
    }
    if 4 < scope {
        return 0;
    }
    h.sets[usize::from(scope - 1)]
}

// What each tenant holds in a scope.
fn sets_in(held: HeldTable, scope: u8) -> [u64; 8]
    ensures { result ≡ sets_in scope held }
{
    let mut sets = [0u64; 8];
    for (i, h) in held.tenants.iter().enumerate() {
        sets[i] = set_in(*h, scope);
    }
    sets
}

// What a tenant g other than h, which holds the set m, holds or has in reserve.
fn committed_other(m: u64, reserve: u8, g: usize, h: usize) -> u32
    ensures { (result ≡ pick (eqb g h) 0 (max (length (offsets m)) reserve)) × (result < 256) }
{
    if g == h {
        return 0;
    }
    let n = address_set::count(m);
    n.max(u32::from(reserve))
}

// What the other tenants hold or have in reserve.
fn others(sets: [u64; 8], c: Scope, n: usize, h: usize) -> u32
    requires { n ≤ 8 }
    ensures { (result ≡ sum_to (except h (committed c (count_at sets))) n) × (result ≤ 255 * n) }
{
    let mut sum: u32 = 0;
    for g in 0..n {
        sum += committed_other(sets[g], c.reserve[g], g, h);
    }
    sum
}

// The addresses that are somebody's.
fn taken(sets: [u64; 8]) -> u64
    ensures { result ≡ union_all sets }
{
    sets.iter().fold(0, |all, m| all | *m)
}

// The tenant's addresses that are free in the period.
fn free(own: TenantLeases, sets: [u64; 8], a: Ask) -> u64
    requires { a.tenant < 8 }
    ensures { result ≡ free_in sets (in_use own) a }
{
    address_set::difference(sets[a.tenant], state::busy(own, a.scope, a.from, a.to))
}

// The addresses that are nobody's.
fn nobodys(sets: [u64; 8], c: Scope) -> u64
    ensures { result ≡ difference_of (pool_of c) (union_all sets) }
{
    address_set::difference(address_set::first_n(c.size), taken(sets))
}

// A number of the settings as one of the rule's; that it is below 256 keeps the rule's sums from overflowing.
// Stays: with `u32::from` in `numbers` that bound didn't come out of the scope's type, and the proof didn't close.
fn octet(x: u8) -> u32
    ensures { (result ≡ x) × (result < 256) }
{
    u32::from(x)
}

fn numbers(sets: [u64; 8], c: Scope, n: usize, h: usize, free: u64) -> GrantNumbers
    requires { (h < n) × (n ≤ 8) }
    ensures { Numbered c n sets h free result }
{
    GrantNumbers {
        held: address_set::count(sets[h]),
        free: address_set::count(free),
        reserve: octet(c.reserve[h]),
        limit: octet(c.limit[h]),
        others: others(sets, c, n, h),
        size: octet(c.size),
    }
}

// The first pass of the choice: the lowest of the f, up to k.
fn lowest_own(free: u64, k: u32) -> u64
    ensures { result ≡ lowest_of free k }
{
    address_set::lowest(free, u64::from(k))
}

// The second pass: the lowest that are nobody's, up to m.
fn lowest_new(nobodys: u64, m: u32) -> u64
    ensures { result ≡ lowest_of nobodys m }
{
    address_set::lowest(nobodys, u64::from(m))
}

// Which addresses, where k are given: "the lowest of the f, then the lowest that are nobody's". `free` are the f, and f is how many they are;
// m, the number of new ones, is k - f, or 0 if f is larger. `|` joins what the two passes took.
fn choose(free: u64, nobodys: u64, k: u32) -> u64
    ensures { result ≡ set_of (chosen k free nobodys) }
{
    let own = lowest_own(free, k);
    let f = address_set::count(free);
    let m = k.saturating_sub(f);
    let new = lowest_new(nobodys, m);
    own | new
}

// The grant of n tenants' rule to one of them: the largest allowed number up to the desired one, and its addresses.
fn grant_known(own: TenantLeases, held: HeldTable, c: Scope, n: usize, a: Ask) -> Grant
    requires { (a.tenant < n) × (n ≤ 8) }
    ensures { result ≡ grant_known (in_use own) held c n a }
{
    let sets = sets_in(held, a.scope);
    let own_free = free(own, sets, a);
    let l = numbers(sets, c, n, a.tenant, own_free);
    let k = most(l, u32::from(a.desired));
    let new = nobodys(sets, c);
    let m = choose(own_free, new, k);
    Grant {
        number: k,
        addresses: m,
    }
}

// The same for any tenant: an unknown one is granted nothing. Where `own` are the tenant's records in a sound book and `held` is what all its
// tenants hold, this is the rule over all leases of the book (`grant_in_law` in specs/laws/View.antt).
pub fn granted(own: TenantLeases, held: HeldTable, c: Scope, n: usize, a: Ask) -> Grant
    ensures { result ≡ grant_in (in_use own) held c n a }
{
    let known = n.min(8);
    if a.tenant < known {
        return grant_known(own, held, c, known, a);
    }
    Grant {
        number: 0,
        addresses: 0,
    }
}

// Whether a grant is at least the least number.
pub fn enough(least: u16, g: Grant) -> bool
    ensures { result ≡ suffices least g }
{
    u32::from(least) <= g.number
}

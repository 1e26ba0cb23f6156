// What a lease would be that a message asks for: the period, newly granted or renewed; whether the message takes it, which is error 0; and what a message makes of a hold. `own` are the
// tenant's records and `held` is what all tenants hold.
#![tactic(auto)]

ghost use Rattle.std.specs.Prelude.{◌≡◌, ◌&&◌, not, ltb, take, ◌-◌, ◌+◌, min};
ghost use Rattle.state.specs.Book.{in_use, added_if, remove_of, busy_of, hold_time};
ghost use Rattle.allocation.specs.Rule.{suffices};
ghost use Rattle.proposal.specs.Proposals.{start_of, length_of, end_of, ask_at, fits_renewed, lease_from, turned, held_from, error0_of, too_short, too_late, meets, hold_meets, latest_end};
ghost use Rattle.proposal.specs.Gather.{new_by, other_in, new_at_in, new_in, renewed_to_in, renewed_in, proposal_in, brought_in};

use allocation::{Ask, Grant};
use message::{Fields, MessageType};
use soundness::HeldTable;
use state::{HOLD_TIME, Lease, State, TenantLeases};

// Document 01's "Numbers we buy by", in seconds: the length of a lease that names none, the longest lease, and how long after the clock a lease may start.
const DEFAULT_LEASE: u32 = 3600;

const LONGEST_LEASE: u32 = 604800;

const HORIZON: u64 = 2592000;
// The last second of the 32-bit clock.
const LATEST_END: u64 = 4294967295;

// What a lease would be, and whether it passes the test of error 0 that goes by its type.
#[derive(Clone, Copy)]
pub struct Proposal {
    pub fits: bool,
    pub scope: u8,
    pub start: u32,
    pub end: u64,
    pub addresses: u64,
}

fn cut_end(end: u64) -> u32
    ensures { result ≡ min end latest_end }
{
    end.min(LATEST_END) as u32
}

// When a hold lapses: thirty seconds after the clock, or at the period's end if that is sooner.
fn lapse_of(clock: u32, end: u32) -> u32
    ensures { result ≡ min (clock + hold_time) end }
{
    (u64::from(clock) + HOLD_TIME).min(u64::from(end)) as u32
}

fn start_of(m: Fields, clock: u32, old: u32) -> u32
    ensures { result ≡ start_of m clock old }
{
    m.times.start.unwrap_or(old).max(clock)
}

fn length_of(m: Fields, old: u32) -> u32
    ensures { result ≡ length_of m old }
{
    m.times.length.unwrap_or(old).min(LONGEST_LEASE)
}

fn end_of(m: Fields, from: u32, l: Lease) -> u64
    ensures { result ≡ end_of m from l }
{
    let n = length_of(m, l.end.saturating_sub(l.start));
    u64::from(from) + u64::from(n)
}

fn ask_at(s: State, h: usize, m: Fields, k: usize) -> Ask
    ensures { result ≡ ask_at s h m k }
{
    let start = start_of(m, s.clock, s.clock);
    let n = length_of(m, DEFAULT_LEASE);
    Ask {
        scope: admission::number_of(k),
        tenant: h,
        from: start,
        to: u64::from(start) + u64::from(n),
        desired: m.counts.desired,
    }
}

// Of 16 records, of which n are in use, one is left, and the grant is enough.
fn fits_new(n: usize, least: u16, g: Grant) -> bool
    ensures { result ≡ (ltb n 16 && suffices least g) }
{
    n < 16 && allocation::enough(least, g)
}

fn new_with(n: usize, least: u16, a: Ask, g: Grant) -> Proposal
    ensures { result ≡ new_by n least a g }
{
    Proposal {
        fits: fits_new(n, least, g),
        scope: a.scope,
        start: a.from,
        end: a.to,
        addresses: g.addresses,
    }
}

fn new_at(s: State, own: TenantLeases, held: HeldTable, h: usize, m: Fields, k: usize) -> Proposal
    ensures { result ≡ new_at_in s (in_use own) held h m k }
{
    let c = state::scope_at(s, k);
    let a = ask_at(s, h, m, k);
    let n = usize::from(s.tenant_count).min(8);
    let g = allocation::granted(own, held, c, n, a);
    new_with(state::lease_count(own), m.counts.least, a, g)
}

// What a DISCOVER or REQUEST would newly get.
fn new_lease(s: State, own: TenantLeases, held: HeldTable, h: usize, m: Fields) -> Proposal
    ensures { result ≡ new_in s (in_use own) held h m }
{
    let k = admission::scope_place(s, m.scope.unwrap_or(0));
    new_at(s, own, held, h, m, k)
}

// The addresses gathered so far, with those of one more lease if it has another identifier, is in the scope and overlaps the period.
fn add_other(sum: u64, l: Lease, id: [u8; 32], len: u8, scope: u8, from: u32, to: u64) -> u64
    ensures { result ≡ added_if (other_in (take len id) scope from to) sum l }
{
    if !state::is_named(l, id, len) && l.scope == scope && state::overlapping(l, from, to) {
        return sum | l.addresses;
    }
    sum
}

// The addresses of a scope that the tenant's other leases than that of an identifier use in a period.
fn others_busy(own: TenantLeases, id: [u8; 32], len: u8, scope: u8, from: u32, to: u64) -> u64
    ensures { result ≡ busy_of scope from to (remove_of (take len id) (in_use own)) }
{
    let mut sum: u64 = 0;
    let n = own.count.min(16);
    for i in 0..n {
        sum = add_other(sum, own.leases[i], id, len, scope, from, to);
    }
    sum
}

fn fits_renewed(used: u64, mine: u64) -> bool
    ensures { result ≡ fits_renewed used mine }
{
    used & mine == 0
}

fn renewed_to(own: TenantLeases, m: Fields, l: Lease, from: u32, to: u64) -> Proposal
    ensures { result ≡ renewed_to_in (in_use own) m l from to }
{
    let used = others_busy(own, m.id.octets, m.id.len, l.scope, from, to);
    Proposal {
        fits: fits_renewed(used, l.addresses),
        scope: l.scope,
        start: from,
        end: to,
        addresses: l.addresses,
    }
}

// What a RENEW would make of a lease, that which the tenant holds under the message's identifier.
fn renewed(s: State, own: TenantLeases, m: Fields, l: Lease) -> Proposal
    ensures { result ≡ renewed_in s (in_use own) m l }
{
    let from = start_of(m, s.clock, l.start);
    let to = end_of(m, from, l);
    renewed_to(own, m, l, from, to)
}

pub fn propose(
    s: State,
    own: TenantLeases,
    held: HeldTable,
    h: usize,
    m: Fields,
    l: Lease,
) -> Proposal
    ensures { result ≡ proposal_in s (in_use own) held h m l }
{
    if admission::is_new(m) {
        return new_lease(s, own, held, h, m);
    }
    renewed(s, own, m, l)
}

pub fn lease_from(m: Fields, p: Proposal) -> Lease
    ensures { result ≡ lease_from m p }
{
    let end = cut_end(p.end);
    let i = m.id;
    let octets = i.octets;
    Lease {
        scope: p.scope,
        id_len: i.len,
        id: octets,
        kind: m.kind,
        xid: m.xid,
        start: p.start,
        end: end,
        addresses: p.addresses,
        lapse: 0,
    }
}

// The lease that a hold becomes.
pub fn turn(m: Fields, old: Lease) -> Lease
    ensures { result ≡ turned m old }
{
    let mut now = old;
    now.kind = MessageType::REQUEST;
    now.xid = m.xid;
    now.lapse = 0;
    now
}

// The hold that an offer leaves.
pub fn hold_from(clock: u32, l: Lease) -> Lease
    ensures { result ≡ held_from clock l }
{
    let mut now = l;
    now.lapse = lapse_of(clock, l.end);
    now
}

// The records of the tenant that a message brings to the grant rule: without the hold that it drops.
pub fn brought(own: TenantLeases, m: Fields, old: Option<Lease>) -> TenantLeases
    ensures { in_use result ≡ brought_in (in_use own) m old }
{
    if admission::drops_hold(m, old) {
        return state::remove(own, m.id.octets, m.id.len);
    }
    own
}

// ---- whether the message takes it

// Whether a length is below the least that the message takes.
fn too_short(m: Fields, length: u64) -> bool
    ensures { result ≡ too_short m length }
{
    m.times
        .shortest
        .is_some_and(|shortest| length < u64::from(shortest))
}

// Whether a start is after the latest that the message takes.
fn too_late(m: Fields, start: u32) -> bool
    ensures { result ≡ too_late m start }
{
    m.times.latest.is_some_and(|latest| latest < start)
}

// Whether a start and a length are such as the message takes.
fn meets_wishes(m: Fields, start: u32, length: u64) -> bool
    ensures { result ≡ meets m start length }
{
    !too_short(m, length) && !too_late(m, start)
}

// Whether a hold has the addresses and the period that the message takes.
pub fn hold_meets(m: Fields, old: Lease) -> bool
    ensures { result ≡ hold_meets m old }
{
    u32::from(m.counts.least) <= address_set::count(old.addresses)
        && meets_wishes(m, old.start, u64::from(old.end.saturating_sub(old.start)))
}

fn length_in(p: Proposal) -> u64
    ensures { result ≡ p.end - p.start }
{
    p.end.saturating_sub(u64::from(p.start))
}

fn is_unmet(m: Fields, p: Proposal) -> bool
    ensures { result ≡ not (meets m p.start (p.end - p.start)) }
{
    let n = length_in(p);
    !meets_wishes(m, p.start, n)
}

pub fn error_0(s: State, m: Fields, p: Proposal) -> bool
    ensures { result ≡ error0_of s m p }
{
    u64::from(s.clock) + HORIZON < u64::from(p.start)
        || LATEST_END < p.end
        || is_unmet(m, p)
        || !p.fits
}

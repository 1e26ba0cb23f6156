// Document 01's tests after test 7 that come before what a lease would be: Resend and errors 1, 2 and 3; document 02's of a RELEASE sent again and of a hold; and which of them ask for the
// identifier's record.
#![tactic(auto)]

ghost use Rattle.std.specs.Prelude.{◌≡◌, not, ◌&&◌, ◌||◌, eqb, ◌+◌, min};
ghost use Rattle.state.specs.Book.{remembered};
ghost use Rattle.admission.specs.Tests.{is_new, has_period, resends, released_again, scope_place, knows_scope, lacks_scope, zero_length, bad_counts, lacks_current, early1_of, is_leased, is_held, same_scope, held_already, skewed, error2_of, error3_of, latest_first, is_for_hold, drops_hold, dropped_of, asks_resend, asks_identifier};

use message::{Fields, MessageType};
use state::{Lease, State, TenantReleases};

// Document 01's "Numbers we buy by", in seconds: how far Current Time may be from the clock.
const SKEW: u32 = 1800;

// A scope's number: its place, counted from 1.
pub fn number_of(k: usize) -> u8
    ensures { result ≡ min k 4 + 1 }
{
    k.min(4) as u8 + 1
}

// DISCOVER or REQUEST.
pub fn is_new(m: Fields) -> bool
    ensures { result ≡ is_new m }
{
    m.kind == MessageType::DISCOVER || m.kind == MessageType::REQUEST
}

pub fn has_period(m: Fields) -> bool
    ensures { result ≡ has_period m }
{
    is_new(m) || m.kind == MessageType::RENEW
}

// Whether the resend test asks for the identifier's record: a REQUEST or RENEW.
pub fn asks_resend(m: Fields) -> bool
    ensures { result ≡ asks_resend m }
{
    m.kind == MessageType::REQUEST || m.kind == MessageType::RENEW
}

fn needs_lease(m: Fields) -> bool
    ensures { result ≡ (eqb m.kind 4 || eqb m.kind 7) }
{
    m.kind == MessageType::RENEW || m.kind == MessageType::RELEASE
}

fn same_message(m: Fields, l: Lease) -> bool
    ensures { result ≡ (eqb l.kind m.kind && eqb l.xid m.xid) }
{
    l.kind == m.kind && l.xid == m.xid
}

pub fn is_resend(m: Fields, l: Lease) -> bool
    ensures { result ≡ resends m l }
{
    asks_resend(m) && same_message(m, l)
}

// Whether a RELEASE is one of those that are remembered of the tenant, less than 300 seconds ago.
pub fn is_released_again(s: State, q: TenantReleases, m: Fields) -> bool
    ensures { result ≡ released_again s (remembered q) m }
{
    m.kind == MessageType::RELEASE && releases::any_again(q, s.clock, m.id.octets, m.id.len, m.xid)
}

// The place of the scope with a lowest address; the number of scopes where there is none.
pub fn scope_place(s: State, lowest: u32) -> usize
    ensures { result ≡ scope_place s lowest }
{
    let n = usize::from(s.scope_count).min(4);
    s.scopes[..n]
        .iter()
        .position(|c| c.lowest == lowest)
        .unwrap_or(n)
}

fn knows_scope(s: State, m: Fields) -> bool
    ensures { result ≡ knows_scope s m }
{
    let n = usize::from(s.scope_count).min(4);
    m.scope.is_some_and(|lowest| scope_place(s, lowest) < n)
}

fn lacks_scope(s: State, m: Fields) -> bool
    ensures { result ≡ lacks_scope s m }
{
    is_new(m) && !knows_scope(s, m)
}

fn zero_length(m: Fields) -> bool
    ensures { result ≡ zero_length m }
{
    m.times.length.is_some_and(|length| length == 0)
}

fn bad_counts(m: Fields) -> bool
    ensures { result ≡ bad_counts m }
{
    m.counts.least == 0 || m.counts.desired < m.counts.least
}

fn lacks_current(m: Fields) -> bool
    ensures { result ≡ lacks_current m }
{
    (m.times.start.is_some() || m.times.latest.is_some()) && m.times.current.is_none()
}

// Whether the latest start is before the start, both as they are sent.
fn latest_first(m: Fields) -> bool
    ensures { result ≡ latest_first m }
{
    match (m.times.start, m.times.latest) {
        (Some(start), Some(latest)) => latest < start,
        _ => false,
    }
}

// Whether the record of an identifier, where there is one, is a lease.
fn is_leased(old: Option<Lease>) -> bool
    ensures { result ≡ is_leased old }
{
    old.is_some_and(|l| !state::is_hold(l))
}

// Whether it is a hold.
fn is_held(old: Option<Lease>) -> bool
    ensures { result ≡ is_held old }
{
    old.is_some_and(state::is_hold)
}

fn same_scope(s: State, m: Fields, old: Option<Lease>) -> bool
    ensures { result ≡ same_scope s m old }
{
    let number = number_of(scope_place(s, m.scope.unwrap_or(0)));
    old.is_some_and(|l| l.scope == number)
}

// A DISCOVER for a hold in another scope.
fn is_held_elsewhere(s: State, m: Fields, old: Option<Lease>) -> bool
    ensures { result ≡ (eqb m.kind 1 && (is_held old && not (same_scope s m old))) }
{
    m.kind == MessageType::DISCOVER && is_held(old) && !same_scope(s, m, old)
}

// A DISCOVER or REQUEST for a lease.
fn is_leased_already(m: Fields, old: Option<Lease>) -> bool
    ensures { result ≡ (is_new m && is_leased old) }
{
    is_new(m) && is_leased(old)
}

// The last test of error 1, which asks for the identifier's record.
pub fn is_held_already(s: State, m: Fields, old: Option<Lease>) -> bool
    ensures { result ≡ held_already s m old }
{
    is_leased_already(m, old) || is_held_elsewhere(s, m, old)
}

// What of error 1 does not ask for the identifier's record, and comes before it.
pub fn early_1(s: State, m: Fields) -> bool
    ensures { result ≡ early1_of s m }
{
    !m.allowed
        || lacks_scope(s, m)
        || zero_length(m)
        || bad_counts(m)
        || lacks_current(m)
        || latest_first(m)
}

fn is_skewed(a: u32, b: u32) -> bool
    ensures { result ≡ skewed a b }
{
    SKEW < a.abs_diff(b)
}

pub fn error_2(s: State, m: Fields) -> bool
    ensures { result ≡ error2_of s m }
{
    m.times.current.is_some_and(|time| is_skewed(time, s.clock))
}

// Whether error 1 or error 3 asks for the identifier's record: error 1 of a DISCOVER or REQUEST; error 3 of a RENEW or RELEASE, unless error 2 has ended the
// matter before it.
pub fn asks_identifier(s: State, m: Fields) -> bool
    ensures { result ≡ asks_identifier s m }
{
    is_new(m) || needs_lease(m) && !error_2(s, m)
}

pub fn error_3(m: Fields, old: Option<Lease>) -> bool
    ensures { result ≡ error3_of m old }
{
    needs_lease(m) && !is_leased(old)
}

// Whether a DISCOVER or REQUEST is for a hold in the same scope.
pub fn is_for_hold(s: State, m: Fields, old: Option<Lease>) -> bool
    ensures { result ≡ is_for_hold s m old }
{
    is_new(m) && is_held(old) && same_scope(s, m, old)
}

// Whether a REQUEST drops a hold, that in another scope.
pub fn drops_hold(m: Fields, old: Option<Lease>) -> bool
    ensures { result ≡ drops_hold m old }
{
    m.kind == MessageType::REQUEST && is_held(old)
}

// That hold, where it drops one.
pub fn dropped(m: Fields, old: Option<Lease>) -> Option<Lease>
    ensures { result ≡ dropped_of m old }
{
    if drops_hold(m, old) { old } else { None }
}

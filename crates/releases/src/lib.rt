// What is remembered of releases (document 02, W-202): one more, or none of an identifier; whether a RELEASE was answered before; and which rules of a
// sound book it keeps.
#![tactic(auto)]

mod rules;

ghost use Rattle.std.specs.Prelude.{◌≡◌, ◌≤◌, min, drop, take};
ghost use Rattle.std.specs.Option.{option_map_or};
ghost use Rattle.state.specs.Book.{id_of, in_use, laid_releases, other_release, remembered};
ghost use Rattle.state.specs.Edit.{forget_of, noted_in, remember_of};
ghost use Rattle.releases.specs.Again.{any_again, is_again};
ghost use Rattle.releases.specs.Rules.{both_rules, broken_release, first_release, memory_b, no_rules, release_rules_of, rules_at};

use crate::rules::check_tenant;
use state::{Edit, LeaseTable, Memory, Release, State, TenantLeases, TenantReleases};

// How long after a release it is answered again, in seconds.
pub const RESEND_TIME: u64 = 300;

// Rules 14 to 18 and the layout, each true where it holds.
#[derive(Clone, Copy)]
pub struct ReleaseRules {
    pub tenants: bool,
    pub few: bool,
    pub lengths: bool,
    pub once: bool,
    pub times: bool,
    pub layout: bool,
}

// ---- a RELEASE sent again

#[tactic(auto, unfolding(crate::specs::Again::is_again))]
fn is_again(r: Release, clock: u32, id: [u8; 32], len: u8, xid: u32) -> bool
    ensures { result ≡ is_again clock (take len id) xid r }
{
    r.xid == xid
        && u64::from(clock) < u64::from(r.time) + RESEND_TIME
        && identifier::same(r.id, r.id_len, id, len)
}

// Whether a RELEASE of an identifier with a transaction id is one that is remembered, less than 300 seconds ago.
pub fn any_again(q: TenantReleases, clock: u32, id: [u8; 32], len: u8, xid: u32) -> bool
    ensures { result ≡ any_again clock (take len id) xid (remembered q) }
{
    let n = q.count.min(4);
    for r in &q.releases[..n] {
        if is_again(*r, clock, id, len, xid) {
            return true;
        }
    }
    false
}

// ---- remembering and forgetting

fn is_other(r: Release, id: [u8; 32], len: u8) -> bool
    ensures { result ≡ other_release (take len id) r }
{
    !identifier::same(r.id, r.id_len, id, len)
}

// Those from a place on.
fn later(q: TenantReleases, from: usize) -> TenantReleases
    requires { from ≤ min q.count 4 }
    ensures { result ≡ laid_releases (drop from (remembered q)) }
{
    let n = q.count.min(4);
    let mut now = state::no_releases();
    let all = &q.releases[..n];
    for r in &all[from..] {
        now = state::push_release(now, *r);
    }
    now
}

// One release more; a fifth forgets the oldest.
pub fn remember(q: TenantReleases, r: Release) -> TenantReleases
    ensures { result ≡ laid_releases (remember_of r (remembered q)) }
{
    if q.count < 4 {
        return state::push_release(later(q, 0), r);
    }
    let last = later(q, 1);
    state::push_release(last, r)
}

// Those of other identifiers.
pub fn forget(q: TenantReleases, id: [u8; 32], len: u8) -> TenantReleases
    ensures { result ≡ laid_releases (forget_of (take len id) (remembered q)) }
{
    let n = q.count.min(4);
    let mut now = state::no_releases();
    for r in &q.releases[..n] {
        if is_other(*r, id, len) {
            now = state::push_release(now, *r);
        }
    }
    now
}

// What is left of it where a lease's identifier is forgotten.
fn forget_named(q: TenantReleases, e: Edit) -> TenantReleases
    ensures { result ≡ option_map_or (λ l. laid_releases (forget_of (id_of l) (remembered q))) e.forgets q }
{
    match e.forgets {
        Some(l) => forget(q, l.id, l.id_len),
        None => q,
    }
}

// What is remembered of a tenant after an edit.
pub fn note(q: TenantReleases, e: Edit) -> TenantReleases
    ensures { result ≡ noted_in e q }
{
    match e.remembers {
        Some(r) => remember(q, r),
        None => forget_named(q, e),
    }
}

// ---- the rules

// The rules of no tenant.
pub fn no_tenants() -> ReleaseRules
    ensures { result ≡ no_rules }
{
    ReleaseRules {
        tenants: true,
        few: true,
        lengths: true,
        once: true,
        times: true,
        layout: true,
    }
}

// The rules with those of one tenant more: h of n, counted from 0, whose leases are `own`.
pub fn add_tenant(
    a: ReleaseRules,
    n: usize,
    clock: u32,
    h: usize,
    own: TenantLeases,
    q: TenantReleases,
) -> ReleaseRules
    ensures { result ≡ both_rules a (rules_at n clock h (in_use own) q) }
{
    a.and(check_tenant(n, clock, h, own, q))
}

// Of rules 14 to 18, those that a file can break, the number of the first that is broken, or 0.
// Stays: the number of a rule is the product's answer (document 02, W-212), and `first_release` of specs/ is the clause that holds it; so in `first_broken`.
pub fn first_release(r: ReleaseRules) -> u8
    ensures { result ≡ first_release r }
{
    if !r.tenants {
        return 14;
    }
    if !r.few {
        return 15;
    }
    if !r.lengths {
        return 16;
    }
    if !r.once {
        return 17;
    }
    if !r.times {
        return 18;
    }
    0
}

// The number of the first rule that is broken, or 0; the layout, which only a book that is lent can break, comes last.
#[tactic(auto, unfolding(lists::specs::Pick::pick, crate::specs::Rules::broken_release))]
pub fn first_broken(r: ReleaseRules) -> u8
    ensures { result ≡ broken_release r }
{
    match first_release(r) {
        0 if r.layout => 0,
        0 => 19,
        n => n,
    }
}

// Which rules what is remembered keeps.
pub fn check_rules(s: State, table: LeaseTable, memory: Memory) -> ReleaseRules
    ensures { result ≡ release_rules_of s table memory }
{
    let n = usize::from(s.tenant_count).min(8);
    let mut all = no_tenants();
    for h in 0..8 {
        all = add_tenant(all, n, s.clock, h, table.tenants[h], memory.releases[h]);
    }
    all
}

// Whether what is remembered keeps every rule.
pub fn sound(s: State, table: LeaseTable, memory: Memory) -> bool
    ensures { result ≡ memory_b s table memory }
{
    first_broken(check_rules(s, table, memory)) == 0
}

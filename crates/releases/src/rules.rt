// Rules 14 to 18 of a sound book and the layout, tenant by tenant.
ghost use Rattle.std.specs.Prelude.{◌≡◌, drop};
ghost use Rattle.lists.specs.All.{all_by, pairs_by};
ghost use Rattle.soundness.specs.Sound.{zero_from};
ghost use Rattle.state.specs.Book.{in_use, other, release_id, remembered};
ghost use Rattle.releases.specs.Rules.{both_rules, differs, filled_b, tenant_b, laid_b, length_b, not_leased, older, once_b, past_b, rules_at, unused_r};

use crate::ReleaseRules;
use lists::{every, every_next, every_pair};
use state::{Lease, Release, TenantLeases, TenantReleases};

// ---- 14, a known tenant

#[tactic(auto, unfolding(crate::specs::Rules::tenant_b))]
fn tenant_ok(n: usize, h: usize, q: TenantReleases) -> bool
    ensures { result ≡ tenant_b n h q }
{
    h < n || q.count == 0
}

// ---- 16, the lengths of identifiers

#[tactic(auto, unfolding(crate::specs::Rules::length_b))]
fn length_ok(r: Release) -> bool
    ensures { result ≡ length_b r }
{
    2 <= r.id_len && r.id_len <= 32
}

fn lengths_ok(q: TenantReleases) -> bool
    ensures { result ≡ all_by length_b (remembered q) }
{
    let n = q.count.min(4);
    every(&q.releases[..n], |r| length_ok(*r))
}

// ---- 17, no identifier twice

#[tactic(auto, unfolding(crate::specs::Rules::differs))]
fn ids_differ(a: Release, b: Release) -> bool
    ensures { result ≡ differs a b }
{
    !identifier::same(a.id, a.id_len, b.id, b.id_len)
}

fn all_differ(q: TenantReleases) -> bool
    ensures { result ≡ pairs_by differs (remembered q) }
{
    let n = q.count.min(4);
    every_pair(&q.releases[..n], |a, b| ids_differ(*a, *b))
}

fn not_on(l: Lease, r: Release) -> bool
    ensures { result ≡ other (release_id r) l }
{
    !state::is_named(l, r.id, r.id_len)
}

#[tactic(auto, unfolding(crate::specs::Rules::not_leased))]
fn not_leased(own: TenantLeases, r: Release) -> bool
    ensures { result ≡ not_leased (in_use own) r }
{
    let n = own.count.min(16);
    every(&own.leases[..n], |l| not_on(*l, r))
}

fn none_leased(own: TenantLeases, q: TenantReleases) -> bool
    ensures { result ≡ all_by (not_leased (in_use own)) (remembered q) }
{
    let n = q.count.min(4);
    every(&q.releases[..n], |r| not_leased(own, *r))
}

#[tactic(auto, unfolding(crate::specs::Rules::once_b))]
fn once_ok(own: TenantLeases, q: TenantReleases) -> bool
    ensures { result ≡ once_b (in_use own) q }
{
    all_differ(q) && none_leased(own, q)
}

// ---- 18, no time after the clock

#[tactic(auto, unfolding(crate::specs::Rules::past_b))]
fn is_past(clock: u32, r: Release) -> bool
    ensures { result ≡ past_b clock r }
{
    r.time <= clock
}

fn times_ok(clock: u32, q: TenantReleases) -> bool
    ensures { result ≡ all_by (past_b clock) (remembered q) }
{
    let n = q.count.min(4);
    every(&q.releases[..n], |r| is_past(clock, *r))
}

// ---- 19, the layout

#[tactic(auto, unfolding(crate::specs::Rules::older))]
fn is_older(a: Release, b: Release) -> bool
    ensures { result ≡ older a b }
{
    a.time <= b.time
}

// Times do not fall where none is after the next.
fn in_order(q: TenantReleases) -> bool
    ensures { result ≡ pairs_by older (remembered q) }
{
    let n = q.count.min(4);
    every_next(&q.releases[..n], |a, b| is_older(*a, *b))
}

fn is_filled(r: Release) -> bool
    ensures { result ≡ filled_b r }
{
    let n = usize::from(r.id_len).min(32);
    every(&r.id[n..], |x| *x == 0)
}

fn all_filled(q: TenantReleases) -> bool
    ensures { result ≡ all_by filled_b (remembered q) }
{
    let n = q.count.min(4);
    every(&q.releases[..n], |r| is_filled(*r))
}

// Whether all octets are 0, eight by eight, since every entry that is not used has it.
fn is_zero(id: [u8; 32]) -> bool
    ensures { result ≡ zero_from 0 id }
{
    (identifier::word(id, 0) == 0)
        & (identifier::word(id, 8) == 0)
        & (identifier::word(id, 16) == 0)
        & (identifier::word(id, 24) == 0)
}

#[tactic(auto, unfolding(crate::specs::Rules::unused_r))]
fn is_unused(r: Release) -> bool
    ensures { result ≡ unused_r r }
{
    r.id_len == 0 && r.xid == 0 && r.time == 0 && is_zero(r.id)
}

fn rest_unused(q: TenantReleases) -> bool
    ensures { result ≡ all_by unused_r (drop q.count q.releases) }
{
    let n = q.count.min(4);
    every(&q.releases[n..], |r| is_unused(*r))
}

#[tactic(auto, unfolding(crate::specs::Rules::laid_b))]
fn laid_ok(q: TenantReleases) -> bool
    ensures { result ≡ laid_b q }
{
    in_order(q) && all_filled(q) && rest_unused(q)
}

// ---- all of them

// Of a tenant of whom something is remembered, or anybody.
#[tactic(auto, unfolding(crate::specs::Rules::few_b, crate::specs::Rules::rules_at))]
fn check_some(n: usize, clock: u32, h: usize, own: TenantLeases, q: TenantReleases) -> ReleaseRules
    ensures { result ≡ rules_at n clock h (in_use own) q }
{
    ReleaseRules {
        tenants: tenant_ok(n, h, q),
        few: q.count <= 4,
        lengths: lengths_ok(q),
        once: once_ok(own, q),
        times: times_ok(clock, q),
        layout: laid_ok(q),
    }
}

// Tenant h of n, counted from 0, whose leases are `own`. Of most tenants nothing is remembered: then only the zeros are looked at.
pub fn check_tenant(
    n: usize,
    clock: u32,
    h: usize,
    own: TenantLeases,
    q: TenantReleases,
) -> ReleaseRules
    ensures { result ≡ rules_at n clock h (in_use own) q }
{
    if q.count == 0 {
        return ReleaseRules {
            tenants: true,
            few: true,
            lengths: true,
            once: true,
            times: true,
            layout: rest_unused(q),
        };
    }
    check_some(n, clock, h, own, q)
}

impl ReleaseRules {
    #[tactic(auto, unfolding(crate::specs::Rules::both_rules))]
    pub fn and(self, x: ReleaseRules) -> ReleaseRules
        ensures { result ≡ both_rules self x }
    {
        ReleaseRules {
            tenants: self.tenants & x.tenants,
            few: self.few & x.few,
            lengths: self.lengths & x.lengths,
            once: self.once & x.once,
            times: self.times & x.times,
            layout: self.layout & x.layout,
        }
    }
}

// The rules on the settings: 1, 3, 4, 5, 6 and the unused entries.
ghost use Rattle.std.specs.Prelude.{◌≡◌, ◌&&◌, ◌+◌, ◌<◌, ◌≤◌, drop};
ghost use Rattle.lists.specs.All.{all_by, pairs_by, all_to};
ghost use Rattle.lists.specs.Sums.{sum_to};
ghost use Rattle.state.specs.Book.{ranges_of, scopes_of, reserve_at};
ghost use Rattle.soundness.specs.Sound.{one_to, range_b, ranges_apart, rule3, pool_b, pools_apart, reserve_b, reserves_b, range_zero, tail_b, scope_zero};
ghost use Rattle.soundness.specs.Parts.{scope_rules_of, and_scopes, scopes_all, settings_rules_of};

use crate::numbers::{is_one_to, zeros};
use crate::{ScopeRules, SettingsRules};
use lists::{every, every_pair};
use state::{ClientRange, Scope, State};

#[tactic(auto, unfolding(crate::specs::Sound::range_b))]
fn range_ok(r: ClientRange) -> bool
    ensures { result ≡ range_b r }
{
    r.low <= r.high
}

fn ranges_ok(s: State) -> bool
    ensures { result ≡ all_by range_b (ranges_of s) }
{
    let n = usize::from(s.tenant_count).min(8);
    every(&s.tenants[..n], |r| range_ok(*r))
}

#[tactic(auto, unfolding(crate::specs::Sound::ranges_apart))]
fn ranges_apart(a: ClientRange, b: ClientRange) -> bool
    ensures { result ≡ ranges_apart a b }
{
    a.high < b.low || b.high < a.low
}

fn ranges_all_apart(s: State) -> bool
    ensures { result ≡ pairs_by ranges_apart (ranges_of s) }
{
    let n = usize::from(s.tenant_count).min(8);
    every_pair(&s.tenants[..n], |a, b| ranges_apart(*a, *b))
}

#[tactic(auto, unfolding(crate::specs::Sound::rule3))]
fn rule_3(s: State) -> bool
    ensures { result ≡ rule3 s }
{
    ranges_ok(s) && ranges_all_apart(s)
}

// One past the last address of a scope.
fn pool_end(c: Scope) -> u64
    ensures { result ≡ c.lowest + c.size }
{
    u64::from(c.lowest) + u64::from(c.size)
}

#[tactic(auto, unfolding(crate::specs::Sound::pool_b))]
fn pool_ok(c: Scope) -> bool
    ensures { result ≡ pool_b c }
{
    3758096384 <= c.lowest && pool_end(c) <= 4026531840
}

#[tactic(auto, unfolding(crate::specs::Sound::pools_apart))]
fn pools_apart(a: Scope, b: Scope) -> bool
    ensures { result ≡ pools_apart a b }
{
    pool_end(a) <= u64::from(b.lowest) || pool_end(b) <= u64::from(a.lowest)
}

fn pools_all_apart(s: State) -> bool
    ensures { result ≡ pairs_by pools_apart (scopes_of s) }
{
    let n = usize::from(s.scope_count).min(4);
    every_pair(&s.scopes[..n], |a, b| pools_apart(*a, *b))
}

#[tactic(auto, unfolding(crate::specs::Sound::reserve_b))]
fn reserve_ok(c: Scope, g: usize) -> bool
    requires { g < 8 }
    ensures { result ≡ reserve_b c g }
{
    c.reserve[g] <= c.limit[g] && c.limit[g] <= c.size
}

fn each_reserve_ok(n: usize, c: Scope) -> bool
    requires { n ≤ 8 }
    ensures { result ≡ all_to (reserve_b c) n }
{
    for g in 0..n {
        if !reserve_ok(c, g) {
            return false;
        }
    }
    true
}

fn reserves(n: usize, c: Scope) -> u32
    requires { n ≤ 8 }
    ensures { result ≡ sum_to (reserve_at c) n }
{
    let mut sum = 0;
    for g in 0..n {
        sum += u32::from(c.reserve[g]);
    }
    sum
}

#[tactic(auto, unfolding(crate::specs::Sound::reserves_b))]
fn reserves_ok(n: usize, c: Scope) -> bool
    requires { n ≤ 8 }
    ensures { result ≡ reserves_b n c }
{
    each_reserve_ok(n, c) && reserves(n, c) <= u32::from(c.size)
}

#[tactic(auto, unfolding(crate::specs::Sound::tail_b))]
fn tail_ok(n: usize, c: Scope) -> bool
    ensures { result ≡ tail_b n c }
{
    zeros(n, &c.reserve) && zeros(n, &c.limit)
}

#[tactic(auto, unfolding(crate::specs::Parts::scope_rules_of, crate::specs::Sound::size_b, crate::specs::Sound::ttl_b))]
fn scope_rules(n: usize, c: Scope) -> ScopeRules
    requires { n ≤ 8 }
    ensures { result ≡ scope_rules_of n c }
{
    ScopeRules {
        sizes: is_one_to(64, c.size),
        pools: pool_ok(c),
        ttls: 0 < c.ttl,
        reserves: reserves_ok(n, c),
        tails: tail_ok(n, c),
    }
}

#[tactic(auto, unfolding(crate::specs::Parts::and_scopes, crate::specs::Parts::scope_rules_of))]
fn and_scopes(n: usize, a: ScopeRules, c: Scope) -> ScopeRules
    requires { n ≤ 8 }
    ensures { result ≡ and_scopes n a c }
{
    let x = scope_rules(n, c);
    ScopeRules {
        sizes: a.sizes & x.sizes,
        pools: a.pools & x.pools,
        ttls: a.ttls & x.ttls,
        reserves: a.reserves & x.reserves,
        tails: a.tails & x.tails,
    }
}

fn scopes_rules(s: State, n: usize) -> ScopeRules
    requires { n ≤ 8 }
    ensures { result ≡ scopes_all n (scopes_of s) }
{
    let mut all = ScopeRules {
        sizes: true,
        pools: true,
        ttls: true,
        reserves: true,
        tails: true,
    };
    let m = usize::from(s.scope_count).min(4);
    for c in &s.scopes[..m] {
        all = and_scopes(n, all, *c);
    }
    all
}

#[tactic(auto, unfolding(crate::specs::Sound::range_zero))]
fn range_unused(r: ClientRange) -> bool
    ensures { result ≡ range_zero r }
{
    r.low == 0 && r.high == 0
}

fn ranges_unused(s: State, n: usize) -> bool
    requires { n ≤ 8 }
    ensures { result ≡ all_by range_zero (drop n s.tenants) }
{
    every(&s.tenants[n..], |r| range_unused(*r))
}

#[tactic(auto, unfolding(crate::specs::Sound::scope_zero))]
fn scope_unused(c: Scope) -> bool
    ensures { result ≡ scope_zero c }
{
    c.lowest == 0 && c.size == 0 && c.ttl == 0 && tail_ok(0, c)
}

fn scopes_unused(s: State, m: usize) -> bool
    requires { m ≤ 4 }
    ensures { result ≡ all_by scope_zero (drop m s.scopes) }
{
    every(&s.scopes[m..], |c| scope_unused(*c))
}

fn counts_ok(s: State, sizes: bool) -> bool
    ensures { result ≡ (one_to 8 s.tenant_count && (one_to 4 s.scope_count && sizes)) }
{
    is_one_to(8, s.tenant_count) && is_one_to(4, s.scope_count) && sizes
}

fn unused_ok(s: State, n: usize, m: usize, tails: bool) -> bool
    requires { (n ≤ 8) × (m ≤ 4) }
    ensures { result ≡ (all_by range_zero (drop n s.tenants) && (all_by scope_zero (drop m s.scopes) && tails)) }
{
    ranges_unused(s, n) && scopes_unused(s, m) && tails
}

pub fn settings_rules(s: State) -> SettingsRules
    ensures { result ≡ settings_rules_of s }
{
    let n = usize::from(s.tenant_count).min(8);
    let m = usize::from(s.scope_count).min(4);
    let c = scopes_rules(s, n);
    SettingsRules {
        counts: counts_ok(s, c.sizes),
        ranges: rule_3(s),
        pools: c.pools & pools_all_apart(s),
        ttls: c.ttls,
        reserves: c.reserves,
        unused: unused_ok(s, n, m, c.tails),
    }
}

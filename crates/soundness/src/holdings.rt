// The rules on what the tenants hold: 7, 9, 11 and 12.
ghost use Rattle.std.specs.Prelude.{◌≡◌, ◌<◌, ◌≤◌, max, leb, drop};
ghost use Rattle.lists.specs.All.{all_by, pairs_by, all_to};
ghost use Rattle.state.specs.Book.{reserve_at, limit_at, committed_sum};
ghost use Rattle.soundness.specs.Parts.{added_sets, apart_sets, size_in, count_in, limit_in, limits_in, committed_in, none_h, holding_rules_in};

use crate::numbers::sets_apart;
use crate::{Held, HeldTable, HoldingRules, LoadRules, ScopeLoad};
use lists::{every, every_pair};
use state::{Lease, Scope, State};

pub fn add_sets(h: Held, l: Lease) -> Held
    ensures { result ≡ added_sets h l }
{
    let [a, b, c, d] = h.sets;
    Held {
        sets: [
            state::add_held(a, l, 1),
            state::add_held(b, l, 2),
            state::add_held(c, l, 3),
            state::add_held(d, l, 4),
        ],
        count: h.count,
        first_end: h.first_end.min(state::until_of(l)),
    }
}

#[tactic(auto, unfolding(crate::specs::Parts::apart_sets))]
fn held_apart(a: Held, b: Held) -> bool
    ensures { result ≡ apart_sets a b }
{
    sets_apart(a.sets[0], b.sets[0])
        && sets_apart(a.sets[1], b.sets[1])
        && sets_apart(a.sets[2], b.sets[2])
        && sets_apart(a.sets[3], b.sets[3])
}

fn all_held_apart(h: HeldTable) -> bool
    ensures { result ≡ pairs_by apart_sets h.tenants }
{
    every_pair(&h.tenants, |a, b| held_apart(*a, *b))
}

fn count_in(t: Held, k: usize) -> u32
    requires { k < 4 }
    ensures { (result ≡ size_in t k) × (result ≤ 64) }
{
    address_set::count(t.sets[k])
}

fn limit_ok(d: u32, c: Scope, g: usize) -> bool
    requires { g < 8 }
    ensures { result ≡ leb d (limit_at c g) }
{
    d <= u32::from(c.limit[g])
}

fn committed(d: u32, c: Scope, g: usize) -> u32
    requires { (g < 8) × (d ≤ 64) }
    ensures { (result ≡ max d (reserve_at c g)) × (result < 256) }
{
    d.max(u32::from(c.reserve[g]))
}

fn scope_load(h: HeldTable, c: Scope, k: usize, n: usize) -> ScopeLoad
    requires { (n ≤ 8) × (k < 4) }
    ensures { (result.within ≡ all_to (limit_in h c k) n) × (result.sum ≡ committed_sum c n (count_in h k)) }
{
    let mut within = true;
    let mut sum = 0;
    for g in 0..n {
        let d = count_in(h.tenants[g], k);
        within &= limit_ok(d, c, g);
        sum += committed(d, c, g);
    }
    ScopeLoad { within, sum }
}

fn has_room(c: Scope, sum: u32) -> bool
    ensures { result ≡ leb sum c.size }
{
    sum <= u32::from(c.size)
}

fn load_rules(s: State, h: HeldTable, n: usize, m: usize) -> LoadRules
    requires { (n ≤ 8) × (m ≤ 4) }
    ensures { (result.holdings ≡ all_to (limits_in s h n) m) × (result.commitments ≡ all_to (committed_in s h n) m) }
{
    let mut holdings = true;
    let mut commitments = true;
    for k in 0..m {
        let c = state::scope_at(s, k);
        let load = scope_load(h, c, k, n);
        holdings &= load.within;
        commitments &= has_room(c, load.sum);
    }
    LoadRules {
        holdings,
        commitments,
    }
}

#[tactic(auto, unfolding(crate::specs::Parts::none_h))]
fn has_none(h: Held) -> bool
    ensures { result ≡ none_h h }
{
    h.count == 0
}

fn rest_none(h: HeldTable, n: usize) -> bool
    requires { n ≤ 8 }
    ensures { result ≡ all_by none_h (drop n h.tenants) }
{
    every(&h.tenants[n..], |x| has_none(*x))
}

pub fn holding_rules(s: State, h: HeldTable) -> HoldingRules
    ensures { result ≡ holding_rules_in s h }
{
    let n = usize::from(s.tenant_count).min(8);
    let m = usize::from(s.scope_count).min(4);
    let load = load_rules(s, h, n, m);
    HoldingRules {
        tenants: rest_none(h, n),
        owners: all_held_apart(h),
        holdings: load.holdings,
        commitments: load.commitments,
    }
}

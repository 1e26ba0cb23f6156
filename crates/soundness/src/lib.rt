// Whether a book of any contents is sound, and the number of the first rule of document 01 that it breaks.
#![tactic(auto)]

mod gather;
mod holdings;
mod leases;
mod numbers;
mod records;
mod settings;
mod tenants;

ghost use Rattle.std.specs.Prelude.{◌≡◌, ◌<◌};
ghost use Rattle.soundness.specs.Sound.{rules_of, first_late, first_rule, first_broken, broken_of, sound_b, unused_b};
ghost use Rattle.soundness.specs.Parts.{held_sets, table_rules_of, joined_rules, no_tenants, pool_in, pools_of, added_tenant, rules_from, sound_from};

use crate::holdings::{add_sets, holding_rules};
use crate::records::is_unused;
use crate::settings::settings_rules;
use crate::tenants::check_tenant;
use state::{Lease, LeaseTable, State, TenantLeases};

// Document 01's rules 1 to 12, document 02's on holds and the layout, each true where it holds. Of `offsets` a lease in an unknown scope is left to `leases`; of
// `periods` two tenants on one address are left to `owners`.
#[derive(Clone, Copy)]
pub struct Rules {
    pub limits: bool,
    pub offsets: bool,
    pub ranges: bool,
    pub pools: bool,
    pub ttls: bool,
    pub reserves: bool,
    pub leases: bool,
    pub identifiers: bool,
    pub owners: bool,
    pub periods: bool,
    pub holdings: bool,
    pub commitments: bool,
    pub holds: bool,
    pub layout: bool,
}

// The rules that go scope by scope.
#[derive(Clone, Copy)]
struct ScopeRules {
    sizes: bool,
    pools: bool,
    ttls: bool,
    reserves: bool,
    tails: bool,
}

// The rules that go tenant by tenant.
#[derive(Clone, Copy)]
pub struct TenantRules {
    pub records: bool,
    pub offsets: bool,
    pub leases: bool,
    pub holds: bool,
    pub identifiers: bool,
    pub periods: bool,
    pub layout: bool,
}

// The rules on the settings alone.
#[derive(Clone, Copy)]
struct SettingsRules {
    counts: bool,
    ranges: bool,
    pools: bool,
    ttls: bool,
    reserves: bool,
    unused: bool,
}

// What the tenants hold in one scope: whether each is within its limit, and the sum of the larger of holding and share.
#[derive(Clone, Copy)]
struct ScopeLoad {
    within: bool,
    sum: u32,
}

// The same in all scopes.
#[derive(Clone, Copy)]
struct LoadRules {
    holdings: bool,
    commitments: bool,
}

// The rules on what all tenants hold.
#[derive(Clone, Copy)]
struct HoldingRules {
    tenants: bool,
    owners: bool,
    holdings: bool,
    commitments: bool,
}

// A tenant's addresses, scope by scope, its number of records, and the earliest end of its leases or lapse of its holds:
// 4,294,967,295 where it has none.
#[derive(Clone, Copy)]
pub struct Held {
    pub sets: [u64; 4],
    pub count: usize,
    pub first_end: u32,
}

// What one loop over a tenant's leases gathers; `apart` where each is on addresses of its own.
#[derive(Clone, Copy)]
struct Gathered {
    ids: bool,
    offsets: bool,
    leases: bool,
    holds: bool,
    padded: bool,
    held: Held,
    apart: bool,
}

// What one pass over a tenant's records gives; `swift` where their ends rise.
#[derive(Clone, Copy)]
struct Pass {
    gathered: Gathered,
    swift: bool,
    unused: bool,
}

// One tenant's rules, and what it holds.
#[derive(Clone, Copy)]
struct Checked {
    rules: TenantRules,
    held: Held,
}

#[derive(Clone, Copy)]
pub struct HeldTable {
    pub tenants: [Held; 8],
}

#[derive(Clone, Copy)]
pub struct TableRules {
    pub rules: TenantRules,
    pub held: HeldTable,
}

// What a tenant holds.
pub fn held_sets(t: TenantLeases) -> Held
    ensures { result ≡ held_sets t }
{
    let mut held = Held {
        sets: [0; 4],
        count: t.count,
        first_end: u32::MAX,
    };
    let n = t.count.min(16);
    for l in &t.leases[..n] {
        held = add_sets(held, *l);
    }
    held
}

// The rules of no tenant.
#[tactic(auto, unfolding(crate::specs::Parts::no_tenants))]
pub fn no_tenants() -> TableRules
    ensures { result ≡ no_tenants }
{
    let none = Held {
        sets: [0; 4],
        count: 0,
        first_end: u32::MAX,
    };
    TableRules {
        rules: TenantRules {
            records: true,
            offsets: true,
            leases: true,
            holds: true,
            identifiers: true,
            periods: true,
            layout: true,
        },
        held: HeldTable { tenants: [none; 8] },
    }
}

fn pool_of(s: State, k: usize) -> u64
    ensures { result ≡ pool_in s k }
{
    address_set::first_n(state::scope_at(s, k).size)
}

// Each scope's whole pool as a set.
#[tactic(auto, unfolding(crate::specs::Parts::pools_of))]
pub fn pools_of(s: State) -> [u64; 4]
    ensures { result ≡ pools_of s }
{
    [pool_of(s, 0), pool_of(s, 1), pool_of(s, 2), pool_of(s, 3)]
}

// The rules with one tenant more, counted from 0.
pub fn add_tenant(s: State, pools: [u64; 4], c: TableRules, i: usize, t: TenantLeases) -> TableRules
    requires { (pools ≡ pools_of s) × (i < 8) }
    ensures { result ≡ added_tenant s c i t }
{
    let one = check_tenant(s, pools, t);
    let mut held = c.held;
    held.tenants[i] = one.held;
    TableRules {
        rules: c.rules.and(one.rules),
        held,
    }
}

// One pass over the tenants.
fn table_rules(s: State, table: LeaseTable) -> TableRules
    ensures { result ≡ table_rules_of s table }
{
    let pools = pools_of(s);
    let mut all = no_tenants();
    for (i, t) in table.tenants.iter().enumerate() {
        all = add_tenant(s, pools, all, i, *t);
    }
    all
}

#[tactic(auto, unfolding(crate::specs::Parts::joined_rules))]
fn join_rules(a: SettingsRules, b: TenantRules, c: HoldingRules) -> Rules
    ensures { result ≡ joined_rules a b c }
{
    Rules {
        limits: a.counts & b.records,
        offsets: b.offsets,
        ranges: a.ranges,
        pools: a.pools,
        ttls: a.ttls,
        reserves: a.reserves,
        leases: c.tenants & b.leases,
        identifiers: b.identifiers,
        owners: c.owners,
        periods: b.periods,
        holdings: c.holdings,
        commitments: c.commitments,
        holds: b.holds,
        layout: a.unused & b.layout,
    }
}

// All rules, from those of the tenants.
#[tactic(auto, unfolding(crate::specs::Parts::rules_from))]
fn rules_from(s: State, c: TableRules) -> Rules
    ensures { result ≡ rules_from s c }
{
    join_rules(settings_rules(s), c.rules, holding_rules(s, c.held))
}

// Which rules a book keeps.
pub fn check_rules(s: State, table: LeaseTable) -> Rules
    ensures { result ≡ rules_of s table }
{
    rules_from(s, table_rules(s, table))
}

// Of rules 7 to 13 the number of the first that is broken, or 0.
fn first_late(r: Rules) -> u8
    ensures { result ≡ first_late r }
{
    if !r.leases {
        return 7;
    }
    if !r.identifiers {
        return 8;
    }
    if !r.owners {
        return 9;
    }
    if !r.periods {
        return 10;
    }
    if !r.holdings {
        return 11;
    }
    if !r.commitments {
        return 12;
    }
    if !r.holds {
        return 13;
    }
    0
}

// Of rules 1 to 13, those that a file can break, the number of the first that is broken, or 0.
// Stays: the number of a rule is the product's answer (documents 01 and 02, W-212), and `first_rule` of specs/ is the clause that holds it; so in `first_late` and `first_broken`.
pub fn first_rule(r: Rules) -> u8
    ensures { result ≡ first_rule r }
{
    if !r.limits {
        return 1;
    }
    if !r.offsets {
        return 2;
    }
    if !r.ranges {
        return 3;
    }
    if !r.pools {
        return 4;
    }
    if !r.ttls {
        return 5;
    }
    if !r.reserves {
        return 6;
    }
    first_late(r)
}

// The number of the first rule that is broken, or 0; the layout, which only a book that is lent can break, comes last.
#[tactic(auto, unfolding(lists::specs::Pick::pick, crate::specs::Sound::first_broken))]
pub fn first_broken(r: Rules) -> u8
    ensures { result ≡ first_broken r }
{
    match first_rule(r) {
        0 if r.layout => 0,
        0 => 19,
        n => n,
    }
}

// The number of the first rule that a book breaks, or 0.
pub fn broken(s: State, table: LeaseTable) -> u8
    ensures { result ≡ broken_of s table }
{
    first_broken(check_rules(s, table))
}

// Whether a book is sound.
pub fn sound(s: State, table: LeaseTable) -> bool
    ensures { result ≡ sound_b s table }
{
    broken(s, table) == 0
}

// Whether a book is sound, from the rules of its tenants.
#[tactic(auto, unfolding(crate::specs::Parts::sound_from))]
pub fn sound_from(s: State, c: TableRules) -> bool
    ensures { result ≡ sound_from s c }
{
    first_broken(rules_from(s, c)) == 0
}

// Whether a record is all zero, as an unused one has to be.
pub fn unused_record(l: Lease) -> bool
    ensures { result ≡ unused_b l }
{
    is_unused(l)
}

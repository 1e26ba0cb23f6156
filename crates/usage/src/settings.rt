// Whether two files have the same settings.
ghost use Rattle.std.specs.Prelude.{◌≡◌};
ghost use Rattle.lists.specs.Same.{same_by};
ghost use Rattle.usage.specs.Usage.{same_counts, same_pool, same_range, same_scope, same_settings};

use state::{ClientRange, Scope, State};

// Stays: `==` derived on the structs was tried, on their arrays, and the proof didn't close.
fn same_range(a: ClientRange, b: ClientRange) -> bool
    ensures { result ≡ same_range a b }
{
    a.low == b.low && a.high == b.high
}

fn same_ranges(a: State, b: State) -> bool
    ensures { result ≡ same_by same_range a.tenants b.tenants }
{
    for i in 0..8 {
        if !same_range(a.tenants[i], b.tenants[i]) {
            return false;
        }
    }
    true
}

// Whether two scopes have the same pool and TTL.
fn same_pool(a: Scope, b: Scope) -> bool
    ensures { result ≡ same_pool a b }
{
    a.lowest == b.lowest && (a.size == b.size && a.ttl == b.ttl)
}

fn same_scope(a: Scope, b: Scope) -> bool
    ensures { result ≡ same_scope a b }
{
    same_pool(a, b) && (a.reserve == b.reserve && a.limit == b.limit)
}

fn same_scopes(a: State, b: State) -> bool
    ensures { result ≡ same_by same_scope a.scopes b.scopes }
{
    for k in 0..4 {
        if !same_scope(a.scopes[k], b.scopes[k]) {
            return false;
        }
    }
    true
}

// Whether server address and the numbers of tenants and scopes are the same.
fn same_counts(a: State, b: State) -> bool
    ensures { result ≡ same_counts a b }
{
    a.server == b.server && (a.tenant_count == b.tenant_count && a.scope_count == b.scope_count)
}

pub fn same_settings(a: State, b: State) -> bool
    ensures { result ≡ same_settings a b }
{
    same_counts(a, b) && (same_ranges(a, b) && same_scopes(a, b))
}

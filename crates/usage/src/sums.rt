// What leases cover between two clocks, added to the totals.
ghost use Rattle.std.specs.Prelude.{◌≡◌};
ghost use Rattle.state.specs.Book.{in_use};
ghost use Rattle.usage.specs.Usage.{counted, covered, covered_in};
ghost use Rattle.usage.specs.Report.{added_scope, added_totals, capped_sum, cut, more_covered, no_totals};

use crate::{ScopeTotals, Totals};
use state::{Lease, LeaseTable, TenantLeases};

// A sum that stops at the largest number.
pub fn capped(a: u64, b: u64) -> u64
    ensures { result ≡ capped_sum a b }
{
    a.saturating_add(b)
}

// The address-seconds of a lease from one clock to another.
fn cover(l: Lease, from: u32, to: u32) -> u64
    ensures { result ≡ covered from to l }
{
    let n = address_set::count(l.addresses);
    let seconds = l.end.min(to).saturating_sub(l.start.max(from));
    u64::from(n) * u64::from(seconds)
}

// Whether a record is a lease, no hold, of a scope.
fn is_counted(l: Lease, scope: u8) -> bool
    ensures { result ≡ counted scope l }
{
    !state::is_hold(l) && l.scope == scope
}

fn add_cover(sum: u64, l: Lease, scope: u8, from: u32, to: u32) -> u64
    ensures { result ≡ more_covered scope from to sum l }
{
    if is_counted(l, scope) {
        capped(sum, cover(l, from, to))
    } else {
        sum
    }
}

// What a tenant's leases in a scope cover.
fn cover_in(t: TenantLeases, scope: u8, from: u32, to: u32) -> u64
    ensures { result ≡ cut (covered_in scope from to (in_use t)) }
{
    let leases = &t.leases[..t.count.min(16)];
    let mut sum = 0;
    for l in leases {
        sum = add_cover(sum, *l, scope, from, to);
    }
    sum
}

// A scope's totals with what a table's leases cover.
fn added_scope(totals: ScopeTotals, table: LeaseTable, scope: u8, from: u32, to: u32) -> ScopeTotals
    ensures { result ≡ added_scope table scope from to totals }
{
    let mut now = totals;
    for g in 0..8 {
        let c = cover_in(table.tenants[g], scope, from, to);
        now.tenants[g] = capped(totals.tenants[g], c);
    }
    now
}

// All totals with it.
pub fn added(totals: Totals, table: LeaseTable, from: u32, to: u32) -> Totals
    ensures { result ≡ added_totals table from to totals }
{
    let mut now = totals;
    for k in 0..4 {
        now.scopes[k] = added_scope(totals.scopes[k], table, (k + 1) as u8, from, to);
    }
    now
}

pub fn no_totals() -> Totals
    ensures { result ≡ no_totals }
{
    let v = ScopeTotals { tenants: [0u64; 8] };
    Totals { scopes: [v; 4] }
}

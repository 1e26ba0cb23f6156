// How many entries a section has, and how many octets they take.
ghost use Rattle.std.specs.Prelude.{◌≡◌, ◌≤◌, length};
ghost use Rattle.lease_file.specs.Rows.{entry_octets, kind_count, one_of, table_rows, table_total, tenant_octets};

use crate::form::tail;
use crate::limits::of_kind;
use state::{Lease, LeaseTable, TenantLeases};

pub fn total(table: LeaseTable, holds: bool) -> usize
    ensures { (result ≡ table_total holds table) × (result ≤ 128) }
{
    let mut sum: usize = 0;
    for t in &table.tenants {
        sum += kind_count(*t, holds);
    }
    sum
}

// How many records of a tenant belong into the section.
fn kind_count(t: TenantLeases, holds: bool) -> usize
    ensures { (result ≡ kind_count holds t) × (result ≤ 16) }
{
    let leases = &t.leases[..t.count.min(16)];
    let mut sum: usize = 0;
    for l in leases {
        sum += one_of(*l, holds);
    }
    sum
}

fn one_of(l: Lease, holds: bool) -> usize
    ensures { (result ≡ one_of holds l) × (result ≤ 1) }
{
    if of_kind(l.kind, holds) { 1 } else { 0 }
}

// Octets of all entries.
pub fn rows_size(table: LeaseTable, holds: bool) -> usize
    ensures { (result ≡ length (table_rows holds table)) × (result ≤ 14976) }
{
    let mut sum: usize = 0;
    for t in &table.tenants {
        sum += tenant_size(*t, holds);
    }
    sum
}

fn tenant_size(t: TenantLeases, holds: bool) -> usize
    ensures { (result ≡ length (tenant_octets holds 0 t)) × (result ≤ 1872) }
{
    let leases = &t.leases[..t.count.min(16)];
    let mut sum: usize = 0;
    for l in leases {
        sum += entry_size(*l, holds);
    }
    sum
}

fn entry_size(l: Lease, holds: bool) -> usize
    ensures { (result ≡ length (entry_octets holds 0 0 l)) × (result ≤ 117) }
{
    if of_kind(l.kind, holds) {
        return usize::from(l.id_len).min(32)
            + 17
            + (address_set::count(l.addresses) as usize)
            + tail(holds);
    }
    0
}

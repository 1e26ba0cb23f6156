// The octets of a section, tenant by tenant, into a buffer that is long enough.
ghost use Rattle.std.specs.Prelude.{◌++◌, ◌∷◌, ◌+◌, ◌≤◌, length};
ghost use Rattle.address_set.specs.AddressSet.{offsets};
ghost use Rattle.octets.specs.Octets.{Wrote, octets32};
ghost use Rattle.state.specs.Book.{id_of};
ghost use Rattle.lease_file.specs.Records.{filed_entry, filed_lease};
ghost use Rattle.lease_file.specs.Rows.{entry_octets, lapse_octets, table_rows, tenant_octets};
ghost use Rattle.lease_file.specs.Section.{entry_format, lease_format};

use crate::limits::of_kind;
use state::{Lease, LeaseTable, TenantLeases};

// All tenants' entries.
pub fn put_records(buffer: &mut [u8], at: usize, table: LeaseTable, holds: bool) -> usize
    requires { at + length (table_rows holds table) ≤ length buffer.old }
    ensures { Wrote buffer.old at (table_rows holds table) buffer.new result }
{
    let mut to = at;
    for (i, t) in table.tenants.iter().enumerate() {
        to = put_tenant(buffer, to, (i + 1) as u8, *t, holds);
    }
    to
}

// A tenant's entries.
fn put_tenant(buffer: &mut [u8], at: usize, tenant: u8, t: TenantLeases, holds: bool) -> usize
    requires { at + length (tenant_octets holds tenant t) ≤ length buffer.old }
    ensures { Wrote buffer.old at (tenant_octets holds tenant t) buffer.new result }
{
    let leases = &t.leases[..t.count.min(16)];
    let mut to = at;
    for l in leases {
        to = put_if(buffer, to, tenant, *l, holds);
    }
    to
}

// The entry of a tenant's record, where it belongs into the section.
fn put_if(buffer: &mut [u8], at: usize, tenant: u8, l: Lease, holds: bool) -> usize
    requires { at + length (entry_octets holds tenant 0 l) ≤ length buffer.old }
    ensures { Wrote buffer.old at (entry_octets holds tenant 0 l) buffer.new result }
{
    if of_kind(l.kind, holds) {
        put_entry(buffer, at, tenant, l, holds)
    } else {
        at
    }
}

// The entry of a tenant's record: as a lease, and the lapse of a hold.
fn put_entry(buffer: &mut [u8], at: usize, tenant: u8, l: Lease, holds: bool) -> usize
    requires { at + length ((entry_format holds).write (filed_entry holds tenant l)) ≤ length buffer.old }
    ensures { Wrote buffer.old at ((entry_format holds).write (filed_entry holds tenant l)) buffer.new result }
{
    let a = put_lease(buffer, at, tenant, l);
    put_lapse(buffer, a, l.lapse, holds)
}

fn put_lapse(buffer: &mut [u8], at: usize, lapse: u32, holds: bool) -> usize
    requires { at + length (lapse_octets holds lapse) ≤ length buffer.old }
    ensures { Wrote buffer.old at (lapse_octets holds lapse) buffer.new result }
{
    if holds {
        octets::put_u32(buffer, at, u64::from(lapse))
    } else {
        at
    }
}

// A tenant's record as a lease.
fn put_lease(buffer: &mut [u8], at: usize, tenant: u8, l: Lease) -> usize
    requires { at + length (lease_format.write (filed_lease tenant l)) ≤ length buffer.old }
    ensures { Wrote buffer.old at (lease_format.write (filed_lease tenant l)) buffer.new result }
{
    let a = put_head(buffer, at, tenant, l);
    let b = put_middle(buffer, a, l);
    put_addresses(buffer, b, l.addresses)
}

// The tenant, the scope and the identifier of a lease.
fn put_head(buffer: &mut [u8], at: usize, tenant: u8, l: Lease) -> usize
    requires { at + (length (id_of l) + 3) ≤ length buffer.old }
    ensures { Wrote buffer.old at (tenant ∷ l.scope ∷ length (id_of l) ∷ id_of l) buffer.new result }
{
    let n = usize::from(l.id_len).min(32);
    let a = octets::put_u8(buffer, at, tenant);
    let b = octets::put_u8(buffer, a, l.scope);
    let c = octets::put_u8(buffer, b, n as u8);
    octets::put_run(buffer, c, &l.id, n)
}

// The type, the transaction id and the period of a lease.
fn put_middle(buffer: &mut [u8], at: usize, l: Lease) -> usize
    requires { at + 13 ≤ length buffer.old }
    ensures { Wrote buffer.old at (l.kind ∷ octets32 l.xid ++ octets32 l.start ++ octets32 l.end) buffer.new result }
{
    let a = octets::put_u8(buffer, at, l.kind);
    let b = octets::put_u32(buffer, a, u64::from(l.xid));
    let c = octets::put_u32(buffer, b, u64::from(l.start));
    octets::put_u32(buffer, c, u64::from(l.end))
}

// The offsets of a set after their count.
fn put_addresses(buffer: &mut [u8], at: usize, set: u64) -> usize
    requires { at + (length (offsets set) + 1) ≤ length buffer.old }
    ensures { Wrote buffer.old at (length (offsets set) ∷ offsets set) buffer.new result }
{
    let a = octets::put_u8(buffer, at, address_set::count(set) as u8);
    put_offsets(buffer, a, set)
}

// The offsets of a set, lowest first.
// Stays: what is left of the set is tested, and no index counted; a `for` over all 64 offsets would test each.
fn put_offsets(buffer: &mut [u8], at: usize, set: u64) -> usize
    requires { at + length (offsets set) ≤ length buffer.old }
    ensures { Wrote buffer.old at (offsets set) buffer.new result }
{
    let mut left = set;
    let mut to = at;
    while 0 < left {
        let a = left.trailing_zeros();
        to = octets::put_u8(buffer, to, a as u8);
        left = address_set::difference(left, 1 << a);
    }
    to
}

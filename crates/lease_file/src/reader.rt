// The records of sections whose form is right and that they can hold, tenant by tenant.
ghost use Rattle.std.specs.Prelude.{◌≡◌, ◌+◌, ◌≤◌, length, false, true};
ghost use Rattle.lists.specs.Pick.{pick};
ghost use Rattle.octets.specs.Octets.{at32};
ghost use Rattle.lease_file.specs.Place.{EntriesFit, StorableAt, entries_in, entry_at, filled, kept_all, tail_of};
ghost use Rattle.lease_file.specs.Records.{stored_entry};
ghost use Rattle.lease_file.specs.Rows.{by_ending_all};

use crate::limits::{entry_next, tenant_place};
use crate::order::arrange;
use state::{Lease, OrderBy, TenantLeases};

// The records of the eight tenants, in their order: of each, those of its holds, and behind them those of its leases, are filled in and then arranged.
pub fn all_records(s: &[u8], leases: usize, holds: usize) -> [TenantLeases; 8]
    requires { EntriesFit false s.now leases × EntriesFit true s.now holds }
    ensures { result ≡ by_ending_all (kept_all (entries_in false s.now leases) (entries_in true s.now holds)) }
{
    let mut tenants = [state::no_leases(); 8];
    fill(&mut tenants, s, holds, true);
    fill(&mut tenants, s, leases, false);
    for t in &mut tenants {
        *t = arrange(*t, OrderBy::Ending);
    }
    tenants
}

// The records of a section, each behind those of its tenant: written where it stands, so that no tenant's are copied for an entry.
fn fill(tenants: &mut [TenantLeases; 8], s: &[u8], at: usize, holds: bool)
    requires { EntriesFit holds s.now at }
    ensures { tenants.new ≡ filled holds tenants.old (entries_in holds s.now at) }
{
    let mut here = at + 1;
    for _ in 0..usize::from(s[at]) {
        let l = record_at(s, here, holds);
        let t = &mut tenants[tenant_place(s, here, holds)];
        if t.count < 16 {
            t.leases[t.count] = l;
            t.count += 1;
        }
        here = entry_next(s, here, holds);
    }
}

// The record of the entry that starts at `at`.
pub fn record_at(s: &[u8], at: usize, holds: bool) -> Lease
    requires { StorableAt holds s.now at }
    ensures { result ≡ stored_entry holds (entry_at holds s.now at) }
{
    let n = usize::from(s[at + 2]);
    let k = usize::from(s[at + (n + 16)]);
    Lease {
        scope: s[at + 1],
        id_len: s[at + 2],
        id: octets::read_run(s, at + 3, n),
        kind: s[at + (n + 3)],
        xid: octets::read_u32(s, at + (n + 4)),
        start: octets::read_u32(s, at + (n + 8)),
        end: octets::read_u32(s, at + (n + 12)),
        addresses: address_set::from_offsets(&s[at + (n + 17)..at + (n + 17 + k)]),
        lapse: lapse_at(s, at + (n + 17 + k), holds),
    }
}

// The lapse behind the rest of an entry: that of a hold; a lease has none.
fn lapse_at(s: &[u8], at: usize, holds: bool) -> u32
    requires { at + tail_of holds ≤ length s.now }
    ensures { result ≡ pick holds (at32 s.now at) 0 }
{
    if holds { octets::read_u32(s, at) } else { 0 }
}

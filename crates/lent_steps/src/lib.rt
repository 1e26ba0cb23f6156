// The steps by reference that the entry points share: the clock of a lent ledger raised where it stands, and the copies between a lent slice of lease records and
// 128 records by value.
#![tactic(auto)]

ghost use Rattle.std.specs.Prelude.{◌≡◌};
ghost use Rattle.state.specs.Book.{raised_in};
ghost use Rattle.records.specs.Records.{first128, covered};

use records::Records;
use state::{Lease, Ledger};

// Raises the clock where it stands.
pub fn advance(ledger: &mut Ledger, time: u32)
    ensures { ledger.new ≡ raised_in ledger.old time }
{
    ledger.state.clock = ledger.state.clock.max(time);
}

// The first 128 records of a slice; unused ones where it has fewer.
pub fn load(leases: &[Lease]) -> Records
    ensures { result.leases ≡ first128 leases.now }
{
    let mut all = records::no_records().leases;
    let n = leases.len().min(128);
    all[..n].copy_from_slice(&leases[..n]);
    Records { leases: all }
}

// Lays 128 records over a slice; what lies past them is left.
pub fn store(leases: &mut [Lease], records: Records)
    ensures { leases.new ≡ covered leases.old records.leases }
{
    let n = leases.len().min(128);
    leases[..n].copy_from_slice(&records.leases[..n]);
}

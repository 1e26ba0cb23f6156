// The lent lease records by value: 128 in a row, sixteen to a tenant, tenant by tenant; the table that they stand for, one of them, and the file
// that they are read from and written to. The number of records that the lent slice has comes with them.
#![tactic(auto)]

ghost use Rattle.std.specs.Prelude.{◌≡◌, ◌<◌, length, position, replicate, take};
ghost use Rattle.soundness.specs.Sound.{unused_b};
ghost use Rattle.state.specs.Book.{no_lookup, tenant_at, zero_lease};
ghost use Rattle.state_file.specs.StateFile.{read_file};
ghost use Rattle.records.specs.Records.{put_row, records_of, table_from, tenant_from};
ghost use Rattle.records.specs.Lent.{for_records, Reads, written_with, room_with, find_with, insert_with, remove_with};

use state::{Lease, LeaseTable, Ledger, Lookup, TenantLeases};
use state_file::Refusal;

#[derive(Clone, Copy)]
pub struct Records {
    pub leases: [Lease; 128],
}

// The ledger and the records of a file.
#[derive(Clone, Copy)]
pub struct ReadRecords {
    pub ledger: Ledger,
    pub records: Records,
}

// 128 unused records.
pub fn no_records() -> Records
    ensures { result.leases ≡ replicate 128 zero_lease }
{
    Records {
        leases: [state::no_lease(); 128],
    }
}

// ---- records and the table

// Where the first unused one of a tenant's records is.
fn first_unused(leases: &[Lease]) -> Option<usize>
    ensures { result ≡ position unused_b leases.now }
{
    leases.iter().position(|l| soundness::unused_record(*l))
}

// As many of a tenant's records are leases as come before the first unused one.
pub fn tenant_from(leases: [Lease; 16]) -> TenantLeases
    ensures { result ≡ tenant_from leases }
{
    TenantLeases {
        leases,
        count: first_unused(&leases).unwrap_or(16),
    }
}

// One tenant's records, counted from 0. All of them are lent, so that they are not copied for each tenant.
pub fn row_at(leases: &[Lease; 128], h: usize) -> TenantLeases
    requires { h < 8 }
    ensures { result ≡ tenant_at (table_from leases.now) h }
{
    let mut row = [state::no_lease(); 16];
    row.copy_from_slice(&leases[16 * h..16 * h + 16]);
    tenant_from(row)
}

// The table that records stand for.
pub fn table_of(records: Records) -> LeaseTable
    ensures { result ≡ table_from records.leases }
{
    let mut now = LeaseTable {
        tenants: [state::no_leases(); 8],
    };
    for h in 0..8 {
        now.tenants[h] = row_at(&records.leases, h);
    }
    now
}

// The records of a table.
pub fn records_of(table: LeaseTable) -> Records
    ensures { (result.leases ≡ records_of table) × (length result.leases ≡ 128) }
{
    let mut now = no_records();
    for h in 0..8 {
        now.leases[16 * h..16 * h + 16].copy_from_slice(&table.tenants[h].leases);
    }
    now
}

// Records with those of one tenant, counted from 0, replaced.
pub fn put_row(records: Records, h: usize, t: TenantLeases) -> Records
    requires { h < 8 }
    ensures { (result.leases ≡ put_row records.leases h t.leases) × (length result.leases ≡ 128) }
{
    let mut now = records;
    now.leases[16 * h..16 * h + 16].copy_from_slice(&t.leases);
    now
}

// ---- the file

// The reader of a state file, for a slice that has n records.
pub fn read(file: &[u8], n: usize) -> Result<ReadRecords, Refusal>
    ensures { Reads (for_records n (read_file file.now)) result }
{
    let book = state_file::read(file)?;
    if n != 128 {
        return Err(Refusal::UnsoundFile);
    }
    Ok(ReadRecords {
        ledger: Ledger {
            state: book.state,
            memory: book.memory,
        },
        records: records_of(book.table),
    })
}

// The writer of a state file: its length, or that the book is unsound and then that the room is too short.
pub fn write(
    ledger: Ledger,
    records: Records,
    n: usize,
    names: &[u8],
    room: &mut [u8],
) -> Result<usize, Refusal>
    ensures answer { result ≡ written_with n ledger records.leases names.now (length room.old) }
    ensures octets { room.new ≡ room_with n ledger records.leases names.now room.old }
{
    if n != 128 {
        return Err(Refusal::UnsoundBook);
    }
    let table = table_of(records);
    state_file::write(ledger.state, table, ledger.memory, names, room)
}

// ---- one record of a tenant, counted from 0

// What is found where no record is compared.
fn not_found() -> Lookup
    ensures { result ≡ no_lookup }
{
    Lookup {
        place: None,
        compared: 0,
    }
}

// The place of an identifier among a tenant's records, and how many of them were compared.
pub fn find(records: Records, n: usize, h: usize, id: [u8; 32], len: u8) -> Lookup
    ensures { result ≡ find_with n h (take len id) records.leases }
{
    if n == 128 && h < 8 {
        return state::find(row_at(&records.leases, h), id, len);
    }
    not_found()
}

// One lease more, where a record of the tenant is left.
pub fn insert(records: Records, n: usize, h: usize, l: Lease) -> Records
    ensures { (result.leases ≡ insert_with n h l records.leases) × (length result.leases ≡ 128) }
{
    if n == 128 && h < 8 {
        let own = row_at(&records.leases, h);
        if state::lease_count(own) < 16 {
            return put_row(records, h, state::insert(own, l));
        }
    }
    records
}

// The leases but for that of an identifier.
pub fn remove(records: Records, n: usize, h: usize, id: [u8; 32], len: u8) -> Records
    ensures { (result.leases ≡ remove_with n h (take len id) records.leases) × (length result.leases ≡ 128) }
{
    if n == 128 && h < 8 {
        let own = row_at(&records.leases, h);
        return put_row(records, h, state::remove(own, id, len));
    }
    records
}

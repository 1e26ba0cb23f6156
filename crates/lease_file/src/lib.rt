// The campus file's sections of leases and of holds (document 02, W-205): where one ends, whether the book's records can hold both, reading them and writing
// them. A hold stands in the file as a lease does, with its lapse behind it, so that each function goes over either section: `holds` says which.
#![tactic(auto)]

mod form;
mod limits;
mod order;
mod reader;
mod sizes;
mod writer;

ghost use Rattle.std.specs.Prelude.{false, true, ◌≡◌, ◌+◌, ◌≤◌, length};
ghost use Rattle.octets.specs.Octets.{Wrote};
ghost use Rattle.state.specs.Book.{table_of};
ghost use Rattle.lease_file.specs.Place.{EntriesIn, SectionEndsAt, entries_in};
ghost use Rattle.lease_file.specs.Records.{in_file_order, merged_from, records_fit_b, table_octets};

use crate::form::{entry_end, id_at, is_after};
use crate::limits::{all_few, all_fit, tally};
use crate::order::arrange;
use crate::reader::all_records;
use crate::sizes::{rows_size, total};
use crate::writer::put_records;
pub use limits::entry_next;
pub use reader::record_at;
use state::{LeaseTable, OrderBy};

// Where the section that starts at `at` ends.
pub fn section_end(s: &[u8], at: usize, holds: bool) -> Option<usize>
    ensures { SectionEndsAt holds s.now at result }
{
    if s.len() <= at {
        return None;
    }
    let mut here = at + 1;
    let mut tenant: u8 = 0;
    let mut id = &s[..0];
    for _ in 0..usize::from(s[at]) {
        let next = entry_end(s, here, holds)?;
        if is_after(s, tenant, id, here) {
            return None;
        }
        tenant = s[here];
        id = id_at(s, here);
        here = next;
    }
    Some(here)
}

// Whether the records can hold the leases and the holds, whose sections start at these places.
pub fn fits(s: &[u8], leases: usize, holds: usize) -> bool
    requires { EntriesIn false s.now leases × EntriesIn true s.now holds }
    ensures { result ≡ records_fit_b (entries_in false s.now leases) (entries_in true s.now holds) }
{
    if !all_fit(s, leases, false) || !all_fit(s, holds, true) {
        return false;
    }
    all_few(tally(s, leases, false), tally(s, holds, true))
}

// The records of the sections that start at these places.
pub fn load(s: &[u8], leases: usize, holds: usize) -> LeaseTable
    requires { EntriesIn false s.now leases × EntriesIn true s.now holds × (records_fit_b (entries_in false s.now leases) (entries_in true s.now holds) ≡ true) }
    ensures { result ≡ table_of (merged_from 1 8 (entries_in false s.now leases) (entries_in true s.now holds)) }
{
    LeaseTable {
        tenants: all_records(s, leases, holds),
    }
}

// The records in the order of the file: each tenant's by identifier.
pub fn in_file_order(table: LeaseTable) -> LeaseTable
    ensures { result ≡ in_file_order table }
{
    let mut now = table;
    for t in &mut now.tenants {
        *t = arrange(*t, OrderBy::Identifier);
    }
    now
}

// How many octets a section of the table has.
pub fn size(table: LeaseTable, holds: bool) -> usize
    ensures { (result ≡ length (table_octets holds table)) × (result ≤ 14977) }
{
    1 + rows_size(table, holds)
}

// A section of the table, written from `at` on, each tenant's records as they stand.
pub fn put(buffer: &mut [u8], at: usize, table: LeaseTable, holds: bool) -> usize
    requires { at + length (table_octets holds table) ≤ length buffer.old }
    ensures { Wrote buffer.old at (table_octets holds table) buffer.new result }
{
    let a = octets::put_u8(buffer, at, total(table, holds) as u8);
    put_records(buffer, a, table, holds)
}

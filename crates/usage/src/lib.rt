// The report of address-seconds (document 02, W-213), file by file: the totals from one clock to the next, which file is refused, and the text. Only the file
// before is kept. Sums stop at the largest u64; of files that the reader accepts no total gets there.
#![tactic(auto)]

mod settings;
mod sums;
mod text;

ghost use Rattle.std.specs.Prelude.{Ok, ◌≡◌};
ghost use Rattle.usage.specs.Report.{begun, capped_sum, length_in, next_of, no_report, number_told, room_with, told_after, total_in, with_file};
ghost use Rattle.usage.specs.Usage.{follows, refused_text, report_text};

use crate::settings::same_settings;
use crate::sums::{added, capped, no_totals};
use crate::text::{put_refused, put_report};
use state::{LeaseTable, State};
use state_file::{Loaded, Refusal};

// How many files a report may take.
pub const MOST_FILES: usize = 1000;

// What a room for the text must have.
pub const TEXT_LIMIT: usize = 4096;

// A scope's totals, by tenant.
#[derive(Clone, Copy)]
pub struct ScopeTotals {
    pub tenants: [u64; 8],
}

// All totals, by scope.
#[derive(Clone, Copy)]
pub struct Totals {
    pub scopes: [ScopeTotals; 4],
}

// What is kept from file to file: how many were accepted, the first one's settings, the last one's clock and leases, and the totals.
#[derive(Clone, Copy)]
pub struct Report {
    pub count: u64,
    pub first: State,
    pub clock: u32,
    pub table: LeaseTable,
    pub totals: Totals,
}

// Why a file is not taken: the reader refuses it, or its settings or its clock do not follow those before.
#[derive(Clone, Copy, PartialEq, Eq)]
pub enum FileRefusal {
    Unread(Refusal),
    OutOfOrder,
}

impl FileRefusal {
    pub fn number(self) -> u8
        ensures { result ≡ number_told self }
    {
        match self {
            FileRefusal::Unread(e) => e.number(),
            FileRefusal::OutOfOrder => 26,
        }
    }
}

// Before the first file: the place after it is the first one's.
pub fn no_report() -> Report
    ensures { result ≡ no_report }
{
    Report {
        count: 0,
        first: state_file::no_state(),
        clock: 0,
        table: LeaseTable {
            tenants: [state::no_leases(); 8],
        },
        totals: no_totals(),
    }
}

// The first file.
pub fn begin(file: Result<Loaded, Refusal>) -> Result<Report, FileRefusal>
    ensures { told_after no_report result ≡ begun file }
{
    match file {
        Ok(file) => Ok(Report {
            count: 1,
            first: file.state,
            clock: file.state.clock,
            table: file.table,
            totals: no_totals(),
        }),
        Err(e) => Err(FileRefusal::Unread(e)),
    }
}

// One file more.
pub fn next(report: Report, file: Result<Loaded, Refusal>) -> Result<Report, FileRefusal>
    ensures { told_after report result ≡ next_of report file }
{
    match file {
        Ok(file) => {
            if follows(report.first, report.clock, file) {
                return Ok(with_file(report, file));
            }
            Err(FileRefusal::OutOfOrder)
        }
        Err(e) => Err(FileRefusal::Unread(e)),
    }
}

// Whether a file may follow: its settings are the first one's, and its clock is later than the one before.
fn follows(first: State, clock: u32, file: Loaded) -> bool
    ensures { result ≡ follows first clock (Ok file) }
{
    same_settings(first, file.state) && clock < file.state.clock
}

fn with_file(report: Report, file: Loaded) -> Report
    ensures { result ≡ with_file report file }
{
    Report {
        count: place_after(report),
        first: report.first,
        clock: file.state.clock,
        table: file.table,
        totals: added(report.totals, report.table, report.clock, file.state.clock),
    }
}

// The place of the file after those that were accepted, counted from 1.
pub fn place_after(report: Report) -> u64
    ensures { result ≡ capped_sum report.count 1 }
{
    capped(report.count, 1)
}

// Writes a report and returns its length. A room below 4,096 octets is left as it is, with length 0.
pub fn write_report(report: Report, room: &mut [u8]) -> usize
    ensures length { result ≡ length_in (report_text report.first (total_in report.totals)) room.old }
    ensures octets { room.new ≡ room_with (report_text report.first (total_in report.totals)) room.old }
{
    if room.len() < TEXT_LIMIT {
        return 0;
    }
    put_report(room, report.first, report.totals)
}

// The same for the number of a refusal and the place of the file.
pub fn write_refused(number: u8, place: u64, room: &mut [u8]) -> usize
    ensures length { result ≡ length_in (refused_text number place) room.old }
    ensures octets { room.new ≡ room_with (refused_text number place) room.old }
{
    if room.len() < TEXT_LIMIT {
        return 0;
    }
    put_refused(room, number, place)
}

// The product's entry points: the ledger, document 01's record of clock and settings with what is remembered and the board, lent by `&mut` and updated where it
// stands, and its lease records lent as a slice. Each is a few whole values and calls: every decision is made by value in `records`, `record_call` and below, and
// `lent_steps` copies the records and raises the clock.
#![tactic(auto)]

ghost use Rattle.std.specs.Prelude.{◌≡◌, length, take};
ghost use Rattle.occupancy.specs.Board.{scope_board_at, entry_at, held_in};
ghost use Rattle.server.specs.Serve.{Tells};
ghost use Rattle.server.specs.Halves.{write_of};
ghost use Rattle.records.specs.Lent.{read_lent, ReadsLent, written_lent, room_lent, find_lent, insert_lent, remove_lent};
ghost use Rattle.record_call.specs.Call.{serve_lent, ServesLent};
ghost use Rattle.record_verdict.specs.Verdict.{judge_lent, JudgesLent};

use occupancy::Entry;
use server::{Outcome, Ruling};
use state::{Lease, Ledger, Lookup};
use state_file::Refusal;

// The place of an identifier among the records of tenant h, counted from 0, and how many of them were compared with it. Not found where it has none, and
// none compared for no tenant and of another number of records than 128.
pub fn find(leases: &[Lease], h: usize, id: [u8; 32], len: u8) -> Lookup
    ensures { result ≡ find_lent h (take len id) leases.now }
{
    let all = lent_steps::load(leases);
    records::find(all, leases.len(), h, id, len)
}

// One lease more among those of tenant h, in order of ending; its records past its first unused one become unused. Where no record is left, for
// no tenant, and of another number of records than 128 nothing changes. The board is not altered: whoever changes records by hand does that by
// `agreement::add`, else the book is unsound.
pub fn insert(leases: &mut [Lease], h: usize, l: Lease)
    ensures { leases.new ≡ insert_lent h l leases.old }
{
    let all = lent_steps::load(leases);
    let now = records::insert(all, leases.len(), h, l);
    lent_steps::store(leases, now);
}

// The lease of an identifier goes from among those of tenant h; its records past its first unused one become unused. For no tenant, and of
// another number of records than 128, nothing changes. The board is not altered (`agreement::take`).
pub fn remove(leases: &mut [Lease], h: usize, id: [u8; 32], len: u8)
    ensures { leases.new ≡ remove_lent h (take len id) leases.old }
{
    let all = lent_steps::load(leases);
    let now = records::remove(all, leases.len(), h, id, len);
    lent_steps::store(leases, now);
}

// What the occupancy board has on address a of scope k, both counted from 0, without the records: no owner and no lease where there is no such
// scope or address.
pub fn entry(ledger: &Ledger, k: usize, a: usize) -> Entry
    ensures { result ≡ entry_at (scope_board_at ledger.now.memory.board k) a }
{
    occupancy::entry_at(ledger.memory.board, k, a)
}

// How many addresses of scope k tenant g, both counted from 0, holds by the board; none where there is no such scope or tenant.
pub fn holding(ledger: &Ledger, k: usize, g: usize) -> u8
    ensures { result ≡ held_in (scope_board_at ledger.now.memory.board k) g }
{
    occupancy::holding_at(ledger.memory.board, k, g)
}

// The call, with the names of the scopes lent. Another number of records than 128 is discard 1, and so are names that are not good for the settings and
// a board that disagrees with the leases.
pub fn serve(
    datagram: &[u8],
    client: u32,
    time: u32,
    ledger: &mut Ledger,
    leases: &mut [Lease],
    names: &[u8],
    reply: &mut [u8],
) -> Outcome
    ensures { ServesLent (serve_lent ledger.old leases.old names.now (record { datagram = datagram.now; client = client; time = time; room = length reply.old })) ledger.new leases.new reply.old reply.new result }
{
    let all = lent_steps::load(leases);
    let r = record_call::serve(
        *ledger,
        all,
        leases.len(),
        names,
        datagram,
        client,
        time,
        reply,
    );
    ledger.memory = r.memory;
    lent_steps::advance(ledger, r.clock);
    lent_steps::store(leases, r.records);
    r.outcome
}

// Document 02's first half: the verdict on a datagram, without room for a reply; the ledger and the records become those of the book afterwards. Discard 1 as
// in the call, and never 2.
pub fn judge(
    datagram: &[u8],
    client: u32,
    time: u32,
    ledger: &mut Ledger,
    leases: &mut [Lease],
    names: &[u8],
) -> Ruling
    ensures { JudgesLent (judge_lent ledger.old leases.old names.now client time datagram.now) ledger.new leases.new result }
{
    let all = lent_steps::load(leases);
    let r = record_verdict::judge(*ledger, all, leases.len(), names, datagram, client, time);
    ledger.memory = r.memory;
    lent_steps::advance(ledger, r.clock);
    lent_steps::store(leases, r.records);
    r.ruling
}

// The second half: the reply of a verdict, written with the ledger that the first left and the same names. Room below 512 is 2, then a discard is told as it
// is; neither writes.
pub fn reply(ruling: Ruling, ledger: &Ledger, names: &[u8], room: &mut [u8]) -> Outcome
    ensures { Tells (write_of ruling ledger.now.state names.now (length room.old)) room.old room.new result }
{
    server::write(ruling, ledger.state, names, room)
}

// Reads a state file into the lent ledger and records; a refusal, that the form is wrong and then that the file is unsound, leaves both as they were. Another
// number of records than 128 makes a file unsound. The file's names are `state_file::names`.
pub fn read(file: &[u8], ledger: &mut Ledger, leases: &mut [Lease]) -> Result<(), Refusal>
    ensures { ReadsLent (read_lent file.now ledger.old leases.old) ledger.new leases.new result }
{
    let book = records::read(file, leases.len())?;
    *ledger = book.ledger;
    lent_steps::store(leases, book.records);
    Ok(())
}

// Writes a state file from the lent ledger, records and names: its length, or that the book is unsound and then that the room is too short; a refusal writes
// nothing. Another number of records than 128 makes a book unsound, and so do names that are not good for the settings and a board that disagrees with the leases.
pub fn write(
    ledger: &Ledger,
    leases: &[Lease],
    names: &[u8],
    room: &mut [u8],
) -> Result<usize, Refusal>
    ensures answer { result ≡ written_lent ledger.now leases.now names.now (length room.old) }
    ensures octets { room.new ≡ room_lent ledger.now leases.now names.now room.old }
{
    let all = lent_steps::load(leases);
    records::write(*ledger, all, leases.len(), names, room)
}

// The first half of a call on the lent lease records by value, tested first or known to be sound: the verdict, the clock, what is remembered and the records afterwards.
#![tactic(auto)]

ghost use Rattle.std.specs.Prelude.{◌||◌, ◌≡◌};
ghost use Rattle.std.specs.Option.{is_some};
ghost use Rattle.server.specs.Halves.{discard_ruling};
ghost use Rattle.record_verdict.specs.Verdict.{Gathered, JudgesClock, judge_with, JudgesRecords, JudgesSound};

use records::Records;
use server::Ruling;
use soundness::HeldTable;
use state::{Edit, Ledger, Memory, State};

// The verdict of a call's first half, with the clock, what is remembered and the records afterwards.
#[derive(Clone, Copy)]
pub struct JudgedRecords {
    pub ruling: Ruling,
    pub clock: u32,
    pub memory: Memory,
    pub records: Records,
}

// A discard as a verdict.
fn dismiss(n: u8, clock: u32, memory: Memory, records: Records) -> JudgedRecords
    ensures { result ≡ record { ruling = discard_ruling n 0; clock = clock; memory = memory; records = records } }
{
    JudgedRecords {
        ruling: server::discard(n, 0),
        clock,
        memory,
        records,
    }
}

// Whether an edit changes anything.
fn is_edit(e: Edit) -> bool
    ensures { result ≡ (is_some e.leaves || (is_some e.enters || (is_some e.forgets || is_some e.remembers))) }
{
    e.leaves.is_some() || e.enters.is_some() || e.forgets.is_some() || e.remembers.is_some()
}

// Test 3 and what follows, after the drop: the client's tenant, whose records and releases alone are edited, and only where something changes. The names are
// no matter any more: none go into a verdict.
fn at_clock(
    s: State,
    memory: Memory,
    records: Records,
    held: HeldTable,
    client: u32,
    datagram: &[u8],
) -> JudgedRecords
    requires { Gathered s records.leases held }
    ensures { JudgesClock s memory records.leases client datagram.now result }
{
    let h = server::tenant_of(s, client);
    if h >= usize::from(s.tenant_count).min(8) {
        return dismiss(3, s.clock, memory, records);
    }
    let own = records::row_at(&records.leases, h);
    let j = server::judge_tenant(s, own, memory.releases[h], held, h, datagram);
    if !is_edit(j.edit) {
        return JudgedRecords {
            ruling: j.ruling,
            clock: s.clock,
            memory,
            records,
        };
    }
    let mut noted = memory;
    noted.releases[h] = releases::note(memory.releases[h], j.edit);
    noted.board = agreement::edited(memory.board, h, j.edit);
    JudgedRecords {
        ruling: j.ruling,
        clock: s.clock,
        memory: noted,
        records: records::put_row(records, h, state::edited(own, j.edit)),
    }
}

// The first half on a sound book, of which is known what the tenants hold: the clock is raised, and ended leases are dropped where there are any.
pub fn judge_sound(
    ledger: Ledger,
    records: Records,
    held: HeldTable,
    datagram: &[u8],
    client: u32,
    time: u32,
) -> JudgedRecords
    requires { Gathered ledger.state records.leases held }
    ensures { JudgesSound ledger records.leases client time datagram.now result }
{
    let s = state::raise(ledger.state, time);
    if record_survey::none_ended(held, s.clock) {
        return at_clock(s, ledger.memory, records, held, client, datagram);
    }
    let d = record_survey::drop_ended(records, held, ledger.memory.board, s.clock);
    let mut memory = ledger.memory;
    memory.board = d.board;
    at_clock(s, memory, d.records, d.held, client, datagram)
}

// Document 02's first half on the records of a slice that has n: test 1, and what follows on a sound book.
pub fn judge(
    ledger: Ledger,
    records: Records,
    n: usize,
    names: &[u8],
    datagram: &[u8],
    client: u32,
    time: u32,
) -> JudgedRecords
    ensures { JudgesRecords (judge_with n ledger records.leases names.now client time datagram.now) result }
{
    if n != 128 {
        return dismiss(1, ledger.state.clock, ledger.memory, records);
    }
    let c = record_survey::survey(ledger.state, ledger.memory, records);
    if !record_survey::is_sound(ledger.state, ledger.memory.board, c, names) {
        return dismiss(1, ledger.state.clock, ledger.memory, records);
    }
    judge_sound(ledger, records, c.rules.held, datagram, client, time)
}

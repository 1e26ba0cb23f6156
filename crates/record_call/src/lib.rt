// The call on the lent lease records by value, made of its two halves; and the call on a book that is known to be sound.
#![tactic(auto)]

ghost use Rattle.std.specs.Prelude.{◌≡◌, length};
ghost use Rattle.record_call.specs.Call.{ServesShort, serve_lent, serve_with, ServesRecords};
ghost use Rattle.record_survey.specs.Survey.{SoundFrom};

use records::Records;
use server::Outcome;
use state::{Ledger, Memory};

// What the caller is told of a call, with the clock, what is remembered and the records afterwards.
#[derive(Clone, Copy)]
pub struct ServedRecords {
    pub outcome: Outcome,
    pub clock: u32,
    pub memory: Memory,
    pub records: Records,
}

fn discard(n: u8, clock: u32, memory: Memory, records: Records) -> ServedRecords
    ensures { result ≡ record { outcome = record { outcome = n; length = 0; offset = 0; count = 0 }; clock = clock; memory = memory; records = records } }
{
    ServedRecords {
        outcome: Outcome {
            outcome: n,
            length: 0,
            offset: 0,
            count: 0,
        },
        clock: clock,
        memory: memory,
        records: records,
    }
}

// Tests 1 and 2 of a call that has no room for a reply: 1 before 2.
fn short_room(ledger: Ledger, records: Records, n: usize, names: &[u8]) -> ServedRecords
    ensures { ServesShort n ledger records.leases names.now result }
{
    let state = ledger.state;
    let memory = ledger.memory;
    if n != 128 {
        return discard(1, state.clock, memory, records);
    }
    let c = record_survey::survey(state, memory, records);
    let board = memory.board;
    if record_survey::is_sound(state, board, c, names) {
        return discard(2, state.clock, memory, records);
    }
    discard(1, state.clock, memory, records)
}

// The call on the records of a slice that has n: its own tests 1 and 2 where the room is short. In room enough test 2 has passed, and test 1 is the first
// half's, whose discard 1 the second tells, so that soundness is tested once.
pub fn serve(
    ledger: Ledger,
    records: Records,
    n: usize,
    names: &[u8],
    datagram: &[u8],
    client: u32,
    time: u32,
    reply: &mut [u8],
) -> ServedRecords
    ensures { ServesRecords (serve_with n ledger records.leases names.now (record { datagram = datagram.now; client = client; time = time; room = length reply.old })) reply.old reply.new result }
{
    if reply.len() < reply::LEAST_ROOM {
        return short_room(ledger, records, n, names);
    }
    let state = ledger.state;
    let j = record_verdict::judge(ledger, records, n, names, datagram, client, time);
    let r = j.ruling;
    let s = state::raise(state, j.clock);
    let o = server::write(r, s, names, reply);
    let memory = j.memory;
    let left = j.records;
    ServedRecords {
        outcome: o,
        clock: j.clock,
        memory: memory,
        records: left,
    }
}

// The call on 128 records of a book that is known to be sound, as every book is that calls on an accepted file leave: test 1 would pass, and no rule is
// tested.
pub fn serve_sound(
    ledger: Ledger,
    records: Records,
    names: &[u8],
    datagram: &[u8],
    client: u32,
    time: u32,
    reply: &mut [u8],
) -> ServedRecords
    requires { SoundFrom ledger records.leases names.now }
    ensures { ServesRecords (serve_lent ledger records.leases names.now (record { datagram = datagram.now; client = client; time = time; room = length reply.old })) reply.old reply.new result }
{
    let before = ledger.state;
    let noted = ledger.memory;
    if reply.len() < reply::LEAST_ROOM {
        return discard(2, before.clock, noted, records);
    }
    let held = record_survey::holdings(records);
    let j = record_verdict::judge_sound(ledger, records, held, datagram, client, time);
    let r = j.ruling;
    let s = state::raise(before, j.clock);
    let o = server::write(r, s, names, reply);
    let memory = j.memory;
    let left = j.records;
    ServedRecords {
        outcome: o,
        clock: j.clock,
        memory: memory,
        records: left,
    }
}

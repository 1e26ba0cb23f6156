// Calls on a book that is known to be sound, by value: one call, the writer, and a list of calls, each a record of octets, answered into a buffer. That a call leaves
// a sound book sound is a theorem, so that neither the calls of a list nor the writer after them tests it again.
#![tactic(auto)]

ghost use Rattle.std.specs.Prelude.{◌≡◌, ◌+◌, ◌≤◌, min, drop, length};
ghost use Rattle.records.specs.Lent.{room_lent, written_lent};
ghost use Rattle.record_call.specs.Call.{serve_lent};
ghost use Rattle.record_survey.specs.Survey.{SoundFrom};
ghost use Rattle.reply.specs.Reply.{least_room};
ghost use Rattle.owned.specs.Owned.{JudgesOwned, ServesOwned};
ghost use Rattle.record_verdict.specs.Verdict.{judge_lent};
ghost use Rattle.call_list.specs.CallList.{answer_room, replayed, stop_in, call_in, record_size};
ghost use Rattle.call_list.specs.Promises.{Answers, OwnedSound, Replays};

use owned::{Owned, OwnedCall, OwnedJudged};
use state::Ledger;
use state_file::Refusal;

// What an answer in a list may take: outcome(1), offset(2), count(1), reply length(2) and the longest reply.
const ANSWER_ROOM: usize = 6 + reply::LEAST_ROOM;

// How far a list of calls came: 0 or why it stopped, the octets of calls used, the octets of answers filled, and the book afterwards.
#[derive(Clone, Copy)]
pub struct Progress {
    pub number: u8,
    pub used: usize,
    pub filled: usize,
    pub owned: Owned,
}

// Why the record at a place is not answered, with so much room for answers left: 24, 27 or 0.
fn stop_number(calls: &[u8], at: usize, room: usize) -> u8
    requires { at ≤ length calls.now }
    ensures { result ≡ stop_in (drop at calls.now) room }
{
    let left = calls.len() - at;
    if left < 12 {
        return 24;
    }
    let n = octets::read_u16(calls, at + 10) as usize;
    if left < 12 + n {
        return 24;
    }
    if room < ANSWER_ROOM {
        return 27;
    }
    0
}

fn cut_room(n: usize) -> usize
    ensures { result ≡ min n least_room }
{
    if n < reply::LEAST_ROOM {
        return n;
    }
    reply::LEAST_ROOM
}

// The call on a book that is known to be sound, which is not tested: handed on by value, and not lent.
pub fn serve_sound(
    o: Owned,
    names: &[u8],
    datagram: &[u8],
    client: u32,
    time: u32,
    reply: &mut [u8],
) -> OwnedCall
    requires { SoundFrom o.ledger o.records.leases names.now }
    ensures { ServesOwned (serve_lent o.ledger o.records.leases names.now (record { datagram = datagram.now; client = client; time = time; room = length reply.old })) reply.old reply.new result }
{
    let ledger = o.ledger;
    let records = o.records;
    let r = record_call::serve_sound(ledger, records, names, datagram, client, time, reply);
    let told = r.outcome;
    let state = ledger.state;
    let s = state::raise(state, r.clock);
    let noted = r.memory;
    let left = r.records;
    OwnedCall {
        outcome: told,
        owned: Owned {
            ledger: Ledger {
                state: s,
                memory: noted,
            },
            records: left,
        },
    }
}

// The first half on such a book, likewise. The names are no matter to it but for what is known of the book.
pub fn judge_sound(o: Owned, names: &[u8], datagram: &[u8], client: u32, time: u32) -> OwnedJudged
    requires { SoundFrom o.ledger o.records.leases names.now }
    ensures { JudgesOwned (judge_lent o.ledger o.records.leases names.now client time datagram.now) result }
{
    let ledger = o.ledger;
    let records = o.records;
    let held = record_survey::holdings(records);
    let j = record_verdict::judge_sound(ledger, records, held, datagram, client, time);
    let ruling = j.ruling;
    let state = ledger.state;
    let s = state::raise(state, j.clock);
    let noted = j.memory;
    let left = j.records;
    OwnedJudged {
        ruling: ruling,
        owned: Owned {
            ledger: Ledger {
                state: s,
                memory: noted,
            },
            records: left,
        },
    }
}

// The writer of a book that is known to be sound, which is not tested: handed on by value, and not lent.
pub fn write_sound(o: Owned, names: &[u8], room: &mut [u8]) -> Result<usize, Refusal>
    requires { OwnedSound o names.now }
    ensures answer { result ≡ written_lent o.ledger o.records.leases names.now (length room.old) }
    ensures octets { room.new ≡ room_lent o.ledger o.records.leases names.now room.old }
{
    let table = records::table_of(o.records);
    state_file::write_sound(o.ledger.state, table, o.ledger.memory, names, room)
}

// The call on a sound book, and its answer written from `to` on.
fn answer_call(
    o: Owned,
    names: &[u8],
    datagram: &[u8],
    client: u32,
    time: u32,
    room: usize,
    answers: &mut [u8],
    to: usize,
) -> OwnedCall
    requires { (to + answer_room ≤ length answers.old) × (room ≤ least_room) × SoundFrom o.ledger o.records.leases names.now }
    ensures { Answers (serve_lent o.ledger o.records.leases names.now (record { datagram = datagram.now; client = client; time = time; room = room })) answers.old to answers.new result }
{
    let r = serve_sound(
        o,
        names,
        datagram,
        client,
        time,
        &mut answers[to + 6..to + 6 + room],
    );
    let told = r.outcome;
    octets::put_u8(answers, to, told.outcome);
    octets::put_u16(answers, to + 1, (told.offset % 65536) as u16);
    octets::put_u8(answers, to + 3, (told.count % 256) as u8);
    octets::put_u16(answers, to + 4, (told.length % 65536) as u16);
    r
}

// The record at a place, answered from `to` on.
fn answer_record(
    o: Owned,
    names: &[u8],
    calls: &[u8],
    at: usize,
    answers: &mut [u8],
    to: usize,
) -> OwnedCall
    requires { (to + answer_room ≤ length answers.old) × (at + record_size (drop at calls.now) ≤ length calls.now) × SoundFrom o.ledger o.records.leases names.now }
    ensures { Answers (serve_lent o.ledger o.records.leases names.now (call_in (drop at calls.now))) answers.old to answers.new result }
{
    let time = octets::read_u32(calls, at);
    let client = octets::read_u32(calls, at + 4);
    let size = octets::read_u16(calls, at + 8) as usize;
    let n = octets::read_u16(calls, at + 10) as usize;
    let room = cut_room(size);
    let from = at + 12;
    answer_call(
        o,
        names,
        &calls[from..from + n],
        client,
        time,
        room,
        answers,
        to,
    )
}

fn record_size(calls: &[u8], at: usize) -> usize
    requires { at + 12 ≤ length calls.now }
    ensures { result ≡ record_size (drop at calls.now) }
{
    12 + (octets::read_u16(calls, at + 10) as usize)
}

// Answers records until they end, one is cut off, or the next answer may not fit. The book is sound at first, as an accepted file's is, and each call leaves
// it so (document 01, demand 3): no call tests it again.
pub fn replay(start: Owned, names: &[u8], calls: &[u8], answers: &mut [u8]) -> Progress
    requires { OwnedSound start names.now }
    ensures answers { Replays (replayed (length calls.now) start.ledger start.records.leases names.now calls.now (length answers.old)) answers.old answers.new result }
    ensures sound { OwnedSound result.owned names.now }
{
    let mut o = start;
    let mut at: usize = 0;
    let mut to: usize = 0;
    // Stays: no index is counted. How far a turn goes is what the record at `at` says of its length, and a `for` would need an iterator of our own that ends with a number.
    while at < calls.len() {
        let k = stop_number(calls, at, answers.len() - to);
        if k != 0 {
            return Progress {
                number: k,
                used: at,
                filled: to,
                owned: o,
            };
        }
        let r = answer_record(o, names, calls, at, answers, to);
        let told = r.outcome;
        o = r.owned;
        at = at + record_size(calls, at);
        to = to + 6 + told.length;
    }
    Progress {
        number: 0,
        used: at,
        filled: to,
        owned: o,
    }
}

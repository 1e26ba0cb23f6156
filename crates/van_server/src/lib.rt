// The van's own server (document 02, W-211): one house and one scope from small settings, a book that starts empty, and a line for each datagram. It
// stands above `owned` and knows the server by what that promises.
#![tactic(auto)]

ghost use Rattle.std.specs.Prelude.{◌&&◌, ◌≡◌, ◌≤◌, length};
ghost use Rattle.releases.specs.Whole.{book_b};
ghost use Rattle.state_file.specs.StateFile.{zero_ledger, zero_state};
ghost use Rattle.records.specs.Lent.{book_from, is128};
ghost use Rattle.record_call.specs.Call.{serve_lent};
ghost use Rattle.owned.specs.Owned.{ServesOwned};
ghost use Rattle.van_server.specs.Van.{Opens, call_to, code_of, goes, head_size, no_records, open_of, record_size, settings_size, turn_of, Turns, van_ledger, van_names, van_scope, van_state};

use owned::{Owned, OwnedCall};
use state::{ClientRange, Ledger, Scope, State};

// How many octets the settings have.
pub const SETTINGS: usize = 18;

// The head of a record: time, client address and the datagram's length.
pub const HEAD: usize = 10;

// Room for the longest record.
pub const RECORD_ROOM: usize = 65545;

// Room for the line of any call: the outcome, a blank, two digits for each octet of a reply, and the end of the line.
pub const LINE_ROOM: usize = 2 * reply::LEAST_ROOM + 8;

// Why there is no book to start from: settings that are cut off, and unsound ones.
#[derive(Clone, Copy, PartialEq, Eq)]
pub enum Refusal {
    CutOff,
    Unsound,
}

impl Refusal {
    // The number that document 02 gives it.
    pub fn number(self) -> u8
        ensures { result ≡ code_of self }
    {
        match self {
            Refusal::CutOff => 24,
            Refusal::Unsound => 21,
        }
    }
}

// Whether there may be another record, how much was written for this one, and the book afterwards.
#[derive(Clone, Copy)]
pub struct Turn {
    pub go: bool,
    pub length: usize,
    pub owned: Owned,
}

// ---- the settings

// Share and limit are the size.
fn scope_of(settings: &[u8]) -> Scope
    requires { settings_size ≤ length settings.now }
    ensures { result ≡ van_scope settings.now }
{
    let size = settings[16];
    Scope {
        lowest: octets::read_u32(settings, 12),
        size: size,
        ttl: settings[17],
        reserve: [size, 0, 0, 0, 0, 0, 0, 0],
        limit: [size, 0, 0, 0, 0, 0, 0, 0],
    }
}

// The settings over a state that is all zero: one house and one scope, at clock 0.
fn state_of(zero: State, settings: &[u8]) -> State
    requires { (settings_size ≤ length settings.now) × (zero ≡ zero_state) }
    ensures { result ≡ van_state settings.now }
{
    let low = octets::read_u32(settings, 4);
    let high = octets::read_u32(settings, 8);
    let range = ClientRange {
        low: low,
        high: high,
    };
    let scope = scope_of(settings);
    let mut s = zero;
    s.server = octets::read_u32(settings, 0);
    s.tenant_count = 1;
    s.tenants[0] = range;
    s.scope_count = 1;
    s.scopes[0] = scope;
    s
}

// And over a book that is all zero, which has no lease.
fn book_of(blank: Owned, settings: &[u8]) -> Owned
    requires { (settings_size ≤ length settings.now) × (blank.ledger ≡ zero_ledger) × (blank.records.leases ≡ no_records) }
    ensures { (result.ledger ≡ van_ledger settings.now) × (result.records.leases ≡ no_records) }
{
    let ledger = blank.ledger;
    let zero = ledger.state;
    let memory = ledger.memory;
    let records = blank.records;
    let state = state_of(zero, settings);
    Owned {
        ledger: Ledger {
            state: state,
            memory: memory,
        },
        records: records,
    }
}

// Whether the server takes a book as sound: a call without room for a reply is discard 1 or 2, in that order, and changes nothing.
fn is_sound(o: Owned) -> bool
    ensures { result ≡ (is128 (length o.records.leases) && book_b (book_from o.ledger o.records.leases van_names)) }
{
    let names = [1u8, 0, 0];
    let mut room = [0u8; 1];
    let r = owned::serve(o, &names, &names, 0, 0, &mut room);
    let told = r.outcome;
    told.outcome == 2
}

// The book that the van starts from.
pub fn open(settings: &[u8]) -> Result<Owned, Refusal>
    ensures { Opens (open_of settings.now) result }
{
    if settings.len() < SETTINGS {
        return Err(Refusal::CutOff);
    }
    let o = book_of(owned::blank(), settings);
    if is_sound(o) {
        return Ok(o);
    }
    Err(Refusal::Unsound)
}

// ---- the records

// The call, for a van that has no names for its scope.
pub fn serve(o: Owned, datagram: &[u8], client: u32, time: u32, reply: &mut [u8]) -> OwnedCall
    ensures { ServesOwned (serve_lent o.ledger o.records.leases van_names (record { datagram = datagram.now; client = client; time = time; room = length reply.old })) reply.old reply.new result }
{
    let names = [1u8, 0, 0];
    owned::serve(o, &names, datagram, client, time, reply)
}

// How many octets the first record of some takes: a head and, once that is there, the datagram that it tells of.
pub fn record_size(input: &[u8]) -> usize
    ensures { result ≡ record_size input.now }
{
    if input.len() < HEAD {
        return HEAD;
    }
    HEAD + (octets::read_u16(input, 8) as usize)
}

// The line of a whole record's call, and the book afterwards.
fn answer(o: Owned, input: &[u8], n: usize, line: &mut [u8; LINE_ROOM]) -> Turn
    requires { (head_size ≤ n) × (n ≤ length input.now) }
    ensures { Turns (goes (serve_lent o.ledger o.records.leases van_names (call_to n input.now))) line.old line.new result }
{
    let time = octets::read_u32(input, 0);
    let client = octets::read_u32(input, 4);
    let mut room = [0u8; reply::LEAST_ROOM];
    let r = serve(o, &input[HEAD..n], client, time, &mut room);
    let told = r.outcome;
    let book = r.owned;
    let length = replay_text::write_outcome_line(line, told.outcome, &room, told.length);
    Turn {
        go: true,
        length: length,
        owned: book,
    }
}

// What the octets draw that were read for a record: its line; `refused 24` for a record that is cut off, and nothing where the input has ended, either of which is the last.
pub fn turn_of(o: Owned, input: &[u8], line: &mut [u8; LINE_ROOM]) -> Turn
    ensures { Turns (turn_of o.ledger o.records.leases input.now) line.old line.new result }
{
    if input.len() == 0 {
        return Turn {
            go: false,
            length: 0,
            owned: o,
        };
    }
    let n = record_size(input);
    if input.len() < n {
        let length = replay_text::write_refused_line(line, 24);
        return Turn {
            go: false,
            length: length,
            owned: o,
        };
    }
    answer(o, input, n, line)
}

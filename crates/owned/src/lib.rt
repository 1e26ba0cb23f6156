// A caller of the entry points that holds its ledger and records by value: each function lends them for one call and hands them back. Programs
// and other callers with plain values stand above it.
#![tactic(auto)]

ghost use Rattle.std.specs.Prelude.{◌≡◌, length, replicate};
ghost use Rattle.state.specs.Book.{zero_lease};
ghost use Rattle.state_file.specs.StateFile.{read_file, zero_ledger};
ghost use Rattle.server.specs.Serve.{Tells};
ghost use Rattle.server.specs.Halves.{write_of};
ghost use Rattle.records.specs.Lent.{written_lent, room_lent};
ghost use Rattle.record_call.specs.Call.{serve_lent};
ghost use Rattle.owned.specs.Owned.{Opens, ServesOwned};

use records::Records;
use server::{Outcome, Ruling};
use state::Ledger;
use state_file::Refusal;

// Document 01's book, as its caller holds it.
#[derive(Clone, Copy)]
pub struct Owned {
    pub ledger: Ledger,
    pub records: Records,
}

// A call's outcome and the book afterwards.
#[derive(Clone, Copy)]
pub struct OwnedCall {
    pub outcome: Outcome,
    pub owned: Owned,
}

// The verdict of a call's first half, and the book afterwards.
#[derive(Clone, Copy)]
pub struct OwnedJudged {
    pub ruling: Ruling,
    pub owned: Owned,
}

// The call, with the names of the scopes lent.
pub fn serve(
    o: Owned,
    names: &[u8],
    datagram: &[u8],
    client: u32,
    time: u32,
    reply: &mut [u8],
) -> OwnedCall
    ensures { ServesOwned (serve_lent o.ledger o.records.leases names.now (record { datagram = datagram.now; client = client; time = time; room = length reply.old })) reply.old reply.new result }
{
    let mut ledger = o.ledger;
    let mut leases = o.records.leases;
    let outcome = lent::serve(
        datagram,
        client,
        time,
        &mut ledger,
        &mut leases,
        names,
        reply,
    );
    OwnedCall {
        outcome,
        owned: Owned {
            ledger,
            records: Records { leases },
        },
    }
}

// The second half: the reply of a verdict and of the ledger that came with it. It asks for no records.
pub fn reply(ledger: Ledger, ruling: Ruling, names: &[u8], room: &mut [u8]) -> Outcome
    ensures { Tells (write_of ruling ledger.state names.now (length room.old)) room.old room.new result }
{
    lent::reply(ruling, &ledger, names, room)
}

// A book that is all zero.
pub fn blank() -> Owned
    ensures { (result.ledger ≡ zero_ledger) × (result.records.leases ≡ replicate 128 zero_lease) }
{
    Owned {
        ledger: state_file::no_ledger(),
        records: records::no_records(),
    }
}

// The book of a state file, read over one that is all zero.
pub fn open(file: &[u8]) -> Result<Owned, Refusal>
    ensures { Opens (read_file file.now) result }
{
    let zero = blank();
    let mut ledger = zero.ledger;
    let mut leases = zero.records.leases;
    lent::read(file, &mut ledger, &mut leases)?;
    Ok(Owned {
        ledger,
        records: Records { leases },
    })
}

// Writes a state file from a book and the names of its scopes.
pub fn write(o: Owned, names: &[u8], room: &mut [u8]) -> Result<usize, Refusal>
    ensures answer { result ≡ written_lent o.ledger o.records.leases names.now (length room.old) }
    ensures octets { room.new ≡ room_lent o.ledger o.records.leases names.now room.old }
{
    lent::write(&o.ledger, &o.records.leases, names, room)
}

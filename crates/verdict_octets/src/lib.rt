// A verdict as octets that a host keeps between the two halves of a call, and prints (document 02, W-208).
#![tactic(auto)]

ghost use Rattle.std.specs.Prelude.{◌≡◌, ◌+◌, ◌≤◌, length};
ghost use Rattle.octets.specs.Octets.{Wrote};
ghost use Rattle.verdict_octets.specs.Octets.{asked_octets, flag_of, identifier_in, identifier_octets, is_set, language_in, language_octets, last_octets, number_octets, outcome_octets, place_octets, reply_for, reply_number, ruling_in, run, set_at, verdict_in, verdict_octets};

use decision::{Reply, Verdict};
use message::{Identifier, Language};
use server::Ruling;

// ---- written

// The number of a kind of reply.
// Stays: `From` and `TryFrom` for `Reply` could stand in crate decision alone, which knows nothing of these octets, and no octet is refused (`reply_for`, of which a match was tried: its goals didn't close).
fn reply_number(kind: Reply) -> u8
    ensures { result ≡ reply_number kind }
{
    match kind {
        Reply::Nothing => 0,
        Reply::Offer => 1,
        Reply::LeaseAck => 2,
        Reply::ReleaseAck => 3,
        Reply::InfoAck => 4,
        Reply::Nak => 5,
    }
}

fn flag_of(b: bool) -> u8
    ensures { result ≡ flag_of b }
{
    u8::from(b)
}

// The outcome, the reply, a NAK's error and the scope.
fn put_outcome(room: &mut [u8], at: usize, v: Verdict) -> usize
    requires { at + 4 ≤ length room.old }
    ensures { Wrote room.old at (outcome_octets v) room.new result × (result ≡ at + 4) }
{
    let a = octets::put_u8(room, at, v.outcome);
    let b = octets::put_u8(room, a, reply_number(v.reply));
    let c = octets::put_u8(room, b, v.error);
    octets::put_u8(room, c, v.scope)
}

// Where in the datagram it went wrong, and whose it was.
fn put_place(room: &mut [u8], at: usize, offset: usize, tenant: usize) -> usize
    requires { at + 3 ≤ length room.old }
    ensures { Wrote room.old at (place_octets offset tenant) room.new result × (result ≡ at + 3) }
{
    let a = octets::put_u16(room, at, (offset % 65536) as u16);
    octets::put_u8(room, a, (tenant % 256) as u8)
}

// The transaction id, the lease's start and end, and the set of its addresses.
fn put_numbers(room: &mut [u8], at: usize, xid: u32, v: Verdict) -> usize
    requires { at + 20 ≤ length room.old }
    ensures { Wrote room.old at (number_octets xid v) room.new result × (result ≡ at + 20) }
{
    let a = octets::put_u32(room, at, xid as u64);
    let b = octets::put_u32(room, a, v.start as u64);
    let c = octets::put_u32(room, b, v.end as u64);
    let d = octets::put_u32(room, c, v.addresses / 4294967296);
    octets::put_u32(room, d, v.addresses)
}

// What the message asked for besides a language.
fn put_asked(room: &mut [u8], at: usize, r: Ruling) -> usize
    requires { at + 3 ≤ length room.old }
    ensures { Wrote room.old at (asked_octets r) room.new result × (result ≡ at + 3) }
{
    let a = octets::put_u8(room, at, flag_of(r.features));
    let b = octets::put_u8(room, a, flag_of(r.list_asked));
    octets::put_u8(room, b, flag_of(r.time_asked))
}

fn put_language(room: &mut [u8], at: usize, l: Language) -> usize
    requires { at + 11 ≤ length room.old }
    ensures { Wrote room.old at (language_octets l) room.new result × (result ≡ at + 11) }
{
    let a = octets::put_u8(room, at, flag_of(l.asked));
    let b = octets::put_u16(room, a, (l.len % 65536) as u16);
    octets::put(room, b, &l.octets)
}

fn put_identifier(room: &mut [u8], at: usize, i: Identifier) -> usize
    requires { at + 33 ≤ length room.old }
    ensures { Wrote room.old at (identifier_octets i) room.new result × (result ≡ at + 33) }
{
    let a = octets::put_u8(room, at, i.len);
    octets::put(room, a, &i.octets)
}

// The identifier, and how many records were read.
fn put_last(room: &mut [u8], at: usize, r: Ruling) -> usize
    requires { at + 34 ≤ length room.old }
    ensures { Wrote room.old at (last_octets r) room.new result × (result ≡ at + 34) }
{
    let a = put_identifier(room, at, r.id);
    octets::put_u8(room, a, (r.count % 256) as u8)
}

// A verdict, in a room of its size.
pub fn put(room: &mut [u8; 75], r: Ruling)
    ensures { room.new ≡ verdict_octets r }
{
    let a = put_outcome(room, 0, r.verdict);
    let b = put_place(room, a, r.offset, r.tenant);
    let c = put_numbers(room, b, r.xid, r.verdict);
    let d = put_asked(room, c, r);
    let e = put_language(room, d, r.language);
    put_last(room, e, r);
}

// ---- read back

// The kind of reply with a number; none has another.
fn reply_for(n: u8) -> Reply
    ensures { result ≡ reply_for n }
{
    if n == 1 {
        return Reply::Offer;
    }
    if n == 2 {
        return Reply::LeaseAck;
    }
    if n == 3 {
        return Reply::ReleaseAck;
    }
    if n == 4 {
        return Reply::InfoAck;
    }
    if n == 5 {
        return Reply::Nak;
    }
    Reply::Nothing
}

// Any octet but 0 is true.
fn is_set(n: u8) -> bool
    ensures { result ≡ is_set n }
{
    n != 0
}

// The set that eight octets are.
fn set_at(s: &[u8; 75]) -> u64
    ensures { result ≡ set_at s.now 19 }
{
    let high = octets::read_u32(s, 19);
    let low = octets::read_u32(s, 23);
    u64::from(high) * 4294967296 + u64::from(low)
}

fn verdict_in(s: &[u8; 75]) -> Verdict
    ensures { result ≡ verdict_in s.now }
{
    Verdict {
        outcome: s[0],
        reply: reply_for(s[1]),
        error: s[2],
        scope: s[3],
        start: octets::read_u32(s, 11),
        end: octets::read_u32(s, 15),
        addresses: set_at(s),
    }
}

// Eight octets from a place on.
fn run_of_8(s: &[u8], at: usize) -> [u8; 8]
    requires { at + 8 ≤ length s.now }
    ensures { result ≡ run s.now at 8 }
{
    let mut out = [0u8; 8];
    out.copy_from_slice(&s[at..at + 8]);
    out
}

fn language_in(s: &[u8; 75]) -> Language
    ensures { result ≡ language_in s.now }
{
    Language {
        asked: is_set(s[30]),
        len: usize::from(octets::read_u16(s, 31)),
        octets: run_of_8(s, 33),
    }
}

fn identifier_in(s: &[u8; 75]) -> Identifier
    ensures { result ≡ identifier_in s.now }
{
    Identifier {
        octets: octets::read_run(s, 42, 32),
        len: s[41],
    }
}

// The verdict that 75 octets are, whatever they are.
pub fn take(s: &[u8; 75]) -> Ruling
    ensures { result ≡ ruling_in s.now }
{
    Ruling {
        verdict: verdict_in(s),
        offset: usize::from(octets::read_u16(s, 4)),
        count: usize::from(s[74]),
        tenant: usize::from(s[6]),
        xid: octets::read_u32(s, 7),
        id: identifier_in(s),
        features: is_set(s[27]),
        list_asked: is_set(s[28]),
        time_asked: is_set(s[29]),
        language: language_in(s),
    }
}

// The replies, written into a lent buffer of at least LEAST_ROOM octets. Each function returns the reply's length and leaves what is past it.
// Each writer asks for the room that its options can take at most, and promises to stay within it, so that the writers after it have theirs:
// an option takes 4 octets and its value's, of which a Lease Identifier has at most 32, Ranges 64 of 6 octets (a pool has 64 addresses), a
// Scope List 1 and 4 scopes of 10, each with a name of 43. A sum of such bounds is the bound of options in a row; header(8), the longest row(476) and End(4) are 488.
#![tactic(auto)]

ghost use Rattle.std.specs.Prelude.{◌≡◌, [], ◌∷◌, ◌++◌, ◌+◌, ◌-◌, ◌<◌, ◌≤◌, min, length, take};
ghost use Rattle.octets.specs.Octets.{octets16, octets32, Wrote};
ghost use Rattle.address_set.specs.AddressSet.{offsets, fewest_ranges};
ghost use Rattle.reply.specs.Reply.{least_room, option, header, wanted, server_option, identifier_option, features_option, range_octets, ranges_octets, ranges_option, entry_octets, scope_octets, scopes_octets, name_for, Sendable, scope_list_option, offer_of, lease_ack_of, release_ack_of, info_ack_of, nak_of, option_octets, message_octets, lease_options, info_options, nak_options};
ghost use Rattle.reply.specs.Put.{Put, Replied};

use address_set::Range;
use message::{Identifier, Language, MessageType, OptionCode};

// How many octets a reply room has at least (test 2).
pub const LEAST_ROOM: usize = 512;

// What every reply echoes of the client's message, and the server's address. `features`: the client sent option 12.
#[derive(Clone, Copy)]
pub struct Head {
    pub xid: u32,
    pub server: u32,
    pub id: Identifier,
    pub features: bool,
}

// A lease as a reply states it: its length and start, the scope by its lowest address, the addresses as offsets from it, and the clock.
#[derive(Clone, Copy)]
pub struct Terms {
    pub length: u32,
    pub start: u32,
    pub scope: u32,
    pub addresses: u64,
    pub clock: u32,
}

// A scope as option 9 lists it.
#[derive(Clone, Copy)]
pub struct ScopeEntry {
    pub lowest: u32,
    pub size: u8,
    pub ttl: u8,
}

// What GETINFO may ask for, and whether it did; and by what a scope's name is chosen: how many tenants there are, the place of the client's
// among them, and the language.
#[derive(Clone, Copy)]
pub struct Info {
    pub scopes: [ScopeEntry; 4],
    pub count: u8,
    pub list_asked: bool,
    pub clock: u32,
    pub time_asked: bool,
    pub tenants: u8,
    pub tenant: usize,
    pub language: Language,
}

// ---- parts of options

fn put_code(buffer: &mut [u8], at: usize, code: u16, n: u16) -> usize
    requires { at + 4 ≤ length buffer.old }
    ensures { Wrote buffer.old at (octets16 code ++ octets16 n) buffer.new result }
{
    let a = octets::put_u16(buffer, at, code);
    octets::put_u16(buffer, a, n)
}

// An option whose value is a number of four octets.
fn put_number(buffer: &mut [u8], at: usize, code: u16, v: u64) -> usize
    requires { at + 8 ≤ length buffer.old }
    ensures { Put buffer.old at (option code (octets32 v) ∷ []) buffer.new result 8 }
{
    let a = put_code(buffer, at, code, 4);
    octets::put_u32(buffer, a, v)
}

fn put_server(buffer: &mut [u8], at: usize, head: Head) -> usize
    requires { at + 10 ≤ length buffer.old }
    ensures { Put buffer.old at (server_option head ∷ []) buffer.new result 10 }
{
    let a = put_code(buffer, at, OptionCode::SERVER_IDENTIFIER, 6);
    let b = octets::put_u16(buffer, a, 1);
    octets::put_u32(buffer, b, u64::from(head.server))
}

// How many octets an identifier has: its length, cut to those that there are.
fn id_length(id: Identifier) -> usize
    ensures { (result ≡ length (take id.len id.octets)) × (result ≤ 32) }
{
    usize::from(id.len).min(32)
}

// A code and a length(4), and 32 octets: 36.
fn put_identifier(buffer: &mut [u8], at: usize, head: Head) -> usize
    requires { at + 36 ≤ length buffer.old }
    ensures { Put buffer.old at (identifier_option head ∷ []) buffer.new result 36 }
{
    let n = id_length(head.id);
    let a = put_code(buffer, at, OptionCode::LEASE_IDENTIFIER, n as u16);
    octets::put_run(buffer, a, &head.id.octets, n)
}

// Option 12 with three empty lists, if the client sent it.
fn put_features(buffer: &mut [u8], at: usize, head: Head) -> usize
    requires { at + 10 ≤ length buffer.old }
    ensures { Put buffer.old at (features_option head) buffer.new result 10 }
{
    if head.features {
        let a = put_code(buffer, at, OptionCode::FEATURES, 6);
        return octets::put_run(buffer, a, &[0, 0, 0, 0, 0, 0], 6);
    }
    at
}

fn put_error(buffer: &mut [u8], at: usize, error: u16) -> usize
    requires { at + 6 ≤ length buffer.old }
    ensures { Put buffer.old at (option 16 (octets16 error) ∷ []) buffer.new result 6 }
{
    let a = put_code(buffer, at, OptionCode::ERROR, 2);
    octets::put_u16(buffer, a, error)
}

// ---- option 10

// How many ranges name a set of addresses.
// Stays: what is left of the set is tested, and no index counted; an iterator over the ranges of a set would say `fewest_ranges` again in its contract.
fn range_count(set: u64) -> u16
    ensures { result ≡ length (fewest_ranges (offsets set)) }
{
    let mut left = set;
    let mut n: u16 = 0;
    while 0 < left {
        let r = address_set::first_range(left);
        left = address_set::rest(left, r);
        n += 1;
    }
    n
}

fn put_range(buffer: &mut [u8], at: usize, lowest: u32, r: Range) -> usize
    requires { (at + 6 ≤ length buffer.old) × (r.count ≤ 64) }
    ensures { Wrote buffer.old at (range_octets lowest r) buffer.new result }
{
    let a = octets::put_u32(buffer, at, u64::from(lowest) + u64::from(r.first));
    octets::put_u16(buffer, a, (r.count % 65536) as u16)
}

// Stays: as in `range_count`.
fn put_range_list(buffer: &mut [u8], at: usize, lowest: u32, set: u64) -> usize
    requires { at + 384 ≤ length buffer.old }
    ensures { Wrote buffer.old at (ranges_octets lowest (fewest_ranges (offsets set))) buffer.new result }
{
    let mut left = set;
    let mut to = at;
    while 0 < left {
        let r = address_set::first_range(left);
        to = put_range(buffer, to, lowest, r);
        left = address_set::rest(left, r);
    }
    to
}

// A code and a length(4), and 64 ranges of 6: 388.
fn put_ranges(buffer: &mut [u8], at: usize, terms: Terms) -> usize
    requires { at + 388 ≤ length buffer.old }
    ensures { Put buffer.old at (ranges_option terms ∷ []) buffer.new result 388 }
{
    let n = range_count(terms.addresses);
    let a = put_code(buffer, at, OptionCode::RANGES, n * 6);
    put_range_list(buffer, a, terms.scope, terms.addresses)
}

// ---- option 9

fn highest(e: ScopeEntry) -> u64
    ensures { result ≡ e.lowest + (e.size - 1) }
{
    u64::from(e.lowest) + u64::from(e.size.saturating_sub(1))
}

// How many names there are, by the octets of what is one name or none.
fn name_count(n: usize) -> u8
    ensures { result ≡ min n 1 }
{
    n.min(1) as u8
}

// A scope, up to its names.
fn put_entry(buffer: &mut [u8], at: usize, e: ScopeEntry, names: u8) -> usize
    requires { at + 10 ≤ length buffer.old }
    ensures { Wrote buffer.old at (entry_octets e names []) buffer.new result }
{
    let a = octets::put_u32(buffer, at, u64::from(e.lowest));
    let b = octets::put_u32(buffer, a, highest(e));
    let c = octets::put_u8(buffer, b, e.ttl);
    octets::put_u8(buffer, c, names)
}

// The scope e, and the name for its place, which is written from where it stands.
fn put_scope(
    buffer: &mut [u8],
    at: usize,
    e: ScopeEntry,
    place: usize,
    info: Info,
    names: &[u8],
) -> usize
    requires { (at + 53 ≤ length buffer.old) × (Sendable info names.now × (place < info.count)) }
    ensures { Wrote buffer.old at (scope_octets e (name_for info names.now place)) buffer.new result }
{
    let name = names::for_scope(names, info.tenants, info.tenant, place, info.language);
    let n = name.len();
    let a = put_entry(buffer, at, e, name_count(n));
    octets::put_run(buffer, a, name, n)
}

fn put_scopes(buffer: &mut [u8], at: usize, info: Info, names: &[u8], n: usize) -> usize
    requires { (at + 212 ≤ length buffer.old) × (Sendable info names.now × ((n ≤ info.count) × (n ≤ 4))) }
    ensures { Wrote buffer.old at (scopes_octets (name_for info names.now) 0 (take n info.scopes)) buffer.new result }
{
    let mut to = at;
    for i in 0..n {
        to = put_scope(buffer, to, info.scopes[i], i, info, names);
    }
    to
}

// A code and a length(4), a count(1), and 4 scopes of 10 with a name of 43: 217. The scopes are written first: only then the length is known.
fn put_scope_list(buffer: &mut [u8], at: usize, info: Info, names: &[u8]) -> usize
    requires { (at + 217 ≤ length buffer.old) × Sendable info names.now }
    ensures { Put buffer.old at (scope_list_option info names.now ∷ []) buffer.new result 217 }
{
    let n = usize::from(info.count).min(4);
    let end = put_scopes(buffer, at + 5, info, names, n);
    let a = put_code(buffer, at, OptionCode::SCOPE_LIST, (end - (at + 4)) as u16);
    let b = octets::put_u8(buffer, a, n as u8);
    end
}

// ---- messages

fn put_header(buffer: &mut [u8], kind: MessageType, xid: u32) -> usize
    requires { 8 ≤ length buffer.old }
    ensures { (Wrote buffer.old 0 (header kind.number xid) buffer.new result) × (result ≡ 8) }
{
    let a = octets::put_u8(buffer, 0, 0);
    let b = octets::put_u8(buffer, a, kind.number);
    let c = octets::put_u16(buffer, b, 1);
    octets::put_u32(buffer, c, u64::from(xid))
}

fn put_end(buffer: &mut [u8], at: usize) -> usize
    requires { at + 4 ≤ length buffer.old }
    ensures { Wrote buffer.old at (option_octets (option 0 [])) buffer.new result }
{
    put_code(buffer, at, OptionCode::END, 0)
}

// Server Identifier(10) and Lease Identifier(36), which every reply has: 46.
fn put_named(buffer: &mut [u8], at: usize, head: Head) -> usize
    requires { at + 46 ≤ length buffer.old }
    ensures { Put buffer.old at (server_option head ∷ identifier_option head ∷ []) buffer.new result 46 }
{
    let a = put_server(buffer, at, head);
    put_identifier(buffer, a, head)
}

// Lease Time, Scope, Start Time and Current Time 8 each, the two identifiers 46, Ranges 388, Features 10: 476.
fn put_lease_options(buffer: &mut [u8], at: usize, head: Head, terms: Terms) -> usize
    requires { at + 476 ≤ length buffer.old }
    ensures { Put buffer.old at (lease_options head terms) buffer.new result 476 }
{
    let a = put_number(buffer, at, OptionCode::LEASE_TIME, u64::from(terms.length));
    let b = put_named(buffer, a, head);
    let c = put_number(buffer, b, OptionCode::SCOPE, u64::from(terms.scope));
    let d = put_number(buffer, c, OptionCode::START_TIME, u64::from(terms.start));
    let e = put_ranges(buffer, d, terms);
    let f = put_number(buffer, e, OptionCode::CURRENT_TIME, u64::from(terms.clock));
    put_features(buffer, f, head)
}

fn put_scope_list_if(buffer: &mut [u8], at: usize, info: Info, names: &[u8]) -> usize
    requires { (at + 217 ≤ length buffer.old) × Sendable info names.now }
    ensures { Put buffer.old at (wanted info.list_asked (scope_list_option info names.now)) buffer.new result 217 }
{
    if info.list_asked {
        return put_scope_list(buffer, at, info, names);
    }
    at
}

fn put_time_if(buffer: &mut [u8], at: usize, info: Info) -> usize
    requires { at + 8 ≤ length buffer.old }
    ensures { Put buffer.old at (wanted info.time_asked (option 11 (octets32 info.clock))) buffer.new result 8 }
{
    if info.time_asked {
        return put_number(buffer, at, OptionCode::CURRENT_TIME, u64::from(info.clock));
    }
    at
}

// The two identifiers 46, Scope List 217, Current Time 8, Features 10: 281.
fn put_info_options(buffer: &mut [u8], at: usize, head: Head, info: Info, names: &[u8]) -> usize
    requires { (at + 281 ≤ length buffer.old) × Sendable info names.now }
    ensures { Put buffer.old at (info_options head info names.now) buffer.new result 281 }
{
    let a = put_named(buffer, at, head);
    let b = put_scope_list_if(buffer, a, info, names);
    let c = put_time_if(buffer, b, info);
    put_features(buffer, c, head)
}

// The two identifiers 46, Features 10, Error 6: 62.
fn put_nak_options(buffer: &mut [u8], at: usize, head: Head, error: u16) -> usize
    requires { at + 62 ≤ length buffer.old }
    ensures { Put buffer.old at (nak_options head error) buffer.new result 62 }
{
    let a = put_named(buffer, at, head);
    let b = put_features(buffer, a, head);
    put_error(buffer, b, error)
}

fn write_lease(buffer: &mut [u8], kind: MessageType, head: Head, terms: Terms) -> usize
    requires { least_room ≤ length buffer.old }
    ensures { Replied buffer.old (message_octets kind.number head.xid (lease_options head terms)) buffer.new result }
{
    let a = put_header(buffer, kind, head.xid);
    let b = put_lease_options(buffer, a, head, terms);
    put_end(buffer, b)
}

// OFFER.
pub fn write_offer(buffer: &mut [u8], head: Head, terms: Terms) -> usize
    requires { least_room ≤ length buffer.old }
    ensures { Replied buffer.old (offer_of head terms) buffer.new result }
{
    write_lease(buffer, MessageType::offer(), head, terms)
}

// ACK to REQUEST and RENEW.
pub fn write_lease_ack(buffer: &mut [u8], head: Head, terms: Terms) -> usize
    requires { least_room ≤ length buffer.old }
    ensures { Replied buffer.old (lease_ack_of head terms) buffer.new result }
{
    write_lease(buffer, MessageType::ack(), head, terms)
}

// ACK to RELEASE.
pub fn write_release_ack(buffer: &mut [u8], head: Head) -> usize
    requires { least_room ≤ length buffer.old }
    ensures { Replied buffer.old (release_ack_of head) buffer.new result }
{
    let a = put_header(buffer, MessageType::ack(), head.xid);
    let b = put_named(buffer, a, head);
    let c = put_features(buffer, b, head);
    put_end(buffer, c)
}

// ACK to GETINFO, with the scopes' names from a lent section of names.
pub fn write_info_ack(buffer: &mut [u8], head: Head, info: Info, names: &[u8]) -> usize
    requires { (least_room ≤ length buffer.old) × Sendable info names.now }
    ensures { Replied buffer.old (info_ack_of head info names.now) buffer.new result }
{
    let a = put_header(buffer, MessageType::ack(), head.xid);
    let b = put_info_options(buffer, a, head, info, names);
    put_end(buffer, b)
}

// NAK with an error's code.
pub fn write_nak(buffer: &mut [u8], head: Head, error: u16) -> usize
    requires { least_room ≤ length buffer.old }
    ensures { Replied buffer.old (nak_of head error) buffer.new result }
{
    let a = put_header(buffer, MessageType::nak(), head.xid);
    let b = put_nak_options(buffer, a, head, error);
    put_end(buffer, b)
}

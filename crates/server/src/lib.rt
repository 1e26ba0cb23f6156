// A call from test 3 on: the tenant of the client's address; the verdict on a datagram by that tenant's records (document 02's first half); and the reply
// written from a verdict, with the names and a reply buffer lent (the second).
#![tactic(auto)]

ghost use Rattle.std.specs.Prelude.{◌&&◌, ◌≡◌, ◌≤◌, ltb, length};
ghost use Rattle.message.specs.Read.{read_of};
ghost use Rattle.names.specs.Names.{names_b};
ghost use Rattle.reply.specs.Reply.{least_room};
ghost use Rattle.state.specs.Edit.{no_edit};
ghost use Rattle.server.specs.Serve.{decided_for, terms_of, entry_of, has_client, tenant_of, Tells};
ghost use Rattle.server.specs.Halves.{ruling_on, discard_ruling, no_identifier, no_language, judged_by, judge_server, judge_reading, head_in, info_in, info_with, replied_by, write_of, JudgesTenant};

use decision::{Reply, Verdict};
use message::{Fields, Identifier, Language, MessageType};
use reply::{Head, Info, ScopeEntry, Terms};
use soundness::HeldTable;
use state::{ClientRange, Edit, Scope, State, TenantLeases, TenantReleases};

// What the caller is told of a call: the outcome's number, the reply's length, with discard 5 where in the datagram the first option stands that breaks a
// rule, 0 with every other outcome, and how many of the tenant's records were compared to find the identifier.
#[derive(Clone, Copy)]
pub struct Outcome {
    pub outcome: u8,
    pub length: usize,
    pub offset: usize,
    pub count: usize,
}

// A verdict as a caller can keep it: the decision's, the offset that goes with discard 5, how many records were compared for it, and what a reply needs of the
// client and of its message.
#[derive(Clone, Copy)]
pub struct Ruling {
    pub verdict: Verdict,
    pub offset: usize,
    pub count: usize,
    pub tenant: usize,
    pub xid: u32,
    pub id: Identifier,
    pub features: bool,
    pub list_asked: bool,
    pub time_asked: bool,
    pub language: Language,
}

// A verdict, and what it does to what the client's tenant has.
#[derive(Clone, Copy)]
pub struct Judged {
    pub ruling: Ruling,
    pub edit: Edit,
}

// ---- the reply that a verdict asks for

fn head_of(s: State, r: Ruling) -> Head
    ensures { result ≡ head_in s r }
{
    Head {
        xid: r.xid,
        server: s.server,
        id: r.id,
        features: r.features,
    }
}

fn terms_of(s: State, v: Verdict) -> Terms
    ensures { result ≡ terms_of s v }
{
    let c = state::scope_at(s, usize::from(v.scope.saturating_sub(1)));
    Terms {
        length: v.end.saturating_sub(v.start),
        start: v.start,
        scope: c.lowest,
        addresses: v.addresses,
        clock: s.clock,
    }
}

fn entry_of(c: Scope) -> ScopeEntry
    ensures { result ≡ entry_of c }
{
    ScopeEntry {
        lowest: c.lowest,
        size: c.size,
        ttl: c.ttl,
    }
}

fn info_of(s: State, r: Ruling) -> Info
    ensures { result ≡ info_in s r }
{
    let a = entry_of(state::scope_at(s, 0));
    let b = entry_of(state::scope_at(s, 1));
    let c = entry_of(state::scope_at(s, 2));
    let d = entry_of(state::scope_at(s, 3));
    Info {
        scopes: [a, b, c, d],
        count: s.scope_count,
        list_asked: r.list_asked,
        clock: s.clock,
        time_asked: r.time_asked,
        tenants: s.tenant_count,
        tenant: r.tenant,
        language: r.language,
    }
}

// Whether the names are good for the settings, and the verdict's tenant is one of these.
fn can_send(s: State, names: &[u8], tenant: usize) -> bool
    ensures { result ≡ (names_b s.scope_count s.tenant_count names.now && ltb tenant s.tenant_count) }
{
    names::good(names, s.scope_count, s.tenant_count) && tenant < usize::from(s.tenant_count)
}

fn told(n: u8, length: usize, offset: usize, count: usize) -> Outcome
    ensures { result ≡ record { outcome = n; length = length; offset = offset; count = count } }
{
    Outcome {
        outcome: n,
        length,
        offset,
        count,
    }
}

// The ACK to GETINFO; discard 1 where the names can't be shown, as with a verdict that was made up or kept for another book.
fn write_info(s: State, names: &[u8], r: Ruling, reply: &mut [u8]) -> Outcome
    requires { least_room ≤ length reply.old }
    ensures { Tells (info_with r s names.now) reply.old reply.new result }
{
    if can_send(s, names, r.tenant) {
        let n = reply::write_info_ack(reply, head_of(s, r), info_of(s, r), names);
        return told(0, n, 0, r.count);
    }
    told(1, 0, 0, 0)
}

// The reply that a verdict with outcome 0 asks for.
fn write_reply(s: State, names: &[u8], r: Ruling, reply: &mut [u8]) -> Outcome
    requires { least_room ≤ length reply.old }
    ensures { Tells (replied_by r s names.now) reply.old reply.new result }
{
    let head = head_of(s, r);
    let v = r.verdict;
    match v.reply {
        Reply::Nothing => told(0, 0, 0, r.count),
        Reply::Offer => told(
            0,
            reply::write_offer(reply, head, terms_of(s, v)),
            0,
            r.count,
        ),
        Reply::LeaseAck => told(
            0,
            reply::write_lease_ack(reply, head, terms_of(s, v)),
            0,
            r.count,
        ),
        Reply::ReleaseAck => told(0, reply::write_release_ack(reply, head), 0, r.count),
        Reply::InfoAck => write_info(s, names, r, reply),
        Reply::Nak => told(
            0,
            reply::write_nak(reply, head, u16::from(v.error)),
            0,
            r.count,
        ),
    }
}

// The second half: writes the reply of a verdict and the state of the book that the first half gave with it. 2 where the room is below 512, then the
// discard's number; neither writes. Of a verdict and a state that were not given together it writes what they say, never past the 512th octet.
pub fn write(r: Ruling, s: State, names: &[u8], reply: &mut [u8]) -> Outcome
    ensures { Tells (write_of r s names.now (length reply.old)) reply.old reply.new result }
{
    if reply.len() < reply::LEAST_ROOM {
        return told(2, 0, 0, 0);
    }
    let v = r.verdict;
    if v.outcome == 0 {
        return write_reply(s, names, r, reply);
    }
    told(v.outcome.min(8), 0, r.offset, r.count)
}

// ---- the tests

fn no_identifier() -> Identifier
    ensures { result ≡ no_identifier }
{
    Identifier {
        octets: [0u8; 32],
        len: 0,
    }
}

fn no_language() -> Language
    ensures { result ≡ no_language }
{
    Language {
        asked: false,
        len: 0,
        octets: [0u8; 8],
    }
}

// A discard, with the offset that it carries.
pub fn discard(n: u8, offset: usize) -> Ruling
    ensures { result ≡ discard_ruling n offset }
{
    Ruling {
        verdict: decision::discard(n),
        offset,
        count: 0,
        tenant: 0,
        xid: 0,
        id: no_identifier(),
        features: false,
        list_asked: false,
        time_asked: false,
        language: no_language(),
    }
}

fn untouched(n: u8, offset: usize) -> Judged
    ensures { result ≡ record { ruling = discard_ruling n offset; edit = no_edit } }
{
    Judged {
        ruling: discard(n, offset),
        edit: state::no_edit(),
    }
}

fn rule(h: usize, m: Fields, n: usize, v: Verdict) -> Ruling
    ensures { result ≡ ruling_on h m n v }
{
    Ruling {
        verdict: v,
        offset: 0,
        count: n,
        tenant: h,
        xid: m.xid,
        id: m.id,
        features: m.features,
        list_asked: m.list_asked,
        time_asked: m.time_asked,
        language: m.language,
    }
}

// After test 7: the decision.
fn decided(
    s: State,
    own: TenantLeases,
    q: TenantReleases,
    held: HeldTable,
    h: usize,
    m: Fields,
) -> Judged
    ensures { JudgesTenant s own q held h (λ b. judged_by b h m (decided_for b h m)) result }
{
    let c = decision::decide(s, own, q, held, h, m);
    Judged {
        ruling: rule(h, m, c.count, c.decided.verdict),
        edit: c.decided.edit,
    }
}

// Test 7.
fn for_server(
    s: State,
    own: TenantLeases,
    q: TenantReleases,
    held: HeldTable,
    h: usize,
    m: Fields,
) -> Judged
    ensures { JudgesTenant s own q held h (λ b. judge_server b h m) result }
{
    if m.kind == MessageType::REQUEST {
        if m.ours {
            return decided(s, own, q, held, h, m);
        }
        return untouched(7, 0);
    }
    decided(s, own, q, held, h, m)
}

// The first half from test 4 on, on the records of the client's tenant, counted from 0, what is remembered of it, and what all tenants hold.
pub fn judge_tenant(
    s: State,
    own: TenantLeases,
    q: TenantReleases,
    held: HeldTable,
    h: usize,
    datagram: &[u8],
) -> Judged
    ensures { JudgesTenant s own q held h (λ b. judge_reading b h datagram.now (read_of datagram.now)) result }
{
    let r = message::read(datagram);
    if r.discard == 0 {
        let m = r.message.fields(datagram, s.server);
        return for_server(s, own, q, held, h, m);
    }
    untouched(r.discard, r.fault)
}

fn has_client(client: u32, r: ClientRange) -> bool
    ensures { result ≡ has_client client r }
{
    r.low <= client && client <= r.high
}

// The tenant of a client's address, counted from 0; their number where it has none.
pub fn tenant_of(s: State, client: u32) -> usize
    ensures { result ≡ tenant_of s client }
{
    let n = usize::from(s.tenant_count).min(8);
    s.tenants[..n]
        .iter()
        .position(|r| has_client(client, *r))
        .unwrap_or(n)
}

// The decision after tests 1 to 7: Resend, a RELEASE sent again, errors 1, 2, 3, a hold, error 0 and what the message asks for, with what it does to the tenant's leases and to what
// is remembered of it.
#![tactic(auto)]

ghost use Rattle.std.specs.Prelude.{◌≡◌, ◌≤◌, take, unwrap_or};
ghost use Rattle.state.specs.Book.{in_use, remembered, zero_lease};
ghost use Rattle.state.specs.Edit.{entering, leaving};
ghost use Rattle.decision.specs.Verdicts.{with_lease, plain_reply, nak_with, discard_with, refusal_of};
ghost use Rattle.admission.specs.Tests.{dropped_of};
ghost use Rattle.proposal.specs.Proposals.{held_from};
ghost use Rattle.decision.specs.Gather.{recorded_in, looked_up, not_asked, past_errors, past_early, decide_in};
ghost use Rattle.proposal.specs.Gather.{proposal_in, brought_in};
ghost use Rattle.decision.specs.Decide.{unchanged, changed, leased_of, plain_of, settled_of, repeated_of, dropped_first};
ghost use Rattle.decision.specs.Count.{count_of};
ghost use Rattle.decision.specs.declared.Reply.TheVariants.{Offer, LeaseAck, ReleaseAck, InfoAck};

use message::{Fields, MessageType};
use proposal::Proposal;
use soundness::HeldTable;
use state::{Edit, Lease, State, TenantLeases, TenantReleases};

// Which reply is sent: none, OFFER, ACK with a lease, ACK to RELEASE, ACK to GETINFO, or NAK.
#[derive(Clone, Copy)]
pub enum Reply {
    Nothing,
    Offer,
    LeaseAck,
    ReleaseAck,
    InfoAck,
    Nak,
}

// The outcome's number, the reply, a NAK's error, and the lease where the reply states one.
#[derive(Clone, Copy)]
pub struct Verdict {
    pub outcome: u8,
    pub reply: Reply,
    pub error: u8,
    pub scope: u8,
    pub start: u32,
    pub end: u32,
    pub addresses: u64,
}

// A verdict, and what it does to what the tenant has.
#[derive(Clone, Copy)]
pub struct Decided {
    pub verdict: Verdict,
    pub edit: Edit,
}

// A decision, and how many of the tenant's records its lookups compared: each is made where a test asks for it.
#[derive(Clone, Copy)]
pub struct Counted {
    pub decided: Decided,
    pub count: usize,
}

// The record that a tenant has of an identifier, a lease or a hold, where it has one, and how many were compared.
#[derive(Clone, Copy)]
struct Recorded {
    lease: Option<Lease>,
    compared: usize,
}

fn with_lease(reply: Reply, l: Lease) -> Verdict
    ensures { result ≡ with_lease reply l }
{
    Verdict {
        outcome: 0,
        reply: reply,
        error: 0,
        scope: l.scope,
        start: l.start,
        end: l.end,
        addresses: l.addresses,
    }
}

fn plain_reply(reply: Reply) -> Verdict
    ensures { result ≡ plain_reply reply }
{
    Verdict {
        outcome: 0,
        reply: reply,
        error: 0,
        scope: 0,
        start: 0,
        end: 0,
        addresses: 0,
    }
}

fn nak(error: u8) -> Verdict
    ensures { result ≡ nak_with error }
{
    Verdict {
        outcome: 0,
        reply: Reply::Nak,
        error: error,
        scope: 0,
        start: 0,
        end: 0,
        addresses: 0,
    }
}

// The verdict of a discard, whatever its number.
pub fn discard(number: u8) -> Verdict
    ensures { result ≡ discard_with number }
{
    Verdict {
        outcome: number,
        reply: Reply::Nothing,
        error: 0,
        scope: 0,
        start: 0,
        end: 0,
        addresses: 0,
    }
}

fn refusal(m: Fields, error: u8) -> Verdict
    ensures { result ≡ refusal_of m error }
{
    if m.kind == MessageType::DISCOVER {
        return discard(8);
    }
    if m.kind == MessageType::GETINFO {
        return discard(8);
    }
    nak(error)
}

// A verdict that leaves the leases as they are.
fn unchanged_by(v: Verdict) -> Decided
    ensures { result ≡ unchanged v }
{
    Decided {
        verdict: v,
        edit: state::no_edit(),
    }
}

fn refuse(m: Fields, error: u8) -> Decided
    ensures { result ≡ unchanged (refusal_of m error) }
{
    let v = refusal(m, error);
    unchanged_by(v)
}

// The OFFER of a lease, which is held.
fn offer(s: State, l: Lease) -> Decided
    ensures { result ≡ changed (entering (held_from s.clock l)) (with_lease Offer l) }
{
    let hold = proposal::hold_from(s.clock, l);
    Decided {
        verdict: with_lease(Reply::Offer, l),
        edit: state::enter(hold),
    }
}

// The OFFER of what is held already.
fn offer_again(l: Lease) -> Decided
    ensures { result ≡ unchanged (with_lease Offer l) }
{
    let v = with_lease(Reply::Offer, l);
    unchanged_by(v)
}

// The ACK to a REQUEST or a RENEW.
fn acknowledge(e: Edit, l: Lease) -> Decided
    ensures { result ≡ changed e (with_lease LeaseAck l) }
{
    Decided {
        verdict: with_lease(Reply::LeaseAck, l),
        edit: e,
    }
}

// The ACK to a RELEASE, which is remembered.
fn release(s: State, m: Fields, old: Lease) -> Decided
    ensures { result ≡ changed (leaving old m.xid s.clock) (plain_reply ReleaseAck) }
{
    Decided {
        verdict: plain_reply(Reply::ReleaseAck),
        edit: state::leave(old, m.xid, s.clock),
    }
}

// The ACK to a RELEASE that was served before.
fn acknowledge_again() -> Decided
    ensures { result ≡ unchanged (plain_reply ReleaseAck) }
{
    let v = plain_reply(Reply::ReleaseAck);
    unchanged_by(v)
}

fn inform() -> Decided
    ensures { result ≡ unchanged (plain_reply InfoAck) }
{
    let v = plain_reply(Reply::InfoAck);
    unchanged_by(v)
}

fn leased(s: State, m: Fields, old: Lease, l: Lease) -> Decided
    ensures { result ≡ leased_of s m old l }
{
    if m.kind == MessageType::DISCOVER {
        return offer(s, l);
    }
    if m.kind == MessageType::REQUEST {
        return acknowledge(state::enter(l), l);
    }
    acknowledge(state::give_way(old, l), l)
}

fn plain(s: State, m: Fields, old: Lease) -> Decided
    ensures { result ≡ plain_of s m old }
{
    if m.kind == MessageType::RELEASE {
        return release(s, m, old);
    }
    inform()
}

fn settle(s: State, m: Fields, old: Lease, p: Proposal) -> Decided
    ensures { result ≡ settled_of s m old p }
{
    if proposal::error_0(s, m, p) {
        return refuse(m, 0);
    }
    let l = proposal::lease_from(m, p);
    leased(s, m, old, l)
}

// What a DISCOVER or REQUEST makes of a hold in the same scope.
fn repeat(m: Fields, old: Lease) -> Decided
    ensures { result ≡ repeated_of m old }
{
    if proposal::hold_meets(m, old) {
        if m.kind == MessageType::DISCOVER {
            return offer_again(old);
        }
        let l = proposal::turn(m, old);
        return acknowledge(state::give_way(old, l), l);
    }
    refuse(m, 0)
}

// A decision before which a hold is dropped, also where it is a refusal.
fn drop_before(dropped: Option<Lease>, d: Decided) -> Decided
    ensures { result ≡ dropped_first dropped d }
{
    let Some(hold) = dropped else {
        return d;
    };
    Decided {
        verdict: d.verdict,
        edit: state::drop_first(hold, d.edit),
    }
}

// Error 0, or a lease, once a hold in another scope is dropped.
fn lease(
    s: State,
    own: TenantLeases,
    held: HeldTable,
    h: usize,
    m: Fields,
    old: Option<Lease>,
) -> Decided
    ensures { result ≡ dropped_first (dropped_of m old) (settled_of s m (unwrap_or old zero_lease) (proposal_in s (brought_in (in_use own) m old) held h m (unwrap_or old zero_lease))) }
{
    let l = old.unwrap_or(state::no_lease());
    let rest = proposal::brought(own, m, old);
    let p = proposal::propose(s, rest, held, h, m, l);
    let d = settle(s, m, l, p);
    drop_before(admission::dropped(m, old), d)
}

// What a message that has passed errors 1, 2 and 3 draws.
fn answer(
    s: State,
    own: TenantLeases,
    held: HeldTable,
    h: usize,
    m: Fields,
    old: Option<Lease>,
) -> Decided
    ensures { result ≡ past_errors s (proposal_in s (brought_in (in_use own) m old) held h m (unwrap_or old zero_lease)) m old }
{
    let l = old.unwrap_or(state::no_lease());
    if admission::is_for_hold(s, m, old) {
        return repeat(m, l);
    }
    if admission::has_period(m) {
        return lease(s, own, held, h, m, old);
    }
    plain(s, m, l)
}

// From error 1's last test on, which is the first to ask whether the tenant has the identifier.
fn judge(
    s: State,
    own: TenantLeases,
    held: HeldTable,
    h: usize,
    m: Fields,
    old: Option<Lease>,
) -> Decided
    ensures { result ≡ past_early s (proposal_in s (brought_in (in_use own) m old) held h m (unwrap_or old zero_lease)) m old }
{
    if admission::is_held_already(s, m, old) {
        return refuse(m, 1);
    }
    if admission::error_2(s, m) {
        return refuse(m, 2);
    }
    if admission::error_3(m, old) {
        return refuse(m, 3);
    }
    answer(s, own, held, h, m, old)
}

fn look_up(own: TenantLeases, id: [u8; 32], len: u8) -> Recorded
    ensures { result ≡ recorded_in (take len id) (in_use own) }
{
    let x = state::find(own, id, len);
    match x.place {
        Some(at) => Recorded {
            lease: Some(own.leases[at]),
            compared: x.compared,
        },
        None => Recorded {
            lease: None,
            compared: x.compared,
        },
    }
}

// No lookup: nothing is found, and nothing was compared.
fn not_asked() -> Recorded
    ensures { result ≡ not_asked }
{
    Recorded {
        lease: None,
        compared: 0,
    }
}

// The lookup of the message's identifier, made where a test asks for it.
fn look_up_if(asks: bool, own: TenantLeases, m: Fields) -> Recorded
    ensures { (result ≡ looked_up asks (in_use own) m) × (result.compared ≤ 16) }
{
    if asks {
        let i = m.id;
        let octets = i.octets;
        return look_up(own, octets, i.len);
    }
    not_asked()
}

fn count_with(d: Decided, count: usize) -> Counted
    ensures { result ≡ record { decided = d; count = count } }
{
    Counted {
        decided: d,
        count: count,
    }
}

// The verdict on a message of tenant h, counted from 0, and what it does to what the tenant has. `own` are the tenant's records, `q` what is
// remembered of its releases, and `held` is what all tenants hold. Where they are that of a sound book, the answer is document 01's over the whole
// book (`decide_in_law` in decision_laws). The count is of the records that were compared: each of the two lookups is made only where a test asks for it,
// the second again, though it finds what the first did.
pub fn decide(
    s: State,
    own: TenantLeases,
    q: TenantReleases,
    held: HeldTable,
    h: usize,
    m: Fields,
) -> Counted
    ensures { result ≡ record { decided = decide_in s (in_use own) (remembered q) held h m; count = count_of s (in_use own) (remembered q) m } }
{
    let first = look_up_if(admission::asks_resend(m), own, m);
    let sent = first.lease.unwrap_or(state::no_lease());
    let before = first.compared;
    if admission::is_resend(m, sent) {
        return count_with(acknowledge(state::no_edit(), sent), before);
    }
    if admission::is_released_again(s, q, m) {
        return count_with(acknowledge_again(), before);
    }
    if admission::early_1(s, m) {
        return count_with(refuse(m, 1), before);
    }
    let second = look_up_if(admission::asks_identifier(s, m), own, m);
    let d = judge(s, own, held, h, m, second.lease);
    count_with(d, before + second.compared)
}

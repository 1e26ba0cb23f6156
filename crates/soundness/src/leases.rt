// The rules on one lease or hold: 1, 2, 7, 13, the octets past its identifier and a lease's lapse.
ghost use Rattle.std.specs.Prelude.{◌≡◌, ◌||◌, eqb};
ghost use Rattle.state.specs.Book.{is_hold};
ghost use Rattle.soundness.specs.Sound.{id_b, below_b, scope_of, offsets_b, kind_b, period_b, lease_b, lapse_b, hold_b, padded_b};
ghost use Rattle.soundness.specs.Parts.{pools_of};

use crate::numbers::{is_one_to, set_at, zeros};
use message::MessageType;
use state::{HOLD_TIME, Lease, State};

#[tactic(auto, unfolding(crate::specs::Sound::id_b))]
pub fn id_ok(l: Lease) -> bool
    ensures { result ≡ id_b l }
{
    2 <= l.id_len && l.id_len <= 32
}

fn within(s: State, pools: [u64; 4], l: Lease) -> bool
    requires { pools ≡ pools_of s }
    ensures { result ≡ below_b (scope_of s l).size l.addresses }
{
    l.addresses <= set_at(pools, arithmetic::place_of(l.scope))
}

#[tactic(auto, unfolding(lists::specs::Pick::pick, crate::specs::Sound::offsets_b))]
pub fn offsets_ok(s: State, pools: [u64; 4], l: Lease) -> bool
    requires { pools ≡ pools_of s }
    ensures { result ≡ offsets_b s l }
{
    !is_one_to(s.scope_count, l.scope) || within(s, pools, l)
}

#[tactic(auto, unfolding(crate::specs::Sound::kind_b))]
fn kind_ok(l: Lease) -> bool
    ensures { result ≡ kind_b l }
{
    state::is_hold(l) || l.kind == MessageType::REQUEST || l.kind == MessageType::RENEW
}

#[tactic(auto, unfolding(crate::specs::Sound::period_b))]
fn period_ok(clock: u32, l: Lease) -> bool
    ensures { result ≡ period_b clock l }
{
    l.start < l.end && clock < l.end && 0 < l.addresses
}

#[tactic(auto, unfolding(crate::specs::Sound::lease_b))]
pub fn lease_ok(s: State, l: Lease) -> bool
    ensures { result ≡ lease_b s l }
{
    is_one_to(s.scope_count, l.scope) && kind_ok(l) && period_ok(s.clock, l)
}

#[tactic(auto, unfolding(crate::specs::Sound::lapse_b))]
fn lapse_ok(clock: u32, l: Lease) -> bool
    ensures { result ≡ lapse_b clock l }
{
    clock < l.lapse && u64::from(l.lapse) <= u64::from(clock) + HOLD_TIME && l.lapse <= l.end
}

#[tactic(auto, unfolding(lists::specs::Pick::pick, crate::specs::Sound::hold_b))]
pub fn hold_ok(clock: u32, l: Lease) -> bool
    ensures { result ≡ hold_b clock l }
{
    !state::is_hold(l) || lapse_ok(clock, l)
}

fn may_lapse(l: Lease) -> bool
    ensures { result ≡ (is_hold l || eqb l.lapse 0) }
{
    state::is_hold(l) || l.lapse == 0
}

#[tactic(auto, unfolding(crate::specs::Sound::padded_b))]
pub fn padded_ok(l: Lease) -> bool
    ensures { result ≡ padded_b l }
{
    may_lapse(l) && zeros(usize::from(l.id_len), &l.id)
}

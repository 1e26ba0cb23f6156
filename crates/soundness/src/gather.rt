// One tenant's leases in one loop, and a look at their neighbours and at what is not used: the rules on each, what the tenant holds, and whether each is on addresses of its own.
ghost use Rattle.std.specs.Prelude.{◌≡◌, ltb};
ghost use Rattle.state.specs.Book.{until};
ghost use Rattle.soundness.specs.Parts.{pools_of, fresh_in, added_lease, none_gathered, Passed};

use crate::holdings::add_sets;
use crate::leases::{hold_ok, id_ok, lease_ok, offsets_ok, padded_ok};
use crate::numbers::{is_one_to, set_at, sets_apart};
use crate::records::is_unused;
use crate::{Gathered, Held, Pass};
use lists::{every, every_next};
use state::{Lease, State, TenantLeases};

fn is_fresh(h: Held, l: Lease) -> bool
    ensures { result ≡ fresh_in h l }
{
    let k = arithmetic::place_of(l.scope);
    is_one_to(4, l.scope) & sets_apart(set_at(h.sets, k), l.addresses)
}

fn add_lease(s: State, pools: [u64; 4], g: Gathered, l: Lease) -> Gathered
    requires { pools ≡ pools_of s }
    ensures { result ≡ added_lease s g l }
{
    Gathered {
        ids: g.ids & id_ok(l),
        offsets: g.offsets & offsets_ok(s, pools, l),
        leases: g.leases & lease_ok(s, l),
        holds: g.holds & hold_ok(s.clock, l),
        padded: g.padded & padded_ok(l),
        held: add_sets(g.held, l),
        apart: g.apart & is_fresh(g.held, l),
    }
}

#[tactic(auto, unfolding(crate::specs::Parts::none_gathered))]
fn no_lease_yet(count: usize) -> Gathered
    ensures { result ≡ none_gathered count }
{
    let held = Held {
        sets: [0; 4],
        count,
        first_end: u32::MAX,
    };
    Gathered {
        ids: true,
        offsets: true,
        leases: true,
        holds: true,
        padded: true,
        held,
        apart: true,
    }
}

// Whether the ends alone, of a hold the lapse, say that a lease comes before another.
fn is_swift(a: Lease, b: Lease) -> bool
    ensures { result ≡ ltb (until a) (until b) }
{
    state::until_of(a) < state::until_of(b)
}

// All walks over a tenant's records start here and are lent parts of them, so that they are copied once.
pub fn pass(s: State, pools: [u64; 4], t: TenantLeases) -> Pass
    requires { pools ≡ pools_of s }
    ensures { Passed s t result }
{
    let n = t.count.min(16);
    let mut gathered = no_lease_yet(t.count);
    for l in &t.leases[..n] {
        gathered = add_lease(s, pools, gathered, *l);
    }
    Pass {
        gathered,
        swift: every_next(&t.leases[..n], |a, b| is_swift(*a, *b)),
        unused: every(&t.leases[n..], |l| is_unused(*l)),
    }
}

// Unused records.
ghost use Rattle.std.specs.Prelude.{◌≡◌};
ghost use Rattle.soundness.specs.Sound.{blank_b, unused_b};

use crate::numbers::zeros;
use state::Lease;

#[tactic(auto, unfolding(crate::specs::Sound::blank_b))]
fn is_blank(l: Lease) -> bool
    ensures { result ≡ blank_b l }
{
    l.scope == 0 && l.id_len == 0 && l.kind == 0 && l.xid == 0 && l.lapse == 0
}

#[tactic(auto, unfolding(crate::specs::Sound::unused_b))]
pub fn is_unused(l: Lease) -> bool
    ensures { result ≡ unused_b l }
{
    is_blank(l) && l.start == 0 && l.end == 0 && l.addresses == 0 && zeros(0, &l.id)
}

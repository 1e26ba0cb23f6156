// Small tests that the rules share.
ghost use Rattle.std.specs.Prelude.{◌≡◌, ltb, get_or};
ghost use Rattle.lists.specs.Pick.{pick};
ghost use Rattle.soundness.specs.Sound.{one_to, disjoint, zero_from};

#[tactic(auto, unfolding(crate::specs::Sound::one_to))]
pub fn is_one_to(most: u8, n: u8) -> bool
    ensures { result ≡ one_to most n }
{
    1 <= n && n <= most
}

// An octet from place n on, and 0 before it.
#[tactic(auto, unfolding(lists::specs::Pick::pick))]
fn from_place(x: u8, i: usize, n: usize) -> u8
    ensures { result ≡ pick (ltb i n) 0 x }
{
    if i < n { 0 } else { x }
}

// Whether all octets of an array from the nth on are 0: gathered to the end, with no way out on the way, since every record has it.
pub fn zeros<const N: usize>(n: usize, a: &[u8; N]) -> bool
    ensures { result ≡ zero_from n a.now }
{
    let mut any = 0;
    for (i, x) in a.iter().enumerate() {
        any |= from_place(*x, i, n);
    }
    any == 0
}

// The set at a place, or none.
pub fn set_at(sets: [u64; 4], k: usize) -> u64
    ensures { result ≡ get_or sets k 0 }
{
    if k < 4 { sets[k] } else { 0 }
}

#[tactic(auto, unfolding(crate::specs::Sound::disjoint))]
pub fn sets_apart(m: u64, n: u64) -> bool
    ensures { result ≡ disjoint m n }
{
    m & n == 0
}

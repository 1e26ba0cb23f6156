// A function on numbers that crates share and std lacks: the place of what has a number.
#![tactic(auto)]

ghost use Rattle.std.specs.Prelude.{◌≡◌, ◌-◌};

// The place, counted from 0, of what has a number that counts from 1; 0 for the number 0.
pub fn place_of(number: u8) -> usize
    ensures { result ≡ number - 1 }
{
    usize::from(number.saturating_sub(1))
}

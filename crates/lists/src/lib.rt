// Definitions and laws on lists and numbers, in specs/, and the loops that test each element of a part of an array, each pair and each neighbour.
#![tactic(auto)]

ghost use Rattle.std.specs.Prelude.{◌≡◌, Bool};
ghost use Rattle.lists.specs.All.{all_by, pairs_by};
ghost use Rattle.lists.specs.Next.{next_by};
ghost use Rattle.lists.specs.Calls.{Answers, AnswersPairs};

// Whether a test holds of each element.
pub fn every<T, F: Fn(&T) -> bool>(xs: &[T], holds: F) -> bool
    requires { F.IsAlwaysCallable holds }
    ensures { (t : T → Bool) → Answers F.Fn t holds → result ≡ all_by t xs.now }
{
    for x in xs {
        if !holds(x) {
            return false;
        }
    }
    true
}

// Whether a test holds of each element with each later one.
pub fn every_pair<T, F: Fn(&T, &T) -> bool>(xs: &[T], holds: F) -> bool
    requires { F.IsAlwaysCallable holds }
    ensures { (t : T → T → Bool) → AnswersPairs F.Fn t holds → result ≡ pairs_by t xs.now }
{
    for (i, x) in xs.iter().enumerate() {
        for y in &xs[i + 1..] {
            if !holds(x, y) {
                return false;
            }
        }
    }
    true
}

// Whether a test holds of each element with the next one.
pub fn every_next<T, F: Fn(&T, &T) -> bool>(xs: &[T], holds: F) -> bool
    requires { F.IsAlwaysCallable holds }
    ensures { (t : T → T → Bool) → AnswersPairs F.Fn t holds → result ≡ next_by t xs.now }
{
    for i in 1..xs.len() {
        if !holds(&xs[i - 1], &xs[i]) {
            return false;
        }
    }
    true
}

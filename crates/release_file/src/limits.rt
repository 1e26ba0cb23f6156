// Whether the book's memory can hold what a well-formed section has: so many releases of each tenant, and identifiers.
ghost use Rattle.std.specs.Prelude.{◌≡◌, ◌+◌, ◌-◌, ◌<◌, get_or};
ghost use Rattle.format.specs.Section.{InRow, Inside};
ghost use Rattle.format.specs.Tenants.{tally_by};
ghost use Rattle.lists.specs.All.{all_by, all_to};
ghost use Rattle.release_file.specs.Place.{AllKeepable, KeepableAt, after_release, file_release_at, releases_from};
ghost use Rattle.release_file.specs.Section.{few_for, keepable_b, release_tenant};

// Whether the memory can hold each of `count` releases that start at `from`.
pub fn all_keepable(s: &[u8], from: usize, count: usize) -> bool
    requires { InRow after_release s.now from count }
    ensures { result ≡ all_by keepable_b (releases_from s.now from count) }
{
    let mut here = from;
    for _ in 0..count {
        if !keepable_at(s, here) {
            return false;
        }
        here = release_next(s, here);
    }
    true
}

// Whether the memory can hold the release that starts at `at`.
fn keepable_at(s: &[u8], at: usize) -> bool
    requires { Inside after_release s.now at }
    ensures { result ≡ keepable_b (file_release_at s.now at) }
{
    matches!((s[at], s[at + 1]), (1..=8, 0..=32))
}

// Whether no tenant has more releases than entries.
pub fn all_few(s: &[u8], from: usize, count: usize) -> bool
    requires { AllKeepable s.now from count × (count < 256) }
    ensures { result ≡ all_to (λ i. few_for (releases_from s.now from count) (i + 1)) 8 }
{
    tally(s, from, count).iter().all(|n| *n <= 4)
}

// How many of `count` releases that start at `from` each tenant has.
fn tally(s: &[u8], from: usize, count: usize) -> [usize; 8]
    requires { AllKeepable s.now from count × (count < 256) }
    ensures { result ≡ tally_by release_tenant (releases_from s.now from count) }
{
    let mut n = [0usize; 8];
    let mut here = from;
    for _ in 0..count {
        n[tenant_place(s, here)] += 1;
        here = release_next(s, here);
    }
    n
}

// Where the release that starts at `at` ends.
pub fn release_next(s: &[u8], at: usize) -> usize
    requires { Inside after_release s.now at }
    ensures { result ≡ after_release s.now at }
{
    at + (usize::from(s[at + 1]) + 10)
}

// The place among the tenants of the one whose release starts at `at`.
pub fn tenant_place(s: &[u8], at: usize) -> usize
    requires { KeepableAt s.now at }
    ensures { (result ≡ get_or s.now at 0 - 1) × (result < 8) }
{
    usize::from(s[at]) - 1
}

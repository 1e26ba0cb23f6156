// The form of the section, judged over its octets with nothing stored: where each release ends, and their order.
ghost use Rattle.std.specs.Prelude.{◌&&◌, ◌||◌, ◌≡◌, ◌+◌, ◌<◌, ◌≤◌, eqb, ltb, get_or, length};
ghost use Rattle.format.specs.Section.{Inside};
ghost use Rattle.octets.specs.Octets.{at32};
ghost use Rattle.release_file.specs.Place.{ReleaseEnds, ReleasesEnd, after_release};

// Where `count` releases that start at `from` end.
pub fn releases_end(s: &[u8], from: usize, count: usize) -> Option<usize>
    requires { from ≤ length s.now }
    ensures { ReleasesEnd count s.now from result }
{
    let mut here = from;
    let mut tenant: u8 = 0;
    let mut time: u32 = 0;
    for _ in 0..count {
        let next = release_end(s, here)?;
        let t = s[here];
        let released = time_at(s, here);
        if is_later(tenant, time, t, released) {
            return None;
        }
        tenant = t;
        time = released;
        here = next;
    }
    Some(here)
}

// Where the release that starts at `at` ends.
fn release_end(s: &[u8], at: usize) -> Option<usize>
    requires { at ≤ length s.now }
    ensures { ReleaseEnds s.now at result }
{
    let left = s.len() - at;
    if left < 2 {
        return None;
    }
    let n = usize::from(s[at + 1]);
    if left < n + 10 {
        return None;
    }
    Some(at + (n + 10))
}

// The time of the release that starts at `at`.
pub fn time_at(s: &[u8], at: usize) -> u32
    requires { Inside after_release s.now at }
    ensures { result ≡ at32 s.now (at + (get_or s.now (at + 1) 0 + 6)) }
{
    let n = usize::from(s[at + 1]);
    octets::read_u32(s, at + (n + 6))
}

// Whether a tenant's release at a time is out of order before another tenant's at a time.
fn is_later(tenant: u8, time: u32, next: u8, released: u32) -> bool
    ensures { result ≡ (ltb next tenant || (eqb next tenant && ltb released time)) }
{
    next < tenant || (next == tenant && released < time)
}

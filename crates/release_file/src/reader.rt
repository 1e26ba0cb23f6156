// The memory of a section whose form is right and that it can hold, tenant by tenant.
ghost use Rattle.std.specs.Prelude.{◌≡◌};
ghost use Rattle.release_file.specs.Place.{AllKeepable, KeepableAt, file_release_at, kept_all, releases_from};
ghost use Rattle.release_file.specs.Section.{stored_release};

use crate::form::time_at;
use crate::limits::{release_next, tenant_place};
use state::{Release, TenantReleases};

// What eight tenants released, among `count` releases that start at `from`.
pub fn all_releases(s: &[u8], from: usize, count: usize) -> [TenantReleases; 8]
    requires { AllKeepable s.now from count }
    ensures { result ≡ kept_all (releases_from s.now from count) }
{
    let mut out = [state::no_releases(); 8];
    let mut here = from;
    for _ in 0..count {
        let t = tenant_place(s, here);
        out[t] = state::push_release(out[t], release_at(s, here));
        here = release_next(s, here);
    }
    out
}

// The release that starts at `at`.
pub fn release_at(s: &[u8], at: usize) -> Release
    requires { KeepableAt s.now at }
    ensures { result ≡ stored_release (file_release_at s.now at) }
{
    let n = usize::from(s[at + 1]);
    let id = octets::read_run(s, at + 2, n);
    Release {
        id_len: s[at + 1],
        id,
        xid: octets::read_u32(s, at + (n + 2)),
        time: time_at(s, at),
    }
}

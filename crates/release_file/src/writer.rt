// The octets of the releases, tenant by tenant, into a buffer that is long enough.
ghost use Rattle.std.specs.Prelude.{◌∷◌, ◌+◌, ◌≤◌, length};
ghost use Rattle.octets.specs.Octets.{Wrote};
ghost use Rattle.release_file.specs.Section.{filed_release, release_format};
ghost use Rattle.release_file.specs.Rows.{memory_rows, tenant_octets};
ghost use Rattle.state.specs.Book.{release_id};

use state::{Memory, Release, TenantReleases};

// All releases.
pub fn put_releases(buffer: &mut [u8], at: usize, m: Memory) -> usize
    requires { at + length (memory_rows m) ≤ length buffer.old }
    ensures { Wrote buffer.old at (memory_rows m) buffer.new result }
{
    let mut to = at;
    for (i, q) in m.releases.iter().enumerate() {
        to = put_tenant(buffer, to, (i + 1) as u8, *q);
    }
    to
}

// A tenant's releases.
fn put_tenant(buffer: &mut [u8], at: usize, tenant: u8, q: TenantReleases) -> usize
    requires { at + length (tenant_octets tenant q) ≤ length buffer.old }
    ensures { Wrote buffer.old at (tenant_octets tenant q) buffer.new result }
{
    let mut to = at;
    for e in &q.releases[..q.count.min(4)] {
        to = put_release(buffer, to, tenant, *e);
    }
    to
}

// A tenant's release.
fn put_release(buffer: &mut [u8], at: usize, tenant: u8, e: Release) -> usize
    requires { at + length (release_format.write (filed_release tenant e)) ≤ length buffer.old }
    ensures { Wrote buffer.old at (release_format.write (filed_release tenant e)) buffer.new result }
{
    let a = put_head(buffer, at, tenant, e);
    let b = octets::put_u32(buffer, a, e.xid as u64);
    octets::put_u32(buffer, b, e.time as u64)
}

// The tenant and the identifier of a release.
fn put_head(buffer: &mut [u8], at: usize, tenant: u8, e: Release) -> usize
    requires { at + (length (release_id e) + 2) ≤ length buffer.old }
    ensures { Wrote buffer.old at (tenant ∷ length (release_id e) ∷ release_id e) buffer.new result }
{
    let n = usize::from(e.id_len).min(32);
    let a = octets::put_u8(buffer, at, tenant);
    let b = octets::put_u8(buffer, a, n as u8);
    octets::put_run(buffer, b, &e.id, n)
}

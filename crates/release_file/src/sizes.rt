// How many releases a memory has, and how many octets they take.
ghost use Rattle.std.specs.Prelude.{◌≡◌, ◌≤◌, length};
ghost use Rattle.release_file.specs.Rows.{memory_rows, memory_total, release_octets, tenant_octets};
ghost use Rattle.state.specs.Book.{remembered};

use state::{Memory, Release, TenantReleases};

pub fn total(m: Memory) -> usize
    ensures { (result ≡ memory_total m) × (result ≤ 32) }
{
    let mut sum = 0;
    for q in &m.releases {
        sum += count_of(*q);
    }
    sum
}

fn count_of(q: TenantReleases) -> usize
    ensures { (result ≡ length (remembered q)) × (result ≤ 4) }
{
    q.count.min(4)
}

// Octets of all releases.
pub fn releases_size(m: Memory) -> usize
    ensures { (result ≡ length (memory_rows m)) × (result ≤ 1344) }
{
    let mut sum = 0;
    for q in &m.releases {
        sum += tenant_size(*q);
    }
    sum
}

fn tenant_size(q: TenantReleases) -> usize
    ensures { (result ≡ length (tenant_octets 0 q)) × (result ≤ 168) }
{
    let mut sum = 0;
    for e in &q.releases[..q.count.min(4)] {
        sum += release_size(*e);
    }
    sum
}

fn release_size(e: Release) -> usize
    ensures { (result ≡ length (release_octets 0 0 e)) × (result ≤ 42) }
{
    usize::from(e.id_len).min(32) + 10
}

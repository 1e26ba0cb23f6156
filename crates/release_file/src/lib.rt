// The campus file's section of releases (document 02, W-202): where it ends, whether the book's memory can hold it, reading it and writing it.
#![tactic(auto)]

mod form;
mod limits;
mod reader;
mod sizes;
mod writer;

ghost use Rattle.std.specs.Prelude.{true, ◌≡◌, ◌+◌, ◌≤◌, length};
ghost use Rattle.octets.specs.Octets.{Wrote};
ghost use Rattle.release_file.specs.Section.{memory_octets, releases_fit_b, stored_memory};
ghost use Rattle.release_file.specs.Place.{ReleaseSection, ReleasesIn, releases_in};

use crate::form::releases_end;
use crate::limits::{all_few, all_keepable};
use crate::reader::all_releases;
use crate::sizes::{releases_size, total};
use crate::writer::put_releases;
pub use limits::release_next;
pub use reader::release_at;
use state::Memory;

// Where the section that starts at `at` ends.
pub fn section_end(s: &[u8], at: usize) -> Option<usize>
    requires { at ≤ length s.now }
    ensures { ReleaseSection s.now at result }
{
    if s.len() <= at {
        return None;
    }
    releases_end(s, at + 1, usize::from(s[at]))
}

// Whether the memory can hold the section that starts at `at`.
pub fn fits(s: &[u8], at: usize) -> bool
    requires { ReleasesIn s.now at }
    ensures { result ≡ releases_fit_b (releases_in s.now at) }
{
    let count = usize::from(s[at]);
    all_keepable(s, at + 1, count) && all_few(s, at + 1, count)
}

// The memory of the section that starts at `at`.
pub fn load(s: &[u8], at: usize) -> Memory
    requires { ReleasesIn s.now at × (releases_fit_b (releases_in s.now at) ≡ true) }
    ensures { result ≡ stored_memory (releases_in s.now at) }
{
    let count = usize::from(s[at]);
    let releases = all_releases(s, at + 1, count);
    Memory {
        releases,
        board: occupancy::no_board(),
    }
}

// How many octets the section of a memory has.
pub fn size(m: Memory) -> usize
    ensures { (result ≡ length (memory_octets m)) × (result ≤ 1345) }
{
    1 + releases_size(m)
}

// The section of a memory, written from `at` on.
pub fn put(buffer: &mut [u8], at: usize, m: Memory) -> usize
    requires { at + length (memory_octets m) ≤ length buffer.old }
    ensures { Wrote buffer.old at (memory_octets m) buffer.new result }
{
    let a = octets::put_u8(buffer, at, total(m) as u8);
    put_releases(buffer, a, m)
}

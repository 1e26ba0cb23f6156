// The form of a state file, judged over its octets with nothing stored: where each section ends, leases in order, good names, releases and holds in order.
ghost use Rattle.std.specs.Prelude.{◌≡◌, ◌*◌, ◌<◌};
ghost use Rattle.format.specs.Place.{counted_end};
ghost use Rattle.state_file.specs.Place.{FirstIn, FormedBy};

use crate::{FILE_LIMIT, Places};

// Whether the octets have the form of a state file, and where its sections start.
pub fn form_of(s: &[u8]) -> Option<Places>
    ensures { FormedBy s.now result }
{
    let len = s.len();
    if FILE_LIMIT < len {
        return None;
    }
    if len < 9 {
        return None;
    }
    if s[0] != 1 {
        return None;
    }
    let ranges = counted_end(s, 9, 8);
    let Some(scopes) = ranges else {
        return None;
    };
    let pools = counted_end(s, scopes, 6 + usize::from(s[9]) * 2);
    let Some(leases) = pools else {
        return None;
    };
    let records = lease_file::section_end(s, leases, false);
    let Some(names) = records else {
        return None;
    };
    last_sections(s, scopes, leases, names)
}

// The same where the sections before the names have the form: by where they start and the names do.
fn last_sections(s: &[u8], scopes: usize, leases: usize, names: usize) -> Option<Places>
    requires { FirstIn s.now scopes leases names }
    ensures { FormedBy s.now result }
{
    let lists = names::section_end(s, names, s[scopes], s[9]);
    let Some(releases) = lists else {
        return None;
    };
    let memory = release_file::section_end(s, releases);
    let Some(holds) = memory else {
        return None;
    };
    let last = lease_file::section_end(s, holds, true);
    let Some(end) = last else {
        return None;
    };
    if end != s.len() {
        return None;
    }
    Some(Places {
        scopes,
        leases,
        names,
        releases,
        holds,
    })
}

// Where a count at `at` and as many values of z octets end.
fn counted_end(s: &[u8], at: usize, z: usize) -> Option<usize>
    requires { z < 600 }
    ensures { result ≡ counted_end s.now at z }
{
    if s.len() <= at {
        return None;
    }
    let end = at + 1 + octets_of(usize::from(s[at]), z);
    if s.len() < end {
        return None;
    }
    Some(end)
}

// How many octets n values of z octets take.
fn octets_of(n: usize, z: usize) -> usize
    requires { (n < 256) × (z < 600) }
    ensures { (result ≡ n * z) × (result < 200000) }
{
    n * z
}

// The walk over a state file that is salvaged (document 02, W-212): leases in file order, then holds, then releases, each judged with those kept before it; and the settings alone.
// The walk keeps a rule for each entry, so that both rooms can be written once both lengths are known.
#![tactic(auto)]

ghost use Rattle.std.specs.Prelude.{true, ◌≡◌};
ghost use Rattle.lease_file.specs.Place.{EntriesIn, entries_in};
ghost use Rattle.release_file.specs.Place.{ReleasesIn, releases_in};
ghost use Rattle.state_file.specs.Place.{Formed, file_at};
ghost use Rattle.state_file.specs.StateFile.{zero_table};
ghost use Rattle.salvage_walk.specs.Walk.{WalksFile, WalksRecords, WalksReleases, settings_sound};

use salvage_rules::{entry_rule, keep_entry, keep_release, release_rule};
use state::{LeaseTable, Memory, State};
use state_file::Places;

// The records that were kept of a section of leases or holds, with those before it, and the rule that each entry breaks, in their order: 0 of one that is kept.
#[derive(Clone, Copy)]
struct Walked {
    table: LeaseTable,
    rules: [u8; 255],
}

// The same of the releases.
#[derive(Clone, Copy)]
struct WalkedReleases {
    memory: Memory,
    rules: [u8; 255],
}

// The book of those kept, and the rules of all three sections.
#[derive(Clone, Copy)]
pub struct Kept {
    pub state: State,
    pub table: LeaseTable,
    pub memory: Memory,
    pub leases: [u8; 255],
    pub holds: [u8; 255],
    pub releases: [u8; 255],
}

// Records without a lease or hold.
fn no_table() -> LeaseTable
    ensures { result ≡ zero_table }
{
    LeaseTable {
        tenants: [state::no_leases(); 8],
    }
}

// Whether the settings of a file are sound, with no lease, hold or release.
pub fn settings_sound(file: &[u8], places: Places) -> bool
    requires { Formed file.now places }
    ensures { result ≡ settings_sound (file_at file.now places) }
{
    let at = places.scopes;
    state_file::counts_fit(file[9], file[at])
        && soundness::sound(state_file::state_at(file, at), no_table())
}

// The whole walk over a file whose settings are sound.
pub fn walk(file: &[u8], places: Places) -> Kept
    requires { Formed file.now places × (settings_sound (file_at file.now places) ≡ true) }
    ensures { WalksFile (file_at file.now places) result }
{
    let state = state_file::state_at(file, places.scopes);
    let a = walk_records(file, places.leases, false, state, no_table());
    let b = walk_records(file, places.holds, true, state, a.table);
    let c = walk_releases(
        file,
        places.releases,
        state,
        b.table,
        state_file::no_memory(),
    );
    let leases = a.rules;
    let holds = b.rules;
    let releases = c.rules;
    Kept {
        state,
        table: b.table,
        memory: c.memory,
        leases,
        holds,
        releases,
    }
}

// Over the section of leases or holds that starts at `at`, after the records that were kept before.
fn walk_records(s: &[u8], at: usize, holds: bool, state: State, before: LeaseTable) -> Walked
    requires { EntriesIn holds s.now at }
    ensures { WalksRecords holds state before (entries_in holds s.now at) result }
{
    let mut table = before;
    let mut rules = [0u8; 255];
    let count = usize::from(s[at]);
    let mut here = at + 1;
    for i in 0..count {
        let r = entry_rule(s, here, holds, state, table);
        rules[i] = r;
        table = keep_entry(s, here, holds, r, table);
        here = lease_file::entry_next(s, here, holds);
    }
    Walked { table, rules }
}

// Over the section of releases that starts at `at`, by the records that were kept.
fn walk_releases(
    s: &[u8],
    at: usize,
    state: State,
    table: LeaseTable,
    before: Memory,
) -> WalkedReleases
    requires { ReleasesIn s.now at }
    ensures { WalksReleases state table before (releases_in s.now at) result }
{
    let mut memory = before;
    let mut rules = [0u8; 255];
    let count = usize::from(s[at]);
    let mut here = at + 1;
    for i in 0..count {
        let r = release_rule(s, here, state, table, memory);
        rules[i] = r;
        memory = keep_release(s, here, r, memory);
        here = release_file::release_next(s, here);
    }
    WalkedReleases { memory, rules }
}

// The lent lease records by value, surveyed: which rules they keep and what the tenants hold, which test 1 asks; and the drop of ended leases.
#![tactic(auto)]

ghost use Rattle.std.specs.Prelude.{◌&&◌, true, ◌≡◌, eqb};
ghost use Rattle.lists.specs.All.{all_by, pairs_by};
ghost use Rattle.names.specs.Names.{names_b};
ghost use Rattle.soundness.specs.Parts.{holdings_of, sound_from, table_rules_of};
ghost use Rattle.releases.specs.Rules.{broken_release, release_rules_of};
ghost use Rattle.occupancy.specs.Board.{same_board};
ghost use Rattle.state.specs.Book.{leases_of, ordered, table_of};
ghost use Rattle.state.specs.Board.{built_of};
ghost use Rattle.records.specs.Records.{table_from};
ghost use Rattle.record_survey.specs.Survey.{Drops, ends_after};

use occupancy::Board;
use records::Records;
use releases::ReleaseRules;
use soundness::{Held, HeldTable, TableRules};
use state::{Memory, State};

// What one pass over the records gathers: which rules they keep and what all tenants hold, which rules what is remembered keeps, and the board that the
// leases make.
#[derive(Clone, Copy)]
pub struct Surveyed {
    pub rules: TableRules,
    pub releases: ReleaseRules,
    pub built: Board,
}

// Records after a drop, what their tenants hold, and the board.
#[derive(Clone, Copy)]
pub struct Dropped {
    pub records: Records,
    pub held: HeldTable,
    pub board: Board,
}

// Which rules each tenant's records and releases keep, what all tenants hold, and the board that the leases make, row by row.
pub fn survey(s: State, memory: Memory, records: Records) -> Surveyed
    ensures { (result.rules ≡ table_rules_of s (table_from records.leases)) × (result.releases ≡ release_rules_of s (table_from records.leases) memory) × (result.built ≡ built_of (table_from records.leases)) }
{
    let pools = soundness::pools_of(s);
    let n = usize::from(s.tenant_count).min(8);
    let mut rules = soundness::no_tenants();
    let mut releases = releases::no_tenants();
    let mut built = occupancy::no_board();
    for h in 0..8 {
        let t = records::row_at(&records.leases, h);
        rules = soundness::add_tenant(s, pools, rules, h, t);
        releases = releases::add_tenant(releases, n, s.clock, h, t, memory.releases[h]);
        built = agreement::add_tenant(built, h, t);
    }
    Surveyed {
        rules,
        releases,
        built,
    }
}

// What all tenants hold, row by row: all that a call on a book needs that is known to be sound.
pub fn holdings(records: Records) -> HeldTable
    ensures { result ≡ holdings_of (table_from records.leases) }
{
    let mut now = soundness::no_tenants().held;
    for h in 0..8 {
        now.tenants[h] = soundness::held_sets(records::row_at(&records.leases, h));
    }
    now
}

// Test 1: every rule holds, of what is remembered and of the board too, and the names are good for the settings.
pub fn is_sound(s: State, board: Board, c: Surveyed, names: &[u8]) -> bool
    ensures { result ≡ (sound_from s c.rules && (eqb (broken_release c.releases) 0 && (same_board board c.built && names_b s.scope_count s.tenant_count names.now))) }
{
    soundness::sound_from(s, c.rules)
        && releases::first_broken(c.releases) == 0
        && occupancy::same(board, c.built)
        && names::good(names, s.scope_count, s.tenant_count)
}

// ---- the drop

fn ends_after(x: Held, clock: u32) -> bool
    ensures { result ≡ ends_after clock x }
{
    clock < x.first_end
}

// Whether no lease ends at or before a clock.
pub fn none_ended(held: HeldTable, clock: u32) -> bool
    ensures { result ≡ all_by (ends_after clock) held.tenants }
{
    held.tenants.iter().all(|x| ends_after(*x, clock))
}

// The leases that end at or before a clock go from the front of each tenant's records, and are taken off the board; the records of a tenant that has none stay as they are.
pub fn drop_ended(records: Records, held: HeldTable, board: Board, clock: u32) -> Dropped
    requires { (table_from records.leases ≡ table_of (leases_of (table_from records.leases))) × (held ≡ holdings_of (table_from records.leases)) × (all_by (pairs_by ordered) (leases_of (table_from records.leases)) ≡ true) }
    ensures { Drops clock records.leases board result }
{
    let mut now = records;
    let mut sets = held;
    let mut cleared = board;
    for h in 0..8 {
        if !ends_after(held.tenants[h], clock) {
            let t = records::row_at(&records.leases, h);
            let n = state::ended_count(t, clock);
            let left = state::rest_from(t, n);
            now = records::put_row(now, h, left);
            sets.tenants[h] = soundness::held_sets(left);
            cleared = agreement::clear(cleared, h, t, n);
        }
    }
    Dropped {
        records: now,
        held: sets,
        board: cleared,
    }
}

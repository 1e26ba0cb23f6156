// The book of a file whose form is right: the settings, then the leases and holds, then the releases, then soundness, and then the board; or its refusal alone, without the board.
ghost use Rattle.std.specs.Prelude.{◌&&◌, map, ◌≡◌, ◌*◌, ◌+◌, ◌≤◌, get_or, length};
ghost use Rattle.format.specs.Place.{row};
ghost use Rattle.releases.specs.Rules.{memory_b};
ghost use Rattle.soundness.specs.Sound.{sound_b};
ghost use Rattle.state.specs.Book.{zero_scope};
ghost use Rattle.state_file.specs.Place.{Formed, SettingsIn, file_at, file_scope_at, range_at, state_at};
ghost use Rattle.state_file.specs.Records.{filled, stored_scope, zero_range};
ghost use Rattle.state_file.specs.StateFile.{judged, loaded, refusal_number};

use crate::limits::fits;
use crate::{Loaded, Places, Refusal};
use state::{ClientRange, LeaseTable, Memory, Scope, State};

// The book of a file by its places, or that it is unsound.
pub fn book_at(s: &[u8], places: Places) -> Result<Loaded, Refusal>
    requires { Formed s.now places }
    ensures { result ≡ loaded (file_at s.now places) }
{
    if !fits(s, places) {
        return Err(Refusal::UnsoundFile);
    }
    let state = state_at(s, places.scopes);
    let table = lease_file::load(s, places.leases, places.holds);
    let memory = release_file::load(s, places.releases);
    judge(state, table, memory)
}

fn judge(state: State, table: LeaseTable, memory: Memory) -> Result<Loaded, Refusal>
    ensures { result ≡ judged state table memory }
{
    if !rules_hold(state, table, memory) {
        return Err(Refusal::UnsoundFile);
    }
    let board = agreement::build(table);
    Ok(Loaded {
        state,
        table,
        memory: Memory { board, ..memory },
    })
}

// The refusal alone, for who wants no book: no board is made, since none is refused.
pub fn check_at(s: &[u8], places: Places) -> Result<(), Refusal>
    requires { Formed s.now places }
    ensures { refusal_number result ≡ refusal_number (loaded (file_at s.now places)) }
{
    if !fits(s, places) {
        return Err(Refusal::UnsoundFile);
    }
    let state = state_at(s, places.scopes);
    let table = lease_file::load(s, places.leases, places.holds);
    let memory = release_file::load(s, places.releases);
    if !rules_hold(state, table, memory) {
        return Err(Refusal::UnsoundFile);
    }
    Ok(())
}

fn rules_hold(state: State, table: LeaseTable, memory: Memory) -> bool
    ensures { result ≡ (sound_b state table && memory_b state table memory) }
{
    soundness::sound(state, table) && releases::sound(state, table, memory)
}

// The settings and the clock, by where the section of scopes starts.
pub fn state_at(s: &[u8], at: usize) -> State
    requires { SettingsIn s.now at }
    ensures { result ≡ state_at s.now at }
{
    let tenant_count = s[9];
    let scope_count = s[at];
    let n = usize::from(tenant_count);
    let m = usize::from(scope_count);
    State {
        server: octets::read_u32(s, 1),
        clock: octets::read_u32(s, 5),
        tenant_count,
        tenants: ranges_at(s, 10, n),
        scope_count,
        scopes: scopes_at(s, at + 1, m, n),
    }
}

// The n client ranges whose records start at `at`, and zeros after them.
fn ranges_at(s: &[u8], at: usize, n: usize) -> [ClientRange; 8]
    requires { (n ≤ 8) × (at + n * 8 ≤ length s.now) }
    ensures { result ≡ filled zero_range 8 (row range_at 8 n s.now at) }
{
    let mut out = [zero_range(); 8];
    for i in 0..n {
        out[i] = range_at(s, at + i * 8);
    }
    out
}

fn range_at(s: &[u8], at: usize) -> ClientRange
    requires { at + 8 ≤ length s.now }
    ensures { result ≡ range_at s.now at }
{
    ClientRange {
        low: octets::read_u32(s, at),
        high: octets::read_u32(s, at + 4),
    }
}

pub fn zero_range() -> ClientRange
    ensures { result ≡ zero_range }
{
    ClientRange { low: 0, high: 0 }
}

// The k scopes whose records start at `at`, and zeros after them.
fn scopes_at(s: &[u8], at: usize, k: usize, h: usize) -> [Scope; 4]
    requires { (h ≤ 8) × (k ≤ 4) × (at + k * (6 + h * 2) ≤ length s.now) }
    ensures { result ≡ filled zero_scope 4 (map stored_scope (row (file_scope_at h) (6 + h * 2) k s.now at)) }
{
    let mut out = [state::no_scope(); 4];
    for i in 0..k {
        out[i] = scope_at(s, at + i * (6 + h * 2), h);
    }
    out
}

// The scope whose record starts at `at`, with a part for each of h tenants.
fn scope_at(s: &[u8], at: usize, h: usize) -> Scope
    requires { (h ≤ 8) × (at + (6 + h * 2) ≤ length s.now) }
    ensures { result ≡ stored_scope (file_scope_at h s.now at) }
{
    Scope {
        lowest: octets::read_u32(s, at),
        size: s[at + 4],
        ttl: s[at + 5],
        reserve: column_at(s, at + 6, h),
        limit: column_at(s, at + 7, h),
    }
}

// Every other of the octets from `at` on, n of them, and zeros after them.
fn column_at(s: &[u8], at: usize, n: usize) -> [u8; 8]
    requires { (n ≤ 8) × (at + n * 2 ≤ length s.now + 1) }
    ensures { result ≡ filled 0 8 (row (λ s at. get_or s at 0) 2 n s.now at) }
{
    let mut out = [0u8; 8];
    for i in 0..n {
        out[i] = s[at + i * 2];
    }
    out
}

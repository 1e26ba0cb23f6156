// The first rule that an entry breaks together with those kept so far, judged on its octets as far as no record can hold what breaks it, and then on the records with it.
#![tactic(auto)]

ghost use Rattle.std.specs.Prelude.{not, true, ◌≡◌, ◌+◌, ◌-◌, ◌<◌, ◌≤◌, eqb, leb, drop, length, take};
ghost use Rattle.format.specs.Section.{Inside};
ghost use Rattle.lists.specs.Pick.{pick};
ghost use Rattle.soundness.specs.Sound.{id_length_b};
ghost use Rattle.state.specs.Book.{releases_at};
ghost use Rattle.lease_file.specs.Place.{StorableAt, after_entry, after_lease, entry_at, file_lease_at};
ghost use Rattle.lease_file.specs.Records.{stored_entry};
ghost use Rattle.release_file.specs.Place.{KeepableAt, after_release, file_release_at};
ghost use Rattle.salvage_rules.specs.Rules.{limits_kept, names_known, offsets_kept, release_rule, known_scope, known_tenant, type_after, typed_hold, with_record, with_release, KeptWhole, entry_rule, lower_than, with_entry};

use message::MessageType;
use state::{Lease, LeaseTable, Memory, State};

// The place of a tenant among the eight.
fn tenant_place(t: u8) -> usize
    requires { (1 ≤ t) × (t ≤ 8) }
    ensures { (result ≡ t - 1) × (result < 8) }
{
    usize::from(t) - 1
}

// ---- what is known

// Whether there is a tenant of a number, which counts from 1.
fn tenant_known(state: State, t: u8) -> bool
    ensures { result ≡ known_tenant state t }
{
    1 <= t && t <= state.tenant_count.min(8)
}

// The same of a scope.
fn scope_known(state: State, c: u8) -> bool
    ensures { result ≡ known_scope state c }
{
    1 <= c && c <= state.scope_count
}

// Whether an identifier has 2 to 32 octets.
fn id_length_ok(n: u8) -> bool
    ensures { result ≡ id_length_b n }
{
    2 <= n && n <= 32
}

// ---- leases and holds

// Rule 1 of the entry that starts at `at`: its identifier's length, and a record that is left to its tenant, where there is one of that number.
fn limits_kept(s: &[u8], at: usize, state: State, table: LeaseTable) -> bool
    requires { Inside after_lease s.now at }
    ensures { result ≡ limits_kept state table (file_lease_at s.now at) }
{
    if !id_length_ok(s[at + 2]) {
        return false;
    }
    let t = s[at];
    if tenant_known(state, t) {
        return state::lease_count(table.tenants[tenant_place(t)]) < 16;
    }
    true
}

// Rule 2: at most 64 addresses, each below the size of its scope, where there is one of that number.
fn offsets_kept(s: &[u8], at: usize, state: State) -> bool
    requires { Inside after_lease s.now at }
    ensures { result ≡ offsets_kept state (file_lease_at s.now at) }
{
    let n = usize::from(s[at + 2]);
    let k = usize::from(s[at + (n + 16)]);
    if 64 < k {
        return false;
    }
    let c = s[at + 1];
    if scope_known(state, c) {
        let scope = state::scope_at(state, arithmetic::place_of(c));
        return all_below(s, at + (n + 17), k, scope.size);
    }
    true
}

// Whether the k octets from `at` on are all below a bound.
fn all_below(s: &[u8], at: usize, k: usize, bound: u8) -> bool
    requires { at + k ≤ length s.now }
    ensures { result ≡ lower_than bound (take k (drop at s.now)) }
{
    for i in 0..k {
        if bound <= s[at + i] {
            return false;
        }
    }
    true
}

// Whether a section may have entries of a type: among the leases none of a hold's, which rule 7 refuses; among the holds rule 13 tells, later.
fn may_have(kind: u8, holds: bool) -> bool
    ensures { result ≡ pick holds true (not (eqb kind 1)) }
{
    holds || kind != MessageType::DISCOVER
}

// Rule 7, as far as no record can hold what breaks it: a known tenant and scope, and a type that the section may have.
fn is_named(s: &[u8], at: usize, holds: bool, state: State) -> bool
    requires { Inside after_lease s.now at }
    ensures { result ≡ names_known state (file_lease_at s.now at) (pick holds true (not (eqb (file_lease_at s.now at).kind 1))) }
{
    tenant_known(state, s[at]) && scope_known(state, s[at + 1]) && may_have(kind_at(s, at), holds)
}

// The record of an entry as its rules go by it: one among the holds is a hold to all rules but the last.
fn judged_at(s: &[u8], at: usize, holds: bool) -> Lease
    requires { StorableAt holds s.now at }
    ensures { result ≡ pick holds (typed_hold (stored_entry holds (entry_at holds s.now at))) (stored_entry holds (entry_at holds s.now at)) }
{
    typed_hold(lease_file::record_at(s, at, holds), holds)
}

fn typed_hold(l: Lease, holds: bool) -> Lease
    ensures { result ≡ pick holds (typed_hold l) l }
{
    if holds {
        return Lease {
            kind: MessageType::DISCOVER,
            ..l
        };
    }
    l
}

// The records with one more of the tenant of a number.
fn with_record(table: LeaseTable, t: u8, l: Lease) -> LeaseTable
    requires { (1 ≤ t) × (t ≤ 8) }
    ensures { result ≡ with_record table t l }
{
    let h = tenant_place(t);
    let mut now = table;
    now.tenants[h] = state::insert(table.tenants[h], l);
    now
}

// Rule 13's first half, the last test of all: what stands among the holds has a hold's type.
fn type_after(kind: u8, r: u8, holds: bool) -> u8
    ensures { result ≡ pick holds (type_after kind r) r }
{
    if !holds {
        return r;
    }
    if r != 0 {
        return r;
    }
    if kind != MessageType::DISCOVER {
        return 13;
    }
    0
}

// The first rule that the records break with the entry that starts at `at`, or 0.
pub fn entry_rule(s: &[u8], at: usize, holds: bool, state: State, table: LeaseTable) -> u8
    requires { Inside (after_entry holds) s.now at }
    ensures { result ≡ entry_rule holds state table (entry_at holds s.now at) }
{
    if !limits_kept(s, at, state, table) {
        return 1;
    }
    if !offsets_kept(s, at, state) {
        return 2;
    }
    if !is_named(s, at, holds, state) {
        return 7;
    }
    let l = judged_at(s, at, holds);
    let all = soundness::check_rules(state, with_record(table, s[at], l));
    type_after(kind_at(s, at), soundness::first_rule(all), holds)
}

// The type of the entry that starts at `at`.
fn kind_at(s: &[u8], at: usize) -> u8
    requires { Inside after_lease s.now at }
    ensures { result ≡ (file_lease_at s.now at).kind }
{
    s[at + (usize::from(s[at + 2]) + 3)]
}

// The records with the entry that starts at `at`, where it breaks no rule.
pub fn keep_entry(s: &[u8], at: usize, holds: bool, rule: u8, table: LeaseTable) -> LeaseTable
    requires { KeptWhole (StorableAt holds s.now at) rule }
    ensures { result ≡ pick (eqb rule 0) (with_entry holds table (entry_at holds s.now at)) table }
{
    if rule == 0 {
        return with_entry(s, at, holds, table);
    }
    table
}

// The records with the entry that starts at `at`.
fn with_entry(s: &[u8], at: usize, holds: bool, table: LeaseTable) -> LeaseTable
    requires { StorableAt holds s.now at }
    ensures { result ≡ with_entry holds table (entry_at holds s.now at) }
{
    with_record(table, s[at], lease_file::record_at(s, at, holds))
}

// ---- releases

// What is remembered with the release that starts at `at`, where it breaks no rule.
pub fn keep_release(s: &[u8], at: usize, rule: u8, memory: Memory) -> Memory
    requires { KeptWhole (KeepableAt s.now at) rule }
    ensures { result ≡ pick (eqb rule 0) (with_release memory (file_release_at s.now at)) memory }
{
    if rule == 0 {
        return with_release(s, at, memory);
    }
    memory
}

// What is remembered with the release that starts at `at`.
fn with_release(s: &[u8], at: usize, memory: Memory) -> Memory
    requires { KeepableAt s.now at }
    ensures { result ≡ with_release memory (file_release_at s.now at) }
{
    let h = tenant_place(s[at]);
    let mut now = memory;
    now.releases[h] = state::push_release(memory.releases[h], release_file::release_at(s, at));
    now
}

// Whether as many releases of a tenant are remembered as there may be.
fn is_full(memory: Memory, t: u8) -> bool
    requires { (1 ≤ t) × (t ≤ 8) }
    ensures { result ≡ leb 4 (releases_at memory (t - 1)).count }
{
    4 <= memory.releases[tenant_place(t)].count
}

// The first rule that what is remembered breaks with the release that starts at `at`, or 0.
pub fn release_rule(s: &[u8], at: usize, state: State, table: LeaseTable, memory: Memory) -> u8
    requires { Inside after_release s.now at }
    ensures { result ≡ release_rule state table memory (file_release_at s.now at) }
{
    let t = s[at];
    if !tenant_known(state, t) {
        return 14;
    }
    if is_full(memory, t) {
        return 15;
    }
    if !id_length_ok(s[at + 1]) {
        return 16;
    }
    let all = releases::check_rules(state, table, with_release(s, at, memory));
    releases::first_release(all)
}

// The list of those that a salvage drops (document 02, W-212), from the rules that the entries of each section break.
#![tactic(auto)]

ghost use Rattle.std.specs.Prelude.{[], ◌∷◌, ◌≡◌, ◌+◌, ◌≤◌, length};
ghost use Rattle.octets.specs.Octets.{Wrote};
ghost use Rattle.salvage_list.specs.List.{dropped_from, dropped_list, dropped_octets, dropped_at, dropped_in, one_if};

// How many octets the list has.
pub fn list_size(leases: [u8; 255], holds: [u8; 255], releases: [u8; 255]) -> usize
    ensures { result ≡ length (dropped_list (dropped_in leases holds releases)) }
{
    2 + 3 * dropped_count(leases, holds, releases)
}

// How many are dropped in all.
fn dropped_count(leases: [u8; 255], holds: [u8; 255], releases: [u8; 255]) -> usize
    ensures { (result ≡ length (dropped_in leases holds releases)) × (result ≤ 765) }
{
    broken_count(leases) + broken_count(holds) + broken_count(releases)
}

// How many entries of a section are dropped, whatever its kind.
fn broken_count(rules: [u8; 255]) -> usize
    ensures { (result ≡ length (dropped_from 0 1 rules)) × (result ≤ 255) }
{
    let mut n: usize = 0;
    for i in 0..255 {
        n += one_if(rules[i]);
    }
    n
}

// 1 for an entry that is dropped, 0 for one that is kept.
fn one_if(rule: u8) -> usize
    ensures { (result ≡ one_if rule) × (result ≤ 1) }
{
    if rule == 0 {
        return 0;
    }
    1
}

// Writes the list: the count, then leases, holds and releases.
pub fn put_list(list: &mut [u8], leases: [u8; 255], holds: [u8; 255], releases: [u8; 255]) -> usize
    requires { length (dropped_list (dropped_in leases holds releases)) ≤ length list.old }
    ensures { Wrote list.old 0 (dropped_list (dropped_in leases holds releases)) list.new result }
{
    let n = dropped_count(leases, holds, releases);
    let a = octets::put_u16(list, 0, n as u16);
    let b = put_dropped(list, a, 1, leases);
    let c = put_dropped(list, b, 2, holds);
    put_dropped(list, c, 3, releases)
}

// Those dropped of a section: kind, place from 1, and rule.
fn put_dropped(list: &mut [u8], at: usize, kind: u8, rules: [u8; 255]) -> usize
    requires { at + length (dropped_octets (dropped_from kind 1 rules)) ≤ length list.old }
    ensures { Wrote list.old at (dropped_octets (dropped_from kind 1 rules)) list.new result }
{
    let mut to = at;
    for i in 0..255 {
        to = put_if(list, to, kind, (i + 1) as u8, rules[i]);
    }
    to
}

// One entry, where it is dropped.
fn put_if(list: &mut [u8], at: usize, kind: u8, place: u8, rule: u8) -> usize
    requires { at + length (dropped_at kind place rule) ≤ length list.old }
    ensures { Wrote list.old at (dropped_at kind place rule) list.new result }
{
    if rule == 0 {
        return at;
    }
    put_one(list, at, kind, place, rule)
}

fn put_one(list: &mut [u8], at: usize, kind: u8, place: u8, rule: u8) -> usize
    requires { at + 3 ≤ length list.old }
    ensures { Wrote list.old at (kind ∷ place ∷ rule ∷ []) list.new result }
{
    let a = octets::put_u8(list, at, kind);
    let b = octets::put_u8(list, a, place);
    octets::put_u8(list, b, rule)
}

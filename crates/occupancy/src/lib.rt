// The occupancy board by value (document 02, W-207): for each scope and each of its addresses the owning tenant, or none, and the number of leases on it,
// and for each tenant in the scope its holding. A lease added or removed alters only the entries of its addresses and its tenant's holding.
#![tactic(auto)]

ghost use Rattle.std.specs.Prelude.{◌≡◌, ◌<◌, ◌≤◌};
ghost use Rattle.lists.specs.Fold.{fold};
ghost use Rattle.address_set.specs.AddressSet.{offsets};
ghost use Rattle.occupancy.specs.Split.{Runs, Splits, gained, held_more};
ghost use Rattle.occupancy.specs.Board.{no_board, more_on, less_on, shrunk, laid_on, lifted_off, added_to, taken_from, place_in, scope_board_at, entry_at, held_in, same_board};

use address_set::Range;

// An address: its owner, a tenant counted from 1, or 0 for none, and the number of leases on it.
#[derive(Clone, Copy, PartialEq, Eq)]
pub struct Entry {
    pub owner: u8,
    pub count: u8,
}

// A scope: its addresses, by offset, and how many of them each tenant holds.
#[derive(Clone, Copy, PartialEq, Eq)]
pub struct ScopeBoard {
    pub entries: [Entry; 64],
    pub held: [u8; 8],
}

// All scopes.
#[derive(Clone, Copy, PartialEq, Eq)]
pub struct Board {
    pub scopes: [ScopeBoard; 4],
}

fn more(g: usize, e: Entry) -> Entry
    requires { g < 8 }
    ensures { result ≡ more_on g e }
{
    Entry {
        owner: (g + 1) as u8,
        count: e.count.saturating_add(1),
    }
}

fn less(e: Entry) -> Entry
    ensures { result ≡ less_on e }
{
    if e.count <= 1 {
        return Entry { owner: 0, count: 0 };
    }
    Entry {
        owner: e.owner,
        count: e.count - 1,
    }
}

// What an entry with so many leases adds to the holding of the tenant that gets one more on it: an address where there was none.
fn gain(count: u8) -> u8
    ensures { (result ≡ gained count) × (result ≤ 1) }
{
    u8::from(count == 0)
}

// A holding with so many addresses more.
fn raise_held(held: u8, by: u8) -> u8
    ensures { result ≡ held_more held by }
{
    held.saturating_add(by)
}

fn shrink(count: u8, held: u8) -> u8
    ensures { result ≡ shrunk count held }
{
    if count <= 1 {
        return held.saturating_sub(1);
    }
    held
}

// The lowest offset of a set, and the others.
#[derive(Clone, Copy)]
struct Lowest {
    at: usize,
    rest: u64,
}

fn split(set: u64) -> Lowest
    requires { 0 < set }
    ensures { Splits set result }
{
    let first = address_set::first_range(set).first;
    Lowest {
        at: first as usize,
        rest: address_set::rest(set, Range { first, count: 1 }),
    }
}

// The first range of a set, its end not included, and the offsets behind it.
#[derive(Clone, Copy)]
struct Run {
    first: usize,
    end: usize,
    rest: u64,
}

fn split_run(set: u64) -> Run
    requires { 0 < set }
    ensures { Runs set result }
{
    let r = address_set::first_range(set);
    let first = r.first as usize;
    Run {
        first,
        end: first + r.count as usize,
        rest: address_set::rest(set, r),
    }
}

// One lease more on each offset of a set, range by range: what the holding gains is counted beside the entries of a range, so that they don't wait for it and
// several are altered at a time.
pub fn lay(v: ScopeBoard, g: usize, set: u64) -> ScopeBoard
    requires { g < 8 }
    ensures { result ≡ fold (laid_on g) v (offsets set) }
{
    let mut now = v;
    let mut left = set;
    // Stays: no index is counted. A turn takes a range, however long, off what is left; a `for` would need an iterator of ranges of our own, which is no plainer.
    while 0 < left {
        let r = split_run(left);
        let mut gains: u8 = 0;
        for a in r.first..r.end {
            let e = now.entries[a];
            gains += gain(e.count);
            now.entries[a] = more(g, e);
        }
        now.held[g] = raise_held(now.held[g], gains);
        left = r.rest;
    }
    now
}

fn lift(v: ScopeBoard, g: usize, set: u64) -> ScopeBoard
    requires { g < 8 }
    ensures { result ≡ fold (lifted_off g) v (offsets set) }
{
    let mut now = v;
    let mut left = set;
    // Stays: the same, with the lowest offset.
    while 0 < left {
        let o = split(left);
        let e = now.entries[o.at];
        now.entries[o.at] = less(e);
        now.held[g] = shrink(e.count, now.held[g]);
        left = o.rest;
    }
    now
}

// The place of a scope, counted from 0, that a lease of tenant g alters; 4 or more where there is no such scope or no such tenant.
pub fn place(g: usize, scope: u8) -> usize
    ensures { result ≡ place_in g scope }
{
    if g < 8 && 0 < scope {
        return usize::from(scope - 1);
    }
    4
}

// The board with a lease of tenant g, counted from 0, more, on a set of offsets of a scope, counted from 1. No scope, or no tenant, alters nothing.
pub fn add(b: Board, g: usize, scope: u8, set: u64) -> Board
    ensures { result ≡ added_to b g scope set }
{
    let k = place(g, scope);
    if k < 4 {
        let mut now = b;
        now.scopes[k] = lay(b.scopes[k], g, set);
        return now;
    }
    b
}

// The board with a lease of tenant g less.
// Stays: `add` and this one as one function with the step as a closure are no shorter, and the closure's contract would say `laid_on` and `lifted_off` again.
pub fn take(b: Board, g: usize, scope: u8, set: u64) -> Board
    ensures { result ≡ taken_from b g scope set }
{
    let k = place(g, scope);
    if k < 4 {
        let mut now = b;
        now.scopes[k] = lift(b.scopes[k], g, set);
        return now;
    }
    b
}

// A board without a lease.
pub fn no_board() -> Board
    ensures { result ≡ no_board }
{
    let e = Entry { owner: 0, count: 0 };
    let v = ScopeBoard {
        entries: [e; 64],
        held: [0u8; 8],
    };
    Board { scopes: [v; 4] }
}

// ---- comparing

// Whether two boards are the same.
pub fn same(a: Board, b: Board) -> bool
    ensures { result ≡ same_board a b }
{
    a == b
}

// ---- polling

// What stands on an address of a scope, counted from 0; no owner and no lease where there is none.
fn entry_in(v: ScopeBoard, a: usize) -> Entry
    ensures { result ≡ entry_at v a }
{
    if a < 64 {
        return v.entries[a];
    }
    Entry { owner: 0, count: 0 }
}

// How many addresses of a scope tenant g, counted from 0, holds.
fn held_in(v: ScopeBoard, g: usize) -> u8
    ensures { result ≡ held_in v g }
{
    if g < 8 {
        return v.held[g];
    }
    0
}

// The same of scope k, counted from 0; of no scope nothing stands there.
// Stays: this and `holding_at` differ in what they read and in what they answer of no scope; one function over both takes two closures.
pub fn entry_at(b: Board, k: usize, a: usize) -> Entry
    ensures { result ≡ entry_at (scope_board_at b k) a }
{
    if k < 4 {
        return entry_in(b.scopes[k], a);
    }
    Entry { owner: 0, count: 0 }
}

pub fn holding_at(b: Board, k: usize, g: usize) -> u8
    ensures { result ≡ held_in (scope_board_at b k) g }
{
    if k < 4 {
        return held_in(b.scopes[k], g);
    }
    0
}

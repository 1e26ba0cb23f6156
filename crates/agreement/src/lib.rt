// The occupancy board and the leases (document 02, W-207): the board with a lease more or less, with a tenant's ended leases taken off, and after an edit;
// and the board that leases make, with which a book's own is compared.
#![tactic(auto)]

ghost use Rattle.std.specs.Prelude.{◌≡◌, take};
ghost use Rattle.lists.specs.Fold.{fold};
ghost use Rattle.state.specs.Book.{in_use, board_with, board_without};
ghost use Rattle.state.specs.Edit.{board_edited, board_left};
ghost use Rattle.state.specs.Board.{built_of};
ghost use Rattle.occupancy.specs.Board.{same_board};

use occupancy::Board;
use state::{Edit, Lease, LeaseTable, TenantLeases};

// ---- one lease

// The board with a lease of tenant h, counted from 0, more.
pub fn add(b: Board, h: usize, l: Lease) -> Board
    ensures { result ≡ board_with h b l }
{
    occupancy::add(b, h, l.scope, l.addresses)
}

// And one less.
pub fn take(b: Board, h: usize, l: Lease) -> Board
    ensures { result ≡ board_without h b l }
{
    occupancy::take(b, h, l.scope, l.addresses)
}

// ---- what a call does

// A tenant's first n records are taken off: those that have ended stand in front.
pub fn clear(b: Board, h: usize, t: TenantLeases, n: usize) -> Board
    ensures { result ≡ fold (board_without h) b (take n (in_use t)) }
{
    let mut now = b;
    let own = t.in_use();
    let ended = &own[..n.min(own.len())];
    for l in ended {
        now = take(now, h, *l);
    }
    now
}

fn left(b: Board, h: usize, e: Edit) -> Board
    ensures { result ≡ board_left e h b }
{
    match e.leaves {
        Some(old) => take(b, h, old),
        None => b,
    }
}

// The board after an edit of tenant h's records: what leaves is taken off, what enters is added.
pub fn edited(b: Board, h: usize, e: Edit) -> Board
    ensures { result ≡ board_edited e h b }
{
    let rest = left(b, h, e);
    match e.enters {
        Some(new) => add(rest, h, new),
        None => rest,
    }
}

// ---- what the leases say

// The board with all leases of one tenant more. It alters the scope's board itself, where `add` would copy the whole board: every call adds up to 128
// leases so.
pub fn add_tenant(b: Board, h: usize, t: TenantLeases) -> Board
    ensures { result ≡ fold (board_with h) b (in_use t) }
{
    let mut now = b;
    let own = t.in_use();
    for l in own {
        let k = occupancy::place(h, l.scope);
        if k < 4 {
            let v = now.scopes[k];
            let x = occupancy::lay(v, h, l.addresses);
            now.scopes[k] = x;
        }
    }
    now
}

// The board that a table's leases make; in a sound book it is what they say.
pub fn build(table: LeaseTable) -> Board
    ensures { result ≡ built_of table }
{
    let mut now = occupancy::no_board();
    for (h, t) in table.tenants.iter().enumerate() {
        now = add_tenant(now, h, *t);
    }
    now
}

// Whether a board is the one that a table's leases make.
pub fn agrees(table: LeaseTable, board: Board) -> bool
    ensures { result ≡ same_board board (built_of table) }
{
    occupancy::same(board, build(table))
}

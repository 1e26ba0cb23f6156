// The occupancy board as octets, for hosts (document 02, W-207).
#![tactic(auto)]

ghost use Rattle.std.specs.Prelude.{◌≡◌, ◌+◌, ◌≤◌, length};
ghost use Rattle.format.specs.Format.{write_all};
ghost use Rattle.octets.specs.Octets.{Wrote};
ghost use Rattle.occupancy_octets.specs.Octets.{board_octets, board_size, entry_octets, scope_board_octets};

use occupancy::{Board, Entry, ScopeBoard};

// A board, written from `at` on.
pub fn put(room: &mut [u8], at: usize, b: Board) -> usize
    requires { at + board_size ≤ length room.old }
    ensures { Wrote room.old at (board_octets b) room.new result }
{
    let mut to = at;
    for v in &b.scopes {
        to = put_scope(room, to, *v);
    }
    to
}

// A scope: its addresses, then what each tenant holds.
fn put_scope(room: &mut [u8], at: usize, v: ScopeBoard) -> usize
    requires { at + 136 ≤ length room.old }
    ensures { Wrote room.old at (scope_board_octets v) room.new result × (result ≡ at + 136) }
{
    let a = put_entries(room, at, v);
    octets::put(room, a, &v.held)
}

fn put_entries(room: &mut [u8], at: usize, v: ScopeBoard) -> usize
    requires { at + 128 ≤ length room.old }
    ensures { Wrote room.old at (write_all entry_octets v.entries) room.new result × (result ≡ at + 128) }
{
    let mut to = at;
    for e in &v.entries {
        to = put_entry(room, to, *e);
    }
    to
}

fn put_entry(room: &mut [u8], at: usize, e: Entry) -> usize
    requires { at + 2 ≤ length room.old }
    ensures { Wrote room.old at (entry_octets e) room.new result }
{
    let a = octets::put_u8(room, at, e.owner);
    octets::put_u8(room, a, e.count)
}

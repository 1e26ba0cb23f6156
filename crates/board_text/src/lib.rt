// The text that `board` prints for a state file: what each tenant holds is read off the book's board.
#![tactic(auto)]

ghost use Rattle.std.specs.Prelude.{[], ◌++◌, ◌∷◌, ◌≡◌, ◌+◌, ◌<◌, ◌≤◌, length};
ghost use Rattle.board_text.specs.Board.{header_line, length_in, line_on, lines_on, refused_line, room_with_text, scope_on};
ghost use Rattle.number_text.specs.Text.{Line, dotted, field};
ghost use Rattle.occupancy.specs.Board.{held_in, scope_board_at};
ghost use Rattle.octets.specs.Octets.{Wrote};
ghost use Rattle.state_file.specs.StateFile.{read_file};

use occupancy::Board;
use state::State;
use state_file::{Loaded, Refusal};

fn put_line(buffer: &mut [u8], at: usize, a: u32, g: u8, reserve: u8, limit: u8, held: u8) -> usize
    requires { at + 32 ≤ length buffer.old }
    ensures { Line buffer.old at (dotted a ++ field g ++ field reserve ++ field limit ++ field held ++ 10 ∷ []) buffer.new result 32 }
{
    let x = number_text::put_dotted(buffer, at, a);
    let y = number_text::put_octet_field(buffer, x, g);
    let z = number_text::put_octet_field(buffer, y, reserve);
    let v = number_text::put_octet_field(buffer, z, limit);
    let w = number_text::put_octet_field(buffer, v, held);
    number_text::put_char(buffer, w, b'\n')
}

// How many addresses tenant g + 1 has in scope k + 1.
fn held(board: Board, k: usize, g: usize) -> u8
    requires { (k < 4) × (g < 8) }
    ensures { result ≡ held_in (scope_board_at board k) g }
{
    board.scopes[k].held[g]
}

fn put_tenant(buffer: &mut [u8], at: usize, state: State, board: Board, k: usize, g: usize) -> usize
    requires { (at + 32 ≤ length buffer.old) × (k < 4) × (g < 8) }
    ensures { Line buffer.old at (line_on state board k g) buffer.new result 32 }
{
    let c = state::scope_at(state, k);
    let n = held(board, k, g);
    put_line(
        buffer,
        at,
        c.lowest,
        (g + 1) as u8,
        c.reserve[g],
        c.limit[g],
        n,
    )
}

fn put_scope(buffer: &mut [u8], at: usize, state: State, board: Board, k: usize) -> usize
    requires { (at + 256 ≤ length buffer.old) × (k < 4) }
    ensures { Line buffer.old at (scope_on state board k) buffer.new result 256 }
{
    let mut to = at;
    for g in 0..usize::from(state.tenant_count).min(8) {
        to = put_tenant(buffer, to, state, board, k, g);
    }
    to
}

fn put_book(buffer: &mut [u8], at: usize, state: State, board: Board) -> usize
    requires { at + 1024 ≤ length buffer.old }
    ensures { Line buffer.old at (lines_on state board) buffer.new result 1024 }
{
    let mut to = at;
    for k in 0..usize::from(state.scope_count).min(4) {
        to = put_scope(buffer, to, state, board, k);
    }
    to
}

fn put_board(buffer: &mut [u8], state: State, board: Board) -> usize
    requires { 1100 ≤ length buffer.old }
    ensures { Wrote buffer.old 0 (header_line ++ lines_on state board) buffer.new result }
{
    let a = octets::put(buffer, 0, b"scope house share limit holds\n");
    put_book(buffer, a, state, board)
}

fn put_refused(buffer: &mut [u8], n: u8) -> usize
    requires { 1100 ≤ length buffer.old }
    ensures { Wrote buffer.old 0 (refused_line n) buffer.new result }
{
    let a = octets::put(buffer, 0, b"refused");
    let b = number_text::put_octet_field(buffer, a, n);
    number_text::put_char(buffer, b, b'\n')
}

// The book of a state file. No records are lent for it: a caller's 16 KB would lie twice on the stack besides.
fn read_book(file: &[u8]) -> Result<Loaded, Refusal>
    ensures { result ≡ read_file file.now }
{
    state_file::read(file)
}

// Writes what `board` prints for a file and returns its length. A room below 1,100 octets is left as it is, with length 0.
pub fn write_board(file: &[u8], room: &mut [u8]) -> usize
    ensures length { result ≡ length_in (read_file file.now) room.old }
    ensures octets { room.new ≡ room_with_text (read_file file.now) room.old }
{
    if room.len() < 1100 {
        return 0;
    }
    match read_book(file) {
        Ok(book) => put_board(room, book.state, book.memory.board),
        Err(refusal) => put_refused(room, refusal.number()),
    }
}

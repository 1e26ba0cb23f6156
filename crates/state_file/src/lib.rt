// The state file (document 01's campus file): its reader and its writer, by value. The reader judges the form, then the limits, then loads the
// book and judges whether it is sound; the writer judges the book, unless it is known to be sound, counts its octets and puts them. The names for the scopes are octets to both: of
// a file they are shown as the part in which they stand, and they are written as they are lent.
#![tactic(auto)]

mod form;
mod limits;
mod load;
mod put;
mod size;

ghost use Rattle.std.specs.Prelude.{true, ◌≡◌, length};
ghost use Rattle.releases.specs.Whole.{book_b};
ghost use Rattle.state_file.specs.StateFile.{code_of, names_of, read_file, refusal_number, room_after, written_of, zero_ledger, zero_memory, zero_state};

use crate::load::{check_at, zero_range};
pub use form::form_of;
pub use limits::counts_fit;
pub use load::{book_at, state_at};
pub use put::put_file;
pub use size::file_size;
use state::{LeaseTable, Ledger, Memory, State};

// How many octets a file may have.
pub const FILE_LIMIT: usize = 32768;

// What a file holds: the book, but for its names.
#[derive(Clone, Copy)]
pub struct Loaded {
    pub state: State,
    pub table: LeaseTable,
    pub memory: Memory,
}

// Why there is no book, or no file. Each stands for its number in documents 01 and 02.
#[derive(Clone, Copy, PartialEq, Eq)]
pub enum Refusal {
    WrongForm = 20,
    UnsoundFile = 21,
    UnsoundBook = 22,
    ShortRoom = 23,
}

impl Refusal {
    pub fn number(self) -> u8
        ensures { result ≡ code_of self }
    {
        self as u8
    }
}

// Where the sections of a file start, after the server and the tenants.
#[derive(Clone, Copy)]
pub struct Places {
    pub scopes: usize,
    pub leases: usize,
    pub names: usize,
    pub releases: usize,
    pub holds: usize,
}

// Reads a state file: the book, or that its form is wrong and then that it is unsound.
pub fn read(s: &[u8]) -> Result<Loaded, Refusal>
    ensures { result ≡ read_file s.now }
{
    book_at(s, form_of(s).ok_or(Refusal::WrongForm)?)
}

// What `read` refuses, without the book.
pub fn check(s: &[u8]) -> Result<(), Refusal>
    ensures { refusal_number result ≡ refusal_number (read_file s.now) }
{
    check_at(s, form_of(s).ok_or(Refusal::WrongForm)?)
}

// The names of a state file, as the part of it in which they stand; an empty part where its form is wrong. Whether the book is sound, `read` tells.
pub fn names(file: &[u8]) -> &[u8]
    ensures { result.now ≡ names_of file.now }
{
    let Some(places) = form_of(file) else {
        return &file[0..0];
    };
    &file[places.names..places.releases]
}

// Writes a book as a state file: its length, or that the book is unsound or its names bad, and then that the room is too short.
pub fn write(
    state: State,
    table: LeaseTable,
    memory: Memory,
    names: &[u8],
    room: &mut [u8],
) -> Result<usize, Refusal>
    ensures answer { result ≡ written_of (record { state = state; table = table; memory = memory; names = names.now }) (length room.old) }
    ensures octets { room.new ≡ room_after (record { state = state; table = table; memory = memory; names = names.now }) room.old }
{
    if !sound_book(state, table, memory, names) {
        return Err(Refusal::UnsoundBook);
    }
    write_sound(state, table, memory, names, room)
}

// The same of a book that is known to be sound, with good names: it is not tested.
pub fn write_sound(
    state: State,
    table: LeaseTable,
    memory: Memory,
    names: &[u8],
    room: &mut [u8],
) -> Result<usize, Refusal>
    requires { book_b (record { state = state; table = table; memory = memory; names = names.now }) ≡ true }
    ensures answer { result ≡ written_of (record { state = state; table = table; memory = memory; names = names.now }) (length room.old) }
    ensures octets { room.new ≡ room_after (record { state = state; table = table; memory = memory; names = names.now }) room.old }
{
    let filed = lease_file::in_file_order(table);
    let n = file_size(state, filed, memory, names);
    if room.len() < n {
        return Err(Refusal::ShortRoom);
    }
    put_file(room, state, filed, memory, names);
    Ok(n)
}

// Whether a book is sound, what it remembers and its board too, and its names are good.
fn sound_book(state: State, table: LeaseTable, memory: Memory, names: &[u8]) -> bool
    ensures { result ≡ book_b (record { state = state; table = table; memory = memory; names = names.now }) }
{
    soundness::sound(state, table)
        && releases::sound(state, table, memory)
        && agreement::agrees(table, memory.board)
        && names::good(names, state.scope_count, state.tenant_count)
}

// A memory that is all zero.
pub fn no_memory() -> Memory
    ensures { result ≡ zero_memory }
{
    Memory {
        releases: [state::no_releases(); 8],
        board: occupancy::no_board(),
    }
}

// A ledger that is all zero.
pub fn no_ledger() -> Ledger
    ensures { result ≡ zero_ledger }
{
    Ledger {
        state: no_state(),
        memory: no_memory(),
    }
}

// A state that is all zero.
pub fn no_state() -> State
    ensures { result ≡ zero_state }
{
    State {
        server: 0,
        clock: 0,
        tenant_count: 0,
        tenants: [zero_range(); 8],
        scope_count: 0,
        scopes: [state::no_scope(); 4],
    }
}

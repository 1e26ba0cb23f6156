// The salvage of a state file (document 02, W-212): leases in file order, then holds, then releases, each kept if it leaves the book sound together with those
// kept before it; a new file of those kept, all else as it was; and the list of those dropped, with the first rule that each breaks. Both rooms are written
// only once both lengths are known.
#![tactic(auto)]

ghost use Rattle.std.specs.Prelude.{true, ◌≡◌, length};
ghost use Rattle.state_file.specs.Place.{Formed, file_at};
ghost use Rattle.salvage_walk.specs.Walk.{WalksFile, settings_sound};
ghost use Rattle.salvage_file.specs.Salvage.{salvage_file, salvage_of};
ghost use Rattle.salvage_file.specs.Walk.{Answers, number_of};

use salvage_list::{list_size, put_list};
use salvage_walk::{Kept, settings_sound, walk};
use state_file::Places;

// How many octets a list may have: its count, and 255 leases, 255 holds and 255 releases of three octets.
pub const LIST_LIMIT: usize = 2297;

// How many octets the new file and the list have.
#[derive(Clone, Copy)]
pub struct Salvaged {
    pub length: usize,
    pub listed: usize,
}

// Why nothing is written. Each stands for its number in document 02.
#[derive(Clone, Copy, PartialEq, Eq)]
pub enum Refusal {
    WrongForm = 20,
    ShortRoom = 23,
    UnsoundSettings = 25,
}

impl Refusal {
    pub fn number(self) -> u8
        ensures { result ≡ number_of self }
    {
        self as u8
    }
}

// Salvages a state file: a new one into the first room and the list of those dropped into the second. Refused for a wrong form, then where the settings alone
// are unsound, then where a room is too short: these write nothing.
pub fn salvage(file: &[u8], room: &mut [u8], list: &mut [u8]) -> Result<Salvaged, Refusal>
    ensures { Answers (salvage_of file.now (length room.old) (length list.old)) room.old list.old room.new list.new result }
{
    let places = state_file::form_of(file).ok_or(Refusal::WrongForm)?;
    if !settings_sound(file, places) {
        return Err(Refusal::UnsoundSettings);
    }
    let kept = walk(file, places);
    write(file, places, kept, room, list)
}

// Writes the file of those kept and the list of those dropped, or neither where a room is too short.
fn write(
    file: &[u8],
    places: Places,
    kept: Kept,
    room: &mut [u8],
    list: &mut [u8],
) -> Result<Salvaged, Refusal>
    requires { Formed file.now places × (settings_sound (file_at file.now places) ≡ true) × WalksFile (file_at file.now places) kept }
    ensures { Answers (salvage_file (file_at file.now places) (length room.old) (length list.old)) room.old list.old room.new list.new result }
{
    let names = &file[places.names..places.releases];
    let filed = lease_file::in_file_order(kept.table);
    let length = state_file::file_size(kept.state, filed, kept.memory, names);
    let listed = list_size(kept.leases, kept.holds, kept.releases);
    if room.len() < length {
        return Err(Refusal::ShortRoom);
    }
    if list.len() < listed {
        return Err(Refusal::ShortRoom);
    }
    state_file::put_file(room, kept.state, filed, kept.memory, names);
    put_list(list, kept.leases, kept.holds, kept.releases);
    Ok(Salvaged { length, listed })
}

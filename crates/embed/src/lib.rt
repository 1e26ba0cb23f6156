// The functions that a host program in C or Rust links through `embed_c`: numbers and octets only. For `banshorra_serve`, `banshorra_judge` and
// `banshorra_replay` a campus file is held in a buffer of the caller's, of at least 32,768 octets; `file_length` is the number of its octets, before and
// after.
#![tactic(auto)]

ghost use Rattle.std.specs.Prelude.{◌≡◌, ◌-◌, ◌≤◌, drop, length, take};
ghost use Rattle.board_text.specs.Board.{length_in, room_with_text};
ghost use Rattle.state_file.specs.Place.{Formed};
ghost use Rattle.state_file.specs.StateFile.{read_file, refusal_number};
ghost use Rattle.records.specs.Lent.{ledger_from};
ghost use Rattle.records.specs.Records.{records_of};
ghost use Rattle.embed.specs.Embed.{number_after, length_after, serve_file, replay_file};
ghost use Rattle.salvage_file.specs.Salvage.{salvage_of};
ghost use Rattle.salvage_file.specs.Walk.{Salvages};
ghost use Rattle.server.specs.Serve.{Tells};
ghost use Rattle.embed.specs.Halves.{judge_file, reply_file};
ghost use Rattle.embed.specs.Occupancy.{board_number, room_with_board};
ghost use Rattle.embed.specs.Promises.{Keeps, Opened, OpenedFile, ServesFile, JudgesFile, ReplaysFile};

use owned::Owned;
use server::Outcome;
use state::Ledger;
use state_file::{Loaded, Places, Refusal};

// The longest names of an accepted file.
const NAMES_ROOM: usize = 6229;

// The octets of an occupancy board.
const BOARD_ROOM: usize = 544;

// ---- a file in a buffer

// A file that is opened: a refusal or 0, the book, and where in the file its names stand.
#[derive(Clone, Copy)]
pub struct Opening {
    pub refusal: u8,
    pub owned: Owned,
    pub from: usize,
    pub end: usize,
}

// A refusal, with a blank book. Neither this nor `owned_of` is inlined: their copies of a book would stand on the stack while a file is tested.
#[inline(never)]
fn refused(number: u8) -> Opening
    ensures { (result.refusal ≡ number) × (result.from ≡ 0) × (result.end ≡ 0) }
{
    Opening {
        refusal: number,
        owned: owned::blank(),
        from: 0,
        end: 0,
    }
}

// An accepted book as calls take it.
#[inline(never)]
fn owned_of(book: Loaded) -> Owned
    ensures { (result.ledger ≡ ledger_from book) × (result.records.leases ≡ records_of book.table) }
{
    Owned {
        ledger: Ledger {
            state: book.state,
            memory: book.memory,
        },
        records: records::records_of(book.table),
    }
}

// The book of a file by its places.
fn open_at(file: &[u8], places: Places) -> Opening
    requires { Formed file.now places }
    ensures { OpenedFile file.now result }
{
    match state_file::book_at(file, places) {
        Ok(book) => Opening {
            refusal: 0,
            owned: owned_of(book),
            from: places.names,
            end: places.releases,
        },
        Err(e) => refused(e.number()),
    }
}

// The book of a file and the place of its names: the octets are walked once for both.
fn open(file: &[u8]) -> Opening
    ensures { OpenedFile file.now result }
{
    match state_file::form_of(file) {
        Some(places) => open_at(file, places),
        None => refused(20),
    }
}

// The book of the first n octets of a buffer.
fn open_in(file: &[u8], n: usize) -> Opening
    ensures { Opened file.now n result }
{
    if file.len() < state_file::FILE_LIMIT {
        return refused(23);
    }
    if file.len() < n {
        return refused(28);
    }
    open(&file[..n])
}

// The names of a file, which stand at a place of its buffer, copied to the front of another, since the file is written over them; how many octets they are.
fn keep_names(kept: &mut [u8; NAMES_ROOM], file: &[u8], from: usize, end: usize) -> usize
    requires { (from ≤ end) × (end ≤ length file.now) }
    ensures { Keeps (take (end - from) (drop from file.now)) kept.new result }
{
    let names = &file[from..end];
    octets::put_run(kept, 0, names, names.len().min(NAMES_ROOM))
}

// ---- what is told once the file is written again

fn number_after(w: Result<usize, Refusal>, k: u8) -> u8
    ensures { result ≡ number_after w k }
{
    match w {
        Ok(_) => k,
        Err(e) => e.number(),
    }
}

fn length_after(w: Result<usize, Refusal>, n: usize) -> usize
    ensures { result ≡ length_after w n }
{
    w.unwrap_or(n)
}

// ---- the second half of a call

fn silent(number: u8) -> Outcome
    ensures { result ≡ record { outcome = number; length = 0; offset = 0; count = 0 } }
{
    Outcome {
        outcome: number,
        length: 0,
        offset: 0,
        count: 0,
    }
}

// The reply of a verdict and of the file that came with it, written into a room.
fn write_verdict(file: &[u8], verdict: &[u8; 75], room: &mut [u8]) -> Outcome
    ensures { Tells (reply_file file.now verdict.now (length room.old)) room.old room.new result }
{
    if room.len() < reply::LEAST_ROOM {
        return silent(2);
    }
    let Some(places) = state_file::form_of(file) else {
        return silent(20);
    };
    match state_file::book_at(file, places) {
        Ok(book) => {
            let ledger = Ledger {
                state: book.state,
                memory: book.memory,
            };
            let ruling = verdict_octets::take(verdict);
            owned::reply(ledger, ruling, &file[places.names..places.releases], room)
        }
        Err(e) => silent(e.number()),
    }
}

// ---- the functions that `embed_c` exports

// 0 for a campus file that is accepted, or its refusal, 20 or 21.
pub fn banshorra_check(file: &[u8]) -> u8
    ensures { result ≡ refusal_number (read_file file.now) }
{
    match state_file::check(file) {
        Ok(()) => 0,
        Err(e) => e.number(),
    }
}

// The text that `board` prints for a campus file: its length, or 0 where the room is below 1,100 octets.
pub fn banshorra_board(file: &[u8], text: &mut [u8]) -> usize
    ensures length { result ≡ length_in (read_file file.now) text.old }
    ensures octets { text.new ≡ room_with_text (read_file file.now) text.old }
{
    board_text::write_board(file, text)
}

// The occupancy board of a campus file, for polling: 0, and 544 octets at the front of `board`; scope by scope, for each of 64 addresses the owner(1),
// a house from 1 on or 0 for none, and the number of leases on it(1), then what each of eight houses holds(1). 20 or 21 where the file is refused,
// then 23 where `board` has fewer than 544 octets: these write nothing.
pub fn banshorra_occupancy(file: &[u8], board: &mut [u8]) -> u8
    ensures number { result ≡ board_number (read_file file.now) (length board.old) }
    ensures octets { board.new ≡ room_with_board (read_file file.now) board.old }
{
    match state_file::read(file) {
        Ok(book) => {
            if board.len() < BOARD_ROOM {
                return 23;
            }
            occupancy_octets::put(board, 0, book.memory.board);
            0
        }
        Err(e) => e.number(),
    }
}

// One call on the campus file in a buffer: the outcome, 0 to 8, with the reply and its length, and the file and its length afterwards. With discard 5
// `fault_offset` is where in the datagram the first option stands that breaks a rule, or the datagram's length where End or option 3 is missing; it
// is 0 with every other number. `count` is how many of the house's records were compared to find the identifier, at most 32. 23 where the buffer has fewer than 32,768 octets, 28 where `file_length` is past its end, then 20 or 21 where the
// file is refused: these change nothing but the reply's length, the offset and the count, which are 0.
pub fn banshorra_serve(
    file: &mut [u8],
    file_length: &mut usize,
    datagram: &[u8],
    client: u32,
    time: u32,
    reply: &mut [u8],
    reply_length: &mut usize,
    fault_offset: &mut usize,
    count: &mut usize,
) -> u8
    ensures { ServesFile (serve_file file.old file_length.old (record { datagram = datagram.now; client = client; time = time; room = length reply.old })) file.new file_length.new reply.old reply.new (record { outcome = result; length = reply_length.new; offset = fault_offset.new; count = count.new }) }
{
    let n = *file_length;
    let f = open_in(file, n);
    if f.refusal == 0 {
        let mut kept = [0u8; NAMES_ROOM];
        let k = keep_names(&mut kept, file, f.from, f.end);
        let r = call_list::serve_sound(f.owned, &kept[..k], datagram, client, time, reply);
        let told = r.outcome;
        let w = call_list::write_sound(r.owned, &kept[..k], file);
        *file_length = length_after(w, n);
        *reply_length = told.length;
        *fault_offset = told.offset;
        *count = told.count;
        return number_after(w, told.outcome);
    }
    *reply_length = 0;
    *fault_offset = 0;
    *count = 0;
    f.refusal
}

// The first half of a call on the campus file in a buffer, for monitoring: the verdict's outcome, 0 to 8 and never 2, its 75 octets in `verdict` (the layout
// is that of `verdict_octets`), and the file and its length afterwards. 23, 28, 20 and 21 of the file as above, which change nothing.
pub fn banshorra_judge(
    file: &mut [u8],
    file_length: &mut usize,
    datagram: &[u8],
    client: u32,
    time: u32,
    verdict: &mut [u8; 75],
) -> u8
    ensures { JudgesFile (judge_file file.old file_length.old client time datagram.now) file.new file_length.new verdict.old verdict.new result }
{
    let n = *file_length;
    let f = open_in(file, n);
    if f.refusal == 0 {
        let mut kept = [0u8; NAMES_ROOM];
        let k = keep_names(&mut kept, file, f.from, f.end);
        let j = call_list::judge_sound(f.owned, &kept[..k], datagram, client, time);
        let w = call_list::write_sound(j.owned, &kept[..k], file);
        verdict_octets::put(verdict, j.ruling);
        *file_length = length_after(w, n);
        return number_after(w, j.ruling.verdict.outcome);
    }
    f.refusal
}

// The second half: the reply of a verdict that `banshorra_judge` gave, and of the campus file that it left; the number is the outcome, 0 to 8, with the
// reply, its length, with discard 5 the offset, and the count that the verdict carries, as `banshorra_serve` tells them. 2 where the room has fewer than 512 octets, tested first; then 20 or 21
// where the file is refused. Any 75 octets may be lent as a verdict and any file with them: no octet past the reply's length changes, or past the 512th.
pub fn banshorra_reply(
    file: &[u8],
    verdict: &[u8; 75],
    reply: &mut [u8],
    reply_length: &mut usize,
    fault_offset: &mut usize,
    count: &mut usize,
) -> u8
    ensures { Tells (reply_file file.now verdict.now (length reply.old)) reply.old reply.new (record { outcome = result; length = reply_length.new; offset = fault_offset.new; count = count.new }) }
{
    let told = write_verdict(file, verdict, reply);
    *reply_length = told.length;
    *fault_offset = told.offset;
    *count = told.count;
    told.outcome
}

// A list of calls on the campus file in a buffer, in the records that `replay` reads; the file is read once and written once. Each answer is
// outcome(1), the offset that it carries(2), how many records were read(1), reply length(2) and the reply. `used` is how many octets of the calls are answered, `filled` how many of the answers there are.
// 0 where all are answered, 24 where a record is cut off, 27 where fewer than 518 octets are left for the next answer; those before it stand, and
// the file is written. 20, 21, 23 and 28 of the file as above, with `used` and `filled` 0.
pub fn banshorra_replay(
    file: &mut [u8],
    file_length: &mut usize,
    calls: &[u8],
    used: &mut usize,
    answers: &mut [u8],
    filled: &mut usize,
) -> u8
    ensures { ReplaysFile (replay_file file.old file_length.old calls.now (length answers.old)) file.new file_length.new used.new answers.old answers.new filled.new result }
{
    let n = *file_length;
    let f = open_in(file, n);
    if f.refusal == 0 {
        let mut kept = [0u8; NAMES_ROOM];
        let k = keep_names(&mut kept, file, f.from, f.end);
        let p = call_list::replay(f.owned, &kept[..k], calls, answers);
        let w = call_list::write_sound(p.owned, &kept[..k], file);
        *file_length = length_after(w, n);
        *used = p.used;
        *filled = p.filled;
        return number_after(w, p.number);
    }
    *used = 0;
    *filled = 0;
    f.refusal
}

// Salvages a campus file that may be refused as 21 (document 02, W-212): a new one into `room`, of `room_length` octets, and into `list` those that were dropped, of
// `list_length` octets: how many(2), then for each kind(1; 1 lease, 2 hold, 3 release), place in its section(1; from 1) and first broken rule(1). 20 for a wrong form, 25
// where the settings alone are unsound, 23 where a room is too short: these write nothing, and both lengths are 0. As many octets as the file has, and 2,297, are enough.
pub fn banshorra_salvage(
    file: &[u8],
    room: &mut [u8],
    room_length: &mut usize,
    list: &mut [u8],
    list_length: &mut usize,
) -> u8
    ensures { Salvages (salvage_of file.now (length room.old) (length list.old)) room.old list.old room.new list.new result room_length.new list_length.new }
{
    match salvage_file::salvage(file, room, list) {
        Ok(told) => {
            *room_length = told.length;
            *list_length = told.listed;
            0
        }
        Err(e) => {
            *room_length = 0;
            *list_length = 0;
            e.number()
        }
    }
}

// Replays calls on a campus file, for the desk and for comparisons. Standard input: campus file length(2), the campus file, then for each
// call time(4), client address(4), reply room length(2), datagram length(2), the datagram. It reads as it goes.
#![tactic(auto)]

use owned::Owned;

// The first n octets of a text, or all of it.
fn print(rt: &HostRuntime, text: &[u8], n: usize) {
    streams::write_front(&mut rt.stdout(), text, n.min(text.len()));
}

fn refuse(rt: &HostRuntime, number: u8) {
    let mut line = [0u8; 16];
    let n = replay_text::write_refused_line(&mut line, number);
    print(rt, &line, n);
}

// A reply is no longer than the least room and lies within its room (demand 1); one that did not would be told as 27, too little room for it.
fn print_call(
    rt: &HostRuntime,
    outcome: u8,
    offset: usize,
    count: usize,
    room: &[u8],
    length: usize,
) {
    let mut line = [0u8; 2 * reply::LEAST_ROOM + 46];
    if length <= reply::LEAST_ROOM && length <= room.len() {
        let n = replay_text::write_call_line(&mut line, outcome, offset, count, room, length);
        print(rt, &line, n);
        return;
    }
    refuse(rt, 27);
}

// The writer refuses nothing after calls on an accepted file; what it refused would be told.
fn print_book(rt: &HostRuntime, book: Owned, names: &[u8]) {
    let mut file = [0u8; state_file::FILE_LIMIT];
    let mut line = [0u8; 2 * state_file::FILE_LIMIT + 6];
    match owned::write(book, names, &mut file) {
        Ok(length) if length <= state_file::FILE_LIMIT => {
            let n = replay_text::write_book_line(&mut line, &file, length);
            print(rt, &line, n);
        }
        Ok(_) => refuse(rt, 23),
        Err(e) => refuse(rt, e.number()),
    }
}

// Reads n octets to the front of a buffer; false where the input is cut off before them.
fn read_part(rt: &HostRuntime, buffer: &mut [u8], n: usize) -> bool {
    n <= buffer.len() && streams::read_full(&mut rt.stdin(), &mut buffer[..n]) == n
}

// One call on a datagram of n octets, in a room of just `size` octets; both lie within their buffers, which have 65,536.
fn call(
    rt: &HostRuntime,
    book: Owned,
    names: &[u8],
    client: u32,
    time: u32,
    datagram: &[u8],
    n: usize,
    room: &mut [u8],
    size: usize,
) -> Owned {
    if n <= datagram.len() && size <= room.len() {
        let r = owned::serve(book, names, &datagram[..n], client, time, &mut room[..size]);
        let told = r.outcome;
        print_call(rt, told.outcome, told.offset, told.count, room, told.length);
        return r.owned;
    }
    refuse(rt, 24);
    book
}

// The call whose record starts with a head of twelve octets.
fn call_of(
    rt: &HostRuntime,
    head: [u8; 12],
    book: Owned,
    names: &[u8],
    datagram: &[u8],
    n: usize,
    room: &mut [u8],
) -> Owned {
    let time = octets::read_u32(&head, 0);
    let client = octets::read_u32(&head, 4);
    let size = octets::read_u16(&head, 8) as usize;
    call(rt, book, names, client, time, datagram, n, room, size)
}

// The book after a record; none where it was the last.
fn take_turn(
    rt: &HostRuntime,
    book: Owned,
    names: &[u8],
    datagram: &mut [u8],
    room: &mut [u8],
) -> Option<Owned> {
    let mut head = [0u8; 12];
    let got = streams::read_full(&mut rt.stdin(), &mut head);
    if got == 0 {
        print_book(rt, book, names);
        return None;
    }
    let n = octets::read_u16(&head, 10) as usize;
    if got == 12 && read_part(rt, datagram, n) {
        return Some(call_of(rt, head, book, names, datagram, n, room));
    }
    refuse(rt, 24);
    None
}

// Answers calls until the input ends or is cut off. A proved loop has to end: its turns are counted up to a number that no run uses up.
fn replay(rt: &HostRuntime, start: Owned, names: &[u8]) {
    let mut book = start;
    let mut datagram = [0u8; 65536];
    let mut room = [0u8; 65536];
    for _ in 0..u64::MAX {
        let Some(next) = take_turn(rt, book, names, &mut datagram, &mut room) else {
            return;
        };
        book = next;
    }
}

// On the campus file of n octets, whose names are lent where they stand.
fn replay_file(rt: &HostRuntime, file: &[u8], n: usize) {
    if n > file.len() {
        refuse(rt, 24);
        return;
    }
    match owned::open(&file[..n]) {
        Ok(book) => replay(rt, book, state_file::names(&file[..n])),
        Err(e) => refuse(rt, e.number()),
    }
}

fn main(rt: HostRuntime) {
    let mut head = [0u8; 2];
    let mut file = [0u8; 65536];
    if read_part(&rt, &mut head, 2) {
        let n = octets::read_u16(&head, 0) as usize;
        if read_part(&rt, &mut file, n) {
            replay_file(&rt, &file, n);
            return;
        }
    }
    refuse(&rt, 24);
}

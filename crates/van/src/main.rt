// The van's server. Standard input: 18 octets of settings (server address, lowest and highest client address, lowest pool address, 4 octets each; size and
// TTL, 1 each), then for each datagram time(4), client address(4), length(2) and the datagram. It reads as it goes and prints a line for each.
#![tactic(auto)]

use owned::Owned;
use van_server::Turn;

// The first n octets of a text, or all of it.
fn print(rt: &HostRuntime, text: &[u8], n: usize) {
    streams::write_front(&mut rt.stdout(), text, n.min(text.len()));
}

// The line of a record.
fn print_line(rt: &HostRuntime, line: [u8; van_server::LINE_ROOM], n: usize) {
    print(rt, &line, n);
}

fn refuse(rt: &HostRuntime, number: u8) {
    let mut line = [0u8; 16];
    let n = replay_text::write_refused_line(&mut line, number);
    print(rt, &line, n);
}

// Reads a part of a buffer; how many octets there were for it.
fn read_part(rt: &HostRuntime, buffer: &mut [u8], from: usize, to: usize) -> usize {
    if from <= to && to <= buffer.len() {
        return streams::read_full(&mut rt.stdin(), &mut buffer[from..to]);
    }
    0
}

// Reads a record to the front of a buffer; its length, or less where it is cut off.
fn read_record(rt: &HostRuntime, buffer: &mut [u8]) -> usize {
    let got = read_part(rt, buffer, 0, van_server::HEAD);
    if got < van_server::HEAD {
        return got;
    }
    let n = van_server::record_size(buffer);
    if n <= van_server::HEAD {
        return n;
    }
    if read_part(rt, buffer, van_server::HEAD, n) == n - van_server::HEAD {
        return n;
    }
    van_server::HEAD
}

// One record. It lies within the buffer, which has room for the longest; for one that did not nothing would be told.
fn take_turn(rt: &HostRuntime, book: Owned, buffer: &mut [u8]) -> Turn {
    let mut line = [0u8; van_server::LINE_ROOM];
    let n = read_record(rt, buffer);
    if n <= buffer.len() {
        let t = van_server::turn_of(book, &buffer[..n], &mut line);
        print_line(rt, line, t.length);
        return t;
    }
    Turn {
        go: false,
        length: 0,
        owned: book,
    }
}

// Answers records until the input ends or is cut off. A proved loop has to end: its turns are counted up to a number that no run uses up.
fn run(rt: &HostRuntime, start: Owned) {
    let mut book = start;
    let mut buffer = [0u8; van_server::RECORD_ROOM];
    for _ in 0..u64::MAX {
        let t = take_turn(rt, book, &mut buffer);
        if !t.go {
            return;
        }
        book = t.owned;
    }
}

fn main(rt: HostRuntime) {
    let mut settings = [0u8; van_server::SETTINGS];
    let n = read_part(&rt, &mut settings, 0, van_server::SETTINGS);
    if n < van_server::SETTINGS {
        refuse(&rt, 24);
        return;
    }
    match van_server::open(&settings) {
        Ok(book) => run(&rt, book),
        Err(e) => refuse(&rt, e.number()),
    }
}

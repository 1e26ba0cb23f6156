// Salvages the state file on standard input: the new file goes to standard output, and to standard error a line for each lease, hold or release that was dropped,
// `lease 3 rule 9`, or `refused` and a number alone. One octet more than a file may have is read, so that a longer one is refused.
#![tactic(auto)]

use salvage_file::{Refusal, Salvaged};

fn print_dropped(rt: &HostRuntime, kind: u8, place: u8, rule: u8) {
    let mut line = [0u8; 21];
    let n = replay_text::write_dropped_line(&mut line, kind, place, rule);
    streams::write_front(&mut rt.stderr(), &line, n);
}

fn refuse(rt: &HostRuntime, number: u8) {
    let mut line = [0u8; 11];
    let n = replay_text::write_refused_line(&mut line, number);
    streams::write_front(&mut rt.stderr(), &line, n);
}

// The entries of a list of n octets, after its count.
fn print_list(rt: &HostRuntime, list: &[u8], n: usize) {
    let n = n.min(list.len());
    if 2 <= n {
        for entry in list[2..n].chunks_exact(3) {
            print_dropped(rt, entry[0], entry[1], entry[2]);
        }
    }
}

// What the salvage answered. A refusal has no file.
fn print(rt: &HostRuntime, told: Result<Salvaged, Refusal>, file: &[u8], list: &[u8]) {
    match told {
        Ok(told) => {
            streams::write_front(&mut rt.stdout(), file, told.length);
            print_list(rt, list, told.listed);
        }
        Err(e) => refuse(rt, e.number()),
    }
}

fn main(rt: HostRuntime) {
    let mut file = [0u8; state_file::FILE_LIMIT + 1];
    let n = streams::read_full(&mut rt.stdin(), &mut file);
    let mut room = [0u8; state_file::FILE_LIMIT];
    let mut list = [0u8; salvage_file::LIST_LIMIT];
    let told = salvage_file::salvage(&file[..n], &mut room, &mut list);
    print(&rt, told, &room, &list);
}

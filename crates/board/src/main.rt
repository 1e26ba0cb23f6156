// Prints the board of the state file on standard input. One octet more than a file may have is read, so that a longer one is refused.
#![tactic(auto)]

fn print(rt: &HostRuntime, text: &[u8], n: usize) {
    streams::write_front(&mut rt.stdout(), text, n);
}

fn main(rt: HostRuntime) {
    let mut file = [0u8; state_file::FILE_LIMIT + 1];
    let n = streams::read_full(&mut rt.stdin(), &mut file);
    let mut room = [0u8; 1100];
    let k = board_text::write_board(&file[..n], &mut room);
    print(&rt, &room, k);
}

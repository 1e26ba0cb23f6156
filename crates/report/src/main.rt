// Prints the address-seconds of the state files named as arguments, or which of them is refused. One octet more than a file may have is read, so that a longer
// one is refused; one that can't be opened has no octets. Two files are in memory at a time.
#![tactic(auto)]

ghost use Rattle.std.specs.Prelude.{◌≤◌};

use state_file::{Loaded, Refusal};
use std::env::{Env, FillError};
use std::fs::File;
use usage::{FileRefusal, Report};

// The longest path of a file, and an octet more.
const PATH_ROOM: usize = 4096;

// A path that is no UTF-8 can't be opened.
fn read_file(rt: &HostRuntime, path: &[u8], n: usize, file: &mut [u8]) -> usize {
    if n <= path.len() {
        let Ok(path) = str::from_utf8(&path[..n]) else {
            return 0;
        };
        return match File::open(rt, path) {
            Ok(mut opened) => streams::read_full(&mut opened, file),
            Err(_) => 0,
        };
    }
    0
}

// The file that argument i names.
fn load(rt: &HostRuntime, i: usize) -> Result<Loaded, Refusal> {
    let mut file = [0u8; state_file::FILE_LIMIT + 1];
    let mut path = [0u8; PATH_ROOM];
    let n = rt.arg(i, &mut path).unwrap_or(0);
    let k = read_file(rt, &path, n, &mut file);
    if k <= file.len() {
        return state_file::read(&file[..k]);
    }
    state_file::read(&file[..0])
}

// The files of arguments 1 to n, or the first that is refused and its place.
fn gather(rt: &HostRuntime, n: usize) -> Result<Report, (FileRefusal, u64)>
    requires { n ≤ 1000 }
{
    let mut report = match usage::begin(load(rt, 1)) {
        Ok(first) => first,
        Err(e) => return Err((e, usage::place_after(usage::no_report()))),
    };
    for i in 2..n + 1 {
        report = match usage::next(report, load(rt, i)) {
            Ok(more) => more,
            Err(e) => return Err((e, usage::place_after(report))),
        };
    }
    Ok(report)
}

fn print(rt: &HostRuntime, text: &[u8], n: usize) {
    streams::write_front(&mut rt.stdout(), text, n);
}

fn print_refused(rt: &HostRuntime, number: u8, place: u64) {
    let mut room = [0u8; usage::TEXT_LIMIT];
    let k = usage::write_refused(number, place, &mut room);
    print(rt, &room, k);
}

fn print_told(rt: &HostRuntime, told: Result<Report, (FileRefusal, u64)>) {
    match told {
        Ok(report) => {
            let mut room = [0u8; usage::TEXT_LIMIT];
            let k = usage::write_report(report, &mut room);
            print(rt, &room, k);
        }
        Err((e, place)) => print_refused(rt, e.number(), place),
    }
}

// How many arguments there are, the program's name among them; no more than one above the most that are read.
fn argument_count(rt: &HostRuntime) -> usize {
    let mut room = [0u8; PATH_ROOM];
    for i in 0..usage::MOST_FILES + 2 {
        if let Err(FillError::NotPresent) = rt.arg(i, &mut room) {
            return i;
        }
    }
    usage::MOST_FILES + 2
}

fn main(rt: HostRuntime) {
    let n = argument_count(&rt);
    if 2 <= n {
        if n - 1 <= usage::MOST_FILES {
            print_told(&rt, gather(&rt, n - 1));
            return;
        }
    }
    print_refused(&rt, 26, 0);
}

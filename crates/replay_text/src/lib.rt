// The lines that `replay`, `van` and `salvage` print, written into a lent buffer.
#![tactic(auto)]

ghost use Rattle.std.specs.Prelude.{◌≡◌, [], ◌∷◌, ◌+◌, ◌*◌, ◌/◌, ◌≤◌, ◌<◌, length, take};
ghost use Rattle.octets.specs.Octets.{Wrote};
ghost use Rattle.replay_text.specs.Replay.{hex_digit, hex_of, number_text, outcome_line, outcome_text, count_text, call_line, book_line, refused_line, kind_text, rule_text, dropped_line};

fn hex_digit(d: u8) -> u8
    requires { d < 16 }
    ensures { result ≡ hex_digit d }
{
    if d < 10 {
        return b'0' + d;
    }
    b'a' + (d - 10)
}

fn put_hex_octet(out: &mut [u8], at: usize, x: u8) -> usize
    requires { at + 2 ≤ length out.old }
    ensures { Wrote out.old at (hex_of (x ∷ [])) out.new result }
{
    let a = octets::put_u8(out, at, hex_digit(x / 16));
    octets::put_u8(out, a, hex_digit(x % 16))
}

// The hex of octets.
fn put_hex(out: &mut [u8], at: usize, s: &[u8]) -> usize
    requires { at + 2 * length s.now ≤ length out.old }
    ensures { (Wrote out.old at (hex_of s.now) out.new result) × (result ≡ at + 2 * length s.now) }
{
    let mut to = at;
    for x in s {
        to = put_hex_octet(out, to, *x);
    }
    to
}

// The number of an outcome whose reply is the first n octets of a slice and, for a reply, a blank and its octets.
fn put_outcome_number(out: &mut [u8], outcome: u8, reply: &[u8], n: usize) -> usize
    requires { (2 * n + 2 ≤ length out.old) × (n ≤ length reply.now) }
    ensures { (Wrote out.old 0 (number_text outcome (take n reply.now)) out.new result) × (result ≤ 2 * n + 2) }
{
    if outcome == 0 {
        let a = octets::put_u8(out, 0, b'0');
        let b = octets::put_u8(out, a, b' ');
        return put_hex(out, b, &reply[..n]);
    }
    octets::put_u8(out, 0, b'0' + outcome % 10)
}

// The line of an outcome, without what a discard carries.
pub fn write_outcome_line(out: &mut [u8], outcome: u8, reply: &[u8], n: usize) -> usize
    requires { (2 * n + 8 ≤ length out.old) × (n ≤ length reply.now) }
    ensures { Wrote out.old 0 (outcome_line outcome (take n reply.now)) out.new result }
{
    let a = put_outcome_number(out, outcome, reply, n);
    octets::put_u8(out, a, b'\n')
}

// The outcome of a call, with the offset that a discard 5 carries.
fn put_outcome(out: &mut [u8], outcome: u8, offset: usize, reply: &[u8], n: usize) -> usize
    requires { (2 * n + 23 ≤ length out.old) × (n ≤ length reply.now) }
    ensures { (Wrote out.old 0 (outcome_text outcome offset (take n reply.now)) out.new result) × (result ≤ 2 * n + 23) }
{
    if outcome == 5 {
        let a = octets::put(out, 0, b"5 @");
        return number_text::put_number(out, a, offset as u64);
    }
    put_outcome_number(out, outcome, reply, n)
}

// The count, and the end of the line.
fn put_count(out: &mut [u8], at: usize, count: usize) -> usize
    requires { at + 23 ≤ length out.old }
    ensures { Wrote out.old at (count_text count) out.new result }
{
    let a = octets::put(out, at, b" #");
    let b = number_text::put_number(out, a, count as u64);
    octets::put_u8(out, b, b'\n')
}

// The line of a call whose reply is the first n octets of a slice.
pub fn write_call_line(
    out: &mut [u8],
    outcome: u8,
    offset: usize,
    count: usize,
    reply: &[u8],
    n: usize,
) -> usize
    requires { (2 * n + 46 ≤ length out.old) × (n ≤ length reply.now) }
    ensures { Wrote out.old 0 (call_line outcome offset count (take n reply.now)) out.new result }
{
    let a = put_outcome(out, outcome, offset, reply, n);
    put_count(out, a, count)
}

// The line of the campus file that is the first n octets of a slice.
pub fn write_book_line(out: &mut [u8], file: &[u8], n: usize) -> usize
    requires { (2 * n + 6 ≤ length out.old) × (n ≤ length file.now) }
    ensures { Wrote out.old 0 (book_line (take n file.now)) out.new result }
{
    let a = octets::put(out, 0, b"book ");
    let b = put_hex(out, a, &file[..n]);
    octets::put_u8(out, b, b'\n')
}

pub fn write_refused_line(out: &mut [u8], n: u8) -> usize
    requires { 11 ≤ length out.old }
    ensures { Wrote out.old 0 (refused_line n) out.new result }
{
    let a = octets::put(out, 0, b"refused ");
    let b = octets::put_u8(out, a, b'0' + n / 10 % 10);
    let c = octets::put_u8(out, b, b'0' + n % 10);
    octets::put_u8(out, c, b'\n')
}

// What a kind of those that a salvage drops is called.
fn put_kind(out: &mut [u8], kind: u8) -> usize
    requires { 8 ≤ length out.old }
    ensures { (Wrote out.old 0 (kind_text kind) out.new result) × (result ≤ 8) }
{
    if kind == 1 {
        return octets::put(out, 0, b"lease ");
    }
    if kind == 2 {
        return octets::put(out, 0, b"hold ");
    }
    octets::put(out, 0, b"release ")
}

// The rule, and the end of the line.
fn put_rule(out: &mut [u8], at: usize, rule: u8) -> usize
    requires { at + 10 ≤ length out.old }
    ensures { Wrote out.old at (rule_text rule) out.new result }
{
    let a = octets::put(out, at, b" rule ");
    let b = number_text::put_octet(out, a, rule);
    octets::put_u8(out, b, b'\n')
}

// The line of a lease, hold or release that was dropped: its kind, its place and the first rule that it breaks.
pub fn write_dropped_line(out: &mut [u8], kind: u8, place: u8, rule: u8) -> usize
    requires { 21 ≤ length out.old }
    ensures { Wrote out.old 0 (dropped_line kind place rule) out.new result }
{
    let a = put_kind(out, kind);
    let b = number_text::put_octet(out, a, place);
    put_rule(out, b, rule)
}

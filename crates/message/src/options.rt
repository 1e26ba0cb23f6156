// The walk over the options of a datagram, one after the other, up to End or to the first that breaks a rule (test 5).
ghost use Rattle.std.specs.Prelude.{◌≡◌, ◌+◌, ◌≤◌, ◌<◌, length, get_or, set, eqb};
ghost use Rattle.lists.specs.Pick.{pick};
ghost use Rattle.message.specs.Walk.{code_at, length_at, after_at, layout_ok, exactly_filled, value_ok, broken, done, moved, option_taken, step_of, walk_of};
ghost use Rattle.message.specs.Read.{longest_datagram};
ghost use Rattle.message.specs.Placed.{past_within};

use crate::{OptionCode, Stage, Walk};

// The walk over all options of a datagram.
pub fn walk_options(s: &[u8]) -> Walk
    requires { (8 ≤ length s.now) × (length s.now ≤ longest_datagram) }
    ensures { result ≡ walk_of s.now }
{
    let mut w = Walk {
        at: 8,
        stage: Stage::Walking,
        places: [0; 17],
    };
    loop {
        match w.stage {
            Stage::Walking => w = w.step(s),
            Stage::Done | Stage::Broken => return w,
        }
    }
}

impl Walk {
    fn broken(self) -> Walk
        ensures { result ≡ broken self }
    {
        Walk {
            stage: Stage::Broken,
            ..self
        }
    }

    // End is the last four octets.
    fn at_end(self, size: usize) -> Walk
        requires { self.at ≤ longest_datagram }
        ensures { result ≡ pick (eqb (self.at + 4) size) (done self) (broken self) }
    {
        if self.at + 4 == size {
            return Walk {
                stage: Stage::Done,
                ..self
            };
        }
        self.broken()
    }

    // A code from 1 to 16 comes at most once.
    fn recorded(self, code: usize, n: usize) -> Walk
        requires { (self.at + 4 + n ≤ longest_datagram) × (code < 17) }
        ensures { result ≡ pick (eqb (get_or self.places code 0) 0) (moved n (set self.places code self.at) self) (broken self) }
    {
        let mut p = self.places;
        if p[code] == 0 {
            p[code] = self.at;
            return Walk {
                at: self.at + 4 + n,
                stage: Stage::Walking,
                places: p,
            };
        }
        self.broken()
    }

    // The option at the walk's place, whose layout and value are right.
    fn taken(self, size: usize, code: u16, n: usize) -> Walk
        requires { self.at + 4 + n ≤ longest_datagram }
        ensures { result ≡ option_taken size code n self }
    {
        if code == OptionCode::END {
            return self.at_end(size);
        }
        if OptionCode::ERROR < code {
            return Walk {
                at: self.at + 4 + n,
                stage: Stage::Walking,
                ..self
            };
        }
        self.recorded(usize::from(code), n)
    }

    // The same, with its code and length read.
    fn taken_in(self, s: &[u8]) -> Walk
        requires { (after_at s.now self.at ≤ length s.now) × (length s.now ≤ longest_datagram) }
        ensures { result ≡ option_taken (length s.now) (code_at s.now self.at) (length_at s.now self.at) self }
    {
        let code = octets::read_u16(s, self.at);
        let n = usize::from(octets::read_u16(s, self.at + 2));
        self.taken(s.len(), code, n)
    }

    fn step(self, s: &[u8]) -> Walk
        requires { (self.at ≤ length s.now) × (length s.now ≤ longest_datagram) }
        ensures { result ≡ step_of s.now self }
    {
        if layout_ok(s, self.at) && value_ok(s, self.at) {
            return self.taken_in(s);
        }
        self.broken()
    }
}

fn layout_ok(s: &[u8], at: usize) -> bool
    requires { (at ≤ length s.now) × (length s.now ≤ longest_datagram) }
    ensures { result ≡ layout_ok s.now at }
{
    at + 4 <= s.len() && at + 4 + usize::from(octets::read_u16(s, at + 2)) <= s.len()
}

fn value_ok(s: &[u8], at: usize) -> bool
    requires { (after_at s.now at ≤ length s.now) × (length s.now ≤ longest_datagram) }
    ensures { result ≡ value_ok s.now at }
{
    let code = octets::read_u16(s, at);
    let n = usize::from(octets::read_u16(s, at + 2));
    OptionCode::new(code).length_ok(n)
        && (code != OptionCode::FEATURES || exactly_filled(s, at + 4, at + 4 + n))
}

fn exactly_filled(s: &[u8], p: usize, end: usize) -> bool
    requires { (end ≤ length s.now) × ((length s.now ≤ longest_datagram) × (p ≤ end)) }
    ensures { result ≡ exactly_filled s.now p end }
{
    let a = past_list(s, p, end);
    let b = past_list(s, a, end);
    past_list(s, b, end) == end
}

// Past the list of codes of option 12 that starts at p; past `end` where none fits.
fn past_list(s: &[u8], p: usize, end: usize) -> usize
    requires { (end ≤ length s.now) × ((length s.now ≤ longest_datagram) × (p ≤ 140000)) }
    ensures { (result ≡ past_within s.now end p) × (result ≤ 140000) }
{
    if end < p + 2 {
        return end + 1;
    }
    p + 2 + 2 * usize::from(octets::read_u16(s, p))
}

// MADCAP messages: the reader of a datagram (tests 4 to 6), and all that a message says. What each type and option code is, the walk over
// the options and the values of options stand in modules.
#![tactic(auto)]

mod codes;
mod options;
mod reader;
mod values;

ghost use Rattle.std.specs.Prelude.{◌≡◌, ◌≤◌, length};
ghost use Rattle.message.specs.Read.{longest_datagram, read_of};
ghost use Rattle.message.specs.Values.{fields_of};
ghost use Rattle.message.specs.Placed.{GoodPlaces};

use crate::options::walk_options;
use crate::reader::{header_ok, walked};
pub use codes::{MessageType, OptionCode};

// How many octets a datagram may have.
pub const LONGEST_DATAGRAM: usize = 1472;

// A datagram that passed tests 4 to 6: its type, its transaction id, and for each code up to 16 the place of its option, or 0.
#[derive(Clone, Copy)]
pub struct Message {
    pub kind: MessageType,
    pub xid: u32,
    pub places: [usize; 17],
}

// What the reader answers: discard 4, 5 or 6, or 0 and the message. With discard 5 goes the offset of the first option that breaks a
// rule, or the datagram's length where End or option 3 is missing.
#[derive(Clone, Copy)]
pub struct Reading {
    pub discard: u8,
    pub fault: usize,
    pub message: Message,
}

// All that a message says. `allowed`: each option is one that the type allows; `features`: the client sent 12; `ours`: no other server is
// named; `list_asked`, `time_asked`: the Option Request List names 9, 11; `language`: what a name is to be in.
#[derive(Clone, Copy)]
pub struct Fields {
    pub kind: u8,
    pub xid: u32,
    pub id: Identifier,
    pub allowed: bool,
    pub scope: Option<u32>,
    pub counts: Counts,
    pub times: Times,
    pub features: bool,
    pub ours: bool,
    pub list_asked: bool,
    pub time_asked: bool,
    pub language: Language,
}

// Lease Identifier: its octets, with zeros past its length.
#[derive(Clone, Copy)]
pub struct Identifier {
    pub octets: [u8; 32],
    pub len: u8,
}

// Number: the least and the desired count of addresses.
#[derive(Clone, Copy)]
pub struct Counts {
    pub least: u16,
    pub desired: u16,
}

// Lease Time, Start Time, Current Time, Minimum Lease and Maximum Start: the value of each that is there.
#[derive(Clone, Copy)]
pub struct Times {
    pub length: Option<u32>,
    pub start: Option<u32>,
    pub current: Option<u32>,
    pub shortest: Option<u32>,
    pub latest: Option<u32>,
}

// Requested Language: is it there, its length, and its first eight octets, with zeros past its length. No tag of a name has more than eight,
// so the others need not be kept: by its length alone a longer one is no tag's.
// Stays: a flag with values beside it, since `server::Ruling` has it, which entry points take as it is: its 75 octets (`verdict_octets`) keep the
// length and the octets also where none is asked.
#[derive(Clone, Copy)]
pub struct Language {
    pub asked: bool,
    pub len: usize,
    pub octets: [u8; 8],
}

// Where a walk stands, and for each code up to 16 the place of the option that it passed, or 0.
#[derive(Clone, Copy)]
pub struct Walk {
    pub at: usize,
    pub stage: Stage,
    pub places: [usize; 17],
}

// How far a walk is: on its way, at End, or at an option that breaks a rule.
#[derive(Clone, Copy)]
pub enum Stage {
    Walking,
    Done,
    Broken,
}

// The reader of datagrams: tests 4, 5 and 6.
pub fn read(s: &[u8]) -> Reading
    ensures { result ≡ read_of s.now }
{
    if header_ok(s) {
        return walked(s, walk_options(s));
    }
    Reading::discarded(4, 0)
}

impl Message {
    // All that the message says, to the server at an address.
    pub fn fields(self, s: &[u8], server: u32) -> Fields
        requires { GoodPlaces s.now self.places × (length s.now ≤ longest_datagram) }
        ensures { result ≡ fields_of s.now server self }
    {
        Fields {
            kind: self.kind.number,
            xid: self.xid,
            id: self.identifier(s),
            allowed: self.all_allowed(),
            scope: self.wish(s, OptionCode::SCOPE),
            counts: self.counts(s),
            times: self.times(s),
            features: self.has(OptionCode::FEATURES),
            ours: self.is_for(s, server),
            list_asked: self.asks_for(s, OptionCode::SCOPE_LIST),
            time_asked: self.asks_for(s, OptionCode::CURRENT_TIME),
            language: self.language(s),
        }
    }
}

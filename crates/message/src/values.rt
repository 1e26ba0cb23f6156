// The values of a message's options, and what stands for an absent one.
ghost use Rattle.std.specs.Prelude.{◌≡◌, true, ◌+◌, ◌/◌, ◌≤◌, length, is_some};
ghost use Rattle.lists.specs.Filter.{is_in};
ghost use Rattle.message.specs.Walk.{length_at, after_at};
ghost use Rattle.message.specs.Read.{longest_datagram};
ghost use Rattle.message.specs.Values.{find_of, counts_at, counts_of, names_server, server_ok, codes_from, names_of, identifier_at, identifier_of, language_at, language_of, allowed_at, all_allowed, wish_of, times_of};
ghost use Rattle.message.specs.Placed.{GoodPlaces, four_octets};

use crate::{Counts, Identifier, Language, Message, OptionCode, Times};

impl Message {
    // Where the option with a code from 1 to 16 stands.
    pub fn find(self, code: u16) -> Option<usize>
        ensures { result ≡ find_of self.places code }
    {
        let at = *self.places.get(usize::from(code))?;
        (at != 0).then_some(at)
    }

    // Whether the option is there.
    pub fn has(self, code: u16) -> bool
        ensures { result ≡ is_some (find_of self.places code) }
    {
        self.find(code).is_some()
    }

    // Number, or least 1 and desired 1.
    pub fn counts(self, s: &[u8]) -> Counts
        requires { GoodPlaces s.now self.places × (length s.now ≤ longest_datagram) }
        ensures { result ≡ counts_of s.now (find_of self.places 7) }
    {
        let Some(at) = self.find(OptionCode::NUMBER) else {
            return Counts {
                least: 1,
                desired: 1,
            };
        };
        counts_at(s, at)
    }

    // Whether the message names no server or this one (test 7 asks it of a REQUEST).
    pub fn is_for(self, s: &[u8], server: u32) -> bool
        requires { GoodPlaces s.now self.places × (length s.now ≤ longest_datagram) }
        ensures { result ≡ server_ok s.now server (find_of self.places 2) }
    {
        let Some(at) = self.find(OptionCode::SERVER_IDENTIFIER) else {
            return true;
        };
        names_server(s, at, server)
    }

    // Whether the Option Request List names a code.
    pub fn asks_for(self, s: &[u8], code: u16) -> bool
        requires { GoodPlaces s.now self.places × (length s.now ≤ longest_datagram) }
        ensures { result ≡ names_of s.now code (find_of self.places 5) }
    {
        let Some(at) = self.find(OptionCode::OPTION_REQUEST_LIST) else {
            return false;
        };
        lists_code(s, at, code)
    }

    // The value of an option of four octets, if it is there.
    pub fn wish(self, s: &[u8], code: u16) -> Option<u32>
        requires { GoodPlaces s.now self.places × ((four_octets code ≡ true) × (length s.now ≤ longest_datagram)) }
        ensures { result ≡ wish_of s.now (find_of self.places code) }
    {
        let at = self.find(code)?;
        Some(octets::read_u32(s, at + 4))
    }

    pub fn times(self, s: &[u8]) -> Times
        requires { GoodPlaces s.now self.places × (length s.now ≤ longest_datagram) }
        ensures { result ≡ times_of s.now self.places }
    {
        Times {
            length: self.wish(s, OptionCode::LEASE_TIME),
            start: self.wish(s, OptionCode::START_TIME),
            current: self.wish(s, OptionCode::CURRENT_TIME),
            shortest: self.wish(s, OptionCode::MINIMUM_LEASE),
            latest: self.wish(s, OptionCode::MAXIMUM_START),
        }
    }

    // The lease identifier.
    pub fn identifier(self, s: &[u8]) -> Identifier
        requires { GoodPlaces s.now self.places × (length s.now ≤ longest_datagram) }
        ensures { result ≡ identifier_of s.now (find_of self.places 3) }
    {
        let Some(at) = self.find(OptionCode::LEASE_IDENTIFIER) else {
            return Identifier {
                octets: [0; 32],
                len: 0,
            };
        };
        identifier_at(s, at)
    }

    // Requested Language, or that none is asked for.
    pub fn language(self, s: &[u8]) -> Language
        requires { GoodPlaces s.now self.places × (length s.now ≤ longest_datagram) }
        ensures { result ≡ language_of s.now (find_of self.places 8) }
    {
        let Some(at) = self.find(OptionCode::REQUESTED_LANGUAGE) else {
            return Language {
                asked: false,
                len: 0,
                octets: [0; 8],
            };
        };
        language_at(s, at)
    }

    // Whether every option that is there is one that the message type allows.
    pub fn all_allowed(self) -> bool
        ensures { result ≡ all_allowed self }
    {
        (0..17).all(|code| self.allowed_at(code))
    }

    fn allowed_at(self, code: u16) -> bool
        ensures { result ≡ allowed_at self.kind.number self.places code }
    {
        !self.has(code) || self.kind.allows(OptionCode::new(code))
    }
}

fn counts_at(s: &[u8], at: usize) -> Counts
    requires { (at + 8 ≤ length s.now) × (length s.now ≤ longest_datagram) }
    ensures { result ≡ counts_at s.now at }
{
    Counts {
        least: octets::read_u16(s, at + 4),
        desired: octets::read_u16(s, at + 6),
    }
}

// Whether the Server Identifier at a place is the six octets of family 1 and the server's address.
fn names_server(s: &[u8], at: usize, server: u32) -> bool
    requires { (after_at s.now at ≤ length s.now) × (length s.now ≤ longest_datagram) }
    ensures { result ≡ names_server s.now server at }
{
    octets::read_u16(s, at + 2) == 6
        && octets::read_u16(s, at + 4) == 1
        && octets::read_u32(s, at + 6) == server
}

// Whether the list of codes at a place has a code.
fn lists_code(s: &[u8], at: usize, code: u16) -> bool
    requires { (after_at s.now at ≤ length s.now) × (length s.now ≤ longest_datagram) }
    ensures { result ≡ is_in code (codes_from s.now (at + 4) (length_at s.now at / 2)) }
{
    let k = usize::from(octets::read_u16(s, at + 2)) / 2;
    (0..k).any(|i| octets::read_u16(s, at + 4 + 2 * i) == code)
}

// The identifier of 2 to 32 octets at a place.
fn identifier_at(s: &[u8], at: usize) -> Identifier
    requires { (after_at s.now at ≤ length s.now) × ((length_at s.now at ≤ 32) × (length s.now ≤ longest_datagram)) }
    ensures { result ≡ identifier_at s.now at }
{
    let n = usize::from(octets::read_u16(s, at + 2));
    let mut octets = [0; 32];
    octets[..n].copy_from_slice(&s[at + 4..at + 4 + n]);
    Identifier {
        octets,
        len: n as u8,
    }
}

// The language at a place: its length, and its octets as far as they are kept.
fn language_at(s: &[u8], at: usize) -> Language
    requires { (after_at s.now at ≤ length s.now) × (length s.now ≤ longest_datagram) }
    ensures { result ≡ language_at s.now at }
{
    let len = usize::from(octets::read_u16(s, at + 2));
    let n = len.min(8);
    let mut octets = [0; 8];
    octets[..n].copy_from_slice(&s[at + 4..at + 4 + n]);
    Language {
        asked: true,
        len,
        octets,
    }
}

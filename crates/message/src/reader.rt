// Tests 4, 5 and 6 on a datagram: its header, how the walk over its options ended, and the features that it requires.
ghost use Rattle.std.specs.Prelude.{◌≡◌, true, ◌+◌, ◌≤◌, length};
ghost use Rattle.message.specs.Walk.{after_at, exactly_filled, walk_of};
ghost use Rattle.message.specs.Read.{longest_datagram, header_ok, no_message, required_empty, none_required, ended, walked};
ghost use Rattle.message.specs.Placed.{GoodPlaces};

use crate::{LONGEST_DATAGRAM, Message, MessageType, OptionCode, Reading, Stage, Walk};

pub fn header_ok(s: &[u8]) -> bool
    ensures { result ≡ header_ok s.now }
{
    if s.len() < 12 || LONGEST_DATAGRAM < s.len() {
        return false;
    }
    s[0] == 0 && octets::read_u16(s, 2) == 1 && MessageType::new(s[1]).is_client()
}

pub fn walked(s: &[u8], w: Walk) -> Reading
    requires { (w ≡ walk_of s.now) × ((12 ≤ length s.now) × (length s.now ≤ longest_datagram)) }
    ensures { result ≡ walked s.now w }
{
    match w.stage {
        Stage::Done => ended(s, w.places),
        Stage::Walking | Stage::Broken => Reading::discarded(5, w.at),
    }
}

// The datagram's options end at End.
fn ended(s: &[u8], places: [usize; 17]) -> Reading
    requires { GoodPlaces s.now places × ((12 ≤ length s.now) × (length s.now ≤ longest_datagram)) }
    ensures { result ≡ ended s.now places }
{
    if places[OptionCode::LEASE_IDENTIFIER as usize] == 0 {
        return Reading::discarded(5, s.len());
    }
    if none_required(s, places) {
        return Reading {
            discard: 0,
            fault: 0,
            message: Message {
                kind: MessageType::new(s[1]),
                xid: octets::read_u32(s, 4),
                places,
            },
        };
    }
    Reading::discarded(6, 0)
}

// Whether no feature is required of the server.
fn none_required(s: &[u8], places: [usize; 17]) -> bool
    requires { GoodPlaces s.now places × (length s.now ≤ longest_datagram) }
    ensures { result ≡ none_required s.now places }
{
    let at = places[OptionCode::FEATURES as usize];
    at == 0 || required_empty(s, at)
}

// Whether the required list of the features at a place is empty.
fn required_empty(s: &[u8], at: usize) -> bool
    requires { (exactly_filled s.now (at + 4) (after_at s.now at) ≡ true) × ((after_at s.now at ≤ length s.now) × (length s.now ≤ longest_datagram)) }
    ensures { result ≡ required_empty s.now (at + 4) }
{
    let p = at + 4;
    let a = p + 2 + 2 * usize::from(octets::read_u16(s, p));
    let b = a + 2 + 2 * usize::from(octets::read_u16(s, a));
    octets::read_u16(s, b) == 0
}

impl Reading {
    pub fn discarded(number: u8, fault: usize) -> Reading
        ensures { result ≡ no_message number fault }
    {
        Reading {
            discard: number,
            fault,
            message: Message {
                kind: MessageType::new(0),
                xid: 0,
                places: [0; 17],
            },
        }
    }
}

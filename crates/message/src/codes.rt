// Message types and option codes: their numbers, the length of each option's value, and which options a message type allows.
ghost use Rattle.std.specs.Prelude.{◌≡◌, [], ◌∷◌};
ghost use Rattle.lists.specs.Filter.{is_in};
ghost use Rattle.message.specs.Codes.{client_types, length_ok, allowed_in, allows};

// Stays: a number and no enum, since a lent record holds any octet as its type (`Lease.kind` of `state`), and a datagram any code.
#[derive(Clone, Copy)]
pub struct MessageType {
    pub number: u8,
}

impl MessageType {
    pub const DISCOVER: u8 = 1;

    pub const OFFER: u8 = 2;

    pub const REQUEST: u8 = 3;

    pub const RENEW: u8 = 4;

    pub const ACK: u8 = 5;

    pub const NAK: u8 = 6;

    pub const RELEASE: u8 = 7;

    pub const GETINFO: u8 = 8;

    pub fn new(number: u8) -> MessageType
        ensures { result.number ≡ number }
    {
        MessageType { number }
    }

    // The types that a server sends. Stays: document 01 asks for constructors, which docs/TRACE.md names.
    pub fn offer() -> MessageType
        ensures { result.number ≡ 2 }
    {
        MessageType::new(MessageType::OFFER)
    }

    pub fn ack() -> MessageType
        ensures { result.number ≡ 5 }
    {
        MessageType::new(MessageType::ACK)
    }

    pub fn nak() -> MessageType
        ensures { result.number ≡ 6 }
    {
        MessageType::new(MessageType::NAK)
    }

    // Whether a client sends messages of this type.
    pub fn is_client(self) -> bool
        ensures { result ≡ is_in self.number client_types }
    {
        [
            MessageType::DISCOVER,
            MessageType::REQUEST,
            MessageType::RENEW,
            MessageType::RELEASE,
            MessageType::GETINFO,
        ]
        .contains(&self.number)
    }

    // Whether a message of this type may have the option.
    pub fn allows(self, code: OptionCode) -> bool
        ensures { result ≡ allows self.number code.number }
    {
        OptionCode::ERROR < code.number
            || [
                OptionCode::END,
                OptionCode::LEASE_IDENTIFIER,
                OptionCode::FEATURES,
            ]
            .contains(&code.number)
            || self.allows_besides(code.number)
    }

    // Besides End, Lease Identifier and Features.
    fn allows_besides(self, number: u16) -> bool
        ensures { result ≡ is_in number (allowed_in self.number) }
    {
        match self.number {
            MessageType::GETINFO => [
                OptionCode::OPTION_REQUEST_LIST,
                OptionCode::REQUESTED_LANGUAGE,
            ]
            .contains(&number),
            MessageType::DISCOVER => wish_option(number),
            MessageType::REQUEST => number == OptionCode::SERVER_IDENTIFIER || wish_option(number),
            MessageType::RENEW => [
                OptionCode::LEASE_TIME,
                OptionCode::START_TIME,
                OptionCode::CURRENT_TIME,
                OptionCode::MINIMUM_LEASE,
                OptionCode::MAXIMUM_START,
            ]
            .contains(&number),
            _ => false,
        }
    }
}

// The options by which DISCOVER and REQUEST say what is wanted.
fn wish_option(number: u16) -> bool
    ensures { result ≡ is_in number (1 ∷ 4 ∷ 6 ∷ 7 ∷ 10 ∷ 11 ∷ 14 ∷ 15 ∷ []) }
{
    [
        OptionCode::LEASE_TIME,
        OptionCode::SCOPE,
        OptionCode::START_TIME,
        OptionCode::NUMBER,
        OptionCode::RANGES,
        OptionCode::CURRENT_TIME,
        OptionCode::MINIMUM_LEASE,
        OptionCode::MAXIMUM_START,
    ]
    .contains(&number)
}

#[derive(Clone, Copy)]
pub struct OptionCode {
    pub number: u16,
}

impl OptionCode {
    pub const END: u16 = 0;

    pub const LEASE_TIME: u16 = 1;

    pub const SERVER_IDENTIFIER: u16 = 2;

    pub const LEASE_IDENTIFIER: u16 = 3;

    pub const SCOPE: u16 = 4;

    pub const OPTION_REQUEST_LIST: u16 = 5;

    pub const START_TIME: u16 = 6;

    pub const NUMBER: u16 = 7;

    pub const REQUESTED_LANGUAGE: u16 = 8;

    pub const SCOPE_LIST: u16 = 9;

    pub const RANGES: u16 = 10;

    pub const CURRENT_TIME: u16 = 11;

    pub const FEATURES: u16 = 12;

    pub const RETRY: u16 = 13;

    pub const MINIMUM_LEASE: u16 = 14;

    pub const MAXIMUM_START: u16 = 15;

    pub const ERROR: u16 = 16;

    pub fn new(number: u16) -> OptionCode
        ensures { result.number ≡ number }
    {
        OptionCode { number }
    }

    // Whether the value of this option may have n octets; of Features only the least is known here.
    pub fn length_ok(self, n: usize) -> bool
        ensures { result ≡ length_ok self.number n }
    {
        match self.number {
            OptionCode::END => n == 0,
            OptionCode::LEASE_TIME => n == 4,
            OptionCode::SERVER_IDENTIFIER => n == 6 || n == 18,
            OptionCode::LEASE_IDENTIFIER => 2 <= n && n <= 32,
            OptionCode::SCOPE => n == 4,
            OptionCode::OPTION_REQUEST_LIST => 2 <= n && n % 2 == 0,
            OptionCode::START_TIME => n == 4,
            OptionCode::NUMBER => n == 4,
            OptionCode::REQUESTED_LANGUAGE => 1 <= n,
            OptionCode::SCOPE_LIST => 1 <= n,
            OptionCode::RANGES => 6 <= n && n % 6 == 0,
            OptionCode::CURRENT_TIME => n == 4,
            OptionCode::FEATURES => 6 <= n,
            OptionCode::RETRY => n == 4,
            OptionCode::MINIMUM_LEASE => n == 4,
            OptionCode::MAXIMUM_START => n == 4,
            OptionCode::ERROR => 2 <= n,
            _ => true,
        }
    }
}

//! The codes of replies.
ghost use Rattle.std.specs.Prelude.{◌≡◌};
ghost use Rattle.hec_session.specs.declared.code.HecCode.{HecCode};
ghost use Rattle.hec_session.specs.Codes.{number_of, status_of, text_of};

/// Why a request is answered as it is: Splunk's possible error codes ("Troubleshoot HTTP Event Collector"),
/// and two of this project's own, 404 and 405.
#[derive(Clone, Copy, PartialEq, Eq)]
pub enum HecCode {
    /// 0: the events are stored, or will be.
    Success,
    /// 2: there is no Authorization.
    TokenRequired,
    /// 3: the Authorization isn't one of Splunk's.
    InvalidAuthorization,
    /// 4: the token is none of the receiver's.
    InvalidToken,
    /// 5: the body has no event.
    EmptyBody,
    /// 6: the body, or its coding, isn't read here.
    InvalidFormat,
    /// 8: the events can't be stored.
    ServerError,
    /// 9: there is no room for the events, or for their ids.
    ServerBusy,
    /// 10: the token uses acks, and there is no channel.
    ChannelMissing,
    /// 11: the channel isn't a GUID.
    InvalidChannel,
    /// 12: an object has no event.
    EventRequired,
    /// 13: an object's event is blank.
    EventBlank,
    /// 14: the token doesn't use acks.
    AckDisabled,
    /// 16: the token stands in the query.
    QueryAuthorization,
    /// 17: the receiver is there.
    Healthy,
    /// 404: nothing is at this path.
    NotFound,
    /// 405: the path has another method.
    MethodNotAllowed,
}

/// What the table says of a code.
#[derive(Clone, Copy)]
struct Meaning {
    number: u16,
    status: u16,
    text: &'static [u8],
}

// An entry of the table.
fn made(number: u16, status: u16, text: &'static [u8]) -> Meaning
    ensures number { result.number ≡ number }
    ensures status { result.status ≡ status }
    ensures text { result.text.now ≡ text.now }
{
    Meaning {
        number,
        status,
        text,
    }
}

/// All codes, in the order of their numbers.
const CODES: [HecCode; 17] = [
    HecCode::Success,
    HecCode::TokenRequired,
    HecCode::InvalidAuthorization,
    HecCode::InvalidToken,
    HecCode::EmptyBody,
    HecCode::InvalidFormat,
    HecCode::ServerError,
    HecCode::ServerBusy,
    HecCode::ChannelMissing,
    HecCode::InvalidChannel,
    HecCode::EventRequired,
    HecCode::EventBlank,
    HecCode::AckDisabled,
    HecCode::QueryAuthorization,
    HecCode::Healthy,
    HecCode::NotFound,
    HecCode::MethodNotAllowed,
];

impl HecCode {
    // The table.
    fn of_table(self) -> Meaning
        ensures number { result.number ≡ number_of self }
        ensures status { result.status ≡ status_of self }
        ensures text { result.text.now ≡ text_of self }
    {
        match self {
            HecCode::Success => made(0, 200, b"Success"),
            HecCode::TokenRequired => made(2, 401, b"Token is required"),
            HecCode::InvalidAuthorization => made(3, 401, b"Invalid authorization"),
            HecCode::InvalidToken => made(4, 403, b"Invalid token"),
            HecCode::EmptyBody => made(5, 400, b"No data"),
            HecCode::InvalidFormat => made(6, 400, b"Invalid data format"),
            HecCode::ServerError => made(8, 500, b"Internal server error"),
            HecCode::ServerBusy => made(9, 503, b"Server is busy"),
            HecCode::ChannelMissing => made(10, 400, b"Data channel is missing"),
            HecCode::InvalidChannel => made(11, 400, b"Invalid data channel"),
            HecCode::EventRequired => made(12, 400, b"Event field is required"),
            HecCode::EventBlank => made(13, 400, b"Event field cannot be blank"),
            HecCode::AckDisabled => made(14, 400, b"ACK is disabled"),
            HecCode::QueryAuthorization => made(
                16,
                400,
                b"Query string authorization is not enabled",
            ),
            HecCode::Healthy => made(17, 200, b"HEC is healthy"),
            HecCode::NotFound => made(404, 404, b"Not found"),
            HecCode::MethodNotAllowed => made(405, 405, b"Method not allowed"),
        }
    }

    /// The code with this number, of which there has to be one.
    pub(crate) fn with(number: u16) -> HecCode
        ensures { (code : HecCode) → number ≡ number_of code → result ≡ code }
    {
        for code in CODES {
            if code.number() == number {
                return code;
            }
        }
        HecCode::Success
    }

    /// The number in a reply's body.
    pub fn number(self) -> u16
        ensures { result ≡ number_of self }
    {
        self.of_table().number
    }

    /// The status of a reply (RFC 9110, section 15).
    pub fn status(self) -> u16
        ensures { result ≡ status_of self }
    {
        self.of_table().status
    }

    /// The text in a reply's body.
    pub(crate) fn text(self) -> &'static [u8]
        ensures { result.now ≡ text_of self }
    {
        self.of_table().text
    }
}

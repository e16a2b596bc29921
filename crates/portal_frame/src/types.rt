//! The types and limits of frames, requests, refusals and framing faults.

ghost use Rattle.std.specs.Prelude.{◌≡◌};
ghost use Rattle.portal_frame.specs.Stream.{refusal_content, refusal_of_fault, plain_refusal};

/// The most bytes of a request's head, with the empty lines before it.
pub const LONGEST_HEAD: usize = 16_384;

/// The most bytes of a request's body.
pub const LONGEST_BODY: usize = 1_048_576;

/// The most bytes of a request.
pub const LONGEST_REQUEST: usize = LONGEST_HEAD + LONGEST_BODY;

/// The parts of a request.
#[derive(Drop)]
pub struct Request {
    pub method: Vec<u8>,
    /// The request target up to its first question mark.
    pub path: Vec<u8>,
    /// The value of the `portal-code` header if there is exactly one, otherwise empty.
    pub code: Vec<u8>,
    /// Whether the connection closes after the reply.
    pub close: bool,
    pub body: Vec<u8>,
}

/// A refusal with its HTTP status and error word. For a wrong method `allow` lists the methods of
/// the path. For a bad row of a roll `row` is its number, from 1.
#[derive(Clone, Copy, Drop)]
pub struct Refusal {
    pub status: u16,
    pub word: &'static str,
    pub allow: &'static str,
    pub row: Option<u32>,
}

impl Refusal {
    /// Makes a refusal that has only a status and an error word.
    pub fn by_word(status: u16, word: &'static str) -> Refusal
        ensures { refusal_content result ≡ plain_refusal status word.now }
    {
        Refusal {
            status,
            word,
            allow: "",
            row: None,
        }
    }
}

/// What the bytes of a stream begin with.
#[derive(Drop)]
pub enum Frame {
    /// More bytes are needed.
    Need,
    /// The stream has ended between requests.
    End,
    /// A request, and the number of bytes that it takes.
    Request(Request, usize),
    /// A fault after which no request can be read; `head_only` says that the method is HEAD.
    Bad { refusal: Refusal, head_only: bool },
}

/// Why a stream is refused.
#[derive(Clone, Copy, Debug, PartialEq, Eq, Drop)]
pub(crate) enum FramingFault {
    BadHead,
    BadHost,
    CodedBody,
    BadLength,
    TooLarge,
}

impl FramingFault {
    /// Returns the refusal for this fault of framing.
    #[tactic(auto, unfolding(crate::specs::Stream::refusal_of_fault))]
    pub(crate) fn refusal(self) -> Refusal
        ensures { refusal_content result ≡ refusal_of_fault self }
    {
        match self {
            FramingFault::BadHead => Refusal::by_word(400, "bad_head"),
            FramingFault::BadHost => Refusal::by_word(400, "bad_host"),
            FramingFault::CodedBody => Refusal::by_word(501, "coded_body"),
            FramingFault::BadLength => Refusal::by_word(400, "bad_length"),
            FramingFault::TooLarge => Refusal::by_word(413, "too_large"),
        }
    }
}

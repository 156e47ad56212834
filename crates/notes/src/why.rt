//! Why bytes are no stream of their protocol, in words.
ghost use Rattle.std.specs.Prelude.{◌≡◌};
ghost use Rattle.notes.specs.Notes.{why_word};

use event_form::Why;

/// The word, or the words, for it, as a note and a line about a connection have it.
pub fn why_word(why: Why) -> &'static str
    ensures { result.now ≡ why_word why }
{
    match why {
        Why::Digits => "digits",
        Why::Space => "space",
        Why::Command => "command",
        Why::TooLong => "too long",
        Why::Trailer => "trailer",
        Why::Version => "version",
        Why::Kind => "type",
        Why::Compressed => "compressed",
        Why::AckFromWriter => "ack from writer",
        Why::TooMany => "too many",
        Why::BadHead => "bad head",
        Why::BadLength => "bad length",
        Why::BadChunk => "bad chunk",
        Why::Reply => "bad reply",
    }
}

//! What holds of written replies. The function does nothing: its contract is the law.
ghost use Rattle.stream_grammar.specs.Reading.{Drops};
ghost use Rattle.http_reply.specs.Reading.{parts};
ghost use Rattle.reply_laws.specs.Written.{ReadsFirst, WrittenIsRead, WrittenSpells};

/// What `write_reply` of http_edge appends is one reply by the grammar of http_reply, with the status and the body that were given.
/// Its head says that the body is JSON, and that the connection ends exactly where it is to.
///
/// It is read first, whatever follows it, and what follows is read as if it stood alone: of what a reader holds (`reader`), and of
/// bytes (`bytes`). So whatever a `ReplyReader` has read of bytes that begin with it, that reply is the first (`first`).
pub fn written_is_read()
    ensures spells { WrittenSpells }
    ensures reader { WrittenIsRead parts }
    ensures bytes { WrittenIsRead Drops }
    ensures first { ReadsFirst }
{}

//! What an item of the stream asks for.
use hec_session::HecAct;

/// What an item of the stream asks for.
#[derive(Drop)]
pub enum Asked {
    /// For leave to send the body of a request (RFC 9110, section 10.1.1).
    Leave,
    /// For this act. Where `closing`, the connection ends with its answer.
    Act { act: HecAct, closing: bool },
}

//! A frame.
use event_form::Blob;

/// A frame. A window size is at most 65,536; a text has at most 131,072 bytes.
#[derive(Drop)]
pub enum LumberFrame {
    /// `W`: how many data frames the writer sends before it waits for their acknowledgment.
    Window { size: u32 },
    /// `D`: a sequence number and the bytes of at most 1,024 pairs as they stand, from the first key
    /// length to the last value.
    Pairs { seq: u32, text: Blob },
    /// `J`: a sequence number and the payload, which isn't checked to be JSON.
    Json { seq: u32, text: Blob },
    /// `A`: the sequence number up to which frames are acknowledged.
    Ack { seq: u32 },
}

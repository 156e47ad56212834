//! The line of an event.
ghost use Rattle.std.specs.Prelude.{IfOk};
ghost use Rattle.event_form.specs.Event.{IsEvent};
ghost use Rattle.bridge_skip.specs.Line.{IsEventLine};

use event_form::Event;
use event_map::as_json_object;
use std::alloc::{AllocError, Global};

/// The line that is printed of an event: the event as a JSON object, and LF. The error says that no memory was found for it.
pub fn event_line(alloc: Global, event: &Event) -> Result<Vec<u8>, AllocError>
    requires { IsEvent event.now }
    ensures { IfOk result (λ line. IsEventLine event.now line.items) }
{
    let mut line = as_json_object(alloc, event)?.into_vec();
    line.push(b'\n')?;
    Ok(line)
}

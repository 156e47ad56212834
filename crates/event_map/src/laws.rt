//! What holds of the maps alone. These functions do nothing: each has a law as its contract.
ghost use Rattle.event_map.specs.Laws.{HasOne};
ghost use Rattle.event_map.specs.Maps.{IsHecObject, IsJsonObject, IsText};

/// Each event within its limits has one text, of at most 786,434 bytes.
pub fn some_text()
    ensures { HasOne IsText 786434 }
{}

/// Each event within its limits has one JSON object, of at most 786,446 bytes.
pub fn some_json()
    ensures { HasOne IsJsonObject 786446 }
{}

/// Each event within its limits has one event object of the collector, of at most 786,444 bytes.
pub fn some_hec()
    ensures { HasOne IsHecObject 786444 }
{}

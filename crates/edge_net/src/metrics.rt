//! The metrics of a page: the name of each, its type, and what it counts or measures.

/// A metric: its name, its type, and what it counts or measures, in a sentence.
pub(crate) type Head = (&'static str, &'static str, &'static str);

/// The numbers of a spool, in the order of `spool_values`.
pub(crate) const SPOOL: [Head; 11] = [
    (
        "bridge_spool_end",
        "gauge",
        "Entries stored since the spool was made.",
    ),
    (
        "bridge_spool_cursor",
        "gauge",
        "Below this number every entry is confirmed.",
    ),
    (
        "bridge_spool_known_beyond_cursor",
        "gauge",
        "Entries from the cursor on that are confirmed.",
    ),
    (
        "bridge_spool_pending",
        "gauge",
        "Entries that are not confirmed.",
    ),
    (
        "bridge_spool_room_bytes",
        "gauge",
        "Bytes of events that there is room for.",
    ),
    ("bridge_spool_slots", "gauge", "Slots of the spool."),
    ("bridge_spool_free_slots", "gauge", "Slots that are free."),
    (
        "bridge_spool_slot_bytes",
        "gauge",
        "Bytes of events that a slot takes at most.",
    ),
    (
        "bridge_spool_full",
        "gauge",
        "1 where no slot is free and the last event had no room, else 0.",
    ),
    ("bridge_spool_run", "gauge", "Number of this run."),
    (
        "bridge_spool_runs_left",
        "gauge",
        "Runs that the spool can have after this one.",
    ),
];

/// How many entries were stored, by the protocol.
pub(crate) const STORED: Head = (
    "bridge_events_stored_total",
    "counter",
    "Events that this run has stored, by the protocol by which they came.",
);

/// What a place counts that has one sample of it, in the order of `Place::values`.
pub(crate) const PLACES: [Head; 3] = [
    (
        "bridge_connections_accepted_total",
        "counter",
        "Connections of senders that were accepted.",
    ),
    (
        "bridge_connections_open",
        "gauge",
        "Connections of senders that have not ended.",
    ),
    (
        "bridge_connections_limit",
        "gauge",
        "Connections of senders that are served at once at most.",
    ),
];

/// How many connections of a place have ended, by the status.
pub(crate) const ENDED: Head = (
    "bridge_connections_ended_total",
    "counter",
    "Connections of senders that have ended, by the status of their ending.",
);

/// How often senders were refused, by protocol and code.
pub(crate) const REFUSALS: Head = (
    "bridge_sender_refusals_total",
    "counter",
    "Requests and frames of senders that were refused, by protocol and code.",
);

/// Which entry holds the forwarding up.
pub(crate) const HELD_UP: Head = (
    "bridge_held_up_entry",
    "gauge",
    "Number of the entry that holds the forwarding up; there only while one does.",
);

/// Which version runs.
pub(crate) const BUILD: Head = (
    "bridge_build_info",
    "gauge",
    "1; the label is the version that runs.",
);

/// How long syncs of FILE took.
pub(crate) const SYNCS: Head = (
    "bridge_sync_seconds",
    "histogram",
    "Seconds that a sync of FILE took.",
);

/// What else is counted and measured of this run, in the order of `run_values`.
pub(crate) const RUN: [Head; 10] = [
    (
        "bridge_start_time_seconds",
        "gauge",
        "When this run began, in seconds since 1970.",
    ),
    (
        "bridge_oldest_pending_seconds",
        "gauge",
        "Seconds since this run first saw the oldest pending entry; 0 while none is pending.",
    ),
    (
        "bridge_received_bytes_total",
        "counter",
        "Bytes that senders have sent.",
    ),
    (
        "bridge_sent_bytes_total",
        "counter",
        "Bytes that were written to the receiver.",
    ),
    (
        "bridge_file_written_bytes_total",
        "counter",
        "Bytes that were written to FILE.",
    ),
    (
        "bridge_receiver_sessions_total",
        "counter",
        "Connections to the receiver.",
    ),
    (
        "bridge_receiver_dials_failed_total",
        "counter",
        "Tries to connect to the receiver that failed.",
    ),
    (
        "bridge_receiver_refusals_total",
        "counter",
        "Connections on which the receiver refused what was sent.",
    ),
    (
        "bridge_receiver_failing_seconds",
        "gauge",
        "Seconds since the receiver first failed; 0 while it is well.",
    ),
    (
        "bridge_disk_failing_seconds",
        "gauge",
        "Seconds since a call on FILE first failed; 0 while FILE is well.",
    ),
];

/// What memory the connections of senders take, in the order of `Budget::values`.
pub(crate) const MEMORY: [Head; 3] = [
    (
        "bridge_memory_held_bytes",
        "gauge",
        "Bytes of memory that connections of senders have taken.",
    ),
    (
        "bridge_memory_limit_bytes",
        "gauge",
        "Bytes of memory that connections of senders may take.",
    ),
    (
        "bridge_memory_waiting",
        "gauge",
        "Connections of senders that wait for memory.",
    ),
];

//! All that those are told who ask for numbers.
ghost use Rattle.std.specs.Prelude.{◌≡◌};
ghost use Rattle.edge_net.specs.Page.{spool_values, pending_of as pending_in, room_of as room_in};

use crate::budget::Budget;
use crate::counts::{Counts, REFUSED};
use crate::file_counts::STEPS;
use crate::metrics::{
    BUILD, ENDED, HELD_UP, Head, MEMORY, PLACES, REFUSALS, RUN, SPOOL, STORED, SYNCS,
};
use crate::roll::Roll;
use edge_io::{Proto, SpoolNumbers};
use std::alloc::{AllocError, Global};

// The number of the last run that a spool can have.
const LAST_RUN: u32 = 2_097_151;

// How many microseconds a second has.
const SECOND_MICROS: u64 = 1_000_000;

/// What those are told who ask for numbers.
#[derive(Clone, Copy)]
pub(crate) struct Glance<'a> {
    /// The numbers of the spool.
    pub(crate) numbers: &'a SpoolNumbers,
    /// Whether it is full.
    pub(crate) is_full: bool,
    /// The version that runs.
    pub(crate) version: &'static str,
    /// When the run began, in seconds since 1970.
    pub(crate) began: u64,
    /// How many seconds ago the oldest pending entry was first seen, or 0.
    pub(crate) oldest: u64,
    /// What was counted.
    pub(crate) counts: &'a Counts,
    /// The memory that their connections take.
    pub(crate) budget: &'a Budget,
    /// The places at which senders connect.
    pub(crate) roll: &'a Roll,
    /// For how many seconds calls of FILE have failed, or 0.
    pub(crate) disk_fails: u64,
    /// For how many seconds the receiver has failed, or 0.
    pub(crate) receiver_fails: u64,
}

/// How many entries are pending.
pub(crate) fn pending_of(numbers: &SpoolNumbers) -> u64
    ensures { result ≡ pending_in numbers.now }
{
    let from_cursor = numbers.end.saturating_sub(numbers.cursor);
    from_cursor.saturating_sub(numbers.known_count)
}

/// How many bytes of events there is room for.
pub(crate) fn room_of(numbers: &SpoolNumbers) -> u64
    ensures { result ≡ room_in numbers.now }
{
    let free = u64::from(numbers.free_slots).saturating_mul(numbers.most);
    numbers.room.saturating_add(free)
}

// The values of the spool's metrics.
fn spool_values(numbers: &SpoolNumbers, is_full: bool) -> [u64; 11]
    ensures { result ≡ spool_values numbers.now is_full }
{
    let n = *numbers;
    [
        n.end,
        n.cursor,
        n.known_count,
        pending_of(numbers),
        room_of(numbers),
        u64::from(n.slots),
        u64::from(n.free_slots),
        n.most,
        u64::from(is_full),
        u64::from(n.run),
        u64::from(LAST_RUN.saturating_sub(n.run)),
    ]
}

// The values of those of the run.
fn run_values(glance: &Glance<'_>) -> [u64; 10] {
    let counts = glance.counts;
    [
        glance.began,
        glance.oldest,
        counts.received.get(),
        counts.sent.get(),
        counts.file.written(),
        counts.sessions.get(),
        counts.unreached.get(),
        counts.receiver_refusals.get(),
        glance.receiver_fails,
        glance.disk_fails,
    ]
}

// Writes what stands before the samples of a metric.
fn write_head(text: &mut String, head: Head) -> Result<(), AllocError> {
    let (name, kind, help) = head;
    write!(text, "# HELP {name} {help}\n# TYPE {name} {kind}\n")
}

// Writes metrics with one sample each, and these values.
fn write_rows(text: &mut String, heads: &[Head], values: &[u64]) -> Result<(), AllocError> {
    for (head, value) in heads.iter().zip(values) {
        write_head(text, *head)?;
        let name = head.0;
        write!(text, "{name} {value}\n")?;
    }
    Ok(())
}

// The protocol in a label. It is empty before the first connection of a place has ended.
fn label_of(proto: Option<Proto>) -> &'static str {
    match proto {
        Some(Proto::Relp) => "relp",
        Some(Proto::Lumberjack) => "lumberjack",
        Some(Proto::Hec) => "hec",
        None => "",
    }
}

// Writes a sample for each protocol.
fn write_stored(text: &mut String, numbers: &SpoolNumbers) -> Result<(), AllocError> {
    write_head(text, STORED)?;
    let (name, stored) = (STORED.0, numbers.stored);
    for (proto, times) in [
        (Proto::Relp, stored.relp),
        (Proto::Lumberjack, stored.lumberjack),
        (Proto::Hec, stored.hec),
    ] {
        let label = label_of(Some(proto));
        write!(text, "{name}{{protocol=\"{label}\"}} {times}\n")?;
    }
    Ok(())
}

// Writes a sample for each place of what has one.
fn write_places(text: &mut String, roll: &Roll) -> Result<(), AllocError> {
    for at in 0..PLACES.len() {
        write_head(text, PLACES[at])?;
        let name = PLACES[at].0;
        for entry in roll.entries() {
            if let Some(place) = entry.get() {
                let (label, value) = (place.label.as_str(), place.values()[at]);
                write!(text, "{name}{{place=\"{label}\"}} {value}\n")?;
            }
        }
    }
    Ok(())
}

// Writes a sample for each place and each status that came there.
fn write_ended(text: &mut String, roll: &Roll) -> Result<(), AllocError> {
    write_head(text, ENDED)?;
    let name = ENDED.0;
    for entry in roll.entries() {
        let Some(place) = entry.get() else {
            continue;
        };
        let (label, connections) = (place.label.as_str(), &place.connections);
        let proto = label_of(connections.proto());
        for (status, count) in connections.ended().iter().enumerate() {
            let times = count.get();
            if times > 0 {
                write!(
                    text,
                    "{name}{{place=\"{label}\",protocol=\"{proto}\",status=\"{status}\"}} {times}\n"
                )?;
            }
        }
    }
    Ok(())
}

// Writes a sample for each protocol and code by which senders are refused.
fn write_refusals(text: &mut String, counts: &Counts) -> Result<(), AllocError> {
    write_head(text, REFUSALS)?;
    let name = REFUSALS.0;
    for ((proto, code), count) in REFUSED.iter().zip(counts.refusals.rows()) {
        let (proto, code, times) = (*proto, *code, count.get());
        write!(
            text,
            "{name}{{protocol=\"{proto}\",code=\"{code}\"}} {times}\n"
        )?;
    }
    Ok(())
}

// Writes the version, and which entry is held up where one is.
fn write_version_and_obstacle(text: &mut String, glance: &Glance<'_>) -> Result<(), AllocError> {
    write_head(text, BUILD)?;
    let (name, version) = (BUILD.0, glance.version);
    write!(text, "{name}{{version=\"{version}\"}} 1\n")?;
    write_head(text, HELD_UP)?;
    if let Some(number) = glance.counts.obstacle.entry(glance.numbers.cursor) {
        let name = HELD_UP.0;
        write!(text, "{name} {number}\n")?;
    }
    Ok(())
}

// Writes how many syncs took how long: those of each row with all shorter ones, and all together with what they took.
fn write_syncs(text: &mut String, counts: &Counts) -> Result<(), AllocError> {
    write_head(text, SYNCS)?;
    let (name, syncs) = (SYNCS.0, counts.file.syncs());
    let mut times = 0u64;
    for ((_, label), count) in STEPS.iter().zip(syncs) {
        times = times.saturating_add(count.get());
        let label = *label;
        write!(text, "{name}_bucket{{le=\"{label}\"}} {times}\n")?;
    }
    if let Some(longer) = syncs.last() {
        times = times.saturating_add(longer.get());
    }
    let micros = counts.file.micros();
    let (seconds, rest) = (micros / SECOND_MICROS, micros % SECOND_MICROS);
    write!(
        text,
        "{name}_bucket{{le=\"+Inf\"}} {times}\n{name}_sum {seconds}.{rest:06}\n{name}_count {times}\n"
    )
}

/// The text as the value of a label, between its quotes.
pub(crate) fn escaped(alloc: Global, text: &str) -> Result<String, AllocError> {
    let mut label = String::new(alloc);
    for c in text.chars() {
        match c {
            '\\' => label.push_str("\\\\")?,
            '"' => label.push_str("\\\"")?,
            '\n' => label.push_str("\\n")?,
            _ => label.push(c)?,
        }
    }
    Ok(label)
}

/// All that those are told who ask for numbers, in Prometheus' text format.
pub(crate) fn page(alloc: Global, glance: &Glance<'_>) -> Result<String, AllocError> {
    let (numbers, counts, roll) = (glance.numbers, glance.counts, glance.roll);
    let mut text = String::new(alloc);
    write_rows(&mut text, &SPOOL, &spool_values(numbers, glance.is_full))?;
    write_stored(&mut text, numbers)?;
    write_places(&mut text, roll)?;
    write_ended(&mut text, roll)?;
    write_refusals(&mut text, counts)?;
    write_version_and_obstacle(&mut text, glance)?;
    write_rows(&mut text, &RUN, &run_values(glance))?;
    write_syncs(&mut text, counts)?;
    write_rows(&mut text, &MEMORY, &glance.budget.values())?;
    Ok(text)
}

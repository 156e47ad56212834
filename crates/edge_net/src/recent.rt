//! About which senders a line was printed lately, and what was left unsaid.
ghost use Rattle.std.specs.Prelude.{◌≡◌, ◌↔◌, ◌<◌, ◌≤◌, ◌+◌, ◌^◌, ◌⊎◌, Some, IsTrue, IfSome, IfNone, IsSomeAnd, MatchOption, slice_get};

use crate::heading::Unheaded;
use crate::{Matter, Pace, Topic, Trouble};
use event_form::Talk;
use std::fmt;
use std::net::IpAddr;

// How many topics are kept in mind.
const MOST_TOPICS: usize = 64;

// How long nothing more is said of a topic after a line about it, in milliseconds.
const MINUTE: u64 = 60_000;

/// What is kept in mind of a topic.
#[derive(Clone, Copy)]
pub struct Entry {
    // The topic, once there was one.
    topic: Option<Topic>,
    // From when on a line about it may be printed, in milliseconds of the clock.
    quiet_until: u64,
    // How often it came since the last line about it.
    unsaid: u64,
}

// Whether both are one address.
fn same_peer(one: IpAddr, other: IpAddr) -> bool
    ensures { IsTrue result ↔ (one ≡ other) }
{
    one == other
}

// Whether both have one reason, or none.
fn same_reason(one: Option<u16>, other: Option<u16>) -> bool
    ensures { IsTrue result ↔ (one ≡ other) }
{
    one == other
}

// Whether both are one ending.
fn same_talk(one: Talk, other: Talk) -> bool
    ensures { IsTrue result ↔ (one ≡ other) }
{
    one == other
}

// Whether both have one ending, or none.
fn same_end(one: Option<Talk>, other: Option<Talk>) -> bool
    ensures { IsTrue result ↔ (one ≡ other) }
{
    match (one, other) {
        (Some(one), Some(other)) => same_talk(one, other),
        (None, None) => true,
        _ => false,
    }
}

// Whether the same went wrong, or nothing.
fn same_trouble(one: Option<Trouble>, other: Option<Trouble>) -> bool
    ensures { IsTrue result ↔ (one ≡ other) }
{
    one == other
}

// Whether it is the same line of a file, or neither is of one.
fn same_line(one: Option<usize>, other: Option<usize>) -> bool
    ensures { IsTrue result ↔ (one ≡ other) }
{
    one == other
}

// Whether both lack a head for the same reason.
fn same_lack(one: Unheaded, other: Unheaded) -> bool
    ensures { IsTrue result ↔ (one ≡ other) }
{
    one == other
}

// Whether the same befell both.
fn same_matter(one: Matter, other: Matter) -> bool
    ensures { IsTrue result ↔ (one ≡ other) }
{
    match (one, other) {
        (
            Matter::RequestRefused {
                code,
                reason,
                line,
                end,
            },
            Matter::RequestRefused {
                code: other_code,
                reason: other_reason,
                line: other_line,
                end: other_end,
            },
        ) => {
            code == other_code
                && same_reason(reason, other_reason)
                && same_line(line, other_line)
                && same_end(end, other_end)
        }
        (Matter::FrameRefused { code }, Matter::FrameRefused { code: other_code }) => {
            code == other_code
        }
        (Matter::Unheaded { why }, Matter::Unheaded { why: other_why }) => same_lack(
            why, other_why,
        ),
        (
            Matter::Ended {
                proto,
                status,
                talk,
                trouble,
            },
            Matter::Ended {
                proto: other_proto,
                status: other_status,
                talk: other_talk,
                trouble: other_trouble,
            },
        ) => {
            proto == other_proto
                && status == other_status
                && same_talk(talk, other_talk)
                && same_trouble(trouble, other_trouble)
        }
        _ => false,
    }
}

impl Entry {
    // Whether it is of that topic.
    fn is_of(&self, topic: Topic) -> bool
        ensures { IsTrue result ↔ (self.now.topic ≡ Some topic) }
    {
        match self.topic {
            Some(own) => same_peer(own.peer, topic.peer) && same_matter(own.matter, topic.matter),
            None => false,
        }
    }

    // Whether it is of that topic, and no line about it is to be printed yet.
    fn is_quiet(&self, topic: Topic, now: u64) -> bool
        ensures { IsTrue result ↔ ((self.now.topic ≡ Some topic) × (now < self.now.quiet_until)) }
    {
        self.is_of(topic) && now < self.quiet_until
    }
}

/// What a line stands for.
#[derive(Clone, Copy, PartialEq, Eq)]
pub struct Line {
    /// How often its topic came since the last line about it, this time included.
    pub count: u64,
    /// How often other topics came of which nothing is kept in mind any more, and no line was printed.
    pub others: u64,
}

/// What follows the words about the topic, where the line stands for more than its topic at this time.
impl fmt::Display for Line {
    fn fmt<W: fmt::Write>(&self, f: &mut fmt::Formatter<W>) -> fmt::Result {
        let (count, others) = (self.count, self.others);
        if count > 1 {
            write!(f, "; {count} times since the last such line")?;
        }
        if others > 0 {
            write!(f, "; others without a line: {others}")?;
        }
        Ok(())
    }
}

/// The topics of the last lines, 64 at most, and how often each came since. It takes no memory but its own.
#[derive(Drop)]
pub struct Recent {
    entries: [Entry; MOST_TOPICS],
    pace: Pace,
    // How often topics came that had to make room for others, and were unsaid then.
    others: u64,
}

// An entry of no topic.
const EMPTY: Entry = Entry {
    topic: None,
    quiet_until: 0,
    unsaid: 0,
};

impl Recent {
    ghost use Rattle.edge_net.specs.Recent.{unsaid_of, IsQuiet, IsSpent, IsPaced, IsUnpaced, IsKeptQuiet};

    /// Nothing came yet.
    pub fn new() -> Recent
        ensures { unsaid_of result ≡ 0 }
    {
        Recent {
            entries: [EMPTY; MOST_TOPICS],
            pace: Pace::new(),
            others: 0,
        }
    }

    // Whether a line about the topic was printed less than a minute ago, as far as it is kept in mind.
    fn is_quiet(&self, topic: Topic, now: u64) -> bool
        ensures { IsTrue result ↔ IsQuiet topic now self.now }
    {
        self.entries.iter().any(|entry| entry.is_quiet(topic, now))
    }

    // The entry of the topic, if it has one.
    fn find(&self, topic: Topic) -> Option<usize>
        ensures { IfSome result (λ i. (i < 64) × IsSomeAnd (slice_get self.now.entries i) (λ entry. entry.topic ≡ Some topic)) }
    {
        for i in 0..MOST_TOPICS {
            if self.entries[i].is_of(topic) {
                return Some(i);
            }
        }
        None
    }

    // The entry of which a line may be printed before all others: it makes room for another topic.
    fn earliest(&self) -> usize
        ensures { result < 64 }
    {
        let mut earliest = 0;
        for i in 0..MOST_TOPICS {
            if self.entries[i].quiet_until < self.entries[earliest].quiet_until {
                earliest = i;
            }
        }
        earliest
    }

    // The entry of the topic. Where it has none, it gets that of another topic, of which what was unsaid is counted among the others.
    fn enter(&mut self, topic: Topic) -> usize
        ensures place { result < 64 }
        ensures topic { IsSomeAnd (slice_get self.new.entries result) (λ entry. entry.topic ≡ Some topic) }
        ensures counts { unsaid_of self.old < 2 ^ 64 → unsaid_of self.new ≡ unsaid_of self.old }
        ensures pace { self.new.pace ≡ self.old.pace }
    {
        if let Some(place) = self.find(topic) {
            return place;
        }
        let place = self.earliest();
        self.others = self.others.saturating_add(self.entries[place].unsaid);
        self.entries[place] = Entry {
            topic: Some(topic),
            ..EMPTY
        };
        place
    }

    /// That so many topics came while nobody could note which.
    pub fn overlook(&mut self, count: u64)
        ensures { unsaid_of self.old + count < 2 ^ 64 → unsaid_of self.new ≡ unsaid_of self.old + count }
    {
        self.others = self.others.saturating_add(count);
    }

    /// That the topic came once more, at `now`, in milliseconds of the clock: the line about it, if one is to be printed. None is in
    /// the minute after a line about the same topic (`quiet`), nor where ten lines were printed in the last second; else one is
    /// (`said`, `paced`). Each time that a topic came counts in one line, its own or that of others, or is kept in mind as unsaid
    /// (`counts`).
    pub fn note(&mut self, topic: Topic, now: u64) -> Option<Line>
        ensures quiet { IfSome result (λ _. IsQuiet topic now self.old → ⊥) }
        ensures said { IfNone result (IsQuiet topic now self.old ⊎ IsSpent now self.old) }
        ensures counts { unsaid_of self.old + 1 < 2 ^ 64
            → MatchOption result (unsaid_of self.new ≡ unsaid_of self.old + 1) (λ line. unsaid_of self.new + line.count + line.others ≡ unsaid_of self.old + 1) }
        ensures own { IfSome result (λ line. 0 < line.count) }
        ensures paced { MatchOption result (IsUnpaced self.old self.new) (λ _. IsPaced now self.old self.new) }
        ensures kept { IfSome result (λ _. IsKeptQuiet topic now self.new) }
    {
        let is_due = !self.is_quiet(topic, now) && self.pace.take(now);
        let place = self.enter(topic);
        let count = self.entries[place].unsaid.saturating_add(1);
        if !is_due {
            self.entries[place].unsaid = count;
            return None;
        }
        let others = self.others;
        self.others = 0;
        self.entries[place] = Entry {
            topic: Some(topic),
            quiet_until: now.saturating_add(MINUTE),
            unsaid: 0,
        };
        Some(Line { count, others })
    }
}

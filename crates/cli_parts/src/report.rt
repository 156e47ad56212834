//! The lines on standard error. A write of them that fails is not reported.
use crate::arguments::Arguments;
use crate::check_words::{begins_check, is_check};
use crate::misspelt::{Misspelt, Named, misspelt_in};
use crate::rescue_words::{begins_rescue, rescue_of};
use crate::restore_words::restore_of;
use crate::skip_words::{begins_skip, skip_of};
use crate::status::Ending;
use crate::unopened::missing_folder;
use crate::wrong_option::WrongOption;
use bridge_rescue::{Report, Span};
use bridge_words::{WordsFault, wrong_words};
use edge_file::OpenFault;
use notes::{Note, note_text};
use std::fmt::Display;
use std::fs::Files;
use std::str;

/// Prints a line.
pub(crate) fn print_line(rt: &impl Eprint, text: &str) {
    let _ = eprintln!(rt; "bridge: {text}");
}

/// Prints an error's message, as a line.
pub fn print_error<E: Display>(rt: &impl Eprint, error: &E) {
    let _ = eprintln!(rt; "bridge: {error}");
}

// The text of `Note::NoMemory`, here as a constant, since there may be no memory to make it of the note.
const NO_MEMORY: &str = "no memory";

/// Prints the note's text, where there is one. For want of memory that takes none.
pub fn print_note(rt: &(impl AllocGlobal + Eprint), note: Note) {
    if note == Note::Fine {
        return;
    }
    if note == Note::NoMemory {
        print_line(rt, NO_MEMORY);
        return;
    }
    let Ok(text) = note_text(rt.alloc(), &note) else {
        return;
    };
    if let Ok(text) = str::from_utf8(text.bytes()) {
        print_line(rt, text);
    }
}

// Prints which numbers are missing between the slots.
fn print_gap(rt: &impl Eprint, gap: Span) {
    let (first, last) = (gap.from, gap.to.saturating_sub(1));
    let _ = if first == last {
        eprintln!(rt; "bridge: entry {first}: missing")
    } else {
        eprintln!(rt; "bridge: entries {first} to {last}: missing")
    };
}

// How many slots are sound, closed, and at fault.
fn counts_of(report: &Report) -> (usize, usize, usize) {
    let sound = report.sound as usize;
    let wrong = report.faults.len();
    let closed = (report.slots as usize)
        .saturating_sub(sound)
        .saturating_sub(wrong);
    (sound, closed, wrong)
}

// Prints how many slots are sound, and how many entries are in them.
fn print_checked(rt: &impl Eprint, report: &Report) {
    let (sound, closed, wrong) = counts_of(report);
    let _ = match report.printed {
        Some(found) => eprintln!(rt;
            "bridge: slots: {sound} sound, {closed} closed, {wrong} at fault; entries: {found}"
        ),
        None => eprintln!(rt;
            "bridge: slots: {sound} sound, {closed} closed, {wrong} at fault; not all entries were read"
        ),
    };
}

// Prints how many slots are sound, and how many entries were printed.
fn print_counts(rt: &impl Eprint, report: &Report) {
    let (sound, closed, wrong) = counts_of(report);
    let _ = match report.printed {
        Some(printed) => eprintln!(rt;
            "bridge: slots: {sound} sound, {closed} closed, {wrong} at fault; entries printed: {printed}"
        ),
        None => eprintln!(rt;
            "bridge: slots: {sound} sound, {closed} closed, {wrong} at fault; not all entries were printed"
        ),
    };
}

// Prints how many slots are sound, and how many entries were stored into another spool.
fn print_stored(rt: &impl Eprint, report: &Report, stored: u64) {
    let (sound, closed, wrong) = counts_of(report);
    let _ = match report.printed {
        Some(_) => eprintln!(rt;
            "bridge: slots: {sound} sound, {closed} closed, {wrong} at fault; entries stored: {stored}"
        ),
        None => eprintln!(rt;
            "bridge: slots: {sound} sound, {closed} closed, {wrong} at fault; entries stored: {stored}, not all"
        ),
    };
}

// Prints a line for each slot at fault, and one for the numbers that are missing between two slots.
fn print_found(rt: &impl Eprint, report: &Report) {
    for fault in &report.faults {
        print_error(rt, fault);
    }
    for gap in &report.gaps {
        print_gap(rt, *gap);
    }
}

// Prints why no slot of the file of this path was looked at.
fn print_no_layout(rt: &(impl AllocGlobal + Eprint), path: &str, note: Note) {
    let _ = match note {
        Note::NotSpool { at: 0 } => eprintln!(rt;
            "bridge: {path}: no header of a spool: SLOTS and SIZE after rescue tell what it told"
        ),
        Note::NotSpool { at } => eprintln!(rt;
            "bridge: {path}: header out of range at byte {at}: SLOTS and SIZE after rescue tell what it told"
        ),
        _ => {
            print_note(rt, note);
            return;
        }
    };
}

/// Prints how the rescue of a file of this path ended that began to look at it: a line for each slot at fault, one for the
/// numbers that are missing between two slots, one with the note where a call failed or no memory was found, and last how many slots are
/// sound and how many entries were printed. With no report, a line says why no slot was looked at.
pub fn print_rescue(
    rt: &(impl AllocGlobal + Eprint),
    path: &str,
    note: Note,
    report: Option<&Report>,
) {
    let Some(report) = report else {
        print_no_layout(rt, path, note);
        return;
    };
    print_found(rt, report);
    if !matches!(note, Note::NotSpool { .. }) {
        print_note(rt, note);
    }
    print_counts(rt, report);
}

/// The same of a check, which prints no entries: last is said how many slots are sound, and how many entries they have.
pub fn print_check(
    rt: &(impl AllocGlobal + Eprint),
    path: &str,
    note: Note,
    report: Option<&Report>,
) {
    let Some(report) = report else {
        print_no_layout(rt, path, note);
        return;
    };
    print_found(rt, report);
    if !matches!(note, Note::NotSpool { .. }) {
        print_note(rt, note);
    }
    print_checked(rt, report);
}

/// The same of a rescue into the spool of another path: which of the two is no spool is said too, and last how many entries that one has
/// taken.
pub fn print_restore(
    rt: &(impl AllocGlobal + Eprint),
    paths: [&str; 2],
    note: Note,
    report: Option<&Report>,
    stored: u64,
) {
    let [path, target] = paths;
    let Some(report) = report else {
        print_no_layout(rt, path, note);
        return;
    };
    print_found(rt, report);
    if report.printed.is_none() {
        print_no_spool(rt, target, note);
        print_note(rt, note);
    } else if !matches!(note, Note::NotSpool { .. }) {
        print_note(rt, note);
    }
    print_stored(rt, report, stored);
}

/// Prints why what the arguments asked for ended, where it didn't end well: the note's text, but of a skip that found no pending entry, or
/// no room for a stretch more, what that means. Of a rescue and of a check it prints nothing: [`print_rescue`],
/// [`print_restore`] and [`print_check`] do; nor of a file that isn't opened, which has its own line.
pub fn print_ending(rt: &(impl AllocGlobal + Eprint), arguments: &Arguments, ending: Ending) {
    let Ending::Noted(note) = ending else {
        return;
    };
    if is_check(&arguments.words)
        || rescue_of(&arguments.words).is_some()
        || restore_of(&arguments.words).is_some()
    {
        return;
    }
    let _ = match (skip_of(&arguments.words), note) {
        (Some(number), Note::Strange { .. }) => {
            eprintln!(rt; "bridge: entry {number} is not pending")
        }
        (Some(number), Note::Full { .. }) => {
            eprintln!(rt;
                "bridge: entry {number} is not skipped: 240 stretches above the cursor are confirmed already"
            )
        }
        _ => {
            print_note(rt, note);
            return;
        }
    };
}

// Prints which name is meant where one of the words is misspelt.
fn print_near_name(rt: &(impl AllocGlobal + Eprint), arguments: &Arguments) {
    if let Ok(Some(Misspelt { named, word, name })) = misspelt_in(rt.alloc(), arguments) {
        let _ = match named {
            Named::Command => eprintln!(rt; "bridge: no command \"{word}\": did you mean {name}?"),
            Named::Option => eprintln!(rt; "bridge: no option \"{word}\": did you mean {name}?"),
        };
    }
}

/// Prints what stands beside the usage line: what is wrong with words that are no command, and which name is meant where one of them is
/// misspelt.
pub fn print_beside_usage(rt: &(impl AllocGlobal + Eprint), arguments: &Arguments) {
    if begins_skip(&arguments.words) {
        print_line(
            rt,
            "skip takes NUMBER, the number of a pending entry, and nothing else",
        );
    } else if begins_check(&arguments.words) {
        print_line(rt, "check takes nothing else");
    } else if begins_rescue(&arguments.words) {
        print_line(
            rt,
            "rescue takes nothing, or SLOTS, 1 to 1024, and SIZE, 4096 to 1073741824; and --into TARGET with --tag TAG, 0 to 4294967295",
        );
    } else if let Ok(Some(fault)) = wrong_words(rt.alloc(), &arguments.words) {
        print_error(rt, &fault);
        if fault == WordsFault::Size {
            print_line(
                rt,
                "SIZE counts bytes; K, M or G after it stands for 1024, 1048576 or 1073741824 of them, as in 64M",
            );
        }
    }
    print_near_name(rt, arguments);
}

/// The same where an option of the run is wrong: which, and why.
pub fn print_beside_wrong_option(
    rt: &(impl AllocGlobal + Eprint),
    arguments: &Arguments,
    wrong: WrongOption,
) {
    print_error(rt, &wrong);
    print_near_name(rt, arguments);
}

/// Says why the file of this path wasn't opened: that its folder is missing, or the fault. The folder is looked for in the files of `rt`.
pub fn print_unopened(rt: &impl Files, errors: &impl Eprint, path: &str, fault: OpenFault) {
    if fault == OpenFault::NotFound
        && let Some(folder) = missing_folder(rt, path)
    {
        let _ = eprintln!(errors; "bridge: {path}: no folder {folder}");
        return;
    }
    let _ = eprintln!(errors; "bridge: {path}: {fault}");
}

/// Names the file of this path, where the note says of what stands in it that it is no spool.
pub fn print_no_spool(rt: &impl Eprint, path: &str, note: Note) {
    if let Note::NotSpool { .. } = note {
        let _ = eprintln!(rt; "bridge: {path}: not a spool");
    }
}

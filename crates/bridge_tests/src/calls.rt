//! Tests of the top call: scripts of calls, with what each is given and what it has to leave; senders that wait; and `serve`.

use crate::listed::tokens_are_listed;
use crate::meets::talks_meet;
use crate::moves::entries_move;
use crate::script::{run_script, run_scripts};
use crate::served::serve_places;
use crate::status::status_is_told;
use crate::waiting::wait_for_answers;
use crate::{
    collectors, devices, drains, faults, frames, lacks, lists, marks, peers, requests, sessions,
    slots, windows,
};

#[test]
fn sessions_of_relp(rt: HostRuntime) {
    run_scripts(&rt, rt.alloc(), sessions::SESSIONS);
    run_scripts(&rt, rt.alloc(), sessions::NO_INPUT);
    run_scripts(&rt, rt.alloc(), slots::SLOTS);
    run_scripts(&rt, rt.alloc(), devices::REFUSALS);
    run_scripts(&rt, rt.alloc(), devices::STREAMS);
    run_scripts(&rt, rt.alloc(), devices::SECOND_READ);
    for piece in 1..=90 {
        run_script(&rt, rt.alloc(), sessions::LAYOUT, piece);
    }
}

#[test]
fn windows_of_lumberjack(rt: HostRuntime) {
    run_scripts(&rt, rt.alloc(), windows::WINDOWS);
    run_scripts(&rt, rt.alloc(), windows::BATCHES);
    run_scripts(&rt, rt.alloc(), windows::STAGED);
    run_scripts(&rt, rt.alloc(), lists::LISTS);
}

#[test]
fn requests_of_the_collector(rt: HostRuntime) {
    run_scripts(&rt, rt.alloc(), requests::REQUESTS);
    run_scripts(&rt, rt.alloc(), requests::IDS);
    run_scripts(&rt, rt.alloc(), requests::FULL);
    run_scripts(&rt, rt.alloc(), requests::STOPS);
}

#[test]
fn entries_forwarded(rt: HostRuntime) {
    run_scripts(&rt, rt.alloc(), drains::DRAINS);
    run_scripts(&rt, rt.alloc(), drains::PLACES);
    run_scripts(&rt, rt.alloc(), drains::WINDOW);
    run_scripts(&rt, rt.alloc(), marks::FREED);
    run_scripts(&rt, rt.alloc(), marks::FAULTS);
    run_scripts(&rt, rt.alloc(), collectors::COLLECTOR);
}

#[test]
fn calls_that_fail(rt: HostRuntime) {
    run_scripts(&rt, rt.alloc(), faults::FAULTS);
    run_scripts(&rt, rt.alloc(), faults::STREAMS);
    run_scripts(&rt, rt.alloc(), frames::CUTS);
    run_scripts(&rt, rt.alloc(), frames::WRONG);
    run_scripts(&rt, rt.alloc(), frames::LONG);
    run_scripts(&rt, rt.alloc(), peers::PEERS);
    run_scripts(&rt, rt.alloc(), peers::LONG);
    run_scripts(&rt, rt.alloc(), devices::SPENT);
}

#[test]
fn memory_that_is_refused(rt: HostRuntime) {
    run_scripts(&rt, rt.alloc(), lacks::ROWS);
}

#[test]
fn links_are_served(rt: HostRuntime) {
    wait_for_answers(&rt, rt.alloc());
    talks_meet(&rt, rt.alloc());
    serve_places(&rt, rt.alloc());
}

#[test]
fn numbers_are_told(rt: HostRuntime) {
    status_is_told(&rt, rt.alloc());
}

#[test]
fn tokens_of_a_list(rt: HostRuntime) {
    tokens_are_listed(&rt, rt.alloc());
}

#[test]
fn entries_are_moved(rt: HostRuntime) {
    entries_move(&rt, rt.alloc());
}

//! Tests of the top call: scripts of calls, with what each is given and what it has to leave. They stand in a crate of their
//! own, since the gate proves a crate with tests twice, with and without them.
#![tactic(auto)]

#[cfg(test)]
mod calls;
#[cfg(test)]
mod collectors;
#[cfg(test)]
mod cuts;
#[cfg(test)]
mod devices;
#[cfg(test)]
mod drains;
#[cfg(test)]
mod failing;
#[cfg(test)]
mod faults;
#[cfg(test)]
mod frames;
#[cfg(test)]
mod held;
#[cfg(test)]
mod held_disk;
#[cfg(test)]
mod held_monitor;
#[cfg(test)]
mod held_net;
#[cfg(test)]
mod lacks;
#[cfg(test)]
mod listed;
#[cfg(test)]
mod lists;
#[cfg(test)]
mod marks;
#[cfg(test)]
mod meets;
#[cfg(test)]
mod moves;
#[cfg(test)]
mod parts;
#[cfg(test)]
mod peers;
#[cfg(test)]
mod places;
#[cfg(test)]
mod play;
#[cfg(test)]
mod requests;
#[cfg(test)]
mod script;
#[cfg(test)]
mod served;
#[cfg(test)]
mod sessions;
#[cfg(test)]
mod slots;
#[cfg(test)]
mod status;
#[cfg(test)]
mod sweeps;
#[cfg(test)]
mod talks;
#[cfg(test)]
mod waiting;
#[cfg(test)]
mod windows;

//! Links, doors and a net over the sockets of the system, TCP's. They are thin: they count the errors of
//! the system and name their places, and tell no bytes. What befalls them is said on standard error ([`Reports`]), in few lines: which
//! are due is decided by parts that know no clock ([`Recent`], [`Pace`], [`Receiver`], [`Standstill`]). That the bytes go out and come in as
//! the peer has them is trusted. A call that waits for a peer has a bound, but that of a door that accepts, which waits for the next
//! connection for as long as it takes.
#![tactic(auto)]

mod accepting;
mod ages;
mod answer;
mod asker;
mod asking;
mod authorized;
mod budget;
mod closing;
mod counts;
mod dialing;
mod door;
mod doors;
mod ending;
mod file_counts;
mod fullness;
mod heading;
mod hindrance;
mod illness;
mod link;
mod link_settings;
mod listening;
mod manager;
mod metrics;
mod monitor;
mod movable;
mod net;
mod pace;
mod page;
mod patience;
mod proxies;
mod reason;
mod receiver;
mod recent;
mod reports;
mod roll;
mod since;
mod stamp;
mod standstill;
mod telling;
mod token_places;
mod topic;
mod trouble;
mod waits;
mod watch;

pub use accepting::next_connection;
pub use answer::Answer;
pub use budget::{Budget, LEAST_MEMORY, Part, STANDARD_MEMORY, most_of, part_of};
pub use door::TcpDoor;
pub use file_counts::FileCounts;
pub use fullness::Fullness;
pub use heading::Unheaded;
pub use illness::Illness;
pub use link::TcpLink;
pub use link_settings::LinkSettings;
pub use manager::Manager;
pub use monitor::TcpMonitor;
pub use net::TcpNet;
pub use pace::Pace;
pub use proxies::{MOST_PROXIES, Proxies};
pub use receiver::Receiver;
pub use recent::{Line, Recent};
pub use reports::Reports;
pub use since::Since;
pub use stamp::Stamp;
pub use standstill::Standstill;
pub use token_places::{TokenFile, TokenPlace};
pub use topic::{Matter, Topic};
pub use trouble::{Trouble, Way};
pub use waits::Waits;

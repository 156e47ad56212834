//! How the numbers of a run's connections are divided among its callers.
ghost use Rattle.std.specs.Prelude.{◌≡◌, ◌<◌};
ghost use Rattle.desk_access.specs.Division.{callers_of, each_of, divided, first_conn};

/// How the 2^32 numbers that a run has for its connections are divided: among how many callers, of which each has as many, one caller's
/// after the other's.
#[derive(Clone, Copy, PartialEq, Eq)]
pub enum Division {
    /// Among 64 callers, each of which has 2^26 numbers.
    Workers,
    /// Among 4,096 callers, each of which has 2^20 numbers.
    Connections,
}

impl Division {
    /// How many numbers each caller has.
    pub fn each(self) -> u32
        ensures { result ≡ each_of self }
    {
        match self {
            Division::Workers => 67_108_864,
            Division::Connections => 1_048_576,
        }
    }

    /// The number of the first connection of a caller in a run.
    pub fn first_conn(self, run: u32, caller: u32) -> u64
        requires { caller < callers_of self }
        ensures { result ≡ first_conn (divided self run) caller }
    {
        (u64::from(run) << 32) + u64::from(caller) * u64::from(self.each())
    }
}

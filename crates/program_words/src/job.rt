//! What the program's words ask for.

/// What the program's words ask for. Everywhere the cache has `limit` mebibytes, 1 to 4,096, of which the sticky items may
/// take `share` percent, 0 to 100.
#[derive(Clone, Copy, Debug, PartialEq, Eq)]
pub enum Job {
    /// One session from source to sink.
    Session {
        limit: u32,
        share: u32,
    },
    /// The sessions of a script, by so many workers over one cache, 1 to 4,096.
    Many {
        workers: u32,
        limit: u32,
        share: u32,
    },
    /// A server.
    Serve(ServeJob),
}

/// What a server is asked for.
#[derive(Clone, Copy, Debug, PartialEq, Eq)]
pub struct ServeJob {
    /// The number of the port that it listens on, 1 to 65,535.
    pub port: u16,
    /// How many workers there are, 1 to 4,096.
    pub workers: u32,
    pub limit: u32,
    pub share: u32,
    /// How many sessions each worker serves at most, 1 to 2^32 - 1; without it, 2^64 - 1.
    pub sessions: Option<u32>,
    /// Whether each worker serves many connections at once.
    pub events: bool,
}

//! The links that are open, each with its session.

use pipe_session::Session;
use slab::Slab;

/// The most links that are open at once.
pub(crate) const MOST_LINKS: usize = 1024;

/// A link that is open.
#[derive(Drop)]
pub(crate) struct Guest<L> {
    /// How many links came before it, which is the number of its session.
    pub(crate) number: u64,
    pub(crate) link: L,
    pub(crate) session: Session,
}

/// All links of an event worker that are open.
#[derive(Drop)]
pub(crate) struct Floor<L> {
    pub(crate) guests: Slab<Guest<L>>,
    /// Sessions that are over, for further links.
    pub(crate) spare: Vec<Session>,
    /// How many links came.
    pub(crate) came: u64,
    /// How many of them were taken on.
    pub(crate) taken_on: u64,
    /// How many are taken on at most.
    pub(crate) limit: u64,
}

//! Tests over workers that share one cache: sessions one after another, side by side, and many at once in one worker.
//!
//! `harness` has links, caches and what is expected, `workers` one worker and two side by side, `contention` four that change
//! the same items, `events` an event worker over memory, `ports` where the ports of all workers come from, `pollers` runs of a
//! server of event workers, and `scripts` runs of scripts.
#![tactic(auto)]

#[cfg(test)]
mod contention;
#[cfg(test)]
mod events;
#[cfg(test)]
mod harness;
#[cfg(test)]
mod pollers;
#[cfg(test)]
mod ports;
#[cfg(test)]
mod scripts;
#[cfg(test)]
mod workers;

//! The settings of a cache.
ghost use Rattle.std.specs.Prelude.{◌≡◌, ◌*◌, ◌/◌, ◌<◌, ◌≤◌, ◌⊎◌, MatchOption};

/// Bytes of a mebibyte.
const MIB: u64 = 1_048_576;

/// The greatest limit of a cache, in mebibytes.
const MAX_MIB: u32 = 4_096;

/// How large a cache may grow.
#[derive(Clone, Copy, Debug, PartialEq, Eq)]
pub struct Settings {
    /// The most bytes that the stated sizes of all items may sum up to.
    pub limit: u64,
    /// The most bytes that the stated sizes of the sticky items may sum up to.
    pub share: u64,
    ghost in_range: { (limit ≤ 4294967296) × (share ≤ limit) },
}

impl Settings {
    /// A limit of 1 to 4,096 mebibytes, all of which sticky items may take; `None` for any other number.
    pub fn of_mib(mib: u32) -> Option<Settings>
        ensures { MatchOption result ((mib < 1) ⊎ (4096 < mib)) (λ settings. (1 ≤ mib) × (mib ≤ 4096) × (settings.limit ≡ 1048576 * mib) × (settings.share ≡ settings.limit)) }
    {
        Settings::of_shares(mib, 100)
    }

    /// A limit of 1 to 4,096 mebibytes, of which sticky items may take so many of a hundred parts, rounded down to bytes;
    /// `None` for any other number of mebibytes, and for more than 100 parts. (This server's own rule.)
    pub fn of_shares(mib: u32, percent: u32) -> Option<Settings>
        ensures { MatchOption result ((mib < 1) ⊎ ((4096 < mib) ⊎ (100 < percent)))
            (λ settings. (1 ≤ mib) × (mib ≤ 4096) × (percent ≤ 100) × (settings.limit ≡ 1048576 * mib) × (settings.share ≡ settings.limit * percent / 100)) }
    {
        if mib < 1 || mib > MAX_MIB || percent > 100 {
            return None;
        }
        let limit = MIB * u64::from(mib);
        Some(Settings {
            limit,
            share: limit * u64::from(percent) / 100,
        })
    }
}

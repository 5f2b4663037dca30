//! When items expire. (memcached's exptime, and ARCUS's -1.)
ghost use Rattle.std.specs.Prelude.{◌≡◌, ◌<ℤ◌, ◌≤ℤ◌, pos, ◌^◌, negsuc};
ghost use Rattle.arc_core.specs.Item.{expiry_at, has_expired};

use arc_core::Expiry;

/// The most seconds that an exptime counts from now: 30 days. A greater one is itself a second of the clock.
const MAX_SECONDS_FROM_NOW: i64 = 2_592_000;

/// When an item expires that is given this exptime, from -2^31 to 2^32 - 1, at the latest second.
pub fn expiry_at(latest: u32, exptime: i64) -> Expiry
    ensures { result ≡ expiry_at latest exptime }
{
    if exptime == 0 {
        return Expiry::Never;
    }
    if exptime == -1 {
        return Expiry::Sticky;
    }
    if exptime < 0 {
        return Expiry::At(0);
    }
    let seconds = exptime as u64;
    if exptime <= MAX_SECONDS_FROM_NOW {
        Expiry::At(u64::from(latest) + seconds)
    } else {
        Expiry::At(seconds)
    }
}

/// Whether what expires then has expired at the latest second.
pub fn has_expired(latest: u32, expiry: Expiry) -> bool
    ensures { result ≡ has_expired latest expiry }
{
    match expiry {
        Expiry::Never | Expiry::Sticky => false,
        Expiry::At(second) => second <= u64::from(latest),
    }
}

//! Laws of requests, each the contract of a function that does nothing.
ghost use Rattle.arc_core.specs.CollectionLines.{CanBeSpelled};
ghost use Rattle.arc_core.specs.PlainRequest.{PlainRequest};
ghost use Rattle.arc_core.specs.RequestLimits.{KeepsLimits};

/// A law: a request that some line and block spell keeps the limits of requests. Its value has 1,048,576 bytes at most, its
/// element 32,768, its field 250, and a collection that it makes has an action of its kind.
pub fn spelled_requests_keep_limits()
    ensures { (request : PlainRequest) → CanBeSpelled request → KeepsLimits request.act }
{}

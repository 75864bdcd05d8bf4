//! Laws on the bytes of every connection.
ghost use Rattle.std.specs.Prelude.{◌≡◌, ◌++◌, ℕ, List};
ghost use Rattle.requests.specs.NextRequest.{IsNext, Next, whole};
ghost use Rattle.requests.specs.Request.{Parts};

/// Only one request or end comes next in the bytes of a connection, whoever reads it.
pub fn one_reading()
    ensures { (bytes : List ℕ) (next other : Next) → IsNext bytes next → IsNext bytes other → next ≡ other }
{}

/// A whole request that comes next still does so once more bytes have come, and these come after it.
pub fn later_bytes()
    ensures { (bytes more : List ℕ) (parts : Parts) (body following : List ℕ) →
        IsNext bytes (whole parts body following) →
        IsNext (bytes ++ more) (whole parts body (following ++ more)) }
{}

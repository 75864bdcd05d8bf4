//! Laws on the bytes of every connection.
ghost use Rattle.std.specs.Prelude.{◌≡◌, ℕ, List};
ghost use Rattle.bureau_http.specs.Asked.{Asked};
ghost use Rattle.bureau_http.specs.Connection.{IsConnection, IsOwn, Stop};
ghost use Rattle.bureau_store.specs.declared.caller.CallerRow.{CallerRow};

use requests::one_reading;

/// A connection's bytes are requests and a stop in one way only, whoever serves them.
pub fn one_connection()
    ensures { (rows : List CallerRow) (bytes : List ℕ) (asked others : List Asked) (stop other : Stop) →
        IsConnection rows bytes asked stop → IsConnection rows bytes others other → IsOwn stop → IsOwn other →
        (asked ≡ others) × (stop ≡ other) }
{
    one_reading();
}

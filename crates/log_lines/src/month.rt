//! Months by their names.
ghost use Rattle.std.specs.Prelude.{◌≡◌};
ghost use Rattle.log_lines.specs.Stamps.{month_named};

// The number of the month of a name, as HTTP's dates have it (RFC 9110, section 5.6.7).
pub(crate) fn month_named(name: &[u8]) -> u8
    ensures { result ≡ month_named name.now }
{
    match name {
        b"Jan" => 1,
        b"Feb" => 2,
        b"Mar" => 3,
        b"Apr" => 4,
        b"May" => 5,
        b"Jun" => 6,
        b"Jul" => 7,
        b"Aug" => 8,
        b"Sep" => 9,
        b"Oct" => 10,
        b"Nov" => 11,
        _ => 12,
    }
}

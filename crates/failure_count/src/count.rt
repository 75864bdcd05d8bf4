//! The count of failures.
ghost use Rattle.std.specs.Prelude.{◌≡◌, ◌+◌, ◌<◌, ◌≤◌, ◌⊎◌};

/// Counts a failure. The count is then no longer 0. It stays at 18,446,744,073,709,551,615, the greatest that it can be.
pub fn count_failure(failures: &mut u64)
    ensures rises { failures.old ≤ failures.new }
    ensures failed { 0 < failures.new }
    ensures one { failures.old < 18446744073709551615 → failures.new ≡ failures.old + 1 }
    ensures counted { (failures.old < failures.new) ⊎ (failures.new ≡ 18446744073709551615) }
{
    *failures = failures.saturating_add(1);
}

ghost use Rattle.std.specs.Prelude.{◌≡◌};
ghost use Rattle.region_partition.specs.region_lists.Counts.{capped};

// The most regions that are counted.
pub(super) const MOST_COUNTED: u64 = 1_048_576;

// The number, or the most that is counted.
pub(super) fn capped(number: u64) -> u64
    ensures { result ≡ capped number }
{
    number.min(MOST_COUNTED)
}

ghost use Rattle.std.specs.Prelude.{◌≡◌, IfOk};
ghost use Rattle.groupings.specs.least_fault.Least.{IsEarlierOf, earlier};

use emc_base::Memory;

/// The lesser of two finds; the first of them where they are equal.
pub fn earlier<F: Ord + Drop>(one: Option<F>, other: Option<F>) -> Option<F>
    ensures { result ≡ earlier F.cmp one other }
{
    match (one, other) {
        (Some(one), Some(other)) => Some(one.min(other)),
        (Some(one), None) => Some(one),
        (None, other) => other,
    }
}

/// The lesser of what two searches found; want of memory where one of them lacked it. So what joins several searches leaves none of them early, with nothing to
/// give back.
pub fn earlier_of<F: Ord + Drop>(
    one: Result<Option<F>, Memory>,
    other: Result<Option<F>, Memory>,
) -> Result<Option<F>, Memory>
    ensures { IfOk result (IsEarlierOf F.cmp one other) }
{
    match (one, other) {
        (Ok(one), Ok(other)) => Ok(earlier(one, other)),
        _ => Err(Memory),
    }
}

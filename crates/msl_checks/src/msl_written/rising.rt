ghost use Rattle.std.specs.Prelude.{◌↔◌, IsTrue};
ghost use Rattle.msl_checks.specs.msl_written.Rising.{IsRising, Rises};

use edm_types::Pair;

/// Whether of what pairs stand for each is found, and its property and its column come after those of the one before it. Then no property and
/// no column stands twice; pairs mostly come so.
pub fn is_rising(each: &[Option<Pair>]) -> bool
    ensures { IsTrue result → IsRising each.now }
{
    for place in 1..each.len() {
        if !rises(each[place - 1], each[place]) {
            return false;
        }
    }
    true
}

// Whether both are found, and the second has the later property and the later column.
fn rises(one: Option<Pair>, other: Option<Pair>) -> bool
    ensures { IsTrue result ↔ Rises one other }
{
    match (one, other) {
        (Some(one), Some(other)) => {
            one.prop.index < other.prop.index && one.col.index < other.col.index
        }
        _ => false,
    }
}

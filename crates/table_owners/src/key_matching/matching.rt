ghost use Rattle.std.specs.Prelude.{◌≡◌, ◌↔◌, ◌∷◌, ◌++◌, [], All, Contains, IfOk, IsTrue};
ghost use Rattle.emc_base.specs.Lists.{AreApart};
ghost use Rattle.table_owners.specs.key_matching.Completions.{Completes, MayTake};
ghost use Rattle.table_owners.specs.key_matching.Matchings.{Matches};

use edm_types::Pair;
use emc_base::{ColId, Memory, PropId, Seq};
use std::alloc::Global;

/// Whether some of the pairs name each property of a key once and no other, and each column of a primary key once and no
/// other. A key of many properties may take very many steps: a sound one has at most four. `Memory` comes where memory
/// ran out.
pub fn matches(
    alloc: Global,
    key: &[PropId],
    cols: &[ColId],
    pairs: &[Pair],
) -> Result<bool, Memory>
    requires { AreApart key.now }
    ensures { IfOk result (λ yes. IsTrue yes ↔ Matches key.now cols.now pairs.now) }
{
    completes(key, cols, &Seq::empty(alloc), pairs)
}

// Whether some of the pairs match these properties with the columns that aren't taken yet.
fn completes(
    props: &[PropId],
    cols: &[ColId],
    taken: &Seq<ColId>,
    pairs: &[Pair],
) -> Result<bool, Memory>
    ensures { IfOk result (λ yes. IsTrue yes ↔ Completes props.now cols.now taken.now pairs.now) }
{
    let [prop, others @ ..] = props else {
        return Ok(are_taken(cols, taken.as_slice()));
    };
    for col in cols {
        let pair = Pair {
            prop: *prop,
            col: *col,
        };
        if !may_take(pair, taken.as_slice(), pairs) {
            continue;
        }
        if completes(others, cols, &with(taken, *col)?, pairs)? {
            return Ok(true);
        }
    }
    Ok(false)
}

// Whether a pair is there, and its column isn't taken.
fn may_take(pair: Pair, taken: &[ColId], pairs: &[Pair]) -> bool
    ensures { IsTrue result ↔ MayTake pairs.now taken.now pair }
{
    pairs.contains(&pair) && !taken.contains(&pair.col)
}

// Whether each column is taken.
fn are_taken(cols: &[ColId], taken: &[ColId]) -> bool
    ensures { IsTrue result ↔ All (Contains taken.now) cols.now }
{
    cols.iter().all(|col| taken.contains(col))
}

// The columns that are taken, and one more.
fn with(taken: &Seq<ColId>, col: ColId) -> Result<Seq<ColId>, Memory>
    ensures { IfOk result (λ more. more ≡ taken.now ++ col ∷ []) }
{
    let mut more = taken.clone()?;
    more.push(col)?;
    Ok(more)
}

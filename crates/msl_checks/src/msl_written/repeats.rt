ghost use Rattle.std.specs.Prelude.{[], codes, IfOk};
ghost use Rattle.groupings.specs.least_fault.Least.{IsLeast};
ghost use Rattle.layouts.specs.declared.rule.Rule.TheVariants.{WrittenOnce};
ghost use Rattle.layouts.specs.Faults.{fault_cmp};
ghost use Rattle.layouts.specs.rule_places.Places.{InList, IsAt};
ghost use Rattle.msl_rules.specs.FragmentRules.{IsWrittenBefore};
ghost use Rattle.msl_checks.specs.msl_written.Again.{IsFirstAgainBy};

use emc_base::{Memory, Seq, Txt};
use entity_state::first_repeat;
use groupings::earlier;
use layouts::{Fault, Rule, fault_on_item};
use msl_rules::RawPair;
use std::alloc::Global;

/// The least of the pairs whose property, or whose column, was written before in the list (V39). `Memory` comes where memory ran out.
pub fn first_twice_written(alloc: Global, pairs: &Seq<RawPair>) -> Result<Option<Fault>, Memory>
    ensures { IfOk result (λ found. IsLeast fault_cmp (InList (codes "ScalarProperty") (λ k pair inside. IsWrittenBefore pairs.now k pair × IsAt WrittenOnce [] inside) pairs.now) found) }
{
    let prop = first_again_by(alloc, pairs.as_slice(), |pair| &pair.prop)?;
    let of_prop = fault_on_item(alloc, Rule::WrittenOnce, "ScalarProperty", prop)?;
    let col = first_again_by(alloc, pairs.as_slice(), |pair| &pair.col)?;
    let of_col = fault_on_item(alloc, Rule::WrittenOnce, "ScalarProperty", col)?;
    Ok(earlier(of_prop, of_col))
}

// The first place of a pair of which the name is lent that was lent of one before it.
fn first_again_by<'a, F: Fn(&'a RawPair) -> &'a Txt>(
    alloc: Global,
    pairs: &'a [RawPair],
    name_of: F,
) -> Result<Option<usize>, Memory>
    requires { F.IsAlwaysCallable name_of }
    ensures { IfOk result (IsFirstAgainBy (F.post name_of) pairs.now) }
{
    let mut names = Vec::new(alloc);
    for pair in pairs {
        names.push(name_of(pair).as_str())?;
    }
    first_repeat(alloc, names.as_slice())
}

ghost use Rattle.std.specs.Prelude.{◌≡◌, ℕ, List, Some};
ghost use Rattle.round_trip.specs.Words.{LimitFault, RoundTrips, RuleFault, Schema};
ghost use Rattle.region_partition.specs.mapping_limits.FirstLimit.{IsFirstLimit};
ghost use Rattle.mapping_core.specs.mapping_verdict.Words.{Failure, IsFailureOf};
ghost use Rattle.mapping_core.specs.Accepted.{PassesNoLimit};
ghost use Rattle.mapping_core.specs.Rules.{IsToldRule, Means};

use crate::mapping_verdict::Failure;
use edm_types::{LimitFault, RuleFault, Schema, VocabFault};
use emc_base::Memory;
use region_partition::one_limit;

/// Why a schema is not accepted. It is given back, so that what is told can be told by its names.
#[derive(Drop)]
pub enum Refusal {
    /// A limit is passed: the first, in the order of limits.
    Limit(Schema, LimitFault),
    /// No limit is passed, and a legal state fails.
    Fails(Schema, Failure),
    /// Memory ran out.
    Memory,
}

/// Why three documents are not accepted.
#[derive(Drop)]
pub enum Verdict {
    /// A rule of the documents is broken: that of the first document that breaks one, the least of that document, at its first place.
    Rule(RuleFault),
    /// No rule is broken, and a limit is passed: the first, in the order of limits.
    Limit(LimitFault),
    /// No rule is broken, no limit is passed, and a legal state fails.
    Fails(Failure),
    /// Memory ran out.
    Memory,
}

impl From<VocabFault> for Verdict {
    ghost use Rattle.mapping_core.specs.Verdicts.{TellsFault};

    ghost from_gives = { TellsFault };

    fn from(fault: VocabFault) -> Verdict {
        match fault {
            VocabFault::Rule(fault) => Verdict::Rule(fault),
            VocabFault::Memory => Verdict::Memory,
        }
    }
}

impl From<Refusal> for Verdict {
    ghost use Rattle.mapping_core.specs.Verdicts.{TellsRefusal};

    ghost from_gives = { TellsRefusal };

    fn from(refusal: Refusal) -> Verdict {
        match refusal {
            Refusal::Limit(_schema, fault) => Verdict::Limit(fault),
            Refusal::Fails(_schema, failure) => Verdict::Fails(failure),
            Refusal::Memory => Verdict::Memory,
        }
    }
}

impl From<Memory> for Verdict {
    ghost use Rattle.std.specs.Prelude.{◌≡◌};
    ghost use Rattle.mapping_core.specs.declared.verdict.Verdict.TheVariants as verdict;

    ghost from_gives = { λ _ given. given ≡ verdict.Memory };

    fn from(_memory: Memory) -> Verdict {
        Verdict::Memory
    }
}

/// The law that what is accepted isn't refused. Documents that break no rule mean one schema, and no rule is told of them; of a schema that passes no limit none
/// is told; and of one by which no legal state fails no state that does.
pub fn what_is_accepted_is_not_refused()
    ensures meaning { (csdl ssdl msl : List ℕ) (one two : Schema) → Means csdl ssdl msl one → Means csdl ssdl msl two → one ≡ two }
    ensures rule { (csdl ssdl msl : List ℕ) (schema : Schema) → Means csdl ssdl msl schema → (fault : RuleFault) → ¬ IsToldRule csdl ssdl msl fault }
    ensures limit { (schema : Schema) → PassesNoLimit schema → (fault : LimitFault) → ¬ IsFirstLimit schema (Some fault) }
    ensures failure { (schema : Schema) → RoundTrips schema → (failure : Failure) → ¬ IsFailureOf schema failure }
{
    one_limit();
}

ghost use Rattle.state_legality.specs.set_legality.Props.{ValueTold, value_numbered};

use edm_types::{Entity, Prop};
use emc_base::{Value, in_domain};
use entity_state::{StateRule, is_null};

/// The rule that an entity's value at a place breaks at a property, if it breaks one.
pub fn broken_rule(entity: &Entity, place: usize, declared: &Prop) -> Option<StateRule>
    ensures { ValueTold (value_numbered entity.now place) declared.now result }
{
    match entity.values.get(place) {
        Some(value) => value_rule(value, declared),
        None => value_rule(&Value::Null, declared),
    }
}

// The rule that a value breaks at a property, if it breaks one.
fn value_rule(value: &Value, declared: &Prop) -> Option<StateRule>
    ensures { ValueTold value.now declared.now result }
{
    if is_null(value) {
        if declared.nullable {
            None
        } else {
            Some(StateRule::Null)
        }
    } else if in_domain(value, &declared.kind) {
        None
    } else {
        Some(StateRule::Domain)
    }
}

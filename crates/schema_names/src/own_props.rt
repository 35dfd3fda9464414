ghost use Rattle.std.specs.Prelude.{◌≡◌, ◌<◌, ◌^◌, ℕ, List, IfOk, OnOk};
ghost use Rattle.schema_names.specs.OwnProps.{AddsProp, AreOwnProps, HaveNoProps};

use edm_types::{EntityModel, Prop};
use emc_base::{Memory, PropId, Txt};
use std::alloc::Global;
use std::collections::BTreeMap;

/// The properties that a type declares, each by its name.
#[derive(Drop)]
pub struct OwnProps {
    by_name: BTreeMap<String, PropId>,
}

impl OwnProps {
    ghost use Rattle.schema_names.specs.OwnProps.{prop_in, noted};

    /// The first property of a name.
    pub fn prop_of(&self, name: &str) -> Option<PropId>
        ensures { result ≡ prop_in self.now name.now }
    {
        self.by_name.get(name).copied()
    }

    // Notes a property by its name, unless there is one of this name.
    fn note(&mut self, alloc: Global, name: &Txt, prop: PropId) -> Result<(), Memory>
        ensures { OnOk result ((other : List ℕ) → prop_in self.new other ≡ noted (prop_in self.old) name.now prop other) }
    {
        let key = name.copy(alloc)?.into_string();
        self.by_name.entry(key)?.or_insert(prop);
        Ok(())
    }
}

/// The properties that each type declares.
pub fn own_props_of(alloc: Global, model: &EntityModel) -> Result<Vec<OwnProps>, Memory>
    ensures { IfOk result (λ own. AreOwnProps model.now own.items) }
{
    let mut own = no_props(alloc, model.types.len())?;
    for (place, prop) in model.props.as_slice().iter().enumerate() {
        note_prop(alloc, &mut own, place, prop)?;
    }
    Ok(own)
}

// So many types, of which none declares a property.
fn no_props(alloc: Global, count: usize) -> Result<Vec<OwnProps>, Memory>
    ensures { IfOk result (λ own. HaveNoProps count own.items) }
{
    let mut own = Vec::new(alloc);
    for _ in 0..count {
        own.push(OwnProps {
            by_name: BTreeMap::new(alloc),
        })?;
    }
    Ok(own)
}

// Notes a property at the type that declares it, where this is one of the types.
fn note_prop(
    alloc: Global,
    own: &mut Vec<OwnProps>,
    place: usize,
    prop: &Prop,
) -> Result<(), Memory>
    requires { place < 2 ^ 32 }
    ensures { OnOk result (AddsProp place prop.now own.old.items own.new.items) }
{
    let owner = prop.owner.index as usize;
    if owner < own.len() {
        own[owner].note(
            alloc,
            &prop.name,
            PropId {
                index: place as u32,
            },
        )?;
    }
    Ok(())
}

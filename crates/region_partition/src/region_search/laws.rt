ghost use Rattle.std.specs.Prelude.{◌≡◌, ◌↔◌, Contains, List};
ghost use Rattle.std.specs.declared.cmp.Ordering.TheVariants.{Equal};
ghost use Rattle.round_trip.specs.Words.{Entity, Hosted, SetId};
ghost use Rattle.regions.specs.Basis.{Basis};
ghost use Rattle.regions.specs.Regions.{Holds, regions_of};
ghost use Rattle.regions.specs.declared.region.Region.{Region};
ghost use Rattle.regions.specs.region_laws.IsBasis.{IsBasis};
ghost use Rattle.region_partition.specs.region_search.Standing.{Rises, region_cmp};

/// The regions of a set rise towards any entity with any links, and those that stand equal to it are just those that hold it.
pub fn regions_stand_in_order()
    ensures order { (basis : Basis) → IsBasis basis → (s : SetId) (entity : Entity) (links : List Hosted) → Rises (region_cmp basis entity links) (regions_of basis s) }
    ensures held { (basis : Basis) → IsBasis basis → (s : SetId) (entity : Entity) (links : List Hosted) (region : Region) → Contains (regions_of basis s) region
        → (region_cmp basis entity links region ≡ Equal) ↔ Holds basis region entity links }
{}

ghost use Rattle.std.specs.Prelude.{◌≡◌, ◌∷◌, [], ℕ, Some, codes, filter, length, map};
ghost use Rattle.serde_json.specs.Find.{get};
ghost use Rattle.json_form.specs.Trees.{array_of};
ghost use Rattle.json_form.specs.TreeParts.{items_in};
ghost use Rattle.drill_documents.specs.Counts.{HasTwiceAsManyEntities, change_count};
ghost use Rattle.drill_documents.specs.Documents.{changes_tree, entities_tree};
ghost use Rattle.drill_documents.specs.Draws.{draw};
ghost use Rattle.drill_documents.specs.Lists.{changes, documents, ids, last_employee, links, people};
ghost use Rattle.drill_documents.specs.Objects.{is_employee, is_report, link};
ghost use Rattle.drill_documents.specs.Nearest.{IsNearestIfAny};

/// There are as many people as the count says, and as many documents.
pub fn objects_are_counted()
    ensures twice { (seed count : ℕ) → HasTwiceAsManyEntities seed count }
{}

/// There is a change for each second person, one for the Employee who comes, and one for the document that goes, where there is one.
pub fn changes_are_counted()
    ensures counted { (seed count : ℕ) → length (changes seed count) ≡ change_count count }
{}

/// The entity document has the people, the documents and the links under the names of their sets.
pub fn lists_are_told()
    ensures people { (seed count : ℕ) → get (codes "People") (entities_tree seed count) ≡ Some (array_of (people seed count)) }
    ensures documents { (seed count : ℕ) → get (codes "Documents") (entities_tree seed count) ≡ Some (array_of (documents seed count)) }
    ensures links { (seed count : ℕ) → get (codes "Boss") (entities_tree seed count) ≡ Some (array_of (links seed count)) }
{}

/// The items of the change document are the changes.
pub fn changes_are_told()
    ensures items { (seed count : ℕ) → items_in (changes_tree seed count) ≡ changes seed count }
{}

/// The manager to whom an Employee is linked is the Employee of the largest smaller Id.
pub fn links_are_to_the_nearest_employee()
    ensures nearest { (seed i : ℕ) → IsNearestIfAny seed i (last_employee seed i) }
{}

/// Of seed 1 and four objects: the draws; persons 1, 2 and 3 are Employees, of whom 2 is linked to 1 and 3 to 2; and document 3 alone is a Report.
pub fn four_of_seed_one()
    ensures draws { map (draw 1) (ids 4) ≡ 149 ∷ 11249 ∷ 57305 ∷ 38044 ∷ [] }
    ensures employees { filter (λ i. is_employee (draw 1 i)) (ids 4) ≡ 1 ∷ 2 ∷ 3 ∷ [] }
    ensures links { links 1 4 ≡ link 2 1 ∷ link 3 2 ∷ [] }
    ensures reports { filter (λ i. is_report (draw 1 i)) (ids 4) ≡ 3 ∷ [] }
{}

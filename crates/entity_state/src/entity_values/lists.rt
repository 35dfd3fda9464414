ghost use Rattle.std.specs.Prelude.{◌≡◌, [], slice_get, unwrap_or};

use edm_types::{Entity, Link};
use emc_base::{AssocId, Seq, SetId};

/// The list at a place, counted from 0; the empty list where there is none.
pub fn list_at<T>(lists: &[Seq<T>], place: usize) -> &[T]
    ensures { result.now ≡ unwrap_or (slice_get lists.now place) [] }
{
    match lists.get(place) {
        Some(list) => list.as_slice(),
        None => &[],
    }
}

/// The entities of a set; none where there is no list for it.
pub fn entities_at(lists: &[Seq<Entity>], set: SetId) -> &[Entity]
    ensures { result.now ≡ unwrap_or (slice_get lists.now set.index) [] }
{
    list_at(lists, set.index as usize)
}

/// The links of an association set; none where there is no list for it.
pub fn links_at(lists: &[Seq<Link>], assoc: AssocId) -> &[Link]
    ensures { result.now ≡ unwrap_or (slice_get lists.now assoc.index) [] }
{
    list_at(lists, assoc.index as usize)
}

ghost use Rattle.std.specs.Prelude.{◌≡◌, set};

/// Puts an item in a place, if there is such a place.
pub fn put<T: Drop>(list: &mut Vec<T>, place: u32, item: T)
    ensures { list.new.items ≡ set list.old.items place item }
{
    if (place as usize) < list.len() {
        list[place as usize] = item;
    }
}

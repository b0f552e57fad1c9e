//! Tables of places by number, which may be empty.
ghost use Rattle.std.specs.Prelude.{◌≡◌, ◌<◌, ◌≤◌, ℕ, List, [], length, map, slice_get, vec_capacity, Option, Some, None};

/// The things, each in the place of its number.
pub(crate) fn tabled<T: Drop>(items: Vec<T>, mut table: Vec<Option<T>>) -> Vec<Option<T>>
    requires room { (table.items ≡ []) × (length items.items ≤ vec_capacity table) }
    ensures { result.items ≡ map Some items.items }
{
    for item in items {
        table.push_reserved(Some(item));
    }
    table
}

/// The things of places of which none is empty.
pub(crate) fn listed<T: Drop>(table: Vec<Option<T>>, mut items: Vec<T>) -> Vec<T>
    requires full { (all : List T) × (table.items ≡ map Some all) }
    requires room { (items.items ≡ []) × (length table.items ≤ vec_capacity items) }
    ensures { (all : List T) → table.items ≡ map Some all → result.items ≡ all }
{
    for place in table {
        match place {
            Some(item) => items.push_reserved(item),
            None => unreachable!(),
        }
    }
    items
}

/// The thing of a place, which is empty afterwards.
pub(crate) fn take<T: Drop>(table: &mut Vec<Option<T>>, number: usize) -> T
    requires { (item : T) × (slice_get table.old.items number ≡ Some (Some item)) }
    ensures taken { slice_get table.old.items number ≡ Some (Some result) }
    ensures kept { (w : ℕ) → (w ≡ number → ⊥) → slice_get table.new.items w ≡ slice_get table.old.items w }
    ensures as_many { length table.new.items ≡ length table.old.items }
{
    let place = &mut table[number];
    match place.take() {
        Some(item) => item,
        None => unreachable!(),
    }
}

/// Puts a thing in a place.
pub(crate) fn put<T: Drop>(table: &mut Vec<Option<T>>, number: usize, item: T)
    requires { number < length table.old.items }
    ensures put { slice_get table.new.items number ≡ Some (Some item) }
    ensures kept { (w : ℕ) → (w ≡ number → ⊥) → slice_get table.new.items w ≡ slice_get table.old.items w }
    ensures as_many { length table.new.items ≡ length table.old.items }
{
    table[number] = Some(item);
}

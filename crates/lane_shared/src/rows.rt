//! Rows of three.
ghost use Rattle.std.specs.Prelude.{◌≡◌, ◌≤◌, [], ◌∷◌, length, vec_capacity};

// The three items of a row, and the row without them.
pub(crate) fn taken<T: Drop>(row: Vec<T>) -> ((T, T, T), Vec<T>)
    requires three { length row.items ≡ 3 }
    ensures items { row.items ≡ result.0.0 ∷ result.0.1 ∷ result.0.2 ∷ [] }
    ensures empty { result.1.items ≡ [] }
    ensures room { 3 ≤ vec_capacity result.1 }
{
    let mut row = row;
    let Some(third) = row.pop() else {
        unreachable!()
    };
    let Some(second) = row.pop() else {
        unreachable!()
    };
    let Some(first) = row.pop() else {
        unreachable!()
    };
    ((first, second, third), row)
}

// An empty row with these items.
pub(crate) fn put_back<T: Drop>(row: Vec<T>, items: (T, T, T)) -> Vec<T>
    requires empty { row.items ≡ [] }
    requires room { 3 ≤ vec_capacity row }
    ensures { result.items ≡ items.0 ∷ items.1 ∷ items.2 ∷ [] }
{
    let mut row = row;
    let (first, second, third) = items;
    let _ = row.push(first);
    let _ = row.push(second);
    let _ = row.push(third);
    row
}

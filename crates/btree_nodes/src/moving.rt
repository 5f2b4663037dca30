//! Elements that move from one vector to another, both of which have room for them.
ghost use Rattle.std.specs.Prelude.{◌≡◌, ◌+◌, ◌-◌, ◌≤◌, ◌++◌, length, take, drop, reverse, vec_capacity};

/// Moves the last `number` elements of `from` to the end of `to`, the last one first.
fn pour<T: Drop>(from: &mut Vec<T>, to: &mut Vec<T>, number: usize)
    requires enough { number ≤ length from.old.items }
    requires room { length to.old.items + number ≤ vec_capacity to.old }
    ensures from { from.new.items ≡ take (length from.old.items - number) from.old.items }
    ensures to { to.new.items ≡ to.old.items ++ reverse (drop (length from.old.items - number) from.old.items) }
    ensures from_room { vec_capacity from.new ≡ vec_capacity from.old }
    ensures to_room { vec_capacity to.old ≤ vec_capacity to.new }
{
    for _moved in 0..number {
        to.push(from.pop().unwrap()).unwrap();
    }
}

/// Moves the last `number` elements of `from` before those of `to`.
pub(crate) fn move_last<T: Drop>(from: &mut Vec<T>, to: &mut Vec<T>, number: usize)
    requires enough { number ≤ length from.old.items }
    requires room { length to.old.items + number ≤ vec_capacity to.old }
    ensures from { from.new.items ≡ take (length from.old.items - number) from.old.items }
    ensures to { to.new.items ≡ drop (length from.old.items - number) from.old.items ++ to.old.items }
    ensures from_room { vec_capacity from.new ≡ vec_capacity from.old }
    ensures to_room { vec_capacity to.old ≤ vec_capacity to.new }
{
    to.reverse();
    pour(from, to, number);
    to.reverse();
}

/// Moves the first `number` elements of `from` behind those of `to`.
pub(crate) fn move_first<T: Drop>(from: &mut Vec<T>, to: &mut Vec<T>, number: usize)
    requires enough { number ≤ length from.old.items }
    requires room { length to.old.items + number ≤ vec_capacity to.old }
    ensures from { from.new.items ≡ drop number from.old.items }
    ensures to { to.new.items ≡ to.old.items ++ take number from.old.items }
    ensures from_room { vec_capacity from.new ≡ vec_capacity from.old }
    ensures to_room { vec_capacity to.old ≤ vec_capacity to.new }
{
    from.reverse();
    pour(from, to, number);
    from.reverse();
}

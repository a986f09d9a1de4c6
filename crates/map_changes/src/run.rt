//! A run of values makes way for others, in memory that is there.

ghost use Rattle.std.specs.Prelude.{◌≡◌, ◌≤◌, ◌+◌, ◌++◌, [], List, length, take, drop, reverse, vec_len, vec_capacity};
ghost use Rattle.map_changes.specs.ChangedMaps.{spliced};

/// Puts new values in the place of a run of old ones. The run goes to the end of another vector, from its last value. It takes no
/// memory.
pub fn replace_run<T>(
    items: &mut Vec<T>,
    first: usize,
    count: usize,
    fresh: &mut Vec<T>,
    gone: &mut Vec<T>,
)
    requires within { first + count ≤ vec_len items.old }
    requires room { vec_len items.old + vec_len fresh.old ≤ vec_capacity items.old }
    requires gone_room { vec_len gone.old + count ≤ vec_capacity gone.old }
    ensures items { items.new.items ≡ spliced items.old.items first count fresh.old.items }
    ensures gone { gone.new.items ≡ gone.old.items ++ reverse (take count (drop first items.old.items)) }
    ensures fresh { fresh.new.items ≡ [] }
{
    let back = items.len() - (first + count);
    items.rotate_left(first + count);
    pop_run(items, count, gone);
    let Ok(()) = items.append(fresh) else {
        unreachable!()
    };
    items.rotate_left(back);
}

/// Pops values, and pushes each where there is room.
fn pop_run<T>(items: &mut Vec<T>, count: usize, gone: &mut Vec<T>)
    requires within { count ≤ vec_len items.old }
    requires gone_room { vec_len gone.old + count ≤ vec_capacity gone.old }
    ensures popped { (run : List T) × (items.old.items ≡ items.new.items ++ run) × (length run ≡ count) × (gone.new.items ≡ gone.old.items ++ reverse run) }
    ensures capacity { vec_capacity items.new ≡ vec_capacity items.old }
{
    for _done in 0..count {
        let Some(item) = items.pop() else {
            unreachable!()
        };
        gone.push_reserved(item);
    }
}

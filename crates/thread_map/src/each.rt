//! One call for each value of a vector.

ghost use Rattle.std.specs.Prelude.{◌≡◌, All, vec_capacity};
ghost use Rattle.std.specs.Thread.{IsSync, IsSend};
ghost use Rattle.thread_map.specs.Mapped.{AreMapped};

use std::thread::{Threads, join};

/// Replaces each value by what `work` returns for it, in place and in order, and returns once every call has.
///
/// Each call runs on a thread of its own. If no thread can be made, it runs on this one, so `work` must not make one value
/// wait for another. No heap memory is taken: the results go back into the vector's own buffer.
pub fn map_each<J: Send + Drop, F: Fn(J) -> J + Sync, R: Threads + Sync>(
    rt: &R,
    work: &F,
    mut values: Vec<J>,
) -> Vec<J>
    requires accepts { All (λ value. F.pre work.now value) values.items }
    ensures mapped { AreMapped F.Fn work.now values.items result.items }
    ensures room { vec_capacity result ≡ vec_capacity values }
{
    let Some(value) = values.pop() else {
        return values;
    };
    let (mut mapped, last) = join(
        rt,
        move || -> Vec<J>
            requires { IsSync R.row × IsSync F.row × IsSend J.row × All (λ value. F.pre work.now value) values.items }
            ensures mapped { AreMapped F.Fn work.entry.now values.items result.items }
            ensures room { vec_capacity result ≡ vec_capacity values }
        { map_each(rt, work, values) },
        move || -> J
            requires { F.pre work.now value }
            ensures { F.post work.entry.now value result }
        { work(value) },
    );
    mapped.push_reserved(last);
    mapped
}

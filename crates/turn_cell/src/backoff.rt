//! How a seat waits until its ticket is served.

ghost use Rattle.std.specs.Prelude.{◌≡◌, ◌+◌, ◌/◌, min};

use std::hint::spin_loop;
use std::thread;

/// How often the seat that is next looks before it lets another thread run.
const LOOKS: u32 = 100;

/// A wait takes one more yield for each eight turns ahead of the seat's own.
const TURNS_A_YIELD: u64 = 8;

/// The most yields between two looks.
const MOST_YIELDS: u64 = 4;

/// The waits of one turn. They only pass time, so no clause speaks of them.
#[derive(Drop)]
pub(crate) struct Backoff {
    looks: u32,
}

impl Backoff {
    pub(crate) fn new() -> Backoff {
        Backoff { looks: 0 }
    }

    /// Waits between two looks. `ahead` is how many turns pass before the seat's own.
    ///
    /// The seat that is next spins: the turn before its own is mostly about to end. Any other seat yields, and looks the less
    /// often the more turns are ahead of it, since each look takes the served ticket's cache line from the seats before it.
    pub(crate) fn wait(&mut self, ahead: u64) {
        if ahead <= 1 && self.looks < LOOKS {
            self.looks += 1;
            spin_loop();
        } else {
            self.looks = 0;
            for _yield in 0..yields(ahead) {
                thread::yield_now();
            }
        }
    }
}

/// How many yields a wait takes.
fn yields(ahead: u64) -> u64
    ensures { result ≡ min (ahead / 8 + 1) 4 }
{
    (ahead / TURNS_A_YIELD + 1).min(MOST_YIELDS)
}

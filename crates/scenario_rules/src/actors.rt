//! The rule of the actors.

ghost use Rattle.std.specs.Prelude.{◌≡◌, ◌≤◌, length};
ghost use Rattle.scenario_rules.specs.Actors.{broken_actors, first_long};

use lists::List;
use operation_rules::Place;
use scenario_table::Word;

/// Where the rule of the actors is broken: 0 and 0 where their number is, else the first actor with more than 4,096
/// operations, and 4,097.
pub(crate) fn broken_actors(actors: &[List<Word>]) -> Option<Place>
    ensures { result ≡ broken_actors actors.now }
{
    if 1 <= actors.len() && actors.len() <= 16 {
        first_long(actors)
    } else {
        Some(Place { actor: 0, op: 0 })
    }
}

/// The first actor with more than 4,096 operations, and 4,097.
fn first_long(actors: &[List<Word>]) -> Option<Place>
    requires { length actors.now ≤ 16 }
    ensures { result ≡ first_long actors.now 1 }
{
    let mut actor = 1;
    for ops in actors {
        if ops.len() > 4_096 {
            return Some(Place { actor, op: 4_097 });
        }
        actor += 1;
    }
    None
}

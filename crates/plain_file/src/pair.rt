//! Two slots that hold the same.

ghost use Rattle.std.specs.Prelude.{◌≡◌, ◌≤◌, length, is_some, OnOk};
ghost use Rattle.std.specs.Result.{IsErrOf};
ghost use Rattle.plain_file.specs.Mirrors.{AreCopies, SamePlaces, TellStill, PairFails};

use flex_io::{Fault, Slot};

/// The two slots of a mirror, by position.
#[derive(Drop)]
pub(crate) struct Pair<S: Slot + Drop> {
    pub first: S,
    pub second: S,
}

/// Writes the bytes to both slots.
pub(crate) fn write_both<S: Slot + Drop>(pair: &mut Pair<S>, bytes: &[u8]) -> Result<(), Fault>
    requires { length bytes.now ≤ 262144 }
    ensures ok { OnOk result (AreCopies S.content pair.new bytes.now) }
    ensures tell { OnOk result (TellStill S.content pair.old pair.new) }
    ensures places { SamePlaces S.place_of pair.old pair.new }
    ensures fault { IsErrOf result Fault.Failed → PairFails S.faults pair.old pair.new }
{
    pair.first.write(bytes)?;
    pair.second.write(bytes)?;
    Ok(())
}

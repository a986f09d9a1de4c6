//! Which calls of a rack in memory, and of its slots, fail.

ghost use Rattle.std.specs.Prelude.{◌≡◌};
ghost use Rattle.flex_io.specs.RackCalls.{is_call, is_due, counted_down, any_due, after_call};

use crate::RawPlace;

/// A call of a rack, or of one of its slots.
#[derive(Clone, Copy, Debug, PartialEq, Eq)]
pub enum RackCall {
    Take,
    Put,
    Write,
}

/// The call that fails: the one of this number from now on, counted from 1, among the calls of its kind at the place.
#[derive(Clone, Copy, Debug, PartialEq, Eq)]
pub struct Fail {
    pub place: RawPlace,
    pub call: RackCall,
    pub nth: u32,
}

impl Fail {
    /// Whether it is of this kind at this place.
    pub(crate) fn is_of(&self, place: RawPlace, call: RackCall) -> bool
        ensures { result ≡ is_call place call self.now }
    {
        self.place == place && self.call == call
    }

    // Counts a call of this kind down, and answers whether it fails.
    fn count_down(&mut self, place: RawPlace, call: RackCall) -> bool
        ensures value { result ≡ is_due place call self.old }
        ensures counted { self.new ≡ counted_down place call self.old }
    {
        let is_of = self.is_of(place, call);
        let fails = is_of && self.nth == 1;
        if is_of {
            self.nth = self.nth.saturating_sub(1);
        }
        fails
    }
}

/// Counts a call of this kind at this place down in the whole plan, and answers whether it fails.
pub(crate) fn next_fails(plan: &mut [Fail], place: RawPlace, call: RackCall) -> bool
    ensures value { result ≡ any_due place call plan.old }
    ensures counted { plan.new ≡ after_call place call plan.old }
{
    let Some((first, rest)) = plan.split_first_mut() else {
        return false;
    };
    let fails = first.count_down(place, call);
    let later = next_fails(rest, place, call);
    fails || later
}

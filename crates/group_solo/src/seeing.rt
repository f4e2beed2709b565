//! A call that sees that it was cancelled, and an open that is told whether there is room for its instance.
ghost use Rattle.std.specs.Prelude.{◌≡◌, Some};
ghost use Rattle.base.specs.NumberMap.{get};
ghost use Rattle.group_model.specs.Group.{Group as AnyGroup, GroupCall as AnyCall, finds_room, sees};
ghost use Rattle.group_solo.specs.Standing.{IsSomeGroup, StandsFor};

use crate::group::GroupSolo;
use solo::see_cancel;

impl GroupSolo {
    /// The call of this number sees after so many steps that it was cancelled.
    pub(crate) fn see(&mut self, number: u32, done_by_now: u128)
        requires { ∥ IsSomeGroup self.old ∥₁ }
        ensures sees { (g next : AnyGroup) (own : AnyCall) → StandsFor self.old g
            → get g.calls number ≡ Some own
            → sees g number done_by_now own ≡ Some next → StandsFor self.new next }
        ensures app { self.new.app ≡ self.old.app }
    {
        let Some(mut call) = self.take(number) else {
            return;
        };
        see_cancel(&mut call.cont, done_by_now);
        self.put(number, call);
    }

    /// The call of this number, which finds its instance gone, is told whether there are pages for a new one.
    pub(crate) fn tell_room(&mut self, number: u32, enough: bool)
        ensures finds { (g next : AnyGroup) (own : AnyCall) → StandsFor self.old g
            → get g.calls number ≡ Some own
            → finds_room g number enough own ≡ Some next → StandsFor self.new next }
        ensures app { self.new.app ≡ self.old.app }
    {
        let Some(mut call) = self.take(number) else {
            return;
        };
        call.room = Some(enough);
        self.put(number, call);
    }
}

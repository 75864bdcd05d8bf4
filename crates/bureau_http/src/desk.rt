//! Desks: they know whose a token is, and answer calls. The bureau over any store and judge is one.
ghost use Rattle.std.specs.Prelude.{◌≡◌, IfOk, IfSome};
ghost use Rattle.catalogue.specs.View.{IsLawful, IsOpen, Tells, View};
ghost use Rattle.bureau.specs.Answering.{IsAnswered};
ghost use Rattle.bureau.specs.Calls.{call_as};
ghost use Rattle.bureau.specs.Replies.{reply_as};
ghost use Rattle.bureau_store.specs.Caller.{IsProper, caller_with};
ghost use Rattle.bureau_store.specs.Store.{Reads};
ghost use Rattle.bureau_store.specs.Tables.{AreInOrder, Tables};

use bureau::{Call, Reply};
use bureau_store::{Caller, StoreFault};

/// Answers calls, over any store and any judge.
///
/// What a call tells of the tables is promised under two conditions. They were this product's own as the call
/// began, and what lies below has returned what was written, up to the call's end.
pub trait Desk {
    /// The view of the desk, with its tables.
    ghost tables_view: { View Self Tables };

    /// Finds the caller whose token this is, or `None` if no caller has it.
    ///
    /// # Errors
    ///
    /// `Memory` if memory ran out, `Device` if what lies below has failed, now or before.
    fn caller_of(&mut self, token: &[u8]) -> Result<Option<Caller>, StoreFault>
        ensures reads { Reads tables_view self.old self.new result }
        ensures caller { IfOk result (λ found. Tells tables_view self.old self.new
            (λ this. found ≡ caller_with this.callers token.now)) }
        ensures proper { IfOk result (λ found. IfSome found IsProper) };

    /// Answers a call, by a step of the bureau that all callers share. An answer from the tables comes only from a
    /// desk that is open.
    fn answer(&mut self, caller: &Caller, call: &Call<'_>) -> Reply
        requires { IsProper caller.now }
        ensures { IsAnswered tables_view self.old self.new
            (record { caller = caller.now; call = call_as call.now; answer = reply_as result }) };

    /// The laws of the view.
    ghost tables_lawful: { IsLawful tables_view };

    /// If this product made what lies below, the published content and each client's zones are in order.
    ghost tables_in_order: { (desk : Self) (tables : Tables)
        → tables_view.is_ours desk → IsOpen tables_view desk → tables_view.stands desk tables
        → AreInOrder tables };
}

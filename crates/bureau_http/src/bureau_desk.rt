//! The bureau, as a desk, over each store and judge.
ghost use Rattle.bureau.specs.Answering.{bureau_lawful, bureau_view};

use crate::desk::Desk;
use bureau::{Bureau, Call, Reply};
use bureau_store::{Caller, Store, StoreFault};
use verdicts::Judge;

impl<S: Store, J: Judge<S>> Desk for Bureau<S, J> {
    ghost tables_view = { bureau_view S.tables_view J.is_right };

    fn caller_of(&mut self, token: &[u8]) -> Result<Option<Caller>, StoreFault> {
        Bureau::caller_of(self, token)
    }

    fn answer(&mut self, caller: &Caller, call: &Call<'_>) -> Reply {
        Bureau::answer(self, caller, call)
    }

    ghost tables_lawful = { bureau_lawful S.tables_view J.is_right S.tables_lawful };

    ghost tables_in_order = { λ bureau tables ours is_open stands.
        S.tables_in_order bureau.store tables ours is_open stands.0 };
}

//! Desks that hold no tables.
ghost use Rattle.std.specs.Prelude.{IfOk, IfSome};
ghost use Rattle.bureau_store.specs.Caller.{IsProper};

use bureau::{Call, Reply};
use bureau_http::Desk;
use bureau_store::{Caller, StoreFault};

/// Answers in place of a bureau.
pub(crate) trait Answering {
    /// The caller with this token, if somebody has it. It fails only for want of memory.
    fn found(&mut self, token: &[u8]) -> Result<Option<Caller>, StoreFault>
        ensures { IfOk result (λ found. IfSome found IsProper) };

    /// The answer to a call.
    fn told(&mut self, caller: &Caller, call: &Call<'_>) -> Reply;
}

/// A desk that holds no tables, so that no contract speaks of its answers.
#[derive(Drop)]
pub(crate) struct Tableless<A: Drop> {
    pub(crate) answering: A,
}

impl<A: Answering + Drop> Desk for Tableless<A> {
    ghost use Rattle.std.proofs.Common.{arith};

    ghost tables_view = { record {
      stands = λ _ _. ⊥;
      is_clean = λ _. Unit {0};
      is_ours = λ _. Unit {0};
      failures = λ _. 0;
      may_leave = λ _ _. ⊥;
      keeps = λ _ _. Unit {0};
    } };

    ghost tables_lawful = { record {
      keeps = λ old new kept. record {
        goes = record { clean = λ clean. clean; ours = λ _ _. tt; failures_rise = omega arith };
        stays = λ ours clean this stands. stands;
        leaves = λ ours clean this left. left;
      };
      itself = λ desk. tt;
      on = λ first second third sooner later. tt;
      one = λ desk is_open this other first second. absurd first;
    } };

    ghost tables_in_order = { λ desk tables ours is_open stands. absurd stands };

    fn caller_of(&mut self, token: &[u8]) -> Result<Option<Caller>, StoreFault> {
        match self.answering.found(token) {
            Ok(found) => Ok(found),
            Err(_) => Err(StoreFault::Memory),
        }
    }

    fn answer(&mut self, caller: &Caller, call: &Call<'_>) -> Reply {
        self.answering.told(caller, call)
    }
}

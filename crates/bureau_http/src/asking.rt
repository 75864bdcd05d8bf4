//! The question of a whole request, and the answer to it.
ghost use Rattle.std.specs.Prelude.{◌≡◌, true};
ghost use Rattle.bureau.specs.Call.{report_on};
ghost use Rattle.bureau.specs.Calls.{call_as};
ghost use Rattle.bureau_http.specs.Asked as Spec;
ghost use Rattle.bureau_http.specs.Asked.{has_token, what_of};
ghost use Rattle.bureau_http.specs.Exchange.{call_from};
ghost use Rattle.bureau_http.specs.Noted.{IsKnown};
ghost use Rattle.bureau_http.specs.Told.{IsOfLookUp, IsTold, answer_told};
ghost use Rattle.bureau.specs.Kept.{IsKeptRun};
ghost use Rattle.catalogue.specs.View.{Goes, IsOpen, Tells};
ghost use Rattle.bureau_store.specs.Tables.{Tables};
ghost use Rattle.requests.specs.NextRequest.{IsAt, body_in, parts_in};
ghost use Rattle.requests.specs.Request.{number_of};

use crate::desk::Desk;
use crate::reply::Told;
use bureau::{Call, Lack};
use bureau_store::Caller;
use mcs_reader::Id;
use questions::{Report, Wanted};
use requests::{Action, Refusal, Request, Routes};

/// Asks the desk what a whole request asks. It returns the answer, and the caller whose token the request has.
///
/// First the caller counts, then the path, the method, and the ids in the path; then the call goes to the desk.
pub(crate) fn answer_to<D: Desk>(
    desk: &mut D,
    routes: &Routes,
    request: &Request,
    bytes: &[u8],
) -> (Told, Option<Caller>)
    requires { IsAt bytes.now request.now }
    ensures goes { Goes D.tables_view desk.old desk.new }
    ensures closed { has_token (parts_in bytes.now request.now) ≡ true → IsOfLookUp result.0 →
        IsOpen D.tables_view desk.new }
    ensures told { Tells D.tables_view desk.old desk.new (λ this.
        (next : Tables)
        × IsTold this (what_of this.callers (parts_in bytes.now request.now) (body_in bytes.now request.now))
        (has_token (parts_in bytes.now request.now)) result.0 next
        × IsKeptRun D.tables_view desk.old desk.new this
        (call_from (what_of this.callers (parts_in bytes.now request.now) (body_in bytes.now request.now))
        (answer_told result.0)) next
        × IsKnown this.callers (parts_in bytes.now request.now) (answer_told result.0) result.1) }
{
    let Some(token) = request.token(bytes) else {
        return (Told::Refused(Refusal::UnknownToken), None);
    };
    let action = request.action(bytes, routes);
    let found = match desk.caller_of(token) {
        Ok(found) => found,
        Err(fault) => return (Told::NoRoom(Lack::from(fault)), None),
    };
    let Some(caller) = found else {
        return (Told::Refused(Refusal::UnknownToken), None);
    };
    match action {
        Ok(action) => {
            let call = call_of(action, request, bytes);
            (Told::Answered(desk.answer(&caller, &call)), Some(caller))
        }
        Err(refusal) => (Told::Refused(refusal), Some(caller)),
    }
}

// The call of an action. Only a change reads its number and its body.
fn call_of<'a>(action: Action, request: &Request, bytes: &'a [u8]) -> Call<'a>
    requires { IsAt bytes.now request.now }
    ensures { call_as result
        ≡ Spec.call_of action (number_of (parts_in bytes.now request.now)) (body_in bytes.now request.now) }
{
    match action {
        Action::Publish => Call::Publish {
            number: request.number(bytes),
            body: request.body(bytes),
        },
        Action::Counts(form) => Call::Counts { form },
        Action::ListZones(form) => Call::ListZones { form },
        Action::PutZone(zone) => Call::PutZone {
            number: request.number(bytes),
            zone,
            body: request.body(bytes),
        },
        Action::DropZone(zone) => Call::DropZone {
            number: request.number(bytes),
            zone,
        },
        Action::PutPatterns(zone) => Call::PutPatterns {
            number: request.number(bytes),
            zone,
            body: request.body(bytes),
        },
        Action::PutReceived => Call::PutReceived {
            number: request.number(bytes),
            body: request.body(bytes),
        },
        Action::Report(report, wanted, zone) => report_call(report, wanted, zone),
        Action::ZoneCounts(zone) => Call::ZoneCounts { zone },
        Action::Chain(zone, sysmod) => Call::Chain { zone, sysmod },
    }
}

// The call for a report on a zone, or for the plan of one.
fn report_call<'a>(report: Report, wanted: Wanted, zone: Id) -> Call<'a>
    ensures { call_as result ≡ report_on report wanted zone }
{
    match report {
        Report::ErrSysmods => Call::ErrSysmods { zone, wanted },
        Report::MissingFix => Call::MissingFix { zone, wanted },
    }
}

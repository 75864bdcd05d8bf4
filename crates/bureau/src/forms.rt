//! What depends on the report and on the form of an answer.
ghost use Rattle.std.specs.Prelude.{◌≡◌};
ghost use Rattle.bureau.specs.Outcome.{in_form};
ghost use Rattle.bureau.specs.Replies.{reply_as};
ghost use Rattle.bureau.specs.Texts as Spec;

use crate::Reply;
use holddata::Kind;
use questions::{Form, Report};

/// The kind of the holds from which a report is made.
pub(crate) fn kind_of(report: Report) -> Kind
    ensures { result ≡ Spec.kind_of report }
{
    match report {
        Report::ErrSysmods => Kind::ErrorHold,
        Report::MissingFix => Kind::FixcatHold,
    }
}

/// The reply that has a text in this form.
pub(crate) fn reply_in(form: Form, text: Vec<u8>) -> Reply
    ensures { reply_as result ≡ in_form form text.items }
{
    match form {
        Form::Text => Reply::text(text),
        Form::Json => Reply::json(text),
    }
}

//! The rows of a report or the plan for it, and their form.
ghost use Rattle.std.specs.Prelude.{◌≡◌};
ghost use Rattle.questions.specs.Wanted.{form_of};

/// The form of an answer.
#[derive(Clone, Copy, Debug, PartialEq, Eq)]
pub enum Form {
    /// Text in columns.
    Text,
    /// JSON.
    Json,
}

/// The rows of a report, or the plan for it.
#[derive(Clone, Copy, Debug, PartialEq, Eq)]
pub enum Wanted {
    /// Its rows.
    Rows(Form),
    /// The plan for it: what to install, and in which order.
    Plan(Form),
}

impl Wanted {
    /// The form in which it is wanted.
    pub fn form(self) -> Form
        ensures { result ≡ form_of self }
    {
        match self {
            Wanted::Rows(form) => form,
            Wanted::Plan(form) => form,
        }
    }
}

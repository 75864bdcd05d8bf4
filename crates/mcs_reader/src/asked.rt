//! The operands of a statement that are gathered.
ghost use Rattle.std.specs.Prelude.{◌≡◌, List, ℕ};
ghost use Rattle.std.specs.List.{list_any};
ghost use Rattle.std.specs.Str.{str_eq_ignore_ascii_case};
ghost use Rattle.mcs_reader.specs.Gathered.{is_wanted};

/// All operands, or only those that have one of some names. The others are passed over, and take no memory.
#[derive(Clone, Copy)]
pub(crate) enum Asked<'a> {
    All,
    Named(&'a [&'a [u8]]),
}

impl<'a> Asked<'a> {
    /// Whether an operand of this name is gathered. Names are compared without regard to ASCII case.
    pub(crate) fn asks_for(self, name: &[u8]) -> bool
        ensures { (values : List (List ℕ)) →
            result ≡ is_wanted self.entry (record { name = name.now; values = values }) }
    {
        match self {
            Asked::All => true,
            Asked::Named(names) => is_among(name, names),
        }
    }
}

fn is_among(name: &[u8], names: &[&[u8]]) -> bool
    ensures { result ≡ list_any (λ asked. str_eq_ignore_ascii_case name.now asked.now) names.now }
{
    names.iter().any(|asked| is_same_name(name, asked))
}

fn is_same_name(name: &[u8], asked: &[u8]) -> bool
    ensures { result ≡ str_eq_ignore_ascii_case name.now asked.now }
{
    name.eq_ignore_ascii_case(asked)
}

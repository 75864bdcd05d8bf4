//! Whether the pages of a store end in sums, as far as that is known.

/// Whether the pages of a store end in sums, as far as that is known.
#[derive(Clone, Copy)]
pub enum Pages {
    /// Each ends in a sum of its bytes.
    WithSums,
    /// None does.
    WithoutSums,
    /// It isn't known.
    Unknown,
}

impl Pages {
    // What people are told of it.
    pub(crate) fn words(self) -> Option<&'static str> {
        match self {
            Pages::WithSums => {
                Some("pages with sums: a bit that the disk changes by itself is told\n")
            }
            Pages::WithoutSums => Some(
                "pages without sums: a bit that the disk changes by itself may be taken as right\n",
            ),
            Pages::Unknown => None,
        }
    }
}

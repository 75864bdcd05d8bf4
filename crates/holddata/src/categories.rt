//! The fix categories of a hold.
ghost use Rattle.std.specs.Prelude.{◌≡◌, ◌↔◌, ◌&&◌, [], ◌∷◌, Some, None, IfOk, IsTrue, if◌then◌else◌};
ghost use Rattle.std.specs.List.{join_with_byte, list_all, slice_split};
ghost use Rattle.mcs_reader.specs.Bytes.{bytes_of_each};
ghost use Rattle.mcs_reader.specs.Category.{is_category};
ghost use Rattle.holddata.specs.Categories.{are_categories, ascends};
ghost use Rattle.holddata.specs.Joined.{is_comma};

use crate::NoMemory;
use mcs_reader::is_category;
use std::alloc::Global;
use std::cmp::Ordering;
use std::collections::BTreeSet;
use std::marker::Model;

/// The fix categories of a hold (IBM z/OS SMP/E Reference, `++HOLD`, operand CATEGORY), in
/// ascending order of their bytes, each once. Each has 1 to 64 printable ASCII characters, of which
/// none is a blank, an apostrophe, a comma or a parenthesis. A contract sees the list of their bytes.
#[derive(Debug, Drop)]
pub struct Categories {
    // With commas between: a hold has few, and no category has a comma.
    joined: Vec<u8>,
}

impl Model for Categories {
    ghost use Rattle.std.specs.Prelude.{ℕ, List, IsTrue};
    ghost use Rattle.holddata.specs.Categories.{are_categories};
    ghost use Rattle.holddata.specs.Joined.{between_commas};

    ghost Value = { List (List ℕ) };

    ghost view = { λ c. between_commas c.joined.items };

    ghost invariant = { λ c. IsTrue (are_categories (between_commas c.joined.items)) };
}

impl Categories {
    /// No categories.
    pub fn new(alloc: Global) -> Self
        ensures { result ≡ [] }
    {
        Categories {
            joined: Vec::new(alloc),
        }
    }

    /// These categories, or `None` if one isn't a category or they don't ascend.
    ///
    /// # Errors
    ///
    /// Memory ran out.
    pub fn from_ascending(alloc: Global, texts: &[&[u8]]) -> Result<Option<Self>, NoMemory>
        ensures { IfOk result (λ categories. categories
            ≡ (if are_categories (bytes_of_each texts.now) then Some (bytes_of_each texts.now) else None)) }
    {
        if !are_in_order(texts) {
            return Ok(None);
        }
        Ok(Some(Categories::of(alloc, texts)?))
    }

    // One category.
    #[tactic(auto, using(crate::proofs::JoinedFacts::one_between))]
    pub(crate) fn from_one(alloc: Global, text: &[u8]) -> Result<Self, NoMemory>
        requires { IsTrue (is_category text.now) }
        ensures { IfOk result (λ categories. categories ≡ text.now ∷ []) }
    {
        Ok(Categories {
            joined: Vec::from_slice(alloc, text)?,
        })
    }

    // The categories of a set.
    pub(crate) fn from_set(alloc: Global, texts: &BTreeSet<&[u8]>) -> Result<Self, NoMemory>
        requires { IsTrue (are_categories (bytes_of_each texts.now.keys)) }
        ensures { IfOk result (λ categories. categories ≡ bytes_of_each texts.now.keys) }
    {
        let mut list = Vec::with_capacity(alloc, texts.len())?;
        for text in texts {
            list.push(*text)?;
        }
        Categories::of(alloc, list.as_slice())
    }

    // Some categories.
    #[tactic(auto, using(crate::proofs::JoinedFacts::all_between))]
    fn of(alloc: Global, texts: &[&[u8]]) -> Result<Self, NoMemory>
        requires { IsTrue (are_categories (bytes_of_each texts.now)) }
        ensures { IfOk result (λ categories. categories ≡ bytes_of_each texts.now) }
    {
        Ok(Categories {
            joined: join_with_commas(alloc, texts)?,
        })
    }

    /// Whether there are none.
    pub fn is_empty(&self) -> bool
        ensures { IsTrue result ↔ (self.now ≡ []) }
    {
        self.joined.is_empty()
    }

    /// The categories with commas between.
    #[tactic(auto, using(crate::proofs::JoinedFacts::joined_again))]
    pub fn joined(&self) -> &[u8]
        ensures value { result.now ≡ join_with_byte 44 self.now }
        ensures allowed { IsTrue (are_categories self.now) }
    {
        self.joined.as_slice()
    }

    /// The categories in ascending order of their bytes, each once.
    ///
    /// # Errors
    ///
    /// Memory ran out.
    pub fn to_list(&self) -> Result<Vec<&[u8]>, NoMemory>
        ensures texts { IfOk result (λ list. bytes_of_each list.items ≡ self.now) }
        ensures allowed { IsTrue (are_categories self.now) }
    {
        let alloc = *self.joined.allocator();
        if self.joined.is_empty() {
            return Ok(Vec::new(alloc));
        }
        split(alloc, self.joined.as_slice())
    }

    /// Copies the categories.
    ///
    /// # Errors
    ///
    /// Memory ran out.
    pub fn copy(&self) -> Result<Self, NoMemory>
        ensures { IfOk result (λ copy. copy ≡ self.now) }
    {
        Ok(Categories {
            joined: Vec::from_slice(*self.joined.allocator(), self.joined.as_slice())?,
        })
    }
}

/// Joins texts with commas between.
///
/// # Errors
///
/// Memory ran out.
#[tactic(auto, using(crate::proofs::TextFacts::join_is))]
pub fn join_with_commas(alloc: Global, texts: &[&[u8]]) -> Result<Vec<u8>, NoMemory>
    ensures { IfOk result (λ joined. joined.items ≡ join_with_byte 44 (bytes_of_each texts.now)) }
{
    let Some((first, rest)) = texts.split_first() else {
        return Ok(Vec::new(alloc));
    };
    let mut joined = Vec::with_capacity(alloc, joined_len(first, rest))?;
    joined.extend_from_slice(first)?;
    for text in rest {
        joined.push(b',')?;
        joined.extend_from_slice(text)?;
    }
    Ok(joined)
}

// The number of bytes that the texts take with commas between. It decides only how much room is made at
// once.
fn joined_len(first: &[u8], rest: &[&[u8]]) -> usize {
    let mut len = first.len();
    for text in rest {
        len = len.saturating_add(1).saturating_add(text.len());
    }
    len
}

// The parts between the commas.
fn split(alloc: Global, joined: &[u8]) -> Result<Vec<&[u8]>, NoMemory>
    ensures { IfOk result (λ parts. bytes_of_each parts.items ≡ slice_split is_comma joined.now) }
{
    joined.split(|b| *b == b',').collect(alloc)
}

// Whether these are categories in ascending order, each once.
fn are_in_order(texts: &[&[u8]]) -> bool
    ensures { result ≡ are_categories (bytes_of_each texts.now) }
{
    are_allowed(texts) && are_ascending(texts)
}

pub(crate) fn are_allowed(texts: &[&[u8]]) -> bool
    ensures { result ≡ list_all (λ text. is_category text.now) texts.now }
{
    texts.iter().all(|text| is_category(text))
}

fn are_ascending(texts: &[&[u8]]) -> bool
    ensures { result ≡ ascends (bytes_of_each texts.now) }
{
    let Some((first, rest)) = texts.split_first() else {
        return true;
    };
    let mut below = *first;
    for text in rest {
        if below.cmp(text) != Ordering::Less {
            return false;
        }
        below = *text;
    }
    true
}

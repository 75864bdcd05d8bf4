//! Patterns of fix categories.
ghost use Rattle.std.specs.Prelude.{◌≡◌, ◌==◌, ◌-◌, length, take, nat_eq, option_map, IfOk, IsTrue, Some, refl};
ghost use Rattle.std.specs.Cmp.{partial_equiv_from_equiv};
ghost use Rattle.std.specs.Cmp.Lexicographic.{pointwise, slice_cmp, nat_list_eq_equiv, nat_list_cmp_total, texts_po, texts_ties};
ghost use Rattle.std.specs.List.{list_any};
ghost use Rattle.std.specs.Ordering.{nat_cmp};
ghost use Rattle.zone_lists.specs.Pattern as Spec;

use faults::NoMemory;
use mcs_reader::is_category;
use std::alloc::Global;
use std::cmp::Ordering;
use std::marker::Model;

/// A fix category, or the beginning of some, perhaps empty, and a final `*`.
///
/// It has 1 to 64 bytes in all, each of which a category may have; `*` stands only at the end. Patterns are ordered by
/// their bytes.
#[derive(Debug, Drop)]
pub struct Pattern {
    text: Vec<u8>,
}

impl Model for Pattern {
    ghost use Rattle.std.specs.Prelude.{List, ℕ, IsTrue};
    ghost use Rattle.zone_lists.specs.Pattern.{is_pattern};

    ghost Value = { List ℕ };

    ghost view = { λ pattern. pattern.text.items };

    ghost invariant = { λ pattern. IsTrue (is_pattern pattern.text.items) };
}

impl Pattern {
    /// The pattern with this text, or `None` if it is none.
    ///
    /// # Errors
    ///
    /// Memory ran out.
    pub fn new(alloc: Global, text: &[u8]) -> Result<Option<Pattern>, NoMemory>
        ensures { IfOk result (λ made. made ≡ Spec.pattern_of text.now) }
    {
        if !is_pattern(text) {
            return Ok(None);
        }
        let text = Vec::from_slice(alloc, text)?;
        Ok(Some(Pattern { text }))
    }

    /// The text, a final `*` included.
    pub fn text(&self) -> &[u8]
        ensures value { result.now ≡ self.now }
        ensures allowed { IsTrue (Spec.is_pattern result.now) }
    {
        &self.text
    }

    /// Copies the pattern.
    ///
    /// # Errors
    ///
    /// Memory ran out.
    pub fn copy(&self) -> Result<Pattern, NoMemory>
        ensures { IfOk result (λ copy. copy ≡ self.now) }
    {
        let text = self.text.clone()?;
        Ok(Pattern { text })
    }

    /// Whether a category equals the pattern or, if a `*` ends that, begins with what stands before it. ASCII letters
    /// are equal to their other case.
    pub fn matches(&self, category: &[u8]) -> bool
        ensures { result ≡ Spec.does_match self.now category.now }
    {
        match open_stem(&self.text) {
            Some(stem) => begins_with(category, stem),
            None => equals(category, &self.text),
        }
    }
}

fn is_pattern(text: &[u8]) -> bool
    ensures { result ≡ Spec.is_pattern text.now }
{
    is_category(text) && !has_inner_star(text)
}

// Whether there is a `*` before the last byte.
fn has_inner_star(text: &[u8]) -> bool
    ensures { result ≡ list_any (λ b. b == 0x2A) (take (length text.now - 1) text.now) }
{
    let (inner, _) = text.split_at(text.len().saturating_sub(1));
    inner.contains(&b'*')
}

// The text before a final `*`.
fn open_stem(text: &[u8]) -> Option<&[u8]>
    ensures { option_map (λ stem. stem.now) result ≡ Spec.open_stem text.now }
{
    text.strip_suffix(b"*")
}

fn equals(category: &[u8], text: &[u8]) -> bool
    ensures { result ≡ Spec.equals category.now text.now }
{
    category.eq_ignore_ascii_case(text)
}

fn begins_with(category: &[u8], stem: &[u8]) -> bool
    ensures { result ≡ Spec.begins_with category.now stem.now }
{
    if category.len() < stem.len() {
        return false;
    }
    let (beginning, _) = category.split_at(stem.len());
    beginning.eq_ignore_ascii_case(stem)
}

impl PartialEq for Pattern {
    ghost eq = { pointwise nat_eq };

    ghost laws = { partial_equiv_from_equiv nat_list_eq_equiv };

    fn eq(&self, other: &Self) -> bool {
        self.text() == other.text()
    }
}

impl Eq for Pattern {
    ghost laws = { nat_list_eq_equiv };
}

impl PartialOrd for Pattern {
    ghost partial_cmp = { λ a b. Some (slice_cmp nat_cmp a b) };

    ghost laws = { texts_po };

    fn partial_cmp(&self, other: &Self) -> Option<Ordering> {
        Some(self.cmp(other))
    }
}

impl Ord for Pattern {
    ghost cmp = { slice_cmp nat_cmp };

    ghost total = { nat_list_cmp_total };

    ghost matches_partial_cmp = { λ a b. refl };

    ghost matches_eq = { texts_ties };

    fn cmp(&self, other: &Self) -> Ordering {
        self.text().cmp(other.text())
    }
}

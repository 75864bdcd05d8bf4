//! Lists in one column, with commas between.
ghost use Rattle.std.specs.Prelude.{◌≡◌, map, option_map, IfOk};
ghost use Rattle.std.specs.List.{slice_split};
ghost use Rattle.mcs_reader.specs.Bytes.{bytes_of_each};
ghost use Rattle.mcs_reader.specs.Id.{text_of};
ghost use Rattle.sqlite_value.specs.Value.{owned};
ghost use Rattle.sqlite_value.specs.declared.value.Value.TheVariants.{Text};
ghost use Rattle.sql_tables.specs.Values as spec;

use crate::NoMemory;
use holddata::{Categories, join_with_commas};
use mcs_reader::Id;
use sqlite::types::ValueRef;
use std::alloc::Global;
use zone_lists::Pattern;

/// The text of a list of ids: their texts with commas between.
pub fn joined_ids(alloc: Global, ids: &[Id]) -> Result<Vec<u8>, NoMemory>
    ensures { IfOk result (λ joined. Text joined.items ≡ spec.ids_value ids.now) }
{
    let texts = texts_of(alloc, ids)?;
    join_with_commas(alloc, texts.as_slice())
}

fn texts_of(alloc: Global, ids: &[Id]) -> Result<Vec<&[u8]>, NoMemory>
    ensures { IfOk result (λ texts. bytes_of_each texts.items ≡ map text_of ids.now) }
{
    let mut texts = Vec::with_capacity(alloc, ids.len())?;
    for id in ids {
        texts.push(id.as_bytes())?;
    }
    Ok(texts)
}

/// The text of a list of patterns: these with commas between.
pub fn joined_patterns(alloc: Global, patterns: &[Pattern]) -> Result<Vec<u8>, NoMemory>
    ensures { IfOk result (λ joined. Text joined.items ≡ spec.texts_value patterns.now) }
{
    let texts = texts_of_patterns(alloc, patterns)?;
    join_with_commas(alloc, texts.as_slice())
}

fn texts_of_patterns(alloc: Global, patterns: &[Pattern]) -> Result<Vec<&[u8]>, NoMemory>
    ensures { IfOk result (λ texts. bytes_of_each texts.items ≡ patterns.now) }
{
    let mut texts = Vec::with_capacity(alloc, patterns.len())?;
    for pattern in patterns {
        texts.push(pattern.text())?;
    }
    Ok(texts)
}

/// The text of a hold's categories.
pub fn categories_value(categories: &Categories) -> ValueRef<'_>
    ensures { owned result ≡ spec.texts_value categories.now }
{
    ValueRef::Text(categories.joined())
}

// The texts between the commas of a text, or `None` if the value is no text.
fn texts_in<'a>(alloc: Global, value: ValueRef<'a>) -> Result<Option<Vec<&'a [u8]>>, NoMemory>
    ensures { IfOk result (λ found.
        option_map (λ texts. bytes_of_each texts.items) found ≡ spec.texts_in (owned value.entry)) }
{
    let ValueRef::Text(text) = value else {
        return Ok(None);
    };
    Ok(Some(parts_of(alloc, text)?))
}

fn parts_of(alloc: Global, text: &[u8]) -> Result<Vec<&[u8]>, NoMemory>
    ensures { IfOk result (λ parts. bytes_of_each parts.items ≡ spec.parts_of text.now) }
{
    if text.is_empty() {
        return Ok(Vec::new(alloc));
    }
    split(alloc, text)
}

fn split(alloc: Global, joined: &[u8]) -> Result<Vec<&[u8]>, NoMemory>
    ensures { IfOk result (λ parts. bytes_of_each parts.items ≡ slice_split spec.is_comma joined.now) }
{
    joined.split(|b| *b == b',').collect(alloc)
}

/// The ids of a list in their order, or `None` if the value is no text or a text in it is no id's.
///
/// # Errors
///
/// Memory ran out.
pub fn ids_in(alloc: Global, value: ValueRef<'_>) -> Result<Option<Vec<Id>>, NoMemory>
    ensures { IfOk result (λ found. option_map (λ ids. ids.items) found ≡ spec.ids_in (owned value.entry)) }
{
    let Some(texts) = texts_in(alloc, value)? else {
        return Ok(None);
    };
    ids_of(alloc, texts.as_slice())
}

fn ids_of(alloc: Global, texts: &[&[u8]]) -> Result<Option<Vec<Id>>, NoMemory>
    ensures { IfOk result (λ found.
        option_map (λ ids. ids.items) found ≡ spec.ids_of (bytes_of_each texts.now)) }
{
    let mut ids = Vec::with_capacity(alloc, texts.len())?;
    for text in texts {
        let Some(id) = Id::new(text) else {
            return Ok(None);
        };
        ids.push(id)?;
    }
    Ok(Some(ids))
}

/// The categories of a list, or `None` if a text in it is no category or they don't ascend.
///
/// # Errors
///
/// Memory ran out.
pub fn categories_in(alloc: Global, value: ValueRef<'_>) -> Result<Option<Categories>, NoMemory>
    ensures { IfOk result (λ found. found ≡ spec.categories_in (owned value.entry)) }
{
    let Some(texts) = texts_in(alloc, value)? else {
        return Ok(None);
    };
    Categories::from_ascending(alloc, texts.as_slice())
}

/// The patterns of a list in their order, or `None` if the value is no text or a text in it is no pattern.
///
/// # Errors
///
/// Memory ran out.
pub fn patterns_in(alloc: Global, value: ValueRef<'_>) -> Result<Option<Vec<Pattern>>, NoMemory>
    ensures { IfOk result (λ found.
        option_map (λ patterns. patterns.items) found ≡ spec.patterns_in (owned value.entry)) }
{
    let Some(texts) = texts_in(alloc, value)? else {
        return Ok(None);
    };
    patterns_of(alloc, texts.as_slice())
}

fn patterns_of(alloc: Global, texts: &[&[u8]]) -> Result<Option<Vec<Pattern>>, NoMemory>
    ensures { IfOk result (λ found.
        option_map (λ patterns. patterns.items) found ≡ spec.patterns_of (bytes_of_each texts.now)) }
{
    let mut patterns = Vec::with_capacity(alloc, texts.len())?;
    for text in texts {
        let Some(pattern) = Pattern::new(alloc, text)? else {
            return Ok(None);
        };
        patterns.push(pattern)?;
    }
    Ok(Some(patterns))
}

//! The fields of a record, without the blanks around them.
ghost use Rattle.std.specs.Prelude.{◌≡◌, ◌-◌, option_map};
ghost use Rattle.std.specs.List.{prefix_len, suffix_len};
ghost use Rattle.csv.specs.Records.{fields_of};
ghost use Rattle.zone_lists.specs.Fields as Spec;
ghost use Rattle.zone_lists.specs.Header;

use csv::ByteRecord;

/// The field of a record of one field, without the blanks and tabs at both ends.
pub fn one_field(row: &ByteRecord) -> Option<&[u8]>
    ensures { option_map (λ field. field.now) result ≡ Spec.one_field (fields_of row.now) }
{
    if row.len() != 1 {
        return None;
    }
    let Some(field) = row.get(0) else {
        return None;
    };
    Some(trimmed(field))
}

/// The fields of a record of two fields, each without the blanks and tabs at both ends.
pub fn two_fields(row: &ByteRecord) -> Option<(&[u8], &[u8])>
    ensures { option_map (λ fields. (fields.0.now, fields.1.now)) result
        ≡ Spec.two_fields (fields_of row.now) }
{
    if row.len() != 2 {
        return None;
    }
    let Some(first) = row.get(0) else {
        return None;
    };
    let Some(second) = row.get(1) else {
        return None;
    };
    Some((trimmed(first), trimmed(second)))
}

/// Whether a record is the header of one column with this name.
pub fn is_name(row: &ByteRecord, name: &[u8]) -> bool
    ensures { result ≡ Header.is_name name.now (Spec.one_field (fields_of row.now)) }
{
    match one_field(row) {
        Some(field) => field == name,
        None => false,
    }
}

/// Whether a record is the header of two columns with these names.
pub fn are_names(row: &ByteRecord, first: &[u8], second: &[u8]) -> bool
    ensures { result ≡ Header.are_names first.now second.now (Spec.two_fields (fields_of row.now)) }
{
    match two_fields(row) {
        Some(fields) => fields.0 == first && fields.1 == second,
        None => false,
    }
}

// A field without the blanks at both ends.
fn trimmed(field: &[u8]) -> &[u8]
    ensures { result.now ≡ Spec.trimmed field.now }
{
    trim_end(trim_start(field))
}

#[tactic(auto, using(crate::proofs::FieldFacts::leading_fits))]
fn trim_start(field: &[u8]) -> &[u8]
    ensures { result.now ≡ Spec.trim_start field.now }
{
    let (_, rest) = field.split_at(blanks_before(field));
    rest
}

#[tactic(auto, using(crate::proofs::FieldFacts::trailing_fits))]
fn trim_end(field: &[u8]) -> &[u8]
    ensures { result.now ≡ Spec.trim_end field.now }
{
    let (rest, _) = field.split_at(field.len() - blanks_after(field));
    rest
}

fn blanks_before(field: &[u8]) -> usize
    ensures { result ≡ prefix_len Spec.is_blank field.now }
{
    field.iter().take_while(|b| is_blank(**b)).count()
}

fn blanks_after(field: &[u8]) -> usize
    ensures { result ≡ suffix_len Spec.is_blank field.now }
{
    field.iter().rev().take_while(|b| is_blank(**b)).count()
}

fn is_blank(b: u8) -> bool
    ensures { result ≡ Spec.is_blank b }
{
    b == b' ' || b == b'\t'
}

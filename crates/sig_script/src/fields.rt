ghost use Rattle.std.specs.Prelude.{◌≡◌, option_map, nat_le};
ghost use Rattle.std.specs.List.{list_all};
ghost use Rattle.std.specs.Option.{option_map_or};
ghost use Rattle.serde_json.specs.Data.{null};
ghost use Rattle.serde_json.specs.View.{view, items_view, members_view};
ghost use Rattle.serde_json.specs.Find.{as_array, get_member};
ghost use Rattle.sig_script.specs.Fields.{number_of, index_of, is_name_byte, is_name, item_count, field_count, only_field, text_in, items_in, members_in, value_at, list_at};

use serde_json::{Map, Value};

/// A number that fits an `i64`.
pub fn number_of(value: &Value) -> Option<i64>
    ensures { result ≡ number_of (view value.now) }
{
    value.as_i64()
}

/// A number from 0 to the largest `u32`.
pub fn index_of(value: &Value) -> Option<u32>
    ensures { result ≡ index_of (view value.now) }
{
    match value.as_u64() {
        Some(index) if index <= u64::from(u32::MAX) => Some(index as u32),
        _ => None,
    }
}

fn is_name_byte(byte: u8) -> bool
    ensures { result ≡ is_name_byte byte }
{
    byte.is_ascii_lowercase() || byte.is_ascii_digit() || byte == b'_'
}

fn are_name_bytes(text: &[u8]) -> bool
    ensures { result ≡ list_all is_name_byte text.now }
{
    text.iter().all(|&byte| is_name_byte(byte))
}

/// Whether a text is a name: 1 to 16 bytes, a lower-case letter and then lower-case letters, digits and
/// `_`.
pub fn is_name(text: &[u8]) -> bool
    ensures { result ≡ is_name text.now }
{
    match text.split_first() {
        Some((first, rest)) => {
            first.is_ascii_lowercase() && are_name_bytes(rest) && rest.len() < 16
        }
        None => false,
    }
}

/// The value of a field.
pub fn field<'v>(fields: &'v Map<String, Value>, name: &str) -> Option<&'v Value>
    ensures { option_map (λ found. view found.now) result
        ≡ get_member name.now (members_view fields.now.entries) }
{
    fields.get(name)
}

/// How many fields there are.
#[tactic(auto, using(crate::proofs::Counts::field_count_seen))]
pub fn field_count(fields: &Map<String, Value>) -> usize
    ensures { result ≡ field_count (members_view fields.now.entries) }
{
    fields.len()
}

/// The value of the one field of an object that has no other.
pub fn only_field<'v>(value: &'v Value, name: &str) -> Option<&'v Value>
    ensures { option_map (λ found. view found.now) result ≡ only_field name.now (view value.now) }
{
    let fields = value.as_object()?;
    if field_count(fields) != 1 {
        return None;
    }
    field(fields, name)
}

/// The values of a list.
pub fn list_of(value: &Value) -> Option<&[Value]>
    ensures { option_map (λ found. items_view found.now) result ≡ as_array (view value.now) }
{
    Some(value.as_array()?.as_slice())
}

/// The bytes of a text, and none of another value.
pub fn text_in(value: &Value) -> &[u8]
    ensures { result.now ≡ text_in (view value.now) }
{
    match value.as_str() {
        Some(text) => text.as_bytes(),
        None => &[],
    }
}

/// The values of a list, and none of another value.
pub fn items_in(value: &Value) -> &[Value]
    ensures { items_view result.now ≡ items_in (view value.now) }
{
    list_of(value).unwrap_or(&[])
}

/// The value of a field, if the value is an object that has it.
pub fn value_at<'v>(value: &'v Value, name: &str) -> Option<&'v Value>
    ensures found { option_map (λ found. view found.now) result
        ≡ get_member name.now (members_in (view value.now)) }
    ensures or_null { option_map_or (λ found. view found.now) result null
        ≡ value_at name.now (members_in (view value.now)) }
{
    field(value.as_object()?, name)
}

/// The text in a field, and none where there is no such text.
pub fn text_at<'v>(value: &'v Value, name: &str) -> &'v [u8]
    ensures { result.now ≡ text_in (value_at name.now (members_in (view value.now))) }
{
    match value_at(value, name) {
        Some(text) => text_in(text),
        None => &[],
    }
}

/// The values of the list in a field, and none where there is no such list.
pub fn list_at<'v>(value: &'v Value, name: &str) -> &'v [Value]
    ensures { items_view result.now ≡ list_at name.now (members_in (view value.now)) }
{
    match value_at(value, name) {
        Some(values) => items_in(values),
        None => &[],
    }
}

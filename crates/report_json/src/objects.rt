//! The object of a line.
ghost use Rattle.std.specs.Prelude.{◌≡◌, IfOk, Some, option_map, string_bytes};
ghost use Rattle.serde_json.specs.Read.{read};
ghost use Rattle.serde_json.specs.View.{members_view, view};
ghost use Rattle.report_json.specs.Forms.{bytes_object as bytes_object_of, filled as filled_by, form_object as form_object_of, object_of};

use crate::cutting::cut;
use crate::forms::{Field, Form};
use crate::values::value_of;
use serde_json::{Map, Value, put};
use std::alloc::{AllocError, Global};

/// The JSON text of a line's object, by the first of these forms that the line has.
pub fn json_of(global: Global, forms: &[Form], line: &[u8]) -> Result<String, AllocError>
    ensures { IfOk result (λ text. read (string_bytes text) ≡ Some (object_of forms.now line.now)) }
{
    let value = object(global, forms, line)?;
    value.to_string(global)
}

/// The object of a line.
fn object(global: Global, forms: &[Form], line: &[u8]) -> Result<Value, AllocError>
    ensures { IfOk result (λ value. view value ≡ object_of forms.now line.now) }
{
    match forms {
        [] => bytes_object(global, line),
        [form, more @ ..] => match form_object(global, form, line)? {
            Some(value) => Ok(value),
            None => object(global, more, line),
        },
    }
}

/// The object of a line that has none of the forms: its bytes in hexadecimal.
fn bytes_object(global: Global, line: &[u8]) -> Result<Value, AllocError>
    ensures { IfOk result (λ value. view value ≡ bytes_object_of line.now) }
{
    let text = hex::encode(global, line)?;
    let mut members = Map::new(global);
    put(
        &mut members,
        global,
        "type",
        Value::try_from_str(global, "bytes")?,
    )?;
    put(&mut members, global, "hexadecimal", Value::String(text))?;
    Ok(Value::Object(members))
}

/// The object of a line of a form. None if the line hasn't the form.
fn form_object(global: Global, form: &Form, line: &[u8]) -> Result<Option<Value>, AllocError>
    ensures { IfOk result (λ value. option_map view value ≡ form_object_of form.now line.now) }
{
    let start = form.start.as_bytes();
    if !line.starts_with(start) {
        return Ok(None);
    }
    let mut members = Map::new(global);
    put(
        &mut members,
        global,
        "type",
        Value::try_from_str(global, form.kind)?,
    )?;
    match filled(global, form.fields, &line[start.len()..], members)? {
        Some(members) => Ok(Some(Value::Object(members))),
        None => Ok(None),
    }
}

/// These members and one for each field of a text. None unless the text has these fields and no others.
fn filled(
    global: Global,
    fields: &[Field],
    text: &[u8],
    members: Map<String, Value>,
) -> Result<Option<Map<String, Value>>, AllocError>
    ensures { IfOk result
        (λ all. option_map (λ map. members_view map.entries) all
        ≡ filled_by fields.now text.now (members_view members.entries)) }
{
    match fields {
        [] => if text.is_empty() {
            Ok(Some(members))
        } else {
            Ok(None)
        },
        [field, more @ ..] => {
            let Some((front, rest)) = cut(text, field.stop.as_bytes()) else {
                return Ok(None);
            };
            let Some(value) = value_of(global, field.kind, front)? else {
                return Ok(None);
            };
            let mut members = members;
            put(&mut members, global, field.name, value)?;
            filled(global, more, rest, members)
        }
    }
}

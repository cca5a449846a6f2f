//! The pairs of fields.
ghost use Rattle.std.specs.Prelude.{◌≡◌, OnOk, []};
ghost use Rattle.fcgi_lane.specs.Request.Texts.{shown_field, shown_fields};
ghost use Rattle.fcgi_model.specs.Pairs.{field_pair, field_pairs};
ghost use Rattle.fcgi_model.specs.Records.{put_all};

use crate::request::field_texts::{FieldText, has_field};
use crate::request::packing::PairWriter;
use crate::request::variables::{is_handed, joined_value, variable_name};
use http_model::OutOfMemory;
use std::alloc::Global;

/// Puts the pair of a field that is handed on and the first of its name, with these in front of it and these behind it.
fn put_field(
    alloc: Global,
    writer: &mut PairWriter,
    before: &[FieldText<'_>],
    field: FieldText<'_>,
    later: &[FieldText<'_>],
) -> Result<(), OutOfMemory>
    ensures { OnOk result (writer.new ≡ put_all writer.old (field_pair (shown_fields before.now) (shown_field field.entry) (shown_fields later.now))) }
{
    if !is_handed(field) {
        return Ok(());
    }
    if has_field(field.name, before) {
        return Ok(());
    }
    let name = variable_name(alloc, field.name)?;
    let value = joined_value(alloc, field, later)?;
    writer.put(&name, &value)
}

/// Puts the pairs of fields.
pub(crate) fn put_fields(
    alloc: Global,
    writer: &mut PairWriter,
    fields: &[FieldText<'_>],
) -> Result<(), OutOfMemory>
    ensures { OnOk result (writer.new ≡ put_all writer.old (field_pairs [] (shown_fields fields.now))) }
{
    for i in 0..fields.len() {
        put_field(alloc, writer, &fields[..i], fields[i], &fields[i + 1..])?;
    }
    Ok(())
}

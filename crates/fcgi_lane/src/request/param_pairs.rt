//! The pairs that fields are made for.
ghost use Rattle.std.specs.Prelude.{◌≡◌, OnOk, IfOk};
ghost use Rattle.fcgi_lane.specs.Request.Texts.{shown_fields};
ghost use Rattle.fcgi_model.specs.Application as application;
ghost use Rattle.fcgi_model.specs.Head.{first_value};
ghost use Rattle.fcgi_model.specs.Pairs.{param_pair, param_pairs};
ghost use Rattle.fcgi_model.specs.Records.{put_all};

use crate::request::field_texts::{FieldText, first_value};
use crate::request::packing::PairWriter;
use http_model::OutOfMemory;
use px_bytes::fold;
use px_link::{Bytes, ItemList};
use std::alloc::Global;

/// The name of the field that tells the value of a pair.
fn param_field(alloc: Global, name: &[u8]) -> Result<Vec<u8>, OutOfMemory>
    ensures { IfOk result (λ field. field.items ≡ application.param_field name.now) }
{
    let mut field = Vec::new(alloc);
    field.extend_from_slice(b"_")?;
    field.extend_from_slice(name)?;
    fold(&mut field[1..]);
    Ok(field)
}

/// Puts the pair of this name, where a field is there for it.
fn put_param(
    alloc: Global,
    writer: &mut PairWriter,
    name: &[u8],
    fields: &[FieldText<'_>],
) -> Result<(), OutOfMemory>
    ensures { OnOk result (writer.new ≡ put_all writer.old (param_pair name.now (first_value (application.param_field name.now) (shown_fields fields.now)))) }
{
    let field = param_field(alloc, name)?;
    match first_value(&field, fields) {
        Some(value) => writer.put(name, value),
        None => Ok(()),
    }
}

/// Puts the pairs of these names, in order.
pub(crate) fn put_params(
    alloc: Global,
    writer: &mut PairWriter,
    names: &ItemList<Bytes>,
    fields: &[FieldText<'_>],
) -> Result<(), OutOfMemory>
    ensures { OnOk result (writer.new ≡ put_all writer.old (param_pairs names.now (shown_fields fields.now))) }
{
    for at in 0..names.len() {
        put_param(alloc, writer, names.get(at).as_slice(), fields)?;
    }
    Ok(())
}

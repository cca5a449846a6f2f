//! The pairs of a request, in order (RFC 3875 section 4.1).
ghost use Rattle.std.specs.Prelude.{◌≡◌, ◌++◌, OnOk, IfOk, codes, option_map, [], ◌∷◌};
ghost use Rattle.uri_parts.specs.Lent.{shown};
ghost use Rattle.uri_parts.specs.Target.{target_parts};
ghost use Rattle.fcgi_lane.specs.Request.Texts.{shown_fields, shown_head};
ghost use Rattle.fcgi_model.specs.Pairs as pairs;
ghost use Rattle.fcgi_model.specs.Records.{put_all, params_of};

use crate::request::field_pairs::put_fields;
use crate::request::field_texts::{FieldText, first_value};
use crate::request::head_reading::HeadText;
use crate::request::packing::PairWriter;
use crate::request::param_pairs::put_params;
use crate::request::script::script_file;
use http_model::{Framing, OutOfMemory};
use px_bytes::write_decimal;
use px_link::Application;
use std::alloc::Global;
use uri_parts::{Parts, cut_target};

/// Puts the pairs of the call itself.
fn put_call(writer: &mut PairWriter, method: &[u8], target: &[u8]) -> Result<(), OutOfMemory>
    ensures { OnOk result (writer.new ≡ put_all writer.old (pairs.call_pairs method.now target.now)) }
{
    writer.put(b"GATEWAY_INTERFACE", b"CGI/1.1")?;
    writer.put(b"REQUEST_METHOD", method)?;
    writer.put(b"SERVER_PROTOCOL", b"HTTP/1.1")?;
    writer.put(b"REQUEST_URI", target)?;
    Ok(())
}

/// The path, or `/` in the place of one that is empty or `*`.
fn script_name(path: &[u8]) -> &[u8]
    ensures { result.now ≡ pairs.script_name path.now }
{
    if path.is_empty() || path == b"*".as_slice() {
        b"/"
    } else {
        path
    }
}

/// The query of a target; nothing where it has none.
fn query_of<'t>(parts: &Parts<'t>) -> &'t [u8]
    ensures { result.now ≡ pairs.query_of (shown parts.now).query }
{
    match parts.query {
        Some(query) => query,
        None => b"",
    }
}

/// Puts the pairs of the script that a target names.
fn put_script(
    alloc: Global,
    writer: &mut PairWriter,
    application: &Application,
    target: &[u8],
) -> Result<(), OutOfMemory>
    ensures { OnOk result (writer.new ≡ put_all writer.old (pairs.script_pairs application.now (target_parts target.now))) }
{
    let parts = cut_target(target);
    let root = application.root.as_slice();
    let file = script_file(alloc, application, script_name(parts.path))?;
    writer.put(b"SCRIPT_NAME", &file[root.len()..])?;
    writer.put(b"SCRIPT_FILENAME", &file)?;
    writer.put(b"DOCUMENT_ROOT", root)?;
    writer.put(b"QUERY_STRING", query_of(&parts))?;
    Ok(())
}

/// Puts the pair of the length of a body that has one.
fn put_length(writer: &mut PairWriter, framing: Framing) -> Result<(), OutOfMemory>
    ensures { OnOk result (writer.new ≡ put_all writer.old (pairs.length_pairs framing)) }
{
    match framing {
        Framing::Length(n) => {
            let mut digits = [0; 20];
            let len = write_decimal(n, &mut digits);
            writer.put(b"CONTENT_LENGTH", &digits[..len])?;
            Ok(())
        }
        Framing::Absent => Ok(()),
        Framing::Chunked => Ok(()),
        Framing::ToClose => Ok(()),
    }
}

/// Puts the pair of the type of a body, where a field tells it.
fn put_type(writer: &mut PairWriter, kind: Option<&[u8]>) -> Result<(), OutOfMemory>
    ensures { OnOk result (writer.new ≡ put_all writer.old (pairs.type_pairs (option_map (λ k. k.now) kind.entry))) }
{
    match kind {
        Some(kind) => writer.put(b"CONTENT_TYPE", kind),
        None => Ok(()),
    }
}

/// Puts the pairs of a head behind those of its request line.
fn put_rest(
    alloc: Global,
    writer: &mut PairWriter,
    fields: &[FieldText<'_>],
    framing: Framing,
) -> Result<(), OutOfMemory>
    ensures { OnOk result (writer.new ≡ put_all writer.old (pairs.rest_pairs (shown_fields fields.now) framing)) }
{
    put_length(writer, framing)?;
    put_type(writer, first_value(b"content-type", fields))?;
    put_fields(alloc, writer, fields)?;
    Ok(())
}

/// The records of the pairs of a request, with the empty one behind them; none where a pair is longer than a record can be.
pub(crate) fn params(
    alloc: Global,
    application: &Application,
    head: &HeadText<'_>,
    framing: Framing,
) -> Result<Option<Vec<u8>>, OutOfMemory>
    ensures { IfOk result (λ text. params_of (pairs.pairs_of application.now (shown_head head.now) framing) ≡ option_map (λ t. t.items) text) }
{
    let mut writer = PairWriter::new(alloc);
    put_call(&mut writer, head.method, head.target)?;
    put_script(alloc, &mut writer, application, head.target)?;
    put_rest(alloc, &mut writer, &head.fields, framing)?;
    put_params(alloc, &mut writer, &application.params, &head.fields)?;
    writer.finish()
}

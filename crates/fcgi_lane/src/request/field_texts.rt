//! Fields of a head, lent from its text, and found by their names.
ghost use Rattle.std.specs.Prelude.{◌≡◌, Some, None, IfSome, IsNone};
ghost use Rattle.http_model.specs.Fields.{has_field};
ghost use Rattle.fcgi_model.specs.Head.{first_value};
ghost use Rattle.fcgi_lane.specs.Request.Texts.{shown_field, shown_fields};

use px_bytes::eq_fold;

/// A field, lent from the text of a head.
#[derive(Clone, Copy)]
pub(crate) struct FieldText<'t> {
    pub name: &'t [u8],
    pub value: &'t [u8],
}

/// The value of the first field of this name.
pub(crate) fn first_value<'t>(name: &[u8], fields: &[FieldText<'t>]) -> Option<&'t [u8]>
    ensures some { IfSome result (λ v. first_value name.now (shown_fields fields.now) ≡ Some v.now) }
    ensures none { IsNone result → first_value name.now (shown_fields fields.now) ≡ None }
{
    for field in fields {
        if eq_fold(field.name, name) {
            return Some(field.value);
        }
    }
    None
}

/// Whether some field has this name.
pub(crate) fn has_field(name: &[u8], fields: &[FieldText<'_>]) -> bool
    ensures { result ≡ has_field name.now (shown_fields fields.now) }
{
    for field in fields {
        if eq_fold(field.name, name) {
            return true;
        }
    }
    false
}

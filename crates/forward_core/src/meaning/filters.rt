//! What a direction's filters say of a message before its body comes.
ghost use Rattle.std.specs.Prelude.{◌≡◌};
ghost use Rattle.forward_core.specs.Meaning.Product as spec;

use body_filter::FilterSpec;
use http_rules::Filters;

/// Whether a filter changes the length of a body.
fn is_replace(filter: &FilterSpec) -> bool
    ensures { result ≡ spec.is_replace filter.now }
{
    match filter {
        FilterSpec::Replace(_, _) => true,
        FilterSpec::Limit(_) | FilterSpec::Deny(_) => false,
    }
}

/// Whether some filter changes the length of a body: it is then sent in chunks, and no length is told.
pub fn replaces(filters: &Filters) -> bool
    ensures { result ≡ spec.replaces filters.now }
{
    for at in 0..filters.len() {
        if is_replace(filters.get(at)) {
            return true;
        }
    }
    false
}

/// Whether a filter decides that a length is within the limits or passes one.
fn decided_by(filter: &FilterSpec, length: u64) -> Option<bool>
    ensures { result ≡ spec.decided_by filter.now length }
{
    match filter {
        FilterSpec::Limit(most) => (*most < length).then_some(true),
        FilterSpec::Deny(_) => None,
        FilterSpec::Replace(_, _) => Some(false),
    }
}

/// Whether a length, in bytes, passes a limit that stands in front of any filter that replaces: the message is then refused
/// before its body is read.
pub fn passes_limit(filters: &Filters, length: u64) -> bool
    ensures { result ≡ spec.passes_limit filters.now length }
{
    for at in 0..filters.len() {
        if let Some(decided) = decided_by(filters.get(at), length) {
            return decided;
        }
    }
    false
}

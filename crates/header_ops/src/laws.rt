//! What the edits make of a head: the same edit of its fields.
ghost use Rattle.std.specs.Prelude.{◌≡◌, ℕ, List, map, filter, not};
ghost use Rattle.http_model.specs.Block.{Header};
ghost use Rattle.http_model.specs.Head.{Head, head_blocks};
ghost use Rattle.http_model.specs.Fields.{fields_named, without, without_each, set_field, add_field};
ghost use Rattle.http_model.specs.Finish.{framing_names};
ghost use Rattle.px_bytes.specs.Values.{values_in};
ghost use Rattle.header_ops.specs.Lists.{fulls_named, values_named};
ghost use Rattle.header_ops.specs.Matching.{is_field_matching, without_matching};
ghost use Rattle.header_ops.specs.declared.matching.NameMatch.{NameMatch};
ghost use Rattle.header_ops.specs.Headers.{without_headers, with_header, set_header, without_framing, HasEnd};

/// An edit of the blocks of a head is that edit of its fields.
pub fn edits_of_heads()
    ensures end { (head : Head) → HasEnd (head_blocks head) }
    ensures remove { (name : List ℕ) (head : Head) → without_headers name (head_blocks head) ≡ head_blocks (record head { fields = without name head.fields }) }
    ensures add { (name value : List ℕ) (head : Head) → with_header (Header name value) (head_blocks head) ≡ head_blocks (add_field name value head) }
    ensures set { (name value : List ℕ) (head : Head) → set_header name value (head_blocks head) ≡ head_blocks (set_field name value head) }
    ensures strip { (head : Head) → without_framing (head_blocks head) ≡ head_blocks (record head { fields = without_each framing_names head.fields }) }
{}

/// What the headers of a head are, by name, is what its fields are.
pub fn headers_of_heads()
    ensures fulls { (name : List ℕ) (head : Head) → fulls_named name (head_blocks head) ≡ map (λ field. field.1) (fields_named name head.fields) }
    ensures values { (name : List ℕ) (head : Head) → values_named name (head_blocks head) ≡ values_in (map (λ field. field.1) (fields_named name head.fields)) }
    ensures matching { (which : NameMatch) (head : Head) → without_matching which (head_blocks head) ≡ head_blocks (record head { fields = filter (λ field. not (is_field_matching which field)) head.fields }) }
{}

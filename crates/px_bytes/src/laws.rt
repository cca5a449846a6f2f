//! What the definitions say together.
ghost use Rattle.std.specs.Prelude.{◌≡◌, ◌≢◌, ◌+◌, ◌-◌, ◌<◌, ◌≤◌, ◌^◌, ℕ, List, [], ◌∷◌, ◌++◌, length, slice_index, map, All, Some, false};
ghost use Rattle.std.specs.List.{join_with_byte, AllPass};
ghost use Rattle.std.specs.Fmt.{decimal, digits};
ghost use Rattle.px_bytes.specs.Blanks.{is_blank, trimmed};
ghost use Rattle.px_bytes.specs.Numbers.{decimal_of, hex_of};
ghost use Rattle.px_bytes.specs.Values.{pieces_of, values_of, values_in, placed_values, value_at, IsClosed};

/// The pieces of a field, joined by commas, are the field again: nothing is lost and nothing is moved.
pub fn pieces_join()
    ensures { (bytes : List ℕ) → join_with_byte 44 (pieces_of bytes) ≡ bytes }
{}

/// What begins and ends with no blank is what is left of it between blanks.
pub fn trims()
    ensures { (front value behind : List ℕ) → AllPass is_blank front → AllPass is_blank behind → 0 < length value
        → is_blank (slice_index value 0) ≡ false → is_blank (slice_index value (length value - 1)) ≡ false
        → trimmed (front ++ (value ++ behind)) ≡ value }
{}

/// There is always a value, and at most one more than there are bytes.
pub fn some_values()
    ensures some { (bytes : List ℕ) → 1 ≤ length (values_of bytes) }
    ensures few { (bytes : List ℕ) → length (values_of bytes) ≤ length bytes + 1 }
{}

/// A field without a comma has one value, itself without the blanks around it.
pub fn one_value()
    ensures { (bytes : List ℕ) → All (λ b. b ≢ 44) bytes → values_of bytes ≡ trimmed bytes ∷ [] }
{}

/// Two fields of one name mean what one field with both texts and a comma between them means, where
/// each quote of the first is closed (RFC 9110, section 5.3).
pub fn joined_fields()
    ensures { (first second : List ℕ) → IsClosed first → values_of (first ++ 44 ∷ second) ≡ values_of first ++ values_of second }
{}

/// The values of fields are those of the first fields and then those of the others.
pub fn fields_in_turn()
    ensures { (first others : List (List ℕ)) → values_in (first ++ others) ≡ values_in first ++ values_in others }
{}

/// The values with their offsets are the values.
pub fn offsets_beside()
    ensures { (bytes : List ℕ) → map value_at (placed_values bytes) ≡ values_of bytes }
{}

/// What `write_decimal` wrote reads as the number, where as many digits are allowed.
pub fn decimal_read_back()
    ensures { (most n : ℕ) → 0 < most → n < 10 ^ most → n < 2 ^ 64 → decimal_of most (decimal n) ≡ Some n }
{}

/// What `write_hex` wrote reads as the number, where as many digits are allowed.
pub fn hex_read_back()
    ensures { (most n : ℕ) → 8 ≤ most → n < 2 ^ 32 → hex_of most (digits 16 false n) ≡ Some n }
{}

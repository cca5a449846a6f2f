//! What is known of headers, whoever reads or writes them.
ghost use Rattle.std.specs.Prelude.{◌≡◌, ◌++◌, ℕ, List, [], Option, Some, None};
ghost use Rattle.px_peer.specs.declared.Pair.{Pair};
ghost use Rattle.px_proxyproto.specs.Addresses.{IsPair};
ghost use Rattle.px_proxyproto.specs.Headers.{IsHeader};
ghost use Rattle.px_proxyproto.specs.Texts.{header_of};

/// No header is a front of another, and a header has one pair.
pub fn prefix_free()
    ensures { (bytes rest : List ℕ) (p q : Option Pair) → IsHeader bytes p → IsHeader (bytes ++ rest) q → (rest ≡ []) × (p ≡ q) }
{}

/// What is written of a pair, in either version, is a header with that pair.
pub fn pair_read_back()
    ensures { (version : ℕ) (pair : Pair) → IsPair pair → IsHeader (header_of version (Some pair)) (Some pair) }
{}

/// And without a pair it is a header that tells none.
pub fn none_read_back()
    ensures { (version : ℕ) → IsHeader (header_of version None) None }
{}

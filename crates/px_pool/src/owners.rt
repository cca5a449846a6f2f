//! Who has which core: where a connection's stands, where the first that is free stands, and how many are out.
ghost use Rattle.std.specs.Prelude.{◌≡◌, ◌↔◌, ◌<◌, Some, None, length, slice_index_or, slice_set, true, false, is_none, IfSome, IfNone};
ghost use Rattle.px_pool.specs.Owners.{is_of, has_one, place_of, first_free, all_out, one_out, count_out};

/// The place of the core that a connection has.
pub(crate) fn place_of(owners: &[Option<u32>], conn: u32) -> Option<usize>
    ensures some { IfSome result (λ place. (place ≡ place_of conn owners.now) × (has_one conn owners.now ≡ true) × (place < length owners.now)) }
    ensures none { IfNone result (has_one conn owners.now ≡ false) }
{
    let mut place = 0usize;
    for owner in owners {
        if is_of(owner, conn) {
            return Some(place);
        }
        place += 1;
    }
    None
}

/// Whether this is the owner of a core.
fn is_of(owner: &Option<u32>, conn: u32) -> bool
    ensures { result ≡ is_of conn owner.now }
{
    match owner {
        Some(number) => *number == conn,
        None => false,
    }
}

/// The place of the first core that nobody has.
pub(crate) fn first_free(owners: &[Option<u32>]) -> Option<usize>
    ensures some { IfSome result (λ place. (place ≡ first_free owners.now) × (all_out owners.now ≡ false) × (place < length owners.now)) }
    ensures none { IfNone result (all_out owners.now ≡ true) }
{
    let mut place = 0usize;
    for owner in owners {
        if is_free(owner) {
            return Some(place);
        }
        place += 1;
    }
    None
}

/// Nobody has it.
fn is_free(owner: &Option<u32>) -> bool
    ensures { result ≡ is_none owner.now }
{
    owner.is_none()
}

/// One where somebody has it.
fn one_out(owner: &Option<u32>) -> usize
    ensures { result ≡ one_out owner.now }
{
    match owner {
        Some(_) => 1,
        None => 0,
    }
}

/// How many cores somebody has.
pub(crate) fn count_out(owners: &[Option<u32>]) -> usize
    ensures { result ≡ count_out owners.now }
{
    let mut count = 0usize;
    for owner in owners {
        count += one_out(owner);
    }
    count
}

/// The place of the core of a connection that has one.
pub(crate) fn seat(owners: &[Option<u32>], conn: u32) -> usize
    requires { has_one conn owners.now ≡ true }
    ensures place { result ≡ place_of conn owners.now }
    ensures within { result < length owners.now }
{
    match place_of(owners, conn) {
        Some(place) => place,
        None => unreachable!(),
    }
}

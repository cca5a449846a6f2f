//! What the definitions say together.
ghost use Rattle.std.specs.Prelude.{◌≡◌, ◌<◌, ◌≤◌, List, ◌++◌, ℕ, false, length};
ghost use Rattle.std.specs.List.{list_any};
ghost use Rattle.http_model.specs.Sizes.{least_size};
ghost use Rattle.http_model.specs.declared.Limits.{Limits};
ghost use Rattle.http_model.specs.Reading.{HeadReading, Received, Refused, Begins};
ghost use Rattle.h1_head.specs.declared.answer.HeadWhy.{HeadWhy};
ghost use Rattle.h1_head.specs.declared.answer.Side.{Side};
ghost use Rattle.h1_head.specs.Received.{IsReceived};
ghost use Rattle.h1_head.specs.Sides.{kind_of};
ghost use Rattle.h1_head.specs.Stream.{behind, HeadOf, IsKnown};
ghost use Rattle.h1_head.specs.Decides.{MayWait, RefusesFor, is_line_feed};
ghost use Rattle.h1_head.specs.Scanned.{IsScanned};

/// A stream has one reading.
pub fn one_reading()
    ensures { (side : Side) → (limits : Limits) (stream : List ℕ) (r q : HeadReading) → HeadOf (kind_of side) limits stream r → HeadOf (kind_of side) limits stream q → r ≡ q }
{}

/// A head that a stream begins with stays, whatever follows.
pub fn head_stays()
    ensures { (side : Side) → (limits : Limits) (stream more : List ℕ) (got : Received) (rest : List ℕ) → HeadOf (kind_of side) limits stream (Begins got rest) → HeadOf (kind_of side) limits (stream ++ more) (Begins got (rest ++ more)) }
{}

/// A window of an open stream that is refused is refused alike, whatever follows.
pub fn refusal_stays()
    ensures { (side : Side) → (limits : Limits) (window more : List ℕ) (why : HeadWhy) → RefusesFor (kind_of side) limits false window why → HeadOf (kind_of side) limits (window ++ more) (Refused ((kind_of side).code why)) }
{}

/// Each head that a stream begins with has a start line of its kind, at most 256 fields, names of 1 to 255 bytes in
/// lower case, trimmed values without control bytes but tabs, and a load of at most `bufsize - maxrewrite`.
pub fn is_received()
    ensures { (side : Side) → (limits : Limits) (stream : List ℕ) (got : Received) (rest : List ℕ) → HeadOf (kind_of side) limits stream (Begins got rest) → IsReceived (kind_of side) limits got.head }
{}

/// Whether a head within the limits begins a text is decided, whatever the text is.
pub fn is_known()
    ensures { (side : Side) → (limits : Limits) (text : List ℕ) → IsKnown (kind_of side) limits text }
{}

/// Each stream has a reading: a head, a refusal, or nothing where it is empty lines alone.
pub fn some_reading()
    ensures { (side : Side) → (limits : Limits) (stream : List ℕ) → (r : HeadReading) × HeadOf (kind_of side) limits stream r }
{}

/// What is refused where no more may be asked for is refused whatever follows.
pub fn refused_where_full()
    ensures { (side : Side) → (limits : Limits) (window more : List ℕ) (code : ℕ) → least_size ≤ limits.bufsize
        → HeadOf (kind_of side) limits window (Refused code) → ¬ (MayWait (kind_of side) limits false window)
        → HeadOf (kind_of side) limits (window ++ more) (Refused code) }
{}

/// What follows a head is shorter than the stream.
pub fn has_bytes()
    ensures { (side : Side) → (limits : Limits) (stream : List ℕ) (got : Received) (rest : List ℕ) → HeadOf (kind_of side) limits stream (Begins got rest) → length rest < length stream }
{}

/// A window that may wait, and holds no empty line in front and no lone CR, may still wait where bytes without a line
/// feed join it, as long as there is room.
pub fn waits_on()
    ensures { (side : Side) → (limits : Limits) (window more : List ℕ) → MayWait (kind_of side) limits false window → behind window ≡ window → 2 ≤ length window
        → list_any is_line_feed more ≡ false → length (window ++ more) < limits.bufsize → MayWait (kind_of side) limits false (window ++ more) }
{}

/// Empty lines in front may be dropped before more bytes come or after.
pub fn drops_lines()
    ensures { (window more : List ℕ) → behind (behind window ++ more) ≡ behind (window ++ more) }
{}

/// What was looked at stays so where more bytes come, and nothing was looked at before the first look.
pub fn stays_scanned()
    ensures more { (side : Side) → (limits : Limits) (window more : List ℕ) (scanned : ℕ) → IsScanned (kind_of side) limits window scanned → IsScanned (kind_of side) limits (window ++ more) scanned }
    ensures none { (side : Side) → (limits : Limits) (window : List ℕ) → least_size ≤ limits.bufsize → IsScanned (kind_of side) limits window 0 }
{}

//! Laws of the framing, each the contract of a function that does nothing.
ghost use Rattle.std.specs.Prelude.{◌≡◌, ◌≢◌, ◌⊎◌, ℕ, ◌+◌, ◌<◌, ◌≤◌, List, ◌++◌, length, All};
ghost use Rattle.std.specs.List.{AllZip};
ghost use Rattle.arc_core.specs.declared.outside.Need.{Need};
ghost use Rattle.arc_core.specs.declared.outside.Need.TheVariants.{Block};
ghost use Rattle.arc_core.specs.Framing.{Whole, block_no_memory, line_too_long, IsSpan, IsRest, BeginsWith, Cuts};
ghost use Rattle.std.specs.Prelude.{MatchOption};
ghost use Rattle.frame_reader.specs.Progress.{Progress, StandsFor, ready_unit};
ghost use Rattle.frame_reader.specs.Cutting.{Agree, GoesOnTo, HasMemory};

/// A law: two cuts of the same bytes have the same rest and the same units one by one, but that a block for which
/// there was no memory may stand in place of the line with its block or with its bad chunk.
pub fn cuts_agree()
    ensures { (needs : List ℕ → Need) (bytes : List ℕ) (units others : List Whole) (rest other : List ℕ)
        → Cuts needs bytes units rest → Cuts needs bytes others other → AllZip Agree units others × (rest ≡ other) }
{}

/// A law: where the same bytes begin with these units and with the others, the ones go on to the others, or the others
/// to the ones: they agree one by one as far as the fewer go, and behind those stand the units that the more have left.
pub fn beginnings_agree()
    ensures { (needs : List ℕ → Need) (bytes : List ℕ) (units : List Whole) (tail : List ℕ) (others : List Whole) (rest : List ℕ)
        → BeginsWith needs bytes units tail → BeginsWith needs bytes others rest
        → GoesOnTo needs units tail others rest ⊎ GoesOnTo needs others rest units tail }
{}

/// A law: units that agree one by one are equal, where no block among them lacked memory.
pub fn units_differ_by_memory()
    ensures { (units others : List Whole) → AllZip Agree units others → All HasMemory units → All HasMemory others
        → units ≡ others }
{}

/// A law: the span of a unit is not empty.
pub fn spans_are_not_empty()
    ensures { (needs : List ℕ → Need) (span : List ℕ) (unit : Whole) → IsSpan needs span unit → 0 < length span }
{}

/// A law: a block for which there was no memory has more than 131,072 bytes with its CR LF, and is within its limit.
pub fn small_blocks_are_kept()
    ensures { (needs : List ℕ → Need) (span text : List ℕ) (len limit : ℕ)
        → IsSpan needs span (block_no_memory text) → needs text ≡ Block len limit
        → (131072 < len + 2) × (len ≤ limit) }
{}

/// A law: an unfinished unit begins with no whole one.
pub fn rest_begins_with_no_unit()
    ensures { (needs : List ℕ → Need) (rest span more : List ℕ) (unit : Whole)
        → IsRest needs rest → rest ≡ span ++ more → IsSpan needs span unit → ⊥ }
{}

/// A law: any bytes are cut into units and a rest.
pub fn any_bytes_are_cut()
    ensures { (needs : List ℕ → Need) (bytes : List ℕ)
        → (units : List Whole) × (rest : List ℕ) × Cuts needs bytes units rest }
{}

/// A law: bytes that come later stand behind the tail, and change no unit before it.
pub fn units_stay()
    ensures { (needs : List ℕ → Need) (bytes : List ℕ) (units : List Whole) (tail more : List ℕ)
        → BeginsWith needs bytes units tail → BeginsWith needs (bytes ++ more) units (tail ++ more) }
{}

/// A law: units of the tail stand behind the units before it.
pub fn units_follow()
    ensures { (needs : List ℕ → Need) (bytes : List ℕ) (units later : List Whole) (tail rest : List ℕ)
        → BeginsWith needs bytes units tail → BeginsWith needs tail later rest
        → BeginsWith needs bytes (units ++ later) rest }
{}

/// A law: where no unit is too long a line, a cut of the tail behind the units makes a cut of the whole.
pub fn cut_follows()
    ensures { (needs : List ℕ → Need) (bytes : List ℕ) (units later : List Whole) (tail rest : List ℕ)
        → BeginsWith needs bytes units tail → All (λ unit. unit ≢ line_too_long) units
        → Cuts needs tail later rest → Cuts needs bytes (units ++ later) rest }
{}

/// A law: the bytes that a reader has taken of its unit are the span of the unit that is ready, or, where none is, an
/// unfinished unit.
pub fn reader_stands_for_a_unit()
    ensures { (needs : List ℕ → Need) (progress : Progress) (bytes : List ℕ) → StandsFor needs progress bytes
        → MatchOption (ready_unit progress) (IsRest needs bytes) (λ unit. IsSpan needs bytes unit) }
{}

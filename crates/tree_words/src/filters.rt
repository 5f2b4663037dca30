//! Filters on element flags as words of a line. (The ARCUS protocol; the limits are this server's own.)
ghost use Rattle.std.specs.Prelude.{◌≡◌, ◌==◌, Some, length, option_map};
ghost use Rattle.arc_core.specs.Rows.{one, part_read, or_left_out};
ghost use Rattle.tree_words.specs.Reading.{filter_read, values_read};
ghost use Rattle.tree_words.specs.TreeGrammar.{bits_part, bitop_word, compop_word, filter_begin, fits_operand, fvalues_word, fwhere_word, may_have, takes_number};
ghost use Rattle.arc_core.specs.HexText.{first_of};

use crate::ranges::next_eflag;
use arc_core::{BitOp, CompOp, Eflag, Filter, FlagWords, WordIter};

/// The last place in a flag.
const MAX_FWHERE: u64 = 30;

/// Takes the next word if it is a place in a flag: 0 to 30.
pub fn next_fwhere(words: &mut WordIter<'_>) -> Option<u8>
    ensures { part_read (one fwhere_word) words.old ≡ option_map (λ place. (place, words.new)) result }
{
    let place = words.next_number(MAX_FWHERE)?;
    Some(place as u8)
}

/// Reads `[<fwhere> [<bitwop> <foperand>] <compop> <fvalue>[,<fvalue>..]]`, and hands out the words behind.
///
/// `None` comes where a place, perhaps an operand, and a comparison stand there, and no values that go with them.
pub fn filter(words: WordIter<'_>) -> Option<(Option<Filter<'_>>, WordIter<'_>)>
    ensures { result ≡ filter_read words.entry }
{
    match begin(WordIter::of(words.text())) {
        Some((begun, behind)) => values_behind(begun, behind),
        None => Some((None, words)),
    }
}

// What stands before a filter's values: the place, the operand and the comparison.
type Begin = (u8, (Option<(BitOp, Eflag)>, CompOp));

// The filter that was begun so, with the values that stand in front, and the words behind.
fn values_behind(
    begun: Begin,
    mut words: WordIter<'_>,
) -> Option<(Option<Filter<'_>>, WordIter<'_>)>
    ensures { result ≡ values_read (Some begun) words.entry }
{
    let (fwhere, (bits, comp)) = begun;
    let values = next_values(&mut words, &bits, comp)?;
    let filter = Filter {
        fwhere,
        bits,
        comp,
        values,
    };
    Some((Some(filter), words))
}

// Reads `<fwhere> [<bitwop> <foperand>] <compop>`, and hands out the words behind.
fn begin(mut words: WordIter<'_>) -> Option<(Begin, WordIter<'_>)>
    ensures { result ≡ part_read filter_begin words.entry }
{
    let fwhere = next_fwhere(&mut words)?;
    let (bits, mut words) = optional_bits(words);
    let comp = compop(words.next()?)?;
    Some(((fwhere, (bits, comp)), words))
}

// Reads `[<bitwop> <foperand>]`: both, where they are there, and the words behind.
fn optional_bits(words: WordIter<'_>) -> (Option<(BitOp, Eflag)>, WordIter<'_>)
    ensures { result ≡ or_left_out words.entry (part_read bits_part words.entry) }
{
    match bits(WordIter::of(words.text())) {
        Some((bits, behind)) => (Some(bits), behind),
        None => (None, words),
    }
}

/// Reads `<bitwop> <foperand>`, and hands out the words behind.
pub fn bits(mut words: WordIter<'_>) -> Option<((BitOp, Eflag), WordIter<'_>)>
    ensures { result ≡ part_read bits_part words.entry }
{
    let op = bitop(words.next()?)?;
    let operand = next_eflag(&mut words)?;
    Some(((op, operand), words))
}

// Reads a word as `&`, `|` or `^`.
#[tactic(auto, unfolding(crate::specs::TreeGrammar::bitop_word))]
fn bitop(word: &[u8]) -> Option<BitOp>
    ensures { result ≡ bitop_word word.now }
{
    if word == b"&".as_slice() {
        return Some(BitOp::And);
    }
    if word == b"|".as_slice() {
        return Some(BitOp::Or);
    }
    if word == b"^".as_slice() {
        return Some(BitOp::Xor);
    }
    None
}

// Reads a word as `EQ`, `NE`, `LT`, `LE`, `GT` or `GE`.
#[tactic(auto, unfolding(crate::specs::TreeGrammar::compop_word))]
fn compop(word: &[u8]) -> Option<CompOp>
    ensures { result ≡ compop_word word.now }
{
    if word == b"EQ".as_slice() {
        return Some(CompOp::Eq);
    }
    if word == b"NE".as_slice() {
        return Some(CompOp::Ne);
    }
    if word == b"LT".as_slice() {
        return Some(CompOp::Lt);
    }
    if word == b"LE".as_slice() {
        return Some(CompOp::Le);
    }
    if word == b"GT".as_slice() {
        return Some(CompOp::Gt);
    }
    if word == b"GE".as_slice() {
        return Some(CompOp::Ge);
    }
    None
}

// Takes the next word if it is values of a filter with this operand and this comparison.
#[tactic(auto, unfolding(crate::specs::TreeGrammar::fvalues_word))]
fn next_values<'a>(
    words: &mut WordIter<'a>,
    bits: &Option<(BitOp, Eflag)>,
    comp: CompOp,
) -> Option<FlagWords<'a>>
    ensures { part_read (one (fvalues_word bits.now comp)) words.old ≡ option_map (λ values. (values, words.new)) result }
{
    let values = FlagWords::read(words.next()?)?;
    if may_have(bits, comp, &values) {
        Some(values)
    } else {
        None
    }
}

// Whether a filter with this operand and this comparison may have these values.
fn may_have(bits: &Option<(BitOp, Eflag)>, comp: CompOp, values: &FlagWords<'_>) -> bool
    ensures { result ≡ may_have bits.now comp values.now }
{
    takes_number(comp, values) && fits_operand(bits, values)
}

// Whether so many values are compared with: any number of them for equality, and one for order.
fn takes_number(comp: CompOp, values: &FlagWords<'_>) -> bool
    ensures { result ≡ takes_number comp (length values.now) }
{
    match comp {
        CompOp::Eq | CompOp::Ne => true,
        CompOp::Lt | CompOp::Le | CompOp::Gt | CompOp::Ge => is_single(values),
    }
}

// Whether there is one value alone.
fn is_single(values: &FlagWords<'_>) -> bool
    ensures { result ≡ (length values.now == 1) }
{
    let mut flags = values.iter();
    flags.next().is_some() && flags.next().is_none()
}

// Whether an operand, where there is one, is as long as a value.
fn fits_operand(bits: &Option<(BitOp, Eflag)>, values: &FlagWords<'_>) -> bool
    ensures { result ≡ fits_operand bits.now (first_of values.now) }
{
    match bits {
        Some((_, operand)) => operand.bytes().len() == values.first().bytes().len(),
        None => true,
    }
}

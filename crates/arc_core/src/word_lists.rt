//! The words of a line or block, read where they lie.
ghost use Rattle.std.specs.Prelude.{◌≡◌, ◌<◌, ◌≤◌, ◌+◌, ◌==◌, List, ℕ, [], ◌∷◌, length, nat_le, position, MatchOption, IfSome, Some, None, option_map};
ghost use Rattle.std.specs.List.{list_all, position_or_len};
ghost use Rattle.std.specs.Option.{IfNone};
ghost use Rattle.std.specs.Iterator.{YieldsFirst, YieldsFirstRef, item_count};
ghost use Rattle.arc_core.specs.Rows.{one, part_read};
ghost use Rattle.arc_core.specs.Words.{AreKeys, is_space, is_other, words, key_word, number_below, key_count, at_most_keys, keys_counted, fields_counted, keys_up_to};

use crate::keys::key_len;
use crate::numbers::front_number;
use crate::{KeyRef, MAX_FIELD_BYTES, MAX_KEY_BYTES, read_number};
use std::marker::Model;

/// The first word of a text, and the text behind it; `None` where the text has no word.
///
/// Words are separated by spaces, however many.
pub fn first_word(text: &[u8]) -> Option<(&[u8], &[u8])>
    ensures words { MatchOption result (words text.now ≡ [])
        (λ split. words text.now ≡ split.0.now ∷ words split.1.now) }
    ensures shorter { IfSome result (λ split. length split.1.now < length text.now) }
{
    let (_, text) = text.split_at(first_other(text)?);
    let word_len = first_space(text).unwrap_or(text.len());
    Some(text.split_at(word_len))
}

// The place of the first byte other than the space.
fn first_other(text: &[u8]) -> Option<usize>
    ensures { result ≡ position is_other text.now }
{
    text.iter().position(|byte| *byte != b' ')
}

// The place of the first space.
fn first_space(text: &[u8]) -> Option<usize>
    ensures { result ≡ position is_space text.now }
{
    text.iter().position(|byte| *byte == b' ')
}

/// The words of a text of at most 65,536 bytes. Contracts see the list of them.
#[derive(Drop)]
pub struct Words<'a> {
    text: &'a [u8],
}

impl<'a> Model for Words<'a> {
    ghost use Rattle.std.specs.Prelude.{List, ℕ, ◌≤◌, length};
    ghost use Rattle.arc_core.specs.Words.{words};

    ghost Value = { List (List ℕ) };

    ghost view = { λ list. words list.text.now };

    ghost invariant = { λ list. length list.text.now ≤ 65536 };
}

impl<'a> Words<'a> {
    /// The words of the text. Takes no memory.
    pub fn of(text: &'a [u8]) -> Words<'a>
        requires { length text.now ≤ 65536 }
        ensures { result ≡ words text.now }
    {
        Words { text }
    }

    /// How many words there are.
    pub fn count(&self) -> u32
        ensures { result ≡ length self.now }
    {
        let mut count = 0;
        let mut left = self.text;
        while let Some((_, behind)) = first_word(left) {
            count += 1;
            left = behind;
        }
        count
    }

    /// The words in order.
    pub fn iter(&self) -> WordIter<'a>
        ensures { result ≡ self.now }
    {
        WordIter::of(self.text)
    }
}

/// The words of a text, one after another. Contracts see the list of those that are left.
#[derive(Drop)]
pub struct WordIter<'a> {
    text: &'a [u8],
}

impl<'a> Model for WordIter<'a> {
    ghost use Rattle.std.specs.Prelude.{List, ℕ};
    ghost use Rattle.arc_core.specs.Words.{words};

    ghost Value = { List (List ℕ) };

    ghost view = { λ left. words left.text.now };
}

impl<'a> WordIter<'a> {
    /// The words of the text. Takes no memory.
    pub fn of(text: &'a [u8]) -> WordIter<'a>
        ensures { result ≡ words text.now }
    {
        WordIter { text }
    }

    /// A text that has the words that are left, and no other.
    pub fn text(&self) -> &'a [u8]
        ensures { words result.now ≡ self.now }
    {
        self.text
    }

    /// Whether no word is left.
    pub fn is_empty(&self) -> bool
        ensures { result ≡ (length self.now == 0) }
    {
        first_word(self.text).is_none()
    }

    /// Takes the next word if it is a key. Where it is none, or no word is left, nothing is taken.
    pub fn next_key(&mut self) -> Option<KeyRef<'a>>
        ensures read { part_read (one key_word) self.old ≡ option_map (λ key. (key, self.new)) result }
        ensures kept { IfNone result (self.new ≡ self.old) }
    {
        let (key, behind) = first_key(self.text)?;
        self.text = behind;
        Some(key)
    }

    /// Takes the next word if it is a number of at most `most`, of 1 to 20 decimal digits. Where it is none, or no word
    /// is left, nothing is taken.
    pub fn next_number(&mut self, most: u64) -> Option<u64>
        ensures read { part_read (one (number_below (most + 1))) self.old ≡ option_map (λ n. (n, self.new)) result }
        ensures kept { IfNone result (self.new ≡ self.old) }
        ensures fits { IfSome result (λ n. n ≤ most) }
    {
        let (number, behind) = first_number(self.text, most)?;
        self.text = behind;
        Some(number)
    }
}

impl<'a> Iterator for WordIter<'a> {
    type Item = &'a [u8];

    ghost next_gives = { YieldsFirstRef (λ left. left) };

    ghost remaining = { item_count (λ left. left) };

    fn next(&mut self) -> Option<&'a [u8]> {
        let (word, behind) = first_word(self.text)?;
        self.text = behind;
        Some(word)
    }
}

// The first word of a text as a key, and the text behind it. The word ends where its first byte is that no key has.
fn first_key(text: &[u8]) -> Option<(KeyRef<'_>, &[u8])>
    ensures { option_map (λ read. (read.0, words read.1.now)) result ≡ part_read (one key_word) (words text.now) }
{
    let (_, text) = text.split_at(first_other(text)?);
    let len = key_len(text);
    let (key, behind) = text.split_at(len);
    if len <= MAX_KEY_BYTES && ends_word(behind) {
        Some((KeyRef::of(key), behind))
    } else {
        None
    }
}

// The first word of a text as a number, and the text behind it. (Nearly all numbers have few digits.)
fn first_number(text: &[u8], most: u64) -> Option<(u64, &[u8])>
    ensures read { option_map (λ read. (read.0, words read.1.now)) result ≡ part_read (one (number_below (most + 1))) (words text.now) }
    ensures fits { IfSome result (λ read. read.0 ≤ most) }
{
    let (_, word) = text.split_at(first_other(text)?);
    let (number, len) = front_number(word);
    let (_, behind) = word.split_at(len);
    if ends_word(behind) {
        if number <= most {
            Some((number, behind))
        } else {
            None
        }
    } else {
        first_long_number(text, most)
    }
}

// The same, where the word is more than its first digits.
fn first_long_number(text: &[u8], most: u64) -> Option<(u64, &[u8])>
    ensures read { option_map (λ read. (read.0, words read.1.now)) result ≡ part_read (one (number_below (most + 1))) (words text.now) }
    ensures fits { IfSome result (λ read. read.0 ≤ most) }
{
    let (word, behind) = first_word(text)?;
    let number = read_number(word, most)?;
    Some((number, behind))
}

// Whether what stands behind bytes of a word is none of them: it begins with a space, or is empty.
fn ends_word(behind: &[u8]) -> bool
    ensures { result ≡ position_or_len is_space behind.now == 0 }
{
    match behind {
        [] => true,
        [first, ..] => *first == b' ',
    }
}

/// Keys that stand in a line or block, separated by spaces. Contracts see the list of them, in order.
#[derive(Drop)]
pub struct KeyWords<'a> {
    // The first key, so that a single one is not looked for again.
    first: Option<&'a [u8]>,
    behind: &'a [u8],
    count: u32,
}

impl<'a> Model for KeyWords<'a> {
    ghost use Rattle.std.specs.Prelude.{◌≡◌, List, ℕ, length};
    ghost use Rattle.arc_core.specs.Words.{words_from, AreKeys};

    ghost Value = { List (List ℕ) };

    ghost view = { λ keys. words_from keys.first keys.behind.now };

    ghost invariant = { λ keys. AreKeys (words_from keys.first keys.behind.now) × (keys.count ≡ length (words_from keys.first keys.behind.now)) };
}

impl<'a> KeyWords<'a> {
    /// Reads a block as so many keys.
    ///
    /// `None` comes exactly where the block's words are not that number, or one of them is no key. Takes no memory.
    pub fn read(block: &'a [u8], number: u32) -> Option<KeyWords<'a>>
        ensures { result ≡ keys_counted number (words block.now) }
    {
        let keys = keys_within(block, number)?;
        if keys.count() == number {
            Some(keys)
        } else {
            None
        }
    }

    /// Reads a block as so many fields of a map.
    ///
    /// `None` comes exactly where the block's words are not that number, or one of them is no key or has more than 250
    /// bytes. Takes no memory.
    pub fn fields(block: &'a [u8], number: u32) -> Option<KeyWords<'a>>
        ensures { result ≡ fields_counted number (words block.now) }
    {
        let fields = KeyWords::read(block, number)?;
        if are_short(&fields) {
            Some(fields)
        } else {
            None
        }
    }

    /// Reads a text as 1 to `most` keys.
    ///
    /// `None` comes exactly where the text has no word or more of them, or one of them is no key. Takes no memory.
    pub fn up_to(text: &'a [u8], most: u32) -> Option<KeyWords<'a>>
        ensures { result ≡ keys_up_to most (words text.now) }
    {
        let keys = keys_within(text, most)?;
        if keys.count() == 0 { None } else { Some(keys) }
    }

    /// How many keys there are.
    pub fn count(&self) -> u32
        ensures number { result ≡ length self.now }
        ensures keys { AreKeys self.now }
    {
        self.count
    }

    /// The keys in order.
    pub fn iter(&self) -> KeyIter<'a>
        ensures { result ≡ self.now }
    {
        KeyIter {
            first: self.first,
            words: WordIter::of(self.behind),
        }
    }
}

// Whether each key is short enough for a field.
fn are_short(keys: &KeyWords<'_>) -> bool
    ensures { result ≡ list_all (λ key. nat_le (length key) 250) keys.now }
{
    for key in keys.iter() {
        if key.bytes().len() > MAX_FIELD_BYTES {
            return false;
        }
    }
    true
}

// The words of a text, where there are at most so many and each is a key.
fn keys_within(text: &[u8], most: u32) -> Option<KeyWords<'_>>
    ensures { result ≡ at_most_keys most (words text.now) }
{
    let mut words = WordIter::of(text);
    let Some(first) = words.next_key() else {
        return words.is_empty().then_some(KeyWords {
            first: None,
            behind: &[],
            count: 0,
        });
    };
    if most == 0 {
        return None;
    }
    let behind = words.text();
    let more = count_keys(words, most - 1)?;
    Some(KeyWords {
        first: Some(first.bytes()),
        behind,
        count: 1 + more,
    })
}

// How many words are left, where there are at most so many and each is a key.
fn count_keys(mut words: WordIter<'_>, most: u32) -> Option<u32>
    ensures { result ≡ key_count most words.entry }
{
    for count in 0..most {
        let Some(_) = words.next_key() else {
            return words.is_empty().then_some(count);
        };
    }
    words.is_empty().then_some(most)
}

/// Keys of a line or block, one after another. Contracts see the list of those that are left.
#[derive(Drop)]
pub struct KeyIter<'a> {
    first: Option<&'a [u8]>,
    words: WordIter<'a>,
}

impl<'a> Model for KeyIter<'a> {
    ghost use Rattle.std.specs.Prelude.{List, ℕ};
    ghost use Rattle.arc_core.specs.Words.{AreKeys, words_left};

    ghost Value = { List (List ℕ) };

    ghost view = { λ keys. words_left keys.first keys.words };

    ghost invariant = { λ keys. AreKeys (words_left keys.first keys.words) };
}

impl<'a> Iterator for KeyIter<'a> {
    type Item = KeyRef<'a>;

    ghost next_gives = { YieldsFirst (λ left. left) };

    ghost remaining = { item_count (λ left. left) };

    fn next(&mut self) -> Option<KeyRef<'a>> {
        match self.first.take() {
            Some(first) => Some(KeyRef::of(first)),
            None => self.words.next().map(KeyRef::of),
        }
    }
}

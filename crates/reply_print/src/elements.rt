//! The texts of a collection's elements.
ghost use Rattle.std.specs.Prelude.{◌≡◌, ◌+◌, ◌≤◌, ◌-◌, ◌^◌, min, [], ◌++◌, length, OnOk};
ghost use Rattle.std.specs.List.{flat_map};
ghost use Rattle.arc_core.specs.Outside.{linked};
ghost use Rattle.arc_core.specs.ReplyText.{element_text, elements_text};
ghost use Rattle.reply_print.specs.Parts.{field_text, name_rest, flag_part, element_front, element_pieces};
ghost use Rattle.reply_print.specs.Reaching.{PutsOut};
ghost use Rattle.reply_print.specs.Waiting.{IsPut, IsPutInPart};

use crate::gatherer::Gatherer;
use crate::line_from_end::LineFromEnd;
use crate::lines::{LINE_END, elements_line_of, tail_line};
use crate::outbox::Outbox;
use crate::sending::Unsent;
use arc_core::{Bkey, Eflag, Link, Row, RowName, Tail};

/// The most bytes of an element's text but its field, its value and its line end: a bkey and a flag of 64 bytes each, a
/// length of 20, and a space behind each of them.
pub(crate) const FRONT_BYTES: usize = 151;

/// What stands in an element's text between its field and its value.
type Front = LineFromEnd<FRONT_BYTES>;

/// How many bytes the answer has, or the largest number where they are more.
pub(crate) fn elements_len(flags: u32, rows: &[Row], tail: Tail) -> u64
    ensures { result ≡ min (length (elements_text flags rows.now tail)) (2 ^ 64 - 1) }
{
    let around = elements_line_of(flags, rows.len()).bytes().len() + tail_line(tail).len();
    rows_len(rows).saturating_add(around as u64)
}

// How many bytes the texts of the elements have, or the largest number where they are more.
fn rows_len(rows: &[Row]) -> u64
    ensures { result ≡ min (length (flat_map element_text rows.now)) (2 ^ 64 - 1) }
{
    let mut len: u64 = 0;
    for row in rows {
        len = len.saturating_add(row_len(row));
    }
    len
}

// How many bytes the text of the element has, or the largest number where they are more.
#[tactic(auto, using(crate::proofs::Pieces::element_len))]
fn row_len(row: &Row) -> u64
    ensures { result ≡ min (length (element_text row.now)) (2 ^ 64 - 1) }
{
    let mut front = LineFromEnd::new();
    write_front(row, &mut front);
    let around = field_of(row).len() + front.bytes().len() + LINE_END.len();
    (row.value.bytes().len() as u64).saturating_add(around as u64)
}

/// Puts elements behind all that waits, up to the first that has no room.
pub(crate) fn add_elements(rows: &[Row], outbox: &mut Outbox) -> bool
    ensures { IsPutInPart outbox.old outbox.new (flat_map element_text rows.now) result }
{
    let mut front = LineFromEnd::new();
    for row in rows {
        if !add_row(row, &mut front, outbox) {
            return false;
        }
    }
    true
}

// Puts an element behind all that waits. Its front is written into `front`.
#[tactic(auto, using(crate::proofs::Pieces::element_parts))]
fn add_row(row: &Row, front: &mut Front, outbox: &mut Outbox) -> bool
    ensures { IsPut outbox.old outbox.new (element_text row.now) result }
{
    write_front(row, front);
    outbox.add_line(field_of(row), front.bytes(), row.value.bytes())
}

/// Puts out the elements and the lines around them.
pub(crate) fn put_elements<L: Link>(
    gatherer: &mut Gatherer,
    flags: u32,
    rows: &[Row],
    tail: Tail,
    link: &mut L,
) -> Result<(), Unsent>
    ensures { PutsOut
        (linked (L.left link.old) (L.read_faults link.old) (L.sent link.old) (L.write_faults link.old)
        (L.refusals link.old) (L.agains link.old))
        (linked (L.left link.new) (L.read_faults link.new) (L.sent link.new) (L.write_faults link.new)
        (L.refusals link.new) (L.agains link.new))
        gatherer.old gatherer.new (elements_text flags rows.now tail) result }
{
    gatherer.put(elements_line_of(flags, rows.len()).bytes(), link)?;
    put_rows(gatherer, rows, link)?;
    gatherer.put(tail_line(tail), link)
}

// Puts out the elements.
fn put_rows<L: Link>(gatherer: &mut Gatherer, rows: &[Row], link: &mut L) -> Result<(), Unsent>
    ensures { PutsOut
        (linked (L.left link.old) (L.read_faults link.old) (L.sent link.old) (L.write_faults link.old)
        (L.refusals link.old) (L.agains link.old))
        (linked (L.left link.new) (L.read_faults link.new) (L.sent link.new) (L.write_faults link.new)
        (L.refusals link.new) (L.agains link.new))
        gatherer.old gatherer.new (flat_map element_text rows.now) result }
{
    let mut front = LineFromEnd::new();
    for row in rows {
        put_row(gatherer, row, &mut front, link)?;
    }
    Ok(())
}

// Puts out an element. Its front is written into `front`.
fn put_row<L: Link>(
    gatherer: &mut Gatherer,
    row: &Row,
    front: &mut Front,
    link: &mut L,
) -> Result<(), Unsent>
    ensures { PutsOut
        (linked (L.left link.old) (L.read_faults link.old) (L.sent link.old) (L.write_faults link.old)
        (L.refusals link.old) (L.agains link.old))
        (linked (L.left link.new) (L.read_faults link.new) (L.sent link.new) (L.write_faults link.new)
        (L.refusals link.new) (L.agains link.new))
        gatherer.old gatherer.new (element_text row.now) result }
{
    write_front(row, front);
    put_pieces(
        gatherer,
        field_of(row),
        front.bytes(),
        row.value.bytes(),
        link,
    )
}

// Puts out the pieces of an element's line.
fn put_pieces<L: Link>(
    gatherer: &mut Gatherer,
    field: &[u8],
    front: &[u8],
    value: &[u8],
    link: &mut L,
) -> Result<(), Unsent>
    ensures { PutsOut
        (linked (L.left link.old) (L.read_faults link.old) (L.sent link.old) (L.write_faults link.old)
        (L.refusals link.old) (L.agains link.old))
        (linked (L.left link.new) (L.read_faults link.new) (L.sent link.new) (L.write_faults link.new)
        (L.refusals link.new) (L.agains link.new))
        gatherer.old gatherer.new (element_pieces field.now front.now value.now) result }
{
    gatherer.put(field, link)?;
    gatherer.put(front, link)?;
    gatherer.put(value, link)?;
    gatherer.put(LINE_END, link)
}

// The field of an element; nothing where it has none.
fn field_of(row: &Row) -> &[u8]
    ensures bytes { result.now ≡ field_text row.now.name }
    ensures fits { length result.now ≤ 16000 }
{
    match &row.name {
        RowName::Field(field) => field.bytes(),
        RowName::Plain | RowName::At(_) => &[],
    }
}

// Writes what stands in an element's text between its field and its value, in place of what was written.
fn write_front(row: &Row, front: &mut Front)
    ensures { front.new ≡ element_front row.now }
{
    front.clear();
    front.put(b" ");
    front.put_number(row.value.bytes().len() as u64);
    put_flag(front, &row.eflag);
    put_name(front, &row.name);
}

// Puts a flag and a space in front, where there is one.
fn put_flag(front: &mut Front, eflag: &Option<Eflag>)
    requires { length front.old + 65 ≤ 151 }
    ensures line { front.new ≡ flag_part eflag.now ++ front.old }
    ensures len { length front.new ≤ length front.old + 65 }
{
    if let Some(eflag) = eflag {
        front.put(b" ");
        front.put_hex(eflag.bytes());
    }
}

// Puts what a name has behind its field in front.
fn put_name(front: &mut Front, name: &RowName)
    requires { length front.old + 65 ≤ 151 }
    ensures { front.new ≡ name_rest name.now ++ front.old }
{
    match name {
        RowName::Plain => {}
        RowName::Field(_) => front.put(b" "),
        RowName::At(bkey) => {
            front.put(b" ");
            match bkey {
                Bkey::Number(number) => front.put_number(*number),
                Bkey::Bytes(bytes) => front.put_hex(bytes.bytes()),
            }
        }
    }
}

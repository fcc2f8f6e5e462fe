//! Reading the first piece of a part, as far as one may go on so.
ghost use Rattle.std.specs.Prelude.{◌≡◌, ◌≤◌, ◌<◌, ◌⊎◌, ◌^◌, [], true, length};
ghost use Rattle.ab_cert.specs.Tables.{value_at};
ghost use Rattle.ab_cert.specs.Grammar.{lead_of as lead_of_part, names, mark_or_name, numbers, words, is_front, IsFarthest, IsScan};
ghost use Rattle.ab_cert.specs.Leads.{behind, kids_meant, parts_found, table_of};

use crate::count::Count;
use crate::part::{Behind, Lead, Part, lead_of};
use crate::scans::{is_next, scan_name, scan_number};

/// The parts that follow a piece.
#[derive(Clone, Copy)]
pub(crate) enum Kids {
    Fixed(&'static [Part]),
    /// As a number says.
    ByNumber(Behind, u128),
}

/// How far a piece goes, and what follows it where it is whole.
#[derive(Clone, Copy)]
pub(crate) struct Scan {
    pub to: usize,
    pub kids: Option<Kids>,
}

/// What a table lists for a word.
fn look_up(table: &[(&[u8], &'static [Part])], word: &[u8]) -> Option<&'static [Part]>
    ensures { parts_found result ≡ value_at (table_of table.now) word.now }
{
    for (known, meaning) in table {
        if *known == word {
            return Some(*meaning);
        }
    }
    None
}

/// Whether a word of the table begins so.
fn begins_word(table: &[(&[u8], &[Part])], front: &[u8]) -> bool
    ensures { result ≡ is_front (table_of table.now) front.now }
{
    for (known, _) in table {
        if known.starts_with(front) {
            return true;
        }
    }
    false
}

/// How far the words of a table go.
fn scan_word(table: &[(&[u8], &[Part])], bytes: &[u8], start: usize) -> usize
    requires start { start ≤ length bytes.now }
    requires some { is_front (table_of table.now) [] ≡ true }
    ensures { IsFarthest (table_of table.now) bytes.now start result }
{
    let mut to = start;
    'word: while to < bytes.len() {
        if !begins_word(table, &bytes[start..to + 1]) {
            return to;
        }
        to += 1;
    }
    to
}

/// Tries the words of a table.
fn try_words(table: &'static [(&'static [u8], &'static [Part])], bytes: &[u8], start: usize) -> Scan
    requires start { start ≤ length bytes.now }
    requires some { is_front (table_of table.now) [] ≡ true }
    ensures { IsScan (words (table_of table.now)) bytes.now start result.to (kids_meant result.kids) }
{
    let to = scan_word(table, bytes, start);
    let kids = match look_up(table, &bytes[start..to]) {
        Some(parts) => Some(Kids::Fixed(parts)),
        None => None,
    };
    Scan { to, kids }
}

/// Tries a name.
fn try_name(after: &'static [Part], bytes: &[u8], start: usize) -> Scan
    requires start { start ≤ length bytes.now }
    ensures { IsScan (names after.now) bytes.now start result.to (kids_meant result.kids) }
{
    let (to, shape) = scan_name(bytes, start);
    let kids = if shape.ends() {
        Some(Kids::Fixed(after))
    } else {
        None
    };
    Scan { to, kids }
}

/// Tries a byte, or a name that nothing follows.
fn try_mark(mark: u8, after: &'static [Part], bytes: &[u8], start: usize) -> Scan
    requires start { start ≤ length bytes.now }
    requires mark { (mark ≡ 45) ⊎ (mark ≡ 62) }
    ensures { IsScan (mark_or_name mark after.now) bytes.now start result.to (kids_meant result.kids) }
{
    if is_next(bytes, start, mark) {
        Scan {
            to: start + 1,
            kids: Some(Kids::Fixed(after)),
        }
    } else {
        try_name(&[], bytes, start)
    }
}

/// Tries a number below a limit.
fn try_number(limit: u128, after: Behind, bytes: &[u8], start: usize) -> Scan
    requires start { start ≤ length bytes.now }
    requires some { 0 < limit }
    requires limit { limit ≤ 10 ^ 30 }
    ensures { IsScan (numbers limit (behind after)) bytes.now start result.to (kids_meant result.kids) }
{
    let (to, count) = scan_number(bytes, start, limit);
    let kids = match count {
        Count::Value(value) => Some(Kids::ByNumber(after, value)),
        Count::Nothing => None,
    };
    Scan { to, kids }
}

/// Tries the first piece of a part.
pub(crate) fn try_part(part: Part, bytes: &[u8], start: usize) -> Scan
    requires start { start ≤ length bytes.now }
    ensures { IsScan (lead_of_part part) bytes.now start result.to (kids_meant result.kids) }
{
    match lead_of(part) {
        Lead::Words(table) => try_words(table, bytes, start),
        Lead::Names(after) => try_name(after, bytes, start),
        Lead::MarkOrName(mark, after) => try_mark(mark, after, bytes, start),
        Lead::Numbers(limit, after) => try_number(limit, after, bytes, start),
    }
}

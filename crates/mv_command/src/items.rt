//! The list of what the operator does.

ghost use Rattle.std.specs.Prelude.{ℤ, ◌≡◌, ◌≢◌, ◌↔◌, ◌==◌, map, All, IsTrue, IfOk, MatchOption};
ghost use Rattle.std.specs.List.{slice_split};
ghost use Rattle.std.specs.Fmt.{signed_decimal};
ghost use Rattle.mv_command.specs.Items.{is_letter, is_name_byte, is_name, IsValue, IsItem, item_text, Ascend, IsList};

use crate::number::number;
use crate::options::{LEAST_VALUE, MOST_POLL, MOST_VALUE};
use mv_num::list::List;
use mv_num::text::Text;
use std::alloc::{AllocError, Global};

/// At the poll with this number, counted from 1 among those that take an action, the switch of this name gets this value, which a
/// value of some integer type can be.
#[derive(Drop)]
pub struct Item {
    /// From 1 to 65,535.
    pub poll: u32,
    /// A letter or `_`, and then letters, digits and `_`.
    pub name: Text,
    /// From -2,147,483,648 to 4,294,967,295.
    pub value: i64,
}

fn is_letter(byte: u8) -> bool
    ensures { result ≡ is_letter byte }
{
    byte.is_ascii_alphabetic() || byte == b'_'
}

fn is_name_byte(byte: u8) -> bool
    ensures { result ≡ is_name_byte byte }
{
    is_letter(byte) || byte.is_ascii_digit()
}

// A letter or `_`, and then letters, digits and `_`.
fn is_name(text: &[u8]) -> bool
    ensures { result ≡ is_name text.now }
{
    let Some((first, rest)) = text.split_first() else {
        return false;
    };
    is_letter(*first) && rest.iter().all(|byte| is_name_byte(*byte))
}

// A decimal numeral with an optional `-`, without a leading 0 and no `-0`.
fn value_of(text: &[u8]) -> Option<i64>
    ensures { MatchOption result ((value : ℤ) → IsValue value → text.now ≢ signed_decimal value) (λ value. IsValue value × (text.now ≡ signed_decimal value)) }
{
    let Some(digits) = text.strip_prefix(b"-") else {
        return Some(number(text, MOST_VALUE)? as i64);
    };
    let below = number(digits, LEAST_VALUE)?;
    if below == 0 {
        return None;
    }
    Some(-(below as i64))
}

// The poll, the name and the value of `K:NAME=VALUE`.
fn parts_of(text: &str) -> Option<(u32, &str, i64)>
    ensures { MatchOption result ((item : Item) → IsItem item → text.now ≢ item_text item)
        (λ parts. IsItem (record { poll = parts.0; name = parts.1.now; value = parts.2 }) × (text.now ≡ item_text (record { poll = parts.0; name = parts.1.now; value = parts.2 }))) }
{
    let (poll, flip) = text.split_once(':')?;
    let (name, value) = flip.split_once('=')?;
    let poll = number(poll.as_bytes(), MOST_POLL)?;
    let value = value_of(value.as_bytes())?;
    if !is_name(name.as_bytes()) {
        return None;
    }
    Some((poll as u32, name, value))
}

// The item that a text is, where it is one but for a poll that may be 0.
fn item_of(alloc: Global, text: &str) -> Result<Option<Item>, AllocError>
    ensures { IfOk result (λ found. MatchOption found ((item : Item) → IsItem item → text.now ≢ item_text item)
        (λ item. IsItem item × (text.now ≡ item_text item))) }
{
    match parts_of(text) {
        Some((poll, name, value)) => {
            let name = Text::new(alloc, name.as_bytes())?;
            Ok(Some(Item { poll, name, value }))
        }
        None => Ok(None),
    }
}

// The items that texts are, where each is one.
fn items_of(alloc: Global, texts: &[&str]) -> Result<Option<List<Item>>, AllocError>
    ensures { IfOk result (λ found. MatchOption found ((items : List Item) → All IsItem items → map item_text items ≢ map (λ text. text.now) texts.now)
        (λ items. All IsItem items × (map item_text items ≡ map (λ text. text.now) texts.now))) }
{
    let mut items = List::new(alloc);
    for text in texts {
        let Some(item) = item_of(alloc, text)? else {
            return Ok(None);
        };
        items.push(item)?;
    }
    Ok(Some(items))
}

/// The texts between the commas.
pub(crate) fn pieces_of(alloc: Global, text: &str) -> Result<Vec<&str>, AllocError>
    ensures { IfOk result (λ pieces. map (λ piece. piece.now) pieces.items ≡ slice_split (λ b. b == 44) text.now) }
{
    text.split(',').collect(alloc)
}

// Whether the polls ascend, from 1 on.
fn ascend(items: &List<Item>) -> bool
    ensures { IsTrue result ↔ Ascend 0 items.now }
{
    let mut last = 0;
    for item in items.as_slice() {
        if item.poll <= last {
            return false;
        }
        last = item.poll;
    }
    true
}

/// The items of a list, where the text is one.
pub fn list_of(alloc: Global, text: &str) -> Result<Option<List<Item>>, AllocError>
    ensures { IfOk result (λ found. MatchOption found ((items : List Item) → IsList text.now items → ⊥) (IsList text.now)) }
{
    let pieces = pieces_of(alloc, text)?;
    let Some(items) = items_of(alloc, pieces.as_slice())? else {
        return Ok(None);
    };
    if !ascend(&items) {
        return Ok(None);
    }
    Ok(Some(items))
}

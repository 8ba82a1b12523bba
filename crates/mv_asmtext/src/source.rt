//! The lines of a text, each with its place.

ghost use Rattle.std.specs.Prelude.{◌≡◌, ◌+◌, ◌<◌, ◌≤◌, ◌^◌, ◌==◌, not, length, IfOk, IfSome, OnOk, Some, None};
ghost use Rattle.std.specs.Bool.{MatchBool};
ghost use Rattle.std.specs.List.{prefix_len};
ghost use Rattle.mv_asmtext.specs.Sources.{address_of, place_after, place_behind, read, with_line, with_next, words_in};

use crate::statement::{Body, Operation, Statement, read_body};
use mv_num::list::List;
use mv_num::regions::{DATA_START, TEXT_START};
use mv_num::text::Text;
use std::alloc::{AllocError, Global};

/// Where the next word goes. Before the first statement nothing is said yet, so that an entry may be given.
#[derive(Clone, Copy)]
pub enum Section {
    Start,
    Text,
    Data,
}

/// A section, and how many words text and data have so far.
#[derive(Clone, Copy)]
pub struct Place {
    pub section: Section,
    pub text_words: u32,
    pub data_words: u32,
}

/// A line that has a label or a statement. Lines are numbered from 1.
#[derive(Drop)]
pub struct Line {
    pub number: u32,
    pub section: Section,
    pub address: u32,
    pub label: Option<Text>,
    pub statement: Option<Statement>,
}

/// What has been read of a text: its lines, where the next word goes, and how many lines there were.
#[derive(Drop)]
pub struct Reading {
    pub lines: List<Line>,
    pub place: Place,
    pub number: u32,
}

/// The address of the next word.
fn address_of(place: Place) -> u32
    requires text { place.text_words < 2 ^ 25 }
    requires globals { place.data_words < 2 ^ 25 }
    ensures { result ≡ address_of place }
{
    match place.section {
        Section::Start | Section::Text => TEXT_START + 4 * place.text_words,
        Section::Data => DATA_START + 4 * place.data_words,
    }
}

/// The place behind a statement, where it may stand there.
fn place_after(place: Place, operation: Operation) -> Option<Place>
    requires text { place.text_words < 2 ^ 25 }
    requires globals { place.data_words < 2 ^ 25 }
    ensures value { result ≡ place_after place operation }
    ensures words { IfSome result (λ next. words_in next ≤ words_in place + 1) }
{
    let Place {
        section,
        text_words,
        data_words,
    } = place;
    match (operation, section) {
        (Operation::Entry, Section::Start) => Some(Place {
            section: Section::Text,
            text_words,
            data_words,
        }),
        (Operation::Data, Section::Start | Section::Text) => Some(Place {
            section: Section::Data,
            text_words,
            data_words,
        }),
        (Operation::Word, Section::Data) => Some(Place {
            section,
            text_words,
            data_words: data_words + 1,
        }),
        (Operation::Word | Operation::Instruction(_), Section::Start | Section::Text) => {
            Some(Place {
                section: Section::Text,
                text_words: text_words + 1,
                data_words,
            })
        }
        _ => None,
    }
}

/// The place behind what a line has, where it may stand there.
fn place_behind(place: Place, body: &Body) -> Option<Place>
    requires text { place.text_words < 2 ^ 25 }
    requires globals { place.data_words < 2 ^ 25 }
    ensures value { result ≡ place_behind place body.now }
    ensures words { IfSome result (λ next. words_in next ≤ words_in place + 1) }
{
    match &body.statement {
        Some(statement) => place_after(place, statement.operation),
        None => Some(place),
    }
}

/// Reads one more line, and says whether it is one that may stand there.
#[tactic(auto, unfolding(crate::specs::Sources::with_next))]
fn read_line(alloc: Global, reading: &mut Reading, line: &[u8]) -> Result<bool, AllocError>
    requires text { reading.old.place.text_words < 2 ^ 25 }
    requires globals { reading.old.place.data_words < 2 ^ 25 }
    requires number { reading.old.number < 2 ^ 25 }
    ensures read { IfOk result (λ is_line. MatchBool is_line (with_next reading.old line.now ≡ Some reading.new) (with_next reading.old line.now ≡ None)) }
    ensures number { IfOk result (λ is_line. MatchBool is_line (reading.new.number ≡ reading.old.number + 1) (reading.new.number ≡ reading.old.number)) }
    ensures words { IfOk result (λ is_line. MatchBool is_line (words_in reading.new.place ≤ words_in reading.old.place + 1) (reading.new.place ≡ reading.old.place)) }
{
    let Some(body) = read_body(alloc, line)? else {
        return Ok(false);
    };
    let Some(next) = place_behind(reading.place, &body) else {
        return Ok(false);
    };
    let number = reading.number + 1;
    add(&mut reading.lines, number, reading.place, body)?;
    reading.place = next;
    reading.number = number;
    Ok(true)
}

/// The length of the line in front.
fn line_length(text: &[u8]) -> usize
    ensures value { result ≡ prefix_len (λ b. not (b == 10)) text.now }
    ensures in_range { result ≤ length text.now }
{
    let mut at = 0;
    while at < text.len() && text[at] != b'\n' {
        at += 1;
    }
    at
}

/// The lines of a text, or the number of the first that is none or may not stand there.
pub fn read(alloc: Global, text: &[u8]) -> Result<Result<Reading, u32>, AllocError>
    requires { length text.now ≤ 2 ^ 24 }
    ensures reading { IfOk result (λ reading. reading ≡ read text.now) }
    ensures few { IfOk result (λ reading. IfOk reading (λ reading. reading.place.text_words < 2 ^ 25)) }
{
    let mut reading = Reading {
        lines: List::new(alloc),
        place: Place {
            section: Section::Start,
            text_words: 0,
            data_words: 0,
        },
        number: 0,
    };
    let mut at = 0;
    loop {
        let (_, rest) = text.split_at(at);
        let length = line_length(rest);
        let (line, behind) = rest.split_at(length);
        if !read_line(alloc, &mut reading, line)? {
            return Ok(Err(reading.number + 1));
        }
        if behind.is_empty() {
            return Ok(Ok(reading));
        }
        at += length + 1;
    }
}

/// Adds a line, unless it has nothing.
fn add(lines: &mut List<Line>, number: u32, place: Place, body: Body) -> Result<(), AllocError>
    requires text { place.text_words < 2 ^ 25 }
    requires globals { place.data_words < 2 ^ 25 }
    ensures { OnOk result (lines.new ≡ with_line lines.old number place body) }
{
    let Body { label, statement } = body;
    if label.is_some() || statement.is_some() {
        let address = address_of(place);
        lines.push(Line {
            number,
            section: place.section,
            address,
            label,
            statement,
        })?;
    }
    Ok(())
}

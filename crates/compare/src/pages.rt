// Sources of pages: rolls, and their books with some pages marked dead.
use crate::dice::Dice;
use anyhow::anyhow;
use books::{Child, Entry};
use rolls::Roll;
use sources::{Page, PageSource};
use stations::{Measures, Station};
use std::alloc::Global;
use stored::{DEAD, PAGE, Stored};

// Two functions, since a source has no `load`: each kind has its own.
pub(crate) fn roll_of(row: &[Station]) -> anyhow::Result<Roll<'_>> {
    let mut roll = Roll::new();
    if roll.load(row).is_err() {
        return Err(anyhow!("the row is refused"));
    }
    Ok(roll)
}

pub(crate) fn book_in(bytes: &[u8]) -> anyhow::Result<Stored<'_>> {
    let mut book = Stored::new();
    if book.load(bytes).is_err() {
        return Err(anyhow!("the book is refused"));
    }
    Ok(book)
}

// Written apart from the writer, so that books come from two hands.
fn put_measures(bytes: &mut Vec<u8>, at: Measures) -> anyhow::Result<()> {
    for m in [at.m1, at.m2, at.m3, at.m4] {
        bytes.extend_from_slice(&m.to_be_bytes())?;
    }
    Ok(())
}

// A page in 256 bytes.
fn put_page(bytes: &mut Vec<u8>, page: &Page) -> anyhow::Result<()> {
    let end = bytes.len().saturating_add(PAGE);
    let count = (page.len & 255) as u8;
    bytes.extend_from_slice(&[page.level, count, 0, 0, 0, 0, 0, 0])?;
    for entry in &page.entries[..page.len] {
        match *entry {
            Entry::Station(Station { number, at }) => {
                bytes.extend_from_slice(&number.to_be_bytes())?;
                put_measures(bytes, at)?;
            }
            Entry::Page(Child { page, bounds }) => {
                let number = (page & 0xffff) as u16;
                bytes.extend_from_slice(&number.to_be_bytes())?;
                put_measures(bytes, bounds.low)?;
                put_measures(bytes, bounds.high)?;
            }
        }
    }
    bytes.resize(end, 0)?;
    Ok(())
}

// The roll of the row as a stored book, with some pages marked dead.
pub(crate) fn stored_bytes(
    heap: Global,
    dice: &mut Dice,
    row: &[Station],
    deaths: u32,
) -> anyhow::Result<Vec<u8>> {
    let mut roll = roll_of(row)?;
    let pages = roll.pages();
    let mut bytes = Vec::new(heap);
    for number in 0..pages {
        if let Ok(page) = roll.read(number) {
            put_page(&mut bytes, &page)?;
        }
    }
    for _ in 0..deaths {
        if let Some(level) = bytes.get_mut(dice.below(pages) as usize * PAGE) {
            *level = DEAD;
        }
    }
    Ok(bytes)
}

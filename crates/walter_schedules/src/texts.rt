//! Texts that are long: they are said in brief.
use anyhow::{Result, bail};
use std::alloc::Global;
use walter_base::Mem;

/// How many bytes of a long text are said, of its front and of its end.
const SHOWN: usize = 110;

// The piece, with the number as twelve hex digits in the place of its first `#`, or as it is written in that of its
// first `%`.
fn push_piece(alloc: Global, text: &mut String, piece: &str, number: u64) -> Mem<()> {
    if let Some((front, rest)) = piece.split_once('#') {
        text.push_str(&format!(in alloc; "{front}{number:012x}{rest}")?)?;
    } else if let Some((front, rest)) = piece.split_once('%') {
        text.push_str(&format!(in alloc; "{front}{number}{rest}")?)?;
    } else {
        text.push_str(piece)?;
    }
    Ok(())
}

// A count, a `*` and a piece: the piece so often, with the numbers from 0.
fn push_pieces(alloc: Global, text: &mut String, many: &str) -> Result<()> {
    let Some((count, piece)) = many.split_once('*') else {
        bail!("no count");
    };
    let count: u64 = count.parse().unwrap_or(0);
    for number in 0..count {
        push_piece(alloc, text, piece, number)?;
    }
    Ok(())
}

/// The text, in which `<3*piece>` is three times the piece.
pub fn expanded(alloc: Global, short: &str) -> Result<String> {
    let mut text = String::new(alloc);
    for part in short.split('<') {
        match part.split_once('>') {
            Some((many, rest)) => {
                push_pieces(alloc, &mut text, many)?;
                text.push_str(rest)?;
            }
            None => text.push_str(part)?,
        }
    }
    Ok(text)
}

/// The text, or of a long one its front and its end.
pub fn cut(alloc: Global, text: &str) -> Mem<String> {
    let behind = text.len().saturating_sub(SHOWN);
    match (text.get(..SHOWN), text.get(behind..)) {
        (Some(front), Some(end)) if behind > 2 * SHOWN => {
            Ok(format!(in alloc; "{front} .. {end}")?)
        }
        _ => Ok(String::from_str(alloc, text)?),
    }
}

fn count_of_lines(text: &str) -> u64 {
    let mut count: u64 = 0;
    for _ in text.split('\n') {
        count = count.saturating_add(1);
    }
    count.saturating_sub(1)
}

/// How many lines a text has, and the last three, each cut where it is long.
pub fn end_of(alloc: Global, text: &str) -> Mem<String> {
    let count = count_of_lines(text);
    let mut end = format!(in alloc; "{count} lines, and the last are")?;
    let mut left = count;
    for line in text.split('\n') {
        if left <= 3 && !line.is_empty() {
            end.push('\n')?;
            end.push_str(&cut(alloc, line)?)?;
        }
        left = left.saturating_sub(1);
    }
    Ok(end)
}

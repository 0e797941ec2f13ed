//! A list of commands, cut at its commas.
ghost use Rattle.std.specs.Prelude.{◌≡◌, ◌+◌, ◌<◌, ◌^◌, ◌≤◌, ◌++◌, ◌∷◌, [], true, false, MatchOption, IfOk, OnOk, All, length, map};
ghost use Rattle.command_words.specs.Commands.{part, cut, ends_with_comma, without_last};
ghost use Rattle.command_words.specs.Cutting.{cutting, ended, with_word, one_word_more};

use control_stanza::Text;
use std::alloc::{AllocError, Global};
use std::mem;

/// A command of a list.
#[derive(Drop)]
pub struct Piece {
    /// The index at which its first word would stand.
    pub start: u64,
    /// Its words.
    pub words: Vec<Text>,
}

/// The word without the comma at its end, where one is there.
fn strip_comma(word: &str) -> Option<&str>
    ensures { MatchOption result (ends_with_comma word.now ≡ false)
        (λ w. (ends_with_comma word.now ≡ true) × (w.now ≡ without_last word.now)) }
{
    word.strip_suffix(',')
}

/// A list of commands while it is cut.
#[derive(Drop)]
pub struct Cutter {
    /// The commands that have ended.
    pub pieces: Vec<Piece>,
    /// The one that is open.
    pub last: Piece,
}

fn empty_piece(alloc: Global, start: u64) -> Piece
    ensures { part result ≡ record { start = start; words = [] } }
{
    Piece {
        start,
        words: Vec::new(alloc),
    }
}

/// Ends the open command. The next begins at this index.
fn end_command(alloc: Global, cutter: &mut Cutter, next: u64) -> Result<(), AllocError>
    ensures { OnOk result (cutting cutter.new ≡ ended (cutting cutter.old) (part cutter.old.last) next) }
{
    let piece = mem::replace(&mut cutter.last, empty_piece(alloc, next));
    cutter.pieces.push(piece)?;
    Ok(())
}

/// Puts a word behind those of the open command.
fn add_word(alloc: Global, cutter: &mut Cutter, word: &str) -> Result<(), AllocError>
    ensures { OnOk result (cutting cutter.new
        ≡ record { done = map part cutter.old.pieces.items; open_part = with_word (part cutter.old.last) word.now }) }
{
    cutter.last.words.push(Text::new(alloc, word)?)?;
    Ok(())
}

/// Takes one word more. The index after it is next.
fn take_word(alloc: Global, cutter: &mut Cutter, word: &str, next: u64) -> Result<(), AllocError>
    ensures { OnOk result (cutting cutter.new ≡ one_word_more (cutting cutter.old) word.now next) }
{
    if word == "," {
        return end_command(alloc, cutter, next);
    }
    match strip_comma(word) {
        Some(text) => {
            add_word(alloc, cutter, text)?;
            end_command(alloc, cutter, next)
        }
        None => add_word(alloc, cutter, word),
    }
}

/// The commands of a list, whose words begin at index 2.
pub fn cut_list(alloc: Global, words: &[Text]) -> Result<Vec<Piece>, AllocError>
    ensures { IfOk result (λ pieces. map part pieces.items ≡ cut 2 words.now) }
{
    let mut cutter = Cutter {
        pieces: Vec::new(alloc),
        last: empty_piece(alloc, 2),
    };
    for (i, word) in words.iter().enumerate() {
        take_word(alloc, &mut cutter, word.as_str(), i as u64 + 3)?;
    }
    let Cutter { mut pieces, last } = cutter;
    pieces.push(last)?;
    Ok(pieces)
}

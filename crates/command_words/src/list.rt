//! A list of commands, read command by command.
ghost use Rattle.std.specs.Prelude.{◌≡◌, ◌+◌, ◌<◌, ◌^◌, Some, IfOk, IfErr, All, length, map};
ghost use Rattle.command_words.specs.Commands.{part, cut, listed, IsPlaceIn, IsListFault};
ghost use Rattle.command_words.specs.Fault.{IsAt};
ghost use Rattle.command_value.specs.Plain.{plain};
ghost use Rattle.command_words.specs.Spelled.{spelled};

use crate::fault::WordFault;
use crate::piece::{Piece, cut_list};
use crate::read::read_command;
use command_value::Command;
use control_stanza::Text;
use std::alloc::Global;

/// A list has at most so many commands.
const COMMANDS: usize = 1_000;

/// The command that a part of the list spells. A place counts from the first of all words.
fn read_piece(alloc: Global, piece: &Piece) -> Result<Command, WordFault>
    requires { (part piece.now).start + length (part piece.now).words < 2 ^ 63 }
    ensures read { IfOk result (λ command. spelled (part piece.now).words ≡ Some (plain command)) }
    ensures fault { IfErr result (IsAt (IsPlaceIn (part piece.now))) }
{
    match read_command(alloc, piece.words.as_slice()) {
        Ok(command) => Ok(command),
        Err(WordFault::At { place }) => Err(WordFault::At {
            place: piece.start + place,
        }),
        Err(WordFault::OutOfMemory) => Err(WordFault::OutOfMemory),
    }
}

/// The commands that the parts of a list spell.
fn read_pieces(alloc: Global, pieces: &[Piece]) -> Result<Vec<Command>, WordFault>
    requires { All (λ p. p.start + length p.words < 2 ^ 63) (map part pieces.now) }
    ensures read { IfOk result (λ commands. listed (map part pieces.now) ≡ Some (map plain commands.items)) }
    ensures fault { IfErr result (IsAt (IsListFault (map part pieces.now))) }
{
    let mut commands = Vec::new(alloc);
    for (i, piece) in pieces.iter().enumerate() {
        if i == COMMANDS {
            return Err(WordFault::At { place: piece.start });
        }
        commands.push(read_piece(alloc, piece)?)?;
    }
    Ok(commands)
}

/// The commands of the list that these words are. They begin at index 2.
pub fn read_list(alloc: Global, words: &[Text]) -> Result<Vec<Command>, WordFault>
    ensures read { IfOk result (λ commands. listed (cut 2 words.now) ≡ Some (map plain commands.items)) }
    ensures fault { IfErr result (IsAt (IsListFault (cut 2 words.now))) }
{
    let pieces = cut_list(alloc, words)?;
    read_pieces(alloc, pieces.as_slice())
}

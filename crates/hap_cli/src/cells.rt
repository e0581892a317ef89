// The command `cells`.
ghost use Rattle.std.specs.Prelude.{◌≡◌, ◌≤◌, length};
ghost use Rattle.hap_outside.specs.Causes.{HasCause};
ghost use Rattle.hap_outside.specs.Writes.{Writes};
ghost use Rattle.hap_words.specs.Asked.{cells, input_of};
ghost use Rattle.hap_cli.specs.Answers.{cells_text, Gives};

use crate::answer::Answer;
use face_poset::{Graded, Space};
use hap_ends::Outcome;
use hap_inputs::space_of_bytes;
use hap_outside::{Failed, Piece, Sink, write_pieces};
use hap_words::InputOptions;
use std::alloc::Global;

/// The space of the input.
pub fn answer_cells(alloc: Global, options: &InputOptions, bytes: &[u8]) -> Result<Answer, Outcome>
    requires { length bytes.now ≤ 67108864 }
    ensures { Gives (cells (input_of options.now)) bytes.now result }
{
    let space = space_of_bytes(alloc, options.input.kind, bytes)?;
    Ok(Answer::Cells(space))
}

/// Writes the number of cells of each dimension, and their alternating sum.
pub fn write_cells<K: Sink>(out: &mut K, space: &Space) -> Result<(), Failed>
    ensures bytes { Writes (K.written out.old) (K.written out.new) (cells_text space.now) result }
    ensures cause { HasCause (K.faults out.old) (K.faults out.new) result }
{
    let vertices = Piece::Count(u64::from(space.cells(0)));
    let edges = Piece::Count(u64::from(space.cells(1)));
    let faces = Piece::Count(u64::from(space.cells(2)));
    let solids = Piece::Count(u64::from(space.cells(3)));
    let euler = Piece::Number(i128::from(space.euler()));
    write_pieces(
        out,
        &[
            Piece::Text(b"cells "),
            vertices,
            Piece::Text(b" "),
            edges,
            Piece::Text(b" "),
            faces,
            Piece::Text(b" "),
            solids,
            Piece::Text(b"\n"),
            Piece::Text(b"euler "),
            euler,
            Piece::Text(b"\n"),
        ],
    )
}

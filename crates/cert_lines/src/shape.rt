ghost use Rattle.std.specs.Prelude.{◌≡◌, ◌<◌, ◌+◌, ◌^◌, ◌≤◌, option_map};
ghost use Rattle.cert_lines.specs.Pieces.{words_left, room};
ghost use Rattle.cert_lines.specs.Shapes as shapes;

use crate::scan::cut_word;
use crate::word::read_token;
use certificates::{Kind, Token};

/// What was read of a line behind its first word.
#[derive(Clone, Copy)]
pub enum Stage {
    Numbers,
    /// `-` as the first list.
    LeftDash,
    /// Entries of the first list.
    Left,
    /// The bar.
    Bar,
    /// Entries of the second list.
    Right,
    /// `-` as the second list.
    RightDash,
}

/// How many numbers stand there, and whether two sparse lists come after them.
pub fn read_shape(words: Option<&[u8]>) -> Option<(usize, bool)>
    requires { room (option_map (λ s. s.now) words) < 2 ^ 63 + 1 }
    ensures { result ≡ shapes.shape_from Stage.Numbers 0 (words_left (option_map (λ s. s.now) words.entry)) }
{
    let mut stage = Stage::Numbers;
    let mut count: usize = 0;
    let mut rest = words;
    'words: while let Some(text) = rest {
        let (word, more) = cut_word(text);
        let token = read_token(word)?;
        stage = next_stage(stage, token)?;
        count = next_count(count, token);
        rest = more;
    }
    ended(stage, count)
}

/// Whether a line of this kind has so many numbers, and lists or none.
pub fn fits(kind: Kind, count: usize, lists: bool) -> bool
    ensures { result ≡ shapes.fits kind count lists }
{
    match kind {
        Kind::Done | Kind::End => !lists && count == 0,
        Kind::Version | Kind::Modulus | Kind::Products | Kind::Pairs => !lists && count == 1,
        Kind::Components | Kind::Covers => !lists && count == 1,
        Kind::Rank | Kind::Classes | Kind::Columns => !lists && count == 2,
        Kind::PairLine => !lists && count == 3,
        Kind::Cells | Kind::Chains | Kind::Critical => !lists && count == 4,
        Kind::Face => !lists && 2 <= count,
        Kind::RankLine | Kind::ClassLine => lists && count == 0,
        Kind::ProductLine => lists && count == 4,
    }
}

fn next_stage(stage: Stage, token: Token) -> Option<Stage>
    ensures { result ≡ shapes.stage_after stage token }
{
    match stage {
        Stage::Numbers => match token {
            Token::Number(_) => Some(Stage::Numbers),
            Token::Entry(..) => Some(Stage::Left),
            Token::Dash => Some(Stage::LeftDash),
            Token::Bar => None,
        },
        Stage::LeftDash => match token {
            Token::Bar => Some(Stage::Bar),
            _ => None,
        },
        Stage::Left => match token {
            Token::Entry(..) => Some(Stage::Left),
            Token::Bar => Some(Stage::Bar),
            _ => None,
        },
        Stage::Bar => match token {
            Token::Entry(..) => Some(Stage::Right),
            Token::Dash => Some(Stage::RightDash),
            _ => None,
        },
        Stage::Right => match token {
            Token::Entry(..) => Some(Stage::Right),
            _ => None,
        },
        Stage::RightDash => None,
    }
}

fn next_count(count: usize, token: Token) -> usize
    requires { count + 1 < 2 ^ 64 }
    ensures { result ≡ shapes.count_after count token }
{
    match token {
        Token::Number(_) => count + 1,
        _ => count,
    }
}

fn ended(stage: Stage, count: usize) -> Option<(usize, bool)>
    ensures { result ≡ shapes.shape_at stage count }
{
    match stage {
        Stage::Numbers => Some((count, false)),
        Stage::Right | Stage::RightDash => Some((count, true)),
        _ => None,
    }
}

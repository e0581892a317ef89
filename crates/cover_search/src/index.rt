// Which relators name a generator.
ghost use Rattle.std.specs.Prelude.{◌≡◌, ◌≤◌, ◌<◌, ◌∷◌, ℕ, [], length, All, IfOk};
ghost use Rattle.live_laws.specs.Walks.{AreLetters};
ghost use Rattle.edge_words.specs.Words.{relations_of};
ghost use Rattle.cover_search.specs.Indexes.{IsIndex, IsNaming};

use edge_words::Presentation;
use number_lists::{Lists, cofaces_in, sort_once};
use std::alloc::{AllocError, Global};

/// For each generator the numbers of the relators that name it.
pub(crate) fn index_of(alloc: Global, presentation: &Presentation) -> Result<Lists, AllocError>
    ensures index { IfOk result (λ index. IsIndex (relations_of presentation.now) index) }
    ensures letters { All (AreLetters (length presentation.now.generators)) presentation.now.relators }
{
    let most = presentation.generators().len();
    let mut named = Lists::new(alloc);
    for number in 0..presentation.relators() {
        named.push(&generators_of(alloc, most, presentation.relator(number))?)?;
    }
    let index = cofaces_in(alloc, most, &named)?;
    Ok(index)
}

/// The generators that a word names, each once, in rising order.
fn generators_of(alloc: Global, most: usize, word: &[i32]) -> Result<Vec<u32>, AllocError>
    requires { AreLetters most word.now }
    ensures { IfOk result (λ v. IsNaming most word.now v.items) }
{
    let mut generators = Vec::with_capacity(alloc, word.len())?;
    for letter in word {
        generators.push(letter.unsigned_abs())?;
    }
    sort_once(&mut generators);
    Ok(generators)
}

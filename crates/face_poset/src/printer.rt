ghost use Rattle.std.specs.Prelude.{◌≡◌, ◌≤◌, ◌+◌, ◌++◌, ◌∷◌, [], ℕ, map, decimal, codes};
ghost use Rattle.hap_outside.specs.Causes.{HasCause};
ghost use Rattle.hap_outside.specs.Writes.{Writes};
ghost use Rattle.hap_outside.specs.Gathers.{Gathers};
ghost use Rattle.face_poset.specs.Text.{layers_text, layer_texts, cell_text, layer_text, commas, lead, facet_texts};

use hap_outside::{Failed, Held, Piece, Sink};
use number_lists::Lists;

/// Appends the boundary text of the layers up to a dimension, gathered over all of it.
pub(crate) fn write_layers<K: Sink>(
    sink: &mut K,
    layers: &[Lists; 4],
    dimension: u8,
) -> Result<(), Failed>
    requires { dimension ≤ 3 }
    ensures bytes { Writes (K.written sink.old) (K.written sink.new) (layers_text layers.now dimension) result }
    ensures cause { HasCause (K.faults sink.old) (K.faults sink.new) result }
{
    let mut held = Held::new();
    match put_layers(sink, &mut held, layers, dimension) {
        Ok(()) => held.finish(sink),
        Err(Failed) => Err(Failed),
    }
}

/// Puts the boundary text of the layers up to a dimension.
fn put_layers<K: Sink>(
    sink: &mut K,
    held: &mut Held,
    layers: &[Lists; 4],
    dimension: u8,
) -> Result<(), Failed>
    requires { dimension ≤ 3 }
    ensures bytes { let text = layers_text layers.now dimension in
        Gathers (K.written sink.old) (K.written sink.new) held.old held.new text result }
    ensures cause { HasCause (K.faults sink.old) (K.faults sink.new) result }
{
    put_text(sink, held, b"[")?;
    put_items(sink, held, layers, dimension)?;
    put_text(sink, held, b"]\n")
}

/// Puts one text.
fn put_text<K: Sink>(sink: &mut K, held: &mut Held, text: &[u8]) -> Result<(), Failed>
    ensures bytes { Gathers (K.written sink.old) (K.written sink.new) held.old held.new text.now result }
    ensures cause { HasCause (K.faults sink.old) (K.faults sink.new) result }
{
    held.put(sink, &[Piece::Text(text)])
}

/// What stands before the item with this number, counted from 0.
fn lead_at(index: usize) -> &'static [u8]
    ensures { result.now ≡ lead index }
{
    if index == 0 { b"" } else { b"," }
}

/// Puts the texts of the layers up to a dimension with commas between them.
fn put_items<K: Sink>(
    sink: &mut K,
    held: &mut Held,
    layers: &[Lists; 4],
    dimension: u8,
) -> Result<(), Failed>
    requires { dimension ≤ 3 }
    ensures bytes { let text = commas (layer_texts layers.now (dimension + 1)) in
        Gathers (K.written sink.old) (K.written sink.new) held.old held.new text result }
    ensures cause { HasCause (K.faults sink.old) (K.faults sink.new) result }
{
    for dim in 0..dimension + 1 {
        let layer = &layers[dim as usize];
        put_layer(sink, held, lead_at(dim as usize), dim, layer)?;
    }
    Ok(())
}

/// Puts the text of a layer after a lead.
fn put_layer<K: Sink>(
    sink: &mut K,
    held: &mut Held,
    lead: &[u8],
    dim: u8,
    cells: &Lists,
) -> Result<(), Failed>
    ensures bytes { Gathers (K.written sink.old) (K.written sink.new) held.old held.new
        (lead.now ++ layer_text dim cells.now) result }
    ensures cause { HasCause (K.faults sink.old) (K.faults sink.new) result }
{
    open_list(sink, held, lead)?;
    put_cells(sink, held, dim, cells)?;
    put_text(sink, held, b"]")
}

/// Puts an opening bracket after a lead.
fn open_list<K: Sink>(sink: &mut K, held: &mut Held, lead: &[u8]) -> Result<(), Failed>
    ensures bytes { Gathers (K.written sink.old) (K.written sink.new) held.old held.new (lead.now ++ 91 ∷ []) result }
    ensures cause { HasCause (K.faults sink.old) (K.faults sink.new) result }
{
    held.put(sink, &[Piece::Text(lead), Piece::Text(b"[")])
}

/// Puts the texts of the cells with commas between them.
fn put_cells<K: Sink>(sink: &mut K, held: &mut Held, dim: u8, cells: &Lists) -> Result<(), Failed>
    ensures bytes { let text = commas (map (cell_text dim) cells.now) in
        Gathers (K.written sink.old) (K.written sink.new) held.old held.new text result }
    ensures cause { HasCause (K.faults sink.old) (K.faults sink.new) result }
{
    for index in 0..cells.len() {
        put_cell(sink, held, lead_at(index), dim, cells.get(index))?;
    }
    Ok(())
}

/// Puts the text of a cell after a lead.
fn put_cell<K: Sink>(
    sink: &mut K,
    held: &mut Held,
    lead: &[u8],
    dim: u8,
    facets: &[u32],
) -> Result<(), Failed>
    ensures bytes { Gathers (K.written sink.old) (K.written sink.new) held.old held.new
        (lead.now ++ cell_text dim facets.now) result }
    ensures cause { HasCause (K.faults sink.old) (K.faults sink.new) result }
{
    if dim == 0 {
        return put_vertex(sink, held, lead);
    }
    open_cell(sink, held, lead, facets.len())?;
    put_facets(sink, held, facets)?;
    put_text(sink, held, b"]")
}

/// Puts the text of a vertex after a lead.
fn put_vertex<K: Sink>(sink: &mut K, held: &mut Held, lead: &[u8]) -> Result<(), Failed>
    ensures bytes { Gathers (K.written sink.old) (K.written sink.new) held.old held.new (lead.now ++ codes "[1,0]")
        result }
    ensures cause { HasCause (K.faults sink.old) (K.faults sink.new) result }
{
    held.put(sink, &[Piece::Text(lead), Piece::Text(b"[1,0]")])
}

/// Puts an opening bracket and a count after a lead.
fn open_cell<K: Sink>(
    sink: &mut K,
    held: &mut Held,
    lead: &[u8],
    count: usize,
) -> Result<(), Failed>
    ensures bytes { Gathers (K.written sink.old) (K.written sink.new) held.old held.new (lead.now ++ 91 ∷ decimal count)
        result }
    ensures cause { HasCause (K.faults sink.old) (K.faults sink.new) result }
{
    held.put(
        sink,
        &[
            Piece::Text(lead),
            Piece::Text(b"["),
            Piece::Number(count as i128),
        ],
    )
}

/// Puts the facets, each with a comma before it.
fn put_facets<K: Sink>(sink: &mut K, held: &mut Held, facets: &[u32]) -> Result<(), Failed>
    ensures bytes { Gathers (K.written sink.old) (K.written sink.new) held.old held.new (facet_texts facets.now)
        result }
    ensures cause { HasCause (K.faults sink.old) (K.faults sink.new) result }
{
    for facet in facets {
        put_facet(sink, held, *facet)?;
    }
    Ok(())
}

/// Puts a facet with a comma before it.
fn put_facet<K: Sink>(sink: &mut K, held: &mut Held, facet: u32) -> Result<(), Failed>
    ensures bytes { Gathers (K.written sink.old) (K.written sink.new) held.old held.new (44 ∷ decimal facet) result }
    ensures cause { HasCause (K.faults sink.old) (K.faults sink.new) result }
{
    held.put(sink, &[Piece::Text(b","), Piece::Number(i128::from(facet))])
}

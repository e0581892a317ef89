ghost use Rattle.cover_listing.specs.PartCovers.{ListingsAreOfCovers};

/// A law, and nothing at run time: what is listed over the components of a regular space, with the chosen
/// field of each part, are the covers of the parts.
pub fn listings_are_of_covers()
    ensures { ListingsAreOfCovers }
{
    cover_laws::listed_are_covers();
    space_parts::parts_are_regular();
    chosen_field::chosen_is_good();
}

ghost use Rattle.part_covers.specs.Covered.{NumberedAreCovers};

/// A law, and nothing at run time: the cover with a number has the table with this number among the covers of the part
/// of its component, and its total space is that of the lift of this table; it is a regular space with one component.
pub fn numbered_are_covers()
    ensures { NumberedAreCovers }
{
    cover_laws::listed_are_covers();
    space_parts::parts_are_regular();
    chosen_field::chosen_is_good();
    sheet_laws::connected_is_exact();
    cover_space::total_is_regular();
    cover_space::total_has_components();
}

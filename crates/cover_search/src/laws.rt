ghost use Rattle.cover_search.specs.Searches.{SearchesResume};

/// A law, and nothing at run time: a search may be begun where one stopped that took some units; it has
/// left what that one had, and both together find what one search finds with the sum of their units.
pub fn searches_resume()
    ensures { SearchesResume }
{
    live_laws::runs_join();
    live_laws::live_tables_are_in_order();
}

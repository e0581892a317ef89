// Who takes what a listing finds.
ghost use Rattle.std.specs.Prelude.{List, ℕ};
ghost use Rattle.hap_outside.specs.Causes.{HasCause};
ghost use Rattle.hap_outside.specs.Gathers.{Gathers};
ghost use Rattle.cover_search.specs.Searches.{shown};
ghost use Rattle.cover_listing.specs.Events.{Event, Begins, Finds, Ends};

use hap_outside::{Failed, Held, Sink};
use sheet_tables::Table;

/// Writes what a listing finds: a component's begin, each of its tables, its end.
pub trait Taker {
    /// The text of what is found.
    ghost text: { Self → Event → List ℕ };

    /// Puts the begin of a component, whose tables have so many columns.
    fn begin<K: Sink>(
        &self,
        sink: &mut K,
        held: &mut Held,
        component: u32,
        columns: u32,
    ) -> Result<(), Failed>
        ensures bytes { Gathers (K.written sink.old) (K.written sink.new) held.old held.new
            (text self.now (Begins component columns)) result }
        ensures cause { HasCause (K.faults sink.old) (K.faults sink.new) result };

    /// Puts a table.
    fn table<K: Sink>(&self, sink: &mut K, held: &mut Held, table: &Table) -> Result<(), Failed>
        ensures bytes { Gathers (K.written sink.old) (K.written sink.new) held.old held.new
            (text self.now (Finds table.now.columns (shown table.now))) result }
        ensures cause { HasCause (K.faults sink.old) (K.faults sink.new) result };

    /// Puts the end of a component: how many tables it had of 1, 2 and more sheets.
    fn end<K: Sink>(&self, sink: &mut K, held: &mut Held, counts: &[u64]) -> Result<(), Failed>
        ensures bytes { Gathers (K.written sink.old) (K.written sink.new) held.old held.new
            (text self.now (Ends counts.now)) result }
        ensures cause { HasCause (K.faults sink.old) (K.faults sink.new) result };
}

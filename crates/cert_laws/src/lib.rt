//! Which certificates are accepted, and what they show: definitions and laws, no code.
//!
//! A certificate of a space has lines of rank, classes with dual cycles, products with bounding cochains,
//! and may have a field of pairs with tables of covers. It is accepted where it is well formed and all
//! tests hold, in the order of its lines. Each law is the contract of a function that does nothing.
#![tactic(auto)]

ghost use Rattle.cert_laws.specs.Laws.{CheckedFieldsAreGood, LinesFitWhereValid, MigrationKeepsVersionTwo};

mod refused;

pub use refused::Refused;
use vector_field::maximal_is_exact;

/// Pairs hold one after another, as lines of a certificate, exactly where they are a valid field.
pub fn lines_fit_where_valid()
    ensures { LinesFitWhereValid }
{}

/// The pairs of an accepted cover part are a good field of its space.
pub fn checked_fields_are_good()
    ensures { CheckedFieldsAreGood }
{
    maximal_is_exact();
}

/// A certificate of version 2 stays as it is where it is brought to version 2.
pub fn version_two_stays()
    ensures { MigrationKeepsVersionTwo }
{}

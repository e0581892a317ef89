// The commands with their options as values.
use sheet_tables::Spot;

/// A command with its options: one struct a command, so that an option more changes no match.
#[derive(Drop)]
pub enum Command {
    /// Counts the cells of a space.
    Cells(InputOptions),
    /// Checks that a space is regular, and counts its components.
    Check(InputOptions),
    /// The Betti numbers of a space.
    Betti(FieldOptions),
    /// A certificate of the cup products of a space.
    Cup(FieldOptions),
    /// Checks a certificate.
    Verify(NameOptions),
    /// Writes a certificate in its second version.
    Migrate(NameOptions),
    /// Generators and relators of the fundamental group.
    Group(InputOptions),
    /// Lists the covers of a space.
    Covers(CoversOptions),
    /// Makes one cover of the listing.
    Cover(CoverOptions),
    /// A certificate of the cup products, with the covers.
    Report(ReportOptions),
    /// Makes the 3-torus.
    Make(MakeOptions),
}

/// How the input is to be read.
#[derive(Clone, Copy, Debug, PartialEq, Eq)]
pub enum Kind {
    /// Lists of boundaries.
    Boundary,
    /// A cubical array.
    Cubical,
    /// A permutahedral array.
    Permutahedral,
    /// An arc presentation.
    Arcs,
    /// A simplicial complex by lists of labels.
    Simplices,
    /// A finite partial order, which stands for its order complex.
    Poset,
}

/// Where the input comes from: its kind, and the name of a file, or none for standard input.
#[derive(Drop)]
pub struct Input {
    pub kind: Kind,
    pub name: Option<String>,
}

/// The options of `cells`, `check` and `group`.
#[derive(Drop)]
pub struct InputOptions {
    pub input: Input,
}

/// The options of `betti` and `cup`: `modulus` is the number of elements of the field.
#[derive(Drop)]
pub struct FieldOptions {
    pub input: Input,
    pub modulus: u8,
}

/// The options of `verify` and `migrate`: the name of a file, or none for standard input.
#[derive(Drop)]
pub struct NameOptions {
    pub name: Option<String>,
}

/// The options of `covers`: the most sheets that are listed, 1 to 8, the number of steps that the search may take, 1 to
/// 10^15, and where the listing begins.
#[derive(Drop)]
pub struct CoversOptions {
    pub input: Input,
    pub sheets: u8,
    pub budget: u64,
    pub from: Spot,
}

/// The options of `cover`: the most sheets and the number of steps as of `covers`; the number of the cover in the
/// listing, 1 to 10^9; the component of the space that it covers, 1 to 60,000; the modulus, where Betti numbers are
/// asked for.
#[derive(Drop)]
pub struct CoverOptions {
    pub input: Input,
    pub sheets: u8,
    pub index: u32,
    pub component: u32,
    pub budget: u64,
    pub modulus: Option<u8>,
}

/// The options of `report`: those of `covers`, and the number of elements of the field.
#[derive(Drop)]
pub struct ReportOptions {
    pub input: Input,
    pub modulus: u8,
    pub sheets: u8,
    pub budget: u64,
    pub from: Spot,
}

/// The options of `make`: how many cubes the 3-torus has in each direction, 2 to 19; the modulus, where Betti numbers
/// are asked for.
#[derive(Drop)]
pub struct MakeOptions {
    pub size: u32,
    pub modulus: Option<u8>,
}

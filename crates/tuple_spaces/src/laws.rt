// Laws on definitions: each is the contract of a function with an empty body, and nothing at run time.
ghost use Rattle.tuple_spaces.specs.Torus.{TorusIsRegular};
ghost use Rattle.tuple_spaces.specs.VoxelLaws.{VoxelSpacesAreRegular, KeptVoxelSpacesAreRegular};
ghost use Rattle.tuple_spaces.specs.VoxelLaws.{CubicalSpacesAreRegular};

/// The torus of each size from 2 to 19 is regular.
pub fn torus_is_regular()
    ensures { TorusIsRegular }
{}

/// The space of any voxels in a box of at most three directions is regular.
pub fn voxel_spaces_are_regular()
    ensures { VoxelSpacesAreRegular }
{}

/// The space of the voxels that a test keeps, of all those in such a box, is regular.
pub fn kept_voxel_spaces_are_regular()
    ensures { KeptVoxelSpacesAreRegular }
{}

/// The space of an array of one to three levels is regular.
pub fn cubical_spaces_are_regular()
    ensures { CubicalSpacesAreRegular }
{}

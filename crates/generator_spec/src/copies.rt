ghost use Rattle.generator_spec.specs.CopiedMaps.{CopyGenerates, VendoredGenerates};

/// A copy of the files of a generation's footprint has the map that the tree has.
pub fn copy_generates()
    ensures { CopyGenerates }
{}

/// Where these files were written below a folder that wasn't there, the folder holds such a copy with the same map, and
/// all that is apart from the folder stands as before.
pub fn vendored_generates()
    ensures { VendoredGenerates }
{}

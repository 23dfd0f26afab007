//! Laws of the definitions.

ghost use Rattle.turn_disk.specs.Laws.{ARisenCountDiffers, ASettledDiskHasOneImage};

/// A call that failed shows in the count, whatever the count is.
pub fn a_risen_count_differs()
    ensures { ARisenCountDiffers }
{}

/// Where nothing is pending, a stop leaves the content as it is.
pub fn a_settled_disk_has_one_image()
    ensures { ASettledDiskHasOneImage }
{}

//! What holds of plain images by number.

ghost use Rattle.sx_images.specs.Laws.{ImagesStayKnown};

/// What is known of plain images stays so where more terms are put into the arena.
pub fn images_stay_known()
    ensures { ImagesStayKnown }
{}

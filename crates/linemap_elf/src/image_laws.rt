//! Laws of images. Each function does nothing; its contract is the law, and it is proved.

ghost use Rattle.linemap_elf.specs.ImageLaws.{ImagesAgain};

/// An image that is written is read again, with the bytes of each of its sections.
pub fn images_again()
    ensures { ImagesAgain }
{}

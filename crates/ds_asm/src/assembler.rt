//! From a source to its image.
ghost use Rattle.ds_asm.specs.Inner.Assembling.{Assembles};
ghost use Rattle.ds_asm.specs.Assembly.{assembled};

use crate::fault::AsmFault;
use crate::image::Image;
use crate::layout::layout_of;
use crate::second_pass::bytes_of;
use std::alloc::Global;

/// The image of a source, or its first fault: of two, the one of the first pass, which tests each
/// line's syntax, its label, its numbers and registers, and the image's length; and then the one of
/// the second, which looks labels up.
pub fn assemble(alloc: Global, text: &[u8]) -> Result<Image, AsmFault>
    ensures { Assembles (λ i. i) result (assembled text.now) }
{
    match layout_of(alloc, text) {
        Ok(layout) => match bytes_of(alloc, text, &layout.labels) {
            Ok(bytes) => Ok(Image::of(bytes)),
            Err(fault) => Err(fault),
        },
        Err(first) => Err(first),
    }
}

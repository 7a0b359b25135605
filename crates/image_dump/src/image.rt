//! The dump of an image's file.
ghost use Rattle.std.specs.Prelude.{◌≡◌, ◌<◌, ◌^◌, All, IfErr, IfOk, length};
ghost use Rattle.memory_image.specs.CoreFile.{IsPlaced};
ghost use Rattle.memory_image.specs.Opened.{IsAnswered};
ghost use Rattle.image_dump.specs.Dumped.{IsRoot};
ghost use Rattle.image_dump.specs.Images.{segments_by, status_of, IsImageDumped, IsImageRefused};

use crate::dump::{Dumped, NotDumped, Shape, dump_trees};
use crate::skip::Skip;
use image_trees::Root;
use memory_image::{ImageBytes, Refused, Segment, core_segments, raw_segments};
use std::alloc::Global;
use std::io::Write;

/// What the file of an image is.
#[derive(Clone, Copy, PartialEq, Eq, Debug)]
pub enum Form {
    /// An ELF core.
    Core,
    /// The bytes of memory from an address on.
    Raw { base: u64 },
}

/// The segments of an image of this form.
fn open<I: ImageBytes>(alloc: Global, image: &I, form: Form) -> Result<Vec<Segment>, Refused>
    ensures opened { IsAnswered (I.bytes image.now) (I.may_fail image.now) (segments_by form) result }
    ensures placed { IfOk result (λ segments. All IsPlaced segments.items) }
{
    match form {
        Form::Core => core_segments(alloc, image),
        Form::Raw { base } => raw_segments(alloc, image, base),
    }
}

/// Dumps the trees of an image, of which pages are read as they are needed.
pub fn dump_image<I: ImageBytes, W: Write>(
    alloc: Global,
    image: &I,
    form: Form,
    roots: &[Root],
    vmemmap: Option<u64>,
    skips: &[Skip],
    shape: Shape,
    writer: &mut W,
) -> Result<Dumped, NotDumped>
    requires roots { All IsRoot roots.now }
    requires few { length roots.now < 2 ^ 32 }
    ensures dumped { IfOk result
        (IsImageDumped (I.bytes image.now) (I.may_fail image.now) form roots.now vmemmap skips.now shape
        (W.contents writer.old) (W.contents writer.new)) }
    ensures refused { IfErr result (IsImageRefused (I.bytes image.now) (I.may_fail image.now) form) }
{
    match open(alloc, image, form) {
        Ok(segments) => dump_trees(
            alloc,
            image,
            segments.as_slice(),
            roots,
            vmemmap,
            skips,
            shape,
            writer,
        ),
        Err(refused) => Err(NotDumped::Refused(refused)),
    }
}

/// The exit status of a dump: 0 if nothing is named, 1 if something is, 2 if there is no report.
pub fn dump_status(answer: Result<Dumped, NotDumped>) -> u8
    ensures { result ≡ status_of answer }
{
    match answer {
        Ok(Dumped::Sound) => 0,
        Ok(Dumped::Unsound) => 1,
        Err(_) => 2,
    }
}

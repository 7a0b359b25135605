//! The dump of an image of memory.
ghost use Rattle.std.specs.Prelude.{◌≡◌, ◌<◌, ◌^◌, All, length};
ghost use Rattle.image_dump.specs.Dumped.{IsRoot};
ghost use Rattle.trace_command.specs.Asked.{dump_asked};
ghost use Rattle.trace_cli.specs.Dumping.{HasDumpStatus, IsDumpAnswer, form_by, shape_by};

use crate::files::{OpensImage, ShowsWork};
use crate::progress::WatchedImage;
use crate::telling::{REFUSED, unopened};
use dump_words::{Given, NotGiven, read_words};
use image_dump::{Dumped, Form, NotDumped, Shape, dump_image, dump_status};
use memory_image::{ImageBytes, Refused};
use report_json::{DUMPS, JsonLines};
use std::io::{self, Write};
use trace_command::{Dump, Output};
use trace_reader::Progress;

/// The form of an image, by the address that `--base` gives.
fn form_of(base: Option<u64>) -> Form
    ensures { result ≡ form_by base }
{
    match base {
        Some(base) => Form::Raw { base },
        None => Form::Core,
    }
}

/// The shape of a report, by `--draw`.
fn shape_of(draw: bool) -> Shape
    ensures { result ≡ shape_by draw }
{
    if draw { Shape::Picture } else { Shape::Lines }
}

/// Dumps the image at a path, and gives the exit status.
pub fn dumped<
    R: AllocGlobal + Print + Eprint,
    I: ImageBytes + Drop,
    P: Progress + Drop,
    O: OpensImage<I> + ShowsWork<P>,
>(rt: &R, files: &O, dump: Dump<'_>) -> u8
    ensures { HasDumpStatus I.bytes I.may_fail (O.opens_image files.now) (dump_asked dump.entry) result }
{
    let Dump {
        image: path,
        host,
        hyp,
        guests,
        profiles,
        skips,
        base,
        vmemmap,
        draw,
        output,
    } = dump;
    let given = match read_words(
        rt.alloc(),
        host.as_bytes(),
        hyp.as_bytes(),
        guests.as_slice(),
        profiles.as_slice(),
        skips.as_slice(),
    ) {
        Ok(given) => given,
        Err(fault) => return not_given(rt, fault),
    };
    match files.open_image(path) {
        Ok(image) => {
            let progress = files.progress("pages read", output != Output::Nothing);
            let answer = written(
                rt,
                &image,
                form_of(base),
                &given,
                vmemmap,
                shape_of(draw),
                output,
                &progress,
            );
            told(rt, path, answer);
            dump_status(answer)
        }
        Err(error) => unopened(rt, path, error),
    }
}

/// Writes to standard error which words ask for no dump, and gives the exit status.
fn not_given<R: Eprint>(rt: &R, fault: NotGiven) -> u8
    ensures { result ≡ 2 }
{
    let _ = match fault {
        NotGiven::Bad(word) => eprintln!(rt; "./run: {word}"),
        NotGiven::NoMemory => eprintln!(rt; "./run: out of memory"),
    };
    REFUSED
}

/// Writes the report of an image to standard output, or to nothing, once all is read.
fn written<R: AllocGlobal + Print, I: ImageBytes, P: Progress>(
    rt: &R,
    image: &I,
    form: Form,
    given: &Given,
    vmemmap: Option<u64>,
    shape: Shape,
    output: Output,
    progress: &P,
) -> Result<Dumped, NotDumped>
    requires roots { All IsRoot given.now.roots.items }
    requires few { length given.now.roots.items < 2 ^ 32 }
    ensures { IsDumpAnswer (I.bytes image.now)
        (I.may_fail image.now) form given.now.roots.items vmemmap given.now.skips.items shape result }
{
    let roots = given.roots.as_slice();
    let skips = given.skips.as_slice();
    let watched = WatchedImage { image, progress };
    let mut report = Vec::new(rt.alloc());
    let answer = dump_image(
        rt.alloc(),
        &watched,
        form,
        roots,
        vmemmap,
        skips,
        shape,
        &mut report,
    );
    progress.finish();
    let text = report.as_slice();
    let written = match output {
        Output::Report => io::writer(rt).write_all(text),
        Output::Json => JsonLines::new(rt.alloc(), DUMPS, io::writer(rt)).write_all(text),
        Output::Nothing => Ok(()),
    };
    match written {
        Ok(()) => answer,
        Err(_) => Err(NotDumped::Unwritten),
    }
}

/// Writes to standard error why there is no report, if there is none.
fn told<R: Eprint>(rt: &R, path: &str, answer: Result<Dumped, NotDumped>) {
    let _ = match answer {
        Ok(_) => Ok(()),
        Err(NotDumped::Refused(Refused::Wrong(fault))) => {
            let at = fault.at;
            let why = fault.why;
            eprintln!(rt; "./run: {path}: byte {at}: {why}")
        }
        Err(NotDumped::Refused(Refused::Unread { at })) => eprintln!(rt;
            "./run: {path}: byte {at}: it could not be read"
        ),
        Err(NotDumped::Refused(Refused::NoMemory)) => eprintln!(rt; "./run: {path}: out of memory"),
        Err(NotDumped::Unwritten) => eprintln!(rt;
            "./run: standard output: it could not be written"
        ),
    };
}

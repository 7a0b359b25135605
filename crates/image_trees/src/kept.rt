//! Pages that were read from the image.
ghost use Rattle.std.specs.Prelude.{◌≡◌, ◌≤◌, ◌<◌, ◌^◌, ◌+◌, [], ◌∷◌, ◌++◌, if◌then◌else◌, All, IfOk, OnOk, IfErr, length, map};
ghost use Rattle.memory_image.specs.CoreFile.{IsPlaced};
ghost use Rattle.image_trees.specs.KeptPages.{kept_told, told, HasWords};
ghost use Rattle.image_trees.specs.Kept.{WasAdded, WasNamed, WereNamed, WereRead};
ghost use Rattle.image_trees.specs.Unwalked.{IsPageFailed, IsUnwalked};

use crate::root::{Root, Unwalked};
use memory_image::{ImageBytes, Segment, read_page};
use run_list::Run;
use std::alloc::{AllocError, Global};
use table_words::Decoded;
use walked_tables::{Said, TablePage};

/// A page that was read.
#[derive(Drop)]
pub(crate) struct KeptPage {
    pub frame: u64,
    pub words: Vec<u64>,
}

/// The pages as walks take them.
pub(crate) fn lent<'a>(
    alloc: Global,
    kept: &'a [KeptPage],
) -> Result<Vec<TablePage<'a>>, AllocError>
    ensures { IfOk result (λ pages. map told pages.items ≡ map kept_told kept.now) }
{
    let mut pages = Vec::new(alloc);
    for page in kept {
        pages.push(TablePage {
            frame: page.frame,
            words: page.words.as_slice(),
        })?;
    }
    Ok(pages)
}

/// Adds a page.
fn push_page(kept: &mut Vec<KeptPage>, page: KeptPage) -> Result<(), AllocError>
    ensures { OnOk result (kept.new.items ≡ kept.old.items ++ page ∷ []) }
{
    kept.push(page)?;
    Ok(())
}

/// Adds the page of a frame, if the image has it, and returns whether it has.
fn add_page<I: ImageBytes>(
    alloc: Global,
    image: &I,
    segments: &[Segment],
    frame: u64,
    buffer: &mut [u8],
    kept: &mut Vec<KeptPage>,
) -> Result<bool, Unwalked>
    requires placed { All IsPlaced segments.now }
    requires room { length buffer.old ≡ 4096 }
    requires whole { All HasWords kept.old.items }
    ensures added { IfOk result (WasAdded (I.bytes image.now) segments.now frame kept.old.items kept.new.items) }
    ensures whole { OnOk result (All HasWords kept.new.items) }
    ensures count { IfOk result
        (λ found. length kept.new.items
        ≡ (if found then length kept.old.items + 1 else length kept.old.items)) }
    ensures failed { IfErr result (IsPageFailed (I.may_fail image.now)) }
{
    match read_page(alloc, image, segments, frame, buffer)? {
        Some(words) => {
            push_page(kept, KeptPage { frame, words })?;
            Ok(true)
        }
        None => Ok(false),
    }
}

/// Reads the pages of a root.
pub(crate) fn read_root<I: ImageBytes>(
    alloc: Global,
    image: &I,
    segments: &[Segment],
    root: &Root,
    buffer: &mut [u8],
) -> Result<Vec<KeptPage>, Unwalked>
    requires placed { All IsPlaced segments.now }
    requires room { length buffer.old ≡ 4096 }
    requires frames { root.now.frame + root.now.count < 2 ^ 64 }
    ensures read { IfOk result (λ kept. WereRead (I.bytes image.now) segments.now root.now kept.items) }
    ensures whole { IfOk result (λ kept. All HasWords kept.items) }
    ensures count { IfOk result (λ kept. length kept.items ≡ root.now.count) }
    ensures unwalked { IfErr result (IsUnwalked (I.bytes image.now) (I.may_fail image.now) segments.now root.now) }
{
    let mut kept = Vec::new(alloc);
    for k in 0..root.count {
        let frame = root.frame + k;
        if !add_page(alloc, image, segments, frame, buffer, &mut kept)? {
            return Err(Unwalked::Rootless { frame });
        }
    }
    Ok(kept)
}

/// Adds the page of the table that a run names, if the image has it.
fn add_named<I: ImageBytes>(
    alloc: Global,
    image: &I,
    segments: &[Segment],
    decoded: &Decoded,
    buffer: &mut [u8],
    kept: &mut Vec<KeptPage>,
) -> Result<(), Unwalked>
    requires placed { All IsPlaced segments.now }
    requires room { length buffer.old ≡ 4096 }
    requires whole { All HasWords kept.old.items }
    ensures more { OnOk result
        (WasNamed (I.bytes image.now) segments.now decoded.now kept.old.items kept.new.items) }
    ensures whole { OnOk result (All HasWords kept.new.items) }
    ensures count { OnOk result (length kept.old.items ≤ length kept.new.items) }
    ensures failed { IfErr result (IsPageFailed (I.may_fail image.now)) }
{
    if let Decoded::Table(frame) = *decoded {
        add_page(alloc, image, segments, frame.0, buffer, kept)?;
    }
    Ok(())
}

/// Adds the pages of the tables that runs name and that the image has.
pub(crate) fn add_missing<I: ImageBytes>(
    alloc: Global,
    image: &I,
    segments: &[Segment],
    runs: &[Run<Said>],
    buffer: &mut [u8],
    kept: &mut Vec<KeptPage>,
) -> Result<(), Unwalked>
    requires placed { All IsPlaced segments.now }
    requires room { length buffer.old ≡ 4096 }
    requires whole { All HasWords kept.old.items }
    ensures more { OnOk result
        (WereNamed (I.bytes image.now) segments.now runs.now kept.old.items kept.new.items) }
    ensures whole { OnOk result (All HasWords kept.new.items) }
    ensures count { OnOk result (length kept.old.items ≤ length kept.new.items) }
    ensures failed { IfErr result (IsPageFailed (I.may_fail image.now)) }
{
    for i in 0..runs.len() {
        add_named(alloc, image, segments, &runs[i].value.0, buffer, kept)?;
    }
    Ok(())
}

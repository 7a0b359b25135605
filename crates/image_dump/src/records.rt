//! States that records of frames say, for trees whose words say none.
ghost use Rattle.std.specs.Prelude.{◌≡◌, All, IfErr, IfOk, IfSome};
ghost use Rattle.std.specs.List.{filter_map};
ghost use Rattle.std.specs.Option.{ForSome};
ghost use Rattle.memory_image.specs.CoreFile.{IsPlaced};
ghost use Rattle.run_list.specs.View.{IsKept};
ghost use Rattle.walked_tables.specs.Values.{advance_said, CanGoOn};
ghost use Rattle.image_trees.specs.Records.{records_in, CanRead};
ghost use Rattle.image_trees.specs.Unwalked.{IsFailed};
ghost use Rattle.image_dump.specs.Dumped.{IsFault, IsRoot};
ghost use Rattle.image_dump.specs.Stating.{denial_by, hyp_root as root_of_hyp, is_stated, reported_root as root_as_told, AreDenied, AreRecords, AreReported};

use crate::collect::add;
use crate::dump::NotDumped;
use image_findings::{Finding, denied};
use image_trees::{Records, Root, Unwalked, denied_frame, walk_tree, with_states};
use memory_image::{ImageBytes, Refused, Segment, page_buffer};
use run_list::Run;
use std::alloc::Global;
use table_words::Profile;
use walked_tables::Said;

/// A page number from which on no records can be.
const PAGES: u64 = 1 << 52;

/// Whether records say the states of a tree: the host's, or the hypervisor's, if its words say none.
fn is_told(has_records: bool, root: &Root) -> bool
    ensures { result ≡ is_stated has_records root.now }
{
    has_records && !root.profile.has_states && root.tree < 2
}

/// A root as the report has it: its tree has states if records say them.
pub(crate) fn reported_root(has_records: bool, root: Root) -> Root
    ensures { result ≡ root_as_told has_records root }
{
    if !is_told(has_records, &root) {
        return root;
    }
    Root {
        profile: Profile {
            has_states: true,
            ..root.profile
        },
        ..root
    }
}

/// A tree's runs, with the states that records say if its words say none.
pub(crate) fn reported_runs<I: ImageBytes>(
    alloc: Global,
    image: &I,
    segments: &[Segment],
    records: &Option<Records>,
    root: &Root,
    runs: Vec<Run<Said>>,
) -> Result<Vec<Run<Said>>, Refused>
    requires placed { All IsPlaced segments.now }
    requires records { ForSome records.now CanRead }
    requires kept { IsKept advance_said CanGoOn runs.items }
    ensures told { IfOk result
        (λ out. AreReported
        (I.bytes image.now) segments.now records.now root.now runs.items out.items) }
    ensures failed { IfErr result (IsFailed (I.may_fail image.now)) }
{
    if let Some(records) = records {
        if is_told(true, root) {
            return with_states(alloc, image, segments, records, root.tree, runs.as_slice());
        }
    }
    Ok(runs)
}

/// The runs of a tree that have a frame that its record denies, each with the first such frame.
fn denied_runs<I: ImageBytes>(
    alloc: Global,
    image: &I,
    segments: &[Segment],
    records: &Records,
    tree: u64,
    runs: &[Run<Said>],
) -> Result<Vec<Finding>, Refused>
    requires placed { All IsPlaced segments.now }
    requires records { CanRead records.now }
    ensures denied { IfOk result
        (λ found. ForSome (I.bytes image.now)
        (λ all. found.items
        ≡ filter_map (denial_by (records_in all segments.now records.now) tree) runs.now)) }
    ensures failed { IfErr result (IsFailed (I.may_fail image.now)) }
{
    let mut buffer = page_buffer(alloc)?;
    let bytes = buffer.as_mut_slice();
    let mut found = Vec::new(alloc);
    for i in 0..runs.len() {
        let frame = denied_frame(alloc, image, segments, records, tree, &runs[i], bytes)?;
        add(&mut found, denied(tree, &runs[i], frame))?;
    }
    Ok(found)
}

/// The runs of a tree in the report that records deny, if its words say no states.
pub(crate) fn denied_findings<I: ImageBytes>(
    alloc: Global,
    image: &I,
    segments: &[Segment],
    records: &Option<Records>,
    root: &Root,
    runs: &[Run<Said>],
) -> Result<Vec<Finding>, Refused>
    requires placed { All IsPlaced segments.now }
    requires records { ForSome records.now CanRead }
    ensures denied { IfOk result
        (λ found. AreDenied
        (I.bytes image.now) segments.now records.now root.now runs.now found.items) }
    ensures failed { IfErr result (IsFailed (I.may_fail image.now)) }
{
    if let Some(records) = records {
        if is_told(true, root) {
            return denied_runs(alloc, image, segments, records, root.tree, runs);
        }
    }
    Ok(Vec::new(alloc))
}

/// The hypervisor's root.
fn hyp_root(roots: &[Root]) -> Option<Root>
    requires { All IsRoot roots.now }
    ensures is { result ≡ root_of_hyp roots.now }
    ensures root { IfSome result IsRoot }
{
    roots.iter().copied().find(|root| root.tree == 1)
}

/// The place of the records, if the page is given from which on the hypervisor maps them. That needs a walk of its
/// tree: without one, there are none.
pub(crate) fn records_of<I: ImageBytes>(
    alloc: Global,
    image: &I,
    segments: &[Segment],
    roots: &[Root],
    vmemmap: Option<u64>,
) -> Result<Option<Records>, NotDumped>
    requires placed { All IsPlaced segments.now }
    requires roots { All IsRoot roots.now }
    ensures records { IfOk result
        (AreRecords (I.bytes image.now) (I.may_fail image.now) segments.now
        (root_of_hyp roots.now) vmemmap) }
    ensures can { IfOk result (λ records. ForSome records CanRead) }
    ensures fault { IfErr result (IsFault (I.may_fail image.now)) }
{
    let Some(first) = vmemmap else {
        return Ok(None);
    };
    let Some(root) = hyp_root(roots) else {
        return Ok(None);
    };
    if first >= PAGES {
        return Ok(None);
    }
    match walk_tree(alloc, image, segments, &root) {
        Ok(tree) => Ok(Some(Records {
            hyp: tree.runs,
            first,
        })),
        Err(Unwalked::Failed(refused)) => Err(NotDumped::Refused(refused)),
        Err(_) => Ok(None),
    }
}

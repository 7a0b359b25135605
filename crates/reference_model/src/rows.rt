//! Worked rows: values of the definitions on small states. Each function does nothing, and its contract is the rows.
ghost use Rattle.reference_model.specs.rows.SharedRows.{ShareHypMade, ShareHypNear, ShareHypEnough, ShareHypRefused, UnshareHypMade, UnshareHypRemoves, UnshareHypRefused, DonateHypMade, DonateHypBlock, DonateHypRefused, HypDonateHostMade, HypDonateHostSplits, HypDonateHostRemoves, HypDonateHostRefused};
ghost use Rattle.reference_model.specs.rows.HandRows.{FundMade, FundRefused, UnfundMade, UnfundSplits, UnfundRefused, InstallMade, InstallPlain, InstallRefused, TopupMade, TopupDying, TopupEnough, TopupRefused};
ghost use Rattle.reference_model.specs.rows.GuestRows.{ShareGuestMade, ShareGuestNear, ShareGuestRefused, UnshareGuestMade, UnshareGuestRefused, DonateGuestMade, DonateGuestNear};
ghost use Rattle.reference_model.specs.rows.LoadedRows.{DonateGuestRefused, GuestShareHostMade, GuestShareHostRefused, GuestUnshareHostMade, GuestUnshareHostRefused, GuestRelaxMade, RightsJoined, GuestRelaxRefused, GuestTranslateMade, GuestTranslateRefused};
ghost use Rattle.reference_model.specs.rows.ShortRows.{TablesShort};
ghost use Rattle.reference_model.specs.rows.EndRows.{MarkDyingMade, MarkDyingRefused, ReclaimPageOwned, ReclaimPageShared, ReclaimPageRemoves, ReclaimPageRefused, ReclaimPoolMade, ReclaimPoolRefused, FinishGuestMade, FinishGuestRefused};
ghost use Rattle.reference_model.specs.rows.VmRows.{VmReserveMade, VmReservePlain, VmReserveRefused, VmOpenMade, VmOpenRefused, VcpuLoadMade, VcpuLoadRefused, VcpuPutMade, VcpuPutRefused, TeardownMade, TeardownRefused, VmReleaseMade, VmReleaseRefused};
ghost use Rattle.reference_model.specs.rows.AbortRows.{HostAbortBlock, HostAbortPage, HostAbortKeeps, HostAbortDevice, HostAbortDeviceBlock, HostAbortRegions, HostAbortTable, HostAbortRefused, HostTranslateMade, HypTranslateMade, TranslateRefused, OwnerOfMade, OwnerOfRefused};
ghost use Rattle.reference_model.specs.rows.BootRows.{BootTables, BootMaps, BootBlock, BootOwners, ShareTables, UnshareTables, ShareEnough};
ghost use Rattle.reference_model.specs.rows.PartRows.{SharedUses, GuestUses, GuestAloneUses, VmsUses, NoneUsed, OwnLogFull, SharedLogFull, GuestLogFull, VmsLogFull};
ghost use Rattle.reference_model.specs.rows.GrowthRows.{Grows, NeverGrows};
ghost use Rattle.reference_model.specs.rows.NumberRows.{NumbersMade, NumbersOnly};
ghost use Rattle.reference_model.specs.rows.OwnerRows.{ShareRows, DonateRows, FundRows, MapRows, LendRows, GuestOwns, PoolRows, EndedRows, RowAdvances};
ghost use Rattle.reference_model.specs.rows.FoundRows.{OwnersFound, FirstFound, UsesFound, GuestKept, HypKept};
ghost use Rattle.reference_model.specs.rows.LargeRows.{HostAbortLargest, HostAbortSmaller, FinishGuestShort, FinishGuestSplits};
ghost use Rattle.reference_model.specs.rows.ConditionRows.{HostAloneRow, HostSharedRow, HypRow, GuestRow, RowsOfEach, KeepersRow, MovesRow};
ghost use Rattle.reference_model.specs.rows.RunRows.{LifeBegins, LifeEnds, LifeTables, PlainLife};
ghost use Rattle.reference_model.specs.rows.RangeRows.{BlockGiven, BlockSplit, BlockRefused, BlockReclaimed, RangeAcross, RangeRefused, RangeShared, RangeKept, RangeMoves};

/// The rows of the calls between the host and the hypervisor.
pub fn shared_rows()
    ensures share_hyp_made { ShareHypMade }
    ensures share_hyp_near { ShareHypNear }
    ensures share_hyp_enough { ShareHypEnough }
    ensures share_hyp_refused { ShareHypRefused }
    ensures unshare_hyp_made { UnshareHypMade }
    ensures unshare_hyp_removes { UnshareHypRemoves }
    ensures unshare_hyp_refused { UnshareHypRefused }
    ensures donate_hyp_made { DonateHypMade }
    ensures donate_hyp_block { DonateHypBlock }
    ensures donate_hyp_refused { DonateHypRefused }
    ensures hyp_donate_host_made { HypDonateHostMade }
    ensures hyp_donate_host_splits { HypDonateHostSplits }
    ensures hyp_donate_host_removes { HypDonateHostRemoves }
    ensures hyp_donate_host_refused { HypDonateHostRefused }
{}

/// The rows of the calls that fill and empty a CPU's hand.
pub fn hand_rows()
    ensures fund_made { FundMade }
    ensures fund_refused { FundRefused }
    ensures unfund_made { UnfundMade }
    ensures unfund_splits { UnfundSplits }
    ensures unfund_refused { UnfundRefused }
    ensures install_made { InstallMade }
    ensures install_plain { InstallPlain }
    ensures install_refused { InstallRefused }
    ensures topup_made { TopupMade }
    ensures topup_dying { TopupDying }
    ensures topup_enough { TopupEnough }
    ensures topup_refused { TopupRefused }
{}

/// The rows of the calls on a Live guest's pages.
pub fn guest_rows()
    ensures share_guest_made { ShareGuestMade }
    ensures share_guest_near { ShareGuestNear }
    ensures share_guest_refused { ShareGuestRefused }
    ensures unshare_guest_made { UnshareGuestMade }
    ensures unshare_guest_refused { UnshareGuestRefused }
    ensures donate_guest_made { DonateGuestMade }
    ensures donate_guest_near { DonateGuestNear }
    ensures donate_guest_refused { DonateGuestRefused }
    ensures guest_share_host_made { GuestShareHostMade }
    ensures guest_share_host_refused { GuestShareHostRefused }
    ensures guest_unshare_host_made { GuestUnshareHostMade }
    ensures guest_unshare_host_refused { GuestUnshareHostRefused }
    ensures guest_relax_made { GuestRelaxMade }
    ensures rights_joined { RightsJoined }
    ensures guest_relax_refused { GuestRelaxRefused }
    ensures guest_translate_made { GuestTranslateMade }
    ensures guest_translate_refused { GuestTranslateRefused }
    ensures tables_short { TablesShort }
{}

/// The rows of the calls that end a guest.
pub fn end_rows()
    ensures mark_dying_made { MarkDyingMade }
    ensures mark_dying_refused { MarkDyingRefused }
    ensures reclaim_page_owned { ReclaimPageOwned }
    ensures reclaim_page_shared { ReclaimPageShared }
    ensures reclaim_page_removes { ReclaimPageRemoves }
    ensures reclaim_page_refused { ReclaimPageRefused }
    ensures reclaim_pool_made { ReclaimPoolMade }
    ensures reclaim_pool_refused { ReclaimPoolRefused }
    ensures finish_guest_made { FinishGuestMade }
    ensures finish_guest_refused { FinishGuestRefused }
{}

/// The rows of the calls on the VM part.
pub fn vm_rows()
    ensures vm_reserve_made { VmReserveMade }
    ensures vm_reserve_plain { VmReservePlain }
    ensures vm_reserve_refused { VmReserveRefused }
    ensures vm_open_made { VmOpenMade }
    ensures vm_open_refused { VmOpenRefused }
    ensures vcpu_load_made { VcpuLoadMade }
    ensures vcpu_load_refused { VcpuLoadRefused }
    ensures vcpu_put_made { VcpuPutMade }
    ensures vcpu_put_refused { VcpuPutRefused }
    ensures teardown_made { TeardownMade }
    ensures teardown_refused { TeardownRefused }
    ensures vm_release_made { VmReleaseMade }
    ensures vm_release_refused { VmReleaseRefused }
{}

/// The rows of the calls that map a page for the host, and of the calls that read.
pub fn abort_rows()
    ensures host_abort_block { HostAbortBlock }
    ensures host_abort_page { HostAbortPage }
    ensures host_abort_keeps { HostAbortKeeps }
    ensures host_abort_device { HostAbortDevice }
    ensures host_abort_device_block { HostAbortDeviceBlock }
    ensures host_abort_regions { HostAbortRegions }
    ensures host_abort_table { HostAbortTable }
    ensures host_abort_refused { HostAbortRefused }
    ensures host_translate_made { HostTranslateMade }
    ensures hyp_translate_made { HypTranslateMade }
    ensures translate_refused { TranslateRefused }
    ensures owner_of_made { OwnerOfMade }
    ensures owner_of_refused { OwnerOfRefused }
{}

/// The rows of the boot and of shares after it.
pub fn boot_rows()
    ensures boot_tables { BootTables }
    ensures boot_maps { BootMaps }
    ensures boot_block { BootBlock }
    ensures boot_owners { BootOwners }
    ensures share_tables { ShareTables }
    ensures unshare_tables { UnshareTables }
    ensures share_enough { ShareEnough }
{}

/// The rows of the parts that calls use, of full logs, and of the numbers of calls.
pub fn part_rows()
    ensures shared_uses { SharedUses }
    ensures guest_uses { GuestUses }
    ensures guest_alone_uses { GuestAloneUses }
    ensures vms_uses { VmsUses }
    ensures none_used { NoneUsed }
    ensures own_log_full { OwnLogFull }
    ensures shared_log_full { SharedLogFull }
    ensures guest_log_full { GuestLogFull }
    ensures vms_log_full { VmsLogFull }
    ensures grows { Grows }
    ensures never_grows { NeverGrows }
    ensures numbers_made { NumbersMade }
    ensures numbers_only { NumbersOnly }
{}

/// The owner rows that steps answer, keep and find.
pub fn owner_rows()
    ensures share_rows { ShareRows }
    ensures donate_rows { DonateRows }
    ensures fund_rows { FundRows }
    ensures map_rows { MapRows }
    ensures lend_rows { LendRows }
    ensures guest_owns { GuestOwns }
    ensures pool_rows { PoolRows }
    ensures ended_rows { EndedRows }
    ensures row_advances { RowAdvances }
    ensures owners_found { OwnersFound }
    ensures first_found { FirstFound }
    ensures uses_found { UsesFound }
    ensures guest_kept { GuestKept }
    ensures hyp_kept { HypKept }
{}

/// The rows on blocks of 262,144 pages.
pub fn large_rows()
    ensures host_abort_largest { HostAbortLargest }
    ensures host_abort_smaller { HostAbortSmaller }
    ensures finish_guest_short { FinishGuestShort }
    ensures finish_guest_splits { FinishGuestSplits }
{}

/// The rows of whole lists of steps: the life of a VM.
pub fn run_rows()
    ensures life_begins { LifeBegins }
    ensures life_ends { LifeEnds }
    ensures life_tables { LifeTables }
    ensures plain_life { PlainLife }
{}

/// The rows of ranges that are given to a guest and shared with one.
pub fn range_rows()
    ensures block_given { BlockGiven }
    ensures block_split { BlockSplit }
    ensures block_refused { BlockRefused }
    ensures block_reclaimed { BlockReclaimed }
    ensures range_across { RangeAcross }
    ensures range_refused { RangeRefused }
    ensures range_shared { RangeShared }
    ensures range_kept { RangeKept }
    ensures range_moves { RangeMoves }
{}

/// The rows of the conditions of a frame: its pages, row and keepers in each, and the moves that calls make.
pub fn condition_rows()
    ensures host_alone { HostAloneRow }
    ensures host_shared { HostSharedRow }
    ensures hyp { HypRow }
    ensures guest { GuestRow }
    ensures rows { RowsOfEach }
    ensures keepers { KeepersRow }
    ensures moves { MovesRow }
{}

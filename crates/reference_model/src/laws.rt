//! Laws of the reference model. Each function does nothing, and its contract is the law.
ghost use Rattle.reference_model.specs.claims.Laws.{RefusalKeeps, LogFullKeeps, StepExists, StepOnce, ReplyOnce, EndOnce, PartsEnd, StepChanges, StepReads, StepAgrees, HistoryBegins, HistoryGrows, BootSound};
ghost use Rattle.reference_model.specs.help.Answers.{BarredAnswers, CarriedAnswers, AnswerSteps, FullSteps, UsedSteps};
ghost use Rattle.reference_model.specs.help.ChangeLaws.{ChangesUsed, ChangesFit, PartChangesFit, TouchedWhole};
ghost use Rattle.reference_model.specs.help.Held.{HistorySteps, CallGrows, HeldStored};
ghost use Rattle.reference_model.specs.help.Rely.{ReachedRelies, RelyingAnswers};
ghost use Rattle.reference_model.specs.help.RoomLaws.{StoredFalls, RunRooms};
ghost use Rattle.reference_model.specs.rows.Examples.{NeedRow, SplitRow, RemovalRow, FoldRow, UnalignedRow, CanBootRow, BootRow, WideBootRow, ShareRow, BesideRow, NearRow, AgainRow, CarveRow, DeviceRow, PastRow, NoFrameRow, OneFrameRow, FullLogRow, FullSharedRow, RoomRow, OwnerRow};
ghost use Rattle.reference_model.specs.claims.RunLaws.{LegalRows, LegalSound, KnownLegalSound, BootLegal, EachBootRow, LegalKeeps, RunLegal, RunSound, RunRows, AcceptedUsable, AcceptedDepth, AcceptedMade, TouchedRows};
ghost use Rattle.reference_model.specs.claims.RowLaws.{LegalRowsTrue, RunRowsTrue, RowOnce};
ghost use Rattle.reference_model.specs.help.ConditionChanges.{ConditionOnce, ConditionsMove};
ghost use Rattle.reference_model.specs.claims.OrderLaws.{PartsRun, PartsHistory};
ghost use Rattle.reference_model.specs.help.PoolOrder.{RunInOrder};
ghost use Rattle.reference_model.specs.claims.Bounds.{BoundedKeeps, RunBounded};
ghost use Rattle.reference_model.specs.claims.Isolation.{Isolated, RunIsolated, OthersKeptOut, RunKeptOut};
ghost use Rattle.reference_model.specs.claims.HeldFrames.{HandStays, HeldStays, RunHeldStays};
ghost use Rattle.reference_model.specs.claims.TreeLaws.{RunCanonical, RunFailsByMaps};

/// A step that refuses changes nothing but the rooms of logs, and with LogFull not even these.
pub fn refusal_keeps()
    ensures state { RefusalKeeps }
    ensures log_full { LogFullKeeps }
{}

/// The reference step is defined for every state and step, and each reply has one next state.
pub fn step_defined()
    ensures exists { StepExists }
    ensures once { StepOnce }
    ensures reply { ReplyOnce }
{}

/// Two ends of runs with the same calls and replies are equal, and so are two whose parts are the same.
pub fn end_once()
    ensures calls { EndOnce }
    ensures parts { PartsEnd }
{}

/// A list with the parts of a run, and its calls of each CPU, is a run to the same end, and so it is with a legal history.
pub fn any_order()
    ensures run { PartsRun }
    ensures history { PartsHistory }
{}

/// The frame rule: a step reads and changes only the parts that it uses and its CPU's own state.
pub fn frame_rule()
    ensures changes { StepChanges }
    ensures reads { StepReads }
    ensures agrees { StepAgrees }
{}

/// A call that is decided, carried out and stored is a reference step.
pub fn answers()
    ensures barred { BarredAnswers }
    ensures carried { CarriedAnswers }
    ensures steps { AnswerSteps }
    ensures full { FullSteps }
    ensures used { UsedSteps }
    ensures history { HistorySteps }
    ensures call { CallGrows }
    ensures held { HeldStored }
{}

/// A rule changes only parts that its step uses; its changes can be written and made, and touch only memory frames or
/// none.
pub fn change_laws()
    ensures used { ChangesUsed }
    ensures fit { ChangesFit }
    ensures parts { PartChangesFit }
    ensures touched { TouchedWhole }
{}

/// Each stored call takes one from the room of each log that it uses, and from no other, so a log's room follows from
/// its calls.
pub fn rooms()
    ensures falls { StoredFalls }
    ensures told { RunRooms }
{}

/// One legal history is empty at boot, and grows by each call that leads on from its end and is stored in the logs of
/// the parts that it uses and of its CPU.
pub fn history_grows()
    ensures begins { HistoryBegins }
    ensures grows { HistoryGrows }
{}

/// The boot state is sound.
pub fn boot_sound()
    ensures { BootSound }
{}

/// Values of the definitions on worked rows: changes of trees, boots, and shares that are made and refused.
pub fn worked_rows()
    ensures need { NeedRow }
    ensures split { SplitRow }
    ensures removal { RemovalRow }
    ensures fold { FoldRow }
    ensures unaligned { UnalignedRow }
    ensures can_boot { CanBootRow }
    ensures boot { BootRow }
    ensures wide_boot { WideBootRow }
    ensures share { ShareRow }
    ensures beside { BesideRow }
    ensures near { NearRow }
    ensures again { AgainRow }
    ensures carve { CarveRow }
    ensures device { DeviceRow }
    ensures past { PastRow }
    ensures no_frame { NoFrameRow }
    ensures one_frame { OneFrameRow }
    ensures full_log { FullLogRow }
    ensures full_shared { FullSharedRow }
    ensures room { RoomRow }
    ensures owner { OwnerRow }
{}

/// The row of a frame from scratch is that of its condition.
pub fn legal_rows()
    ensures { LegalRows }
{}

/// A legal state is sound, and that it is legal somehow is enough.
pub fn legal_sound()
    ensures legal { LegalSound }
    ensures known { KnownLegalSound }
{}

/// The boot state is legal, and by its rows the hypervisor owns the carve-out and the host all other memory.
pub fn boot_legal()
    ensures legal { BootLegal }
    ensures rows { EachBootRow }
{}

/// Each reference step keeps the invariant.
pub fn legal_keeps()
    ensures { LegalKeeps }
{}

/// Each state of a run is legal.
pub fn run_legal()
    ensures { RunLegal }
{}

/// Each state of a run is sound, and its kept rows are the rows from scratch.
pub fn run_sound()
    ensures sound { RunSound }
    ensures rows { RunRows }
{}

/// Each tree of each state of a run is the one coarsest tree of its map, and no tree of the map has fewer tables. So
/// the maps and the numbers of free frames determine whether a step fails the test of the pools.
pub fn run_canonical()
    ensures trees { RunCanonical }
    ensures by_maps { RunFailsByMaps }
{}

/// Each accepted layout meets the premises of the laws on layouts, and its depth is that of its geometry.
pub fn accepted_usable()
    ensures usable { AcceptedUsable }
    ensures depth { AcceptedDepth }
    ensures made { AcceptedMade }
{}

/// The rows that a made step finds again follow from its changes.
pub fn touched_rows()
    ensures { TouchedRows }
{}

/// No step takes a frame from a Live guest or changes its page, and nobody else maps it, except the host while the
/// guest shares it.
pub fn isolation()
    ensures isolated { Isolated }
    ensures run { RunIsolated }
    ensures kept_out { OthersKeptOut }
    ensures run_kept_out { RunKeptOut }
{}

/// A frame that the host gave for a VM's tables stays with the hypervisor: no step takes it back before the guest is
/// Dying, and only the CPU itself empties its hand.
pub fn held_frames()
    ensures stays { HeldStays }
    ensures run { RunHeldStays }
    ensures hand { HandStays }
{}

/// The numbers in a state of a run are bounded.
pub fn bounds()
    ensures keeps { BoundedKeeps }
    ensures run { RunBounded }
{}

/// A kept row is true of its frame: who owns it, who borrows it and where, and which place holds it. No other row is
/// true of it.
pub fn row_laws()
    ensures legal { LegalRowsTrue }
    ensures run { RunRowsTrue }
    ensures once { RowOnce }
{}

/// A state determines the condition of each frame, and a made step moves it as its changes determine.
pub fn conditions()
    ensures once { ConditionOnce }
    ensures moved { ConditionsMove }
{}

/// The free frames of each pool are in order in each state of a run, so that its first are its lowest.
pub fn pools_in_order()
    ensures { RunInOrder }
{}

/// The facts that a step may rely on if the parts that it uses are those of a state that a run can reach.
pub fn relies()
    ensures relies { ReachedRelies }
    ensures answers { RelyingAnswers }
{}

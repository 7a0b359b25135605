//! How words are written, and whose are written how.
ghost use Rattle.std.specs.Prelude.{◌≡◌};
ghost use Rattle.table_words.specs.Profiles.{model_profile, hypervisor_profile, host_profile, guest_profile};

/// How bits 5:2 say the memory.
#[derive(Clone, Copy, PartialEq, Eq)]
pub enum MemoryForm {
    /// The model's: write-back or Device.
    TwoKinds,
    /// An index into MAIR_EL2, in stage 1.
    Index,
    /// Stage 2's attributes.
    Combined,
    /// Stage 2's attributes with FWB.
    Forced,
    /// Stage 2, always as stage 1 says.
    Passed,
    /// Stage 2 with FWB, always as stage 1 says.
    PassedForced,
}

/// How bits 7:6 say which accesses are let through.
#[derive(Clone, Copy, PartialEq, Eq)]
pub enum AccessForm {
    /// The model's: S2AP, and reads always.
    Readable,
    /// AP of a stage 1 with one level of privilege.
    OneLevel,
    /// AP of a stage 1 with two levels of privilege, with nothing for EL0.
    TwoLevels,
    /// S2AP.
    Each,
}

/// How bits 54:53 say who may execute.
#[derive(Clone, Copy, PartialEq, Eq)]
pub enum ExecuteForm {
    /// One bit for all, 54.
    OneBit,
    /// UXN and PXN, in stage 1.
    UxnPxn,
    /// XN[1:0], in stage 2.
    XnPair,
}

/// What invalid words may say beside 0.
#[derive(Clone, Copy, PartialEq, Eq)]
pub enum InvalidForm {
    /// The model's: an owner.
    OwnerByte,
    /// An owner, or a change under way.
    OwnerOrLock,
    /// A change under way.
    Lock,
    /// A typed annotation: an owner with a guest's page, or a change under way.
    Donation,
    /// A typed annotation: that the page was taken by force, or a change under way.
    Poison,
    /// A leaf whose valid bit was cleared.
    ClearedLeaf,
}

/// How the words of a table are written, 4 KiB granule.
#[derive(Clone, Copy, PartialEq, Eq)]
pub struct Profile {
    pub memory: MemoryForm,
    pub access: AccessForm,
    pub execute: ExecuteForm,
    pub invalid: InvalidForm,
    /// Whether leaves say a state, in bits 56:55.
    pub has_states: bool,
    /// Whether leaves may be guarded, by bit 50.
    pub guards: bool,
    /// Whether leaves may have their access flag clear.
    pub ages: bool,
    /// Whether addresses have 52 bits (LPA2): two of them in place of shareability.
    pub lpa2: bool,
}

/// The Linux releases whose words are known.
#[derive(Clone, Copy, PartialEq, Eq)]
pub enum Release {
    /// 6.12.
    V6,
    /// 7.3.
    V7,
}

/// The model's own words, those of `descriptor`.
pub fn model() -> Profile
    ensures { result ≡ model_profile }
{
    Profile {
        memory: MemoryForm::TwoKinds,
        access: AccessForm::Readable,
        execute: ExecuteForm::OneBit,
        invalid: InvalidForm::OwnerByte,
        has_states: true,
        guards: false,
        ages: false,
        lpa2: false,
    }
}

/// The words of Linux' hypervisor's own stage 1 table: `hvhe` if EL2 runs with HCR_EL2.E2H set.
pub fn linux_hypervisor(release: Release, hvhe: bool, lpa2: bool) -> Profile
    ensures { result ≡ hypervisor_profile release hvhe lpa2 }
{
    Profile {
        memory: MemoryForm::Index,
        access: if hvhe {
            AccessForm::TwoLevels
        } else {
            AccessForm::OneLevel
        },
        execute: match release {
            Release::V6 => ExecuteForm::OneBit,
            Release::V7 => if hvhe {
                ExecuteForm::UxnPxn
            } else {
                ExecuteForm::OneBit
            },
        },
        invalid: InvalidForm::ClearedLeaf,
        has_states: matches!(release, Release::V6),
        guards: true,
        ages: false,
        lpa2,
    }
}

/// The words of the host's stage 2 table under Linux' hypervisor.
pub fn linux_host(release: Release, fwb: bool, lpa2: bool) -> Profile
    ensures { result ≡ host_profile release fwb lpa2 }
{
    match release {
        Release::V6 => Profile {
            memory: MemoryForm::Combined,
            access: AccessForm::Each,
            execute: ExecuteForm::OneBit,
            invalid: InvalidForm::OwnerOrLock,
            has_states: true,
            guards: false,
            ages: false,
            lpa2,
        },
        Release::V7 => Profile {
            memory: if fwb {
                MemoryForm::PassedForced
            } else {
                MemoryForm::Passed
            },
            access: AccessForm::Each,
            execute: ExecuteForm::XnPair,
            invalid: InvalidForm::Donation,
            has_states: false,
            guards: false,
            ages: false,
            lpa2,
        },
    }
}

/// The words of a guest's stage 2 table under Linux.
pub fn linux_guest(release: Release, fwb: bool, lpa2: bool) -> Profile
    ensures { result ≡ guest_profile release fwb lpa2 }
{
    Profile {
        memory: if fwb {
            MemoryForm::Forced
        } else {
            MemoryForm::Combined
        },
        access: AccessForm::Each,
        execute: match release {
            Release::V6 => ExecuteForm::OneBit,
            Release::V7 => ExecuteForm::XnPair,
        },
        invalid: match release {
            Release::V6 => InvalidForm::Lock,
            Release::V7 => InvalidForm::Poison,
        },
        has_states: matches!(release, Release::V7),
        guards: false,
        ages: true,
        lpa2,
    }
}

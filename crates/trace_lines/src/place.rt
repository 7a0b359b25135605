//! Where a line may be.
ghost use Rattle.std.specs.Prelude.{◌≡◌};
ghost use Rattle.trace_lines.specs.Places.{
  after_poke as after_poke_by,
  before_boot as before_boot_by,
  may_stand as may_stand_by,
  may_set as may_set_by,
  of_audit as of_audit_by,
  of_race as of_race_by,
  of_replay as of_replay_by,
};
ghost use Rattle.trace_lines.specs.Settings.{told_of};

use crate::settings::Settings;

/// Which lines a program allows at a place of a trace.
#[derive(Clone, Copy)]
pub struct Allows {
    pub settings: bool,
    pub boot: bool,
    pub steps: bool,
    pub queries: bool,
    pub pokes: bool,
    pub start: bool,
}

impl Allows {
    /// What each program allows before the boot.
    pub fn before_boot() -> Allows
        ensures { result ≡ before_boot_by }
    {
        Allows {
            settings: true,
            boot: true,
            steps: false,
            queries: false,
            pokes: false,
            start: false,
        }
    }

    /// What `replay` allows after it. `started`: `start` came.
    pub fn of_replay(started: bool) -> Allows
        ensures { result ≡ of_replay_by started }
    {
        Allows {
            settings: false,
            boot: false,
            steps: true,
            queries: true,
            pokes: false,
            start: !started,
        }
    }

    /// What `race` allows after it.
    pub fn of_race(started: bool) -> Allows
        ensures { result ≡ of_race_by started }
    {
        Allows {
            settings: false,
            boot: false,
            steps: true,
            queries: false,
            pokes: false,
            start: !started,
        }
    }

    /// What `audit` allows after it, up to the first poke.
    pub fn of_audit(started: bool) -> Allows
        ensures { result ≡ of_audit_by started }
    {
        Allows {
            settings: false,
            boot: false,
            steps: true,
            queries: true,
            pokes: true,
            start: !started,
        }
    }

    /// What `audit` allows after a poke.
    pub fn after_poke() -> Allows
        ensures { result ≡ after_poke_by }
    {
        Allows {
            settings: false,
            boot: false,
            steps: false,
            queries: false,
            pokes: true,
            start: false,
        }
    }
}

/// The name of a setting.
#[derive(Clone, Copy)]
pub enum SettingName {
    Geometry,
    Cpus,
    Log,
    Memory,
    Device,
    Carve,
}

/// What a line asks for, as far as its place goes.
#[derive(Clone, Copy)]
pub enum Verb {
    Setting(SettingName),
    Boot,
    Step,
    Query,
    Poke,
    Start,
}

/// Whether a line may come after these settings, if the program allows these lines.
pub fn may_stand(allows: Allows, settings: &Settings, verb: Verb) -> bool
    ensures { result ≡ may_stand_by allows (told_of settings.now) verb }
{
    match verb {
        Verb::Setting(name) => allows.settings && may_set(settings, name),
        Verb::Boot => allows.boot && settings.carve.is_some(),
        Verb::Step => allows.steps,
        Verb::Query => allows.queries,
        Verb::Poke => allows.pokes,
        Verb::Start => allows.start,
    }
}

/// Whether a setting may come after these: any number of regions, and all else once.
fn may_set(settings: &Settings, name: SettingName) -> bool
    ensures { result ≡ may_set_by (told_of settings.now) name }
{
    match name {
        SettingName::Geometry => settings.geometry.is_none(),
        SettingName::Cpus => settings.cpus.is_none(),
        SettingName::Log => settings.log.is_none(),
        SettingName::Carve => settings.carve.is_none(),
        SettingName::Memory | SettingName::Device => true,
    }
}

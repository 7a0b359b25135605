//! What a trace says before its boot.
ghost use Rattle.std.specs.Prelude.{◌≡◌, OnOk, OnErr};
ghost use Rattle.trace_lines.specs.Settings.{config_of, no_settings, told_after, told_of, with_region};

use crate::line::Setting;
use page_state::{Config, PageRange, Region, RegionKind};
use std::alloc::{AllocError, Global};

/// The settings in the lines before boot. One that no line sets has its default at boot.
#[derive(Drop)]
pub struct Settings {
    pub geometry: Option<u64>,
    pub cpus: Option<u64>,
    pub log: Option<u64>,
    pub regions: Vec<Region>,
    pub carve: Option<PageRange>,
}

impl Settings {
    /// No settings.
    pub fn new(global: Global) -> Settings
        ensures { told_of result ≡ no_settings }
    {
        Settings {
            geometry: None,
            cpus: None,
            log: None,
            regions: Vec::new(global),
            carve: None,
        }
    }

    /// Takes up a setting.
    pub fn say(&mut self, said: Setting) -> Result<(), AllocError>
        ensures ok { OnOk result (told_of self.new ≡ told_after said (told_of self.old)) }
        ensures err { OnErr result (told_of self.new ≡ told_of self.old) }
    {
        match said {
            Setting::Geometry(bits) => self.geometry = Some(bits),
            Setting::Cpus(cpus) => self.cpus = Some(cpus),
            Setting::Log(calls) => self.log = Some(calls),
            Setting::Memory(pages) => self.add_region(RegionKind::Memory, pages)?,
            Setting::Device(pages) => self.add_region(RegionKind::Device, pages)?,
            Setting::Carve(pages) => self.carve = Some(pages),
        }
        Ok(())
    }

    fn add_region(&mut self, kind: RegionKind, pages: PageRange) -> Result<(), AllocError>
        ensures ok { OnOk result (told_of self.new ≡ with_region kind pages (told_of self.old)) }
        ensures err { OnErr result (told_of self.new ≡ told_of self.old) }
    {
        self.regions.push(Region { kind, pages })?;
        Ok(())
    }

    /// The configuration, with the defaults: 39 bits, one CPU, logs of 1,024 calls.
    pub fn config(&self) -> Config
        ensures { result ≡ config_of (told_of self.now) }
    {
        Config {
            cpus: self.cpus.unwrap_or(1),
            log: self.log.unwrap_or(1024),
            geometry: self.geometry.unwrap_or(39),
        }
    }
}

//! All that a station on the whole processor holds.
use ds_core::Core;
use ds_dev::Bus;
use ds_monitor::Monitor;
use ds_tlb::Lookaside;

/// All that a station on the whole processor holds. A contract sees it as a `Held`, which `held`
/// makes of it.
#[derive(Drop)]
pub struct Parts<L: Lookaside> {
    pub core: Core<L>,
    /// Memory and the devices.
    pub bus: Bus,
    /// What is kept beside the processor and its bus.
    pub monitor: Monitor,
    /// An earlier failure stands.
    pub failed: bool,
    /// The instructions that the unit has taken so far.
    pub spent: u32,
    /// The next of the first eight slots of the buffer, which Random never names: they take the
    /// entries of tables' pages in turn (Kane and Heinrich, chapter 4).
    pub wired: u32,
    /// The slots of the buffer that the unit's refills have written, the newest first.
    pub written: [u8; 4],
    /// How many of these there are.
    pub refills: u8,
    /// The steps of Random since the first of these refills.
    pub since: u8,
    /// The entries of tables' pages that the unit has put into the buffer.
    pub tables: u8,
    /// The services after which the unit went on.
    pub services: u8,
}

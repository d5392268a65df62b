//! The outage words. A desk answers one where it gives no reply.
ghost use Rattle.std.specs.Prelude.{◌≡◌, ◌≤◌, length};
ghost use Rattle.desk.specs.Words.{outage_word};

/// Why a desk did nothing.
#[derive(Clone, Copy, Debug, PartialEq, Eq)]
pub enum Outage {
    /// An allocation was refused.
    Memory,
    /// The disk of the register has failed. The command may be on the disk all the same; opening the disk shows it.
    Device,
    /// The disk has failed in an earlier call.
    Broken,
    /// The disk has no room for a further command, and has reached its last epoch.
    Epochs,
    /// The server of the desk has ended. No register, in memory or on a disk, answers this by itself.
    Closed,
}

impl Outage {
    /// The printed word.
    pub fn word(self) -> &'static str
        ensures text { result.now ≡ outage_word self }
        ensures short { length result.now ≤ 32 }
    {
        match self {
            Outage::Memory => "memory",
            Outage::Device => "device",
            Outage::Broken => "broken",
            Outage::Epochs => "epochs",
            Outage::Closed => "closed",
        }
    }
}

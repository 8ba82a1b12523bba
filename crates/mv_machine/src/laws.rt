//! What runs of an image keep. The calls do nothing: their contracts are the laws.

ghost use Rattle.mv_machine.specs.Upgrades.{UpgradesRunAlike};

/// An image runs in version 2 as it does in version 1, whatever its input, the picks of its fetches and what its polls take.
pub fn upgrade_law()
    ensures { UpgradesRunAlike }
{}

//! What follows from how batches stand in an image.

ghost use Rattle.std.specs.Prelude.{◌≡◌, ◌<◌, ◌^◌, ℕ, List};
ghost use Rattle.bd_device.specs.Blocks.{Image};
ghost use Rattle.bd_log.specs.Batches.{AreBatches, IsDamagedAt};
ghost use Rattle.bd_log.specs.declared.batch.Batch.{Batch};

/// A half has one list of open batches, and one place for the next one.
pub fn batches_are_one()
    ensures { (image : Image) (first epoch : ℕ) (some others : List Batch) (end place : ℕ)
        → epoch < 2 ^ 64
        → AreBatches image first epoch some end → AreBatches image first epoch others place
        → (some ≡ others) × (end ≡ place) }
{}

/// A half that is damaged has no list of open batches.
pub fn damage_excludes_batches()
    ensures { (image : Image) (first epoch block : ℕ) (batches : List Batch) (end : ℕ)
        → epoch < 2 ^ 64
        → IsDamagedAt image first epoch block → AreBatches image first epoch batches end → ⊥ }
{}
